// Narrowing along a link, of a source to a line.
ghost use Rattle.std.specs.Prelude.{◌<◌, ◌∷◌, [], ◌↔◌, length, IsTrue};
ghost use Rattle.state_sets.specs.declared.state.State.{State};
ghost use Rattle.state_sets.specs.States.{Has, AreWithin};
ghost use Rattle.state_sets.specs.Labellings.{TellsOfNarrowing};
ghost use Rattle.state_sets.specs.Narrowing.{IsLinkNarrowing};
ghost use Rattle.hulls.specs.LinkPairs.{KeepsLinkedPairs};
ghost use Rattle.hulls.specs.Sets.{Means};

use crate::cutting::{cut_line, told};
use crate::selecting::with_if;
use pd_base::LineId;
use state_sets::{Algebra, Labels, Narrowed, State, StateSet, count_states};

/// Narrows the labels of a source and of the line to which it is linked: the source keeps the states that may be linked to some
/// state of the line, and the line those to which some state of the source may be linked. A line linked to itself keeps what
/// both tests keep. Takes no memory.
pub fn narrow_link<A: Algebra>(labels: &mut Labels<A>, source: LineId, line: LineId) -> Narrowed
    requires source { source.0 < length labels.old }
    requires line { line.0 < length labels.old }
    ensures narrowed { IsLinkNarrowing A.algebra source.0 line.0 labels.old labels.new }
    ensures answer { TellsOfNarrowing (source ∷ line ∷ []) labels.old labels.new result }
    ensures within { AreWithin A.algebra.count labels.old → AreWithin A.algebra.count labels.new }

    // no pair of rules with this link is lost
    ensures pairs { KeepsLinkedPairs A.algebra source.0 line.0 labels.old labels.new }
{
    narrow_sets::<A>(labels.as_mut_slice(), source, line)
}

// The same on the sets alone.
fn narrow_sets<A: Algebra>(labels: &mut [StateSet], source: LineId, line: LineId) -> Narrowed
    requires source { source.0 < length labels.old }
    requires line { line.0 < length labels.old }
    ensures narrowed { IsLinkNarrowing A.algebra source.0 line.0 labels.old labels.new }
    ensures answer { TellsOfNarrowing (source ∷ line ∷ []) labels.old labels.new result }
    ensures within { AreWithin A.algebra.count labels.old → AreWithin A.algebra.count labels.new }
{
    let at_source = linked_sources::<A>(labels[line.0 as usize]);
    let at_line = linked_lines::<A>(labels[source.0 as usize]);
    let source_cut = cut_line(labels, source, at_source);
    let line_cut = cut_line(labels, line, at_line);
    told(labels, &[source], line, source_cut | line_cut)
}

// The states in which a source may be linked to a line with one of these states.
pub(crate) fn linked_sources<A: Algebra>(lines: StateSet) -> StateSet
    ensures { Means A.algebra.count result (λ s. (s.0 < A.algebra.count)
        × ((c : State) × Has A.algebra.count lines c × IsTrue (A.algebra.link s c))) }
{
    let mut found = StateSet::EMPTY;
    for number in 0..count_states::<A>() {
        let state = State(number);
        found = with_if(found, state, links_to_some::<A>(state, lines));
    }
    found
}

// The states of a line to which a source with one of these states may be linked.
pub(crate) fn linked_lines<A: Algebra>(sources: StateSet) -> StateSet
    ensures { Means A.algebra.count result (λ c. (c.0 < A.algebra.count)
        × ((s : State) × Has A.algebra.count sources s × IsTrue (A.algebra.link s c))) }
{
    let mut found = StateSet::EMPTY;
    for number in 0..count_states::<A>() {
        let state = State(number);
        found = with_if(found, state, some_links_to::<A>(sources, state));
    }
    found
}

// Whether a source in this state may be linked to a line with one of these states.
fn links_to_some<A: Algebra>(source: State, lines: StateSet) -> bool
    requires { source.0 < A.algebra.count }
    ensures { IsTrue result ↔ ((c : State) × Has A.algebra.count lines c × IsTrue (A.algebra.link source c)) }
{
    for number in 0..count_states::<A>() {
        if lines.holds(State(number)) && A::link(source, State(number)) {
            return true;
        }
    }
    false
}

// Whether a source with one of these states may be linked to a line in this state.
fn some_links_to<A: Algebra>(sources: StateSet, line: State) -> bool
    requires { line.0 < A.algebra.count }
    ensures { IsTrue result ↔ ((s : State) × Has A.algebra.count sources s × IsTrue (A.algebra.link s line)) }
{
    for number in 0..count_states::<A>() {
        if sources.holds(State(number)) && A::link(State(number), line) {
            return true;
        }
    }
    false
}
