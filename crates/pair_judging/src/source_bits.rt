// The bits of the vectors at a source and its state, both ways: a pair of vectors that is read off states, and states of sources that are
// read off a pair.
ghost use Rattle.std.specs.Prelude.{◌≡◌, ◌≢◌, ◌<◌, ℕ, false, length, slice_index_or, All, AllPairs, IfOk, IsTrue, Contains};
ghost use Rattle.netlist.specs.Circuit.{source_count, line_count};
ghost use Rattle.netlist.specs.Values.{value};
ghost use Rattle.state_sets.specs.StateAlgebra.{same_bit};
ghost use Rattle.pair_judging.specs.ConeStates.{state_in, AreStates, AreSourceStates, IsReadFrom};
ghost use Rattle.pair_judging.specs.SourceBits.{first_bit, HasBitsAt, AreLinkBits, AreTakenOf};
ghost use Rattle.netlist.specs.LinkedPairs.{AreLinksOf};
ghost use Rattle.cones.specs.FoundLines.{HasMark};
ghost use Rattle.cones.specs.Marks.{is_marked};
ghost use Rattle.cones.specs.KeptCones.{IsConeFor, IsConeAt};

use cones::{Cone, SourceLinks};
use logic_values::evaluate;
use netlist::Netlist;
use pd_base::{LineId, OutOfMemory, Pair};
use state_sets::{Algebra, State};
use std::alloc::Global;

/// The pair that has these states at the sources of a cone. At the others its first vector is 0, and the second has the first value of
/// the line to which a source is linked, or 0. The one error is that memory ran out.
pub fn read_test<A: Algebra>(
    alloc: Global,
    net: &Netlist,
    cone: &Cone,
    states: &[State],
) -> Result<Pair, OutOfMemory>
    requires made { IsConeFor net.now cone.now }
    requires sources { All (λ source. source.0 < source_count net.now) cone.now.sources }
    requires places { length states.now ≡ line_count net.now }
    requires states { AreSourceStates A.algebra cone.now.sources states.now }
    ensures { IfOk result (λ pair. (end : ℕ) → IsConeAt net.now end cone.now → IsReadFrom A.algebra net.now cone.now.links end states.now pair) }
{
    let count = net.sources() as usize;
    let mut first = vec![in alloc; false; count]?;
    let mut second = vec![in alloc; false; count]?;
    write_bits::<A>(
        cone.sources(),
        states,
        first.as_mut_slice(),
        second.as_mut_slice(),
    );
    link_bits(alloc, net, cone, first.as_slice(), second.as_mut_slice())?;
    Ok(Pair::new(first, second))
}

// Gives each linked source outside the cone the first value of its line as its second bit.
fn link_bits(
    alloc: Global,
    net: &Netlist,
    cone: &Cone,
    first: &[bool],
    second: &mut [bool],
) -> Result<(), OutOfMemory>
    requires made { IsConeFor net.now cone.now }
    requires first { length first.now ≡ source_count net.now }
    requires second { length second.old ≡ source_count net.now }
    ensures places { length second.new ≡ length second.old }
    ensures linked { IfOk result (λ done. AreLinkBits (value net.now first.now) cone.now.links (λ source. Contains cone.now.found.lines (record { 0 = source })) second.old second.new) }
{
    give_bits(alloc, net, cone.links(), cone.marks(), first, second)?;
    Ok(())
}

// Gives each linked source without a mark the first value of its line as its second bit.
fn give_bits(
    alloc: Global,
    net: &Netlist,
    links: &SourceLinks,
    marks: &[bool],
    first: &[bool],
    second: &mut [bool],
) -> Result<(), OutOfMemory>
    requires links { AreLinksOf net.now links.now }
    requires first { length first.now ≡ source_count net.now }
    requires second { length second.old ≡ source_count net.now }
    ensures places { length second.new ≡ length second.old }
    ensures linked { IfOk result (λ done. AreLinkBits (value net.now first.now) links.now (HasMark marks.now) second.old second.new) }
{
    if give_first_bits(net, links, marks, first, second) {
        return Ok(());
    }
    let mut values = vec![in alloc; false; net.lines() as usize]?;
    evaluate(net, first, values.as_mut_slice());
    write_links(links.pairs(), marks, values.as_slice(), second);
    Ok(())
}

// The same where no source is linked to the line of a gate: the first values of sources stand in the first vector, and no line is
// evaluated. Returns whether it is so; else nothing is written.
pub(crate) fn give_first_bits(
    net: &Netlist,
    links: &SourceLinks,
    marks: &[bool],
    first: &[bool],
    second: &mut [bool],
) -> bool
    requires links { AreLinksOf net.now links.now }
    requires first { length first.now ≡ source_count net.now }
    requires second { length second.old ≡ source_count net.now }
    ensures places { length second.new ≡ length second.old }
    ensures linked { IsTrue result → AreLinkBits (value net.now first.now) links.now (HasMark marks.now) second.old second.new }
    ensures kept { result ≡ false → second.new ≡ second.old }
{
    if !are_sources(links.pairs(), net.sources()) {
        return false;
    }
    write_links(links.pairs(), marks, first, second);
    true
}

// Whether the line of each of these links is that of a source.
fn are_sources(links: &[(LineId, LineId)], sources: u32) -> bool
    ensures { IsTrue result → All (λ link. link.1.0 < sources) links.now }
{
    for link in links {
        if link.1.0 >= sources {
            return false;
        }
    }
    true
}

// Gives each linked source without a mark the value of its line.
pub(crate) fn write_links(
    links: &[(LineId, LineId)],
    marks: &[bool],
    values: &[bool],
    second: &mut [bool],
)
    requires values { All (λ link. link.1.0 < length values.now) links.now }
    requires second { All (λ link. link.0.0 < length second.old) links.now }
    requires once { AllPairs (λ a b. a.0 ≢ b.0) links.now }
    ensures places { length second.new ≡ length second.old }
    ensures linked { AreLinkBits (λ line. slice_index_or values.now line false) links.now (HasMark marks.now) second.old second.new }
{
    for link in links {
        let source = link.0.0 as usize;
        let kept = is_marked(marks, source);
        if !kept {
            second[source] = values[link.1.0 as usize];
        }
    }
}

// Whether there is a mark at a place, past which there are none.
fn is_marked(marks: &[bool], place: usize) -> bool
    ensures { result ≡ is_marked marks.now place }
{
    if place < marks.len() {
        marks[place]
    } else {
        false
    }
}

// Writes the bits of these sources into the two vectors, which stay as they are at the others.
pub(crate) fn write_bits<A: Algebra>(
    sources: &[LineId],
    states: &[State],
    first: &mut [bool],
    second: &mut [bool],
)
    requires places { All (λ source. source.0 < length states.now) sources.now }
    requires first { All (λ source. source.0 < length first.old) sources.now }
    requires second { All (λ source. source.0 < length second.old) sources.now }
    requires states { AreSourceStates A.algebra sources.now states.now }
    ensures first { HasBitsAt (λ source. first_bit A.algebra (state_in states.now source)) sources.now first.old first.new }
    ensures second { HasBitsAt (λ source. A.algebra.last (state_in states.now source)) sources.now second.old second.new }
{
    for source in sources {
        let at = source.0 as usize;
        first[at] = bit_before::<A>(states[at]);
        second[at] = bit_after::<A>(states[at]);
    }
}

// The bit of the first vector at a source in this state.
pub(crate) fn bit_before<A: Algebra>(state: State) -> bool
    requires { state.0 < A.algebra.count }
    ensures { result ≡ first_bit A.algebra state }
{
    A::is_steady(state) == A::last(state)
}

// The bit of the second vector there.
pub(crate) fn bit_after<A: Algebra>(state: State) -> bool
    requires { state.0 < A.algebra.count }
    ensures { result ≡ A.algebra.last state }
{
    A::last(state)
}

/// Puts each of these sources into its state under a pair of vectors. Takes no memory.
pub(crate) fn take_pair<A: Algebra>(sources: &[LineId], pair: &Pair, states: &mut [State])
    requires bits { All (λ source. source.0 < length pair.now.first) sources.now }
    requires places { All (λ source. source.0 < length states.old) sources.now }
    requires states { AreStates A.algebra.count states.old }
    ensures places { length states.new ≡ length states.old }
    ensures states { AreStates A.algebra.count states.new }
    ensures taken { AreTakenOf A.algebra pair.now sources.now states.new }
{
    let first = pair.first();
    let second = pair.second();
    for source in sources {
        let at = source.0 as usize;
        states[at] = state_of_bits::<A>(first[at], second[at]);
    }
}

// The state of a source with these bits in the two vectors: steady where they are one.
fn state_of_bits<A: Algebra>(first: bool, second: bool) -> State
    ensures state { result ≡ A.algebra.of (same_bit first second) first second }
    ensures in_range { result.0 < A.algebra.count }
{
    A::of(first == second, first, second)
}
