// The labels of a board while no scope is open, and how a scope begins. The idle labels are computed once, forward from sources that start
// as the rules leave them; links rest there too, since a source may be linked to a line in any state. Where the source may launch its transition by its idle label, a beginning cuts that label, at the cost of what
// changes. Else it writes the states that launch the transition at the source, and at each line that the source reaches, by level, what
// its gate makes of the sets of its pins' lines: no narrowing changes these sets, and no other line has another set than its idle label.
ghost use Rattle.std.specs.Prelude.{◌≡◌, ◌≢◌, ◌<◌, ◌≤◌, [], ℕ, length, All, Contains, IfOk, IfSome, IfNone};
ghost use Rattle.pd_base.specs.Links.{links_of};
ghost use Rattle.pd_base.specs.declared.ids.LineId.{LineId};
ghost use Rattle.pd_base.specs.declared.rules.Rules.{Rules};
ghost use Rattle.netlist.specs.Circuit.{Circuit, source_count, line_count};
ghost use Rattle.netlist.specs.Lawful.{IsCircuit};
ghost use Rattle.state_sets.specs.States.{IsWithin, AreWithin, no_states};
ghost use Rattle.state_sets.specs.Labellings.{label_at};
ghost use Rattle.state_laws.specs.Forward.{IsForward};
ghost use Rattle.hulls.specs.Conditions.{IsEnteredOn};
ghost use Rattle.hulls.specs.Awaiting.{is_inside};
ghost use Rattle.hulls.specs.Boards.{IsBoardOf};
ghost use Rattle.implication.specs.Idling.{IsIdleSet, StartsNowhere, StandsBy, IsIdleBoard, IsNewBoard, IsLeftAtRest};
ghost use Rattle.implication.specs.ByLevel.{lines_by_level, IsByLevel};
ghost use Rattle.implication.specs.Begun.{HasBegunWith, AreBegun, IsBegunFrom, IsStartFound};

use crate::Beginning;
use crate::images::image;
use crate::narrowing_on::narrow_on_cut;
use crate::ranking::{is_by_level, rank};
use crate::reaching::reach;
use cones::FoundLines;
use hulls::{Board, Conditions, NarrowScratch, launching_states, other_states};
use netlist::Netlist;
use pd_base::{LineId, OutOfMemory, Rules};
use state_sets::{Algebra, StateSet, every_state};
use std::alloc::Global;
use std::marker::Model;

// The idle labels of a board, and the lines that the scope that is open began forward.
#[derive(Drop)]
pub(crate) struct IdleLabels {
    labels: Vec<StateSet>,
    // In the order in which the transition reaches them; none where no scope is open, or where its beginning cut labels.
    reached: FoundLines,
    // Room to list them by level, each with its level, where they were not reached so.
    ranked: Vec<(u32, LineId)>,
}

impl Model for IdleLabels {
    ghost use Rattle.std.specs.Prelude.{◌≡◌, ◌≤◌, length, vec_capacity};
    ghost use Rattle.implication.specs.Idling.{Idling};

    ghost Value = { Idling };

    ghost view = { λ i. record { labels = i.labels.items; reached = i.reached.lines } };

    ghost invariant = { λ i. (i.reached.room ≡ length i.labels.items) × (length i.labels.items ≤ vec_capacity i.ranked) };
}

impl IdleLabels {
    // The idle labels of a new board, which has them then. It fails only where memory runs out.
    pub(crate) fn new<A: Algebra>(
        alloc: Global,
        net: &Netlist,
        rules: &Rules,
        board: &mut Board<A>,
        conditions: &Conditions,
        scratch: &mut NarrowScratch,
    ) -> Result<IdleLabels, OutOfMemory>
        requires board { IsNewBoard A.algebra.count net.now board.old }
        requires conditions { IsEnteredOn net.now conditions.now }
        requires no_steps { conditions.now.steps ≡ [] }
        ensures idle { IfOk result (λ idle. IsIdleBoard A.algebra net.now rules.now idle board.new) }
        ensures board { IsLeftAtRest board.old board.new }
    {
        let set = idle_set::<A>(rules);
        settle_idle(net, set, board, conditions, scratch);
        let labels = Vec::from_slice(alloc, board.labels())?;
        let reached = FoundLines::new(alloc, labels.len())?;
        let ranked = Vec::with_capacity(alloc, labels.len())?;
        board.undo_to(0);
        put_labels(net, labels.as_slice(), board);
        Ok(IdleLabels {
            labels,
            reached,
            ranked,
        })
    }

    // Begins with a transition at a source: the labels are then the hull of the start by the narrowings inside, or no state is left
    // at the line that it gives. Takes no memory, and costs what changes, or what the source reaches.
    pub(crate) fn begin<A: Algebra>(
        &mut self,
        net: &Netlist,
        rules: &Rules,
        begun: Beginning,
        board: &mut Board<A>,
        conditions: &Conditions,
        scratch: &mut NarrowScratch,
    ) -> Option<LineId>
        requires source { begun.source.0 < source_count net.now }
        requires idle { IsIdleBoard A.algebra net.now rules.now self.old board.old }
        requires links { links_of rules.now ≡ [] → board.old.links ≡ [] }
        requires conditions { IsEnteredOn net.now conditions.now }
        requires no_steps { conditions.now.steps ≡ [] }
        ensures start { IsStartFound A.algebra net.now rules.now begun board.old conditions.now.kind board.new.labels result }
        ensures stands { StandsBy A.algebra net.now rules.now self.new board.new }
        ensures board { IsLeftAtRest board.old board.new }
    {
        let launched = launching_states::<A>(begun.direction);
        if launched == StateSet::EMPTY {
            return Some(begun.source);
        }
        if let Some(other) = stuck_source::<A>(net, rules, begun.source) {
            return Some(other);
        }
        let common = board.get(begun.source).intersect(launched);
        if common == launched {
            return narrow_on_cut(net, begun.source, launched, board, conditions, scratch);
        }
        self.begin_forward(net, begun.source, launched, board);
        None
    }

    // Begins at the lines that a source reaches, forward from what is launched there.
    fn begin_forward<A: Algebra>(
        &mut self,
        net: &Netlist,
        source: LineId,
        launched: StateSet,
        board: &mut Board<A>,
    )
        requires source { source.0 < source_count net.now }
        requires nothing_reached { self.old.reached ≡ [] }
        requires one_each { length self.old.labels ≡ line_count net.now }
        requires board { IsBoardOf net.now board.old }
        requires within { AreWithin A.algebra.count board.old.labels }
        requires launched { IsWithin A.algebra.count launched }
        requires unnoted { board.old.notes ≡ [] }
        ensures launched { IsBegunFrom A.algebra net.now source.0 launched self.new.reached board.old board.new }
        ensures labels { self.new.labels ≡ self.old.labels }
    {
        reach(net, board, source, &mut self.reached);
        let found = self.reached.lines();
        if is_by_level(net, found) {
            begin_lines(net, found, launched, board);
            return;
        }
        rank(net, found, &mut self.ranked);
        begin_ranked(net, self.ranked.as_slice(), launched, board);
    }

    // The lines that the scope that is open began forward, from its source on: none where its beginning cut labels.
    pub(crate) fn begun_lines(&self) -> &[LineId]
        ensures { All (λ line. line.0 < length self.now.labels) result.now }
    {
        self.reached.lines()
    }

    // Undoes all changes of the board, and gives it the idle labels back. Takes no memory, and costs what was changed and reached.
    pub(crate) fn end<A: Algebra>(&mut self, board: &mut Board<A>)
        requires stands { (c : Circuit) × (rules : Rules) × StandsBy A.algebra c rules self.old board.old }
        ensures idle { (c : Circuit) (rules : Rules) → StandsBy A.algebra c rules self.old board.old
            → IsIdleBoard A.algebra c rules self.new board.new }
        ensures board { IsLeftAtRest board.old board.new }
    {
        board.undo_to(0);
        give_back(self.labels.as_slice(), &mut self.reached, board);
    }
}

// The set of the sources while no scope is open.
fn idle_set<A: Algebra>(rules: &Rules) -> StateSet
    ensures within { IsWithin A.algebra.count result }
    ensures set { IsIdleSet A.algebra rules.now result }
{
    let others = other_states::<A>(rules);
    if others == StateSet::EMPTY {
        return every_state::<A>();
    }
    others
}

// Narrows from a new board, on which the sources get this set.
fn settle_idle<A: Algebra>(
    net: &Netlist,
    set: StateSet,
    board: &mut Board<A>,
    conditions: &Conditions,
    scratch: &mut NarrowScratch,
)
    requires set { IsWithin A.algebra.count set }
    requires some { set ≢ no_states }
    requires board { IsNewBoard A.algebra.count net.now board.old }
    requires conditions { IsEnteredOn net.now conditions.now }
    requires no_steps { conditions.now.steps ≡ [] }
    ensures of { IsBoardOf net.now board.new }
    ensures forward { IsForward A.algebra net.now (is_inside board.old.inside) set board.new.labels }
    ensures board { IsLeftAtRest board.old board.new }
{
    write_sources(net, set, board);
    board.settle_all(net, conditions, scratch);
}

// Writes a set at each source.
fn write_sources<A: Algebra>(net: &Netlist, set: StateSet, board: &mut Board<A>)
    requires set { IsWithin A.algebra.count set }
    requires lines { length board.old.labels ≡ line_count net.now }
    requires unnoted { board.old.notes ≡ [] }
    ensures board { board.new ≡ record board.old { labels = board.new.labels } }
    ensures circuit { IsCircuit net.now }
    ensures one_each { length board.new.labels ≡ length board.old.labels }
    ensures sources { (line : ℕ) → line < source_count net.now → label_at board.new.labels line ≡ set }
    ensures gates { (line : ℕ) → source_count net.now ≤ line → label_at board.new.labels line ≡ label_at board.old.labels line }
{
    for source in 0..net.sources() {
        board.write(LineId(source), set);
    }
}

// Writes these labels.
fn put_labels<A: Algebra>(net: &Netlist, labels: &[StateSet], board: &mut Board<A>)
    requires within { AreWithin A.algebra.count labels.now }
    requires one_each { length labels.now ≡ line_count net.now }
    requires lines { length board.old.labels ≡ line_count net.now }
    requires unnoted { board.old.notes ≡ [] }
    ensures { board.new ≡ record board.old { labels = labels.now } }
{
    for line in 0..net.lines() {
        board.write(LineId(line), labels[line as usize]);
    }
}

// Another source than this one, if there is one and the rules leave it no state.
fn stuck_source<A: Algebra>(net: &Netlist, rules: &Rules, source: LineId) -> Option<LineId>
    requires { source.0 < source_count net.now }
    ensures stuck { IfSome result (λ other. (other.0 < source_count net.now) × (other.0 ≢ source.0) × StartsNowhere A.algebra rules.now) }
    ensures circuit { IsCircuit net.now }
    ensures none { IfNone result (StartsNowhere A.algebra rules.now → (line : ℕ) → line < source_count net.now → line ≡ source.0) }
{
    let sources = net.sources();
    if other_states::<A>(rules) != StateSet::EMPTY {
        return None;
    }
    let other = if source.0 == 0 { 1 } else { 0 };
    if other < sources {
        return Some(LineId(other));
    }
    None
}

// Writes at each of these lines the set with which it begins.
fn begin_lines<A: Algebra>(
    net: &Netlist,
    lines: &[LineId],
    launched: StateSet,
    board: &mut Board<A>,
)
    requires one_each { length board.old.labels ≡ line_count net.now }
    requires within { AreWithin A.algebra.count board.old.labels }
    requires in_circuit { All (λ line. line.0 < line_count net.now) lines.now }
    requires by_level { IsByLevel net.now lines.now }
    requires launched { IsWithin A.algebra.count launched }
    requires unnoted { board.old.notes ≡ [] }
    ensures { AreBegun A.algebra net.now launched lines.now board.old board.new }
{
    // a netlist knows itself as a circuit
    let _ = net.sources();
    for line in lines {
        let set = set_to_begin::<A>(net, *line, launched, board.labels());
        board.write(*line, set);
    }
}

// The same of a list of lines with their levels. It is a loop of its own, since the lines are not put back into their list by level:
// hints read that in the order in which the transition reaches them.
fn begin_ranked<A: Algebra>(
    net: &Netlist,
    ranked: &[(u32, LineId)],
    launched: StateSet,
    board: &mut Board<A>,
)
    requires one_each { length board.old.labels ≡ line_count net.now }
    requires within { AreWithin A.algebra.count board.old.labels }
    requires in_circuit { All (λ line. line.0 < line_count net.now) (lines_by_level ranked.now) }
    requires by_level { IsByLevel net.now (lines_by_level ranked.now) }
    requires launched { IsWithin A.algebra.count launched }
    requires unnoted { board.old.notes ≡ [] }
    ensures { AreBegun A.algebra net.now launched (lines_by_level ranked.now) board.old board.new }
{
    // a netlist knows itself as a circuit
    let _ = net.sources();
    for (_, line) in ranked {
        let set = set_to_begin::<A>(net, *line, launched, board.labels());
        board.write(*line, set);
    }
}

// The set with which a line begins.
fn set_to_begin<A: Algebra>(
    net: &Netlist,
    line: LineId,
    launched: StateSet,
    labels: &[StateSet],
) -> StateSet
    requires line { line.0 < line_count net.now }
    requires lines { length labels.now ≡ line_count net.now }
    requires within { AreWithin A.algebra.count labels.now }
    requires launched { IsWithin A.algebra.count launched }
    ensures within { IsWithin A.algebra.count result }
    ensures begun { HasBegunWith A.algebra net.now launched labels.now line.0 result }
{
    match net.gate_of(line) {
        None => launched,
        Some(gate) => image::<A>(net.kind(gate), net.pins(gate), labels),
    }
}

// Writes the labels at the lines reached, and takes these away.
fn give_back<A: Algebra>(labels: &[StateSet], reached: &mut FoundLines, board: &mut Board<A>)
    requires within { AreWithin A.algebra.count labels.now }
    requires one_each { length board.old.labels ≡ length labels.now }
    requires room { reached.old.room ≡ length labels.now }
    requires unnoted { board.old.notes ≡ [] }
    requires same { (line : LineId) → ¬ Contains reached.old.lines line → label_at board.old.labels line.0 ≡ label_at labels.now line.0 }
    ensures board { board.new ≡ record board.old { labels = labels.now } }
    ensures reached { reached.new.lines ≡ [] }
    ensures room { reached.new.room ≡ reached.old.room }
{
    for line in reached.lines() {
        board.write(*line, labels[line.0 as usize]);
    }
    reached.clear();
}
