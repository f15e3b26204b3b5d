// A board settles: one gate or link after another is narrowed, as long as one waits and each line has some state.
ghost use Rattle.std.specs.Prelude.{◌≡◌, ◌≢◌, ◌<◌, ◌≤◌, ◌↔◌, List, [], ◌∷◌, true, length, Contains, IfSome, IfNone, IsTrue, None, Some};
ghost use Rattle.netlist.specs.Circuit.{gate_count, gate_line, line_count, pins_at};
ghost use Rattle.netlist.specs.Lawful.{IsCircuit};
ghost use Rattle.state_sets.specs.States.{AreWithin, both_sets, no_states};
ghost use Rattle.state_sets.specs.Labellings.{label_at};
ghost use Rattle.state_sets.specs.Hulls.{condition_at, IsHull, IsEmptied, HasAt, HasNoEmptySet};
ghost use Rattle.state_laws.specs.Cones.{IsNarrowingIn};
ghost use Rattle.hulls.specs.Conditions.{IsEnteredOn};
ghost use Rattle.hulls.specs.Awaiting.{is_inside};
ghost use Rattle.hulls.specs.Boards.{IsBoardOf, link_turn};
ghost use Rattle.hulls.specs.GateViews.{three_kept};
ghost use Rattle.hulls.specs.Settling.{MaySettle, IsAwakeBut, AllDiffer, IsNarrowed, IsPassed, EndsCuts, IsCutTo, KeepsAll, MayNarrow, EndsTurn};

use crate::gate::{kept_at_one, kept_at_three, kept_at_two};
use crate::link::{linked_lines, linked_sources};
use crate::three::KeptAtThree;
use crate::{Board, Conditions, NarrowScratch, Turn, kept_at};
use netlist::Netlist;
use pd_base::{GateId, LineId};
use state_sets::{Algebra, Condition, StateSet};

// The most pins of a gate that are compared each with all others. A gate with more, whose lines do not ascend, is narrowed again where its
// narrowing changed a line.
const MOST_COMPARED: usize = 8;

impl<A: Algebra> Board<A> {
    /// Narrows labels to their hull: the greatest labels in them that no narrowing changes, at any gate inside, under these conditions, or
    /// along any link. Each gate inside and each link that does not wait has to rest. Gives a line that has no state there, if there is one;
    /// the labels then lie somewhere between those before and the hull. Nothing waits afterwards. Takes no memory.
    pub fn settle(
        &mut self,
        net: &Netlist,
        conditions: &Conditions,
        scratch: &mut NarrowScratch,
    ) -> Option<LineId>
        requires conditions { IsEnteredOn net.now conditions.now }
        requires ready { MaySettle A.algebra net.now conditions.now.kind conditions.now.steps self.old }
        ensures narrowed { IsNarrowed A.algebra net.now conditions.now.kind conditions.now.steps self.old self.new }
        ensures hull { IfNone result (IsHull A.algebra net.now
            (IsNarrowingIn net.now (is_inside self.old.inside) self.old.links conditions.now.kind conditions.now.steps)
            (HasAt A.algebra.count self.old.labels) self.new.labels) }
        ensures none_empty { IfNone result (HasNoEmptySet net.now self.new.labels) }
        ensures emptied { IfSome result (λ line. (line.0 < line_count net.now)
            × IsEmptied A.algebra net.now (IsNarrowingIn net.now (is_inside self.old.inside) self.old.links conditions.now.kind conditions.now.steps)
            (HasAt A.algebra.count self.old.labels) line.0) }
        ensures waiting { self.new.waiting ≡ [] }
    {
        while !self.is_resting() {
            let turn = self.next();
            if let Some(line) = self.narrow_turn(net, conditions, turn, scratch) {
                self.rest();
                return Some(line);
            }
        }
        None
    }

    /// The same for any labels, with all gates inside and all links asked first. This goes over the netlist. Takes no memory.
    pub fn settle_all(
        &mut self,
        net: &Netlist,
        conditions: &Conditions,
        scratch: &mut NarrowScratch,
    ) -> Option<LineId>
        requires of { IsBoardOf net.now self.old }
        requires conditions { IsEnteredOn net.now conditions.now }
        ensures narrowed { IsNarrowed A.algebra net.now conditions.now.kind conditions.now.steps self.old self.new }
        ensures hull { IfNone result (IsHull A.algebra net.now
            (IsNarrowingIn net.now (is_inside self.old.inside) self.old.links conditions.now.kind conditions.now.steps)
            (HasAt A.algebra.count self.old.labels) self.new.labels) }
        ensures none_empty { IfNone result (HasNoEmptySet net.now self.new.labels) }
        ensures emptied { IfSome result (λ line. (line.0 < line_count net.now)
            × IsEmptied A.algebra net.now (IsNarrowingIn net.now (is_inside self.old.inside) self.old.links conditions.now.kind conditions.now.steps)
            (HasAt A.algebra.count self.old.labels) line.0) }
        ensures waiting { self.new.waiting ≡ [] }
    {
        if let Some(line) = empty_line(net, self.labels()) {
            self.rest();
            return Some(line);
        }
        self.ask_all(net);
        self.settle(net, conditions, scratch)
    }

    // Narrows at one gate, or along one link.
    fn narrow_turn(
        &mut self,
        net: &Netlist,
        conditions: &Conditions,
        turn: Turn,
        scratch: &mut NarrowScratch,
    ) -> Option<LineId>
        requires of { IsBoardOf net.now self.old }
        requires within { AreWithin A.algebra.count self.old.labels }
        requires some { HasNoEmptySet net.now self.old.labels }
        requires conditions { IsEnteredOn net.now conditions.now }
        requires inside { is_inside self.old.inside turn.0 ≡ true }
        requires awake { IsAwakeBut A.algebra net.now conditions.now.kind conditions.now.steps turn.0 self.old }
        ensures turn { EndsTurn A.algebra net.now conditions.now self.old self.new result }
    {
        if turn.0 < net.gates() {
            self.narrow_at(net, conditions, GateId(turn.0), scratch)
        } else {
            self.narrow_along(net, conditions, turn.0 - net.gates())
        }
    }

    // Narrows along the link of this number: a call, so that the loop over gates is small.
    #[inline(never)]
    fn narrow_along(&mut self, net: &Netlist, conditions: &Conditions, link: u32) -> Option<LineId>
        requires of { IsBoardOf net.now self.old }
        requires within { AreWithin A.algebra.count self.old.labels }
        requires some { HasNoEmptySet net.now self.old.labels }
        requires link { link < length self.old.links }
        requires awake { IsAwakeBut A.algebra net.now conditions.now.kind conditions.now.steps (link_turn net.now link).0 self.old }
        ensures turn { EndsTurn A.algebra net.now conditions.now self.old self.new result }
    {
        let (source, line) = self.link(link);
        let at_source = linked_sources::<A>(self.get(line));
        let at_line = linked_lines::<A>(self.get(source));
        if self.cut_in(net, source, at_source, None) == StateSet::EMPTY {
            return Some(source);
        }
        if self.cut_in(net, line, at_line, None) == StateSet::EMPTY {
            return Some(line);
        }
        None
    }

    // Narrows at one gate. Most gates have two pins and no condition, and of the others most have one or three: what is kept there stands in
    // no list.
    #[inline(always)]
    fn narrow_at(
        &mut self,
        net: &Netlist,
        conditions: &Conditions,
        gate: GateId,
        scratch: &mut NarrowScratch,
    ) -> Option<LineId>
        requires may { MayNarrow A.algebra net.now conditions.now gate.0 self.old }
        ensures turn { EndsTurn A.algebra net.now conditions.now self.old self.new result }
    {
        if conditions.has_condition(gate) {
            return self.narrow_on_path(net, conditions, gate, scratch);
        }
        match net.pins(gate).len() {
            2 => self.narrow_two(net, conditions, gate, None),
            1 => self.narrow_one(net, conditions, gate),
            3 => self.narrow_three(net, conditions, gate),
            _ => self.narrow_any(net, conditions, gate, scratch),
        }
    }

    // Narrows at a gate with a condition: a call, so that the loop over gates is small.
    #[inline(never)]
    fn narrow_on_path(
        &mut self,
        net: &Netlist,
        conditions: &Conditions,
        gate: GateId,
        scratch: &mut NarrowScratch,
    ) -> Option<LineId>
        requires may { MayNarrow A.algebra net.now conditions.now gate.0 self.old }
        ensures turn { EndsTurn A.algebra net.now conditions.now self.old self.new result }
    {
        match net.pins(gate).len() {
            2 => self.narrow_two(net, conditions, gate, conditions.at(gate)),
            1 => self.narrow_one(net, conditions, gate),
            _ => self.narrow_any(net, conditions, gate, scratch),
        }
    }

    // Narrows at a gate with two pins, under this condition.
    #[inline(always)]
    fn narrow_two(
        &mut self,
        net: &Netlist,
        conditions: &Conditions,
        gate: GateId,
        condition: Option<Condition>,
    ) -> Option<LineId>
        requires may { MayNarrow A.algebra net.now conditions.now gate.0 self.old }
        requires condition { condition ≡ condition_at conditions.now.kind conditions.now.steps gate.0 }
        requires two { length (pins_at net.now gate.0) ≡ 2 }
        ensures turn { EndsTurn A.algebra net.now conditions.now self.old self.new result }
    {
        // a netlist knows itself as a circuit
        let _ = net.sources();
        let passed = passed_by_two(net, gate);
        let kept = kept_at_two::<A>(net, self.labels(), gate, condition);
        if let Some(line) = self.cut_first_two(net, gate, kept.first, kept.second, passed) {
            return Some(line);
        }
        self.cut_own(net, gate, kept.given, passed)
    }

    // Narrows at a gate with one pin, of which a condition asks nothing: a call, too.
    #[inline(never)]
    fn narrow_one(&mut self, net: &Netlist, conditions: &Conditions, gate: GateId) -> Option<LineId>
        requires may { MayNarrow A.algebra net.now conditions.now gate.0 self.old }
        requires one { length (pins_at net.now gate.0) ≡ 1 }
        ensures turn { EndsTurn A.algebra net.now conditions.now self.old self.new result }
    {
        // a netlist knows itself as a circuit
        let _ = net.sources();
        let kept = kept_at_one::<A>(net, self.labels(), gate, conditions.at(gate));
        if let Some(line) = self.cut_first(net, gate, kept.first) {
            return Some(line);
        }
        self.cut_own(net, gate, kept.given, Some(gate))
    }

    // Narrows at a gate with three pins and no condition: a call, too.
    #[inline(never)]
    fn narrow_three(
        &mut self,
        net: &Netlist,
        conditions: &Conditions,
        gate: GateId,
    ) -> Option<LineId>
        requires may { MayNarrow A.algebra net.now conditions.now gate.0 self.old }
        requires free { condition_at conditions.now.kind conditions.now.steps gate.0 ≡ None }
        requires three { length (pins_at net.now gate.0) ≡ 3 }
        ensures turn { EndsTurn A.algebra net.now conditions.now self.old self.new result }
    {
        // a netlist knows itself as a circuit
        let _ = net.sources();
        let kept = kept_at_three::<A>(net, self.labels(), gate);
        if self.do_three_keep(net, gate, kept) {
            return None;
        }
        let passed = passed_by_three(net, gate);
        if let Some(line) = self.cut_three(net, gate, kept, passed) {
            return Some(line);
        }
        self.cut_own(net, gate, kept.given, passed)
    }

    // Narrows at any gate: a call, too.
    #[inline(never)]
    fn narrow_any(
        &mut self,
        net: &Netlist,
        conditions: &Conditions,
        gate: GateId,
        scratch: &mut NarrowScratch,
    ) -> Option<LineId>
        requires may { MayNarrow A.algebra net.now conditions.now gate.0 self.old }
        ensures turn { EndsTurn A.algebra net.now conditions.now self.old self.new result }
    {
        // a netlist knows itself as a circuit
        let _ = net.sources();
        let passed = passed_by(net, gate);
        let given = kept_at::<A>(net, self.labels(), gate, conditions.at(gate), scratch);
        if let Some(line) = self.cut_pins(net, gate, scratch, passed) {
            return Some(line);
        }
        self.cut_own(net, gate, given, passed)
    }

    // Whether the lines of the three pins of a gate and its own keep all their states, as they do most often: then nothing changes, and
    // that is seen at one look.
    #[inline(always)]
    fn do_three_keep(&self, net: &Netlist, gate: GateId, kept: KeptAtThree) -> bool
        requires lines { length self.now.labels ≡ line_count net.now }
        requires gate { gate.0 < gate_count net.now }
        requires three { length (pins_at net.now gate.0) ≡ 3 }
        ensures { IsTrue result → KeepsAll net.now gate.0 (three_kept kept) kept.given self.now.labels }
    {
        let pins = net.pins(gate);
        self.keeps(pins[0], kept.first)
            && self.keeps(pins[1], kept.second)
            && self.keeps(pins[2], kept.third)
            && self.keeps(net.line_of(gate), kept.given)
    }

    // Whether a line keeps all its states where it is cut down to a set.
    #[inline(always)]
    fn keeps(&self, line: LineId, to: StateSet) -> bool
        requires { line.0 < length self.now.labels }
        ensures { IsTrue result ↔ (both_sets (label_at self.now.labels line.0) to ≡ label_at self.now.labels line.0) }
    {
        let set = self.get(line);
        set.intersect(to) == set
    }

    // Cuts the line of a gate down to a set. The line, if it has no state left.
    #[inline(always)]
    fn cut_own(
        &mut self,
        net: &Netlist,
        gate: GateId,
        to: StateSet,
        passed: Option<GateId>,
    ) -> Option<LineId>
        requires of { IsBoardOf net.now self.old }
        requires gate { gate.0 < gate_count net.now }
        ensures cut { IsCutTo A.algebra.count net.now passed (gate_line net.now gate.0) to self.old self.new }
        ensures some { IfNone result (label_at self.new.labels (gate_line net.now gate.0) ≢ no_states) }
        ensures emptied { IfSome result (λ line. (line.0 ≡ gate_line net.now gate.0) × (label_at self.new.labels line.0 ≡ no_states)) }
    {
        let line = net.line_of(gate);
        if self.cut_in(net, line, to, passed) == StateSet::EMPTY {
            Some(line)
        } else {
            None
        }
    }

    // Cuts the line of the first pin of a gate, which is passed by, down to what is kept there. The line, if it has no state left.
    #[inline(always)]
    fn cut_first(&mut self, net: &Netlist, gate: GateId, first: StateSet) -> Option<LineId>
        requires of { IsBoardOf net.now self.old }
        requires within { AreWithin A.algebra.count self.old.labels }
        requires some { HasNoEmptySet net.now self.old.labels }
        requires gate { gate.0 < gate_count net.now }
        requires one { 1 ≤ length (pins_at net.now gate.0) }
        ensures cut { EndsCuts A.algebra.count net.now (Some gate) gate.0 (first ∷ []) 1 self.old self.new result }
    {
        let line = net.pins(gate)[0];
        if self.cut_in(net, line, first, Some(gate)) == StateSet::EMPTY {
            Some(line)
        } else {
            None
        }
    }

    // Cuts the lines of the first two pins of a gate down to what is kept there, up to a line that has no state left. What is kept at the
    // pins behind does not matter.
    #[inline(always)]
    fn cut_first_two(
        &mut self,
        net: &Netlist,
        gate: GateId,
        first: StateSet,
        second: StateSet,
        passed: Option<GateId>,
    ) -> Option<LineId>
        requires of { IsBoardOf net.now self.old }
        requires within { AreWithin A.algebra.count self.old.labels }
        requires some { HasNoEmptySet net.now self.old.labels }
        requires gate { gate.0 < gate_count net.now }
        requires two { 2 ≤ length (pins_at net.now gate.0) }
        ensures cut { (behind : List StateSet)
            → EndsCuts A.algebra.count net.now passed gate.0 (first ∷ second ∷ behind) 2 self.old self.new result }
    {
        // read before the cuts: what these write could be the list of pins for all that a compiler knows
        let pins = net.pins(gate);
        let (line, other) = (pins[0], pins[1]);
        if self.cut_in(net, line, first, passed) == StateSet::EMPTY {
            return Some(line);
        }
        if self.cut_in(net, other, second, passed) == StateSet::EMPTY {
            return Some(other);
        }
        None
    }

    // Cuts the lines of the three pins of a gate down to what is kept there, up to a line that has no state left.
    #[inline(always)]
    fn cut_three(
        &mut self,
        net: &Netlist,
        gate: GateId,
        kept: KeptAtThree,
        passed: Option<GateId>,
    ) -> Option<LineId>
        requires of { IsBoardOf net.now self.old }
        requires within { AreWithin A.algebra.count self.old.labels }
        requires some { HasNoEmptySet net.now self.old.labels }
        requires gate { gate.0 < gate_count net.now }
        requires three { length (pins_at net.now gate.0) ≡ 3 }
        ensures cut { EndsCuts A.algebra.count net.now passed gate.0 (three_kept kept) 3 self.old self.new result }
    {
        // read before the cuts, so that once `cut_first_two` is inlined they are looked up once
        let pins = net.pins(gate);
        if let Some(line) = self.cut_first_two(net, gate, kept.first, kept.second, passed) {
            return Some(line);
        }
        if self.cut_in(net, pins[2], kept.third, passed) == StateSet::EMPTY {
            return Some(pins[2]);
        }
        None
    }

    // Cuts the line of each pin of a gate down to what is kept at the pin, up to a line that has no state left.
    fn cut_pins(
        &mut self,
        net: &Netlist,
        gate: GateId,
        kept: &NarrowScratch,
        passed: Option<GateId>,
    ) -> Option<LineId>
        requires of { IsBoardOf net.now self.old }
        requires within { AreWithin A.algebra.count self.old.labels }
        requires some { HasNoEmptySet net.now self.old.labels }
        requires circuit { IsCircuit net.now }
        requires gate { gate.0 < gate_count net.now }
        ensures cut { EndsCuts A.algebra.count net.now passed gate.0 kept.now (length (pins_at net.now gate.0)) self.old self.new result }
    {
        let pins = net.pins(gate);
        for pin in 0..pins.len() {
            if self.cut_in(net, pins[pin], kept.kept(pin), passed) == StateSet::EMPTY {
                return Some(pins[pin]);
            }
        }
        None
    }
}

// The gate, if its pins are found to read different lines: what narrowing it leaves, narrowing it again does not change.
fn passed_by(net: &Netlist, gate: GateId) -> Option<GateId>
    requires { gate.0 < gate_count net.now }
    ensures { IsPassed net.now gate.0 result }
{
    are_found_to_differ(net.pins(gate)).then_some(gate)
}

// The same of a gate with two pins. Inlined, since most narrowings of a gate ask it.
#[inline(always)]
fn passed_by_two(net: &Netlist, gate: GateId) -> Option<GateId>
    requires gate { gate.0 < gate_count net.now }
    requires two { length (pins_at net.now gate.0) ≡ 2 }
    ensures { IsPassed net.now gate.0 result }
{
    let pins = net.pins(gate);
    do_two_differ(pins[0], pins[1]).then_some(gate)
}

// The same of a gate with three.
#[inline(always)]
fn passed_by_three(net: &Netlist, gate: GateId) -> Option<GateId>
    requires gate { gate.0 < gate_count net.now }
    requires three { length (pins_at net.now gate.0) ≡ 3 }
    ensures { IsPassed net.now gate.0 result }
{
    let pins = net.pins(gate);
    do_three_differ(pins[0], pins[1], pins[2]).then_some(gate)
}

// Whether no two of these lines are the same. Of more than a few lines that do not ascend it is not looked for, and the answer is no.
fn are_found_to_differ(lines: &[LineId]) -> bool
    ensures { IsTrue result → AllDiffer lines.now }
{
    match lines.len() {
        2 => do_two_differ(lines[0], lines[1]),
        3 => do_three_differ(lines[0], lines[1], lines[2]),
        count => do_ascend(lines) || (count <= MOST_COMPARED && does_each_differ(lines)),
    }
}

fn do_two_differ(first: LineId, second: LineId) -> bool
    ensures { IsTrue result → first ≢ second }
{
    first != second
}

fn do_three_differ(first: LineId, second: LineId, third: LineId) -> bool
    ensures first { IsTrue result → first ≢ second }
    ensures last { IsTrue result → first ≢ third }
    ensures second { IsTrue result → second ≢ third }
{
    first != second && first != third && second != third
}

// Whether each of these lines has a greater number than the one before it.
fn do_ascend(lines: &[LineId]) -> bool
    ensures { IsTrue result → AllDiffer lines.now }
{
    for place in 1..lines.len() {
        if lines[place].0 <= lines[place - 1].0 {
            return false;
        }
    }
    true
}

// Whether each of these lines is another one than all behind it.
fn does_each_differ(lines: &[LineId]) -> bool
    ensures { IsTrue result → AllDiffer lines.now }
{
    for place in 0..lines.len() {
        if stands_among(&lines[place + 1..], lines[place]) {
            return false;
        }
    }
    true
}

// Whether a line is one of these.
fn stands_among(lines: &[LineId], line: LineId) -> bool
    ensures { IsTrue result ↔ Contains lines.now line }
{
    lines.contains(&line)
}

// The first line that has no state.
fn empty_line(net: &Netlist, labels: &[StateSet]) -> Option<LineId>
    requires { length labels.now ≡ line_count net.now }
    ensures some { IfSome result (λ line. (line.0 < line_count net.now) × (label_at labels.now line.0 ≡ no_states)) }
    ensures none { IfNone result (HasNoEmptySet net.now labels.now) }
{
    for line in 0..net.lines() {
        if labels[line as usize] == StateSet::EMPTY {
            return Some(LineId(line));
        }
    }
    None
}
