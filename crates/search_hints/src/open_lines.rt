// What is still open under labels: a line that its gate's pins do not justify, and a side pin whose condition may fail.
ghost use Rattle.std.specs.Prelude.{◌≡◌, ◌<◌, ℕ, length, All, IfSome};
ghost use Rattle.netlist.specs.Circuit.{gate_count, line_count};
ghost use Rattle.state_sets.specs.States.{IsWithin};

use crate::picking::{Cut, uninverted, without};
use netlist::{GateKind, Netlist, Op, SideCondition, side_condition};
use pd_base::{GateId, Kind, LineId, PinRef};
use state_sets::{Algebra, StateSet, every_state};

// Whether whatever the gate makes of the states of its pins is in the label of its line. Inlined, since it is asked in loops over lines.
#[inline(always)]
pub(crate) fn is_justified<A: Algebra>(net: &Netlist, labels: &[StateSet], gate: GateId) -> bool
    requires lines { length labels.now ≡ line_count net.now }
    requires gate { gate.0 < gate_count net.now }
{
    let wanted = labels[net.line_of(gate).0 as usize];
    if wanted == every_state::<A>() {
        return true;
    }
    let kind = net.kind(gate);
    let made = join_all::<A>(labels, kind.operation(), net.pins(gate));
    without(made, uninverted::<A>(kind, wanted)) == StateSet::EMPTY
}

// What an operation makes of the states of these lines. Most gates have two pins: that is inlined, and others are joined by a call.
#[inline(always)]
pub(crate) fn join_all<A: Algebra>(labels: &[StateSet], op: Op, lines: &[LineId]) -> StateSet
    requires { All (λ line. line.0 < length labels.now) lines.now }
{
    if let [first, second] = lines {
        return join_two::<A>(labels, op, *first, *second);
    }
    join_many::<A>(labels, op, lines)
}

// The same of two lines.
#[inline(always)]
pub(crate) fn join_two<A: Algebra>(
    labels: &[StateSet],
    op: Op,
    first: LineId,
    second: LineId,
) -> StateSet
    requires first { first.0 < length labels.now }
    requires second { second.0 < length labels.now }
{
    let first = labels[first.0 as usize].intersect(every_state::<A>());
    let second = labels[second.0 as usize].intersect(every_state::<A>());
    A::join_sets(op, first, second)
}

// The same of any number of lines.
fn join_many<A: Algebra>(labels: &[StateSet], op: Op, lines: &[LineId]) -> StateSet
    requires { All (λ line. line.0 < length labels.now) lines.now }
{
    let mut joined = StateSet::only(A::unit(op)).intersect(every_state::<A>());
    for line in lines {
        let label = labels[line.0 as usize].intersect(every_state::<A>());
        joined = A::join_sets(op, joined, label);
    }
    joined
}

// What an operation makes of the states of these lines but for one, by its place. Of two lines that is the other one.
#[inline(always)]
pub(crate) fn join_others<A: Algebra>(
    labels: &[StateSet],
    op: Op,
    lines: &[LineId],
    place: u32,
) -> StateSet
    requires { All (λ line. line.0 < length labels.now) lines.now }
    ensures { IsWithin A.algebra.count result }
{
    if let [first, second] = lines {
        let other = if place == 0 { *second } else { *first };
        return labels[other.0 as usize].intersect(every_state::<A>());
    }
    join_all_others::<A>(labels, op, lines, place)
}

// The same of any number of lines.
fn join_all_others<A: Algebra>(
    labels: &[StateSet],
    op: Op,
    lines: &[LineId],
    place: u32,
) -> StateSet
    requires { All (λ line. line.0 < length labels.now) lines.now }
    ensures { IsWithin A.algebra.count result }
{
    let mut joined = StateSet::only(A::unit(op)).intersect(every_state::<A>());
    for (at, line) in lines.iter().enumerate() {
        if at != place as usize {
            let label = labels[line.0 as usize].intersect(every_state::<A>());
            joined = A::join_sets(op, joined, label);
        }
    }
    joined
}

// The cut that a side pin of a step needs, if some side pin may still fail its condition.
pub(crate) fn open_side<A: Algebra>(
    net: &Netlist,
    labels: &[StateSet],
    step: PinRef,
    kind: Kind,
) -> Option<Cut>
    requires lines { length labels.now ≡ line_count net.now }
    requires gate { step.gate.0 < gate_count net.now }
    ensures { IfSome result (λ cut. cut.line.0 < line_count net.now) }
{
    let pins = net.pins(step.gate);
    let on_path = *pins.get(step.pin as usize)?;
    let ends = labels[on_path.0 as usize];
    let allowed = allowed_sides::<A>(kind, net.kind(step.gate), ends);
    for (pin, side) in pins.iter().enumerate() {
        let label = labels[side.0 as usize];
        if pin != step.pin as usize && without(label, allowed) != StateSet::EMPTY {
            return Some(side_cut::<A>(*side, label.intersect(allowed), on_path, ends));
        }
    }
    None
}

// A cut of a side to what is allowed there, or where nothing is, of the on-path line to the final value 0.
fn side_cut<A: Algebra>(side: LineId, allowed: StateSet, on_path: LineId, ends: StateSet) -> Cut
    ensures { (count : ℕ) → side.0 < count → on_path.0 < count → result.line.0 < count }
{
    if allowed == StateSet::EMPTY {
        return Cut {
            line: on_path,
            to: ends.intersect(A::ending_at(false)),
        };
    }
    Cut {
        line: side,
        to: allowed,
    }
}

// What the conditions of a kind of tests allow side pins of a gate whose on-path line has these states.
fn allowed_sides<A: Algebra>(kind: Kind, gate: GateKind, ends: StateSet) -> StateSet {
    let at_0 = allowed_where::<A>(
        ends.intersect(A::ending_at(false)),
        side_condition(kind, gate, false),
    );
    let at_1 = allowed_where::<A>(
        ends.intersect(A::ending_at(true)),
        side_condition(kind, gate, true),
    );
    at_0.intersect(at_1)
}

// The states that meet a condition, or all where it does not stand, since the on-path line has none of these states.
fn allowed_where<A: Algebra>(ends: StateSet, condition: SideCondition) -> StateSet {
    if ends == StateSet::EMPTY {
        return every_state::<A>();
    }
    A::allowed_by(condition)
}
