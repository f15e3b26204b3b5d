// Which states the choices at a gate with three pins keep, as most of the other gates have, where no step goes through it: what a pin is
// joined with is what the other two join to.
ghost use Rattle.std.specs.Prelude.{◌≡◌, ◌<◌, length, All};
ghost use Rattle.netlist.specs.Gates.{op_of};
ghost use Rattle.state_sets.specs.States.{IsWithin};
ghost use Rattle.hulls.specs.Sets.{Means};
ghost use Rattle.hulls.specs.Passes.{PassFolds, PassSupports};
ghost use Rattle.hulls.specs.GateViews.{pin_sets, sets_seen, AreKeptAtPins, IsGivenAtGate, IsKeptAtThree};

use crate::inverting::uninverted;
use crate::limits::{Limits, no_limits};
use crate::view::GateView;
use state_sets::{Algebra, StateSet};

// The states that choices have at three pins, and those that they give at the gate's line.
#[derive(Clone, Copy)]
pub(crate) struct KeptAtThree {
    pub(crate) first: StateSet,
    pub(crate) second: StateSet,
    pub(crate) third: StateSet,
    pub(crate) given: StateSet,
}

// The states that the choices of a pass have at three pins, and those to which they join.
#[derive(Clone, Copy)]
struct PassOfThree {
    first: StateSet,
    second: StateSet,
    third: StateSet,
    joined: StateSet,
}

// Writes to the list `kept` the states that choices have at the three pins, without a condition, and gives those that they give at the
// gate's line.
pub(crate) fn write_kept_at_three<A: Algebra>(gate: &GateView, kept: &mut [StateSet]) -> StateSet
    requires lines { All (λ line. line.0 < length gate.now.labels.now) gate.now.pins.now }
    requires three { length gate.now.pins.now ≡ 3 }
    requires kept { 2 < length kept.old }
    ensures at_pins { AreKeptAtPins A.algebra gate.now None kept.new }
    ensures at_gate { IsGivenAtGate A.algebra gate.now None result }
{
    let found = keep_three_freely::<A>(gate);
    kept[0] = found.first;
    kept[1] = found.second;
    kept[2] = found.third;
    found.given
}

// The same, but all returned and written nowhere.
#[inline(always)]
pub(crate) fn keep_three_freely<A: Algebra>(gate: &GateView) -> KeptAtThree
    requires lines { All (λ line. line.0 < length gate.now.labels.now) gate.now.pins.now }
    requires three { length gate.now.pins.now ≡ 3 }
    ensures { IsKeptAtThree A.algebra (sets_seen gate.now) result }
{
    let target = uninverted::<A>(gate.kind, gate.own);
    let pass = pass_three::<A>(gate, no_limits::<A>(), target);
    KeptAtThree {
        first: pass.first,
        second: pass.second,
        third: pass.third,
        given: uninverted::<A>(gate.kind, pass.joined),
    }
}

// What choices within the limits that join into the target have at the three pins, and join to.
#[inline(always)]
fn pass_three<A: Algebra>(gate: &GateView, limits: Limits, target: StateSet) -> PassOfThree
    requires lines { All (λ line. line.0 < length gate.now.labels.now) gate.now.pins.now }
    requires three { length gate.now.pins.now ≡ 3 }
    requires on_path { IsWithin A.algebra.count limits.at_on_path }
    requires sides { IsWithin A.algebra.count limits.at_sides }
    requires target { IsWithin A.algebra.count target }
    ensures first { Means A.algebra.count result.first
        (PassSupports A.algebra (op_of gate.now.kind) limits (pin_sets gate.now) target 0) }
    ensures second { Means A.algebra.count result.second
        (PassSupports A.algebra (op_of gate.now.kind) limits (pin_sets gate.now) target 1) }
    ensures third { Means A.algebra.count result.third
        (PassSupports A.algebra (op_of gate.now.kind) limits (pin_sets gate.now) target 2) }
    ensures joined { Means A.algebra.count result.joined
        (PassFolds A.algebra (op_of gate.now.kind) limits (pin_sets gate.now) target) }
{
    let op = gate.kind.operation();
    let first = gate.cut_at(limits, 0);
    let second = gate.cut_at(limits, 1);
    let third = gate.cut_at(limits, 2);
    let last_two = A::join_sets(op, second, third);
    let outer = A::join_sets(op, first, third);
    let first_two = A::join_sets(op, first, second);
    PassOfThree {
        first: first.intersect(A::supporting(op, last_two, target)),
        second: second.intersect(A::supporting(op, outer, target)),
        third: third.intersect(A::supporting(op, first_two, target)),
        joined: A::join_sets(op, first, last_two).intersect(target),
    }
}
