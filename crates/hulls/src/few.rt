// Which states the choices at a gate with one pin or two keep, as most gates have: what a pin is joined with is the other pin's set
// there, or nothing.
ghost use Rattle.std.specs.Prelude.{◌≡◌, ◌<◌, Bool, false, true, length, All, IfSome};
ghost use Rattle.netlist.specs.Gates.{op_of};
ghost use Rattle.state_sets.specs.States.{IsWithin};
ghost use Rattle.hulls.specs.Sets.{Means};
ghost use Rattle.hulls.specs.Passes.{AreLimitsOf, AreSidesOf, PassFolds, PassSupports};
ghost use Rattle.hulls.specs.GateViews.{pin_sets, sets_seen, AreKeptAtPins, IsGivenAtGate, IsKeptAtOne, IsKeptAtTwo};

use crate::inverting::uninverted;
use crate::limits::{Limits, limits_aside, limits_of, no_limits};
use crate::view::GateView;
use state_sets::{Algebra, Condition, StateSet};

// The states that allowed choices have at the only pin, and those that they give at the gate's line.
#[derive(Clone, Copy)]
pub(crate) struct KeptAtOne {
    pub(crate) first: StateSet,
    pub(crate) given: StateSet,
}

// The same at two pins.
#[derive(Clone, Copy)]
pub(crate) struct KeptAtTwo {
    pub(crate) first: StateSet,
    pub(crate) second: StateSet,
    pub(crate) given: StateSet,
}

// The states that the choices of a pass have at two pins, and those to which they join.
#[derive(Clone, Copy)]
struct Pass {
    first: StateSet,
    second: StateSet,
    joined: StateSet,
}

// Writes to the list `kept` the states that choices have at the only pin, and gives those that they give at the gate's line. A condition
// asks nothing of such a gate.
pub(crate) fn write_kept_at_one<A: Algebra>(
    gate: &GateView,
    condition: Option<Condition>,
    kept: &mut [StateSet],
) -> StateSet
    requires lines { All (λ line. line.0 < length gate.now.labels.now) gate.now.pins.now }
    requires one { length gate.now.pins.now ≡ 1 }
    requires kept { 0 < length kept.old }
    requires pin { IfSome condition (λ c. c.pin < length gate.now.pins.now) }
    ensures at_pins { AreKeptAtPins A.algebra gate.now condition kept.new }
    ensures at_gate { IsGivenAtGate A.algebra gate.now condition result }
{
    let found = keep_one::<A>(gate, condition);
    kept[0] = found.first;
    found.given
}

// The same, but both returned and written nowhere.
#[inline(always)]
pub(crate) fn keep_one<A: Algebra>(gate: &GateView, condition: Option<Condition>) -> KeptAtOne
    requires lines { All (λ line. line.0 < length gate.now.labels.now) gate.now.pins.now }
    requires one { length gate.now.pins.now ≡ 1 }
    requires pin { IfSome condition (λ c. c.pin < length gate.now.pins.now) }
    ensures { IsKeptAtOne A.algebra (sets_seen gate.now) condition result }
{
    let target = uninverted::<A>(gate.kind, gate.own);
    let first = gate.cut_at(no_limits::<A>(), 0).intersect(target);
    KeptAtOne {
        first,
        given: uninverted::<A>(gate.kind, first),
    }
}

// Writes to the list `kept` the states that allowed choices have at the two pins, and gives those that they give at the gate's line.
#[inline(always)]
pub(crate) fn write_kept_at_two<A: Algebra>(
    gate: &GateView,
    condition: Option<Condition>,
    kept: &mut [StateSet],
) -> StateSet
    requires lines { All (λ line. line.0 < length gate.now.labels.now) gate.now.pins.now }
    requires two { length gate.now.pins.now ≡ 2 }
    requires kept { 1 < length kept.old }
    requires pin { IfSome condition (λ c. c.pin < length gate.now.pins.now) }
    ensures at_pins { AreKeptAtPins A.algebra gate.now condition kept.new }
    ensures at_gate { IsGivenAtGate A.algebra gate.now condition result }
{
    let found = keep_two::<A>(gate, condition);
    kept[0] = found.first;
    kept[1] = found.second;
    found.given
}

// The same, but all returned and written nowhere.
#[inline(always)]
pub(crate) fn keep_two<A: Algebra>(gate: &GateView, condition: Option<Condition>) -> KeptAtTwo
    requires lines { All (λ line. line.0 < length gate.now.labels.now) gate.now.pins.now }
    requires two { length gate.now.pins.now ≡ 2 }
    requires pin { IfSome condition (λ c. c.pin < length gate.now.pins.now) }
    ensures { IsKeptAtTwo A.algebra (sets_seen gate.now) condition result }
{
    match condition {
        None => keep_two_freely::<A>(gate),
        Some(step) => keep_two_at_step::<A>(gate, step),
    }
}

// The same without a condition.
#[inline(always)]
fn keep_two_freely<A: Algebra>(gate: &GateView) -> KeptAtTwo
    requires lines { All (λ line. line.0 < length gate.now.labels.now) gate.now.pins.now }
    requires two { length gate.now.pins.now ≡ 2 }
    ensures { IsKeptAtTwo A.algebra (sets_seen gate.now) None result }
{
    let target = uninverted::<A>(gate.kind, gate.own);
    let pass = pass_two::<A>(gate, no_limits::<A>(), target);
    KeptAtTwo {
        first: pass.first,
        second: pass.second,
        given: uninverted::<A>(gate.kind, pass.joined),
    }
}

// The same with the condition of a step. Inlined, since it is asked in a loop, too.
#[inline(always)]
fn keep_two_at_step<A: Algebra>(gate: &GateView, step: Condition) -> KeptAtTwo
    requires lines { All (λ line. line.0 < length gate.now.labels.now) gate.now.pins.now }
    requires two { length gate.now.pins.now ≡ 2 }
    requires pin { step.pin < length gate.now.pins.now }
    ensures { IsKeptAtTwo A.algebra (sets_seen gate.now) (Some step) result }
{
    let at_zero = limits_of::<A>(gate.kind, step, false);
    let at_one = limits_of::<A>(gate.kind, step, true);
    // as at each parity gate, and in each nonrobust test
    if at_zero.at_sides == at_one.at_sides {
        keep_two_at_once::<A>(gate, step, at_zero.at_sides)
    } else {
        keep_two_by_ends::<A>(gate, step, at_zero, at_one)
    }
}

// The same where the condition asks the same of the sides whatever the on-path pin ends at: one pass.
#[inline(always)]
fn keep_two_at_once<A: Algebra>(gate: &GateView, step: Condition, sides: StateSet) -> KeptAtTwo
    requires lines { All (λ line. line.0 < length gate.now.labels.now) gate.now.pins.now }
    requires two { length gate.now.pins.now ≡ 2 }
    requires pin { step.pin < length gate.now.pins.now }
    requires within { IsWithin A.algebra.count sides }
    requires sides { (bit : Bool) → AreSidesOf A.algebra gate.now.kind step bit sides }
    ensures { IsKeptAtTwo A.algebra (sets_seen gate.now) (Some step) result }
{
    let target = uninverted::<A>(gate.kind, gate.own);
    let found = pass_two::<A>(gate, limits_aside::<A>(step, sides), target);
    KeptAtTwo {
        first: found.first,
        second: found.second,
        given: uninverted::<A>(gate.kind, found.joined),
    }
}

// The same where it does not, or may not: a pass for each final value of the on-path pin.
#[inline(always)]
fn keep_two_by_ends<A: Algebra>(
    gate: &GateView,
    step: Condition,
    at_zero: Limits,
    at_one: Limits,
) -> KeptAtTwo
    requires lines { All (λ line. line.0 < length gate.now.labels.now) gate.now.pins.now }
    requires two { length gate.now.pins.now ≡ 2 }
    requires pin { step.pin < length gate.now.pins.now }
    requires zero { AreLimitsOf A.algebra gate.now.kind step false at_zero }
    requires one { AreLimitsOf A.algebra gate.now.kind step true at_one }
    ensures { IsKeptAtTwo A.algebra (sets_seen gate.now) (Some step) result }
{
    let target = uninverted::<A>(gate.kind, gate.own);
    let zero = pass_two::<A>(gate, at_zero, target);
    let one = pass_two::<A>(gate, at_one, target);
    KeptAtTwo {
        first: zero.first.unite(one.first),
        second: zero.second.unite(one.second),
        given: uninverted::<A>(gate.kind, zero.joined.unite(one.joined)),
    }
}

// What choices within the limits that join into the target have at the two pins, and join to.
#[inline(always)]
fn pass_two<A: Algebra>(gate: &GateView, limits: Limits, target: StateSet) -> Pass
    requires lines { All (λ line. line.0 < length gate.now.labels.now) gate.now.pins.now }
    requires two { length gate.now.pins.now ≡ 2 }
    requires on_path { IsWithin A.algebra.count limits.at_on_path }
    requires sides { IsWithin A.algebra.count limits.at_sides }
    requires target { IsWithin A.algebra.count target }
    ensures first { Means A.algebra.count result.first
        (PassSupports A.algebra (op_of gate.now.kind) limits (pin_sets gate.now) target 0) }
    ensures second { Means A.algebra.count result.second
        (PassSupports A.algebra (op_of gate.now.kind) limits (pin_sets gate.now) target 1) }
    ensures joined { Means A.algebra.count result.joined
        (PassFolds A.algebra (op_of gate.now.kind) limits (pin_sets gate.now) target) }
{
    let op = gate.kind.operation();
    let first = gate.cut_at(limits, 0);
    let second = gate.cut_at(limits, 1);
    Pass {
        first: first.intersect(A::supporting(op, second, target)),
        second: second.intersect(A::supporting(op, first, target)),
        joined: A::join_sets(op, first, second).intersect(target),
    }
}
