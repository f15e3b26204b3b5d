// Which states the choices at a gate keep, at each pin and at the gate's own line, however many pins it has. Without a condition one
// pass over the pins tells. With one there is a pass for each final value of the on-path pin, and what they keep at a pin is united.
ghost use Rattle.std.specs.Prelude.{◌≡◌, ◌<◌, ◌≤◌, ◌+◌, ◌⊎◌, ℕ, length, All, IfSome};
ghost use Rattle.netlist.specs.declared.limits.TheConstants.{MOST_FAN_IN};
ghost use Rattle.netlist.specs.Gates.{op_of};
ghost use Rattle.state_sets.specs.States.{Has, IsWithin, no_states};
ghost use Rattle.hulls.specs.Sets.{Means, set_at};
ghost use Rattle.hulls.specs.Passes.{PassFolds, PassSupports};
ghost use Rattle.hulls.specs.GateViews.{pin_sets, AreKeptAtPins, IsGivenAtGate};

use crate::inverting::uninverted;
use crate::joins::{join_suffixes, support_each};
use crate::limits::{Limits, cut_to, limits_of, no_limits};
use crate::view::GateView;
use state_sets::{Algebra, Condition, StateSet};

// Writes to `kept` the states that allowed choices have at each pin, and gives those that they give at the gate's line. Each room has
// a place for each pin of any gate, and one more. A call, so that gates with few pins cost less.
#[inline(never)]
pub(crate) fn write_kept_at_all<A: Algebra>(
    gate: &GateView,
    condition: Option<Condition>,
    cut: &mut [StateSet],
    suffixes: &mut [StateSet],
    kept: &mut [StateSet],
) -> StateSet
    requires lines { All (λ line. line.0 < length gate.now.labels.now) gate.now.pins.now }
    requires few { length gate.now.pins.now ≤ MOST_FAN_IN }
    requires cut { length cut.old ≡ MOST_FAN_IN + 1 }
    requires suffixes { length suffixes.old ≡ MOST_FAN_IN + 1 }
    requires kept { length kept.old ≡ MOST_FAN_IN + 1 }
    requires pin { IfSome condition (λ c. c.pin < length gate.now.pins.now) }
    ensures at_pins { AreKeptAtPins A.algebra gate.now condition kept.new }
    ensures at_gate { IsGivenAtGate A.algebra gate.now condition result }
{
    let count = gate.pins.len();
    collect_kept::<A>(
        gate,
        condition,
        &mut cut[..count],
        &mut suffixes[..count + 1],
        &mut kept[..count],
    )
}

// The same with as many places as there are pins.
fn collect_kept<A: Algebra>(
    gate: &GateView,
    condition: Option<Condition>,
    cut: &mut [StateSet],
    suffixes: &mut [StateSet],
    kept: &mut [StateSet],
) -> StateSet
    requires lines { All (λ line. line.0 < length gate.now.labels.now) gate.now.pins.now }
    requires cut { length cut.old ≡ length gate.now.pins.now }
    requires suffixes { length suffixes.old ≡ length gate.now.pins.now + 1 }
    requires kept { length kept.old ≡ length gate.now.pins.now }
    requires pin { IfSome condition (λ c. c.pin < length gate.now.pins.now) }
    ensures at_pins { AreKeptAtPins A.algebra gate.now condition kept.new }
    ensures at_gate { IsGivenAtGate A.algebra gate.now condition result }
{
    match condition {
        None => collect_freely::<A>(gate, cut, suffixes, kept),
        Some(step) => collect_at_step::<A>(gate, step, cut, suffixes, kept),
    }
}

// The same without a condition.
fn collect_freely<A: Algebra>(
    gate: &GateView,
    cut: &mut [StateSet],
    suffixes: &mut [StateSet],
    kept: &mut [StateSet],
) -> StateSet
    requires lines { All (λ line. line.0 < length gate.now.labels.now) gate.now.pins.now }
    requires cut { length cut.old ≡ length gate.now.pins.now }
    requires suffixes { length suffixes.old ≡ length gate.now.pins.now + 1 }
    requires kept { length kept.old ≡ length gate.now.pins.now }
    ensures at_pins { AreKeptAtPins A.algebra gate.now None kept.new }
    ensures at_gate { IsGivenAtGate A.algebra gate.now None result }
{
    let target = uninverted::<A>(gate.kind, gate.own);
    clear(kept);
    let given = pass::<A>(gate, no_limits::<A>(), target, cut, suffixes, kept);
    uninverted::<A>(gate.kind, given)
}

// The same with the condition of a step: a pass for each final value of the on-path pin.
fn collect_at_step<A: Algebra>(
    gate: &GateView,
    step: Condition,
    cut: &mut [StateSet],
    suffixes: &mut [StateSet],
    kept: &mut [StateSet],
) -> StateSet
    requires lines { All (λ line. line.0 < length gate.now.labels.now) gate.now.pins.now }
    requires cut { length cut.old ≡ length gate.now.pins.now }
    requires suffixes { length suffixes.old ≡ length gate.now.pins.now + 1 }
    requires kept { length kept.old ≡ length gate.now.pins.now }
    requires pin { step.pin < length gate.now.pins.now }
    ensures at_pins { AreKeptAtPins A.algebra gate.now (Some step) kept.new }
    ensures at_gate { IsGivenAtGate A.algebra gate.now (Some step) result }
{
    let target = uninverted::<A>(gate.kind, gate.own);
    clear(kept);
    let at_zero = limits_of::<A>(gate.kind, step, false);
    let zero = pass_on_path::<A>(gate, at_zero, target, cut, suffixes, kept);
    let at_one = limits_of::<A>(gate.kind, step, true);
    let one = pass_on_path::<A>(gate, at_one, target, cut, suffixes, kept);
    uninverted::<A>(gate.kind, zero.unite(one))
}

// Empties all sets.
fn clear(sets: &mut [StateSet])
    ensures { (place : ℕ) → place < length sets.new → set_at sets.new place ≡ no_states }
{
    for set in sets.iter_mut() {
        *set = StateSet::EMPTY;
    }
}

// The same pass, which is none where the on-path pin has no state within its limit: in most tests a line ends at one value.
fn pass_on_path<A: Algebra>(
    gate: &GateView,
    limits: Limits,
    target: StateSet,
    cut: &mut [StateSet],
    suffixes: &mut [StateSet],
    kept: &mut [StateSet],
) -> StateSet
    requires lines { All (λ line. line.0 < length gate.now.labels.now) gate.now.pins.now }
    requires pin { limits.on_path < length gate.now.pins.now }
    requires cut { length cut.old ≡ length gate.now.pins.now }
    requires suffixes { length suffixes.old ≡ length gate.now.pins.now + 1 }
    requires kept { length kept.old ≡ length gate.now.pins.now }
    requires on_path { IsWithin A.algebra.count limits.at_on_path }
    requires sides { IsWithin A.algebra.count limits.at_sides }
    requires target { IsWithin A.algebra.count target }
    ensures at_pins { (pin : ℕ) → pin < length gate.now.pins.now → Means A.algebra.count (set_at kept.new pin)
        (λ s. Has A.algebra.count (set_at kept.old pin) s
        ⊎ PassSupports A.algebra (op_of gate.now.kind) limits (pin_sets gate.now) target pin s) }
    ensures all { Means A.algebra.count result (PassFolds A.algebra (op_of gate.now.kind) limits (pin_sets gate.now) target) }
{
    if gate.cut_at(limits, limits.on_path) == StateSet::EMPTY {
        return StateSet::EMPTY;
    }
    pass::<A>(gate, limits, target, cut, suffixes, kept)
}

// Adds at each pin the states that some choice within the limits has there which joins into the target. Gives the states of the
// target to which such choices join.
fn pass<A: Algebra>(
    gate: &GateView,
    limits: Limits,
    target: StateSet,
    cut: &mut [StateSet],
    suffixes: &mut [StateSet],
    kept: &mut [StateSet],
) -> StateSet
    requires lines { All (λ line. line.0 < length gate.now.labels.now) gate.now.pins.now }
    requires cut { length cut.old ≡ length gate.now.pins.now }
    requires suffixes { length suffixes.old ≡ length gate.now.pins.now + 1 }
    requires kept { length kept.old ≡ length gate.now.pins.now }
    requires on_path { IsWithin A.algebra.count limits.at_on_path }
    requires sides { IsWithin A.algebra.count limits.at_sides }
    requires target { IsWithin A.algebra.count target }
    ensures at_pins { (pin : ℕ) → pin < length gate.now.pins.now → Means A.algebra.count (set_at kept.new pin)
        (λ s. Has A.algebra.count (set_at kept.old pin) s
        ⊎ PassSupports A.algebra (op_of gate.now.kind) limits (pin_sets gate.now) target pin s) }
    ensures all { Means A.algebra.count result (PassFolds A.algebra (op_of gate.now.kind) limits (pin_sets gate.now) target) }
{
    let op = gate.kind.operation();
    cut_to(limits, gate.pins, gate.labels, cut);
    join_suffixes::<A>(op, cut, suffixes);
    support_each::<A>(op, cut, suffixes, target, kept)
}
