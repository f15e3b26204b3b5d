// What a condition leaves at each pin of a gate, for one final value at the on-path pin.
ghost use Rattle.std.specs.Prelude.{◌≡◌, ◌<◌, length, map, All};
ghost use Rattle.state_sets.specs.States.{IsWithin, all_states};
ghost use Rattle.state_sets.specs.Labellings.{label_at};
ghost use Rattle.hulls.specs.Limits.{limit_at, AreCut};
ghost use Rattle.hulls.specs.Passes.{AreLimitsOf, all_limits};

use netlist::{GateKind, side_condition};
use pd_base::LineId;
use state_sets::{Algebra, Condition, StateSet, every_state};

// The states left at the on-path pin, and those left at each other pin.
#[derive(Clone, Copy)]
pub(crate) struct Limits {
    pub(crate) on_path: usize,
    pub(crate) at_on_path: StateSet,
    pub(crate) at_sides: StateSet,
}

// All states at each pin.
pub(crate) fn no_limits<A: Algebra>() -> Limits
    ensures limits { result ≡ all_limits A.algebra.count }
    ensures on_path { IsWithin A.algebra.count result.at_on_path }
    ensures sides { IsWithin A.algebra.count result.at_sides }
{
    Limits {
        on_path: 0,
        at_on_path: every_state::<A>(),
        at_sides: every_state::<A>(),
    }
}

// What a condition leaves at each pin where the on-path pin ends at this bit.
pub(crate) fn limits_of<A: Algebra>(kind: GateKind, step: Condition, bit: bool) -> Limits
    ensures { AreLimitsOf A.algebra kind step bit result }
{
    Limits {
        on_path: step.pin as usize,
        at_on_path: A::ending_at(bit),
        at_sides: A::allowed_by(side_condition(step.kind, kind, bit)),
    }
}

// All states at the on-path pin of a condition, and these at each other pin.
pub(crate) fn limits_aside<A: Algebra>(step: Condition, sides: StateSet) -> Limits
    ensures on_path { result.on_path ≡ step.pin }
    ensures at_on_path { result.at_on_path ≡ all_states A.algebra.count }
    ensures within { IsWithin A.algebra.count result.at_on_path }
    ensures sides { result.at_sides ≡ sides }
{
    Limits {
        on_path: step.pin as usize,
        at_on_path: every_state::<A>(),
        at_sides: sides,
    }
}

// The states left at a pin.
pub(crate) fn limit_at(limits: Limits, pin: usize) -> StateSet
    ensures { result ≡ limit_at limits pin }
{
    if pin == limits.on_path {
        limits.at_on_path
    } else {
        limits.at_sides
    }
}

// Fills in the sets of the lines that the pins read, cut to the limits.
pub(crate) fn cut_to(limits: Limits, pins: &[LineId], labels: &[StateSet], cut: &mut [StateSet])
    requires lines { All (λ line. line.0 < length labels.now) pins.now }
    requires places { length cut.old ≡ length pins.now }
    ensures { AreCut limits (map (λ line. label_at labels.now line.0) pins.now) cut.new }
{
    for (pin, line) in pins.iter().enumerate() {
        cut[pin] = labels[line.0 as usize].intersect(limit_at(limits, pin));
    }
}
