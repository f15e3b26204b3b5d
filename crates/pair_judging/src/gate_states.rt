// The state of a gate's line, of the states of the lines that its pins read.
ghost use Rattle.std.specs.Prelude.{◌≡◌, ◌<◌, map, length, All};
ghost use Rattle.netlist.specs.declared.op.Op.{Op};
ghost use Rattle.state_sets.specs.StateAlgebra.{joined};
ghost use Rattle.state_sets.specs.Narrowing.{gate_state};
ghost use Rattle.pair_judging.specs.ConeStates.{state_in, AreStates};

use netlist::{GateKind, Op};
use pd_base::LineId;
use state_sets::{Algebra, State};

/// What a gate makes of the states of its pins.
pub fn gate_state<A: Algebra>(kind: GateKind, pins: &[LineId], states: &[State]) -> State
    requires pins { All (λ pin. pin.0 < length states.now) pins.now }
    requires states { AreStates A.algebra.count states.now }
    ensures state { result ≡ gate_state A.algebra kind (map (λ pin. state_in states.now pin.0) pins.now) }
    ensures in_range { result.0 < A.algebra.count }
{
    let joined = join_pins::<A>(kind.operation(), pins, states);
    if kind.inverts() {
        A::invert(joined)
    } else {
        joined
    }
}

// What an operation makes of the states of these pins, joined from the last one on.
fn join_pins<A: Algebra>(op: Op, pins: &[LineId], states: &[State]) -> State
    requires pins { All (λ pin. pin.0 < length states.now) pins.now }
    requires states { AreStates A.algebra.count states.now }
    ensures state { result ≡ joined A.algebra op (map (λ pin. state_in states.now pin.0) pins.now) }
    ensures in_range { result.0 < A.algebra.count }
{
    let mut joined = A::unit(op);
    for pin in (0..pins.len()).rev() {
        joined = A::join(op, states[pins[pin].0 as usize], joined);
    }
    joined
}
