// The halves into which the states of a line are split.
ghost use Rattle.std.specs.Prelude.{◌<◌, ◌↔◌, IsTrue};
ghost use Rattle.state_sets.specs.declared.state.State.{State};
ghost use Rattle.state_sets.specs.States.{Has, IsWithin};
ghost use Rattle.state_laws.specs.Halves.{IsInHalf};

use crate::selecting::with_if;
use state_laws::SplitKind;
use state_sets::{Algebra, State, StateSet, count_states};

/// The states in one half of a split: in the first half those with last value 0, the steady ones or those with first value 0, by the kind
/// of the split, and in the second half those with value 1 or that are not steady.
pub fn half_states<A: Algebra>(kind: SplitKind, second: bool) -> StateSet
    ensures within { IsWithin A.algebra.count result }
    ensures means { (state : State) → Has A.algebra.count result state
        ↔ ((state.0 < A.algebra.count) × IsInHalf A.algebra kind second state) }
{
    let mut found = StateSet::EMPTY;
    for number in 0..count_states::<A>() {
        let state = State(number);
        found = with_if(found, state, is_in_half::<A>(kind, second, state));
    }
    found
}

// Whether the state is in the half.
fn is_in_half<A: Algebra>(kind: SplitKind, second: bool, state: State) -> bool
    requires { state.0 < A.algebra.count }
    ensures { IsTrue result ↔ IsInHalf A.algebra kind second state }
{
    match kind {
        SplitKind::LastValue => A::last(state) == second,
        SplitKind::Steadiness => A::is_steady(state) != second,
        SplitKind::FirstValue => A::link(A::of(true, second, second), state),
    }
}
