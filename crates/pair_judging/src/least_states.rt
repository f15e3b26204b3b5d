// The least state of a set.
ghost use Rattle.pair_judging.specs.LeastStates.{IsTakenOf};

use state_sets::{Algebra, State, StateSet, count_states};

/// The state of the least number in a set. Of a set of no state it is the last one.
pub fn least<A: Algebra>(set: StateSet) -> State
    ensures { IsTakenOf A.algebra.count set result }
{
    let last = count_states::<A>() - 1;
    let mut number = 0;
    while number < last && !set.holds(State(number)) {
        number += 1;
    }
    State(number)
}
