// The six states of the project's definitions: steady, or not steady with the values under both vectors.
ghost use Rattle.std.specs.Prelude.{◌≡◌, not, refl};
ghost use Rattle.state_sets.specs.SixStates.{six_states, six_state, six_first, six_last};
ghost use Rattle.state_sets.specs.SixLaws.{six_laws};

use crate::op_tables::{number_at, table_of};
use crate::six_tables::{
    AND_SETS, AND_STATES, AND_SUPPORTS, INVERTED_SETS, OR_SETS, OR_STATES, OR_SUPPORTS, XOR_SETS,
    XOR_STATES, XOR_SUPPORTS,
};
use crate::{Algebra, State, StateSet};
use netlist::{Op, SideCondition};

/// S0, S1, N00, N01, N10, N11 as states 0 to 5: S where the line is steady, N where not, and the digits are the values under the
/// first vector and the second.
#[derive(Clone, Copy)]
pub struct SixStates;

impl Algebra for SixStates {
    ghost COUNT = { 6 };

    const COUNT: u32 = 6;

    ghost algebra = { six_states };

    fn join(op: Op, a: State, b: State) -> State {
        let table = table_of(op, &AND_STATES, &OR_STATES, &XOR_STATES);
        State(number_at(table, 6, a.0, b.0))
    }

    fn unit(op: Op) -> State {
        match op {
            Op::And => State(1),
            Op::Or | Op::Xor => State(0),
        }
    }

    fn invert(a: State) -> State {
        state_of(a.0 < 2, !begins_at_one(a), !ends_at_one(a))
    }

    fn last(a: State) -> bool {
        ends_at_one(a)
    }

    fn is_steady(a: State) -> bool {
        a.0 < 2
    }

    fn source_states() -> StateSet {
        StateSet(27)
    }

    fn link(a: State, c: State) -> bool {
        ends_at_one(a) == begins_at_one(c)
    }

    fn of(steady: bool, first: bool, last: bool) -> State {
        state_of(steady, first, last)
    }

    fn join_sets(op: Op, a: StateSet, b: StateSet) -> StateSet {
        let table = table_of(op, &AND_SETS, &OR_SETS, &XOR_SETS);
        StateSet(number_at(table, 64, a.0, b.0))
    }

    fn supporting(op: Op, rest: StateSet, target: StateSet) -> StateSet {
        let table = table_of(op, &AND_SUPPORTS, &OR_SUPPORTS, &XOR_SUPPORTS);
        StateSet(number_at(table, 64, rest.0, target.0))
    }

    fn invert_set(set: StateSet) -> StateSet {
        StateSet(INVERTED_SETS[set.0 as usize])
    }

    fn ending_at(bit: bool) -> StateSet {
        if bit { StateSet(42) } else { StateSet(21) }
    }

    fn allowed_by(condition: SideCondition) -> StateSet {
        match condition {
            SideCondition::Free => StateSet(63),
            SideCondition::EndsAt(false) => StateSet(21),
            SideCondition::EndsAt(true) => StateSet(42),
            SideCondition::SteadyAt(false) => StateSet(1),
            SideCondition::SteadyAt(true) => StateSet(2),
            SideCondition::AnySteady => StateSet(3),
        }
    }

    ghost counts = { refl };

    ghost laws = { six_laws };
}

// Whether the first value of a state is 1.
fn begins_at_one(a: State) -> bool
    ensures { result ≡ six_first a }
{
    a.0 == 1 || a.0 == 4 || a.0 == 5
}

// Whether the last value of a state is 1.
fn ends_at_one(a: State) -> bool
    ensures { result ≡ six_last a }
{
    a.0 == 1 || a.0 == 3 || a.0 == 5
}

// The state that is steady or not and has these values.
fn state_of(steady: bool, first: bool, last: bool) -> State
    ensures { result ≡ six_state steady first last }
{
    match (steady, first, last) {
        (true, _, false) => State(0),
        (true, _, true) => State(1),
        (false, false, false) => State(2),
        (false, false, true) => State(3),
        (false, true, false) => State(4),
        (false, true, true) => State(5),
    }
}
