// The four states of the project's definitions: steady or not, with the value under the second vector.
ghost use Rattle.std.specs.Prelude.{◌≡◌, not, refl};
ghost use Rattle.state_sets.specs.FourStates.{four_states, four_state, four_last};
ghost use Rattle.state_sets.specs.FourLaws.{four_laws};

use crate::four_tables::{
    AND_SETS, AND_STATES, AND_SUPPORTS, INVERTED_SETS, OR_SETS, OR_STATES, OR_SUPPORTS, XOR_SETS,
    XOR_STATES, XOR_SUPPORTS,
};
use crate::op_tables::{number_at, table_of};
use crate::{Algebra, State, StateSet};
use netlist::{Op, SideCondition};

/// S0, S1, N0, N1 as states 0 to 3: S where the line is steady, N where not, and the digit is the value under the second vector.
#[derive(Clone, Copy)]
pub struct FourStates;

impl Algebra for FourStates {
    ghost COUNT = { 4 };

    const COUNT: u32 = 4;

    ghost algebra = { four_states };

    fn join(op: Op, a: State, b: State) -> State {
        let table = table_of(op, &AND_STATES, &OR_STATES, &XOR_STATES);
        State(number_at(table, 4, a.0, b.0))
    }

    fn unit(op: Op) -> State {
        match op {
            Op::And => State(1),
            Op::Or | Op::Xor => State(0),
        }
    }

    fn invert(a: State) -> State {
        state_of(a.0 < 2, !is_one(a))
    }

    fn last(a: State) -> bool {
        is_one(a)
    }

    fn is_steady(a: State) -> bool {
        a.0 < 2
    }

    fn source_states() -> StateSet {
        StateSet(15)
    }

    fn link(a: State, c: State) -> bool {
        c.0 >= 2 || is_one(a) == is_one(c)
    }

    fn of(steady: bool, _first: bool, last: bool) -> State {
        state_of(steady, last)
    }

    fn join_sets(op: Op, a: StateSet, b: StateSet) -> StateSet {
        let table = table_of(op, &AND_SETS, &OR_SETS, &XOR_SETS);
        StateSet(number_at(table, 16, a.0, b.0))
    }

    fn supporting(op: Op, rest: StateSet, target: StateSet) -> StateSet {
        let table = table_of(op, &AND_SUPPORTS, &OR_SUPPORTS, &XOR_SUPPORTS);
        StateSet(number_at(table, 16, rest.0, target.0))
    }

    fn invert_set(set: StateSet) -> StateSet {
        StateSet(INVERTED_SETS[set.0 as usize])
    }

    fn ending_at(bit: bool) -> StateSet {
        if bit { StateSet(10) } else { StateSet(5) }
    }

    fn allowed_by(condition: SideCondition) -> StateSet {
        match condition {
            SideCondition::Free => StateSet(15),
            SideCondition::EndsAt(false) => StateSet(5),
            SideCondition::EndsAt(true) => StateSet(10),
            SideCondition::SteadyAt(false) => StateSet(1),
            SideCondition::SteadyAt(true) => StateSet(2),
            SideCondition::AnySteady => StateSet(3),
        }
    }

    ghost counts = { refl };

    ghost laws = { four_laws };
}

// Whether the last value of a state is 1.
fn is_one(a: State) -> bool
    ensures { result ≡ four_last a }
{
    a.0 == 1 || a.0 == 3
}

// The state that is steady or not and has this last value.
fn state_of(steady: bool, last: bool) -> State
    ensures { result ≡ four_state steady last }
{
    match (steady, last) {
        (true, false) => State(0),
        (true, true) => State(1),
        (false, false) => State(2),
        (false, true) => State(3),
    }
}
