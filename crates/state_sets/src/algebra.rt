// What a kind of states has to offer so that gates can be narrowed by it. `join_sets` is part of it so that narrowing takes from a table
// what an operation makes of two sets.
ghost use Rattle.std.specs.Prelude.{◌≡◌, ◌<◌, ◌≤◌, ℕ};
ghost use Rattle.state_sets.specs.States.{IsWithin, all_states};
ghost use Rattle.state_sets.specs.StateAlgebra.{StateAlgebra, HasLaws};
ghost use Rattle.state_sets.specs.StateSets.{AreJoins, AreSupporting, AreInversions, AreEndingAt, AreAllowedBy};

use crate::{State, StateSet};
use netlist::{Op, SideCondition};

/// A kind of states that a line may be in under a pair of vectors, with what gates make of them.
pub trait Algebra {
    ghost COUNT: { ℕ };

    /// The number of states, at most 8.
    const COUNT: u32;

    /// All of it, as contracts see it.
    ghost algebra: { StateAlgebra };

    /// What an operation makes of two states.
    fn join(op: Op, a: State, b: State) -> State
        requires first { a.0 < algebra.count }
        requires second { b.0 < algebra.count }
        ensures { result ≡ algebra.join op a b };

    /// What an operation makes of no states.
    fn unit(op: Op) -> State
        ensures { result ≡ algebra.unit op };

    /// The state of an inverter whose pin is in this state.
    fn invert(a: State) -> State
        requires { a.0 < algebra.count }
        ensures { result ≡ algebra.invert a };

    /// The value under the second vector.
    fn last(a: State) -> bool
        requires { a.0 < algebra.count }
        ensures { result ≡ algebra.last a };

    /// Whether a line in this state is steady.
    fn is_steady(a: State) -> bool
        requires { a.0 < algebra.count }
        ensures { result ≡ algebra.steady a };

    /// The states that a source may have.
    fn source_states() -> StateSet
        ensures { result ≡ algebra.sources };

    /// Whether a source in state a may be linked to a line in state c.
    fn link(a: State, c: State) -> bool
        requires source { a.0 < algebra.count }
        requires line { c.0 < algebra.count }
        ensures { result ≡ algebra.link a c };

    /// The state of a line that is steady or not, and has these values under the two vectors.
    fn of(steady: bool, first: bool, last: bool) -> State
        ensures { result ≡ algebra.of steady first last };

    /// What an operation makes of one state of each set.
    fn join_sets(op: Op, a: StateSet, b: StateSet) -> StateSet
        requires first { IsWithin algebra.count a }
        requires second { IsWithin algebra.count b }
        ensures within { IsWithin algebra.count result }
        ensures joins { AreJoins algebra op a b result };

    /// The states that an operation joins with some state of the rest into the target.
    fn supporting(op: Op, rest: StateSet, target: StateSet) -> StateSet
        requires rest { IsWithin algebra.count rest }
        requires target { IsWithin algebra.count target }
        ensures within { IsWithin algebra.count result }
        ensures supports { AreSupporting algebra op rest target result };

    /// The states whose inversion is in a set.
    fn invert_set(set: StateSet) -> StateSet
        requires { IsWithin algebra.count set }
        ensures within { IsWithin algebra.count result }
        ensures inverts { AreInversions algebra set result };

    /// The states with this last value.
    fn ending_at(bit: bool) -> StateSet
        ensures within { IsWithin algebra.count result }
        ensures ends { AreEndingAt algebra bit result };

    /// The states that a condition allows a side pin.
    fn allowed_by(condition: SideCondition) -> StateSet
        ensures within { IsWithin algebra.count result }
        ensures allows { AreAllowedBy algebra condition result };

    ghost counts: { COUNT ≡ algebra.count };

    ghost laws: { HasLaws algebra };
}

/// The number of states.
pub fn count_states<A: Algebra>() -> u8
    ensures count { result ≡ A.algebra.count }
    ensures few { result ≤ 8 }
{
    A::COUNT as u8
}

/// The set of all states.
pub fn every_state<A: Algebra>() -> StateSet
    ensures all { result ≡ all_states A.algebra.count }
    ensures within { IsWithin A.algebra.count result }
{
    StateSet(((1u16 << count_states::<A>()) - 1) as u8)
}
