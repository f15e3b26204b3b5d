// The states of which a gate that inverts makes others.
ghost use Rattle.std.specs.Prelude.{◌<◌};
ghost use Rattle.netlist.specs.Gates.{is_inverting};
ghost use Rattle.state_sets.specs.States.{Has, IsWithin};
ghost use Rattle.state_sets.specs.Narrowing.{inverted_if};
ghost use Rattle.hulls.specs.Sets.{Means};

use netlist::GateKind;
use state_sets::{Algebra, StateSet, every_state};

// The states of which a gate of this kind makes one of the set: their inversions at a gate that inverts.
pub(crate) fn uninverted<A: Algebra>(kind: GateKind, set: StateSet) -> StateSet
    ensures within { IsWithin A.algebra.count result }
    ensures means { Means A.algebra.count result (λ s. (s.0 < A.algebra.count)
        × Has A.algebra.count set (inverted_if A.algebra (is_inverting kind) s)) }
{
    let all = every_state::<A>();
    let states = set.intersect(all);
    if kind.inverts() {
        // nothing is cut off: it shows a compiler that the set is small enough for the tables that are read at it
        A::invert_set(states).intersect(all)
    } else {
        states
    }
}
