// Whether a set has states of the halves into which a kind of split parts it.
ghost use Rattle.std.specs.Prelude.{◌↔◌, true, false, IsTrue};
ghost use Rattle.trees.specs.Spent.{HasInHalf};

use hulls::half_states;
use state_laws::SplitKind;
use state_sets::{Algebra, StateSet};

// Whether a set has a state of each half of a split.
pub(crate) fn has_both_halves<A: Algebra>(set: StateSet, kind: SplitKind) -> bool
    ensures { IsTrue result ↔ (HasInHalf A.algebra set kind false × HasInHalf A.algebra set kind true) }
{
    has_in_half::<A>(set, kind, false) && has_in_half::<A>(set, kind, true)
}

// Whether a set has some state of a half.
fn has_in_half<A: Algebra>(set: StateSet, kind: SplitKind, second: bool) -> bool
    ensures { IsTrue result ↔ HasInHalf A.algebra set kind second }
{
    set.intersect(half_states::<A>(kind, second)) != StateSet::EMPTY
}
