// The two halves of a split: which states of a set are in them; and sets of one state alone, which have no states in one of the halves.
// Sources are split by their last values or by their steadiness, since two of their states differ in one or the other.
ghost use Rattle.std.specs.Prelude.{◌≡◌, ◌<◌, ◌^◌, ◌↔◌, true, false, IsTrue, IfSome, IfNone};
ghost use Rattle.state_sets.specs.States.{Has, IsWithin};
ghost use Rattle.state_sets.specs.declared.state.State.{State};
ghost use Rattle.trees.specs.Spent.{HasInHalf};
ghost use Rattle.trees.specs.Trees.{IsSourceKind};
ghost use Rattle.justify.specs.Trying.{IsSingle};

use hulls::half_states;
use state_laws::SplitKind;
use state_sets::{Algebra, State, StateSet, count_states};

// The kind by which to split a set of states of a source, so that each half has some state. There is none where the set has less than two
// states.
pub(crate) fn kind_to_split<A: Algebra>(set: StateSet) -> Option<SplitKind>
    requires within { IsWithin A.algebra.count set }
    requires sources { (state : State) → Has A.algebra.count set state → Has A.algebra.count A.algebra.sources state }
    ensures source_kind { IfSome result IsSourceKind }
    ensures some { IfSome result (λ kind. HasInHalf A.algebra set kind false × HasInHalf A.algebra set kind true) }
    ensures none { IfNone result (IsSingle A.algebra.count set) }
{
    let by_value = has_both_halves::<A>(set, SplitKind::LastValue);
    if by_value {
        return Some(SplitKind::LastValue);
    }
    let by_steadiness = has_both_halves::<A>(set, SplitKind::Steadiness);
    if by_steadiness {
        Some(SplitKind::Steadiness)
    } else {
        None
    }
}

// Whether a set has a state of each half of a split.
pub(crate) fn has_both_halves<A: Algebra>(set: StateSet, kind: SplitKind) -> bool
    requires { IsWithin A.algebra.count set }
    ensures { IsTrue result ↔ (HasInHalf A.algebra set kind false × HasInHalf A.algebra set kind true) }
{
    has_in_half::<A>(set, kind, false) && has_in_half::<A>(set, kind, true)
}

// Whether a set has some state of a half.
fn has_in_half<A: Algebra>(set: StateSet, kind: SplitKind, second: bool) -> bool
    requires { IsWithin A.algebra.count set }
    ensures { IsTrue result ↔ HasInHalf A.algebra set kind second }
{
    set.intersect(half_states::<A>(kind, second)) != StateSet::EMPTY
}

// Whether a set has this state alone.
pub(crate) fn has_only<A: Algebra>(set: StateSet, state: State) -> bool
    ensures { IsTrue result ↔ ((state.0 < A.algebra.count) × (set.0 ≡ 2 ^ state.0)) }
{
    state.0 < count_states::<A>() && set == StateSet::only(state)
}
