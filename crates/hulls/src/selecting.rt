// Sets of states that are gathered state by state.
ghost use Rattle.std.specs.Prelude.{◌≡◌, ◌<◌};
ghost use Rattle.hulls.specs.Sets.{with_if};

use state_sets::{State, StateSet};

// The set with a state more, or as it is.
pub(crate) fn with_if(set: StateSet, state: State, added: bool) -> StateSet
    requires { state.0 < 8 }
    ensures { result ≡ with_if set state added }
{
    if added {
        set.unite(StateSet::only(state))
    } else {
        set
    }
}
