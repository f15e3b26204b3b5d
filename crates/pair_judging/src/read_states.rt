// From labels to states of sources.
ghost use Rattle.std.specs.Prelude.{◌≡◌, ◌<◌, length, All};
ghost use Rattle.pair_judging.specs.ConeStates.{AreStates};
ghost use Rattle.pair_judging.specs.Taken.{IsPreferredOf, AreLeast, ArePreferred};

use crate::least_states::least;
use pd_base::LineId;
use state_sets::{Algebra, State, StateSet};

/// Puts each of these sources into the least state of its label. Takes no memory.
pub fn take_least<A: Algebra>(sources: &[LineId], labels: &[StateSet], states: &mut [State])
    requires labels { All (λ source. source.0 < length labels.now) sources.now }
    requires places { All (λ source. source.0 < length states.old) sources.now }
    requires states { AreStates A.algebra.count states.old }
    ensures places { length states.new ≡ length states.old }
    ensures states { AreStates A.algebra.count states.new }
    ensures taken { AreLeast A.algebra.count sources.now labels.now states.new }
{
    for source in sources {
        let at = source.0 as usize;
        states[at] = least::<A>(labels[at]);
    }
}

/// Puts each of these sources into the least state of what its label has of the set that is liked there, or of its label where that
/// is nothing. Takes no memory.
pub fn take_preferred<A: Algebra>(
    sources: &[LineId],
    labels: &[StateSet],
    liked: &[StateSet],
    states: &mut [State],
)
    requires labels { All (λ source. source.0 < length labels.now) sources.now }
    requires liked { All (λ source. source.0 < length liked.now) sources.now }
    requires places { All (λ source. source.0 < length states.old) sources.now }
    requires states { AreStates A.algebra.count states.old }
    ensures places { length states.new ≡ length states.old }
    ensures states { AreStates A.algebra.count states.new }
    ensures taken { ArePreferred A.algebra.count sources.now labels.now liked.now states.new }
{
    for source in sources {
        let at = source.0 as usize;
        states[at] = least::<A>(preferred(labels[at], liked[at]));
    }
}

// What a set has of another one, or all of it where that is nothing.
fn preferred(set: StateSet, liked: StateSet) -> StateSet
    ensures { IsPreferredOf set liked result }
{
    let both = set.intersect(liked);
    if both == StateSet::EMPTY { set } else { both }
}
