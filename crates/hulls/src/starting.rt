// The states in which sources may be at the start of a search.
ghost use Rattle.state_sets.specs.States.{Has, IsWithin};
ghost use Rattle.state_sets.specs.Starts.{IsLaunching, IsOtherStart};
ghost use Rattle.hulls.specs.Sets.{Means};

use crate::half_states;
use netlist::final_bit;
use pd_base::{Direction, Rules};
use state_laws::SplitKind;
use state_sets::{Algebra, StateSet};

/// The states of a source that launches the transition.
pub fn launching_states<A: Algebra>(direction: Direction) -> StateSet
    ensures within { IsWithin A.algebra.count result }
    ensures means { Means A.algebra.count result (λ s. Has A.algebra.count A.algebra.sources s × IsLaunching A.algebra direction s) }
{
    let moving = half_states::<A>(SplitKind::Steadiness, true);
    let launching = moving.intersect(half_states::<A>(SplitKind::LastValue, final_bit(direction)));
    A::source_states().intersect(launching)
}

/// The states in which another source may start.
pub fn other_states<A: Algebra>(rules: &Rules) -> StateSet
    ensures within { IsWithin A.algebra.count result }
    ensures means { Means A.algebra.count result (λ s. Has A.algebra.count A.algebra.sources s × IsOtherStart A.algebra rules.now s) }
{
    match rules {
        Rules::One | Rules::Linked(_) => A::source_states(),
        Rules::Two => A::source_states().intersect(half_states::<A>(SplitKind::Steadiness, false)),
    }
}
