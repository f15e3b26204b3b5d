// Trying the states of a pair through the scope: they are assumed of sources of the path's support, one after another. A conflict
// shows that the trial of the node closes, and the scope counts it; where none comes of all sources, the pair is a test. And trials that
// close by the sources that closed that of the node above, for which nothing is narrowed. What is tried is chosen in trying.rt.
ghost use Rattle.std.specs.Prelude.{◌≡◌, ◌<◌, is_some, length, IfSome, IsSome, IsTrue, None, All};
ghost use Rattle.netlist.specs.Circuit.{source_count};
ghost use Rattle.justify.specs.Scoping.{SuitsSearch};
ghost use Rattle.implication.specs.Scopes.{IsSameScope, standing};
ghost use Rattle.implication.specs.Clients.{IsRestored, ExtendsStanding};
ghost use Rattle.implication.specs.Moves.{risen};
ghost use Rattle.implication.specs.Standing.{IsTold};
ghost use Rattle.pair_judging.specs.Targets.{seen_target};
ghost use Rattle.implication.specs.NodeScopes.{StandsAtNode};
ghost use Rattle.justify.specs.Closers.{ClosesBy};
ghost use Rattle.justify.specs.Trying.{CanTry, FailsAtNode, IsWithinTrial, EndsTrial, EndsAtNode, tried_until};

use implication::{Scope, Setting};
use pair_judging::Target;
use pd_base::LineId;
use state_sets::{Algebra, State, StateSet};

/// A source of a path's support, and the state in which it is tried.
#[derive(Clone, Copy)]
pub(crate) struct Tried {
    pub(crate) source: LineId,
    pub(crate) state: State,
}

// Whether the trial of the node at which the scope stands closes by these sources, and then the place among them of the one at which the
// conflict came: the trial has failed, and a conflict was counted. Where it does not close, a pair is a test that has the states tried at
// all sources of the support. The scope is afterwards as before.
pub(crate) fn closes_at<A: Algebra, S: Setting>(
    scope: &mut Scope<A, S>,
    target: &Target,
    tried: &[Tried],
) -> Option<usize>
    requires suits { SuitsSearch A.algebra (seen_target target.now) (standing scope.old) }
    requires node { StandsAtNode A.algebra (seen_target target.now) (standing scope.old) }
    requires tried { All (CanTry A.algebra (seen_target target.now) (standing scope.old)) tried.now }
    ensures scope { IsSameScope scope.old scope.new }
    ensures restored { IsRestored (standing scope.old) (standing scope.new) }
    ensures ends { EndsAtNode A.algebra (seen_target target.now) (standing scope.old) (standing scope.new) tried.now result }
    ensures place { IfSome result (λ place. place < length tried.now) }
{
    // there are labels here, of a circuit; and where no conflict comes there are also then
    let at_source = target.path.source().0 < scope.net().sources();
    prove!(at_source);
    scope.label(target.path.source());
    let mark = scope.mark();
    let place = assume_all(scope, target, tried);
    if place.is_some() {
        scope.back_to(mark);
        return place;
    }
    scope.label(target.path.source());
    scope.back_to(mark);
    None
}

// Assumes of source after source that it is in the state tried, until a conflict comes. The place of the source at which one came.
fn assume_all<A: Algebra, S: Setting>(
    scope: &mut Scope<A, S>,
    target: &Target,
    tried: &[Tried],
) -> Option<usize>
    requires suits { SuitsSearch A.algebra (seen_target target.now) (standing scope.old) }
    requires node { StandsAtNode A.algebra (seen_target target.now) (standing scope.old) }
    requires tried { All (CanTry A.algebra (seen_target target.now) (standing scope.old)) tried.now }
    ensures scope { IsSameScope scope.old scope.new }
    ensures extends { ExtendsStanding (standing scope.old) (standing scope.new) }
    ensures trial { IsWithinTrial A.algebra (seen_target target.now) (standing scope.old) (standing scope.new) (tried_until tried.now result) }
    ensures ends { EndsTrial A.algebra (seen_target target.now) (standing scope.old) (standing scope.new) tried.now (is_some result) }
    ensures place { IfSome result (λ place. place < length tried.now) }
{
    for (place, entry) in tried.iter().enumerate() {
        match scope.assume(entry.source, StateSet::only(entry.state)) {
            Ok(()) => {}
            Err(_) => return Some(place),
        }
    }
    None
}

// Whether the trial of the node closes by the sources that closed the trial of a node above: it does where these have the same least states
// here. The conflict is counted, with one of these sources left no state. The scope is afterwards as before.
pub(crate) fn closes_as_above<A: Algebra, S: Setting>(
    scope: &mut Scope<A, S>,
    target: &Target,
    tried: &[Tried],
) -> bool
    requires suits { SuitsSearch A.algebra (seen_target target.now) (standing scope.old) }
    requires node { StandsAtNode A.algebra (seen_target target.now) (standing scope.old) }
    requires tried { All (CanTry A.algebra (seen_target target.now) (standing scope.old)) tried.now }
    requires closes { ClosesBy A.algebra (standing scope.old).net (standing scope.old).rules (seen_target target.now) (standing scope.old).assumptions tried.now }
    ensures scope { IsSameScope scope.old scope.new }
    ensures restored { IsRestored (standing scope.old) (standing scope.new) }
    ensures failed { IsTrue result → FailsAtNode A.algebra (seen_target target.now) (standing scope.old) (standing scope.new) tried.now }
{
    // there are labels here
    scope.label(target.path.source());
    let Some(entry) = tried.first() else {
        return false;
    };
    count_conflict(scope, entry.source);
    true
}

// Counts a conflict, as one that comes where a source is left no state. The scope is otherwise as before.
pub(crate) fn count_conflict<A: Algebra, S: Setting>(scope: &mut Scope<A, S>, source: LineId)
    requires source { source.0 < source_count (standing scope.old).net }
    requires told { IsTold (standing scope.old) source.0 }
    requires begun { IsSome (standing scope.old).beginning }
    requires free { (standing scope.old).conflict ≡ None }
    ensures scope { IsSameScope scope.old scope.new }
    ensures restored { IsRestored (standing scope.old) (standing scope.new) }
    ensures counted { standing scope.new ≡ record (standing scope.old) { closings = risen (standing scope.old).closings } }
{
    let mark = scope.mark();
    if scope.assume(source, StateSet::EMPTY).is_ok() {
        // a source is left no state, so that a conflict comes
        unreachable!()
    }
    scope.back_to(mark);
}

// Puts the source first at which a conflict came: one mostly rests on few of them, and these come to the front one after another, so that
// the next trials close sooner.
pub(crate) fn bring_forward(tried: &mut [Tried], place: usize)
    requires { place < length tried.old }
{
    tried[..place + 1].rotate_right(1);
}
