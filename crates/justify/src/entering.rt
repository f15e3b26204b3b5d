// The way of a scope from one place of a tree to the next. A conflict that comes there makes sources heavier, where a tree goes by weights;
// in other trees none is looked for where what closed the trial of the node above closes the place, too.
ghost use Rattle.std.specs.Prelude.{◌≡◌, ◌<◌, ◌≤◌, false, None, All, IsSome, IsTrue};
ghost use Rattle.netlist.specs.Paths.{IsPrefix};
ghost use Rattle.implication.specs.Moves.{start_at};
ghost use Rattle.implication.specs.Scopes.{IsSameScope, standing};
ghost use Rattle.justify.specs.Desks.{IsDesk};
ghost use Rattle.justify.specs.Growths.{CanEnter, IsKeptAtMark, AreHeldAt, IsHeldAt, IsEntered, IsShut};
ghost use Rattle.pair_judging.specs.Targets.{seen_target};

use crate::desk::Desk;
use crate::growing::Place;
use crate::halves::has_only;
use crate::task::{Splitting, Task};
use crate::trial::{Tried, count_conflict};
use implication::{Scope, Setting};
use search_hints::Sight;
use state_sets::Algebra;

// Goes back to the mark of a place, and assumes its set. Where a conflict comes, that is taken back; where what is kept closes the place,
// nothing is assumed, and a conflict is counted.
pub(crate) fn enter<A: Algebra, S: Setting>(
    scope: &mut Scope<A, S>,
    task: &Task,
    desk: &mut Desk,
    place: &Place,
) -> bool
    requires can { CanEnter A.algebra (start_at scope.old.origin) place.now (standing scope.old) }
    requires kept { IsKeptAtMark A.algebra (seen_target task.now.target) place.now (standing scope.old) }
    requires prefix { IsPrefix (standing scope.old).net task.now.target.path.now }
    requires desk { IsDesk A.algebra (standing scope.old).net (standing scope.old).rules task.now.target.path.now desk.old }
    ensures desk { IsDesk A.algebra (standing scope.old).net (standing scope.old).rules task.now.target.path.now desk.new }
    ensures scope { IsSameScope scope.old scope.new }
    ensures entered { IsTrue result → IsEntered A.algebra place.now (standing scope.old) (standing scope.new) }
    ensures later { (standing scope.old).closings ≤ (standing scope.new).closings }
    ensures shut { result ≡ false → IsShut A.algebra place.now (standing scope.old) (standing scope.new) }
{
    scope.back_to(place.mark);
    if task.splitting == Splitting::ByBacktrace && is_closed_by_kept(scope, place) {
        // there are labels here
        scope.labels();
        count_conflict(scope, place.source);
        return false;
    }
    if scope.assume(place.source, place.set).is_ok() {
        return true;
    }
    weigh(scope, task, desk);
    scope.back_to(place.mark);
    false
}

// Whether the place closes by what closed the trial of the node above, at which the scope stands: with the place's set assumed, each of
// these sources may only be in the state that was tried.
fn is_closed_by_kept<A: Algebra, S: Setting>(scope: &Scope<A, S>, place: &Place) -> bool
    requires begun { IsSome (standing scope.now).beginning }
    requires free { (standing scope.now).conflict ≡ None }
    ensures { IsTrue result → AreHeldAt A.algebra (standing scope.now) place.now }
{
    match &place.closers {
        Some(closers) => are_held(scope, place, closers.tried()),
        None => false,
    }
}

// Whether each of these sources may only be in the state that was tried, with the place's set assumed.
fn are_held<A: Algebra, S: Setting>(scope: &Scope<A, S>, place: &Place, tried: &[Tried]) -> bool
    requires begun { IsSome (standing scope.now).beginning }
    requires free { (standing scope.now).conflict ≡ None }
    ensures { IsTrue result → All (IsHeldAt A.algebra (standing scope.now) place.now) tried.now }
{
    for entry in tried {
        if !is_held(scope, place, *entry) {
            return false;
        }
    }
    true
}

// Whether the source may only be in the state that was tried, with the place's set assumed.
fn is_held<A: Algebra, S: Setting>(scope: &Scope<A, S>, place: &Place, entry: Tried) -> bool
    requires begun { IsSome (standing scope.now).beginning }
    requires free { (standing scope.now).conflict ≡ None }
    ensures { IsTrue result → IsHeldAt A.algebra (standing scope.now) place.now entry }
{
    if entry.source.0 >= scope.net().sources() {
        return false;
    }
    let label = scope.label(entry.source);
    if entry.source == place.source {
        has_only::<A>(label.intersect(place.set), entry.state)
    } else {
        has_only::<A>(label, entry.state)
    }
}

// Makes the sources heavier on which the conflict rests that stands, where the tree goes by weights.
fn weigh<A: Algebra, S: Setting>(scope: &Scope<A, S>, task: &Task, desk: &mut Desk)
    requires prefix { IsPrefix (standing scope.now).net task.now.target.path.now }
    requires desk { IsDesk A.algebra (standing scope.now).net (standing scope.now).rules task.now.target.path.now desk.old }
    ensures { IsDesk A.algebra (standing scope.now).net (standing scope.now).rules task.now.target.path.now desk.new }
{
    if task.splitting == Splitting::ByBacktrace {
        return;
    }
    let sight = Sight {
        net: scope.net(),
        labels: scope.labels(),
        liked: desk.liked.as_slice(),
    };
    desk.justifier.weigh::<A>(
        &sight,
        scope.changes(),
        &desk.cone,
        task.target.path,
        task.target.kind,
    );
}
