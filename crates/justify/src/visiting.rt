// A visit of the place that is due next: at the node there a split is chosen; pairs are tried, unless the node's trial fails as that of the
// node above did; and where none is a test the tree grows by that node. How pairs are tried stands in trying.rt, which sources can be split
// in choosing.rt.
ghost use Rattle.std.specs.Prelude.{◌≡◌, ◌≤◌, ◌∷◌, IfOk, IfErr, IfSome, IfNone, IsTrue, length, reverse};
ghost use Rattle.netlist.specs.Circuit.{line_count};
ghost use Rattle.justify.specs.Scoping.{SuitsSearch, MayEndBy};
ghost use Rattle.implication.specs.Clients.{IsRestored};
ghost use Rattle.implication.specs.Moves.{start_at};
ghost use Rattle.implication.specs.Scopes.{IsSameScope, standing};
ghost use Rattle.justify.specs.Choices.{AreSingle, IsUsefulSplit};
ghost use Rattle.justify.specs.Desks.{IsDesk};
ghost use Rattle.justify.specs.Closers.{ClosesByKept};
ghost use Rattle.justify.specs.Growths.{IsExtended, StandsAtPlace};
ghost use Rattle.justify.specs.Trying.{FailsByKept};
ghost use Rattle.implication.specs.NodeScopes.{StandsAtNode};
ghost use Rattle.justify.specs.Searches.{IsSearching, SearchGoesOn, IsVisit, AddsClosed, IsNodeVisit};
ghost use Rattle.pair_judging.specs.Targets.{seen_target};

use crate::Unfinished;
use crate::choosing::choose;
use crate::closers::Closers;
use crate::desk::Desk;
use crate::entering::enter;
use crate::growing::{Growth, Place, Sought};
use crate::halves::has_only;
use crate::task::{Splitting, Task};
use crate::trial::{Tried, closes_as_above};
use crate::trying::{can_try, try_node};
use implication::{Scope, Setting};
use pair_judging::Target;
use pd_base::{LineId, OutOfMemory, Pair};
use search_hints::{Frontier, Lead, Sight, follow};
use state_laws::Split;
use state_sets::{Algebra, StateSet};
use std::alloc::Global;
use trees::Node;

// A split that was chosen, and how far it was looked for in vain.
#[derive(Clone, Copy)]
struct NextSplit {
    split: Split,
    sought: Sought,
}

// Visits a place: adds the node that stands there, and the places below it. A test is the answer as soon as one is found; where there
// is none, the tree has one node more, and a conflict was counted.
//
// What was entered stays entered, also after an error.
pub(crate) fn visit<A: Algebra, S: Setting>(
    alloc: Global,
    scope: &mut Scope<A, S>,
    task: &Task,
    desk: &mut Desk,
    growth: &mut Growth,
    place: &Place,
) -> Result<Option<Pair>, Unfinished>
    requires searching { IsSearching A.algebra task.now (standing scope.old) desk.old (place.now ∷ reverse growth.old.places.items) growth.old }
    requires origin { start_at scope.old.origin ≤ length task.now.target.path.now.steps }
    ensures scope { IsSameScope scope.old scope.new }
    ensures goes_on { SearchGoesOn A.algebra task.now (standing scope.old) (standing scope.new) desk.new }
    ensures answer { IfOk result (IsVisit A.algebra task.now (standing scope.old) (standing scope.new) growth.old growth.new) }
    ensures unfinished { IfErr result (MayEndBy (seen_target task.now.target) (standing scope.old)) }
{
    if enter(scope, task, desk, place) {
        visit_node(alloc, scope, task, desk, growth, place)
    } else {
        Ok(add_closed(growth)?)
    }
}

// Adds a closed leaf.
fn add_closed(growth: &mut Growth) -> Result<Option<Pair>, OutOfMemory>
    ensures { IfOk result (AddsClosed growth.old growth.new) }
{
    growth.nodes.push(Node::Closed)?;
    Ok(None)
}

// Visits the open node of a place, at which the scope stands: tries pairs there, and where none is a test adds the node. Nothing is tried
// where the trial fails as that of the node above did.
fn visit_node<A: Algebra, S: Setting>(
    alloc: Global,
    scope: &mut Scope<A, S>,
    task: &Task,
    desk: &mut Desk,
    growth: &mut Growth,
    place: &Place,
) -> Result<Option<Pair>, Unfinished>
    requires suits { SuitsSearch A.algebra (seen_target task.now.target) (standing scope.old) }
    requires stands { StandsAtPlace A.algebra (seen_target task.now.target) (standing scope.old) place.now }
    requires desk { IsDesk A.algebra (standing scope.old).net (standing scope.old).rules task.now.target.path.now desk.old }
    requires budget { growth.old.splits ≤ task.now.budget }
    ensures desk { IsDesk A.algebra (standing scope.old).net (standing scope.old).rules task.now.target.path.now desk.new }
    ensures scope { IsSameScope scope.old scope.new }
    ensures restored { IsRestored (standing scope.old) (standing scope.new) }
    ensures answer { IfOk result (IsNodeVisit A.algebra task.now (standing scope.old) (standing scope.new) growth.old growth.new) }
    ensures unfinished { IfErr result (MayEndBy (seen_target task.now.target) (standing scope.old)) }
{
    if fails_as_above(scope, &task.target, desk, &place.closers) {
        let next = choose_next(scope, task, desk, place.sought, &place.closers);
        extend(scope, task, growth, next, &place.closers)?;
        return Ok(None);
    }
    // the source of the split is tried first, before it is known what closes the trial
    let next = choose_next(scope, task, desk, place.sought, &None);
    let split = next.map(|next| next.split.line);
    let test = try_node(alloc, scope, &task.target, desk, &place.closers, split)?;
    match test {
        Some(pair) => Ok(Some(pair)),
        None => {
            extend(scope, task, growth, next, &desk.closers)?;
            Ok(None)
        }
    }
}

// Whether the trial of the node at which the scope stands fails by what closed that of the node above. A conflict is then counted. The
// scope is afterwards as before.
fn fails_as_above<A: Algebra, S: Setting>(
    scope: &mut Scope<A, S>,
    target: &Target,
    desk: &Desk,
    closers: &Option<Closers>,
) -> bool
    requires suits { SuitsSearch A.algebra (seen_target target.now) (standing scope.old) }
    requires node { StandsAtNode A.algebra (seen_target target.now) (standing scope.old) }
    requires desk { IsDesk A.algebra (standing scope.old).net (standing scope.old).rules target.now.path.now desk.now }
    requires closes { ClosesByKept A.algebra (standing scope.old).net (standing scope.old).rules (seen_target target.now) (standing scope.old).assumptions closers.now }
    ensures scope { IsSameScope scope.old scope.new }
    ensures restored { IsRestored (standing scope.old) (standing scope.new) }
    ensures failed { IsTrue result → FailsByKept A.algebra (seen_target target.now) (standing scope.old) (standing scope.new) closers.now }
{
    let Some(kept) = closers else {
        return false;
    };
    let tried = kept.tried();
    can_try(scope, target, desk, tried) && closes_as_above(scope, target, tried)
}

// What becomes of an open node whose trial has failed: a leaf that waits, if no split is left of the budget, else the split that was
// chosen.
fn extend<A: Algebra, S: Setting>(
    scope: &Scope<A, S>,
    task: &Task,
    growth: &mut Growth,
    next: Option<NextSplit>,
    closers: &Option<Closers>,
) -> Result<(), OutOfMemory>
    requires some { IfSome next (λ split. IsUsefulSplit A.algebra (seen_target task.now.target) (standing scope.now) split.split) }
    requires none { IfNone next (AreSingle A.algebra (seen_target task.now.target) (standing scope.now)) }
    requires two { ¬ AreSingle A.algebra (seen_target task.now.target) (standing scope.now) }
    requires closes { ClosesByKept A.algebra (standing scope.now).net (standing scope.now).rules (seen_target task.now.target) (standing scope.now).assumptions closers.now }
    requires budget { growth.old.splits ≤ task.now.budget }
    ensures { IfOk result (λ done. IsExtended A.algebra (seen_target task.now.target) (standing scope.now) task.now.budget growth.old growth.new) }
{
    if growth.splits == task.budget {
        growth.nodes.push(Node::Waiting)?;
        return Ok(());
    }
    let Some(next) = next else { unreachable!() };
    growth.split::<A>(next.split, scope.mark(), next.sought, closers)?;
    Ok(())
}

// The split to make at the node at which the scope stands, and how far it was looked for in vain: at the source that is led to, or at any
// that can be split. There is none where each source has one state.
fn choose_next<A: Algebra, S: Setting>(
    scope: &Scope<A, S>,
    task: &Task,
    desk: &Desk,
    sought: Sought,
    closers: &Option<Closers>,
) -> Option<NextSplit>
    requires suits { SuitsSearch A.algebra (seen_target task.now.target) (standing scope.now) }
    requires node { StandsAtNode A.algebra (seen_target task.now.target) (standing scope.now) }
    requires desk { IsDesk A.algebra (standing scope.now).net (standing scope.now).rules task.now.target.path.now desk.now }
    ensures some { IfSome result (λ next. IsUsefulSplit A.algebra (seen_target task.now.target) (standing scope.now) next.split) }
    ensures none { IfNone result (AreSingle A.algebra (seen_target task.now.target) (standing scope.now)) }
{
    let lead = lead_at(scope, task, desk, sought.frontier, closers);
    let chosen = choose(scope, &task.target, desk, lead.source, sought.sources)?;
    Some(NextSplit {
        split: chosen.split,
        sought: Sought {
            frontier: lead.frontier,
            sources: chosen.place,
        },
    })
}

// Where to split: where a tree goes by weights, at the heaviest source, if one has a weight; else, of the sources that closed the trial, if
// these are given, at the only one that may still be in another state, if there is one alone, since one half then closes at once; else at
// the one that is led to.
fn lead_at<A: Algebra, S: Setting>(
    scope: &Scope<A, S>,
    task: &Task,
    desk: &Desk,
    frontier: Frontier,
    closers: &Option<Closers>,
) -> Lead
    requires { length desk.now.liked.items ≡ line_count (standing scope.now).net }
{
    let source = match task.splitting {
        Splitting::ByWeight => heavy_lead(scope, desk),
        Splitting::ByBacktrace => last_left(scope, closers),
    };
    if source.is_some() {
        return Lead { source, frontier };
    }
    lead_from(scope, &task.target, desk.liked.as_slice(), frontier)
}

// Of the sources that closed the node's trial the only one that may be in another state than the one tried, if there is one alone: a hint.
fn last_left<A: Algebra, S: Setting>(
    scope: &Scope<A, S>,
    closers: &Option<Closers>,
) -> Option<LineId> {
    let Some(kept) = closers else {
        return None;
    };
    let mut left = None;
    for entry in kept.tried() {
        if !is_as_tried(scope, *entry) {
            if left.is_some() {
                return None;
            }
            left = Some(entry.source);
        }
    }
    left
}

// Whether the source may be in no other state than the one tried.
fn is_as_tried<A: Algebra, S: Setting>(scope: &Scope<A, S>, entry: Tried) -> bool {
    entry.source.0 < scope.net().sources() && has_only::<A>(scope.label(entry.source), entry.state)
}

// The source to split first by what late conflicts rest on.
fn heavy_lead<A: Algebra, S: Setting>(scope: &Scope<A, S>, desk: &Desk) -> Option<LineId>
    requires { length desk.now.liked.items ≡ line_count (standing scope.now).net }
{
    let sight = Sight {
        net: scope.net(),
        labels: scope.labels(),
        liked: desk.liked.as_slice(),
    };
    desk.justifier
        .lead::<A>(&sight, scope.changes(), &desk.cone)
}

// Where to split: the source that is led to from what is still open.
fn lead_from<A: Algebra, S: Setting>(
    scope: &Scope<A, S>,
    target: &Target,
    liked: &[StateSet],
    frontier: Frontier,
) -> Lead
    requires { length liked.now ≡ line_count (standing scope.now).net }
{
    let sight = Sight {
        net: scope.net(),
        labels: scope.labels(),
        liked,
    };
    follow::<A>(
        &sight,
        scope.begun_lines(),
        scope.changes(),
        target.path,
        target.kind,
        frontier,
    )
}
