// The search itself: depth first, one node after another in preorder, each with its assumptions on the scope.
ghost use Rattle.std.specs.Prelude.{◌≡◌, ◌<◌, ◌≤◌, [], true, false, IfOk, IfErr, IfSome, length, reverse};
ghost use Rattle.pd_base.specs.Target.{target_of};
ghost use Rattle.pd_base.specs.declared.limits.TheConstants.{MOST_BUDGET};
ghost use Rattle.netlist.specs.Paths.{IsPrefix};
ghost use Rattle.implication.specs.Standing.{IsOpenIn};
ghost use Rattle.implication.specs.Moves.{start_at};
ghost use Rattle.implication.specs.Scopes.{IsSameScope, standing};
ghost use Rattle.implication.specs.Clients.{IsRestored};
ghost use Rattle.justify.specs.Answers.{IsFound, CountsConflicts, IsOutcomeOf};
ghost use Rattle.justify.specs.Desks.{IsDeskFor, IsDesk};
ghost use Rattle.justify.specs.Ends.{is_spent};
ghost use Rattle.justify.specs.Scoping.{CanBegin, IsStart, SuitsRules, MayEndBy};
ghost use Rattle.justify.specs.Searches.{IsAtRoot, IsSearching, SearchGoesOn, EndsSearch, IsGrowthOf};
ghost use Rattle.pair_judging.specs.Targets.{seen_target};
ghost use Rattle.justify.specs.Tests.{IsFitTest};
ghost use Rattle.trees.specs.Unlinked.{IsUnlinked};
ghost use Rattle.state_sets.specs.SixStates.{six_states};

use crate::desk::Desk;
use crate::ending::{answer, or_test};
use crate::growing::Growth;
use crate::judging::judge_proposal;
use crate::task::{Splitting, Task};
use crate::visiting::visit;
use crate::{Found, Unfinished};
use implication::{Scope, Setting};
use pair_judging::{Target, take_least, take_preferred};
use pd_base::{Direction, Kind, OutOfMemory, Pair, Path};
use search_hints::{Effort, Sight};
use state_sets::{Algebra, FourStates, SixStates};
use std::alloc::Global;

/// Searches for a test of a kind for a path and a transition, on a scope that has begun with these and has entered the path's pins.
/// The answer is a test, a tree of cases that refutes the conditions with at most so many splits as the budget, or a tree that spent
/// exactly the budget.
///
/// The scope is afterwards as before, also where memory runs out, which is the one error; but conflicts are counted, as long as the
/// count is not at its end: at least one for each closed leaf of a refutation, and one for each node of a spent tree.
///
/// The rules of the engine are not linked ones. Under those: `search_linked`; where many searches share a desk: `search_at`.
pub fn search<S: Setting>(
    alloc: Global,
    scope: &mut Scope<FourStates, S>,
    path: &Path,
    dir: Direction,
    kind: Kind,
    budget: u32,
) -> Result<Found, OutOfMemory>
    requires can { CanBegin (target_of path.now dir kind) budget (standing scope.old) }
    requires unlinked { IsUnlinked (standing scope.old).rules }
    ensures found { IfOk result (IsFound (standing scope.old).net (standing scope.old).rules (target_of path.now dir kind) budget) }
    ensures counted { IfOk result (λ found. CountsConflicts budget found (standing scope.old) (standing scope.new)) }
    ensures scope { IsSameScope scope.old scope.new }
    ensures restored { IsRestored (standing scope.old) (standing scope.new) }
{
    let mut desk = Desk::new::<FourStates>(alloc, scope.net(), scope.rules())?;
    let target = Target {
        path,
        direction: dir,
        kind,
    };
    match search_at(alloc, scope, &mut desk, &target, budget) {
        Ok(found) => Ok(found),
        Err(Unfinished::NoMemory(refused)) => Err(refused),
        // without links all sources of the support are told
        Err(Unfinished::Undecided) => unreachable!(),
    }
}

/// The same under linked rules, which fit the engine's netlist, with six states: a test is a pair of the rules, and a refutation excludes
/// the pairs of the rules. Where the engine doesn't tell all sources of the path's support, the search may end undecided, too.
pub fn search_linked<S: Setting>(
    alloc: Global,
    scope: &mut Scope<SixStates, S>,
    path: &Path,
    dir: Direction,
    kind: Kind,
    budget: u32,
) -> Result<Found, Unfinished>
    requires can { CanBegin (target_of path.now dir kind) budget (standing scope.old) }
    requires rules { SuitsRules six_states (standing scope.old) }
    ensures found { IfOk result (IsFound (standing scope.old).net (standing scope.old).rules (target_of path.now dir kind) budget) }
    ensures counted { IfOk result (λ found. CountsConflicts budget found (standing scope.old) (standing scope.new)) }
    ensures scope { IsSameScope scope.old scope.new }
    ensures restored { IsRestored (standing scope.old) (standing scope.new) }
    ensures unfinished { IfErr result (MayEndBy (target_of path.now dir kind) (standing scope.old)) }
{
    let mut desk = Desk::new::<SixStates>(alloc, scope.net(), scope.rules())?;
    let target = Target {
        path,
        direction: dir,
        kind,
    };
    search_at(alloc, scope, &mut desk, &target, budget)
}

/// The same under any rules, at a desk that was made for the scope's netlist and rules, with the kind of states that is theirs. It costs
/// the cone of the path's end, and not the circuit, but for the labels of all lines, which each tree by weights copies once where it
/// begins, and for the vectors of a test; under links also for those of each proposal, and for room for the frames of the first ends. The
/// desk serves afterwards as before, whatever the answer.
pub fn search_at<A: Algebra, S: Setting>(
    alloc: Global,
    scope: &mut Scope<A, S>,
    desk: &mut Desk,
    target: &Target,
    budget: u32,
) -> Result<Found, Unfinished>
    requires can { CanBegin (seen_target target.now) budget (standing scope.old) }
    requires desk { IsDeskFor A.algebra (standing scope.old).net (standing scope.old).rules desk.old }
    ensures desk { IsDeskFor A.algebra (standing scope.old).net (standing scope.old).rules desk.new }
    ensures found { IfOk result (IsFound (standing scope.old).net (standing scope.old).rules (seen_target target.now) budget) }
    ensures counted { IfOk result (λ found. CountsConflicts budget found (standing scope.old) (standing scope.new)) }
    ensures scope { IsSameScope scope.old scope.new }
    ensures restored { IsRestored (standing scope.old) (standing scope.new) }
    ensures unfinished { IfErr result (MayEndBy (seen_target target.now) (standing scope.old)) }
{
    // no conflict stands, so each line has some state
    if scope.conflict().is_some() {
        unreachable!()
    }
    let task = Task {
        target: *target,
        budget,
        splitting: Splitting::ByBacktrace,
    };
    let ended = find(alloc, scope, &task, desk);
    conclude(alloc, scope, target, desk, ended)
}

// The same, but for what is looked for where the budget of a nonrobust search was spent.
fn find<A: Algebra, S: Setting>(
    alloc: Global,
    scope: &mut Scope<A, S>,
    task: &Task,
    desk: &mut Desk,
) -> Result<Found, Unfinished>
    requires prefix { IsPrefix (standing scope.old).net task.now.target.path.now }
    requires start { IsStart (seen_target task.now.target) (standing scope.old) }
    requires left_open { IsOpenIn A.algebra (standing scope.old) }
    requires budget { task.now.budget ≤ MOST_BUDGET }
    requires desk { IsDeskFor A.algebra (standing scope.old).net (standing scope.old).rules desk.old }
    ensures scope { IsSameScope scope.old scope.new }
    ensures ends { EndsSearch A.algebra task.now task.now.budget (standing scope.old) (standing scope.new) desk.new result }
{
    desk.cone.set_end(scope.net(), scope.last_line());
    match propose(alloc, scope, &task.target, desk)? {
        Some(pair) => {
            desk.justifier.learn_first_tree(task.target.kind, false);
            Ok(Found::Test(pair))
        }
        None => split_in_turns(alloc, scope, task, desk),
    }
}

// A test that is found without a split: from the last test's states, as far as the labels let them, or by decisions on any lines.
fn propose<A: Algebra, S: Setting>(
    alloc: Global,
    scope: &Scope<A, S>,
    target: &Target,
    desk: &mut Desk,
) -> Result<Option<Pair>, OutOfMemory>
    requires prefix { IsPrefix (standing scope.now).net target.now.path.now }
    requires desk { IsDesk A.algebra (standing scope.now).net (standing scope.now).rules target.now.path.now desk.old }
    ensures desk { IsDesk A.algebra (standing scope.now).net (standing scope.now).rules target.now.path.now desk.new }
    ensures test { IfOk result (λ found. IfSome found (IsFitTest (standing scope.now).net (standing scope.now).rules (seen_target target.now))) }
{
    match judge_liked(alloc, scope, target, desk)? {
        Some(pair) => Ok(Some(pair)),
        None => justify_lines(alloc, scope, target, desk, Effort::Little),
    }
}

// Judges the last test's states, as far as the labels let them.
fn judge_liked<A: Algebra, S: Setting>(
    alloc: Global,
    scope: &Scope<A, S>,
    target: &Target,
    desk: &mut Desk,
) -> Result<Option<Pair>, OutOfMemory>
    requires prefix { IsPrefix (standing scope.now).net target.now.path.now }
    requires desk { IsDesk A.algebra (standing scope.now).net (standing scope.now).rules target.now.path.now desk.old }
    ensures desk { IsDesk A.algebra (standing scope.now).net (standing scope.now).rules target.now.path.now desk.new }
    ensures test { IfOk result (λ found. IfSome found (IsFitTest (standing scope.now).net (standing scope.now).rules (seen_target target.now))) }
{
    if take_liked(alloc, scope, target, desk)? {
        judge_proposal(alloc, scope, target, desk)
    } else {
        Ok(None)
    }
}

// Takes the last test's states at the sources of the cone, as far as the labels let them. Whether these may be a test.
fn take_liked<A: Algebra, S: Setting>(
    alloc: Global,
    scope: &Scope<A, S>,
    target: &Target,
    desk: &mut Desk,
) -> Result<bool, OutOfMemory>
    requires { IsDesk A.algebra (standing scope.now).net (standing scope.now).rules target.now.path.now desk.old }
    ensures { IsDesk A.algebra (standing scope.now).net (standing scope.now).rules target.now.path.now desk.new }
{
    if !desk.cone.links().pairs().is_empty() {
        return prefer(alloc, scope, target, desk);
    }
    take_preferred::<A>(
        desk.cone.sources(),
        scope.labels(),
        desk.liked.as_slice(),
        desk.states.as_mut_slice(),
    );
    Ok(true)
}

// The same under links: the last test's first vector, as far as the labels let it, with what the links make of it.
fn prefer<A: Algebra, S: Setting>(
    alloc: Global,
    scope: &Scope<A, S>,
    target: &Target,
    desk: &mut Desk,
) -> Result<bool, OutOfMemory>
    requires { IsDesk A.algebra (standing scope.now).net (standing scope.now).rules target.now.path.now desk.old }
    ensures { IsDesk A.algebra (standing scope.now).net (standing scope.now).rules target.now.path.now desk.new }
{
    let sight = Sight {
        net: scope.net(),
        labels: scope.labels(),
        liked: desk.liked.as_slice(),
    };
    let is_likely = desk
        .justifier
        .prefer::<A>(alloc, &sight, &desk.cone, target.path)?;
    take_least::<A>(
        desk.cone.sources(),
        desk.justifier.labels(),
        desk.states.as_mut_slice(),
    );
    Ok(is_likely)
}

// What comes of a search in the end: what it found, from which later ones learn, or a test that is found by more decisions where the
// budget of a nonrobust search was spent. A robust one that is not found costs its fault the better verdict alone, and is not looked for
// again.
fn conclude<A: Algebra, S: Setting>(
    alloc: Global,
    scope: &Scope<A, S>,
    target: &Target,
    desk: &mut Desk,
    ended: Result<Found, Unfinished>,
) -> Result<Found, Unfinished>
    requires prefix { IsPrefix (standing scope.now).net target.now.path.now }
    requires desk { IsDesk A.algebra (standing scope.now).net (standing scope.now).rules target.now.path.now desk.old }
    requires ended { IfErr ended (MayEndBy (seen_target target.now) (standing scope.now)) }
    ensures desk { IsDesk A.algebra (standing scope.now).net (standing scope.now).rules target.now.path.now desk.new }
    ensures found { IfOk result (IsOutcomeOf (standing scope.now).net (standing scope.now).rules (seen_target target.now) ended) }
    ensures unfinished { IfErr result (MayEndBy (seen_target target.now) (standing scope.now)) }
{
    let found = ended?;
    desk.justifier.learn(target.kind, found.is_refuted());
    if target.kind == Kind::Robust || !found.is_spent() {
        return Ok(found);
    }
    let again = justify_lines(alloc, scope, target, desk, Effort::Much);
    Ok(or_test(found, again)?)
}

// A test with what decisions on lines of the cone come to, if they justify all of its lines.
fn justify_lines<A: Algebra, S: Setting>(
    alloc: Global,
    scope: &Scope<A, S>,
    target: &Target,
    desk: &mut Desk,
    effort: Effort,
) -> Result<Option<Pair>, OutOfMemory>
    requires prefix { IsPrefix (standing scope.now).net target.now.path.now }
    requires desk { IsDesk A.algebra (standing scope.now).net (standing scope.now).rules target.now.path.now desk.old }
    ensures desk { IsDesk A.algebra (standing scope.now).net (standing scope.now).rules target.now.path.now desk.new }
    ensures test { IfOk result (λ found. IfSome found (IsFitTest (standing scope.now).net (standing scope.now).rules (seen_target target.now))) }
{
    let sight = Sight {
        net: scope.net(),
        labels: scope.labels(),
        liked: desk.liked.as_slice(),
    };
    let is_justified = desk.justifier.propose::<A>(
        alloc,
        &sight,
        &desk.cone,
        target.path,
        target.kind,
        effort,
    )?;
    if !is_justified {
        return Ok(None);
    }
    take_least::<A>(
        desk.cone.sources(),
        desk.justifier.labels(),
        desk.states.as_mut_slice(),
    );
    judge_proposal(alloc, scope, target, desk)
}

// Grows trees in turn: one by weights that may have as many splits as pay, and where it spent them and more are left of the budget, others
// that may have the whole budget. What the earlier ones came to is dropped then.
fn split_in_turns<A: Algebra, S: Setting>(
    alloc: Global,
    scope: &mut Scope<A, S>,
    task: &Task,
    desk: &mut Desk,
) -> Result<Found, Unfinished>
    requires root { IsAtRoot A.algebra task.now (standing scope.old) desk.old }
    ensures scope { IsSameScope scope.old scope.new }
    ensures ends { EndsSearch A.algebra task.now task.now.budget (standing scope.old) (standing scope.new) desk.new result }
{
    let splits = first_tree_splits(task, desk);
    let found = split_by_weight(alloc, scope, task, desk, splits)?;
    desk.justifier
        .learn_first_tree(task.target.kind, found.is_spent());
    if is_dropped(&found, splits, task.budget) {
        return split_with_budget(alloc, scope, task, desk);
    }
    Ok(found)
}

// Grows a tree by backtrace that may have the whole budget, and where that pays when it is spent, one by weights.
fn split_with_budget<A: Algebra, S: Setting>(
    alloc: Global,
    scope: &mut Scope<A, S>,
    task: &Task,
    desk: &mut Desk,
) -> Result<Found, Unfinished>
    requires root { IsAtRoot A.algebra task.now (standing scope.old) desk.old }
    ensures scope { IsSameScope scope.old scope.new }
    ensures ends { EndsSearch A.algebra task.now task.now.budget (standing scope.old) (standing scope.new) desk.new result }
{
    let found = split_cases(alloc, scope, task, desk)?;
    desk.justifier
        .learn_backtrace(task.target.kind, found.refuting_splits());
    if !is_tried_again(&found, &task.target, desk) {
        return Ok(found);
    }
    split_by_weight(alloc, scope, task, desk, task.budget)
}

// Whether another tree pays after a search: where a nonrobust one spent its budget, since else the fault is aborted; but not under links,
// where after a spent tree by backtrace one by weights was seldom whole.
fn is_tried_again(found: &Found, target: &Target, desk: &Desk) -> bool {
    found.is_spent() && target.kind == Kind::Nonrobust && desk.cone.links().pairs().is_empty()
}

// Grows a tree by weights that may have so many splits.
fn split_by_weight<A: Algebra, S: Setting>(
    alloc: Global,
    scope: &mut Scope<A, S>,
    task: &Task,
    desk: &mut Desk,
    splits: u32,
) -> Result<Found, Unfinished>
    requires root { IsAtRoot A.algebra task.now (standing scope.old) desk.old }
    requires splits { splits ≤ task.now.budget }
    ensures scope { IsSameScope scope.old scope.new }
    ensures ends { EndsSearch A.algebra task.now splits (standing scope.old) (standing scope.new) desk.new result }
{
    let by_weight = Task {
        target: task.target,
        budget: splits,
        splitting: Splitting::ByWeight,
    };
    desk.justifier
        .begin_tree(scope.labels(), scope.changes().len());
    split_cases(alloc, scope, &by_weight, desk)
}

// How many splits the first tree may have: as many as pay, as far as the budget goes.
fn first_tree_splits(task: &Task, desk: &Desk) -> u32
    ensures { result ≤ task.now.budget }
{
    let most = desk.justifier.first_tree_splits(task.target.kind);
    if most < task.budget {
        most
    } else {
        task.budget
    }
}

// Whether the first tree is dropped, which could have so many splits: it spent them, and more are left of the budget.
fn is_dropped(found: &Found, splits: u32, budget: u32) -> bool
    requires { splits ≤ budget }
    ensures { result ≡ false → is_spent found.now ≡ true → splits ≡ budget }
{
    found.is_spent() && splits < budget
}

// Grows a tree of cases from its root, until a test is found or the tree is whole, and goes back to the root.
fn split_cases<A: Algebra, S: Setting>(
    alloc: Global,
    scope: &mut Scope<A, S>,
    task: &Task,
    desk: &mut Desk,
) -> Result<Found, Unfinished>
    requires root { IsAtRoot A.algebra task.now (standing scope.old) desk.old }
    ensures scope { IsSameScope scope.old scope.new }
    ensures ends { EndsSearch A.algebra task.now task.now.budget (standing scope.old) (standing scope.new) desk.new result }
{
    let mark = scope.mark();
    let ended = grow_tree(alloc, scope, task, desk);
    scope.back_to(mark);
    ended
}

// The same, and leaves what was assumed.
fn grow_tree<A: Algebra, S: Setting>(
    alloc: Global,
    scope: &mut Scope<A, S>,
    task: &Task,
    desk: &mut Desk,
) -> Result<Found, Unfinished>
    requires root { IsAtRoot A.algebra task.now (standing scope.old) desk.old }
    ensures scope { IsSameScope scope.old scope.new }
    ensures goes_on { SearchGoesOn A.algebra task.now (standing scope.old) (standing scope.new) desk.new }
    ensures found { IfOk result (IsFound (standing scope.old).net (standing scope.old).rules (seen_target task.now.target) task.now.budget) }
    ensures counted { IfOk result (λ found. CountsConflicts task.now.budget found (standing scope.old) (standing scope.new)) }
    ensures unfinished { IfErr result (MayEndBy (seen_target task.now.target) (standing scope.old)) }
{
    let mut growth = Growth::new::<A>(alloc, scope.mark(), task.target.path.source())?;
    let grown = grow(alloc, scope, task, desk, &mut growth);
    answer(growth, grown)
}

// Visits place after place until a test is found, or no place is left.
fn grow<A: Algebra, S: Setting>(
    alloc: Global,
    scope: &mut Scope<A, S>,
    task: &Task,
    desk: &mut Desk,
    growth: &mut Growth,
) -> Result<Option<Pair>, Unfinished>
    requires searching { IsSearching A.algebra task.now (standing scope.old) desk.old (reverse growth.old.places.items) growth.old }
    requires origin { start_at scope.old.origin ≤ length task.now.target.path.now.steps }
    requires nodes { growth.old.nodes.items ≡ [] }
    ensures scope { IsSameScope scope.old scope.new }
    ensures goes_on { SearchGoesOn A.algebra task.now (standing scope.old) (standing scope.new) desk.new }
    ensures answer { IfOk result (IsGrowthOf A.algebra task.now (standing scope.old) (standing scope.new) growth.new) }
    ensures unfinished { IfErr result (MayEndBy (seen_target task.now.target) (standing scope.old)) }
{
    while let Some(place) = growth.places.pop() {
        let test = visit(alloc, scope, task, desk, growth, &place)?;
        if let Some(pair) = test {
            return Ok(Some(pair));
        }
    }
    Ok(None)
}
