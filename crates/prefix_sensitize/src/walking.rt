// The walk for one aim over the listed paths in their order: one scope a source, in which the search goes along one path after another.
ghost use Rattle.std.specs.Prelude.{◌≡◌, ℕ, ◌+◌, ◌*◌, ◌<◌, ◌^◌, [], None, length, replicate, IfOk, OnOk};
ghost use Rattle.netlist.specs.declared.limits.TheConstants.{MOST_LEVELS};
ghost use Rattle.implication.specs.declared.assumption.Origin.TheVariants.{Begun};
ghost use Rattle.implication.specs.Scopes.{IsSameScope, standing};
ghost use Rattle.justify.specs.Desks.{IsDeskFor};
ghost use Rattle.prefix_sensitize.specs.Coming.{HasComeAlong, HasComeApart};
ghost use Rattle.prefix_sensitize.specs.Courses.{BeginsAt, IsBegunAt};
ghost use Rattle.prefix_sensitize.specs.Entering.{HasGone, IsIdleAgain};
ghost use Rattle.prefix_sensitize.specs.Outcomes.{KeepsOthers};
ghost use Rattle.prefix_sensitize.specs.Readiness.{IsReadyFor};
ghost use Rattle.prefix_sensitize.specs.Walking.{AreAsked, AreBeforeAim, AreFindings, CanWalk, ComesOn, HasWalked};
ghost use Rattle.prefix_sensitize.specs.Walks.{CountsPrefixes};

use crate::course::{Course, PathsInOrder, begins_at};
use crate::descent::Descent;
use crate::lifting::lift;
use crate::outcome::{Aim, Findings, RowOutcome};
use crate::settling::{settle, settle_start};
use implication::{Engine, Scope, Setting};
use justify::Desk;
use pd_base::{LineId, OutOfMemory, Steps};
use runs::Proof;
use state_sets::Algebra;
use std::alloc::Global;

/// Searches for tests of the listed paths, as far as outcomes are needed, and gives for each path its outcome. Each prefix is entered at
/// most once, and counts one step. A refutation that comes up at a prefix settles all paths that have it: none of them is searched, and
/// the one proof that is added to the list names the first listed path that has the prefix. One may come up at a source, before a pin is
/// entered: it has 0 steps, counts none, and settles all paths from there. A refutation with splits, which a search for a whole path ended
/// with, may be lifted to a prefix that later paths share: it then replaces all proofs about the aim that name paths with this prefix,
/// spent ones too, and settles these paths, searched or not. No scope is open, and no proof is about this aim yet; where no outcome is
/// needed there is a test.
///
/// Afterwards no scope is open, the desk serves as before, and each proof is one that was found for these paths. The one error is that
/// memory ran out; promised is then only how far the count of steps rose: no prefix was counted twice.
pub(crate) fn walk<A: Algebra, S: Setting, L>(
    engine: &mut Engine<A, S>,
    desk: &mut Desk,
    listed: &PathsInOrder,
    needed: Vec<bool>,
    aim: Aim,
    proofs: Vec<Proof>,
    steps: &mut Steps<L>,
) -> Result<Findings, OutOfMemory>
    requires ready { IsReadyFor A.algebra listed.now aim.budget engine.old desk.old }
    requires asked { AreAsked engine.old.net engine.old.rules aim listed.now.paths.now needed.items }
    requires before { AreBeforeAim engine.old.net engine.old.rules aim listed.now.paths.now proofs.items }
    requires room { steps.old + length listed.now.paths.now * MOST_LEVELS < 2 ^ 64 }
    ensures ready { OnOk result (IsReadyFor A.algebra listed.now aim.budget engine.new desk.new) }
    ensures rest { OnOk result (IsIdleAgain engine.old engine.new) }
    ensures found { IfOk result (AreFindings engine.old.net engine.old.rules aim listed.now.paths.now needed.items proofs.items) }
    ensures counted { CountsPrefixes listed.now.paths.now steps.old steps.new }
{
    // the netlist knows itself as a circuit
    let _ = engine.net().lines();
    let outcomes = unsearched(listed.alloc, listed.paths.len())?;
    let mut found = Findings { outcomes, proofs };
    let course = Course {
        alloc: listed.alloc,
        paths: listed.paths,
        order: listed.tree.order(),
        needed: needed.as_slice(),
        aim,
    };
    walk_course(engine, desk, &course, &mut found, steps)?;
    Ok(found)
}

// No outcome yet for each of so many paths.
fn unsearched(alloc: Global, count: usize) -> Result<Vec<RowOutcome>, OutOfMemory>
    ensures { IfOk result (λ outcomes. outcomes.items ≡ replicate count RowOutcome.Unsearched) }
{
    let mut outcomes = Vec::with_capacity(alloc, count)?;
    for _ in 0..count {
        outcomes.push(RowOutcome::Unsearched)?;
    }
    Ok(outcomes)
}

// Goes from source to source. The count of steps stood at `begin` when the walk began.
fn walk_course<A: Algebra, S: Setting, L>(
    engine: &mut Engine<A, S>,
    desk: &mut Desk,
    course: &Course,
    found: &mut Findings,
    steps: &mut Steps<L>,
) -> Result<(), OutOfMemory>
    ghost begin: { ℕ }
    requires idle { engine.old.beginning ≡ None }
    requires walking { CanWalk A.algebra engine.old.net engine.old.rules engine.old.ends course.now begin desk.old }
    requires come { HasComeApart engine.old.net engine.old.rules course.now begin 0 found.old steps.old }
    ensures desk { OnOk result (IsDeskFor A.algebra engine.old.net engine.old.rules desk.new) }
    ensures rest { OnOk result (IsIdleAgain engine.old engine.new) }
    ensures come { OnOk result (HasComeApart engine.old.net engine.old.rules course.now begin (length course.now.order.now) found.new steps.new) }
    ensures others { OnOk result (KeepsOthers course.now.aim found.old.proofs.items found.new.proofs.items) }
    ensures counted { CountsPrefixes course.now.paths.now begin steps.new }
{
    let mut place = 0;
    while place < course.order.len() {
        place = walk_source(engine, desk, course, place, found, steps)?;
    }
    Ok(())
}

// Opens a scope at the source of the path at this place, if the path needs an outcome, and goes along the paths from it, unless the start
// closes there. The answer is the place that is come to.
fn walk_source<A: Algebra, S: Setting, L>(
    engine: &mut Engine<A, S>,
    desk: &mut Desk,
    course: &Course,
    place: usize,
    found: &mut Findings,
    steps: &mut Steps<L>,
) -> Result<usize, OutOfMemory>
    ghost begin: { ℕ }
    requires idle { engine.old.beginning ≡ None }
    requires walking { CanWalk A.algebra engine.old.net engine.old.rules engine.old.ends course.now begin desk.old }
    requires place { place < length course.now.order.now }
    requires come { HasComeApart engine.old.net engine.old.rules course.now begin place found.old steps.old }
    ensures desk { IsDeskFor A.algebra engine.old.net engine.old.rules desk.new }
    ensures rest { IsIdleAgain engine.old engine.new }
    ensures come { IfOk result (λ end. HasComeApart engine.old.net engine.old.rules course.now begin end found.new steps.new) }
    ensures on { IfOk result (λ end. ComesOn course.now place end found.old found.new) }
    ensures counted { CountsPrefixes course.now.paths.now begin steps.new }
{
    let row = course.order[place];
    if !course.needed[row] {
        return Ok(place + 1);
    }
    let source = course.paths[row].source();
    let mut scope = Scope::begin(engine, source, course.aim.direction, course.aim.kind);
    if scope.conflict().is_some() {
        return settle_start(course, place, found);
    }
    walk_from(&mut scope, desk, course, source, place, found, steps)
}

// Goes along the paths from a source, at which a scope has begun. The answer is the place behind the last of them.
fn walk_from<A: Algebra, S: Setting, L>(
    scope: &mut Scope<A, S>,
    desk: &mut Desk,
    course: &Course,
    source: LineId,
    place: usize,
    found: &mut Findings,
    steps: &mut Steps<L>,
) -> Result<usize, OutOfMemory>
    ghost begin: { ℕ }
    requires begun { scope.old.origin ≡ Begun }
    requires gone { HasGone (standing scope.old) (record { source = source; steps = [] }) course.now.aim [] }
    requires walking { CanWalk A.algebra (standing scope.old).net (standing scope.old).rules (standing scope.old).ends course.now begin desk.old }
    requires place { BeginsAt course.now place source }
    requires come { HasComeApart (standing scope.old).net (standing scope.old).rules course.now begin place found.old steps.old }
    ensures walked { HasWalked A.algebra course.now begin (standing scope.old) (standing scope.new) desk.new steps.new }
    ensures scope { IsSameScope scope.old scope.new }
    ensures come { IfOk result (λ end. HasComeApart (standing scope.old).net (standing scope.old).rules course.now begin end found.new steps.new) }
    ensures on { IfOk result (λ end. ComesOn course.now place end found.old found.new) }
{
    let mut descent = Descent::new(course.alloc);
    let mut at = place;
    'paths: while begins_at(course, at, source) {
        at = visit_and_lift(scope, desk, &mut descent, course, source, at, found, steps)?;
    }
    Ok(at)
}

// Visits the path at this place, which begins at this source, and lifts the refutation that comes of that, if one does. The answer is the
// place up to which paths are settled then.
fn visit_and_lift<A: Algebra, S: Setting, L>(
    scope: &mut Scope<A, S>,
    desk: &mut Desk,
    descent: &mut Descent,
    course: &Course,
    source: LineId,
    place: usize,
    found: &mut Findings,
    steps: &mut Steps<L>,
) -> Result<usize, OutOfMemory>
    ghost begin: { ℕ }
    requires begun { scope.old.origin ≡ Begun }
    requires walking { CanWalk A.algebra (standing scope.old).net (standing scope.old).rules (standing scope.old).ends course.now begin desk.old }
    requires come { HasComeAlong (standing scope.old) course.now begin place descent.old found.old steps.old }
    requires place { IsBegunAt (standing scope.old) course.now place }
    requires source { BeginsAt course.now place source }
    ensures walked { HasWalked A.algebra course.now begin (standing scope.old) (standing scope.new) desk.new steps.new }
    ensures scope { IsSameScope scope.old scope.new }
    ensures come { IfOk result (λ end. HasComeAlong (standing scope.new) course.now begin end descent.new found.new steps.new) }
    ensures on { IfOk result (λ end. ComesOn course.now place end found.old found.new) }
{
    let before = found.proofs.len();
    let end = visit(scope, desk, descent, course, place, found, steps)?;
    if found.proofs.len() == before {
        return Ok(end);
    }
    lift(scope, descent, course, source, end, found)
}

// Searches for a test of the path at this place, if it needs an outcome. The answer is the place up to which paths are settled then.
fn visit<A: Algebra, S: Setting, L>(
    scope: &mut Scope<A, S>,
    desk: &mut Desk,
    descent: &mut Descent,
    course: &Course,
    place: usize,
    found: &mut Findings,
    steps: &mut Steps<L>,
) -> Result<usize, OutOfMemory>
    ghost begin: { ℕ }
    requires begun { scope.old.origin ≡ Begun }
    requires walking { CanWalk A.algebra (standing scope.old).net (standing scope.old).rules (standing scope.old).ends course.now begin desk.old }
    requires come { HasComeAlong (standing scope.old) course.now begin place descent.old found.old steps.old }
    requires place { IsBegunAt (standing scope.old) course.now place }
    ensures walked { HasWalked A.algebra course.now begin (standing scope.old) (standing scope.new) desk.new steps.new }
    ensures scope { IsSameScope scope.old scope.new }
    ensures come { IfOk result (λ end. HasComeAlong (standing scope.new) course.now begin end descent.new found.new steps.new) }
    ensures on { IfOk result (λ end. ComesOn course.now place end found.old found.new) }
{
    let row = course.order[place];
    if !course.needed[row] {
        return Ok(place + 1);
    }
    let ended = descent.search(
        course.alloc,
        scope,
        desk,
        &course.paths[row],
        course.aim,
        steps,
    )?;
    settle(course, place, ended, found)
}
