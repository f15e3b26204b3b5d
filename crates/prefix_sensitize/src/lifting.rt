// Refutations lifted to shorter prefixes. One with splits was found for a whole path, but it may need no more than the conditions at the
// path's first pins; then it excludes the tests of all paths that share these. So where the next path of the walk needs an outcome, the
// refutation that was found last is judged once more, at the prefix that the two paths share. Where it refutes there, it replaces all
// proofs under this prefix: those about the aim that name a path with it, spent ones too. It is the outcome of all paths with the prefix
// then, so that those ahead are not searched. The walk that calls this stands in walking.rt.
ghost use Rattle.std.specs.Prelude.{◌≡◌, ℕ, ◌<◌, ◌≤◌, ◌^◌, ◌↔◌, All, Some, IfOk, IsTrue, length};
ghost use Rattle.pd_base.specs.Route.{Route};
ghost use Rattle.netlist.specs.Paths.{prefix_of};
ghost use Rattle.netlist.specs.declared.limits.TheConstants.{MOST_LEVELS};
ghost use Rattle.trees.specs.Algebras.{algebra_of};
ghost use Rattle.implication.specs.declared.assumption.Origin.TheVariants.{Begun};
ghost use Rattle.implication.specs.Scopes.{IsSameScope, standing};
ghost use Rattle.prefix_sensitize.specs.Courses.{IsCourse};
ghost use Rattle.prefix_sensitize.specs.Entering.{IsSameBeginning};
ghost use Rattle.prefix_sensitize.specs.Lifting.{HasLiftedTo, HasComeTo, IsUnderPrefix, NamesPath, NoneIsUnder, ReplacesOrStays};
ghost use Rattle.prefix_sensitize.specs.PathOrder.{IsOrder, StandsInOrder};

use crate::course::{Course, begins_at};
use crate::descent::Descent;
use crate::outcome::Findings;
use crate::settling::{add_proof, found_proof};
use crate::stretch::{first_place, has_first_steps, stretch_from};
use implication::{Scope, Setting};
use pd_base::{LineId, OutOfMemory, Path};
use refutation_check::refutes_entered;
use runs::Proof;
use state_sets::Algebra;

/// Lifts the refutation that was found last, to shorter and shorter prefixes, as long as the path that comes next needs an outcome and
/// shares a prefix that it refutes. The answer is the place up to which paths are settled then. Each prefix costs one walk over the tree,
/// at most, and no pin is entered for it.
pub(crate) fn lift<A: Algebra, S: Setting>(
    scope: &mut Scope<A, S>,
    descent: &mut Descent,
    course: &Course,
    source: LineId,
    place: usize,
    found: &mut Findings,
) -> Result<usize, OutOfMemory>
    requires begun { scope.old.origin ≡ Begun }
    requires beginning { (standing scope.old).beginning
        ≡ Some (record { source = source; direction = course.now.aim.direction; kind = course.now.aim.kind }) }
    requires rules { A.algebra ≡ algebra_of (standing scope.old).rules }
    requires is_course { IsCourse (standing scope.old).net (standing scope.old).rules (standing scope.old).ends course.now }
    requires within { place ≤ length course.now.order.now }
    requires come { HasComeTo (standing scope.old) course.now place descent.old found.old }
    ensures scope { IsSameScope scope.old scope.new }
    ensures same { IsSameBeginning (standing scope.old) (standing scope.new) }
    ensures on { IfOk result (λ end.
        HasLiftedTo (standing scope.old) (standing scope.new) course.now place end descent.old descent.new found.old found.new) }
{
    let mut at = place;
    'lifts: loop {
        let end = lift_once(scope, descent, course, source, at, found)?;
        if end == at {
            return Ok(at);
        }
        at = end;
    }
}

// Lifts it to the prefix that the path at this place shares with the pins that are entered. The answer is the place up to which paths are
// settled then; it is this one where nothing is lifted.
fn lift_once<A: Algebra, S: Setting>(
    scope: &mut Scope<A, S>,
    descent: &mut Descent,
    course: &Course,
    source: LineId,
    place: usize,
    found: &mut Findings,
) -> Result<usize, OutOfMemory>
    requires begun { scope.old.origin ≡ Begun }
    requires beginning { (standing scope.old).beginning
        ≡ Some (record { source = source; direction = course.now.aim.direction; kind = course.now.aim.kind }) }
    requires rules { A.algebra ≡ algebra_of (standing scope.old).rules }
    requires is_course { IsCourse (standing scope.old).net (standing scope.old).rules (standing scope.old).ends course.now }
    requires within { place ≤ length course.now.order.now }
    requires come { HasComeTo (standing scope.old) course.now place descent.old found.old }
    ensures scope { IsSameScope scope.old scope.new }
    ensures same { IsSameBeginning (standing scope.old) (standing scope.new) }
    ensures on { IfOk result (λ end.
        HasLiftedTo (standing scope.old) (standing scope.new) course.now place end descent.old descent.new found.old found.new) }
{
    // no path from this source comes next, or it needs no search
    if !begins_at(course, place, source) || !course.needed[course.order[place]] {
        return Ok(place);
    }
    let Some(last) = found.proofs.last() else {
        return Ok(place);
    };
    // a spent tree refutes nothing, and what implication alone refutes stands at its shortest prefix already
    if last.spent || last.tree.splits() == 0 {
        return Ok(place);
    }
    let shared = descent.go_back(scope, &course.paths[course.order[place]]);
    // the source alone is shared: nothing is tried there
    if shared == 0 {
        return Ok(place);
    }
    if !refutes_entered(course.alloc, scope, &last.tree)? {
        return Ok(place);
    }
    replace_proofs(course, place, shared, found)
}

// Replaces all proofs under a prefix, that of so many steps of the path at this place, by one: a refutation of the prefix by the tree of
// the proof that was found last. It becomes the outcome of all paths that have the prefix, and the answer is the place behind these. No
// contract says that the proofs under the prefix stand at the end of the list, so that is looked at: where they don't, nothing changes, and
// the answer is this place.
fn replace_proofs(
    course: &Course,
    place: usize,
    steps: usize,
    found: &mut Findings,
) -> Result<usize, OutOfMemory>
    requires order { IsOrder course.now.paths.now course.now.order.now }
    requires few { length course.now.paths.now < 2 ^ 32 }
    requires short { All (λ route. length route.steps ≤ MOST_LEVELS) course.now.paths.now }
    requires place { place < length course.now.order.now }
    requires steps { (row : ℕ) (route : Route) → StandsInOrder course.now.paths.now course.now.order.now place row route
        → steps ≤ length route.steps }
    requires one_each { length found.old.outcomes.items ≡ length course.now.paths.now }
    requires names { All (NamesPath course.now.paths.now) found.old.proofs.items }
    ensures { IfOk result (λ end. (row : ℕ) (route : Route) → StandsInOrder course.now.paths.now course.now.order.now place row route
        → ReplacesOrStays course.now place (prefix_of steps route) steps end found.old found.new) }
{
    let path = &course.paths[course.order[place]];
    let kept = first_under_prefix(course, found.proofs.as_slice(), path, steps);
    if !are_under_prefix(course, &found.proofs[kept..], path, steps) {
        return Ok(place);
    }
    // some proof is under the prefix
    let Some(last) = found.proofs.pop() else {
        unreachable!()
    };
    found.proofs.truncate(kept);
    let start = first_place(course.paths, course.order, place, steps);
    let stretch = stretch_from(course.paths, course.order, start, steps);
    let proof = found_proof(course.aim, false, stretch.least, steps, last.tree);
    add_proof(course.order, start, stretch.end, proof, found)
}

// The index of the first of these proofs that is under the prefix of so many steps of a path, or their count where none is.
fn first_under_prefix(course: &Course, proofs: &[Proof], path: &Path, steps: usize) -> usize
    requires steps { steps ≤ length path.now.steps }
    requires names { All (NamesPath course.now.paths.now) proofs.now }
    ensures { NoneIsUnder course.now (prefix_of steps path.now) proofs.now result }
{
    for at in 0..proofs.len() {
        if is_under_prefix(course, &proofs[at], path, steps) {
            return at;
        }
    }
    proofs.len()
}

// Whether there are some of these proofs, and all are under the prefix of so many steps of a path.
fn are_under_prefix(course: &Course, proofs: &[Proof], path: &Path, steps: usize) -> bool
    requires steps { steps ≤ length path.now.steps }
    requires names { All (NamesPath course.now.paths.now) proofs.now }
    ensures some { IsTrue result → 0 < length proofs.now }
    ensures all { IsTrue result → All (IsUnderPrefix course.now (prefix_of steps path.now)) proofs.now }
{
    for proof in proofs {
        if !is_under_prefix(course, proof, path, steps) {
            return false;
        }
    }
    !proofs.is_empty()
}

// Whether a proof is under the prefix of so many steps of a path: it is about the aim, and the path that it names has the prefix.
fn is_under_prefix(course: &Course, proof: &Proof, path: &Path, steps: usize) -> bool
    requires steps { steps ≤ length path.now.steps }
    requires names { NamesPath course.now.paths.now proof.now }
    ensures { IsTrue result ↔ IsUnderPrefix course.now (prefix_of steps path.now) proof.now }
{
    let named = &course.paths[proof.path as usize - 1];
    proof.kind == course.aim.kind
        && proof.dir == course.aim.direction
        && has_first_steps(named, path, steps)
}
