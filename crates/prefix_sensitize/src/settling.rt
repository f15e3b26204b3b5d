// What the end of a search settles: the outcomes of paths, and a proof more.
ghost use Rattle.std.specs.Prelude.{◌≡◌, ℕ, ◌+◌, ◌<◌, ◌≤◌, ◌^◌, ◌∷◌, [], All, IfOk, length};
ghost use Rattle.pd_base.specs.Route.{Route};
ghost use Rattle.netlist.specs.declared.limits.TheConstants.{MOST_LEVELS};
ghost use Rattle.prefix_sensitize.specs.PathOrder.{IsOrder, StandsInOrder};
ghost use Rattle.prefix_sensitize.specs.Settling.{AddsProof, HasItsSteps, Settles, found_proof};

use crate::course::Course;
use crate::descent::{FoundAlong, closed_leaf};
use crate::outcome::{Aim, Findings, RowOutcome};
use crate::stretch::stretch_from;
use justify::Found;
use pd_base::OutOfMemory;
use runs::Proof;
use trees::{Node, Tree};

// Takes down the end of a search for the path at this place. The answer is the place up to which paths are settled then.
pub(crate) fn settle(
    course: &Course,
    place: usize,
    ended: FoundAlong,
    found: &mut Findings,
) -> Result<usize, OutOfMemory>
    requires order { IsOrder course.now.paths.now course.now.order.now }
    requires few { length course.now.paths.now < 2 ^ 32 }
    requires short { All (λ route. length route.steps ≤ MOST_LEVELS) course.now.paths.now }
    requires place { place < length course.now.order.now }
    requires one_each { length found.old.outcomes.items ≡ length course.now.paths.now }
    requires steps { (row : ℕ) (route : Route) → StandsInOrder course.now.paths.now course.now.order.now place row route → HasItsSteps route ended.steps ended.found }
    ensures { IfOk result (λ end. (row : ℕ) (route : Route) → StandsInOrder course.now.paths.now course.now.order.now place row route
        → Settles course.now place row route ended.steps ended.found end found.old.outcomes.items found.new.outcomes.items
        found.old.proofs.items found.new.proofs.items) }
{
    let row = course.order[place];
    let FoundAlong {
        found: answer,
        steps,
    } = ended;
    match answer {
        Found::Test(pair) => {
            found.outcomes[row] = RowOutcome::Tested(pair);
            Ok(place + 1)
        }
        Found::Spent(tree) => {
            let steps = course.paths[row].steps().len();
            let proof = found_proof(course.aim, true, row, steps, tree);
            add_proof(course.order, place, place + 1, proof, found)
        }
        Found::Refuted(tree) => {
            let stretch = stretch_from(course.paths, course.order, place, steps);
            let proof = found_proof(course.aim, false, stretch.least, steps, tree);
            add_proof(course.order, place, stretch.end, proof, found)
        }
    }
}

// Takes down that the start closes at the source of the path at this place, before a pin is entered: one closed leaf refutes all paths
// from there. The answer is the place up to which paths are settled then.
pub(crate) fn settle_start(
    course: &Course,
    place: usize,
    found: &mut Findings,
) -> Result<usize, OutOfMemory>
    requires order { IsOrder course.now.paths.now course.now.order.now }
    requires few { length course.now.paths.now < 2 ^ 32 }
    requires short { All (λ route. length route.steps ≤ MOST_LEVELS) course.now.paths.now }
    requires place { place < length course.now.order.now }
    requires one_each { length found.old.outcomes.items ≡ length course.now.paths.now }
    ensures { IfOk result (λ end. (row : ℕ) (route : Route) → StandsInOrder course.now.paths.now course.now.order.now place row route
        → Settles course.now place row route 0 (Found.Refuted (Node.Closed ∷ [])) end found.old.outcomes.items found.new.outcomes.items
        found.old.proofs.items found.new.proofs.items) }
{
    let tree = closed_leaf(course.alloc)?;
    let ended = FoundAlong {
        found: Found::Refuted(tree),
        steps: 0,
    };
    settle(course, place, ended, found)
}

// The proof by this tree, for an aim and so many steps of the path in this row.
pub(crate) fn found_proof(aim: Aim, spent: bool, row: usize, steps: usize, tree: Tree) -> Proof
    requires row { row + 1 < 2 ^ 32 }
    requires steps { steps < 2 ^ 32 }
    ensures { result ≡ found_proof aim spent row steps tree }
{
    Proof {
        spent,
        kind: aim.kind,
        dir: aim.direction,
        path: row as u32 + 1,
        steps: steps as u32,
        tree,
    }
}

// Adds a proof, which becomes the outcome of the rows on the places from one up to another, which is the answer.
pub(crate) fn add_proof(
    order: &[usize],
    place: usize,
    end: usize,
    proof: Proof,
    found: &mut Findings,
) -> Result<usize, OutOfMemory>
    requires rows { All (λ row. row < length found.old.outcomes.items) order.now }
    requires places { place ≤ end }
    requires end { end ≤ length order.now }
    ensures { IfOk result (λ to. (to ≡ end) × AddsProof order.now place end proof found.old.outcomes.items found.new.outcomes.items
        found.old.proofs.items found.new.proofs.items) }
{
    let index = found.proofs.len();
    found.proofs.push(proof)?;
    for at in place..end {
        found.outcomes[order[at]] = RowOutcome::Proved(index);
    }
    Ok(end)
}
