// Trees judged on a scope that stands at their root already: one that has begun for a target and has entered the pins of its prefix. The
// walk over a tree goes on from there, and back.
ghost use Rattle.std.specs.Prelude.{◌≡◌, None, IfOk, IsTrue};
ghost use Rattle.pd_base.specs.Target.{Target};
ghost use Rattle.trees.specs.Refutations.{IsRefutation};
ghost use Rattle.implication.specs.declared.assumption.Origin.TheVariants.{Begun};
ghost use Rattle.implication.specs.Clients.{IsRestored};
ghost use Rattle.implication.specs.Scopes.{IsSameScope, standing};
ghost use Rattle.refutation_check.specs.Entered.{HasEnteredFor};

use crate::TreeCheck;
use crate::refutation::walk_refutation;
use crate::split_ends::tells_splits;
use implication::{Scope, Setting};
use pd_base::OutOfMemory;
use state_sets::Algebra;
use std::alloc::Global;
use trees::Tree;

/// Whether a tree refutes what a scope has begun for at the pins that it has entered since, which are those of a prefix. False is no proof
/// that the tree doesn't: one that splits a line which the scope does not tell is not judged. The scope is afterwards as before,
/// but that conflicts were counted; so it is after an error, which is want of memory: some bytes for each half above a node.
pub fn refutes_entered<A: Algebra, S: Setting>(
    alloc: Global,
    scope: &mut Scope<A, S>,
    tree: &Tree,
) -> Result<bool, OutOfMemory>
    requires begun { scope.old.origin ≡ Begun }
    requires free { (standing scope.old).conflict ≡ None }
    ensures scope { IsSameScope scope.old scope.new }
    ensures restored { IsRestored (standing scope.old) (standing scope.new) }
    ensures refutes { IfOk result (λ refutes. IsTrue refutes → (target : Target) → HasEnteredFor A.algebra target (standing scope.old)
        → IsRefutation (standing scope.old).net (standing scope.old).rules target tree.now) }
{
    if !tells_splits(scope.engine, tree.nodes()) {
        return Ok(false);
    }
    // no conflict stands, so each line has some state
    if scope.conflict().is_some() {
        unreachable!()
    }
    let mark = scope.mark();
    let mut pending = Vec::new(alloc);
    let told = walk_refutation(scope, &mut pending, tree);
    scope.back_to(mark);
    Ok(matches!(told?, TreeCheck::Yes))
}
