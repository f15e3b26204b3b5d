// Scopes within scopes, by recursion.
ghost use Rattle.netlist.specs.Circuit.{source_count};
ghost use Rattle.trees.specs.Unlinked.{IsUnlinked};
ghost use Rattle.implication.specs.Scopes.{IsSameScope, standing};
ghost use Rattle.implication.specs.Clients.{IsRestored};
ghost use Rattle.search_answers.specs.Choices.{AreAtSources};

use crate::choice::Choice;
use implication::{Scope, Setting};
use state_sets::Algebra;

/// Goes through all ways to choose, one scope for each choice, and below a conflict no further. Leaves the scope as it was.
#[tactic(auto, using(crate::proofs::Told::unlinked_told))]
pub fn walk<A: Algebra, S: Setting>(scope: &mut Scope<A, S>, choices: &[Choice])
    requires sources { AreAtSources (source_count (standing scope.old).net) choices.now }
    requires unlinked { IsUnlinked (standing scope.old).rules }
    ensures scope { IsSameScope scope.old scope.new }
    ensures restored { IsRestored (standing scope.old) (standing scope.new) }
{
    match choices {
        [] => {}
        [choice, rest @ ..] => {
            let mut inner = scope.engine.scope();
            if inner.assume(choice.source, choice.first).is_ok() {
                walk(&mut inner, rest);
            }
            inner.close();
            let mut inner = scope.engine.scope();
            if inner.assume(choice.source, choice.second).is_ok() {
                walk(&mut inner, rest);
            }
            // the second scope is dropped
        }
    }
}
