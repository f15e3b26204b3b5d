// Leaving two scopes by `?`.
ghost use Rattle.netlist.specs.Circuit.{source_count};
ghost use Rattle.std.specs.Prelude.{◌<◌};
ghost use Rattle.trees.specs.Unlinked.{IsUnlinked};
ghost use Rattle.implication.specs.Scopes.{IsSameScope, standing};
ghost use Rattle.implication.specs.Clients.{IsRestored};

use crate::choice::Choice;
use implication::{Conflict, Scope, Setting};
use state_sets::{Algebra, StateSet};

/// What is left of a source under two assumptions about it, each in a scope of its own, or the conflict that they come upon. The
/// scope is as it was, whichever way it ends.
#[tactic(auto, using(crate::proofs::Told::unlinked_told))]
pub fn assume_both<A: Algebra, S: Setting>(
    scope: &mut Scope<A, S>,
    choice: Choice,
) -> Result<StateSet, Conflict>
    requires source { choice.source.0 < source_count (standing scope.old).net }
    requires unlinked { IsUnlinked (standing scope.old).rules }
    ensures scope { IsSameScope scope.old scope.new }
    ensures restored { IsRestored (standing scope.old) (standing scope.new) }
{
    let mut outer = scope.engine.scope();
    outer.assume(choice.source, choice.first)?;
    let mut inner = outer.engine.scope();
    inner.assume(choice.source, choice.second)?;
    Ok(inner.label(choice.source))
}
