// Going back by marks, in a loop.
ghost use Rattle.std.specs.Prelude.{◌<◌};
ghost use Rattle.netlist.specs.Circuit.{source_count};
ghost use Rattle.trees.specs.Unlinked.{IsUnlinked};
ghost use Rattle.implication.specs.Scopes.{IsSameScope, standing};
ghost use Rattle.implication.specs.Clients.{IsRestored, ExtendsStanding};
ghost use Rattle.search_answers.specs.Choices.{AreAtSources};

use crate::choice::Choice;
use implication::{Scope, Setting};
use state_sets::Algebra;

/// Assumes each first set that agrees with what was assumed before it, and the second set where the first does not. Tells how many
/// choices had a set that agreed. Leaves the scope as it was.
pub fn keep_agreeing<A: Algebra, S: Setting>(scope: &mut Scope<A, S>, choices: &[Choice]) -> usize
    requires sources { AreAtSources (source_count (standing scope.old).net) choices.now }
    requires unlinked { IsUnlinked (standing scope.old).rules }
    ensures scope { IsSameScope scope.old scope.new }
    ensures restored { IsRestored (standing scope.old) (standing scope.new) }
{
    let begun = scope.mark();
    let mut agreeing = 0;
    for choice in choices {
        if assume_agreeing(scope, *choice) {
            agreeing += 1;
        }
    }
    scope.back_to(begun);
    agreeing
}

// Assumes one of the two sets, the first if it agrees. Where neither does, the scope is as it was.
#[tactic(auto, using(crate::proofs::Told::unlinked_told))]
fn assume_agreeing<A: Algebra, S: Setting>(scope: &mut Scope<A, S>, choice: Choice) -> bool
    requires source { choice.source.0 < source_count (standing scope.old).net }
    requires unlinked { IsUnlinked (standing scope.old).rules }
    ensures scope { IsSameScope scope.old scope.new }
    ensures extends { ExtendsStanding (standing scope.old) (standing scope.new) }
{
    let before = scope.mark();
    if scope.assume(choice.source, choice.first).is_ok() {
        return true;
    }
    scope.back_to(before);
    if scope.assume(choice.source, choice.second).is_ok() {
        return true;
    }
    scope.back_to(before);
    false
}
