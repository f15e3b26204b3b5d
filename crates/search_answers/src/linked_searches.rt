// Searches for tests of single paths under linked rules, as searching.rt has them for the others: on an engine that tells all lines, so that
// none ends undecided.
ghost use Rattle.std.specs.Prelude.{◌≡◌, None, IsTrue};
ghost use Rattle.pd_base.specs.Target.{target_of};
ghost use Rattle.netlist.specs.LinkedPairs.{FitRules};
ghost use Rattle.netlist.specs.Paths.{IsPath, IsPrefix};
ghost use Rattle.state_sets.specs.SixStates.{six_states};
ghost use Rattle.trees.specs.Algebras.{algebra_of};
ghost use Rattle.implication.specs.Scopes.{standing};
ghost use Rattle.justify.specs.Scoping.{IsStart};
ghost use Rattle.search_answers.specs.Told.{AreMarkedTold};

use crate::entering::enter_all;
use crate::found::{Came, Wanted};
use implication::{Engine, RuledNetlist, Scope, Setting};
use justify::{Found, search_linked};
use netlist::Netlist;
use pd_base::MOST_BUDGET;
use row_answers::{Fault, Trouble};
use state_sets::SixStates;
use std::alloc::Global;

/// Searches on an engine of its own, where all lines are marked.
pub(crate) fn search_for(alloc: Global, net: &Netlist, wanted: &Wanted) -> Result<Came, Trouble>
    requires path { IsPath net.now wanted.now.path.now }
    requires fit { FitRules net.now wanted.now.ruled.rules.now }
    requires linked { algebra_of wanted.now.ruled.rules.now ≡ six_states }
{
    let marks = vec![in alloc; true; net.lines() as usize]?;
    search_at(alloc, net, wanted, marks.as_slice())
}

// The same with these marks.
#[tactic(auto, using(crate::proofs::Told::all_told))]
fn search_at(alloc: Global, net: &Netlist, wanted: &Wanted, marks: &[bool]) -> Result<Came, Trouble>
    requires path { IsPath net.now wanted.now.path.now }
    requires fit { FitRules net.now wanted.now.ruled.rules.now }
    requires linked { algebra_of wanted.now.ruled.rules.now ≡ six_states }
{
    let rules = wanted.ruled.rules;
    let mut engine = Engine::<SixStates, RuledNetlist>::new(alloc, RuledNetlist { net, rules })?;
    search_on(alloc, &mut engine, wanted, marks)
}

// Searches on an engine on which no scope is open. A start that closes has no search.
#[tactic(auto, using(crate::proofs::Starts::at_start, crate::proofs::Starts::at_path, crate::proofs::Told::still_told, crate::proofs::Told::told_by_all))]
fn search_on<S: Setting>(
    alloc: Global,
    engine: &mut Engine<SixStates, S>,
    wanted: &Wanted,
    marks: &[bool],
) -> Result<Came, Trouble>
    requires idle { engine.old.beginning ≡ None }
    requires all { engine.old.ends ≡ None }
    requires path { IsPath engine.old.net wanted.now.path.now }
    requires told { AreMarkedTold engine.old marks.now }
    requires fit { FitRules engine.old.net engine.old.rules }
    requires linked { algebra_of engine.old.rules ≡ six_states }
{
    let path = wanted.path;
    let Fault { direction, kind } = wanted.ruled.fault;
    let mut scope = Scope::begin(engine, path.source(), direction, kind);
    if !is_open(&scope) {
        return Err(Trouble::NoRow);
    }
    if !enter_all(&mut scope, path.steps(), marks) {
        return Err(Trouble::NoRow);
    }
    search_in(alloc, &mut scope, wanted)
}

// Whether no conflict stands.
fn is_open<S: Setting>(scope: &Scope<SixStates, S>) -> bool
    ensures { IsTrue result → (standing scope.now).conflict ≡ None }
{
    match scope.conflict() {
        None => true,
        Some(_) => false,
    }
}

// Searches in a scope that has entered the path, and sees whether it is as it was.
fn search_in<S: Setting>(
    alloc: Global,
    scope: &mut Scope<SixStates, S>,
    wanted: &Wanted,
) -> Result<Came, Trouble>
    requires path { IsPrefix (standing scope.old).net wanted.now.path.now }
    requires fit { FitRules (standing scope.old).net (standing scope.old).rules }
    requires linked { algebra_of (standing scope.old).rules ≡ six_states }
    requires start { IsStart (target_of wanted.now.path.now wanted.now.ruled.fault.direction wanted.now.ruled.fault.kind)
        (standing scope.old) }
{
    let mark = scope.mark();
    let closings = scope.closings();
    let found = find(alloc, scope, wanted)?;
    Ok(Came {
        found,
        conflicts: scope.closings().saturating_sub(closings),
        restored: scope.mark() == mark && scope.conflict().is_none(),
    })
}

// What the search finds. It promises nothing, so that the answers are not proved over again under the contract of `search_linked`.
fn find<S: Setting>(
    alloc: Global,
    scope: &mut Scope<SixStates, S>,
    wanted: &Wanted,
) -> Result<Found, Trouble>
    requires path { IsPrefix (standing scope.old).net wanted.now.path.now }
    requires fit { FitRules (standing scope.old).net (standing scope.old).rules }
    requires linked { algebra_of (standing scope.old).rules ≡ six_states }
    requires start { IsStart (target_of wanted.now.path.now wanted.now.ruled.fault.direction wanted.now.ruled.fault.kind)
        (standing scope.old) }
{
    let budget = wanted.budget;
    if budget == 0 || budget > MOST_BUDGET {
        return Err(Trouble::NoRow);
    }
    let Fault { direction, kind } = wanted.ruled.fault;
    match search_linked(alloc, scope, wanted.path, direction, kind, budget) {
        Ok(found) => Ok(found),
        Err(_) => Err(Trouble::NoRow),
    }
}
