// Searches for tests of single paths, as callers make them: in a scope that began at the path's source and has entered its pins. What
// a row tells of one is spelled in found.rt; those under linked rules are made in linked_searches.rt. Each call of a function with a long
// contract stands in a function of its own that promises little.
ghost use Rattle.std.specs.Prelude.{◌≡◌, None, IsTrue, false};
ghost use Rattle.pd_base.specs.Target.{target_of};
ghost use Rattle.netlist.specs.LinkedPairs.{FitRules};
ghost use Rattle.netlist.specs.Paths.{IsPath, IsPrefix};
ghost use Rattle.state_sets.specs.SixStates.{six_states};
ghost use Rattle.trees.specs.Algebras.{algebra_of};
ghost use Rattle.trees.specs.Unlinked.{IsUnlinked};
ghost use Rattle.implication.specs.Scopes.{standing};
ghost use Rattle.justify.specs.Scoping.{IsStart};
ghost use Rattle.search_answers.specs.Told.{AreMarkedTold};

use crate::entering::enter_all;
use crate::found::{Came, Wanted, add_line};
use crate::judged::is_accepted;
use crate::linked_searches;
use implication::{Engine, RuledNetlist, Scope, Setting};
use justify::{Found, search};
use netlist::Netlist;
use pd_base::{MOST_BUDGET, Rules};
use row_answers::{Fault, RuledFault, Text, Trouble, fault_of, number_of, path, rules_of};
use state_sets::{FourStates, StateSet};
use std::alloc::Global;

/// Adds what a search for a test of a path ends with: the rules, transition, kind, and the budget.
pub fn searched(
    alloc: Global,
    net: &Netlist,
    route: &str,
    row: &str,
    answer: &mut Text,
) -> Result<(), Trouble> {
    let (rules, row) = rules_of(alloc, net, row)?;
    let (fault, budget) = fault_of(row)?;
    let budget = number_of(budget)?;
    let path = path(alloc, net, route)?;
    let rules = &rules;
    let wanted = Wanted {
        path: &path,
        ruled: RuledFault { rules, fault },
        budget,
    };
    add_search(alloc, net, &wanted, answer)
}

// The line of a search.
fn add_search(
    alloc: Global,
    net: &Netlist,
    wanted: &Wanted,
    answer: &mut Text,
) -> Result<(), Trouble>
    requires path { IsPath net.now wanted.now.path.now }
    requires fit { FitRules net.now wanted.now.ruled.rules.now }
{
    let came = search_by_rules(alloc, net, wanted)?;
    let accepted = is_accepted(alloc, net, wanted, &came.found)?;
    add_line(&came, accepted, answer);
    Ok(())
}

// Searches with the kind of states that the rules choose.
fn search_by_rules(alloc: Global, net: &Netlist, wanted: &Wanted) -> Result<Came, Trouble>
    requires path { IsPath net.now wanted.now.path.now }
    requires fit { FitRules net.now wanted.now.ruled.rules.now }
{
    if have_six_states(wanted.ruled.rules) {
        linked_searches::search_for(alloc, net, wanted)
    } else {
        search_for(alloc, net, wanted)
    }
}

// Whether the six states are those of the rules.
fn have_six_states(rules: &Rules) -> bool
    ensures six { IsTrue result → algebra_of rules.now ≡ six_states }
    ensures four { result ≡ false → IsUnlinked rules.now }
{
    match rules {
        Rules::One => false,
        Rules::Two => false,
        Rules::Linked(_) => true,
    }
}

// Searches on an engine of its own, where all lines are marked.
fn search_for(alloc: Global, net: &Netlist, wanted: &Wanted) -> Result<Came, Trouble>
    requires path { IsPath net.now wanted.now.path.now }
    requires unlinked { IsUnlinked wanted.now.ruled.rules.now }
{
    let marks = vec![in alloc; true; net.lines() as usize]?;
    search_at(alloc, net, wanted, marks.as_slice())
}

// The same with these marks.
#[tactic(auto, using(crate::proofs::Told::all_told, crate::proofs::Told::fits))]
fn search_at(alloc: Global, net: &Netlist, wanted: &Wanted, marks: &[bool]) -> Result<Came, Trouble>
    requires path { IsPath net.now wanted.now.path.now }
    requires unlinked { IsUnlinked wanted.now.ruled.rules.now }
{
    let rules = wanted.ruled.rules;
    let mut engine = Engine::<FourStates, RuledNetlist>::new(alloc, RuledNetlist { net, rules })?;
    search_on(alloc, &mut engine, wanted, marks)
}

// Searches on an engine on which no scope is open.
#[tactic(auto, using(crate::proofs::Starts::at_start, crate::proofs::Starts::at_path, crate::proofs::Told::still_told, crate::proofs::Told::unlinked_told))]
fn search_on<S: Setting>(
    alloc: Global,
    engine: &mut Engine<FourStates, S>,
    wanted: &Wanted,
    marks: &[bool],
) -> Result<Came, Trouble>
    requires idle { engine.old.beginning ≡ None }
    requires path { IsPath engine.old.net wanted.now.path.now }
    requires told { AreMarkedTold engine.old marks.now }
    requires unlinked { IsUnlinked engine.old.rules }
{
    let path = wanted.path;
    let Fault { direction, kind } = wanted.ruled.fault;
    let mut scope = Scope::begin(engine, path.source(), direction, kind);
    if !enter_all(&mut scope, path.steps(), marks) {
        return Err(Trouble::NoRow);
    }
    search_in(alloc, &mut scope, wanted)
}

// Searches in a scope that has entered the path.
fn search_in<S: Setting>(
    alloc: Global,
    scope: &mut Scope<FourStates, S>,
    wanted: &Wanted,
) -> Result<Came, Trouble>
    requires path { IsPrefix (standing scope.old).net wanted.now.path.now }
    requires unlinked { IsUnlinked (standing scope.old).rules }
    requires start { IsStart (target_of wanted.now.path.now wanted.now.ruled.fault.direction wanted.now.ruled.fault.kind)
        (standing scope.old) }
{
    let labels = Vec::from_slice(alloc, scope.labels())?;
    search_beside(alloc, scope, wanted, labels.as_slice())
}

// Searches, and compares what stands then with these labels and with how the scope stood.
fn search_beside<S: Setting>(
    alloc: Global,
    scope: &mut Scope<FourStates, S>,
    wanted: &Wanted,
    labels: &[StateSet],
) -> Result<Came, Trouble>
    requires path { IsPrefix (standing scope.old).net wanted.now.path.now }
    requires unlinked { IsUnlinked (standing scope.old).rules }
    requires start { IsStart (target_of wanted.now.path.now wanted.now.ruled.fault.direction wanted.now.ruled.fault.kind)
        (standing scope.old) }
{
    let mark = scope.mark();
    let closings = scope.closings();
    let found = find(alloc, scope, wanted)?;
    Ok(Came {
        found,
        conflicts: scope.closings().saturating_sub(closings),
        restored: scope.mark() == mark && is_free(scope, labels),
    })
}

// What the search finds. It promises nothing, so that the answers are not proved over again under the contract of `search`.
fn find<S: Setting>(
    alloc: Global,
    scope: &mut Scope<FourStates, S>,
    wanted: &Wanted,
) -> Result<Found, Trouble>
    requires path { IsPrefix (standing scope.old).net wanted.now.path.now }
    requires unlinked { IsUnlinked (standing scope.old).rules }
    requires start { IsStart (target_of wanted.now.path.now wanted.now.ruled.fault.direction wanted.now.ruled.fault.kind)
        (standing scope.old) }
{
    let budget = wanted.budget;
    if budget == 0 || budget > MOST_BUDGET {
        return Err(Trouble::NoRow);
    }
    let Fault { direction, kind } = wanted.ruled.fault;
    Ok(search(alloc, scope, wanted.path, direction, kind, budget)?)
}

// Whether no conflict stands, and the lines have these sets.
fn is_free<S: Setting>(scope: &Scope<FourStates, S>, sets: &[StateSet]) -> bool {
    scope.conflict().is_none() && scope.labels() == sets
}
