// All searches for the first paths of a circuit, and the run that they make. For how many paths it was asked no search needs to know:
// there may be fewer, and the run is good for each number of paths of which these are the first ones.
ghost use Rattle.std.specs.Prelude.{◌≡◌, ◌+◌, ◌*◌, ◌<◌, ◌≤◌, ◌^◌, length, map, not, All, IfOk, OnOk};
ghost use Rattle.netlist.specs.Circuit.{line_count};
ghost use Rattle.netlist.specs.declared.limits.TheConstants.{MOST_LEVELS};
ghost use Rattle.delay_annotation.specs.Annotation.{delays_of, Fits};
ghost use Rattle.netlist.specs.LinkedPairs.{FitRules};
ghost use Rattle.trees.specs.Algebras.{algebra_of};
ghost use Rattle.justify.specs.Desks.{IsDeskFor};
ghost use Rattle.prefix_sensitize.specs.Entering.{IsIdleAgain};
ghost use Rattle.prefix_sensitize.specs.Listed.{AreAllOutcomes};
ghost use Rattle.prefix_sensitize.specs.Readiness.{AreBeforeDirection, CountsAtMost, IsMadeFor, IsReadyFor, IsSet};
ghost use Rattle.prefix_sensitize.specs.SearchedRuns.{AreFirstOnes, IsSearchedRun};
ghost use Rattle.prefix_sensitize.specs.Searches.{AreDirectionFindings, is_test, searches_of};
ghost use Rattle.prefix_sensitize.specs.Walks.{AreSearchablePaths, AreToldPaths, IsBudget};

use crate::all_outcomes::{AllOutcomes, BothOutcomes, DirectionFindings};
use crate::course::PathsInOrder;
use crate::listing::run_of;
use crate::outcome::{Aim, RowOutcome};
use crate::path_tree::PathTree;
use crate::walking::walk;
use delay_annotation::Delays;
use implication::{Engine, RuledNetlist, Setting};
use justify::Desk;
use netlist::Netlist;
use pair_judging::ends_of;
use pd_base::{Direction, Kind, LineId, OutOfMemory, Path, Rules, Steps};
use runs::{Proof, Run};
use state_sets::{Algebra, FourStates, SixStates};
use std::alloc::Global;

/// A good run for the first paths of a circuit, which are given, for some number of at most `MOST_PATHS`, and a budget of splits for each
/// search, 1 to `MOST_BUDGET`: each verdict has the test or the proofs that it asks for, and each test and each proof is what it says,
/// under these rules (this project's own), which fit the circuit. The run can be written as files. A refutation whose prefix implication
/// alone refutes is one closed leaf, at the shortest prefix of its path that implication alone refutes. Under linked rules that may be the
/// source alone, before a pin is entered: the refutation has 0 steps then, and serves all paths from the source. A refutation with splits
/// stands at its whole path, or at a prefix that the path shares with others; at which of them is not promised. In a test a source outside
/// the support of its path is 0 under the first vector, and under the second it has what its link asks, or else 0.
///
/// `steps` stands at no more than 2^63, and counts the pins that are entered: at most four times as many as the paths have different
/// prefixes of at least one step, once for each transition and kind of test, whatever the answer is. A search that is begun anew, under
/// linked rules, begins at its path's end on an engine of its own, and enters none. The one error is that memory ran out.
pub fn sensitize_all<L>(
    alloc: Global,
    net: &Netlist,
    delays: &Delays,
    paths: Vec<Path>,
    budget: u32,
    rules: Rules,
    steps: &mut Steps<L>,
) -> Result<Run, OutOfMemory>
    requires fits { Fits net.now delays.now }
    requires first { AreFirstOnes net.now (delays_of net.now delays.now) paths.items }
    requires budget { IsBudget budget }
    requires fit { FitRules net.now rules }
    requires steps { steps.old ≤ 2 ^ 63 }
    ensures run { IfOk result (IsSearchedRun net.now (delays_of net.now delays.now) paths.items budget rules) }
    ensures steps { CountsAtMost paths.items 4 steps.old steps.new }
{
    // a netlist has few levels, and so its paths have few steps
    let _ = net.sources();
    let outcomes = search_paths(alloc, net, paths.as_slice(), budget, &rules, steps)?;
    run_of(alloc, net, delays, rules, paths, outcomes)
}

// Searches for all tests of these paths, with the kind of states that the rules choose.
fn search_paths<L>(
    alloc: Global,
    net: &Netlist,
    paths: &[Path],
    budget: u32,
    rules: &Rules,
    steps: &mut Steps<L>,
) -> Result<AllOutcomes, OutOfMemory>
    requires listed { AreSearchablePaths net.now paths.now }
    requires budget { IsBudget budget }
    requires fit { FitRules net.now rules.now }
    requires steps { steps.old ≤ 2 ^ 63 }
    ensures outcomes { IfOk result (λ outcomes. AreAllOutcomes net.now (searches_of rules.now budget paths.now outcomes) outcomes) }
    ensures steps { CountsAtMost paths.now 4 steps.old steps.new }
{
    match rules {
        Rules::One | Rules::Two => {
            search_by::<FourStates, L>(alloc, net, paths, budget, rules, steps)
        }
        Rules::Linked(_) => search_by::<SixStates, L>(alloc, net, paths, budget, rules, steps),
    }
}

// Does so with this kind of states.
fn search_by<A: Algebra, L>(
    alloc: Global,
    net: &Netlist,
    paths: &[Path],
    budget: u32,
    rules: &Rules,
    steps: &mut Steps<L>,
) -> Result<AllOutcomes, OutOfMemory>
    requires listed { AreSearchablePaths net.now paths.now }
    requires budget { IsBudget budget }
    requires states { A.algebra ≡ algebra_of rules.now }
    requires fit { FitRules net.now rules.now }
    requires steps { steps.old ≤ 2 ^ 63 }
    ensures outcomes { IfOk result (λ outcomes. AreAllOutcomes net.now (searches_of rules.now budget paths.now outcomes) outcomes) }
    ensures steps { CountsAtMost paths.now 4 steps.old steps.new }
{
    // a netlist is a circuit
    let _ = net.sources();
    let ends = ends_of(alloc, net, paths)?;
    let setting = RuledNetlist { net, rules };
    let mut engine = engine_for::<A>(alloc, setting, ends.as_slice())?;
    let outcomes = search_on(alloc, &mut engine, paths, budget, steps);
    // a call ends it, so that its many parts needn't be ended in this function's proof
    drop(engine);
    outcomes
}

// An engine that tells the ends of the paths. It is one of near gates where that pays, since a search on another one narrows at gates all
// over the netlist.
fn engine_for<'n, A: Algebra>(
    alloc: Global,
    setting: RuledNetlist<'n>,
    ends: &[LineId],
) -> Result<Engine<A, RuledNetlist<'n>>, OutOfMemory>
    requires states { A.algebra ≡ algebra_of setting.rules.now }
    requires fit { FitRules setting.net.now setting.rules.now }
    requires ends { All (λ end. end.0 < line_count setting.net.now) ends.now }
    ensures { IfOk result (IsMadeFor setting.entry.net.now setting.entry.rules.now ends.now) }
{
    if let Some(near) = Engine::near_if_few(alloc, setting, ends)? {
        return Ok(near);
    }
    Engine::within(alloc, setting, ends)
}

// Does so with this engine, on which no scope is open.
fn search_on<A: Algebra, S: Setting, L>(
    alloc: Global,
    engine: &mut Engine<A, S>,
    paths: &[Path],
    budget: u32,
    steps: &mut Steps<L>,
) -> Result<AllOutcomes, OutOfMemory>
    requires set { IsSet A.algebra engine.old }
    requires listed { AreSearchablePaths engine.old.net paths.now }
    requires told { AreToldPaths engine.old paths.now }
    requires budget { IsBudget budget }
    requires steps { steps.old ≤ 2 ^ 63 }
    ensures outcomes { IfOk result (λ outcomes. AreAllOutcomes engine.old.net (searches_of engine.old.rules budget paths.now outcomes) outcomes) }
    ensures steps { CountsAtMost paths.now 4 steps.old steps.new }
{
    let mut desk = Desk::new::<A>(alloc, engine.net(), engine.rules())?;
    let outcomes = search_in_order(alloc, engine, &mut desk, paths, budget, steps);
    // as the engine above
    drop(desk);
    outcomes
}

// Does so at this desk, in an order in which each prefix is entered once.
fn search_in_order<A: Algebra, S: Setting, L>(
    alloc: Global,
    engine: &mut Engine<A, S>,
    desk: &mut Desk,
    paths: &[Path],
    budget: u32,
    steps: &mut Steps<L>,
) -> Result<AllOutcomes, OutOfMemory>
    requires set { IsSet A.algebra engine.old }
    requires listed { AreSearchablePaths engine.old.net paths.now }
    requires told { AreToldPaths engine.old paths.now }
    requires desk { IsDeskFor A.algebra engine.old.net engine.old.rules desk.old }
    requires budget { IsBudget budget }
    requires steps { steps.old ≤ 2 ^ 63 }
    ensures outcomes { IfOk result (λ outcomes. AreAllOutcomes engine.old.net (searches_of engine.old.rules budget paths.now outcomes) outcomes) }
    ensures steps { CountsAtMost paths.now 4 steps.old steps.new }
{
    let tree = PathTree::new(alloc, paths)?;
    let listed = PathsInOrder {
        alloc,
        paths,
        tree: &tree,
    };
    search_all(engine, desk, &listed, budget, steps)
}

// Searches for the tests of both transitions.
fn search_all<A: Algebra, S: Setting, L>(
    engine: &mut Engine<A, S>,
    desk: &mut Desk,
    listed: &PathsInOrder,
    budget: u32,
    steps: &mut Steps<L>,
) -> Result<AllOutcomes, OutOfMemory>
    requires ready { IsReadyFor A.algebra listed.now budget engine.old desk.old }
    requires steps { steps.old ≤ 2 ^ 63 }
    ensures outcomes { IfOk result (λ outcomes. AreAllOutcomes engine.old.net (searches_of engine.old.rules budget listed.now.paths.now outcomes) outcomes) }
    ensures steps { steps.new ≤ steps.old + 4 * listed.now.tree.now.prefixes }
{
    let none = Vec::new(listed.alloc);
    let rises = search_direction(engine, desk, listed, Direction::Rise, budget, none, steps)?;
    let falls = search_direction(
        engine,
        desk,
        listed,
        Direction::Fall,
        budget,
        rises.proofs,
        steps,
    )?;
    Ok(AllOutcomes {
        budget,
        rises: rises.outcomes,
        falls: falls.outcomes,
        proofs: falls.proofs,
    })
}

// Searches for the robust tests of a transition, and then for nonrobust ones where there is none.
fn search_direction<A: Algebra, S: Setting, L>(
    engine: &mut Engine<A, S>,
    desk: &mut Desk,
    listed: &PathsInOrder,
    direction: Direction,
    budget: u32,
    proofs: Vec<Proof>,
    steps: &mut Steps<L>,
) -> Result<DirectionFindings, OutOfMemory>
    requires ready { IsReadyFor A.algebra listed.now budget engine.old desk.old }
    requires before { AreBeforeDirection engine.old.net engine.old.rules budget listed.now.paths.now direction proofs.items }
    requires room { steps.old + 2 * (length listed.now.paths.now * MOST_LEVELS) < 2 ^ 64 }
    ensures ready { OnOk result (IsReadyFor A.algebra listed.now budget engine.new desk.new) }
    ensures rest { OnOk result (IsIdleAgain engine.old engine.new) }
    ensures found { IfOk result (AreDirectionFindings engine.old.net engine.old.rules budget listed.now.paths.now direction proofs.items) }
    ensures steps { steps.new ≤ steps.old + 2 * listed.now.tree.now.prefixes }
{
    let aim = Aim {
        kind: Kind::Robust,
        direction,
        budget,
    };
    let all = vec![in listed.alloc; true; listed.paths.len()]?;
    let robust = walk(engine, desk, listed, all, aim, proofs, steps)?;
    let aim = Aim {
        kind: Kind::Nonrobust,
        direction,
        budget,
    };
    let untested = untested(listed.alloc, robust.outcomes.as_slice())?;
    let nonrobust = walk(engine, desk, listed, untested, aim, robust.proofs, steps)?;
    Ok(DirectionFindings {
        outcomes: BothOutcomes {
            robust: robust.outcomes,
            nonrobust: nonrobust.outcomes,
        },
        proofs: nonrobust.proofs,
    })
}

// For which paths no test was found.
fn untested(alloc: Global, outcomes: &[RowOutcome]) -> Result<Vec<bool>, OutOfMemory>
    ensures { IfOk result (λ untested. untested.items ≡ map (λ outcome. not (is_test outcome)) outcomes.now) }
{
    let mut untested = Vec::with_capacity(alloc, outcomes.len())?;
    for outcome in outcomes {
        untested.push(!is_test(outcome))?;
    }
    Ok(untested)
}

// Whether a test was found.
fn is_test(outcome: &RowOutcome) -> bool
    ensures { result ≡ is_test outcome.now }
{
    matches!(outcome, RowOutcome::Tested(_))
}
