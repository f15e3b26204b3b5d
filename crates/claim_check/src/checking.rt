// A run, judged from the netlist and the delays alone.
ghost use Rattle.std.specs.Prelude.{◌≡◌, ◌↔◌, ◌≤◌, All, IfOk, Ok, length};
ghost use Rattle.pd_base.specs.declared.limits.TheConstants.{MOST_PATHS};
ghost use Rattle.delay_annotation.specs.Annotation.{delays_of, Fits};
ghost use Rattle.netlist.specs.LinkedPairs.{FitRules};
ghost use Rattle.netlist.specs.Paths.{IsPath};
ghost use Rattle.runs.specs.Lawful.{IsLawfulRun};
ghost use Rattle.good_runs.specs.GoodRun.{IsGoodRun};
ghost use Rattle.good_runs.specs.Promises.{AllKeepPromises};
ghost use Rattle.claim_check.specs.Claims.{TellsOfRun, claim_of};
ghost use Rattle.claim_check.specs.Flaws.{TellsOfItems};
ghost use Rattle.claim_check.specs.Right.{IsRightAt};

use crate::claim::{Claim, Flaw};
use crate::counts::wrong_count;
use crate::listed::wrong_path;
use crate::prefix_tree::PrefixTree;
use crate::proving::wrong_proof;
use crate::verdicts::{wrong_verdict, wrong_without_proofs};
use delay_annotation::Delays;
use netlist::Netlist;
use path_lister::first_paths;
use pd_base::{OutOfMemory, Path};
use runs::Run;
use std::alloc::Global;

/// Whether a run is good for the first `count` paths, at most `MOST_PATHS` of them, and a budget of splits, under the rules of the run.
/// It is judged from the netlist and the delays alone: the paths are listed again, each refutation and each spent tree is walked, and each
/// test is evaluated, whose pair has to be one of the rules. The run has to be one that the three files can spell, and its rules fit the
/// netlist.
///
/// Where it is not good, its first flaw is told: of the counts first, then of the listed paths, then of the proofs, then of the faults; by
/// the number of the item, and at one item in the order of the reasons. Where it is good, its verdicts keep their promises: this follows from
/// what is checked here alone.
///
/// The one error is that memory ran out.
pub fn check_run(
    alloc: Global,
    net: &Netlist,
    delays: &Delays,
    count: u32,
    budget: u32,
    run: &Run,
) -> Result<Claim, OutOfMemory>
    requires fits { Fits net.now delays.now }
    requires count { count ≤ MOST_PATHS }
    requires lawful { IsLawfulRun net.now run.now }
    requires fit { FitRules net.now run.now.rules }
    ensures exactly { IfOk result (λ claim. (claim ≡ Claim.Holds) ↔ IsGoodRun net.now (delays_of net.now delays.now) count budget run.now) }
    ensures tells { IfOk result (TellsOfRun net.now (delays_of net.now delays.now) count budget run.now) }
    ensures promises { result ≡ Ok Claim.Holds → AllKeepPromises net.now budget run.now }
{
    // a netlist knows itself as a circuit
    let _ = net.sources();
    let first = first_paths(alloc, net, delays, count)?;
    let flaw = first_flaw(alloc, net, delays, budget, run, first.as_slice())?;
    Ok(claim_of(flaw))
}

// The claim that tells a flaw, if there is one.
fn claim_of(flaw: Option<Flaw>) -> Claim
    ensures { result ≡ claim_of flaw }
{
    match flaw {
        Some(Flaw { item, reason }) => Claim::Fails(item, reason),
        None => Claim::Holds,
    }
}

// The first flaw of a run, where these are the first paths.
fn first_flaw(
    alloc: Global,
    net: &Netlist,
    delays: &Delays,
    budget: u32,
    run: &Run,
    first: &[Path],
) -> Result<Option<Flaw>, OutOfMemory>
    requires fits { Fits net.now delays.now }
    requires paths { All (IsPath net.now) first.now }
    requires few { length first.now ≤ MOST_PATHS }
    requires lawful { IsLawfulRun net.now run.now }
    requires fit { FitRules net.now run.now.rules }
    ensures { IfOk result (TellsOfItems (IsRightAt net.now (delays_of net.now delays.now) budget first.now run.now)) }
{
    // so its paths have few steps
    let _ = net.sources();
    if let Some(flaw) = wrong_count(first.len(), run) {
        return Ok(Some(flaw));
    }
    if let Some(flaw) = wrong_path(net, delays, first, run.paths.as_slice()) {
        return Ok(Some(flaw));
    }
    // where no proof is cited, no prefix is looked up
    if run.proofs.as_slice().is_empty() {
        return wrong_without_proofs(alloc, net, run, first);
    }
    let prefixes = PrefixTree::new(alloc, first)?;
    let found = wrong_proof(alloc, net, budget, run, first, &prefixes)?;
    if found.is_some() {
        return Ok(found);
    }
    wrong_verdict(alloc, net, run, first, &prefixes)
}
