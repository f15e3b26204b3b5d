// The proofs of a run, one by one: whether each is a refutation of the prefix that it names, or a tree that spent the budget on the path.
// One judge of trees serves for all of them.
ghost use Rattle.std.specs.Prelude.{◌≡◌, ◌<◌, ◌≤◌, ◌↔◌, ◌^◌, All, IfOk, IsTrue, MatchOption, None, Some, length, if◌then◌else◌};
ghost use Rattle.pd_base.specs.Links.{links_of};
ghost use Rattle.pd_base.specs.Target.{target_of};
ghost use Rattle.pd_base.specs.Route.{Route};
ghost use Rattle.netlist.specs.LinkedPairs.{FitRules};
ghost use Rattle.netlist.specs.Paths.{IsPath, prefix_of};
ghost use Rattle.trees.specs.Algebras.{algebra_of};
ghost use Rattle.trees.specs.Refutations.{IsRefutation};
ghost use Rattle.good_runs.specs.Faults.{routes_of};
ghost use Rattle.good_runs.specs.GoodRun.{IsGoodRefutation, IsGoodSpent};
ghost use Rattle.claim_check.specs.Flaws.{TellsOfItem, TellsOfItems};
ghost use Rattle.claim_check.specs.JudgedPaths.{IsPathTold};
ghost use Rattle.claim_check.specs.Prefixes.{AreTreeNodes, IsFirstPrefix};
ghost use Rattle.claim_check.specs.Right.{IsRightProof, IsRightProofAt};

use crate::claim::{Flaw, Reason};
use crate::numbered::numbered;
use crate::prefix_tree::PrefixTree;
use netlist::Netlist;
use pair_judging::ends_of;
use pd_base::{OutOfMemory, Path, Rules};
use refutation_check::{TreeCheck, TreeJudge};
use runs::{Proof, Run};
use state_sets::{Algebra, FourStates, SixStates};
use std::alloc::Global;

// The first proof of a run that is not what it says, where these are the listed paths.
pub(crate) fn wrong_proof(
    alloc: Global,
    net: &Netlist,
    budget: u32,
    run: &Run,
    paths: &[Path],
    prefixes: &PrefixTree,
) -> Result<Option<Flaw>, OutOfMemory>
    requires routes { paths.now ≡ routes_of run.now }
    requires paths { All (IsPath net.now) paths.now }
    requires nodes { AreTreeNodes paths.now prefixes.now }
    requires few { length run.now.proofs < 2 ^ 32 }
    requires fit { FitRules net.now run.now.rules }
    ensures { IfOk result (TellsOfItems (IsRightProofAt net.now budget run.now)) }
{
    match run.rules {
        Rules::One | Rules::Two => {
            wrong_with::<FourStates>(alloc, net, budget, run, paths, prefixes)
        }
        Rules::Linked(_) => wrong_with::<SixStates>(alloc, net, budget, run, paths, prefixes),
    }
}

// The same with the kind of states that the run's rules choose.
fn wrong_with<A: Algebra>(
    alloc: Global,
    net: &Netlist,
    budget: u32,
    run: &Run,
    paths: &[Path],
    prefixes: &PrefixTree,
) -> Result<Option<Flaw>, OutOfMemory>
    requires chosen { A.algebra ≡ algebra_of run.now.rules }
    requires routes { paths.now ≡ routes_of run.now }
    requires paths { All (IsPath net.now) paths.now }
    requires nodes { AreTreeNodes paths.now prefixes.now }
    requires few { length run.now.proofs < 2 ^ 32 }
    requires fit { FitRules net.now run.now.rules }
    ensures { IfOk result (TellsOfItems (IsRightProofAt net.now budget run.now)) }
{
    // a netlist knows itself as a circuit
    let _ = net.sources();
    let ends = ends_of(alloc, net, paths)?;
    let mut judge = TreeJudge::<A>::new(alloc, net, &run.rules, ends.as_slice())?;
    wrong_by(&mut judge, alloc, budget, run, paths, prefixes)
}

// The same by a judge that is made for the run's rules and these paths.
fn wrong_by<A: Algebra>(
    judge: &mut TreeJudge<A>,
    alloc: Global,
    budget: u32,
    run: &Run,
    paths: &[Path],
    prefixes: &PrefixTree,
) -> Result<Option<Flaw>, OutOfMemory>
    requires rules { judge.old.rules ≡ run.now.rules }
    requires routes { paths.now ≡ routes_of run.now }
    requires paths { All (IsPathTold judge.old.net (links_of judge.old.rules) judge.old.ends) paths.now }
    requires nodes { AreTreeNodes paths.now prefixes.now }
    requires few { length run.now.proofs < 2 ^ 32 }
    ensures { IfOk result (TellsOfItems (IsRightProofAt judge.old.net budget run.now)) }
{
    let proofs = run.proofs.as_slice();
    for place in 0..proofs.len() {
        if let Some(reason) = wrong_in(judge, alloc, budget, paths, prefixes, &proofs[place])? {
            return Ok(Some(Flaw {
                item: place as u32 + 1,
                reason,
            }));
        }
    }
    Ok(None)
}

// What is wrong with a proof.
fn wrong_in<A: Algebra>(
    judge: &mut TreeJudge<A>,
    alloc: Global,
    budget: u32,
    paths: &[Path],
    prefixes: &PrefixTree,
    proof: &Proof,
) -> Result<Option<Reason>, OutOfMemory>
    requires paths { All (IsPathTold judge.old.net (links_of judge.old.rules) judge.old.ends) paths.now }
    requires nodes { AreTreeNodes paths.now prefixes.now }
    ensures same { judge.new ≡ judge.old }
    ensures tells { IfOk result (TellsOfItem (IsRightProof judge.old.net judge.old.rules budget paths.now proof.now)) }
{
    if proof.spent {
        let good = is_good_spent(judge, budget, paths, proof)?;
        return Ok(unless(good, Reason::BadSpent));
    }
    let good = is_good_refutation(judge, alloc, budget, paths, prefixes, proof)?;
    Ok(unless(good, Reason::BadRefutation))
}

// The reason, where it is not good.
fn unless(good: bool, reason: Reason) -> Option<Reason>
    ensures { result ≡ (if good then None else Some reason) }
{
    if good { None } else { Some(reason) }
}

// Whether a proof names a listed path and all its steps, and its tree spent the budget on it.
fn is_good_spent<A: Algebra>(
    judge: &mut TreeJudge<A>,
    budget: u32,
    paths: &[Path],
    proof: &Proof,
) -> Result<bool, OutOfMemory>
    requires { All (IsPathTold judge.old.net (links_of judge.old.rules) judge.old.ends) paths.now }
    ensures same { judge.new ≡ judge.old }
    ensures good { IfOk result (λ good. IsTrue good ↔ IsGoodSpent judge.old.net judge.old.rules budget paths.now proof.now) }
{
    match numbered(paths, proof.path) {
        Some(path) if proof.steps as usize == path.steps().len() => {
            let check = judge.check_spent(path, proof.dir, proof.kind, budget, &proof.tree)?;
            Ok(check == TreeCheck::Yes)
        }
        _ => Ok(false),
    }
}

// Whether a proof names a prefix of a listed path and of none before it, and its tree refutes that within the budget.
fn is_good_refutation<A: Algebra>(
    judge: &mut TreeJudge<A>,
    alloc: Global,
    budget: u32,
    paths: &[Path],
    prefixes: &PrefixTree,
    proof: &Proof,
) -> Result<bool, OutOfMemory>
    requires paths { All (IsPathTold judge.old.net (links_of judge.old.rules) judge.old.ends) paths.now }
    requires nodes { AreTreeNodes paths.now prefixes.now }
    ensures same { judge.new ≡ judge.old }
    ensures good { IfOk result (λ good. IsTrue good ↔ IsGoodRefutation judge.old.net judge.old.rules budget paths.now proof.now) }
{
    match path_of_new_prefix(paths, prefixes, proof) {
        Some(path) if proof.tree.splits() <= budget => refutes_prefix(judge, alloc, path, proof),
        _ => Ok(false),
    }
}

// The listed path that a proof names, if it has so many steps and no path before it has its prefix.
fn path_of_new_prefix<'p>(
    paths: &'p [Path],
    prefixes: &PrefixTree,
    proof: &Proof,
) -> Option<&'p Path>
    requires nodes { AreTreeNodes paths.now prefixes.now }
    ensures { MatchOption result ((path : Route) → ¬ IsFirstPrefix paths.now proof.now path)
        (λ path. IsFirstPrefix paths.now proof.now path.now) }
{
    let path = numbered(paths, proof.path)?;
    let steps = proof.steps as usize;
    if steps > path.steps().len() || prefixes.is_known(proof.path as usize - 1, steps) {
        return None;
    }
    Some(path)
}

// Whether a proof's tree refutes its kind and direction for the first steps of a path.
fn refutes_prefix<A: Algebra>(
    judge: &mut TreeJudge<A>,
    alloc: Global,
    path: &Path,
    proof: &Proof,
) -> Result<bool, OutOfMemory>
    requires path { IsPathTold judge.old.net (links_of judge.old.rules) judge.old.ends path.now }
    requires steps { proof.now.steps ≤ length path.now.steps }
    ensures same { judge.new ≡ judge.old }
    ensures refutes { IfOk result (λ refutes. IsTrue refutes
        ↔ IsRefutation judge.old.net judge.old.rules (target_of (prefix_of proof.now.steps path.now) proof.now.dir proof.now.kind) proof.now.tree) }
{
    let prefix = Path::new(alloc, path.source(), &path.steps()[..proof.steps as usize])?;
    let check = judge.check_tree(&prefix, proof.dir, proof.kind, &proof.tree)?;
    Ok(check == TreeCheck::Yes)
}
