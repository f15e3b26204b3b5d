// Single trees, each judged on its own, with the kind of states that the rules choose.
ghost use Rattle.std.specs.Prelude.{◌≡◌, ◌<◌, ◌↔◌, Ok, IfOk};
ghost use Rattle.pd_base.specs.Target.{target_of};
ghost use Rattle.pd_base.specs.Pair.{Vectors};
ghost use Rattle.pd_base.specs.Route.{Route};
ghost use Rattle.netlist.specs.Conditions.{Meets};
ghost use Rattle.netlist.specs.LinkedPairs.{FitRules, IsOfRules};
ghost use Rattle.netlist.specs.Paths.{IsPrefix, IsPrefixOf};
ghost use Rattle.state_laws.specs.Steadied.{steadied};
ghost use Rattle.trees.specs.Algebras.{algebra_of};
ghost use Rattle.trees.specs.Faults.{IsRightInRefutation};
ghost use Rattle.trees.specs.Refutations.{IsRefutation};
ghost use Rattle.trees.specs.Spent.{IsSpent};
ghost use Rattle.trees.specs.Bounds.{IsBelowBound};
ghost use Rattle.trees.specs.Tried.{ShowsFailures};
ghost use Rattle.refutation_check.specs.Answers.{TellsOfNodes, TellsOfRefutation, TellsOfSpent};
ghost use Rattle.pair_judging.specs.Targets.{seen_target};

use crate::split_ends::refutes_apart;
use crate::{TreeCheck, TreeJudge};
use netlist::Netlist;
use pair_judging::{Target, end_of};
use pd_base::{Direction, Kind, OutOfMemory, Path, Rules};
use state_sets::{Algebra, FourStates, SixStates};
use std::alloc::Global;
use trees::Tree;

/// Whether a tree refutes the conditions of a kind of test for a prefix and a transition, under these rules. No names the first node in
/// preorder that is at fault: an open leaf, a closed leaf whose node does not close, or a split that the rules do not have: under rules One
/// it is at a source, else at any line, and it is by first values under linked rules alone. It fails only where memory runs out, of which
/// it takes some bytes for each line and each gate, and for each half above a node. Many trees on one netlist share a `TreeJudge`.
pub fn check_tree(
    alloc: Global,
    net: &Netlist,
    rules: &Rules,
    prefix: &Path,
    dir: Direction,
    kind: Kind,
    tree: &Tree,
) -> Result<TreeCheck, OutOfMemory>
    requires fit { FitRules net.now rules.now }
    requires prefix { IsPrefix net.now prefix.now }
    ensures tells { IfOk result (TellsOfRefutation net.now rules.now (target_of prefix.now dir kind) tree.now) }
    ensures exactly { IfOk result (λ check.
        (check ≡ TreeCheck.Yes) ↔ IsRefutation net.now rules.now (target_of prefix.now dir kind) tree.now) }

    // no pair of the rules meets the conditions of a refuted prefix, nor those of a path with this prefix
    ensures excludes { result ≡ Ok TreeCheck.Yes → (path : Route) → IsPrefix net.now path → IsPrefixOf prefix.now path
        → (pair : Vectors) → IsOfRules net.now rules.now pair → ¬ Meets net.now (target_of path dir kind) pair }
    // steadying a pair at the other sources, as rules Two ask, loses no test
    ensures steadied { (pair : Vectors) → Meets net.now (target_of prefix.now dir kind) pair
        → Meets net.now (target_of prefix.now dir kind) (steadied net.now prefix.now.source.0 pair) }
{
    // a netlist knows itself as a circuit
    let _ = net.lines();
    let target = Target {
        path: prefix,
        direction: dir,
        kind,
    };
    refutes_by_rules(alloc, net, rules, &target, tree)
}

// What the nodes tell, with the kind of states that the rules choose.
fn refutes_by_rules(
    alloc: Global,
    net: &Netlist,
    rules: &Rules,
    target: &Target,
    tree: &Tree,
) -> Result<TreeCheck, OutOfMemory>
    requires fit { FitRules net.now rules.now }
    requires prefix { IsPrefix net.now target.now.path.now }
    ensures { IfOk result (TellsOfNodes (IsRightInRefutation net.now rules.now (seen_target target.now)) tree.now) }
{
    let mut pending = Vec::new(alloc);
    match rules {
        Rules::One | Rules::Two => {
            refutes_apart::<FourStates>(alloc, net, rules, &mut pending, target, tree)
        }
        Rules::Linked(_) => {
            refutes_apart::<SixStates>(alloc, net, rules, &mut pending, target, tree)
        }
    }
}

/// Whether a tree shows that a budget was spent on a path and a transition under the conditions of a kind of test, under these rules. No(0)
/// where it has more or fewer splits than the budget, or no open leaf. Else No names the first node in preorder that is at fault: a closed
/// leaf whose node does not close; an open leaf or a split whose node closes, or whose trial does not; a split at a line that is no source
/// of the support, one by first values, or one whose source has no state of some half in the hull. After Yes the budget is below four to
/// the power of one less than the number of sources in the support, or below two to that power where the other sources are held steady. It
/// fails only where memory runs out, of which it takes some bytes for each line and each gate, and for each half above a node. Many trees
/// on one netlist share a `TreeJudge`.
pub fn check_spent(
    alloc: Global,
    net: &Netlist,
    rules: &Rules,
    path: &Path,
    dir: Direction,
    kind: Kind,
    budget: u32,
    tree: &Tree,
) -> Result<TreeCheck, OutOfMemory>
    requires fit { FitRules net.now rules.now }
    requires prefix { IsPrefix net.now path.now }
    ensures tells { IfOk result (TellsOfSpent net.now rules.now (target_of path.now dir kind) budget tree.now) }
    ensures exactly { IfOk result (λ check.
        (check ≡ TreeCheck.Yes) ↔ IsSpent net.now rules.now (target_of path.now dir kind) budget tree.now) }
    ensures bound { result ≡ Ok TreeCheck.Yes → IsBelowBound net.now rules.now path.now budget }
    // at each split and each open leaf there is a pair with the least states, and it is no test
    ensures shows { result ≡ Ok TreeCheck.Yes → ShowsFailures net.now rules.now (target_of path.now dir kind) tree.now }
{
    // a netlist knows itself as a circuit
    let _ = net.lines();
    let target = Target {
        path,
        direction: dir,
        kind,
    };
    spends_by_rules(alloc, net, rules, &target, budget, tree)
}

// What the tree tells, with the kind of states that the rules choose.
fn spends_by_rules(
    alloc: Global,
    net: &Netlist,
    rules: &Rules,
    target: &Target,
    budget: u32,
    tree: &Tree,
) -> Result<TreeCheck, OutOfMemory>
    requires fit { FitRules net.now rules.now }
    requires prefix { IsPrefix net.now target.now.path.now }
    ensures { IfOk result (TellsOfSpent net.now rules.now (seen_target target.now) budget tree.now) }
{
    match rules {
        Rules::One | Rules::Two => {
            spends_with::<FourStates>(alloc, net, rules, target, budget, tree)
        }
        Rules::Linked(_) => spends_with::<SixStates>(alloc, net, rules, target, budget, tree),
    }
}

// The same with one kind of states.
fn spends_with<A: Algebra>(
    alloc: Global,
    net: &Netlist,
    rules: &Rules,
    target: &Target,
    budget: u32,
    tree: &Tree,
) -> Result<TreeCheck, OutOfMemory>
    requires chosen { A.algebra ≡ algebra_of rules.now }
    requires fit { FitRules net.now rules.now }
    requires prefix { IsPrefix net.now target.now.path.now }
    ensures { IfOk result (TellsOfSpent net.now rules.now (seen_target target.now) budget tree.now) }
{
    let ends = [end_of(net, target.path)];
    let mut judge = TreeJudge::<A>::new(alloc, net, rules, &ends)?;
    let told = judge.check_spent(target.path, target.direction, target.kind, budget, tree);
    // a call ends it, so that its many parts needn't be ended in this function's proof
    drop(judge);
    told
}
