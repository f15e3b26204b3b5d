// Whether the tree that a search found has as many splits as it may have, and the judge of trees accepts it.
ghost use Rattle.netlist.specs.LinkedPairs.{FitRules};
ghost use Rattle.netlist.specs.Paths.{IsPath};

use crate::found::Wanted;
use justify::Found;
use netlist::Netlist;
use pd_base::OutOfMemory;
use refutation_check::TreeCheck;
use row_answers::{judged, judged_spent};
use std::alloc::Global;
use trees::Tree;

/// Whether what was found is a pair, or a tree that is accepted.
pub(crate) fn is_accepted(
    alloc: Global,
    net: &Netlist,
    wanted: &Wanted,
    found: &Found,
) -> Result<bool, OutOfMemory>
    requires path { IsPath net.now wanted.now.path.now }
    requires fit { FitRules net.now wanted.now.ruled.rules.now }
{
    match found {
        Found::Test(_) => Ok(true),
        Found::Refuted(tree) => is_refutation(alloc, net, wanted, tree),
        Found::Spent(tree) => is_spent(alloc, net, wanted, tree),
    }
}

// Whether a tree refutes within the budget.
fn is_refutation(
    alloc: Global,
    net: &Netlist,
    wanted: &Wanted,
    tree: &Tree,
) -> Result<bool, OutOfMemory>
    requires path { IsPath net.now wanted.now.path.now }
    requires fit { FitRules net.now wanted.now.ruled.rules.now }
{
    let told = judged(alloc, net, wanted.path, wanted.ruled, tree)?;
    Ok(tree.splits() <= wanted.budget && matches!(told, TreeCheck::Yes))
}

// Whether a tree spent the budget.
fn is_spent(alloc: Global, net: &Netlist, wanted: &Wanted, tree: &Tree) -> Result<bool, OutOfMemory>
    requires path { IsPath net.now wanted.now.path.now }
    requires fit { FitRules net.now wanted.now.ruled.rules.now }
{
    let budget = wanted.budget;
    let told = judged_spent(alloc, net, wanted.path, wanted.ruled, budget, tree)?;
    Ok(tree.splits() == budget && matches!(told, TreeCheck::Yes))
}
