// What the judge says of trees. Its calls stand alone, in functions that promise nothing, so that the answers are not proved over again
// under their contracts.
ghost use Rattle.std.specs.Prelude.{◌<◌};
ghost use Rattle.netlist.specs.LinkedPairs.{FitRules};
ghost use Rattle.netlist.specs.Paths.{IsPath};

use crate::faults::{Fault, RuledFault, fault_of, numbered_fault_of};
use crate::nodes::{tree_of, whole};
use crate::paths::path;
use crate::rules::rules_of;
use crate::text::Text;
use crate::trouble::Trouble;
use netlist::Netlist;
use pd_base::{LineId, OutOfMemory, Path};
use refutation_check::{TreeCheck, check_spent, check_tree};
use state_laws::{Split, SplitKind};
use std::alloc::Global;
use trees::{Node, Tree};

/// Adds what `check_tree` says: the rules (rules.rt), transition, kind, and the nodes of a tree.
pub fn refutes(
    alloc: Global,
    net: &Netlist,
    prefix: &str,
    row: &str,
    answer: &mut Text,
) -> Result<(), Trouble> {
    let (rules, row) = rules_of(alloc, net, row)?;
    let (fault, nodes) = fault_of(row)?;
    let tree = tree_of(alloc, nodes)?;
    let rules = &rules;
    let fault = RuledFault { rules, fault };
    add_judged(alloc, net, prefix, fault, &tree, answer)
}

/// Adds what `check_tree` says of a tree of so many splits, all on the first source, each in the first half of the one before: the
/// rules (rules.rt), the number, transition and kind.
pub fn deep(
    alloc: Global,
    net: &Netlist,
    prefix: &str,
    row: &str,
    answer: &mut Text,
) -> Result<(), Trouble> {
    let (rules, row) = rules_of(alloc, net, row)?;
    let (splits, fault, _) = numbered_fault_of(row)?;
    let tree = deep_tree(alloc, splits)?;
    let rules = &rules;
    let fault = RuledFault { rules, fault };
    add_judged(alloc, net, prefix, fault, &tree, answer)
}

// The tree of so many splits.
fn deep_tree(alloc: Global, splits: u32) -> Result<Tree, Trouble> {
    let mut nodes = Vec::new(alloc);
    push_all(&mut nodes, splits)?;
    whole(nodes)
}

// Its nodes.
fn push_all(nodes: &mut Vec<Node>, splits: u32) -> Result<(), Trouble> {
    let split = Split {
        line: LineId(0),
        kind: SplitKind::LastValue,
    };
    push_each(nodes, Node::Split(split), splits)?;
    push_each(nodes, Node::Closed, splits)?;
    nodes.push(Node::Closed)?;
    Ok(())
}

// So many of these nodes.
fn push_each(nodes: &mut Vec<Node>, node: Node, count: u32) -> Result<(), Trouble> {
    for _ in 0..count {
        nodes.push(node)?;
    }
    Ok(())
}

// What `check_tree` says of a tree.
fn add_judged(
    alloc: Global,
    net: &Netlist,
    prefix: &str,
    fault: RuledFault,
    tree: &Tree,
    answer: &mut Text,
) -> Result<(), Trouble>
    requires fit { FitRules net.now fault.rules.now }
{
    let prefix = path(alloc, net, prefix)?;
    add_told(judged(alloc, net, &prefix, fault, tree)?, answer);
    Ok(())
}

/// What `check_tree` says.
pub fn judged(
    alloc: Global,
    net: &Netlist,
    prefix: &Path,
    fault: RuledFault,
    tree: &Tree,
) -> Result<TreeCheck, OutOfMemory>
    requires path { IsPath net.now prefix.now }
    requires fit { FitRules net.now fault.rules.now }
{
    let Fault { direction, kind } = fault.fault;
    check_tree(alloc, net, fault.rules, prefix, direction, kind, tree)
}

/// Adds what `check_spent` says: the rules (rules.rt), a budget, transition, kind, and the nodes of a tree.
pub fn spent(
    alloc: Global,
    net: &Netlist,
    prefix: &str,
    row: &str,
    answer: &mut Text,
) -> Result<(), Trouble> {
    let (rules, row) = rules_of(alloc, net, row)?;
    let (budget, fault, nodes) = numbered_fault_of(row)?;
    let tree = tree_of(alloc, nodes)?;
    let rules = &rules;
    let fault = RuledFault { rules, fault };
    add_judged_spent(alloc, net, prefix, fault, budget, &tree, answer)
}

// What `check_spent` says of a budget and a tree.
fn add_judged_spent(
    alloc: Global,
    net: &Netlist,
    prefix: &str,
    fault: RuledFault,
    budget: u32,
    tree: &Tree,
    answer: &mut Text,
) -> Result<(), Trouble>
    requires fit { FitRules net.now fault.rules.now }
{
    let prefix = path(alloc, net, prefix)?;
    add_told(
        judged_spent(alloc, net, &prefix, fault, budget, tree)?,
        answer,
    );
    Ok(())
}

/// What `check_spent` says.
pub fn judged_spent(
    alloc: Global,
    net: &Netlist,
    prefix: &Path,
    fault: RuledFault,
    budget: u32,
    tree: &Tree,
) -> Result<TreeCheck, OutOfMemory>
    requires path { IsPath net.now prefix.now }
    requires fit { FitRules net.now fault.rules.now }
{
    let Fault { direction, kind } = fault.fault;
    check_spent(
        alloc,
        net,
        fault.rules,
        prefix,
        direction,
        kind,
        budget,
        tree,
    )
}

// What a check told, as a line.
fn add_told(told: TreeCheck, answer: &mut Text) {
    match told {
        TreeCheck::Yes => answer.add("  Yes\n"),
        TreeCheck::No(place) => {
            answer.add_number("  No(", place as u64);
            answer.add(")\n");
        }
    }
}
