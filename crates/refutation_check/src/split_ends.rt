// Trees that split lines which a judge's engine does not tell: those outside the support of its ends, but for sources without a link. A half
// of such a line may bear on the lines inside: what it leaves the line cuts down the lines behind it, and the first value of a line to
// which a source is linked. The judge's engine leaves that out. So the tree is judged on an engine of its own, within the end of its prefix
// and the lines that it splits.
ghost use Rattle.std.specs.Prelude.{◌<◌, All, IfOk, OnOk, IsTrue, Contains};
ghost use Rattle.netlist.specs.Circuit.{line_count};
ghost use Rattle.netlist.specs.LinkedPairs.{FitRules};
ghost use Rattle.netlist.specs.Paths.{IsPrefix, end_of};
ghost use Rattle.trees.specs.Faults.{RefutesAtNode};
ghost use Rattle.refutation_check.specs.Answers.{TellsOfNodes};
ghost use Rattle.refutation_check.specs.SplitEnds.{IsEndAt, AddsEnds};
ghost use Rattle.pair_judging.specs.Targets.{seen_target};
ghost use Rattle.refutation_check.specs.Walks.{IsToldAt};

use crate::TreeCheck;
use crate::refutation::refutes;
use crate::walk::Pending;
use implication::{Engine, RuledNetlist, Setting};
use netlist::Netlist;
use pair_judging::{Target, end_of};
use pd_base::{LineId, OutOfMemory, Path, Rules};
use state_sets::Algebra;
use std::alloc::Global;
use trees::{Node, Tree};

// Whether an engine tells each line that these nodes split. Without links it tells all sources, and so those of each tree of sources.
pub(crate) fn tells_splits<A: Algebra, S: Setting>(engine: &Engine<A, S>, nodes: &[Node]) -> bool
    ensures { IsTrue result → All (IsToldAt engine.now) nodes.now }
{
    for node in nodes {
        if !tells_split(engine, *node) {
            return false;
        }
    }
    true
}

// Whether it tells the line that a node splits, if the node splits one of the netlist.
fn tells_split<A: Algebra, S: Setting>(engine: &Engine<A, S>, node: Node) -> bool
    ensures { IsTrue result → IsToldAt engine.now node }
{
    match node {
        Node::Closed | Node::Waiting => true,
        Node::Split(split) => split.line.0 >= engine.net().lines() || engine.tells(split.line),
    }
}

// Whether each node of a tree is as a refutation asks, on an engine that is made for this tree alone.
pub(crate) fn refutes_apart<A: Algebra>(
    alloc: Global,
    net: &Netlist,
    rules: &Rules,
    pending: &mut Vec<Pending>,
    target: &Target,
    tree: &Tree,
) -> Result<TreeCheck, OutOfMemory>
    requires fit { FitRules net.now rules.now }
    requires prefix { IsPrefix net.now target.now.path.now }
    ensures { IfOk result (TellsOfNodes (RefutesAtNode A.algebra net.now rules.now (seen_target target.now)) tree.now) }
{
    let ends = ends_of_tree(alloc, net, target.path, tree.nodes())?;
    let mut engine = Engine::<A, RuledNetlist>::within(
        alloc,
        RuledNetlist { net, rules },
        ends.as_slice(),
    )?;
    let told = refutes(&mut engine, pending, target, tree);
    // a call ends it, so that its many parts needn't be ended in this function's proof
    drop(engine);
    told
}

// The end of a prefix, and the lines that these nodes split.
fn ends_of_tree(
    alloc: Global,
    net: &Netlist,
    prefix: &Path,
    nodes: &[Node],
) -> Result<Vec<LineId>, OutOfMemory>
    requires prefix { IsPrefix net.now prefix.now }
    ensures lines { IfOk result (λ ends. All (λ end. end.0 < line_count net.now) ends.items) }
    ensures end { IfOk result (λ ends. Contains ends.items (record { 0 = end_of net.now prefix.now })) }
    ensures splits { IfOk result (λ ends. All (IsEndAt (line_count net.now) ends.items) nodes.now) }
{
    let mut ends = Vec::new(alloc);
    ends.push(end_of(net, prefix))?;
    push_splits(&mut ends, net.lines(), nodes)?;
    Ok(ends)
}

// Adds the lines that these nodes split to the ends, of so many lines.
fn push_splits(ends: &mut Vec<LineId>, lines: u32, nodes: &[Node]) -> Result<(), OutOfMemory>
    ensures adds { AddsEnds lines ends.old.items ends.new.items }
    ensures splits { OnOk result (All (IsEndAt lines ends.new.items) nodes.now) }
{
    for node in nodes {
        push_split(ends, lines, *node)?;
    }
    Ok(())
}

// Adds the line that a node splits to the ends, if the node splits one of so many.
fn push_split(ends: &mut Vec<LineId>, lines: u32, node: Node) -> Result<(), OutOfMemory>
    ensures adds { AddsEnds lines ends.old.items ends.new.items }
    ensures split { OnOk result (IsEndAt lines ends.new.items node) }
{
    match node {
        Node::Closed | Node::Waiting => {}
        Node::Split(split) => {
            if split.line.0 < lines {
                ends.push(split.line)?;
            }
        }
    }
    Ok(())
}
