// Nodes of trees by their words.
use crate::texts::number_of;
use crate::trouble::Trouble;
use pd_base::LineId;
use state_laws::{Split, SplitKind};
use std::alloc::Global;
use trees::{Node, Tree};

/// The tree of the nodes of a row.
pub fn tree_of(alloc: Global, row: &str) -> Result<Tree, Trouble> {
    let mut nodes = Vec::new(alloc);
    for word in row.split(' ') {
        nodes.push(node_of(word)?)?;
    }
    whole(nodes)
}

/// The tree of these nodes, if they are one whole tree.
pub fn whole(nodes: Vec<Node>) -> Result<Tree, Trouble> {
    if nodes.len() >= 1 << 31 {
        return Err(Trouble::NoRow);
    }
    Tree::from_nodes(nodes).ok_or(Trouble::NoRow)
}

/// One node: X, O, or a split.
pub fn node_of(word: &str) -> Result<Node, Trouble> {
    match word {
        "X" => return Ok(Node::Closed),
        "O" => return Ok(Node::Waiting),
        _ => {}
    }
    Ok(Node::Split(split_of(word)?))
}

/// A split: V, H or F, and the number of a line.
pub fn split_of(word: &str) -> Result<Split, Trouble> {
    if let Some(line) = word.strip_prefix("V") {
        return split_at(line, SplitKind::LastValue);
    }
    if let Some(line) = word.strip_prefix("H") {
        return split_at(line, SplitKind::Steadiness);
    }
    let line = word.strip_prefix("F").ok_or(Trouble::NoRow)?;
    split_at(line, SplitKind::FirstValue)
}

// A split of this kind at the line of this number.
fn split_at(line: &str, kind: SplitKind) -> Result<Split, Trouble> {
    let line = LineId(number_of(line)?);
    Ok(Split { line, kind })
}
