// What is searched for, and how a row tells what came of it.
use justify::Found;
use pd_base::{Pair, Path};
use row_answers::{RuledFault, Text};
use state_laws::SplitKind;
use trees::Node;

/// A test of a path is searched for.
#[derive(Clone, Copy)]
pub(crate) struct Wanted<'a> {
    /// The path.
    pub(crate) path: &'a Path,
    /// The rules for pairs, the transition at its source, and the kind of test.
    pub(crate) ruled: RuledFault<'a>,
    /// The most splits.
    pub(crate) budget: u32,
}

/// What came of a search.
#[derive(Drop)]
pub(crate) struct Came {
    /// What it found.
    pub(crate) found: Found,
    /// How many conflicts were counted.
    pub(crate) conflicts: u64,
    /// Whether the scope was left as it was: its labels, its assumptions, and no conflict.
    pub(crate) restored: bool,
}

/// Adds a line: the pair or the tree, how many conflicts were counted, and what is wrong.
pub(crate) fn add_line(came: &Came, accepted: bool, answer: &mut Text) {
    add_found(&came.found, answer);
    answer.add_number(", ", came.conflicts);
    answer.add(" conflicts");
    answer.add(if accepted { "" } else { ", not accepted" });
    answer.add(if came.restored {
        "\n"
    } else {
        ", not restored\n"
    });
}

// The pair or the tree.
fn add_found(found: &Found, answer: &mut Text) {
    match found {
        Found::Test(pair) => add_pair(pair, answer),
        Found::Refuted(tree) => add_tree("  refuted", tree.nodes(), answer),
        Found::Spent(tree) => add_tree("  spent", tree.nodes(), answer),
    }
}

// Both vectors.
fn add_pair(pair: &Pair, answer: &mut Text) {
    answer.add("  test ");
    answer.add_bits(pair.first());
    answer.add(" ");
    answer.add_bits(pair.second());
}

// The nodes in preorder: V splits a line by its last value, H by its steadiness, F by its first value, X is closed, O was left open.
fn add_tree(word: &str, nodes: &[Node], answer: &mut Text) {
    answer.add(word);
    for node in nodes {
        add_node(*node, answer);
    }
}

// A node.
fn add_node(node: Node, answer: &mut Text) {
    match node {
        Node::Closed => answer.add(" X"),
        Node::Waiting => answer.add(" O"),
        Node::Split(split) => answer.add_number(letter_of(split.kind), split.line.0 as u64),
    }
}

// The letter of a kind of splits.
fn letter_of(kind: SplitKind) -> &'static str {
    match kind {
        SplitKind::LastValue => " V",
        SplitKind::Steadiness => " H",
        SplitKind::FirstValue => " F",
    }
}
