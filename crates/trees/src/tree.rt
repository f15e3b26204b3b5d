// Trees of case splits, kept as their nodes in preorder, so that no depth of a tree costs stack.
ghost use Rattle.std.specs.Prelude.{◌≡◌, ◌+◌, ◌-◌, if◌then◌else◌, ◌<◌, ◌^◌, length, vec_len, IfSome, IfNone, IsTrue, ◌↔◌};
ghost use Rattle.trees.specs.Trees.{IsTree, split_count, is_split};

use state_laws::Split;
use std::marker::Model;

/// One node of a tree.
#[derive(Clone, Copy, Debug, PartialEq, Eq)]
pub enum Node {
    /// A leaf at which the cases contradict the conditions.
    Closed,
    /// A leaf that was left open.
    Waiting,
    /// A split of the cases at a line.
    Split(Split),
}

/// One whole tree of case splits, of fewer than 2^31 nodes.
#[derive(Drop)]
pub struct Tree {
    nodes: Vec<Node>,
}

impl Model for Tree {
    ghost use Rattle.std.specs.Prelude.{List, ◌<◌, ◌^◌, vec_len};
    ghost use Rattle.trees.specs.declared.tree.Node.{Node};
    ghost use Rattle.trees.specs.Trees.{IsTree};

    ghost Value = { List Node };

    ghost view = { λ t. t.nodes.items };

    ghost invariant = { λ t. IsTree t.nodes.items × (vec_len t.nodes < 2 ^ 31) };
}

impl Tree {
    /// The tree of these nodes in preorder. `None` exactly where they are not those of one whole tree.
    pub fn from_nodes(nodes: Vec<Node>) -> Option<Tree>
        requires { vec_len nodes < 2 ^ 31 }
        ensures tree { IfSome result (λ tree. tree ≡ nodes.items) }
        ensures whole { IfSome result IsTree }
        ensures none { IfNone result (¬ IsTree nodes.items) }
    {
        if is_one_tree(nodes.as_slice()) {
            Some(Tree { nodes })
        } else {
            None
        }
    }

    /// The nodes in preorder.
    pub fn nodes(&self) -> &[Node]
        ensures nodes { result.now ≡ self.now }
        ensures tree { IsTree self.now }
        ensures few { length self.now < 2 ^ 31 }
    {
        self.nodes.as_slice()
    }

    /// How many splits there are.
    pub fn splits(&self) -> u32
        ensures { result ≡ split_count self.now }
    {
        count_splits(self.nodes.as_slice())
    }
}

// Whether each node fills a place that is open, and none is open at the end.
#[tactic(auto, using(crate::proofs::Forests::fills_tree, crate::proofs::Forests::tree_of_fills))]
fn is_one_tree(nodes: &[Node]) -> bool
    requires { length nodes.now < 2 ^ 31 }
    ensures { IsTrue result ↔ IsTree nodes.now }
{
    let mut places: u32 = 1;
    for node in nodes {
        if places == 0 {
            return false;
        }
        places = places_after(places, node);
    }
    places == 0
}

// How many places are open behind a node, of so many before it.
fn places_after(places: u32, node: &Node) -> u32
    requires some { 0 < places }
    requires few { places < 2 ^ 32 - 1 }
    ensures { result ≡ (if is_split node.now then places + 1 else places - 1) }
{
    match node {
        Node::Closed | Node::Waiting => places - 1,
        Node::Split(_) => places + 1,
    }
}

// How many of the nodes are splits.
fn count_splits(nodes: &[Node]) -> u32
    requires { length nodes.now < 2 ^ 31 }
    ensures { result ≡ split_count nodes.now }
{
    let mut count = 0;
    for node in nodes {
        if matches!(node, Node::Split(_)) {
            count += 1;
        }
    }
    count
}
