// The end of a search: a test, or the tree that its nodes make, which refutes if no leaf waits.
ghost use Rattle.std.specs.Prelude.{◌≡◌, ◌<◌, ◌^◌, ◌↔◌, Err, IfOk, IfErr, IfNone, IsTrue, length};
ghost use Rattle.std.specs.List.{Contains};
ghost use Rattle.trees.specs.declared.tree.Node.{Node};
ghost use Rattle.trees.specs.declared.tree.Node.TheVariants.{Waiting};
ghost use Rattle.trees.specs.Trees.{IsTree};
ghost use Rattle.justify.specs.Ends.{IsEnd, IsAnswerOf, IsReplacedBy};

use crate::growing::Growth;
use crate::{Found, Unfinished};
use pd_base::{OutOfMemory, Pair};
use trees::{Node, Tree};

// The answer of a search that grew a tree: the test that was found, or else the tree, which then is whole.
pub(crate) fn answer(
    growth: Growth,
    grown: Result<Option<Pair>, Unfinished>,
) -> Result<Found, Unfinished>
    requires whole { IfOk grown (λ test. IfNone test (IsTree growth.nodes.items)) }
    requires few { IfOk grown (λ test. IfNone test (length growth.nodes.items < 2 ^ 31)) }
    ensures answer { IfOk result (IsAnswerOf grown growth.nodes.items) }
    ensures unfinished { IfErr result (λ error. grown ≡ Err error) }
{
    match grown? {
        Some(pair) => Ok(Found::Test(pair)),
        None => Ok(end(growth)),
    }
}

// What was found, or the test that was found later, if one was.
pub(crate) fn or_test(
    found: Found,
    later: Result<Option<Pair>, OutOfMemory>,
) -> Result<Found, OutOfMemory>
    ensures { IfOk result (IsReplacedBy later found) }
{
    match later? {
        Some(pair) => Ok(Found::Test(pair)),
        None => Ok(found),
    }
}

// The answer of a search whose tree is whole.
fn end(growth: Growth) -> Found
    requires whole { IsTree growth.nodes.items }
    requires few { length growth.nodes.items < 2 ^ 31 }
    ensures { IsEnd growth.nodes.items result }
{
    let waits = has_waiting(growth.nodes.as_slice());
    let Some(tree) = Tree::from_nodes(growth.nodes) else {
        unreachable!()
    };
    if waits {
        Found::Spent(tree)
    } else {
        Found::Refuted(tree)
    }
}

// Whether a leaf waits.
fn has_waiting(nodes: &[Node]) -> bool
    ensures { IsTrue result ↔ Contains nodes.now Waiting }
{
    for node in nodes {
        if let Node::Waiting = node {
            return true;
        }
    }
    false
}
