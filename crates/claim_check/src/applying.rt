// For each listed path the refutation of the least number that applies to it: by nodes of the tree of prefixes, in time of the order of
// the steps listed.
ghost use Rattle.std.specs.Prelude.{◌≡◌, ◌<◌, ◌↔◌, ◌^◌, [], None, ℕ, All, IfOk, IsTrue, length, replicate, slice_index_or};
ghost use Rattle.claim_check.specs.Prefixes.{AreLeastMarks, AreLeastRefutations, AreTreeNodes, HasItsNode, IsLeastMark, IsRefutationAbout, NamesPrefix, lesser, node_of_proof};

use crate::prefix_tree::PrefixTree;
use pd_base::{Direction, Kind, OutOfMemory, Path};
use runs::Proof;
use std::alloc::Global;

// For each listed path the number of the refutation of the least number that applies to it, for this direction and kind, if one does.
pub(crate) fn least_refutations(
    alloc: Global,
    paths: &[Path],
    prefixes: &PrefixTree,
    proofs: &[Proof],
    direction: Direction,
    kind: Kind,
) -> Result<Vec<Option<u32>>, OutOfMemory>
    requires nodes { AreTreeNodes paths.now prefixes.now }
    requires few { length proofs.now < 2 ^ 32 }
    requires names { All (NamesPrefix paths.now) proofs.now }
    ensures one_each { IfOk result (λ least. length least.items ≡ length paths.now) }
    ensures least { IfOk result (λ least. AreLeastRefutations paths.now proofs.now direction kind least.items) }
{
    let marks = marks_of(alloc, prefixes, proofs, direction, kind)?;
    least_by_rows(alloc, prefixes, paths.len(), marks.as_slice())
}

// The least number at the nodes of each row.
fn least_by_rows(
    alloc: Global,
    prefixes: &PrefixTree,
    rows: usize,
    marks: &[Option<u32>],
) -> Result<Vec<Option<u32>>, OutOfMemory>
    requires rows { rows ≡ length prefixes.now.rows }
    requires within { (row : ℕ) → row < rows → All (λ node. node < length marks.now) (slice_index_or prefixes.now.rows row []) }
    ensures one_each { IfOk result (λ least. length least.items ≡ rows) }
    ensures least { IfOk result (λ least. (row : ℕ) → row < rows
        → IsLeastMark marks.now (slice_index_or prefixes.now.rows row []) (slice_index_or least.items row None)) }
{
    let mut least = Vec::with_capacity(alloc, rows)?;
    for row in 0..rows {
        least.push_reserved(least_mark(prefixes.nodes(row), marks));
    }
    Ok(least)
}

// Each node marked with the least number of a refutation about these of which it is the node.
fn marks_of(
    alloc: Global,
    prefixes: &PrefixTree,
    proofs: &[Proof],
    direction: Direction,
    kind: Kind,
) -> Result<Vec<Option<u32>>, OutOfMemory>
    requires few { length proofs.now < 2 ^ 32 }
    requires nodes { All (HasItsNode prefixes.now) proofs.now }
    ensures { IfOk result (λ marks. AreLeastMarks prefixes.now proofs.now kind direction marks.items) }
{
    let mut marks = no_numbers(alloc, prefixes.count() as usize)?;
    mark_refutations(prefixes, proofs, direction, kind, marks.as_mut_slice());
    Ok(marks)
}

// No number, so many times.
pub(crate) fn no_numbers(alloc: Global, count: usize) -> Result<Vec<Option<u32>>, OutOfMemory>
    ensures { IfOk result (λ none. none.items ≡ replicate count None) }
{
    Ok(vec![in alloc; None; count]?)
}

// Marks the nodes, none of which is marked.
fn mark_refutations(
    prefixes: &PrefixTree,
    proofs: &[Proof],
    direction: Direction,
    kind: Kind,
    marks: &mut [Option<u32>],
)
    requires few { length proofs.now < 2 ^ 32 }
    requires nodes { All (HasItsNode prefixes.now) proofs.now }
    requires none { marks.old ≡ replicate prefixes.now.count None }
    ensures { AreLeastMarks prefixes.now proofs.now kind direction marks.new }
{
    for place in 0..proofs.len() {
        let proof = &proofs[place];
        if refutes_about(proof, direction, kind) {
            let node = node_of_proof(prefixes, proof) as usize;
            marks[node] = lesser(marks[node], Some(place as u32 + 1));
        }
    }
}

// The node of the proof's prefix.
fn node_of_proof(prefixes: &PrefixTree, proof: &Proof) -> u32
    requires { HasItsNode prefixes.now proof.now }
    ensures node { result ≡ node_of_proof prefixes.now proof.now }
    ensures within { result < prefixes.now.count }
{
    prefixes.nodes(proof.path as usize - 1)[proof.steps as usize]
}

// Whether a proof is a refutation of this kind and direction.
fn refutes_about(proof: &Proof, direction: Direction, kind: Kind) -> bool
    ensures { IsTrue result ↔ IsRefutationAbout kind direction proof.now }
{
    !proof.spent && proof.kind == kind && proof.dir == direction
}

// The least number with which these nodes are marked, if any is.
fn least_mark(nodes: &[u32], marks: &[Option<u32>]) -> Option<u32>
    requires { All (λ node. node < length marks.now) nodes.now }
    ensures { IsLeastMark marks.now nodes.now result }
{
    let mut least = None;
    for node in nodes {
        least = lesser(least, marks[*node as usize]);
    }
    least
}

// The lesser of two numbers, or the one that there is.
fn lesser(one: Option<u32>, other: Option<u32>) -> Option<u32>
    ensures { result ≡ lesser one other }
{
    match (one, other) {
        (Some(one), Some(other)) => Some(one.min(other)),
        (None, other) => other,
        (one, None) => one,
    }
}
