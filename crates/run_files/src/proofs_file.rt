// The proofs file, written piece by piece. Its versions stand in version.rt, and it is read in proofs_reading.rt.
ghost use Rattle.std.specs.Prelude.{◌≡◌, ◌+◌, ◌++◌, IfOk, OnOk, decimal, drop, flat_map, length};
ghost use Rattle.runs.specs.Lawful.{AreLawfulProofs, IsLawfulProof};
ghost use Rattle.run_files.specs.ProofsText.{claim_word, kind_letter, node_text, proof_text, proofs_form, proofs_text};
ghost use Rattle.run_files.specs.ProofsVersions.{version_of};
ghost use Rattle.text_pieces.specs.LineFiles.{lines_text};
ghost use Rattle.text_pieces.specs.Tokens.{after_space, line};

use crate::version::ProofsVersion;
use netlist::Netlist;
use pd_base::{OutOfMemory, Rules, push_decimal};
use pd_io::{Pieces, whole_text};
use runs::{Proof, Run};
use state_laws::SplitKind;
use std::alloc::Global;
use text_pieces::{direction_word, kind_word, push_spaced, push_spaced_number};
use trees::Node;

/// The proofs file, piece by piece: the version of the rules and the trees, and then a line for each proof, numbered from 1.
#[derive(Clone, Copy)]
pub struct ProofsPieces<'a> {
    /// The netlist, which says what its sources are.
    pub net: &'a Netlist,
    /// The rules under which the proofs are judged.
    pub rules: &'a Rules,
    /// The proofs.
    pub proofs: &'a [Proof],
}

impl Pieces for ProofsPieces<'_> {
    ghost can_spell = { λ pieces. AreLawfulProofs pieces.proofs.now };

    ghost text = { λ pieces. proofs_text (version_of pieces.net.now pieces.rules.now pieces.proofs.now) pieces.proofs.now };

    ghost total = { λ pieces. length pieces.proofs.now };

    ghost left = { λ pieces index. lines_text (proofs_form IsLawfulProof) (index + 1) (drop index pieces.proofs.now) };

    fn count(&self) -> usize {
        self.proofs.len()
    }

    fn push_head(&self, out: &mut Vec<u8>) -> Result<(), OutOfMemory> {
        let version = ProofsVersion::of(self.net, self.rules, self.proofs);
        Ok(out.extend_from_slice(version.line())?)
    }

    fn push_item(&self, index: usize, out: &mut Vec<u8>) -> Result<(), OutOfMemory> {
        push_proof_line(out, index as u64 + 1, &self.proofs[index])
    }
}

/// The text of the proofs file of a run, whole, in the version of its rules: that of trees of sources wherever it can spell all trees of
/// the run. The proofs must be lawful as far as no circuit is asked. It fails only where memory runs out.
pub fn proofs_text(alloc: Global, net: &Netlist, run: &Run) -> Result<Vec<u8>, OutOfMemory>
    requires { AreLawfulProofs run.now.proofs }
    ensures { IfOk result (λ text. text.items ≡ proofs_text (version_of net.now run.now.rules run.now.proofs) run.now.proofs) }
{
    let pieces = ProofsPieces {
        net,
        rules: &run.rules,
        proofs: run.proofs.as_slice(),
    };
    whole_text(alloc, &pieces)
}

// Appends the line of a proof. If memory runs out, a part of it may have been written.
fn push_proof_line(out: &mut Vec<u8>, number: u64, proof: &Proof) -> Result<(), OutOfMemory>
    ensures { OnOk result (out.new.items ≡ out.old.items ++ line (proof_text number proof.now)) }
{
    push_decimal(out, number)?;
    push_spaced(out, claim_word(proof.spent))?;
    push_spaced(out, kind_word(proof.kind))?;
    push_spaced(out, direction_word(proof.dir))?;
    push_spaced_number(out, u64::from(proof.path))?;
    push_spaced_number(out, u64::from(proof.steps))?;
    push_tree(out, proof.tree.nodes())?;
    out.push(b'\n')?;
    Ok(())
}

// What a proof claims: that the budget was spent, or else a refutation.
fn claim_word(spent: bool) -> &'static [u8]
    ensures { result.now ≡ claim_word spent }
{
    if spent { b"spent" } else { b"refutes" }
}

// Appends the nodes of a tree, each behind a space.
fn push_tree(out: &mut Vec<u8>, nodes: &[Node]) -> Result<(), OutOfMemory>
    ensures { OnOk result (out.new.items
        ≡ out.old.items ++ flat_map (λ node. after_space (node_text node)) nodes.now) }
{
    for node in nodes {
        push_node(out, node)?;
    }
    Ok(())
}

// Appends a space and a node.
fn push_node(out: &mut Vec<u8>, node: &Node) -> Result<(), OutOfMemory>
    ensures { OnOk result (out.new.items ≡ out.old.items ++ after_space (node_text node.now)) }
{
    match node {
        Node::Closed => push_spaced(out, b"X"),
        Node::Waiting => push_spaced(out, b"O"),
        Node::Split(split) => push_split(out, kind_letter(split.kind), split.line.0),
    }
}

// Appends a space, the letter of a split, and the number of its line.
fn push_split(out: &mut Vec<u8>, letter: &[u8], line: u32) -> Result<(), OutOfMemory>
    ensures { OnOk result
        (out.new.items ≡ out.old.items ++ after_space (letter.now ++ decimal line)) }
{
    push_spaced(out, letter)?;
    push_decimal(out, u64::from(line))
}

// The letter of a kind of splits.
fn kind_letter(kind: SplitKind) -> &'static [u8]
    ensures { result.now ≡ kind_letter kind }
{
    match kind {
        SplitKind::LastValue => b"V",
        SplitKind::Steadiness => b"H",
        SplitKind::FirstValue => b"F",
    }
}
