// The words of a proof's line before its tree.
ghost use Rattle.std.specs.Prelude.{⊤, option_map};
ghost use Rattle.text_pieces.specs.Cuts.{words_left, words_of};
ghost use Rattle.text_pieces.specs.Reads.{Reads};
ghost use Rattle.run_files.specs.ProofsText.{claim_word};
ghost use Rattle.run_files.specs.ProofsReading.{claim_lent, numbered_claim_words, prefix_lent, prefix_words, proof_head_lent, proof_head_words, IsProofHead, IsProofPrefix};

use netlist::MOST_LEVELS;
use pd_base::{Direction, Kind, MOST_PATHS};
use text_pieces::{is_number, next_word, read_direction, read_kind, read_number};

/// What a proof's line tells before its tree.
#[derive(Drop)]
pub(crate) struct ProofHead {
    pub(crate) spent: bool,
    pub(crate) kind: Kind,
    pub(crate) dir: Direction,
    pub(crate) path: u32,
    pub(crate) steps: u32,
}

// What a proof claims of tests of a kind: that the budget was spent on one, or else that there is none.
#[derive(Clone, Copy)]
struct ProofClaim {
    spent: bool,
    kind: Kind,
}

// Where it claims that: for a transition, at the first steps of a listed path.
#[derive(Clone, Copy)]
struct ProofPrefix {
    dir: Direction,
    path: u32,
    steps: u32,
}

/// What stands before the tree, and what is left behind it.
pub(crate) fn read_head(number: u32, line: &[u8]) -> Option<(ProofHead, Option<&[u8]>)>
    ensures { Reads (proof_head_words number) IsProofHead (words_of line.now) (option_map proof_head_lent result) }
{
    let (claim, left) = read_numbered_claim(number, line)?;
    let (prefix, left) = read_prefix(left)?;
    let head = ProofHead {
        spent: claim.spent,
        kind: claim.kind,
        dir: prefix.dir,
        path: prefix.path,
        steps: prefix.steps,
    };
    Some((head, left))
}

// What the proof of this number claims, and what is left behind it.
fn read_numbered_claim(number: u32, line: &[u8]) -> Option<(ProofClaim, Option<&[u8]>)>
    ensures { Reads (numbered_claim_words number) (λ read. ⊤) (words_of line.now) (option_map claim_lent result) }
{
    let (word, left) = next_word(Some(line))?;
    if !is_number(word, number) {
        return None;
    }
    let (word, left) = next_word(left)?;
    let spent = read_claim(word)?;
    let (word, left) = next_word(left)?;
    let kind = read_kind(word)?;
    Some((ProofClaim { spent, kind }, left))
}

// Where a proof claims it, and what is left behind that.
fn read_prefix<'a>(left: Option<&'a [u8]>) -> Option<(ProofPrefix, Option<&'a [u8]>)>
    ensures { Reads prefix_words IsProofPrefix (words_left left.entry) (option_map prefix_lent result) }
{
    let (word, left) = next_word(left)?;
    let dir = read_direction(word)?;
    let (word, left) = next_word(left)?;
    let path = read_number(word, MOST_PATHS)?;
    if path == 0 {
        return None;
    }
    let (word, left) = next_word(left)?;
    let steps = read_number(word, MOST_LEVELS)?;
    Some((ProofPrefix { dir, path, steps }, left))
}

// What a proof claims: that the budget was spent, or else a refutation.
fn read_claim(word: &[u8]) -> Option<bool>
    ensures { Reads claim_word (λ spent. ⊤) word.now result }
{
    if word == b"spent".as_slice() {
        Some(true)
    } else if word == b"refutes".as_slice() {
        Some(false)
    } else {
        None
    }
}
