// One line of the proofs file, read: what it tells before the tree (proof_head.rt), and the nodes of the tree.
ghost use Rattle.std.specs.Prelude.{◌≡◌, ◌<◌, ◌^◌, All, decimal, length, map, option_map, IfOk};
ghost use Rattle.text_pieces.specs.Cuts.{items_of, words_left, words_of};
ghost use Rattle.text_pieces.specs.Reads.{Reads};
ghost use Rattle.run_files.specs.ProofsText.{node_text, proof_words};
ghost use Rattle.run_files.specs.ProofsReading.{IsSpelledProof};
ghost use Rattle.run_files.specs.ProofsVersions.{IsNodeIn, lines_to_split};

use crate::proof_head::read_head;
use crate::version::ProofsVersion;
use netlist::Netlist;
use pd_base::{LineId, OutOfMemory};
use runs::Proof;
use state_laws::{Split, SplitKind};
use std::alloc::Global;
use text_pieces::{next_word, read_number};
use trees::{Node, Tree};

// For how many nodes room is taken at once, at most. So a long line of spaces takes no memory.
const MOST_ROOM: usize = 1_048_576;

/// The proof of this number that a line without its LF tells, in a file of this version.
pub(crate) fn read_proof(
    alloc: Global,
    net: &Netlist,
    version: ProofsVersion,
    number: u32,
    line: &[u8],
) -> Result<Option<Proof>, OutOfMemory>
    requires { length line.now < 2 ^ 30 }
    ensures { IfOk result (Reads (proof_words number) (IsSpelledProof net.now version) (words_of line.now)) }
{
    let Some((head, left)) = read_head(number, line) else {
        return Ok(None);
    };
    let Some(nodes) = read_nodes(alloc, net, version, left)? else {
        return Ok(None);
    };
    let Some(tree) = Tree::from_nodes(nodes) else {
        return Ok(None);
    };
    Ok(Some(Proof {
        spent: head.spent,
        kind: head.kind,
        dir: head.dir,
        path: head.path,
        steps: head.steps,
        tree,
    }))
}

// The nodes that the words left spell.
fn read_nodes(
    alloc: Global,
    net: &Netlist,
    version: ProofsVersion,
    left: Option<&[u8]>,
) -> Result<Option<Vec<Node>>, OutOfMemory>
    ensures { IfOk result (λ read. Reads (λ nodes. map node_text nodes) (All (IsNodeIn net.now version)) (words_left left.entry) (option_map items_of read)) }
{
    let mut nodes = Vec::with_capacity(alloc, word_count(left).min(MOST_ROOM))?;
    let mut rest = left;
    while let Some((word, behind)) = next_word(rest) {
        let Some(node) = read_node(net, version, word) else {
            return Ok(None);
        };
        nodes.push(node)?;
        rest = behind;
    }
    Ok(Some(nodes))
}

// How many words are left of a line.
fn word_count(left: Option<&[u8]>) -> usize {
    let Some(text) = left else {
        return 0;
    };
    let mut count: usize = 1;
    for byte in text {
        count = count.wrapping_add(usize::from(*byte == b' '));
    }
    count
}

// The node that a word spells.
fn read_node(net: &Netlist, version: ProofsVersion, word: &[u8]) -> Option<Node>
    ensures { Reads node_text (IsNodeIn net.now version) word.now result }
{
    match word {
        [b'X'] => Some(Node::Closed),
        [b'O'] => Some(Node::Waiting),
        [b'V', number @ ..] => {
            let line = read_split_line(net, version, number)?;
            Some(split_node(line, SplitKind::LastValue))
        }
        [b'H', number @ ..] => {
            let line = read_split_line(net, version, number)?;
            Some(split_node(line, SplitKind::Steadiness))
        }
        [b'F', number @ ..] if version.has_first_values() => {
            let line = read_split_line(net, version, number)?;
            Some(split_node(line, SplitKind::FirstValue))
        }
        _ => None,
    }
}

// The node that splits a line.
fn split_node(line: u32, kind: SplitKind) -> Node
    ensures { result ≡ Node.Split (record { line = record { 0 = line }; kind = kind }) }
{
    Node::Split(Split {
        line: LineId(line),
        kind,
    })
}

// The number of a line at which trees of the version may split, which a word spells.
fn read_split_line(net: &Netlist, version: ProofsVersion, word: &[u8]) -> Option<u32>
    ensures { Reads decimal (λ line. line < lines_to_split net.now version) word.now result }
{
    match version.lines_to_split(net) {
        0 => None,
        count => read_number(word, count - 1),
    }
}
