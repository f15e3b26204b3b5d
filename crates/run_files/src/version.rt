// The versions of the proofs file: for each sort of rules that of trees that split at sources alone, and beside it that of trees that
// split at any line. Each has a first line of its own.
ghost use Rattle.std.specs.Prelude.{◌≡◌, ◌↔◌, IsTrue};
ghost use Rattle.netlist.specs.Circuit.{source_count};
ghost use Rattle.run_files.specs.ProofsVersions.{HasKind, are_trees_of_sources, is_source_kind, is_source_node, is_tree_of_sources, lines_to_split, version_line, version_number, version_of};
ghost use Rattle.text_pieces.specs.Tokens.{line};

use netlist::Netlist;
use pd_base::Rules;
use runs::Proof;
use state_laws::SplitKind;
use trees::Node;

/// The version of a proofs file. It names the sort of the rules under which the proofs are judged, and not the links of linked ones.
#[derive(Clone, Copy)]
pub enum ProofsVersion {
    /// That of rules One.
    First,
    /// That of rules Two, with splits at sources alone.
    Second,
    /// That of linked rules, whatever their links, with splits at sources alone.
    Third,
    /// That of rules Two, with splits at any line.
    Fourth,
    /// That of linked rules, whatever their links, with splits at any line, also by first values.
    Fifth,
}

impl ProofsVersion {
    /// The version in which proofs that are judged under these rules are written: that of splits at sources alone wherever it can spell them.
    pub(crate) fn of(net: &Netlist, rules: &Rules, proofs: &[Proof]) -> ProofsVersion
        ensures { result ≡ version_of net.now rules.now proofs.now }
    {
        let all_at_sources = are_trees_of_sources(net.sources(), proofs);
        match rules {
            Rules::One => ProofsVersion::First,
            Rules::Two if all_at_sources => ProofsVersion::Second,
            Rules::Two => ProofsVersion::Fourth,
            Rules::Linked(_) if all_at_sources => ProofsVersion::Third,
            Rules::Linked(_) => ProofsVersion::Fifth,
        }
    }

    /// Its number, from 1.
    pub(crate) fn number(self) -> u32
        ensures { result ≡ version_number self }
    {
        match self {
            ProofsVersion::First => 1,
            ProofsVersion::Second => 2,
            ProofsVersion::Third => 3,
            ProofsVersion::Fourth => 4,
            ProofsVersion::Fifth => 5,
        }
    }

    /// The first line of its files, with its LF.
    pub(crate) fn line(self) -> &'static [u8]
        ensures { result.now ≡ line (version_line self) }
    {
        match self {
            ProofsVersion::First => b"pdfgen proofs 1\n",
            ProofsVersion::Second => b"pdfgen proofs 2\n",
            ProofsVersion::Third => b"pdfgen proofs 3\n",
            ProofsVersion::Fourth => b"pdfgen proofs 4\n",
            ProofsVersion::Fifth => b"pdfgen proofs 5\n",
        }
    }

    /// How many lines of the netlist its trees may split, from line 0 on.
    pub(crate) fn lines_to_split(self, net: &Netlist) -> u32
        ensures { result ≡ lines_to_split net.now self }
    {
        match self {
            ProofsVersion::First | ProofsVersion::Second | ProofsVersion::Third => net.sources(),
            ProofsVersion::Fourth | ProofsVersion::Fifth => net.lines(),
        }
    }

    /// Whether its trees may split by first values.
    pub(crate) fn has_first_values(self) -> bool
        ensures { IsTrue result ↔ HasKind self SplitKind.FirstValue }
    {
        matches!(self, ProofsVersion::Fifth)
    }
}

// Whether all trees of these proofs are trees of sources.
fn are_trees_of_sources(sources: u32, proofs: &[Proof]) -> bool
    ensures { result ≡ are_trees_of_sources sources proofs.now }
{
    for proof in proofs {
        if !is_tree_of_sources(sources, proof.tree.nodes()) {
            return false;
        }
    }
    true
}

// Whether these are the nodes of a tree of sources.
fn is_tree_of_sources(sources: u32, nodes: &[Node]) -> bool
    ensures { result ≡ is_tree_of_sources sources nodes.now }
{
    for node in nodes {
        if !is_source_node(sources, *node) {
            return false;
        }
    }
    true
}

// Whether a node is no split, or one at a source by its last value or its steadiness.
fn is_source_node(sources: u32, node: Node) -> bool
    ensures { result ≡ is_source_node sources node }
{
    match node {
        Node::Closed | Node::Waiting => true,
        Node::Split(split) => split.line.0 < sources && is_source_kind(split.kind),
    }
}

// Whether a split is by the last value or the steadiness.
fn is_source_kind(kind: SplitKind) -> bool
    ensures { result ≡ is_source_kind kind }
{
    match kind {
        SplitKind::LastValue | SplitKind::Steadiness => true,
        SplitKind::FirstValue => false,
    }
}
