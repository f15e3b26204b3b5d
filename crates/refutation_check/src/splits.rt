// Which splits trees have, by their lines and kinds: those of sources, and those of refutations under each of the rules.
ghost use Rattle.std.specs.Prelude.{◌<◌, ◌↔◌, IsTrue};
ghost use Rattle.netlist.specs.Circuit.{line_count};
ghost use Rattle.trees.specs.Refutations.{IsSplitOf};
ghost use Rattle.trees.specs.Trees.{IsSourceKind};

use netlist::Netlist;
use pd_base::Rules;
use state_laws::{Split, SplitKind};

// Whether a split is one of a refutation under these rules: at a source under rules One, and else at any line; by first values under linked
// rules alone.
pub(crate) fn is_split_of(net: &Netlist, rules: &Rules, split: Split) -> bool
    ensures exactly { IsTrue result ↔ IsSplitOf net.now rules.now split }
    ensures in_circuit { IsTrue result → split.line.0 < line_count net.now }
{
    match rules {
        Rules::One => split.line.0 < net.sources() && is_source_kind(split.kind),
        Rules::Two => split.line.0 < net.lines() && is_source_kind(split.kind),
        Rules::Linked(_) => split.line.0 < net.lines(),
    }
}

// Whether sources are split in this way: not by first values.
pub(crate) fn is_source_kind(kind: SplitKind) -> bool
    ensures { IsTrue result ↔ IsSourceKind kind }
{
    match kind {
        SplitKind::LastValue | SplitKind::Steadiness => true,
        SplitKind::FirstValue => false,
    }
}
