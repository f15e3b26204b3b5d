// The rules that a row begins with.
ghost use Rattle.std.specs.Prelude.{◌≡◌, ◌<◌, ◌↔◌, [], IfOk, IsTrue};
ghost use Rattle.std.specs.List.{Any};
ghost use Rattle.pd_base.specs.Links.{links_of};
ghost use Rattle.netlist.specs.Circuit.{line_count, source_count};
ghost use Rattle.netlist.specs.LinkedPairs.{AreLinksOf, FitRules};
ghost use Rattle.trees.specs.Unlinked.{IsUnlinked};

use crate::texts::parted;
use crate::trouble::Trouble;
use netlist::Netlist;
use pd_base::{LineId, Links, Rules};
use std::alloc::Global;

/// The rules that a row begins with, and what stands behind them: rules Two behind the word two; linked ones behind the word linked, with
/// their links as the next word; and else rules One.
pub fn rules_of<'a>(alloc: Global, net: &Netlist, row: &'a str) -> Result<(Rules, &'a str), Trouble>
    ensures fit { IfOk result (λ read. FitRules net.now read.0) }
{
    let Some(rest) = row.strip_prefix("linked ") else {
        return Ok(unlinked_rules_of(row));
    };
    let (links, rest) = parted(rest)?;
    Ok((linked_rules(alloc, net, links)?, rest))
}

/// The same where no rules have links.
pub fn unlinked_rules_of(row: &str) -> (Rules, &str)
    ensures unlinked { IsUnlinked result.0 }
    ensures no_links { links_of result.0 ≡ [] }
{
    match row.strip_prefix("two ") {
        Some(rest) => (Rules::Two, rest),
        None => (Rules::One, row),
    }
}

// Rules with the links of a word.
fn linked_rules(alloc: Global, net: &Netlist, word: &str) -> Result<Rules, Trouble>
    ensures fit { IfOk result (FitRules net.now) }
{
    let pairs = pairs_of(alloc, net, word)?;
    Ok(Rules::Linked(Links::new(alloc, pairs.as_slice())?))
}

// The links of a word, commas between them: the names of a source and of a line, and `>` between. A hyphen stands for no link.
fn pairs_of(alloc: Global, net: &Netlist, word: &str) -> Result<Vec<(LineId, LineId)>, Trouble>
    ensures { IfOk result (λ pairs. AreLinksOf net.now pairs.items) }
{
    let mut pairs = Vec::new(alloc);
    for part in word.split(',') {
        if part != "-" {
            let pair = pair_of(net, part)?;
            if is_linked(pairs.as_slice(), pair.0) {
                return Err(Trouble::NoRow);
            }
            pairs.push(pair)?;
        }
    }
    Ok(pairs)
}

// One link.
fn pair_of(net: &Netlist, part: &str) -> Result<(LineId, LineId), Trouble>
    ensures source { IfOk result (λ pair. pair.0.0 < source_count net.now) }
    ensures line { IfOk result (λ pair. pair.1.0 < line_count net.now) }
{
    let (source, line) = part.split_once('>').ok_or(Trouble::NoRow)?;
    let source = net.find(source.as_bytes()).ok_or(Trouble::NoRow)?;
    let line = net.find(line.as_bytes()).ok_or(Trouble::NoRow)?;
    if source.0 >= net.sources() {
        return Err(Trouble::NoRow);
    }
    Ok((source, line))
}

// Whether one of these links is of this source.
fn is_linked(pairs: &[(LineId, LineId)], source: LineId) -> bool
    ensures { IsTrue result ↔ Any (λ pair. pair.0 ≡ source) pairs.now }
{
    pairs.iter().any(|pair| pair.0 == source)
}
