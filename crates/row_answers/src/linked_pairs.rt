// Whether pairs of vectors keep the links of linked rules.
ghost use Rattle.std.specs.Prelude.{◌≡◌, IfSome, length};
ghost use Rattle.pd_base.specs.Links.{links_of};
ghost use Rattle.netlist.specs.Circuit.{source_count};
ghost use Rattle.netlist.specs.LinkedPairs.{AreLinksOf, FitRules};

use crate::circuits::pair;
use crate::rules::rules_of;
use crate::text::Text;
use crate::texts::parted;
use crate::trouble::Trouble;
use netlist::Netlist;
use path_model::{Scratch, linked};
use pd_base::{Links, OutOfMemory, Pair, Rules};
use std::alloc::Global;

/// Adds whether a pair keeps the links of linked rules: these (rules.rt), and both vectors.
pub fn keeps(alloc: Global, net: &Netlist, row: &str, answer: &mut Text) -> Result<(), Trouble> {
    let (rules, vectors) = rules_of(alloc, net, row)?;
    let (first, second) = parted(vectors)?;
    let pair = pair(alloc, net, first, second)?;
    add_kept(alloc, net, &rules, &pair, answer)
}

// Whether a pair keeps the links of these rules.
fn add_kept(
    alloc: Global,
    net: &Netlist,
    rules: &Rules,
    pair: &Pair,
    answer: &mut Text,
) -> Result<(), Trouble>
    requires fit { FitRules net.now rules.now }
    requires bits { length pair.now.first ≡ source_count net.now }
{
    match links_in(rules) {
        Some(links) => {
            answer.add_yes_or_no(are_kept(alloc, net, links, pair)?);
            Ok(())
        }
        None => Err(Trouble::NoRow),
    }
}

// The links of linked rules.
fn links_in(rules: &Rules) -> Option<&Links>
    ensures { IfSome result (λ links. links.now.pairs ≡ links_of rules.now) }
{
    match rules {
        Rules::Linked(links) => Some(links),
        Rules::One | Rules::Two => None,
    }
}

// Whether a pair keeps these links. It promises nothing, so that the answers are not proved over again under the contract of `linked`.
fn are_kept(alloc: Global, net: &Netlist, links: &Links, pair: &Pair) -> Result<bool, OutOfMemory>
    requires links { AreLinksOf net.now links.now.pairs }
    requires bits { length pair.now.first ≡ source_count net.now }
{
    let mut scratch = Scratch::new(alloc, net)?;
    Ok(linked(net, links, pair, &mut scratch))
}
