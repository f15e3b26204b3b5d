// For each test of a run whether its pair is one of the rules. No pair is evaluated where the rules have no links, since each is one then.
ghost use Rattle.std.specs.Prelude.{◌≡◌, [], IfOk, MatchOption, replicate, true};
ghost use Rattle.pd_base.specs.Links.{links_of};
ghost use Rattle.netlist.specs.LinkedPairs.{FitRules};
ghost use Rattle.runs.specs.Lawful.{AreLawfulTests};
ghost use Rattle.logic_values.specs.Blocks.{AreFlags};
ghost use Rattle.claim_check.specs.Right.{HasPairOf};

use logic_values::keep_links;
use netlist::Netlist;
use pd_base::{Links, OutOfMemory, Rules, Test};
use std::alloc::Global;

// A flag for each test, which is true exactly where its pair is one of the rules.
pub(crate) fn have_pairs_of(
    alloc: Global,
    net: &Netlist,
    rules: &Rules,
    tests: &[Test],
) -> Result<Vec<bool>, OutOfMemory>
    requires fit { FitRules net.now rules.now }
    requires lawful { AreLawfulTests net.now tests.now }
    ensures { IfOk result (λ flags. AreFlags (HasPairOf net.now rules.now) tests.now flags.items) }
{
    match some_links(rules) {
        Some(links) => keep_links(alloc, net, links, tests),
        None => all_true(alloc, tests.len()),
    }
}

// The links of the rules, where there are some.
fn some_links(rules: &Rules) -> Option<&Links>
    ensures { MatchOption result (links_of rules.now ≡ []) (λ links. links.now.pairs ≡ links_of rules.now) }
{
    match rules {
        Rules::Linked(links) if !links.pairs().is_empty() => Some(links),
        _ => None,
    }
}

// So many flags, each true.
fn all_true(alloc: Global, count: usize) -> Result<Vec<bool>, OutOfMemory>
    ensures { IfOk result (λ flags. flags.items ≡ replicate count true) }
{
    Ok(vec![in alloc; true; count]?)
}
