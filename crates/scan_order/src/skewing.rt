// The links of a launch by the last shift. Which they are is said in specs/SkewedLinks.antt.
ghost use Rattle.std.specs.Prelude.{◌≡◌, ◌++◌, IfOk, OnOk};
ghost use Rattle.netlist.specs.Circuit.{Circuit};
ghost use Rattle.netlist.specs.Lawful.{IsCircuit};
ghost use Rattle.netlist.specs.LinkedPairs.{AreLinksOf};
ghost use Rattle.scan_order.specs.Chains.{AreChainsOf};
ghost use Rattle.scan_order.specs.SkewedLinks.{links_along, links_of_chains};

use crate::Chains;
use pd_base::{LineId, Links, OutOfMemory};
use std::alloc::Global;

/// Links each flip-flop to the one before it in its chain; the first of a chain has no link. The links of a circuit's chains are of that
/// circuit. It fails only where memory runs out.
pub fn skewed_links(alloc: Global, chains: &Chains) -> Result<Links, OutOfMemory>
    ensures links { IfOk result (λ links. links.pairs ≡ links_of_chains chains.now) }
    ensures of_circuit { IfOk result (λ links. (c : Circuit) → IsCircuit c → AreChainsOf c chains.now → AreLinksOf c links.pairs) }
{
    let mut pairs = Vec::new(alloc);
    for chain in chains.chains() {
        push_links(chain.as_slice(), &mut pairs)?;
    }
    Links::new(alloc, &pairs)
}

// Appends the links along a chain.
fn push_links(chain: &[LineId], pairs: &mut Vec<(LineId, LineId)>) -> Result<(), OutOfMemory>
    ensures { OnOk result (pairs.new.items ≡ pairs.old.items ++ links_along chain.now) }
{
    for at in 1..chain.len() {
        pairs.push((chain[at], chain[at - 1]))?;
    }
    Ok(())
}
