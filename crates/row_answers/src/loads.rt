// What loads pairs of vectors into scan chains.
ghost use Rattle.std.specs.Prelude.{◌≡◌, ◌<◌, ◌≤◌, All, IfOk, length};
ghost use Rattle.netlist.specs.Circuit.{source_count};
ghost use Rattle.scan_order.specs.Chains.{AreChainsOf};
ghost use Rattle.scan_load.specs.Shifting.{ShiftsOn};
ghost use Rattle.row_answers.specs.declared.loads.TheConstants.{MOST_BYTES};

use crate::circuits::pair;
use crate::text::Text;
use crate::texts::{parted, spelled_out};
use crate::trouble::Trouble;
use netlist::Netlist;
use pd_base::Pair;
use scan_load::{load_string, shifts_on_all};
use scan_order::{Chains, read_scan};
use std::alloc::Global;

// The most bytes of a scan file that a row may have.
const MOST_BYTES: usize = 65_536;

/// Adds the bits that load a pair into scan chains, a line for each chain, or that the last shift doesn't launch it: the text of the scan
/// file, and both vectors.
pub fn loaded(alloc: Global, net: &Netlist, row: &str, answer: &mut Text) -> Result<(), Trouble> {
    let (file, vectors) = parted(row)?;
    let chains = chains_of(alloc, net, file)?;
    let (first, second) = parted(vectors)?;
    let pair = pair(alloc, net, first, second)?;
    add_loads(alloc, net, &chains, &pair, answer)
}

// The chains of a scan file.
fn chains_of(alloc: Global, net: &Netlist, file: &str) -> Result<Chains, Trouble>
    ensures { IfOk result (AreChainsOf net.now) }
{
    let text = spelled_out(alloc, file)?;
    if text.len() > MOST_BYTES {
        return Err(Trouble::NoRow);
    }
    chains_in(alloc, net, text.as_bytes())
}

// The chains of the bytes of one.
fn chains_in(alloc: Global, net: &Netlist, bytes: &[u8]) -> Result<Chains, Trouble>
    requires { length bytes.now ≤ MOST_BYTES }
    ensures { IfOk result (AreChainsOf net.now) }
{
    match read_scan(alloc, net, bytes) {
        Ok(chains) => Ok(chains),
        Err(_) => Err(Trouble::NoRow),
    }
}

// The lines of chains, if the last shift launches the pair.
#[tactic(auto, using(crate::proofs::Chains::have_bits))]
fn add_loads(
    alloc: Global,
    net: &Netlist,
    chains: &Chains,
    pair: &Pair,
    answer: &mut Text,
) -> Result<(), Trouble>
    requires chains { AreChainsOf net.now chains.now }
    requires bits { length pair.now.first ≡ source_count net.now }
{
    // A netlist knows itself as a circuit.
    net.sources();
    if shifts_on_all(chains, pair) {
        return add_strings(alloc, chains, pair, answer);
    }
    answer.add("  not launched\n");
    Ok(())
}

// The bits that load the pair into each of the chains.
fn add_strings(
    alloc: Global,
    chains: &Chains,
    pair: &Pair,
    answer: &mut Text,
) -> Result<(), Trouble>
    requires bits { All (λ chain. All (λ line. line.0 < length pair.now.first) chain) chains.now }
    requires shifts { All (λ chain. ShiftsOn chain pair.now) chains.now }
{
    for chain in chains.chains() {
        let string = load_string(alloc, chain.as_slice(), pair)?;
        answer.add_bits_line(string.as_slice());
    }
    Ok(())
}
