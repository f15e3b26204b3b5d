// Netlists, names of their lines, and vectors of rows.
ghost use Rattle.std.specs.Prelude.{◌≡◌, ◌≤◌, length, vec_len, IfOk};
ghost use Rattle.netlist.specs.Circuit.{source_count};
ghost use Rattle.row_answers.specs.declared.circuits.TheConstants.{MOST_BYTES};

use crate::texts::spelled_out;
use crate::trouble::Trouble;
use bench_reader::read_bench;
use netlist::Netlist;
use pd_base::Pair;
use std::alloc::{AllocError, Global};

// The most bytes of a text that a row may have.
const MOST_BYTES: usize = 65_536;

/// The netlist of the text that a row spells, or None where the text is refused.
pub fn read(alloc: Global, row: &str) -> Result<Option<Netlist>, Trouble> {
    let text = spelled_out(alloc, row)?;
    if text.len() > MOST_BYTES {
        return Err(Trouble::NoRow);
    }
    Ok(netlist_of(alloc, text.as_bytes()))
}

// The netlist of a text. It promises nothing, so that the answers are not proved over again under the contract of `read_bench`.
fn netlist_of(alloc: Global, text: &[u8]) -> Option<Netlist>
    requires { length text.now ≤ MOST_BYTES }
{
    match read_bench(alloc, text) {
        Ok(net) => Some(net),
        Err(_) => None,
    }
}

/// A pair of vectors with one bit for each source.
pub fn pair(alloc: Global, net: &Netlist, first: &str, second: &str) -> Result<Pair, Trouble>
    ensures { IfOk result (λ pair. length pair.first ≡ source_count net.now) }
{
    let first = vector(alloc, net, first)?;
    let second = vector(alloc, net, second)?;
    Ok(Pair::new(first, second))
}

/// A vector with one bit for each source.
pub fn vector(alloc: Global, net: &Netlist, bits: &str) -> Result<Vec<bool>, Trouble>
    ensures { IfOk result (λ vector. vec_len vector ≡ source_count net.now) }
{
    let vector = bits_of(alloc, bits)?;
    if vector.len() == net.sources() as usize {
        Ok(vector)
    } else {
        Err(Trouble::NoRow)
    }
}

// The bits of a word.
fn bits_of(alloc: Global, bits: &str) -> Result<Vec<bool>, AllocError> {
    let mut vector = Vec::new(alloc);
    for byte in bits.bytes() {
        vector.push(byte == b'1')?;
    }
    Ok(vector)
}
