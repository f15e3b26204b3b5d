// The load string of a chain for a pair. What it does in the chain is said in specs/Shifting.antt.
ghost use Rattle.std.specs.Prelude.{◌≡◌, ◌≢◌, ◌<◌, ◌≤◌, length, All, AllPairs, IfOk, OnOk};
ghost use Rattle.scan_load.specs.Shifting.{Loads, ShiftsOn, load_bits};

use pd_base::{LineId, OutOfMemory, Pair};
use std::alloc::Global;

/// The bits to shift into a chain, in this order: from every state of the chain, all but the last bring the pair's first vector into it,
/// and the last brings the second. The chain has at least one line, lines that differ, and only such as the vectors have bits for; at each
/// line after the first, the second vector has the bit that the first has at the line before. It fails only where memory runs out.
pub fn load_string(alloc: Global, chain: &[LineId], pair: &Pair) -> Result<Vec<bool>, OutOfMemory>
    requires some { 1 ≤ length chain.now }
    requires once { AllPairs (λ a b. a ≢ b) chain.now }
    requires in_range { All (λ line. line.0 < length pair.now.first) chain.now }
    requires shifts_on { ShiftsOn chain.now pair.now }
    ensures loads { IfOk result (λ string. Loads chain.now pair.now string.items) }
    ensures bits { IfOk result (λ string. string.items ≡ load_bits chain.now pair.now) }
{
    let mut string = Vec::new(alloc);
    put_load_string(chain, pair, &mut string)?;
    Ok(string)
}

/// The same, put in place of what stood in a list, whose room can serve for one chain after another.
pub fn put_load_string(
    chain: &[LineId],
    pair: &Pair,
    string: &mut Vec<bool>,
) -> Result<(), OutOfMemory>
    requires some { 1 ≤ length chain.now }
    requires once { AllPairs (λ a b. a ≢ b) chain.now }
    requires in_range { All (λ line. line.0 < length pair.now.first) chain.now }
    requires shifts_on { ShiftsOn chain.now pair.now }
    ensures loads { OnOk result (Loads chain.now pair.now string.new.items) }
    ensures bits { OnOk result (string.new.items ≡ load_bits chain.now pair.now) }
{
    let first = pair.first();
    let second = pair.second();
    string.clear();
    for at in 0..chain.len() {
        string.push(first[chain[chain.len() - 1 - at].0 as usize])?;
    }
    string.push(second[chain[0].0 as usize])?;
    Ok(())
}
