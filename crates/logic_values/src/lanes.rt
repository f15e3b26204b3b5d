// The Boolean values of each line under up to 64 vectors at once: one pass over the gates in rank order, which computes bit by bit what
// the pass over single values does. How a vector is put into its lane, and a bit read there, stands in lane.rt.
ghost use Rattle.std.specs.Prelude.{◌≡◌, ◌<◌, ℕ, Bool, List, not, map, length};
ghost use Rattle.netlist.specs.Circuit.{source_count, line_count};
ghost use Rattle.netlist.specs.Values.{value, all_true, any_true, parity, only_value, gate_value};
ghost use Rattle.logic_values.specs.Known.{HasPlaces};
ghost use Rattle.logic_values.specs.Lanes.{lane_of, lane_bit, IsInLane};

use netlist::{GateKind, Netlist};
use pd_base::LineId;

/// Fills in the values of each line under up to 64 vectors at once: bit k of a line's word is its value under the vector that stands in
/// lane k, from 0. `words` has one place per line, by line number, and the vectors stand in the words of the sources; what stands
/// in the other words before does not matter. Takes no memory.
pub fn evaluate_lanes(net: &Netlist, words: &mut [u64])
    requires places { length words.old ≡ line_count net.now }
    ensures { (lane : ℕ) (vector : List Bool) → lane < 64 → length vector ≡ source_count net.now → IsInLane words.old lane vector
        → (line : ℕ) → line < line_count net.now → lane_bit words.new lane line ≡ value net.now vector line }
{
    // A netlist knows itself as a circuit.
    let one_each = words.len() == net.lines() as usize;
    prove!(one_each);
    for gate in net.order() {
        let line = net.line_of(*gate);
        words[line.0 as usize] = gate_word(net.kind(*gate), net.pins(*gate), words);
    }
}

// A gate's function, in each lane, of the bits at the lines that its pins read.
fn gate_word(kind: GateKind, pins: &[LineId], words: &[u64]) -> u64
    requires { HasPlaces words.now pins.now }
    ensures { (lane : ℕ) → lane < 64 → lane_of result lane ≡ gate_value kind (map (λ pin. lane_bit words.now lane pin.0) pins.now) }
{
    match kind {
        GateKind::And => all_ones(pins, words),
        GateKind::Nand => complement(all_ones(pins, words)),
        GateKind::Or => any_ones(pins, words),
        GateKind::Nor => complement(any_ones(pins, words)),
        GateKind::Xor => parities(pins, words),
        GateKind::Xnor => complement(parities(pins, words)),
        GateKind::Not => complement(only_word(pins, words)),
        GateKind::Buff => only_word(pins, words),
    }
}

// In each lane, whether all pins are 1.
fn all_ones(pins: &[LineId], words: &[u64]) -> u64
    requires { HasPlaces words.now pins.now }
    ensures { (lane : ℕ) → lane < 64 → lane_of result lane ≡ all_true (map (λ pin. lane_bit words.now lane pin.0) pins.now) }
{
    let mut all = u64::MAX;
    for pin in pins {
        all &= words[pin.0 as usize];
    }
    all
}

// In each lane, whether some pin is 1.
fn any_ones(pins: &[LineId], words: &[u64]) -> u64
    requires { HasPlaces words.now pins.now }
    ensures { (lane : ℕ) → lane < 64 → lane_of result lane ≡ any_true (map (λ pin. lane_bit words.now lane pin.0) pins.now) }
{
    let mut any = 0u64;
    for pin in pins {
        any |= words[pin.0 as usize];
    }
    any
}

// In each lane, whether an odd number of pins is 1.
fn parities(pins: &[LineId], words: &[u64]) -> u64
    requires { HasPlaces words.now pins.now }
    ensures { (lane : ℕ) → lane < 64 → lane_of result lane ≡ parity (map (λ pin. lane_bit words.now lane pin.0) pins.now) }
{
    let mut odd = 0u64;
    for pin in pins {
        odd ^= words[pin.0 as usize];
    }
    odd
}

// The word at the only pin.
fn only_word(pins: &[LineId], words: &[u64]) -> u64
    requires { HasPlaces words.now pins.now }
    ensures { (lane : ℕ) → lane < 64 → lane_of result lane ≡ only_value (map (λ pin. lane_bit words.now lane pin.0) pins.now) }
{
    match pins.first() {
        Some(pin) => words[pin.0 as usize],
        None => 0,
    }
}

// The other value in each lane.
fn complement(word: u64) -> u64
    ensures { (lane : ℕ) → lane < 64 → lane_of result lane ≡ not (lane_of word lane) }
{
    !word
}
