// The steadiness of each line under up to 64 pairs at once, beside the values under their second vectors: one pass over the gates in rank
// order, which computes bit by bit what the pass over single pairs does.
ghost use Rattle.std.specs.Prelude.{◌≡◌, ◌≤◌, ◌<◌, ℕ, not, ◌||◌, is_some, map, length};
ghost use Rattle.std.specs.Bool.{beq};
ghost use Rattle.std.specs.List.{list_all, list_any};
ghost use Rattle.pd_base.specs.Pair.{Vectors};
ghost use Rattle.netlist.specs.Circuit.{source_count, line_count};
ghost use Rattle.netlist.specs.Steadiness.{is_known_as, known_gate_value};
ghost use Rattle.netlist.specs.Values.{only_value};
ghost use Rattle.logic_values.specs.Known.{HasPlaces};
ghost use Rattle.logic_values.specs.Lanes.{lane_of, lane_bit, IsInLane};
ghost use Rattle.test_grade.specs.Lines.{known_in, known_lane, AreUnder, HasAgreements, HasFinals, HasSteadies};

use logic_values::evaluate_lanes;
use netlist::{GateKind, Netlist};
use pd_base::LineId;

/// Fills in what all lines are under up to 64 pairs at once: bit k of a line's word in `finals` is its value under the second vector of
/// the pair in lane k, from 0, and bit k of its word in `steadies` whether it is steady under that pair. Both have one place per line,
/// by line number. Before, the second vectors stand in the words of the sources in `finals`, and the first ones in `steadies`; what
/// stands in the other words does not matter. Takes no memory.
pub(crate) fn evaluate_pairs(net: &Netlist, finals: &mut [u64], steadies: &mut [u64])
    requires finals { length finals.old ≡ line_count net.now }
    requires steadies { length steadies.old ≡ line_count net.now }
    ensures { (lane : ℕ) (pair : Vectors) → lane < 64
        → length pair.first ≡ source_count net.now → length pair.second ≡ source_count net.now
        → IsInLane steadies.old lane pair.first → IsInLane finals.old lane pair.second
        → AreUnder net.now pair lane finals.new steadies.new }
{
    compare_sources(net.sources() as usize, finals, steadies);
    evaluate_lanes(net, finals);
    steady_lanes(net, finals, steadies);
}

// Puts in place of the first vectors' bits whether the second ones' are the same.
fn compare_sources(count: usize, seconds: &[u64], firsts: &mut [u64])
    requires seconds { count ≤ length seconds.now }
    requires firsts { count ≤ length firsts.old }
    ensures { (lane source : ℕ) → lane < 64 → source < count
        → lane_bit firsts.new lane source ≡ beq (lane_bit firsts.old lane source) (lane_bit seconds.now lane source) }
{
    for source in 0..count {
        firsts[source] = same_bits(firsts[source], seconds[source]);
    }
}

// In each lane, whether two words have one bit.
fn same_bits(first: u64, second: u64) -> u64
    ensures { (lane : ℕ) → lane < 64 → lane_of result lane ≡ beq (lane_of first lane) (lane_of second lane) }
{
    !(first ^ second)
}

// The pass over the gates. The values are there, and so is which sources are steady.
fn steady_lanes(net: &Netlist, finals: &[u64], steadies: &mut [u64])
    requires finals { length finals.now ≡ line_count net.now }
    requires steadies { length steadies.old ≡ line_count net.now }
    ensures { (lane : ℕ) (pair : Vectors) → lane < 64
        → HasFinals net.now pair.second lane finals.now → HasAgreements net.now pair lane steadies.old
        → HasSteadies net.now pair lane steadies.new }
{
    // A netlist knows itself as a circuit.
    let one_each = steadies.len() == net.lines() as usize;
    prove!(one_each);
    for gate in net.order() {
        let line = net.line_of(*gate);
        steadies[line.0 as usize] = steady_word(net.kind(*gate), net.pins(*gate), finals, steadies);
    }
}

// In each lane, whether a gate's line is steady, from what is known of the lines that its pins read.
fn steady_word(kind: GateKind, pins: &[LineId], finals: &[u64], steadies: &[u64]) -> u64
    requires finals { HasPlaces finals.now pins.now }
    requires steadies { HasPlaces steadies.now pins.now }
    ensures { (lane : ℕ) → lane < 64
        → lane_of result lane ≡ is_some (known_gate_value kind (map (λ pin. known_lane finals.now steadies.now lane pin.0) pins.now)) }
{
    match kind {
        GateKind::And | GateKind::Nand => controlled(false, pins, finals, steadies),
        GateKind::Or | GateKind::Nor => controlled(true, pins, finals, steadies),
        GateKind::Xor | GateKind::Xnor => all_steady(pins, steadies),
        GateKind::Not | GateKind::Buff => only_steady(pins, steadies),
    }
}

// In each lane, whether some pin is steady at the controlling value, or all are steady at the other one.
fn controlled(controlling: bool, pins: &[LineId], finals: &[u64], steadies: &[u64]) -> u64
    requires finals { HasPlaces finals.now pins.now }
    requires steadies { HasPlaces steadies.now pins.now }
    ensures { (lane : ℕ) → lane < 64 → lane_of result lane
        ≡ (list_any (λ pin. is_known_as controlling (known_lane finals.now steadies.now lane pin.0)) pins.now
        || list_all (λ pin. is_known_as (not controlling) (known_lane finals.now steadies.now lane pin.0)) pins.now) }
{
    let mut some = 0u64;
    let mut all = u64::MAX;
    for pin in pins {
        let last = finals[pin.0 as usize];
        let steady = steadies[pin.0 as usize];
        some |= at_bit(controlling, last, steady);
        all &= at_bit(!controlling, last, steady);
    }
    some | all
}

// In each lane, whether a line is steady at this bit.
fn at_bit(bit: bool, last: u64, steady: u64) -> u64
    ensures { (lane : ℕ) → lane < 64
        → lane_of result lane ≡ is_known_as bit (known_in (lane_of last lane) (lane_of steady lane)) }
{
    if bit { steady & last } else { steady & !last }
}

// In each lane, whether all pins are steady.
fn all_steady(pins: &[LineId], steadies: &[u64]) -> u64
    requires { HasPlaces steadies.now pins.now }
    ensures { (lane : ℕ) → lane < 64 → lane_of result lane ≡ list_all (λ pin. lane_bit steadies.now lane pin.0) pins.now }
{
    let mut all = u64::MAX;
    for pin in pins {
        all &= steadies[pin.0 as usize];
    }
    all
}

// In each lane, whether the only pin is steady.
fn only_steady(pins: &[LineId], steadies: &[u64]) -> u64
    requires { HasPlaces steadies.now pins.now }
    ensures { (lane : ℕ) → lane < 64 → lane_of result lane ≡ only_value (map (λ pin. lane_bit steadies.now lane pin.0) pins.now) }
{
    match pins.first() {
        Some(pin) => steadies[pin.0 as usize],
        None => 0,
    }
}
