// The steadiness of each line: one pass over the gates in rank order, each of which computes with Kleene's three values. Contracts see
// steadiness as an optional bit: none where the value is unknown.
ghost use Rattle.std.specs.Prelude.{◌≡◌, ◌≤◌, ◌<◌, ℕ, ℤ, Bool, false, Some, not, map, length, is_some, unwrap_or, if◌then◌else◌, EachIndex};
ghost use Rattle.std.specs.List.{list_all, list_any};
ghost use Rattle.netlist.specs.Circuit.{source_count, line_count};
ghost use Rattle.netlist.specs.Values.{parity, value};
ghost use Rattle.netlist.specs.Waves.{Delays, wave_of};
ghost use Rattle.netlist.specs.Steadiness.{is_known_as, known_gate_value, known_parity, only_known, agreed_bit, steady_value};
ghost use Rattle.logic_values.specs.Known.{known, known_at, HasPlaces};

use crate::steadiness::{Steady, agreed, complement, steady_at};
use netlist::{GateKind, Netlist};
use pd_base::{LineId, Pair};

/// Fills in at which value each line is steady under a pair, if it is. The vectors have one bit per source in the order of the
/// sources, and `out` has one place per line, by line number. A line that is steady has its value under both vectors, and its
/// wave has it at every time, whatever the delays are. Of a line that is not, nothing follows. Takes no memory.
pub fn steady(net: &Netlist, pair: &Pair, out: &mut [Steady])
    requires bits { length pair.now.first ≡ source_count net.now }
    requires places { length out.old ≡ line_count net.now }
    ensures exactly { EachIndex out.new (λ line. known_at out.new line ≡ steady_value net.now pair.now line) }
    ensures steady_at_all_times { (line : ℕ) (bit : Bool) → line < length out.new → known_at out.new line ≡ Some bit
        → (delays : Delays) (time : ℤ) → wave_of net.now pair.now delays line time ≡ bit }
    ensures steady_under_first { (line : ℕ) (bit : Bool) → line < length out.new → known_at out.new line ≡ Some bit
        → value net.now pair.now.first line ≡ bit }
    ensures steady_under_second { (line : ℕ) (bit : Bool) → line < length out.new → known_at out.new line ≡ Some bit
        → value net.now pair.now.second line ≡ bit }
{
    // A netlist knows itself as a circuit.
    let one_each = out.len() == net.lines() as usize;
    prove!(one_each);
    set_sources(pair, out);
    for gate in net.order() {
        let line = net.line_of(*gate);
        out[line.0 as usize] = gate_steadiness(net.kind(*gate), net.pins(*gate), out);
    }
}

// Each source is steady where both vectors have one bit there.
fn set_sources(pair: &Pair, out: &mut [Steady])
    requires { length pair.now.first ≤ length out.old }
    ensures { (source : ℕ) → source < length pair.now.first → known_at out.new source ≡ agreed_bit pair.now source }
{
    let first = pair.first();
    let second = pair.second();
    for source in 0..first.len() {
        out[source] = agreed(first[source], second[source]);
    }
}

// A gate's function of the steadiness of the lines that its pins read.
fn gate_steadiness(kind: GateKind, pins: &[LineId], values: &[Steady]) -> Steady
    requires { HasPlaces values.now pins.now }
    ensures { known result ≡ known_gate_value kind (map (λ pin. known_at values.now pin.0) pins.now) }
{
    match kind {
        GateKind::And => controlled(false, pins, values),
        GateKind::Nand => complement(controlled(false, pins, values)),
        GateKind::Or => controlled(true, pins, values),
        GateKind::Nor => complement(controlled(true, pins, values)),
        GateKind::Xor => parity(pins, values),
        GateKind::Xnor => complement(parity(pins, values)),
        GateKind::Not => complement(only_steadiness(pins, values)),
        GateKind::Buff => only_steadiness(pins, values),
    }
}

// One pin that is steady at the controlling value decides. Else the gate is steady only where all pins are.
fn controlled(controlling: bool, pins: &[LineId], values: &[Steady]) -> Steady
    requires { HasPlaces values.now pins.now }
    ensures { let knowns = map (λ pin. known_at values.now pin.0) pins.now in
        known result ≡ (if list_any (is_known_as controlling) knowns then Some controlling
        else if list_all (is_known_as (not controlling)) knowns then Some (not controlling) else None) }
{
    if some_pin_at(controlling, pins, values) {
        steady_at(controlling)
    } else if all_pins_at(!controlling, pins, values) {
        steady_at(!controlling)
    } else {
        Steady::Moving
    }
}

// Whether some pin is steady at this bit.
fn some_pin_at(bit: bool, pins: &[LineId], values: &[Steady]) -> bool
    requires { HasPlaces values.now pins.now }
    ensures { result ≡ list_any (λ pin. is_known_as bit (known_at values.now pin.0)) pins.now }
{
    pins.iter().any(|pin| values[pin.0 as usize].is_at(bit))
}

// Whether all pins are steady at this bit.
fn all_pins_at(bit: bool, pins: &[LineId], values: &[Steady]) -> bool
    requires { HasPlaces values.now pins.now }
    ensures { result ≡ list_all (λ pin. is_known_as bit (known_at values.now pin.0)) pins.now }
{
    pins.iter().all(|pin| values[pin.0 as usize].is_at(bit))
}

// The parity, steady where all pins are.
fn parity(pins: &[LineId], values: &[Steady]) -> Steady
    requires { HasPlaces values.now pins.now }
    ensures { known result ≡ known_parity (map (λ pin. known_at values.now pin.0) pins.now) }
{
    if all_pins_steady(pins, values) {
        steady_at(parity_of_ones(pins, values))
    } else {
        Steady::Moving
    }
}

// Whether all pins are steady, at either value.
fn all_pins_steady(pins: &[LineId], values: &[Steady]) -> bool
    requires { HasPlaces values.now pins.now }
    ensures { result ≡ list_all (λ pin. is_some (known_at values.now pin.0)) pins.now }
{
    pins.iter().all(|pin| values[pin.0 as usize].is_steady())
}

// Whether an odd number of pins is steady at 1.
fn parity_of_ones(pins: &[LineId], values: &[Steady]) -> bool
    requires { HasPlaces values.now pins.now }
    ensures { result ≡ parity (map (λ value. unwrap_or value false) (map (λ pin. known_at values.now pin.0) pins.now)) }
{
    let mut odd = false;
    for pin in pins {
        odd ^= values[pin.0 as usize].is_at(true);
    }
    odd
}

// The steadiness at the only pin.
fn only_steadiness(pins: &[LineId], values: &[Steady]) -> Steady
    requires { HasPlaces values.now pins.now }
    ensures { known result ≡ only_known (map (λ pin. known_at values.now pin.0) pins.now) }
{
    match pins.first() {
        Some(pin) => values[pin.0 as usize],
        None => Steady::Moving,
    }
}
