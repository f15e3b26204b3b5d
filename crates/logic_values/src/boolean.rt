// The Boolean value of each line: one pass over the gates in rank order, so that the values at a gate's pins are there when
// its own is computed.
ghost use Rattle.std.specs.Prelude.{◌≡◌, ◌≤◌, ◌<◌, ℕ, map, length, EachIndex};
ghost use Rattle.netlist.specs.Circuit.{source_count, line_count};
ghost use Rattle.netlist.specs.Values.{value, bit_of, all_true, any_true, parity, only_value, gate_value};
ghost use Rattle.logic_values.specs.Known.{bit_at, HasPlaces};

use netlist::{GateKind, Netlist};
use pd_base::LineId;

/// Fills in the value of each line under a vector. The vector has one bit per source in the order of the sources, and `out` has
/// one place per line, by line number. Takes no memory.
pub fn evaluate(net: &Netlist, vector: &[bool], out: &mut [bool])
    requires bits { length vector.now ≡ source_count net.now }
    requires places { length out.old ≡ line_count net.now }
    ensures { EachIndex out.new (λ line. bit_at out.new line ≡ value net.now vector.now line) }
{
    // A netlist knows itself as a circuit.
    let one_each = out.len() == net.lines() as usize;
    prove!(one_each);
    set_sources(vector, out);
    for gate in net.order() {
        let line = net.line_of(*gate);
        out[line.0 as usize] = gate_value(net.kind(*gate), net.pins(*gate), out);
    }
}

// Each source has its bit.
fn set_sources(vector: &[bool], out: &mut [bool])
    requires { length vector.now ≤ length out.old }
    ensures { (source : ℕ) → source < length vector.now → bit_at out.new source ≡ bit_of vector.now source }
{
    for source in 0..vector.len() {
        out[source] = vector[source];
    }
}

// A gate's function of the values at the lines that its pins read.
fn gate_value(kind: GateKind, pins: &[LineId], values: &[bool]) -> bool
    requires { HasPlaces values.now pins.now }
    ensures { result ≡ gate_value kind (map (λ pin. bit_at values.now pin.0) pins.now) }
{
    match kind {
        GateKind::And => all_true(pins, values),
        GateKind::Nand => !all_true(pins, values),
        GateKind::Or => any_true(pins, values),
        GateKind::Nor => !any_true(pins, values),
        GateKind::Xor => parity(pins, values),
        GateKind::Xnor => !parity(pins, values),
        GateKind::Not => !only_value(pins, values),
        GateKind::Buff => only_value(pins, values),
    }
}

// Whether all pins are 1.
fn all_true(pins: &[LineId], values: &[bool]) -> bool
    requires { HasPlaces values.now pins.now }
    ensures { result ≡ all_true (map (λ pin. bit_at values.now pin.0) pins.now) }
{
    pins.iter().all(|pin| values[pin.0 as usize])
}

// Whether some pin is 1.
fn any_true(pins: &[LineId], values: &[bool]) -> bool
    requires { HasPlaces values.now pins.now }
    ensures { result ≡ any_true (map (λ pin. bit_at values.now pin.0) pins.now) }
{
    pins.iter().any(|pin| values[pin.0 as usize])
}

// Whether an odd number of pins is 1.
fn parity(pins: &[LineId], values: &[bool]) -> bool
    requires { HasPlaces values.now pins.now }
    ensures { result ≡ parity (map (λ pin. bit_at values.now pin.0) pins.now) }
{
    let mut odd = false;
    for pin in pins {
        odd ^= values[pin.0 as usize];
    }
    odd
}

// The value at the only pin.
fn only_value(pins: &[LineId], values: &[bool]) -> bool
    requires { HasPlaces values.now pins.now }
    ensures { result ≡ only_value (map (λ pin. bit_at values.now pin.0) pins.now) }
{
    match pins.first() {
        Some(pin) => values[pin.0 as usize],
        None => false,
    }
}
