// The value of each line: one pass over the gates in rank order, so that the values at a gate's pins are there when its own is
// computed.
ghost use Rattle.std.specs.Prelude.{◌≡◌, ◌≤◌, ◌<◌, ℕ, [], map, length, EachIndex};
ghost use Rattle.pd_base.specs.Pair.{Vectors};
ghost use Rattle.netlist.specs.Circuit.{source_count, line_count};
ghost use Rattle.five_valued.specs.FiveValues.{five_at, five_value, gate_five, joined_five};
ghost use Rattle.five_valued.specs.FiveSets.{HasStatesOf};
ghost use Rattle.logic_values.specs.Known.{HasPlaces};

use crate::{Five, five_invert, five_join};
use netlist::{GateKind, Netlist, Op};
use pd_base::LineId;

/// Fills in the value of each line where the sources have those of `partial`, which has one place per source, in their order.
/// `out` has one place per line, by line number. Under every pair of vectors by which each source is in a state of its value,
/// each line is. Takes no memory.
pub fn simulate(net: &Netlist, partial: &[Five], out: &mut [Five])
    requires sources { length partial.now ≡ source_count net.now }
    requires places { length out.old ≡ line_count net.now }
    ensures exactly { EachIndex out.new (λ line. five_at out.new line ≡ five_value net.now partial.now line) }
    ensures completions { (pair : Vectors) → HasStatesOf net.now pair partial.now → HasStatesOf net.now pair out.new }
{
    // A netlist knows itself as a circuit.
    let one_each = partial.len() == net.sources() as usize;
    prove!(one_each);
    set_sources(partial, out);
    for gate in net.order() {
        let line = net.line_of(*gate);
        out[line.0 as usize] = gate_five(net.kind(*gate), net.pins(*gate), out);
    }
}

// Each source has its value.
fn set_sources(partial: &[Five], out: &mut [Five])
    requires { length partial.now ≤ length out.old }
    ensures { (source : ℕ) → source < length partial.now → five_at out.new source ≡ five_at partial.now source }
{
    for source in 0..partial.len() {
        out[source] = partial[source];
    }
}

// A gate's function of the values of the lines that its pins read.
fn gate_five(kind: GateKind, pins: &[LineId], values: &[Five]) -> Five
    requires { HasPlaces values.now pins.now }
    ensures { result ≡ gate_five kind (map (λ pin. five_at values.now pin.0) pins.now) }
{
    let joined = joined_pins(kind.operation(), pins, values);
    if kind.inverts() {
        five_invert(joined)
    } else {
        joined
    }
}

// What an operation makes of the values of all pins.
fn joined_pins(op: Op, pins: &[LineId], values: &[Five]) -> Five
    requires { HasPlaces values.now pins.now }
    ensures { result ≡ joined_five op (map (λ pin. five_at values.now pin.0) pins.now) }
{
    let mut joined = unit(op);
    for pin in pins {
        joined = five_join(op, joined, values[pin.0 as usize]);
    }
    joined
}

// What an operation makes of no values.
fn unit(op: Op) -> Five
    ensures { result ≡ joined_five op [] }
{
    match op {
        Op::And => Five::S1,
        Op::Or | Op::Xor => Five::S0,
    }
}
