// What the text of a netlist says: the netlist in its canonical form, and its circuit line by line.
ghost use Rattle.std.specs.Prelude.{◌<◌};
ghost use Rattle.netlist.specs.Circuit.{line_count};

use crate::text::Text;
use crate::trouble::Trouble;
use bench_reader::bench_text;
use netlist::Netlist;
use pd_base::{LineId, OutOfMemory, PinRef};
use std::alloc::Global;

/// Adds the canonical text of a netlist.
pub fn netlist_text(alloc: Global, net: &Netlist, answer: &mut Text) -> Result<(), Trouble> {
    let bytes = bytes_of(alloc, net)?;
    answer.add_bytes(bytes.as_slice());
    Ok(())
}

// The bytes of that text. It promises nothing, so that the answers are not proved over again under the contract of `bench_text`.
fn bytes_of(alloc: Global, net: &Netlist) -> Result<Vec<u8>, OutOfMemory> {
    bench_text(alloc, net)
}

/// Adds the canonical text, the counts, the orders, and a line for each line of the circuit.
pub fn netlist_facts(alloc: Global, net: &Netlist, answer: &mut Text) -> Result<(), Trouble> {
    netlist_text(alloc, net, answer)?;
    add_facts(net, answer);
    Ok(())
}

// The counts, the orders and the lines.
fn add_facts(net: &Netlist, answer: &mut Text) {
    add_counts(net, answer);
    add_order(net, answer);
    add_observed(net, answer);
    for line in 0..net.lines() {
        add_line(net, LineId(line), answer);
    }
}

// How many there are of what.
fn add_counts(net: &Netlist, answer: &mut Text) {
    answer.add_number("  sources ", net.sources() as u64);
    answer.add_number(" gates ", net.gates() as u64);
    answer.add_number(" lines ", net.lines() as u64);
    answer.add_number(" pins ", net.pin_total() as u64);
    answer.add_number(" levels ", net.levels() as u64);
    answer.add_number(" longest name ", net.longest_name() as u64);
    answer.add("\n");
}

// The gates in rank order.
fn add_order(net: &Netlist, answer: &mut Text) {
    answer.add("  rank order");
    for gate in net.order() {
        answer.add_number(" ", gate.0 as u64);
    }
    answer.add("\n");
}

// The observed lines in order.
fn add_observed(net: &Netlist, answer: &mut Text) {
    answer.add("  observed");
    for line in net.observed() {
        answer.add_number(" ", line.0 as u64);
    }
    answer.add("\n");
}

// A line of the circuit: its number, its name, its level, and the pins that read it.
fn add_line(net: &Netlist, line: LineId, answer: &mut Text)
    requires { line.0 < line_count net.now }
{
    answer.add_number("  line ", line.0 as u64);
    answer.add(" ");
    answer.add_bytes(net.name(line));
    answer.add_number(" level ", net.level(line) as u64);
    add_readers(net.fanout(line), answer);
}

// These pins, and the end of the line.
fn add_readers(pins: &[PinRef], answer: &mut Text) {
    answer.add(" read by");
    for pin in pins {
        answer.add_number(" ", pin.gate.0 as u64);
        answer.add_number(":", pin.pin as u64);
    }
    answer.add("\n");
}
