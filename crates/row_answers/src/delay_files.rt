// What a text says as the delay file of a netlist.
ghost use Rattle.std.specs.Prelude.{◌<◌};
ghost use Rattle.delay_annotation.specs.Annotation.{Fits};
ghost use Rattle.netlist.specs.Circuit.{gate_count};

use crate::paths::delays;
use crate::text::Text;
use crate::trouble::Trouble;
use delay_annotation::{DelayFault, Delays};
use netlist::Netlist;
use pd_base::{GateId, PinRef};
use std::alloc::Global;

/// Adds the delays of the pins of each gate, or why the delay file is refused.
pub fn delays_text(
    alloc: Global,
    net: &Netlist,
    file: Option<&str>,
    answer: &mut Text,
) -> Result<(), Trouble> {
    match delays(alloc, net, file)? {
        Ok(delays) => add_gates(net, &delays, answer),
        Err(fault) => add_refusal(fault, answer),
    }
    Ok(())
}

// Why a delay file is refused.
fn add_refusal(fault: DelayFault, answer: &mut Text) {
    match fault {
        DelayFault::Header => answer.add("  refused header\n"),
        DelayFault::Fields(row) => add_row_refusal(row, " fields\n", answer),
        DelayFault::UnknownGate(row) => add_row_refusal(row, " unknown gate\n", answer),
        DelayFault::BadPin(row) => add_row_refusal(row, " bad pin\n", answer),
        DelayFault::BadNumber(row) => add_row_refusal(row, " bad number\n", answer),
        DelayFault::NoMemory(_) => answer.add("  refused want of memory\n"),
    }
}

// What is wrong with a row.
fn add_row_refusal(row: u32, wrong: &str, answer: &mut Text) {
    answer.add_number("  refused row ", row as u64);
    answer.add(wrong);
}

// A line for each gate: its name, and the delays of its pins.
fn add_gates(net: &Netlist, delays: &Delays, answer: &mut Text)
    requires { Fits net.now delays.now }
{
    for gate in 0..net.gates() {
        let gate = GateId(gate);
        answer.add("  ");
        answer.add_bytes(net.name(net.line_of(gate)));
        add_delays(net, delays, gate, answer);
    }
}

// The delays of the pins of a gate.
fn add_delays(net: &Netlist, delays: &Delays, gate: GateId, answer: &mut Text)
    requires fits { Fits net.now delays.now }
    requires gate { gate.0 < gate_count net.now }
{
    for pin in 0..net.pins(gate).len() {
        match u32::try_from(pin) {
            Ok(pin) => answer.add_number(" ", delays.delay(net, PinRef { gate, pin }) as u64),
            Err(_) => answer.add(" no pin"),
        }
    }
    answer.add("\n");
}
