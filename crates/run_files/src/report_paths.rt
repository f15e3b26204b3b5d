// The path that the fields of a line of the report spell. A step's gate is looked for among those that read the line before it, since
// the steps of a path connect; only a step that doesn't is looked for among all names.
ghost use Rattle.std.specs.Prelude.{◌≡◌, ◌<◌, All, decimal, length, option_map, IfOk, IfSome};
ghost use Rattle.netlist.specs.Circuit.{gate_count, line_count, pins_at, source_count};
ghost use Rattle.netlist.specs.Names.{name_at};
ghost use Rattle.netlist.specs.Pins.{IsPin};
ghost use Rattle.text_pieces.specs.Cuts.{items_of};
ghost use Rattle.text_pieces.specs.Reads.{Reads};
ghost use Rattle.run_files.specs.ReportForm.{IsTellable};
ghost use Rattle.run_files.specs.ReportReading.{gate_name, measured_texts, path_lent};
ghost use Rattle.run_files.specs.ReportText.{step_text, steps_text};

use crate::report_fields::PathFields;
use netlist::{MOST_FAN_IN, Netlist};
use pd_base::{GateId, LineId, OutOfMemory, Path, PinRef};
use std::alloc::Global;
use text_pieces::{cut_last, next_word, read_long, read_number};

/// A path with its length, in delay units.
#[derive(Drop)]
pub(crate) struct MeasuredPath {
    pub(crate) path: Path,
    pub(crate) length: u64,
}

/// The path of these fields.
pub(crate) fn read_path(
    alloc: Global,
    net: &Netlist,
    fields: PathFields,
) -> Result<Option<MeasuredPath>, OutOfMemory>
    ensures { IfOk result (Reads (measured_texts net.now) (λ measured. IsTellable net.now measured.path measured.length) (path_lent fields.entry)) }
{
    let Some(length) = read_long(fields.length) else {
        return Ok(None);
    };
    let Some(source) = read_source(net, fields.source) else {
        return Ok(None);
    };
    let Some(steps) = read_steps(alloc, net, source, fields.steps)? else {
        return Ok(None);
    };
    let path = Path::new(alloc, source, steps.as_slice())?;
    Ok(Some(MeasuredPath { path, length }))
}

// The source that bears a name.
fn read_source(net: &Netlist, name: &[u8]) -> Option<LineId>
    ensures { Reads (λ source. name_at net.now source.0) (λ source. source.0 < source_count net.now) name.now result }
{
    let line = net.find(name)?;
    if line.0 < net.sources() {
        Some(line)
    } else {
        None
    }
}

// The steps that a field spells, from this line on.
fn read_steps(
    alloc: Global,
    net: &Netlist,
    source: LineId,
    field: &[u8],
) -> Result<Option<Vec<PinRef>>, OutOfMemory>
    requires { source.0 < source_count net.now }
    ensures { IfOk result (λ read. Reads (steps_text net.now) (All (IsPin net.now)) field.now (option_map items_of read)) }
{
    // A netlist knows itself as a circuit, in whose names there is no space.
    let known = source.0 < net.sources();
    prove!(known);
    let mut steps = Vec::new(alloc);
    if field == b"-".as_slice() {
        return Ok(Some(steps));
    }
    let mut line = source;
    let mut rest = Some(field);
    while let Some((word, behind)) = next_word(rest) {
        let Some(step) = read_step(net, line, word) else {
            return Ok(None);
        };
        steps.push(step)?;
        line = net.line_of(step.gate);
        rest = behind;
    }
    Ok(Some(steps))
}

// The step that a word spells, where this line may be the one before it.
fn read_step(net: &Netlist, line: LineId, word: &[u8]) -> Option<PinRef>
    requires { line.0 < line_count net.now }
    ensures { Reads (step_text net.now) (IsPin net.now) word.now result }
{
    let (name, pin) = cut_last(b':', word)?;
    let gate = read_gate(net, line, name)?;
    let pin = read_pin(net, gate, pin)?;
    Some(PinRef { gate, pin })
}

// The gate that bears a name, where it may be one that reads this line.
fn read_gate(net: &Netlist, line: LineId, name: &[u8]) -> Option<GateId>
    requires { line.0 < line_count net.now }
    ensures { Reads (gate_name net.now) (λ gate. gate.0 < gate_count net.now) name.now result }
{
    let sources = net.sources();
    if let Some(gate) = reader_of(net, line, name) {
        return Some(gate);
    }
    let line = net.find(name)?;
    let gate = line.0.checked_sub(sources)?;
    Some(GateId(gate))
}

// A gate that reads a line and bears a name.
fn reader_of(net: &Netlist, line: LineId, name: &[u8]) -> Option<GateId>
    requires { line.0 < line_count net.now }
    ensures { IfSome result (λ gate. (gate.0 < gate_count net.now) × (name.now ≡ gate_name net.now gate)) }
{
    for pin in net.fanout(line) {
        if net.name(net.line_of(pin.gate)) == name {
            return Some(pin.gate);
        }
    }
    None
}

// The pin of a gate whose number a word spells.
fn read_pin(net: &Netlist, gate: GateId, word: &[u8]) -> Option<u32>
    requires { gate.0 < gate_count net.now }
    ensures { Reads decimal (λ pin. pin < length (pins_at net.now gate.0)) word.now result }
{
    // A netlist knows itself as a circuit, whose gates have few pins.
    let gate_there = gate.0 < net.lines();
    prove!(gate_there);
    let pin = read_number(word, MOST_FAN_IN)?;
    if (pin as usize) < net.pins(gate).len() {
        Some(pin)
    } else {
        None
    }
}
