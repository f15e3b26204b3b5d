// The parts of the circuit that are known by names alone: kinds, pins, output lines and flip-flops.
ghost use Rattle.std.specs.Prelude.{◌≡◌, ◌+◌, ◌<◌, ◌≤◌, ◌++◌, length, sum_by, map, IfOk, OnOk};
ghost use Rattle.std.specs.List.{flat_map};
ghost use Rattle.netlist.specs.declared.limits.TheConstants.{MOST_LINES, MOST_PINS};
ghost use Rattle.netlist.specs.Description.{flop_in, flop_on, flops, gate_in, gates, line_named, output_in, outputs, pins_in, IsWithinLimits};
ghost use Rattle.netlist.specs.Statements.{used_by};
ghost use Rattle.net_builder.specs.Reading.{statement_at};
ghost use Rattle.net_builder.specs.KnownNames.{known_names};

use crate::limits::count_pins;
use crate::name_set::{NameSet, line_named_in};
use crate::reading::{flop, output};
use crate::{Form, RawNet};
use netlist::GateKind;
use pd_base::{FlatLists, LineId, OutOfMemory};
use smallvec::SmallVec;
use std::alloc::Global;

/// The kinds of all gates.
pub(crate) fn kinds_of(alloc: Global, raw: &RawNet) -> Result<Vec<GateKind>, OutOfMemory>
    ensures { IfOk result (λ kinds. kinds.items ≡ map (λ gate. gate.kind) (gates raw.now)) }
{
    let mut kinds = Vec::new(alloc);
    for place in 0..raw.len() {
        push_kind(raw, place, &mut kinds)?;
    }
    Ok(kinds)
}

// Puts the kind of a statement's gate last.
fn push_kind(raw: &RawNet, place: usize, kinds: &mut Vec<GateKind>) -> Result<(), OutOfMemory>
    requires { place < length raw.now }
    ensures { OnOk result (kinds.new.items
        ≡ kinds.old.items ++ map (λ gate. gate.kind) (gate_in (statement_at raw.now place))) }
{
    match raw.form(place) {
        Form::Gate(kind) => kinds.push(kind)?,
        Form::Input | Form::Output | Form::Flop => {}
    }
    Ok(())
}

/// The lines that the pins of the gates read, by gate. The names are those of the lines.
pub(crate) fn pins_of(
    alloc: Global,
    raw: &RawNet,
    names: &NameSet,
) -> Result<FlatLists<LineId>, OutOfMemory>
    requires few { length (known_names names.now) ≤ MOST_LINES }
    requires limits { IsWithinLimits raw.now }
    ensures { IfOk result (λ pins. pins
        ≡ map (λ gate. map (line_named (known_names names.now)) gate.arguments) (gates raw.now)) }
{
    let mut pins = FlatLists::with_capacity(alloc, raw.len(), count_pins(raw) as usize)?;
    for place in 0..raw.len() {
        push_pins(alloc, raw, place, names, &mut pins)?;
    }
    Ok(pins)
}

// Puts the pins of a statement's gate last.
fn push_pins(
    alloc: Global,
    raw: &RawNet,
    place: usize,
    names: &NameSet,
    pins: &mut FlatLists<LineId>,
) -> Result<(), OutOfMemory>
    requires within { place < length raw.now }
    requires few { length (known_names names.now) ≤ MOST_LINES }
    requires room { sum_by length pins.old + pins_in (statement_at raw.now place) ≤ MOST_PINS }
    ensures { OnOk result (pins.new ≡ pins.old
        ++ map (λ gate. map (line_named (known_names names.now)) gate.arguments) (gate_in (statement_at raw.now place))) }
{
    match raw.form(place) {
        Form::Gate(_) => pins.push(lines_used(alloc, raw, place, names)?.as_slice())?,
        Form::Input | Form::Output | Form::Flop => {}
    }
    Ok(())
}

// The lines whose names a statement uses.
fn lines_used(
    alloc: Global,
    raw: &RawNet,
    place: usize,
    names: &NameSet,
) -> Result<SmallVec<LineId, 4>, OutOfMemory>
    requires within { place < length raw.now }
    requires few { length (known_names names.now) ≤ MOST_LINES }
    ensures { IfOk result (λ lines. lines.items
        ≡ map (line_named (known_names names.now)) (used_by (statement_at raw.now place))) }
{
    let mut lines = SmallVec::new(alloc);
    for argument in 0..raw.used_len(place) {
        lines.push(line_named_in(names, raw.used(place, argument)))?;
    }
    Ok(lines)
}

/// The lines of the outputs, repeated ones too.
pub(crate) fn named_outputs(
    alloc: Global,
    raw: &RawNet,
    names: &NameSet,
) -> Result<Vec<LineId>, OutOfMemory>
    requires { length (known_names names.now) ≤ MOST_LINES }
    ensures { IfOk result (λ lines. lines.items ≡ map (line_named (known_names names.now)) (outputs raw.now)) }
{
    let mut lines = Vec::new(alloc);
    for place in 0..raw.len() {
        push_output(raw, place, names, &mut lines)?;
    }
    Ok(lines)
}

// Puts the line of a statement's output last.
fn push_output(
    raw: &RawNet,
    place: usize,
    names: &NameSet,
    lines: &mut Vec<LineId>,
) -> Result<(), OutOfMemory>
    requires within { place < length raw.now }
    requires few { length (known_names names.now) ≤ MOST_LINES }
    ensures { OnOk result (lines.new.items
        ≡ lines.old.items ++ map (line_named (known_names names.now)) (output_in (statement_at raw.now place))) }
{
    match raw.form(place) {
        Form::Output => lines.push(line_named_in(names, raw.name(place)))?,
        Form::Input | Form::Gate(_) | Form::Flop => {}
    }
    Ok(())
}

/// The flip-flops, each as its own line and its data line.
pub(crate) fn flops_of(
    alloc: Global,
    raw: &RawNet,
    names: &NameSet,
) -> Result<Vec<(LineId, LineId)>, OutOfMemory>
    requires { length (known_names names.now) ≤ MOST_LINES }
    ensures { IfOk result (λ found. found.items ≡ map (flop_on (known_names names.now)) (flops raw.now)) }
{
    let mut found = Vec::new(alloc);
    for place in 0..raw.len() {
        push_flop(raw, place, names, &mut found)?;
    }
    Ok(found)
}

// Puts a statement's flip-flop last.
fn push_flop(
    raw: &RawNet,
    place: usize,
    names: &NameSet,
    found: &mut Vec<(LineId, LineId)>,
) -> Result<(), OutOfMemory>
    requires within { place < length raw.now }
    requires few { length (known_names names.now) ≤ MOST_LINES }
    ensures { OnOk result (found.new.items
        ≡ found.old.items ++ map (flop_on (known_names names.now)) (flop_in (statement_at raw.now place))) }
{
    match raw.form(place) {
        Form::Flop => found.push((
            line_named_in(names, raw.name(place)),
            line_named_in(names, raw.used(place, 0)),
        ))?,
        Form::Input | Form::Output | Form::Gate(_) => {}
    }
    Ok(())
}
