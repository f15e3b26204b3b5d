// The statements of a ladder: its sources, its output, and the gates of one stage after another.
ghost use Rattle.std.specs.Prelude.{◌≡◌, ◌+◌, ◌<◌, ◌≤◌, [], ◌∷◌, ◌++◌, length, map, IfOk, OnOk};
ghost use Rattle.netlist.specs.declared.limits.TheConstants.{MOST_LINES, MOST_STATEMENTS};
ghost use Rattle.netlist.specs.Lawful.{IsFanIn};
ghost use Rattle.ladder.specs.Ladder.{ladder_gates, ladder_name, ladder_sources, stage_gates, stage_sources, two_pin_gate};
ghost use Rattle.ladder.specs.Statements.{gate_stated, input_stated, ladder_statements, output_stated};
ghost use Rattle.pd_base.specs.declared.limits.TheConstants.{MOST_STAGES};

use crate::line::{LadderLine, Letter};
use net_builder::RawNet;
use netlist::GateKind;
use pd_base::OutOfMemory;
use std::alloc::Global;

/// The number of the line on which each statement stands: they stand in no text.
pub const NO_LINE: u32 = 0;

// The statements of the ladder of so many stages.
pub(crate) fn ladder_statements(alloc: Global, stages: u32) -> Result<RawNet, OutOfMemory>
    requires { stages ≤ MOST_STAGES }
    ensures { IfOk result (λ raw. raw ≡ ladder_statements stages) }
{
    let mut raw = RawNet::new(alloc);
    push_sources(alloc, &mut raw, stages)?;
    push_output(alloc, &mut raw, LadderLine::new(Letter::X, stages))?;
    push_gates(alloc, &mut raw, stages)?;
    Ok(raw)
}

// Puts the sources into a list without statements.
fn push_sources(alloc: Global, raw: &mut RawNet, stages: u32) -> Result<(), OutOfMemory>
    requires none { raw.old ≡ [] }
    requires few { stages ≤ MOST_STAGES }
    ensures sources { OnOk result (raw.new ≡ map input_stated (ladder_sources stages)) }
    ensures room { OnOk result (length raw.new < MOST_LINES) }
{
    push_source(alloc, raw, LadderLine::new(Letter::X, 0))?;
    for before in 0..stages {
        push_stage_sources(alloc, raw, before + 1)?;
    }
    Ok(())
}

// Puts the sources of a stage last.
fn push_stage_sources(alloc: Global, raw: &mut RawNet, stage: u32) -> Result<(), OutOfMemory>
    requires { length raw.old ≤ MOST_LINES }
    ensures { OnOk result (raw.new ≡ raw.old ++ map input_stated (stage_sources stage)) }
{
    push_source(alloc, raw, LadderLine::new(Letter::P, stage))?;
    push_source(alloc, raw, LadderLine::new(Letter::Q, stage))
}

// Puts a source last.
fn push_source(alloc: Global, raw: &mut RawNet, line: LadderLine) -> Result<(), OutOfMemory>
    requires { length raw.old < MOST_STATEMENTS }
    ensures { OnOk result (raw.new ≡ raw.old ++ input_stated (ladder_name line.letter line.stage) ∷ []) }
{
    let name = line.name(alloc)?;
    raw.push_input(NO_LINE, name.as_slice())
}

// Puts an output last.
fn push_output(alloc: Global, raw: &mut RawNet, line: LadderLine) -> Result<(), OutOfMemory>
    requires { length raw.old < MOST_STATEMENTS }
    ensures { OnOk result (raw.new ≡ raw.old ++ output_stated (ladder_name line.letter line.stage) ∷ []) }
{
    let name = line.name(alloc)?;
    raw.push_output(NO_LINE, name.as_slice())
}

// Puts the gates of all stages last.
fn push_gates(alloc: Global, raw: &mut RawNet, stages: u32) -> Result<(), OutOfMemory>
    requires few { stages ≤ MOST_STAGES }
    requires room { length raw.old ≤ MOST_LINES }
    ensures { OnOk result (raw.new ≡ raw.old ++ map gate_stated (ladder_gates stages)) }
{
    for before in 0..stages {
        push_stage_gates(alloc, raw, before + 1)?;
    }
    Ok(())
}

// Puts the gates of a stage last: its two branches, and the line that leaves it.
fn push_stage_gates(alloc: Global, raw: &mut RawNet, stage: u32) -> Result<(), OutOfMemory>
    requires numbered { 1 ≤ stage }
    requires room { length raw.old + 3 ≤ MOST_STATEMENTS }
    ensures { OnOk result (raw.new ≡ raw.old ++ map gate_stated (stage_gates stage)) }
{
    let before = LadderLine::new(Letter::X, stage - 1);
    let first = LadderLine::new(Letter::U, stage);
    let second = LadderLine::new(Letter::V, stage);
    push_gate(
        alloc,
        raw,
        first,
        GateKind::And,
        before,
        LadderLine::new(Letter::P, stage),
    )?;
    push_gate(
        alloc,
        raw,
        second,
        GateKind::And,
        before,
        LadderLine::new(Letter::Q, stage),
    )?;
    push_gate(
        alloc,
        raw,
        LadderLine::new(Letter::X, stage),
        GateKind::Or,
        first,
        second,
    )
}

// Puts a gate of two pins last.
fn push_gate(
    alloc: Global,
    raw: &mut RawNet,
    line: LadderLine,
    kind: GateKind,
    first: LadderLine,
    second: LadderLine,
) -> Result<(), OutOfMemory>
    requires two { IsFanIn kind 2 }
    requires room { length raw.old < MOST_STATEMENTS }
    ensures { OnOk result (raw.new ≡ raw.old ++ gate_stated (two_pin_gate (ladder_name line.letter line.stage) kind
        (ladder_name first.letter first.stage) (ladder_name second.letter second.stage)) ∷ []) }
{
    let name = line.name(alloc)?;
    let first = first.name(alloc)?;
    let second = second.name(alloc)?;
    raw.push_gate(
        NO_LINE,
        name.as_slice(),
        kind,
        &[first.as_slice(), second.as_slice()],
    )
}
