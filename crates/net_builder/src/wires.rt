// The wires of the circuit: which lines its pins read, which pins read its lines, and the levels of its lines.
ghost use Rattle.std.specs.Prelude.{◌≡◌, ◌+◌, ◌≤◌, length, map, IfOk, IfErr};
ghost use Rattle.netlist.specs.declared.limits.TheConstants.{MOST_LEVELS};
ghost use Rattle.netlist.specs.Circuit.{source_count};
ghost use Rattle.netlist.specs.Description.{AreNamed, described, gates, line_named, names_by_line};
ghost use Rattle.netlist.specs.Lawful.{IsLoopFree};
ghost use Rattle.netlist.specs.Levels.{greatest_level, line_levels};
ghost use Rattle.net_builder.specs.Building.{AreWires};
ghost use Rattle.net_builder.specs.Wiring.{NamesReaders};
ghost use Rattle.net_builder.specs.Refusals.{MayRefuse};

use crate::fanouts::fanouts_of;
use crate::levels::{LevelFault, levels_of};
use crate::measures::first_over;
use crate::places::mention_of_gate;
use crate::{BuildFault, RawNet};
use pd_base::{FlatLists, LineId, PinRef};
use std::alloc::Global;

/// What is known of the circuit's lines once there is no reason to refuse it.
#[derive(Drop)]
pub(crate) struct Wires {
    pub(crate) fanouts: FlatLists<PinRef>,
    pub(crate) levels: Vec<u32>,
}

/// The fan-outs and levels of the lines, of so many sources and of gates with these pins; or the first gate that is looped or,
/// else, too deep.
pub(crate) fn wires_of(
    alloc: Global,
    raw: &RawNet,
    sources: u32,
    pins: &FlatLists<LineId>,
) -> Result<Wires, BuildFault>
    requires named { AreNamed raw.now }
    requires sources { sources ≡ source_count (described raw.now) }
    requires pins { pins.now ≡ map (λ gate. map (line_named (names_by_line raw.now)) gate.arguments) (gates raw.now) }
    ensures wires { IfOk result (AreWires (described raw.now)) }
    ensures refused { IfErr result (MayRefuse raw.now) }
{
    let fanouts = fanouts_of(alloc, sources + pins.len() as u32, pins)?;
    let levels = loop_free_levels(alloc, raw, sources, pins, &fanouts)?;
    check_depth(alloc, raw, sources, levels.as_slice())?;
    Ok(Wires { fanouts, levels })
}

// The levels of the lines, or the first looped gate.
fn loop_free_levels(
    alloc: Global,
    raw: &RawNet,
    sources: u32,
    pins: &FlatLists<LineId>,
    fanouts: &FlatLists<PinRef>,
) -> Result<Vec<u32>, BuildFault>
    requires named { AreNamed raw.now }
    requires sources { sources ≡ source_count (described raw.now) }
    requires pins { pins.now ≡ map (λ gate. map (line_named (names_by_line raw.now)) gate.arguments) (gates raw.now) }
    requires readers { NamesReaders (sources + length pins.now) pins.now fanouts.now }
    ensures levels { IfOk result (λ levels. levels.items ≡ line_levels (described raw.now)) }
    ensures loop_free { IfOk result (λ _. IsLoopFree (described raw.now)) }
    ensures refused { IfErr result (MayRefuse raw.now) }
{
    match levels_of(alloc, sources, pins, fanouts) {
        Ok(levels) => Ok(levels),
        Err(LevelFault::NoMemory(refused)) => Err(BuildFault::NoMemory(refused)),
        Err(LevelFault::Loop(gate)) => {
            let (line, name) = mention_of_gate(alloc, raw, gate.0)?;
            Err(BuildFault::Loop(line, name))
        }
    }
}

// Looks for the first gate whose level is over the limit.
fn check_depth(alloc: Global, raw: &RawNet, sources: u32, levels: &[u32]) -> Result<(), BuildFault>
    requires named { AreNamed raw.now }
    requires sources { sources ≡ source_count (described raw.now) }
    requires levels { levels.now ≡ line_levels (described raw.now) }
    requires loop_free { IsLoopFree (described raw.now) }
    ensures few_levels { IfOk result (λ _. greatest_level (described raw.now) ≤ MOST_LEVELS) }
    ensures refused { IfErr result (MayRefuse raw.now) }
{
    let Some(deep) = first_over(levels) else {
        return Ok(());
    };
    let (line, name) = mention_of_gate(alloc, raw, deep as u32 - sources)?;
    Err(BuildFault::TooDeep(line, name))
}
