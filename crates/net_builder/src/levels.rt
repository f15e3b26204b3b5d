// The levels of all lines, and the gates that have none because of a loop, in one pass from the sources on: a gate gets its
// level as soon as all gates that it reads have theirs.
ghost use Rattle.std.specs.Prelude.{◌≡◌, ◌+◌, ◌≤◌, length, IfOk, IfErr, MatchOption};
ghost use Rattle.netlist.specs.Circuit.{Circuit};
ghost use Rattle.netlist.specs.Lawful.{IsLoopFree};
ghost use Rattle.netlist.specs.Levels.{line_levels};
ghost use Rattle.netlist.specs.declared.limits.TheConstants.{MOST_LINES};
ghost use Rattle.net_builder.specs.Faults.{MayFault};
ghost use Rattle.net_builder.specs.Progress.{AllGiven, IsFirstWithout};
ghost use Rattle.net_builder.specs.Wiring.{FitsLines, IsWired, NamesReaders};

use crate::progress::Progress;
use pd_base::{FlatLists, GateId, LineId, OutOfMemory, PinRef};
use std::alloc::Global;

/// Why a circuit has no levels.
#[derive(Clone, Copy)]
pub(crate) enum LevelFault {
    /// The gate of the least number that lies on a loop or is fed by one.
    Loop(GateId),
    /// Memory ran out.
    NoMemory(OutOfMemory),
}

impl From<OutOfMemory> for LevelFault {
    ghost use Rattle.net_builder.specs.declared.levels.LevelFault.TheVariants.{NoMemory};

    ghost from_gives = { λ refused fault. fault ≡ NoMemory refused };

    fn from(refused: OutOfMemory) -> LevelFault {
        LevelFault::NoMemory(refused)
    }
}

/// The levels of all lines, by line: 0 for a source, and for a gate one more than the greatest of the lines that it reads.
/// `pins` has the lines that the pins of each gate read, by gate, and `fanouts` the pins that read each line, by line.
/// `Loop` comes exactly where the circuit has a loop, and names the first gate that is on one or is fed by one; `NoMemory`
/// may come in place of any answer.
pub(crate) fn levels_of(
    alloc: Global,
    sources: u32,
    pins: &FlatLists<LineId>,
    fanouts: &FlatLists<PinRef>,
) -> Result<Vec<u32>, LevelFault>
    requires fits { FitsLines (sources + length pins.now) pins.now }
    requires readers { NamesReaders (sources + length pins.now) pins.now fanouts.now }
    ensures levels { IfOk result (λ levels. (c : Circuit)
        → IsWired c (sources + length pins.now) pins.now → levels.items ≡ line_levels c) }
    ensures loop_free { IfOk result (λ levels. (c : Circuit)
        → IsWired c (sources + length pins.now) pins.now → IsLoopFree c) }
    ensures refused { IfErr result (λ fault. (c : Circuit)
        → IsWired c (sources + length pins.now) pins.now → MayFault c fault) }
{
    let mut progress = Progress::start(alloc, sources, pins)?;
    while let Some(gate) = progress.ready.pop() {
        progress.place(sources, pins, fanouts, gate)?;
    }
    let Progress { levels, .. } = progress;
    match first_without(sources, levels.as_slice()) {
        Some(gate) => Err(LevelFault::Loop(gate)),
        None => Ok(levels),
    }
}

// The first gate that has no level.
fn first_without(sources: u32, levels: &[u32]) -> Option<GateId>
    requires { length levels.now ≤ MOST_LINES }
    ensures { MatchOption result (AllGiven sources levels.now)
        (λ gate. IsFirstWithout sources levels.now gate.0) }
{
    for line in sources as usize..levels.len() {
        if levels[line] == 0 {
            return Some(GateId(line as u32 - sources));
        }
    }
    None
}
