// How far a pass over the gates has come: the levels given so far, how many pins of each gate still wait for a level, and
// the gates that may be given theirs.
ghost use Rattle.std.specs.Prelude.{◌≡◌, ℕ, ◌+◌, ◌<◌, ◌≤◌, [], ◌∷◌, ◌++◌, length, sum, sum_by, All, Contains, IfOk, OnOk, slice_index, slice_index_or};
ghost use Rattle.netlist.specs.Greatest.{greatest};
ghost use Rattle.netlist.specs.declared.limits.TheConstants.{MOST_LINES, MOST_PINS};
ghost use Rattle.net_builder.specs.Progress.{AreReleased, WaitsForNone, IsProgress, levels_at, one_of_gate};
ghost use Rattle.net_builder.specs.Wiring.{FitsLines, NamesReaders, times_named};

use pd_base::{FlatLists, GateId, LineId, OutOfMemory, PinRef};
use std::alloc::Global;

// The levels of lines so far, 0 for a gate that has none; how many pins of each gate wait; and gates that do not.
#[derive(Drop)]
pub(crate) struct Progress {
    pub(crate) levels: Vec<u32>,
    pub(crate) waits: Vec<u32>,
    pub(crate) ready: Vec<GateId>,
}

impl Progress {
    // No gate has a level.
    pub(crate) fn start(
        alloc: Global,
        sources: u32,
        pins: &FlatLists<LineId>,
    ) -> Result<Progress, OutOfMemory>
        requires { FitsLines (sources + length pins.now) pins.now }
        ensures { IfOk result (λ progress. IsProgress sources pins.now
            progress.levels.items progress.waits.items progress.ready.items) }
    {
        let waits = gate_pins(alloc, sources, pins)?;
        Ok(Progress {
            levels: vec![in alloc; 0; sources as usize + pins.len()]?,
            ready: idle_gates(alloc, waits.as_slice())?,
            waits,
        })
    }

    // Gives its level to a gate that was on the list of ready gates.
    pub(crate) fn place(
        &mut self,
        sources: u32,
        pins: &FlatLists<LineId>,
        fanouts: &FlatLists<PinRef>,
        gate: GateId,
    ) -> Result<(), OutOfMemory>
        requires fits { FitsLines (sources + length pins.now) pins.now }
        requires readers { NamesReaders (sources + length pins.now) pins.now fanouts.now }
        requires progress { IsProgress sources pins.now
            self.old.levels.items self.old.waits.items (self.old.ready.items ++ gate ∷ []) }
        ensures progress { OnOk result (IsProgress sources pins.now
            self.new.levels.items self.new.waits.items self.new.ready.items) }
        ensures less_work { OnOk result (sum self.new.waits.items + length self.new.ready.items
            ≤ sum self.old.waits.items + length self.old.ready.items) }
    {
        let line = (sources + gate.0) as usize;
        if self.levels[line] == 0 {
            let below = highest(self.levels.as_slice(), pins.list(gate.0 as usize));
            self.levels[line] = below + 1;
            release(
                self.waits.as_mut_slice(),
                &mut self.ready,
                fanouts.list(line),
            )?;
        }
        Ok(())
    }
}

// How many pins of each gate read gates.
fn gate_pins(alloc: Global, sources: u32, pins: &FlatLists<LineId>) -> Result<Vec<u32>, OutOfMemory>
    requires { FitsLines (sources + length pins.now) pins.now }
    ensures length { IfOk result (λ waits. length waits.items ≡ length pins.now) }
    ensures counts { IfOk result (λ waits. (gate : ℕ) → gate < length pins.now → slice_index waits.items gate
        ≡ sum_by (λ line. one_of_gate sources line.0) (slice_index_or pins.now gate [])) }
{
    let mut waits = Vec::new(alloc);
    for gate in 0..pins.len() {
        waits.push(count_gates(sources, pins.list(gate)))?;
    }
    Ok(waits)
}

// How many of these pins read gates.
fn count_gates(sources: u32, reads: &[LineId]) -> u32
    requires { length reads.now ≤ MOST_PINS }
    ensures { result ≡ sum_by (λ line. one_of_gate sources line.0) reads.now }
{
    let mut count = 0;
    for line in reads {
        if line.0 >= sources {
            count += 1;
        }
    }
    count
}

// The gates of which no pin waits.
fn idle_gates(alloc: Global, waits: &[u32]) -> Result<Vec<GateId>, OutOfMemory>
    requires { length waits.now ≤ MOST_LINES }
    ensures idle { IfOk result (λ ready. All (WaitsForNone waits.now) ready.items) }
    ensures whole { IfOk result (λ ready. (gate : ℕ) → gate < length waits.now → slice_index waits.now gate ≡ 0
        → Contains ready.items (record { 0 = gate })) }
{
    let mut ready = Vec::new(alloc);
    for (gate, left) in waits.iter().enumerate() {
        if *left == 0 {
            ready.push(GateId(gate as u32))?;
        }
    }
    Ok(ready)
}

// The greatest level of the lines that these pins read, 0 where there are none.
fn highest(levels: &[u32], reads: &[LineId]) -> u32
    requires { All (λ line. line.0 < length levels.now) reads.now }
    ensures { result ≡ greatest (levels_at levels.now reads.now) }
{
    let mut highest = 0;
    for line in reads {
        highest = highest.max(levels[line.0 as usize]);
    }
    highest
}

// Ends the wait of these pins.
fn release(
    waits: &mut [u32],
    ready: &mut Vec<GateId>,
    readers: &[PinRef],
) -> Result<(), OutOfMemory>
    requires in_range { All (λ pin. pin.gate.0 < length waits.old) readers.now }
    requires waiting { (gate : ℕ) → gate < length waits.old
        → times_named gate readers.now ≤ slice_index waits.old gate }
    ensures { OnOk result (AreReleased readers.now waits.old ready.old.items waits.new ready.new.items) }
{
    for pin in readers {
        release_one(waits, ready, *pin)?;
    }
    Ok(())
}

// Ends the wait of one pin.
fn release_one(waits: &mut [u32], ready: &mut Vec<GateId>, pin: PinRef) -> Result<(), OutOfMemory>
    requires in_range { pin.gate.0 < length waits.old }
    requires waiting { 0 < slice_index waits.old pin.gate.0 }
    ensures { OnOk result (AreReleased (pin ∷ []) waits.old ready.old.items waits.new ready.new.items) }
{
    let left = waits[pin.gate.0 as usize] - 1;
    waits[pin.gate.0 as usize] = left;
    if left == 0 {
        ready.push(pin.gate)?;
    }
    Ok(())
}
