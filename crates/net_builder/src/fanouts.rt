// The fan-outs of all lines, in two passes over the pins: the first counts the readers of each line, so that each list has the
// room that it needs, and the second adds each pin to the list of the line that it reads.
ghost use Rattle.std.specs.Prelude.{◌≡◌, ℕ, ◌+◌, ◌<◌, ◌≤◌, [], ◌++◌, length, sum, sum_by, slice_index, slice_index_or, All, IfOk};
ghost use Rattle.netlist.specs.Circuit.{Circuit};
ghost use Rattle.netlist.specs.Pins.{AreFanouts};
ghost use Rattle.netlist.specs.declared.limits.TheConstants.{MOST_PINS};
ghost use Rattle.net_builder.specs.Readers.{own_readers};
ghost use Rattle.net_builder.specs.Wiring.{FitsLines, IsWired, NamesReaders, times_read};

use crate::filling::Filling;
use pd_base::{FlatLists, GateId, LineId, OutOfMemory, PinRef};
use std::alloc::Global;

/// The fan-outs of so many lines, by line: the pins that read each, by gate and then by pin. `pins` has the lines that the
/// pins of each gate read, by gate. The one error is that memory ran out.
pub(crate) fn fanouts_of(
    alloc: Global,
    lines: u32,
    pins: &FlatLists<LineId>,
) -> Result<FlatLists<PinRef>, OutOfMemory>
    requires { FitsLines lines pins.now }
    ensures fanouts { IfOk result (λ fanouts. (c : Circuit) → IsWired c lines pins.now → AreFanouts c fanouts) }
    ensures readers { IfOk result (λ fanouts. NamesReaders lines pins.now fanouts) }
{
    let mut filling = Filling::with_rooms(alloc, count_readers(alloc, lines, pins)?.as_slice())?;
    for gate in 0..pins.len() {
        add_readers(&mut filling, GateId(gate as u32), pins.list(gate));
    }
    filling.lists(alloc)
}

// How many pins read each of so many lines.
fn count_readers(
    alloc: Global,
    lines: u32,
    pins: &FlatLists<LineId>,
) -> Result<Vec<u32>, OutOfMemory>
    requires { FitsLines lines pins.now }
    ensures length { IfOk result (λ counts. length counts.items ≡ lines) }
    ensures counts { IfOk result (λ counts. (line : ℕ) → line < lines
        → slice_index counts.items line ≡ sum_by (times_read line) pins.now) }
    ensures total { IfOk result (λ counts. sum counts.items ≡ sum_by length pins.now) }
{
    let mut counts = vec![in alloc; 0u32; lines as usize]?;
    for gate in 0..pins.len() {
        count_reads(counts.as_mut_slice(), pins.list(gate));
    }
    Ok(counts)
}

// Counts the pins of a gate, each for the line that it reads.
fn count_reads(counts: &mut [u32], reads: &[LineId])
    requires in_range { All (λ line. line.0 < length counts.old) reads.now }
    requires few { sum counts.old + length reads.now ≤ MOST_PINS }
    ensures counts { (line : ℕ) → slice_index counts.new line ≡ slice_index counts.old line + times_read line reads.now }
    ensures total { sum counts.new ≡ sum counts.old + length reads.now }
{
    for line in reads {
        counts[line.0 as usize] += 1;
    }
}

// Adds the pins of a gate, each to the list of the line that it reads.
fn add_readers(filling: &mut Filling, gate: GateId, reads: &[LineId])
    requires in_range { All (λ line. line.0 < length filling.old.lists) reads.now }
    requires few { length reads.now ≤ MOST_PINS }
    requires room { (line : ℕ) → line < length filling.old.lists
        → length (slice_index_or filling.old.lists line []) + times_read line reads.now ≤ slice_index filling.old.rooms line }
    ensures count { length filling.new.lists ≡ length filling.old.lists }
    ensures rooms { filling.new.rooms ≡ filling.old.rooms }
    ensures added { (line : ℕ) → line < length filling.old.lists → slice_index_or filling.new.lists line []
        ≡ slice_index_or filling.old.lists line [] ++ own_readers gate.0 0 reads.now line }
{
    for (pin, line) in reads.iter().enumerate() {
        filling.push(
            line.0 as usize,
            PinRef {
                gate,
                pin: pin as u32,
            },
        );
    }
}
