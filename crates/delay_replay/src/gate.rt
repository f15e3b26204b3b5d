// The wave of a gate, made of the waves of the lines that its pins read, in one pass over their changes. Those of one time are
// taken together, and a change of the gate's value is counted before it is kept.
ghost use Rattle.std.specs.Prelude.{◌≡◌, ◌<◌, ◌≤◌, length, All, IfOk, IfErr};
ghost use Rattle.pd_base.specs.Memory.{out_of_memory};
ghost use Rattle.netlist.specs.Circuit.{gate_count, line_count};
ghost use Rattle.netlist.specs.Lawful.{IsFanIn};
ghost use Rattle.delay_annotation.specs.Annotation.{Fits};
ghost use Rattle.delay_replay.specs.Changes.{IsBounded, ChangesOver, AreChangesOf};
ghost use Rattle.delay_replay.specs.GateWaves.{RefusesWave, delayed_gate_wave};
ghost use Rattle.delay_replay.specs.PinCopies.{merged_wave};

use crate::Wave;
use crate::delay_model::DelayModel;
use crate::pin_changes::{PinWaves, is_before_all, pass, pin_waves};
use crate::pin_copies::{LaterWaves, PinCopies};
use crate::pin_count::{counted, value_of_count};
use delay_annotation::Delays;
use netlist::{GateKind, Netlist};
use pd_base::{GateId, OutOfMemory};
use std::alloc::{AllocFailed, Global};

/// The most changes of a wave that a gate may have.
pub const MOST_CHANGES: usize = 65_536;

/// Why a gate's wave was not made.
#[derive(Clone, Copy, Drop)]
pub enum WaveFault {
    /// The wave changes more than `MOST_CHANGES` times.
    TooMany,
    /// Memory ran out.
    NoMemory(OutOfMemory),
}

impl From<OutOfMemory> for WaveFault {
    ghost use Rattle.delay_replay.specs.declared.gate.WaveFault.TheVariants.{NoMemory};

    ghost from_gives = { λ refused fault. fault ≡ NoMemory refused };

    fn from(refused: OutOfMemory) -> WaveFault {
        WaveFault::NoMemory(refused)
    }
}

impl<T: Drop> From<AllocFailed<T>> for WaveFault {
    ghost use Rattle.delay_replay.specs.declared.gate.WaveFault.TheVariants.{NoMemory};

    ghost from_gives = { λ _ fault. fault ≡ NoMemory out_of_memory };

    fn from(error: AllocFailed<T>) -> WaveFault {
        WaveFault::NoMemory(error.into())
    }
}

/// The wave of a gate out of the waves of all lines, of which it looks at those that its pins read: at each time the gate's
/// function of what its pins see, each its line's wave later by the pin's delay. `waves` has one wave per line, by line number,
/// and none changes after `LATEST_CHANGE`. Refused with `TooMany` where the gate's wave has more changes than `MOST_CHANGES`.
pub fn gate_wave(
    alloc: Global,
    net: &Netlist,
    delays: &Delays,
    gate: GateId,
    waves: &[Wave],
) -> Result<Wave, WaveFault>
    requires fits { Fits net.now delays.now }
    requires gate { gate.0 < gate_count net.now }
    requires one_each { length waves.now ≡ line_count net.now }
    requires bounded { All IsBounded waves.now }
    ensures wave { IfOk result (AreChangesOf (delayed_gate_wave net.now delays.now gate.0 waves.now)) }
    ensures few { IfOk result (λ wave. length wave.times ≤ MOST_CHANGES) }
    ensures not_over { IfOk result (λ wave. ¬ ChangesOver (delayed_gate_wave net.now delays.now gate.0 waves.now) MOST_CHANGES) }
    ensures refused { IfErr result (RefusesWave (delayed_gate_wave net.now delays.now gate.0 waves.now)) }
{
    let lines = net.lines() as usize;
    prove!(waves.len() == lines);
    let copies = LaterWaves {
        delays: delays.of_gate(net, gate),
        lines: net.pins(gate),
        waves,
    };
    merge(alloc, net.kind(gate), &copies)
}

impl DelayModel for Delays {
    ghost use Rattle.netlist.specs.Waves.{delay_copy};
    ghost use Rattle.delay_annotation.specs.Annotation.{Fits, delays_of};

    ghost fits = { λ d c. Fits c d };

    ghost copy = { λ d c. delay_copy (delays_of c d) };

    fn wave_of_gate(
        &self,
        alloc: Global,
        net: &Netlist,
        gate: GateId,
        waves: &[Wave],
    ) -> Result<Wave, WaveFault> {
        gate_wave(alloc, net, self, gate, waves)
    }
}

/// The wave of a gate of this kind out of what its pins see, in one pass over their changes. Refused with `TooMany` where it has
/// more changes than `MOST_CHANGES`.
pub fn merge<P: PinCopies>(alloc: Global, kind: GateKind, copies: &P) -> Result<Wave, WaveFault>
    requires can { P.can_read copies.now }
    requires fan_in { IsFanIn kind (length (P.copies copies.now)) }
    ensures wave { IfOk result (AreChangesOf (merged_wave kind (P.copies copies.now))) }
    ensures few { IfOk result (λ wave. length wave.times ≤ MOST_CHANGES) }
    ensures not_over { IfOk result (λ wave. ¬ ChangesOver (merged_wave kind (P.copies copies.now)) MOST_CHANGES) }
    ensures refused { IfErr result (RefusesWave (merged_wave kind (P.copies copies.now))) }
{
    let pins = copies.pins();
    let PinWaves {
        mut ones,
        mut nexts,
    } = pin_waves(alloc, copies)?;
    let mut wave = Wave::constant(alloc, value_of_count(kind, pins, ones));
    while let Some(soonest) = nexts.peek() {
        let passed = *soonest;
        pass(copies, &mut nexts, passed);
        ones = counted(ones, passed.rises);
        if is_before_all(passed.time, &nexts) {
            wave.turn(passed.time, value_of_count(kind, pins, ones))?;
        }
    }
    Ok(wave)
}
