// What a delay model gives a replay: the wave of each gate.
ghost use Rattle.std.specs.Prelude.{◌≡◌, ◌<◌, ◌≤◌, ℕ, length, All, IfOk, IfErr};
ghost use Rattle.pd_base.specs.Pair.{Vectors};
ghost use Rattle.netlist.specs.Circuit.{Circuit, gate_count, line_count};
ghost use Rattle.netlist.specs.Lawful.{IsCircuit};
ghost use Rattle.netlist.specs.Waves.{PinCopy, wave_under};
ghost use Rattle.delay_replay.specs.declared.gate.TheConstants.{MOST_CHANGES};
ghost use Rattle.delay_replay.specs.Changes.{AreChangesOf, Changes, ChangesOver, IsBounded};
ghost use Rattle.delay_replay.specs.GateWaves.{RefusesWave, gate_wave, line_wave};

use crate::{Wave, WaveFault};
use netlist::Netlist;
use pd_base::GateId;
use std::alloc::Global;

/// The delays of all pins of a netlist, as a replay sees them.
pub trait DelayModel {
    /// When they fit a circuit.
    ghost fits: { Self → Circuit → Type 0 };

    /// What each pin makes of the wave of its line.
    ghost copy: { Self → Circuit → PinCopy };

    /// The wave of a gate out of the waves of all lines.
    fn wave_of_gate(
        &self,
        alloc: Global,
        net: &Netlist,
        gate: GateId,
        waves: &[Wave],
    ) -> Result<Wave, WaveFault>
        requires fits { fits self.now net.now }
        requires gate { gate.0 < gate_count net.now }
        requires one_each { length waves.now ≡ line_count net.now }
        requires bounded { All IsBounded waves.now }
        ensures wave { IfOk result (AreChangesOf (gate_wave (copy self.now net.now) net.now gate.0 (line_wave waves.now))) }
        ensures few { IfOk result (λ wave. length wave.times ≤ MOST_CHANGES) }
        ensures refused { IfErr result (RefusesWave (gate_wave (copy self.now net.now) net.now gate.0 (line_wave waves.now))) };
}
