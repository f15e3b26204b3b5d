// The waves of all lines, where each pin delays a rise and a fall of its line differently.
ghost use Rattle.std.specs.Prelude.{◌≡◌, length, All, IfOk, IfErr};
ghost use Rattle.netlist.specs.Circuit.{source_count};
ghost use Rattle.delay_annotation.specs.Annotation.{delays_of};
ghost use Rattle.delay_annotation.specs.RiseFall.{BothFit, rise_fall_of};
ghost use Rattle.delay_replay.specs.ChangeLimits.{HasFewOf, RefusesWaves};
ghost use Rattle.delay_replay.specs.Changes.{IsBounded};
ghost use Rattle.delay_replay.specs.LineWaves.{AreLineWaves, AreWavesOf};
ghost use Rattle.rise_fall.specs.Showing.{ShowsLatePaths};
ghost use Rattle.rise_fall.specs.Waves.{rise_fall_copy, rise_fall_wave};

use crate::gate::gate_wave;
use delay_annotation::RiseFall;
use delay_replay::{DelayModel, ReplayFault, Wave, WaveFault, replay_with};
use netlist::Netlist;
use pd_base::{GateId, Pair};
use std::alloc::Global;

// Rise and fall delays, as a replay sees them.
#[derive(Clone, Copy)]
struct TwoDelays<'n> {
    delays: &'n RiseFall,
}

impl DelayModel for TwoDelays<'_> {
    ghost fits = { λ d c. BothFit c d.delays.now };

    ghost copy = { λ d c. rise_fall_copy (rise_fall_of c d.delays.now) };

    fn wave_of_gate(
        &self,
        alloc: Global,
        net: &Netlist,
        gate: GateId,
        waves: &[Wave],
    ) -> Result<Wave, WaveFault> {
        gate_wave(alloc, net, self.delays, gate, waves)
    }
}

/// The waves of all lines under a pair of vectors, one per line by line number. The pair has one bit per source in the order of
/// the sources. Refused as `replay` is: at the first line in rank order, the sources before all gates, that has more than
/// `MOST_CHANGES` changes, or with which there are more than `MOST_CHANGES_OF_ALL` in all. Where the pair is a robust test for a
/// path, the end of that path has another value than its final one at each time below the path's length for the final values. Where
/// both delays of each pin are the same, the waves are those of one delay.
pub fn replay_rise_fall(
    alloc: Global,
    net: &Netlist,
    delays: &RiseFall,
    pair: &Pair,
) -> Result<Vec<Wave>, ReplayFault>
    requires fits { BothFit net.now delays.now }
    requires bits { length pair.now.first ≡ source_count net.now }
    ensures waves { IfOk result (λ waves. AreLineWaves net.now
        (rise_fall_wave net.now pair.now (rise_fall_of net.now delays.now)) waves.items) }
    ensures late { IfOk result (λ waves. ShowsLatePaths net.now pair.now (rise_fall_of net.now delays.now) waves.items) }
    ensures one_delay { delays.now.rises ≡ delays.now.falls
        → IfOk result (λ waves. AreWavesOf net.now pair.now (delays_of net.now delays.now.rises) waves.items) }
    ensures bounded { IfOk result (λ waves. All IsBounded waves.items) }
    ensures few { IfOk result (λ waves. HasFewOf net.now (rise_fall_wave net.now pair.now (rise_fall_of net.now delays.now))) }
    ensures refused { IfErr result (RefusesWaves net.now (rise_fall_wave net.now pair.now (rise_fall_of net.now delays.now))) }
{
    // A netlist knows itself as a circuit.
    let one_each = pair.first().len() == net.sources() as usize;
    prove!(one_each);
    replay_with(alloc, net, &TwoDelays { delays }, pair)
}
