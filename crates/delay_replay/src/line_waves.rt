// The waves of all lines under a pair of vectors: the sources first, then gate by gate in rank order, so that the waves of the
// lines that a gate reads are there when its turn comes. What is read of the waves is in settling.rt.
ghost use Rattle.std.specs.Prelude.{◌≡◌, ◌+◌, ◌*◌, ◌^◌, ◌<◌, ◌≤◌, length, sum_by, All, IfOk, IfErr, OnOk};
ghost use Rattle.netlist.specs.Circuit.{source_count, gate_count, gate_line, line_count};
ghost use Rattle.netlist.specs.Waves.{wave_under};
ghost use Rattle.netlist.specs.declared.limits.TheConstants.{MOST_LEVELS};
ghost use Rattle.delay_annotation.specs.Annotation.{delays_of, Fits};
ghost use Rattle.delay_annotation.specs.declared.delays.TheConstants.{MOST_DELAY};
ghost use Rattle.delay_replay.specs.Changes.{AreChangesOf, IsBounded};
ghost use Rattle.delay_replay.specs.GateWaves.{gate_wave, line_wave};
ghost use Rattle.delay_replay.specs.LatestChange.{AreGreatestLengths, ComeBy};
ghost use Rattle.delay_replay.specs.LineWaves.{AreLineWaves, AreLinesBounded, AreWavesOf, GoBetweenValues};
ghost use Rattle.delay_replay.specs.ChangeLimits.{HasFewChanges, HasFewOf, RefusesReplay, RefusesWaves};
ghost use Rattle.delay_replay.specs.ReplayTurns.{AreSourceWaves, AddsWaves, RefusesGate};

use crate::{DelayModel, MOST_CHANGES, Wave, WaveFault, source_wave};
use delay_annotation::Delays;
use netlist::Netlist;
use pd_base::{GateId, LineId, OutOfMemory, Pair};
use std::alloc::Global;

/// The most changes that the waves of all lines may have together.
pub const MOST_CHANGES_OF_ALL: usize = 16_777_216;

/// Why a replay was not made.
#[derive(Clone, Copy, Drop)]
pub enum ReplayFault {
    /// The first line in rank order whose wave has more than `MOST_CHANGES` changes, or with which the lines up to it have more
    /// than `MOST_CHANGES_OF_ALL` together.
    TooManyChanges(LineId),
    /// Memory ran out.
    NoMemory(OutOfMemory),
}

impl From<OutOfMemory> for ReplayFault {
    ghost use Rattle.delay_replay.specs.declared.line_waves.ReplayFault.TheVariants.{NoMemory};

    ghost from_gives = { λ refused fault. fault ≡ NoMemory refused };

    fn from(refused: OutOfMemory) -> ReplayFault {
        ReplayFault::NoMemory(refused)
    }
}

/// The waves of all lines under a pair of vectors, one per line by line number. The pair has one bit per source in the order of
/// the sources. Each wave goes from its line's value under the first vector to that under the second, with all changes from
/// time 0 to the greatest sum of delays along the prefixes that end at the line. Refused at the first line in rank order, the
/// sources before all gates, that has more than `MOST_CHANGES` changes, or with which there are more than
/// `MOST_CHANGES_OF_ALL` in all.
pub fn replay(
    alloc: Global,
    net: &Netlist,
    delays: &Delays,
    pair: &Pair,
) -> Result<Vec<Wave>, ReplayFault>
    requires fits { Fits net.now delays.now }
    requires bits { length pair.now.first ≡ source_count net.now }
    ensures waves { IfOk result (λ waves. AreWavesOf net.now pair.now (delays_of net.now delays.now) waves.items) }
    ensures values { IfOk result (λ waves. GoBetweenValues net.now pair.now (delays_of net.now delays.now) waves.items) }
    ensures latest { IfOk result (λ waves. ComeBy net.now (delays_of net.now delays.now) (MOST_LEVELS * MOST_DELAY)) }
    ensures greatest { IfOk result (λ waves. AreGreatestLengths net.now (delays_of net.now delays.now)) }
    ensures bounded { IfOk result (λ waves. All IsBounded waves.items) }
    ensures few { IfOk result (λ waves. HasFewChanges net.now pair.now (delays_of net.now delays.now)) }
    ensures refused { IfErr result (RefusesReplay net.now pair.now (delays_of net.now delays.now)) }
{
    // A netlist knows itself as a circuit.
    let one_each = pair.first().len() == net.sources() as usize;
    prove!(one_each);
    replay_with(alloc, net, delays, pair)
}

/// The waves of all lines under a pair of vectors by any delay model, one per line by line number. Refused as `replay` is.
pub fn replay_with<M: DelayModel>(
    alloc: Global,
    net: &Netlist,
    delays: &M,
    pair: &Pair,
) -> Result<Vec<Wave>, ReplayFault>
    requires fits { M.fits delays.now net.now }
    requires bits { length pair.now.first ≡ source_count net.now }
    requires bounded { AreLinesBounded net.now (wave_under (M.copy delays.now net.now) net.now pair.now) }
    ensures waves { IfOk result (λ waves. AreLineWaves net.now (wave_under (M.copy delays.now net.now) net.now pair.now) waves.items) }
    ensures bounded { IfOk result (λ waves. All IsBounded waves.items) }
    ensures few { IfOk result (λ waves. HasFewOf net.now (wave_under (M.copy delays.now net.now) net.now pair.now)) }
    ensures refused { IfErr result (RefusesWaves net.now (wave_under (M.copy delays.now net.now) net.now pair.now)) }
{
    // A netlist knows itself as a circuit.
    let one_each = pair.first().len() == net.sources() as usize;
    prove!(one_each);
    let mut waves = source_waves(alloc, net, pair)?;
    let mut total = change_total(&waves);
    add_still_waves(alloc, net.gates(), &mut waves)?;
    for gate in net.order() {
        let wave = next_wave(alloc, net, delays, *gate, &waves, total)?;
        total += wave.changes().len();
        waves[net.line_of(*gate).0 as usize] = wave;
    }
    Ok(waves)
}

// The waves of the sources, by number.
fn source_waves(alloc: Global, net: &Netlist, pair: &Pair) -> Result<Vec<Wave>, OutOfMemory>
    requires { length pair.now.first ≡ source_count net.now }
    ensures { IfOk result (λ waves. AreSourceWaves net.now pair.now waves.items) }
{
    let first = pair.first();
    let second = pair.second();
    let mut waves = Vec::with_capacity(alloc, net.lines() as usize)?;
    for source in 0..first.len() {
        waves.push_reserved(source_wave(alloc, first[source], second[source])?);
    }
    Ok(waves)
}

// How many changes these waves have together.
fn change_total(waves: &[Wave]) -> usize
    requires { sum_by (λ wave. length wave.times) waves.now < 2 ^ 64 }
    ensures { result ≡ sum_by (λ wave. length wave.times) waves.now }
{
    let mut total = 0;
    for wave in waves {
        total += wave.changes().len();
    }
    total
}

// Adds a wave without changes for each gate, which stands for the gate's own until its turn.
fn add_still_waves(alloc: Global, gates: u32, waves: &mut Vec<Wave>) -> Result<(), OutOfMemory>
    ensures { OnOk result (AddsWaves gates waves.old.items waves.new.items) }
{
    for _ in 0..gates {
        waves.push(source_wave(alloc, false, false)?)?;
    }
    Ok(())
}

// The wave of the gate whose turn it is, where the lines before it have so many changes together.
fn next_wave<M: DelayModel>(
    alloc: Global,
    net: &Netlist,
    delays: &M,
    gate: GateId,
    waves: &[Wave],
    total: usize,
) -> Result<Wave, ReplayFault>
    requires fits { M.fits delays.now net.now }
    requires gate { gate.0 < gate_count net.now }
    requires one_each { length waves.now ≡ line_count net.now }
    requires bounded { All IsBounded waves.now }
    requires total { total ≤ MOST_CHANGES_OF_ALL }
    ensures wave { IfOk result (AreChangesOf (gate_wave (M.copy delays.now net.now) net.now gate.0 (line_wave waves.now))) }
    ensures few { IfOk result (λ wave. length wave.times ≤ MOST_CHANGES) }
    ensures few_of_all { IfOk result (λ wave. total + length wave.times ≤ MOST_CHANGES_OF_ALL) }
    ensures refused { IfErr result (RefusesGate
        (gate_wave (M.copy delays.now net.now) net.now gate.0 (line_wave waves.now)) (gate_line net.now gate.0) total) }
{
    let line = net.line_of(gate);
    let wave = match delays.wave_of_gate(alloc, net, gate, waves) {
        Ok(wave) => wave,
        Err(WaveFault::TooMany) => return Err(ReplayFault::TooManyChanges(line)),
        Err(WaveFault::NoMemory(refused)) => return Err(ReplayFault::NoMemory(refused)),
    };
    let over = total + wave.changes().len() > MOST_CHANGES_OF_ALL;
    if over {
        return Err(ReplayFault::TooManyChanges(line));
    }
    Ok(wave)
}
