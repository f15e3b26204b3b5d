// What is read of the waves of all lines at a time: samples of the observed lines, and whether the sides of a path have
// settled. Nothing here takes memory. The waves are made in line_waves.rt.
ghost use Rattle.std.specs.Prelude.{◌≡◌, ℕ, ◌+◌, ◌*◌, ◌<◌, ◌≤◌, ◌↔◌, pos, ◌-ℤ◌, length, IsTrue};
ghost use Rattle.pd_base.specs.Pair.{Vectors};
ghost use Rattle.netlist.specs.Circuit.{gate_count, line_count, observed_lines, pins_at};
ghost use Rattle.netlist.specs.Waves.{Wave as LineWave};
ghost use Rattle.netlist.specs.Lawful.{IsCircuit};
ghost use Rattle.netlist.specs.Paths.{IsPrefix};
ghost use Rattle.netlist.specs.Meaning.{IsSettled};
ghost use Rattle.netlist.specs.declared.limits.TheConstants.{MOST_LEVELS};
ghost use Rattle.delay_annotation.specs.Annotation.{delays_of, Fits};
ghost use Rattle.delay_annotation.specs.declared.delays.TheConstants.{MOST_DELAY};
ghost use Rattle.delay_replay.specs.Changes.{wave_at};
ghost use Rattle.delay_replay.specs.LineWaves.{AreLineWaves, AreWavesOf};
ghost use Rattle.delay_replay.specs.Settling.{samples, observed_under, IsOwnOrSettled, HaveSidesSettled, HaveSettled};

use crate::Wave;
use delay_annotation::Delays;
use netlist::Netlist;
use pd_base::{Path, PinRef};

/// Fills in what the observed lines have at a time, in the order of `observed`. `waves` has one wave per line, by line number,
/// and `out` one place per observed line. Takes no memory.
pub fn sample(net: &Netlist, waves: &[Wave], time: i64, out: &mut [bool])
    requires one_each { length waves.now ≡ line_count net.now }
    requires places { length out.old ≡ length (observed_lines net.now) }
    ensures samples { out.new ≡ samples net.now waves.now time }
    ensures of_waves { (wave : ℕ → LineWave) → AreLineWaves net.now wave waves.now
        → out.new ≡ observed_under net.now wave time }
{
    for (place, line) in net.observed().iter().enumerate() {
        out[place] = waves[line.0 as usize].at(time);
    }
}

/// Whether the sides of a path, or of a prefix, have settled at a time: at each step each other pin of the gate sees, at the
/// time less the delays of the steps behind the gate, the value that its line's wave has behind all its changes. `waves` has
/// one wave per line, by line number. Takes no memory.
pub fn settled(net: &Netlist, delays: &Delays, waves: &[Wave], path: &Path, time: i64) -> bool
    requires fits { Fits net.now delays.now }
    requires one_each { length waves.now ≡ line_count net.now }
    requires prefix { IsPrefix net.now path.now }
    ensures exactly { IsTrue result ↔ HaveSettled net.now (delays_of net.now delays.now) waves.now time path.now.steps }
    ensures of_waves { (pair : Vectors) → AreWavesOf net.now pair (delays_of net.now delays.now) waves.now
        → IsTrue result ↔ IsSettled net.now path.now pair (delays_of net.now delays.now) time }
{
    let lines = net.lines() as usize;
    prove!(waves.len() == lines);
    let steps = path.steps();
    let mut behind = 0;
    for place in (0..steps.len()).rev() {
        let step = steps[place];
        if !sides_settled(net, delays, waves, step, time, behind) {
            return false;
        }
        behind += u64::from(delays.delay(net, step));
    }
    true
}

// Whether each other pin of the step's gate has settled, as the gate sees it this much before the time.
fn sides_settled(
    net: &Netlist,
    delays: &Delays,
    waves: &[Wave],
    step: PinRef,
    time: i64,
    behind: u64,
) -> bool
    requires circuit { IsCircuit net.now }
    requires fits { Fits net.now delays.now }
    requires one_each { length waves.now ≡ line_count net.now }
    requires gate { step.gate.0 < gate_count net.now }
    requires behind { behind ≤ MOST_LEVELS * MOST_DELAY }
    ensures { IsTrue result ↔ HaveSidesSettled net.now (delays_of net.now delays.now) waves.now (time -ℤ pos behind) step }
{
    for (pin, line) in net.pins(step.gate).iter().enumerate() {
        let wave = &waves[line.0 as usize];
        if !pin_settled(net, delays, wave, step, pin as u32, time, behind) {
            return false;
        }
    }
    true
}

// Whether a pin of the step's gate is the step's own, or has settled, as the gate sees it this much before the time: the wave
// of its line then has the value that it has behind all its changes.
fn pin_settled(
    net: &Netlist,
    delays: &Delays,
    wave: &Wave,
    step: PinRef,
    pin: u32,
    time: i64,
    behind: u64,
) -> bool
    requires fits { Fits net.now delays.now }
    requires gate { step.gate.0 < gate_count net.now }
    requires pin { pin < length (pins_at net.now step.gate.0) }
    requires behind { behind ≤ MOST_LEVELS * MOST_DELAY }
    ensures { IsTrue result ↔ IsOwnOrSettled (delays_of net.now delays.now) wave.now (time -ℤ pos behind) step pin }
{
    if pin == step.pin {
        return true;
    }
    let side = PinRef {
        gate: step.gate,
        pin,
    };
    let late = behind + u64::from(delays.delay(net, side));
    at_earlier(wave, time, late) == wave.latest()
}

// The value of a wave this much before the time, which may be below all times of an i64.
fn at_earlier(wave: &Wave, time: i64, late: u64) -> bool
    ensures { result ≡ wave_at wave.now (time -ℤ pos late) }
{
    let earlier = i128::from(time) - i128::from(late);
    let come = wave
        .changes()
        .partition_point(|change| i128::from(*change) <= earlier);
    wave.earliest() ^ (come % 2 == 1)
}
