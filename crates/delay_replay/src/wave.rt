// A wave by its changes, what it is at a time, and the two waves that are not made by a gate: that of a source, and that which
// a pin sees of its line. Waves of gates are in gate.rt.
ghost use Rattle.std.specs.Prelude.{◌≡◌, ℤ, pos, ◌+ℤ◌, ◌-ℤ◌, ◌<ℤ◌, ◌≤ℤ◌, int_lt, if◌then◌else◌, All, IfOk, IfErr, OnOk, []};
ghost use Rattle.delay_replay.specs.Changes.{AreChangesOf, AreTimesRising, IsBounded, wave_at};
ghost use Rattle.delay_replay.specs.AddedChanges.{IsTurned, RefusesChange};

use crate::{MOST_CHANGES, WaveFault};
use pd_base::OutOfMemory;
use std::alloc::Global;
use std::marker::Model;

/// The greatest time of a change of a wave that is copied. A delay later it is still far below the greatest i64.
pub const LATEST_CHANGE: i64 = 5_000_000_000;

/// A value over time, in whole delay units of either sign: the value before all changes, and the times at which it changes,
/// each later than the one before. At the time of a change the wave has its new value.
#[derive(Drop)]
pub struct Wave {
    before: bool,
    times: Vec<i64>,
}

impl Model for Wave {
    ghost use Rattle.delay_replay.specs.Changes.{Changes, AreTimesRising};

    ghost Value = { Changes };

    ghost view = { λ w. record { before = w.before; times = w.times.items } };

    ghost invariant = { λ w. AreTimesRising w.times.items };
}

impl Wave {
    /// The wave with this value before all changes, and with changes at these times, each later than the one before. Takes no
    /// memory.
    pub fn new(before: bool, changes: Vec<i64>) -> Wave
        requires { AreTimesRising changes.items }
        ensures { result ≡ record { before = before; times = changes.items } }
    {
        Wave {
            before,
            times: changes,
        }
    }

    // The wave that has this value at all times.
    pub(crate) fn constant(alloc: Global, value: bool) -> Wave
        ensures { result ≡ record { before = value; times = [] } }
    {
        Wave {
            before: value,
            times: Vec::new(alloc),
        }
    }

    /// The value at a time. At the time of a change this is the new value.
    pub fn at(&self, time: i64) -> bool
        ensures { result ≡ wave_at self.now time }
    {
        self.before ^ (self.times.partition_point(|change| *change <= time) % 2 == 1)
    }

    /// The times at which the value changes, each later than the one before.
    pub fn changes(&self) -> &[i64]
        ensures times { result.now ≡ self.now.times }
        ensures rising { AreTimesRising result.now }
    {
        self.times.as_slice()
    }

    /// The value before all changes.
    pub fn earliest(&self) -> bool
        ensures before { result ≡ self.now.before }
        ensures always { (time : ℤ) → All (λ change. time <ℤ change) self.now.times → wave_at self.now time ≡ result }
    {
        self.before
    }

    /// The value after all changes.
    pub fn latest(&self) -> bool
        ensures { (time : ℤ) → All (λ change. change ≤ℤ time) self.now.times → wave_at self.now time ≡ result }
    {
        self.before ^ (self.times.len() % 2 == 1)
    }

    // From a time behind all changes on, the wave has this value. Refused with `TooMany` where it has another one and as many
    // changes as may be. No memory is asked for a change that is refused.
    pub(crate) fn turn(&mut self, time: i64, value: bool) -> Result<(), WaveFault>
        requires { All (λ change. change <ℤ time) self.old.times }
        ensures turned { OnOk result (IsTurned self.old self.new time value) }
        ensures refused { IfErr result (RefusesChange self.old value) }
    {
        if self.latest() != value {
            if self.times.len() >= MOST_CHANGES {
                return Err(WaveFault::TooMany);
            }
            self.times.push(time)?;
        }
        Ok(())
    }
}

/// The wave of a source: the first value before time 0, the second from 0 on. It fails only where memory runs out.
pub fn source_wave(alloc: Global, before: bool, after: bool) -> Result<Wave, OutOfMemory>
    ensures { IfOk result (AreChangesOf (λ time. if int_lt time (pos 0) then before else after)) }
{
    let mut times = Vec::new(alloc);
    if before != after {
        times.push(0)?;
    }
    Ok(Wave { before, times })
}

/// What a pin with this delay sees of a line: its wave, later by the delay. No change may be after `LATEST_CHANGE`. It fails
/// only where memory runs out.
pub fn pin_copy(alloc: Global, wave: &Wave, delay: u32) -> Result<Wave, OutOfMemory>
    requires { IsBounded wave.now }
    ensures { IfOk result (AreChangesOf (λ time. wave_at wave.now (time -ℤ pos delay))) }
{
    let mut times = Vec::with_capacity(alloc, wave.times.len())?;
    for change in &wave.times {
        times.push_reserved(later(*change, delay));
    }
    Ok(Wave {
        before: wave.before,
        times,
    })
}

// A time later by a delay.
pub(crate) fn later(time: i64, delay: u32) -> i64
    requires { time ≤ℤ LATEST_CHANGE }
    ensures { result ≡ time +ℤ pos delay }
{
    time + i64::from(delay)
}
