// The text of a replay: test after test, each with the waves of its own pair, which are gone before the next test's are made.
ghost use Rattle.std.specs.Prelude.{◌≡◌, ◌<◌, ◌^◌, ◌++◌, length, IfOk, IfErr, OnOk};
ghost use Rattle.netlist.specs.Circuit.{source_count};
ghost use Rattle.runs.specs.Lawful.{AreLawfulTests};
ghost use Rattle.delay_annotation.specs.Annotation.{Fits, delays_of};
ghost use Rattle.delay_replay.specs.ChangeLimits.{HasFewChanges, RefusesReplay};
ghost use Rattle.delay_replay.specs.Settling.{observed_at};
ghost use Rattle.text_pieces.specs.Tokens.{line};
ghost use Rattle.commands.specs.ReplayText.{replay_text, replayed_line, sample_words};
ghost use Rattle.commands.specs.TestChanges.{HaveFewChanges, RefusesTests};

use crate::replay::over::{ReplayTextFault, replay_text_fault};
use crate::replay::sampled::{push_sample, samples_at};
use delay_annotation::Delays;
use delay_replay::{ReplayFault, replay};
use netlist::Netlist;
use pd_base::{OutOfMemory, Pair, Test};
use std::alloc::Global;

/// The text of a replay of these tests, which are lawful ones of the netlist and have numbers of 32 bits: for each its number, what its
/// observed lines have at the time, and whether these are the bits that it expects. Refused with `TooManyChanges` exactly where some
/// test's lines change too often, at the first such test.
pub(crate) fn replay_text(
    alloc: Global,
    net: &Netlist,
    delays: &Delays,
    tests: &[Test],
    time: i64,
) -> Result<Vec<u8>, ReplayTextFault>
    requires fits { Fits net.now delays.now }
    requires lawful { AreLawfulTests net.now tests.now }
    requires numbers { length tests.now < 2 ^ 32 }
    ensures text { IfOk result (λ text. text.items ≡ replay_text net.now (delays_of net.now delays.now) tests.now time) }
    ensures few { IfOk result (λ text. HaveFewChanges net.now (delays_of net.now delays.now) tests.now) }
    ensures refused { IfErr result (RefusesTests net.now (delays_of net.now delays.now) tests.now) }
{
    let mut text = Vec::new(alloc);
    for (index, test) in tests.iter().enumerate() {
        let number = index as u32 + 1;
        if let Err(fault) = push_replayed(alloc, net, delays, test, number, time, &mut text) {
            return Err(replay_text_fault(number, fault));
        }
    }
    Ok(text)
}

// Appends the line of a test.
fn push_replayed(
    alloc: Global,
    net: &Netlist,
    delays: &Delays,
    test: &Test,
    number: u32,
    time: i64,
    out: &mut Vec<u8>,
) -> Result<(), ReplayFault>
    requires fits { Fits net.now delays.now }
    requires bits { length test.now.pair.first ≡ source_count net.now }
    ensures line { OnOk result
        (out.new.items ≡ out.old.items ++ replayed_line net.now (delays_of net.now delays.now) time number test.now) }
    ensures few { OnOk result (HasFewChanges net.now test.now.pair (delays_of net.now delays.now)) }
    ensures refused { IfErr result (RefusesReplay net.now test.now.pair (delays_of net.now delays.now)) }
{
    let sampled = sampled(alloc, net, delays, &test.pair, time)?;
    push_line(out, number, sampled.as_slice(), test.expected.as_slice())?;
    Ok(())
}

// Appends the line of a test of this number, of which these bits were sampled.
fn push_line(
    out: &mut Vec<u8>,
    number: u32,
    sampled: &[bool],
    expected: &[bool],
) -> Result<(), OutOfMemory>
    ensures { OnOk result (out.new.items ≡ out.old.items ++ line (sample_words number sampled.now expected.now)) }
{
    push_sample(out, number, sampled, expected)?;
    out.push(b'\n')?;
    Ok(())
}

// What the observed lines have at a time, under a pair and these delays.
fn sampled(
    alloc: Global,
    net: &Netlist,
    delays: &Delays,
    pair: &Pair,
    time: i64,
) -> Result<Vec<bool>, ReplayFault>
    requires fits { Fits net.now delays.now }
    requires bits { length pair.now.first ≡ source_count net.now }
    ensures samples { IfOk result (λ bits. bits.items ≡ observed_at net.now pair.now (delays_of net.now delays.now) time) }
    ensures few { IfOk result (λ bits. HasFewChanges net.now pair.now (delays_of net.now delays.now)) }
    ensures refused { IfErr result (RefusesReplay net.now pair.now (delays_of net.now delays.now)) }
{
    let waves = replay(alloc, net, delays, pair)?;
    Ok(samples_at(alloc, net, waves.as_slice(), time)?)
}
