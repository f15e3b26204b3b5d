// The text of `rfreplay`: test after test, each with the waves of its own pair, which are gone before the next test's are made.
ghost use Rattle.std.specs.Prelude.{◌≡◌, ◌<◌, ◌^◌, ◌++◌, length, pos, IfOk, IfErr, OnOk};
ghost use Rattle.netlist.specs.Circuit.{source_count};
ghost use Rattle.runs.specs.Lawful.{AreLawfulTests};
ghost use Rattle.delay_replay.specs.ChangeLimits.{HasFewOf, RefusesWaves};
ghost use Rattle.text_pieces.specs.Tokens.{after_space, line};
ghost use Rattle.commands.specs.Inside.RiseFallReplaying.{CanSample, sampled_waves, sampling_of};
ghost use Rattle.commands.specs.RiseFallReplayText.{IsRiseFallText, judged_line, path_word, samples_of};
ghost use Rattle.commands.specs.ReplayText.{sample_words};
ghost use Rattle.commands.specs.TestChanges.{HaveFewOf, RefusesTestsOf};

use crate::replay::over::{ReplayTextFault, replay_text_fault};
use crate::replay::sampled::{push_sample, samples_at};
use crate::rise_fall_replay::path_word::{PathJudge, PathWord, path_word};
use crate::rise_fall_replay::sampling::Sampling;
use delay_replay::ReplayFault;
use pd_base::{OutOfMemory, Test};
use rise_fall::replay_rise_fall;
use std::alloc::Global;
use test_grade::LANES;
use text_pieces::push_spaced;

/// The text of a replay of these tests, which are lawful ones of the netlist and have numbers of 32 bits: for each its number, what its
/// observed lines have at the time, whether these are the bits that it expects, and the word on it. Refused with `TooManyChanges` exactly
/// where some test's lines change too often, at the first such test.
pub(crate) fn rise_fall_text(
    alloc: Global,
    at: &Sampling,
    tests: &[Test],
) -> Result<Vec<u8>, ReplayTextFault>
    requires can { CanSample at.now }
    requires lawful { AreLawfulTests at.now.net.now tests.now }
    requires numbers { length tests.now < 2 ^ 32 }
    ensures text { IfOk result (λ text. IsRiseFallText (sampling_of at.now) tests.now text.items) }
    ensures few { IfOk result (λ text. HaveFewOf at.now.net.now (sampled_waves at.now) tests.now) }
    ensures refused { IfErr result (RefusesTestsOf at.now.net.now (sampled_waves at.now) tests.now) }
{
    let mut judge = PathJudge::new(alloc, at.net)?;
    let mut text = Vec::new(alloc);
    for (index, test) in tests.iter().enumerate() {
        let number = index as u32 + 1;
        judge.go_on(at.net, tests, index);
        let word = judge.word_on(at, test, (index % LANES) as u32);
        if let Err(fault) = push_judged(alloc, at, test, number, word, &mut text) {
            return Err(replay_text_fault(number, fault));
        }
    }
    Ok(text)
}

// Appends the line of a test with this word.
fn push_judged(
    alloc: Global,
    at: &Sampling,
    test: &Test,
    number: u32,
    word: PathWord,
    out: &mut Vec<u8>,
) -> Result<(), ReplayFault>
    requires can { CanSample at.now }
    requires bits { length test.now.pair.first ≡ source_count at.now.net.now }
    ensures line { OnOk result
        (out.new.items ≡ out.old.items ++ judged_line (sampling_of at.now) number (record { test = test.now; word = word })) }
    ensures few { OnOk result (HasFewOf at.now.net.now (sampled_waves at.now test.now.pair)) }
    ensures refused { IfErr result (RefusesWaves at.now.net.now (sampled_waves at.now test.now.pair)) }
{
    let sampled = sampled(alloc, at, test)?;
    let expected = test.expected.as_slice();
    push_line(out, number, sampled.as_slice(), expected, word)?;
    Ok(())
}

// Appends the line of a test of this number with this word, of which these bits were sampled.
fn push_line(
    out: &mut Vec<u8>,
    number: u32,
    sampled: &[bool],
    expected: &[bool],
    word: PathWord,
) -> Result<(), OutOfMemory>
    ensures { OnOk result (out.new.items
        ≡ out.old.items ++ line (sample_words number sampled.now expected.now ++ after_space (path_word word))) }
{
    push_sample(out, number, sampled, expected)?;
    push_spaced(out, path_word(word))?;
    out.push(b'\n')?;
    Ok(())
}

// What the observed lines have at the time, under the pair of a test.
fn sampled(alloc: Global, at: &Sampling, test: &Test) -> Result<Vec<bool>, ReplayFault>
    requires can { CanSample at.now }
    requires bits { length test.now.pair.first ≡ source_count at.now.net.now }
    ensures samples { IfOk result (λ bits. bits.items ≡ samples_of (sampling_of at.now) test.now) }
    ensures few { IfOk result (λ bits. HasFewOf at.now.net.now (sampled_waves at.now test.now.pair)) }
    ensures refused { IfErr result (RefusesWaves at.now.net.now (sampled_waves at.now test.now.pair)) }
{
    let waves = replay_rise_fall(alloc, at.net, at.delays, &test.pair)?;
    Ok(samples_at(alloc, at.net, waves.as_slice(), at.time as i64)?)
}
