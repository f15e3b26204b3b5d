// The samples of one test and what is said of them, under whichever delay model.
ghost use Rattle.std.specs.Prelude.{◌≡◌, ℕ, ◌++◌, length, IfOk, OnOk};
ghost use Rattle.netlist.specs.Circuit.{line_count};
ghost use Rattle.netlist.specs.Waves.{Wave as LineWave};
ghost use Rattle.delay_replay.specs.LineWaves.{AreLineWaves};
ghost use Rattle.delay_replay.specs.Settling.{observed_under};
ghost use Rattle.commands.specs.ReplayText.{agreement_word, sample_words};

use delay_replay::{Wave, sample};
use netlist::Netlist;
use pd_base::{OutOfMemory, push_decimal};
use std::alloc::Global;
use text_pieces::{push_spaced, push_spaced_digits};

/// What the observed lines have at a time, in the order of `observed`. `waves` has one wave per line, by line number.
pub(crate) fn samples_at(
    alloc: Global,
    net: &Netlist,
    waves: &[Wave],
    time: i64,
) -> Result<Vec<bool>, OutOfMemory>
    requires { length waves.now ≡ line_count net.now }
    ensures { (wave : ℕ → LineWave) → AreLineWaves net.now wave waves.now
        → IfOk result (λ bits. bits.items ≡ observed_under net.now wave time) }
{
    let mut bits = blank_bits(alloc, net.observed().len())?;
    sample(net, waves, time, bits.as_mut_slice());
    Ok(bits)
}

// So many bits.
fn blank_bits(alloc: Global, count: usize) -> Result<Vec<bool>, OutOfMemory>
    ensures { IfOk result (λ bits. length bits.items ≡ count) }
{
    let mut bits = Vec::new(alloc);
    bits.resize(count, false)?;
    Ok(bits)
}

/// Appends what every replay says of the test of this number, of which these bits were sampled.
pub(crate) fn push_sample(
    out: &mut Vec<u8>,
    number: u32,
    sampled: &[bool],
    expected: &[bool],
) -> Result<(), OutOfMemory>
    ensures { OnOk result (out.new.items ≡ out.old.items ++ sample_words number sampled.now expected.now) }
{
    push_decimal(out, u64::from(number))?;
    push_spaced_digits(out, sampled)?;
    push_spaced(out, agreement_word(sampled, expected))
}

// The word that says whether the sampled bits are the expected ones.
fn agreement_word(sampled: &[bool], expected: &[bool]) -> &'static [u8]
    ensures { result.now ≡ agreement_word sampled.now expected.now }
{
    if sampled == expected {
        b"same"
    } else {
        b"differs"
    }
}
