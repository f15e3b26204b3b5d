// The text of `scan`, line by line.
ghost use Rattle.std.specs.Prelude.{◌≡◌, ◌++◌, All, IfOk, OnOk};
ghost use Rattle.scan_load.specs.Shifting.{ShiftsOn};
ghost use Rattle.commands.specs.Inside.ScanJudging.{HasBitsFor, ShiftsInAll};
ghost use Rattle.commands.specs.ScanText.{load_line, load_text, load_words};

use pd_base::{OutOfMemory, Pair, Test, push_decimal};
use scan_load::put_load_string;
use scan_order::Chains;
use std::alloc::Global;
use text_pieces::push_spaced_digits;

/// For each of these tests its number and, chain by chain, the bits that load its pair. The last shift launches each pair.
pub(crate) fn load_text(
    alloc: Global,
    chains: &Chains,
    tests: &[Test],
) -> Result<Vec<u8>, OutOfMemory>
    requires bits { All (λ test. HasBitsFor chains.now test.pair) tests.now }
    requires shifts { All (ShiftsInAll chains.now) tests.now }
    ensures { IfOk result (λ text. text.items ≡ load_text chains.now tests.now) }
{
    let mut text = Vec::new(alloc);
    // One room for the strings of all chains, since there may be as many as flip-flops.
    let mut string = Vec::new(alloc);
    for (place, test) in tests.iter().enumerate() {
        push_line(chains, test, place as u64 + 1, &mut string, &mut text)?;
    }
    Ok(text)
}

// Appends the line of the test of this number. What stands in the room for a chain's string is gone.
fn push_line(
    chains: &Chains,
    test: &Test,
    number: u64,
    string: &mut Vec<bool>,
    out: &mut Vec<u8>,
) -> Result<(), OutOfMemory>
    requires bits { HasBitsFor chains.now test.now.pair }
    requires shifts { ShiftsInAll chains.now test.now }
    ensures { OnOk result (out.new.items ≡ out.old.items ++ load_line chains.now number test.now) }
{
    push_decimal(out, number)?;
    push_loads(chains, &test.pair, string, out)?;
    out.push(b'\n')?;
    Ok(())
}

// Appends the bits that load a pair into each chain, behind a space each.
fn push_loads(
    chains: &Chains,
    pair: &Pair,
    string: &mut Vec<bool>,
    out: &mut Vec<u8>,
) -> Result<(), OutOfMemory>
    requires bits { HasBitsFor chains.now pair.now }
    requires shifts { All (λ chain. ShiftsOn chain pair.now) chains.now }
    ensures { OnOk result (out.new.items ≡ out.old.items ++ load_words chains.now pair.now) }
{
    for chain in chains.chains() {
        put_load_string(chain.as_slice(), pair, string)?;
        push_spaced_digits(out, string.as_slice())?;
    }
    Ok(())
}
