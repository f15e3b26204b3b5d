// The bits that tests expect: what the observed lines have under their second vectors. They are filled in, or compared with those that
// are there. As many vectors are evaluated at once as a word has lanes (logic_values).
ghost use Rattle.std.specs.Prelude.{◌≡◌, ◌+◌, ◌<◌, ◌≤◌, ◌↔◌, All, IfOk, IsTrue, OnOk, length, map};
ghost use Rattle.logic_values.specs.Known.{HasPlaces};
ghost use Rattle.logic_values.specs.Lanes.{lane_of};
ghost use Rattle.netlist.specs.Circuit.{line_count, observed_lines, source_count};
ghost use Rattle.logic_values.specs.Expected.{AreCompared, AreFilled, AreObservedIn, TellsExpected, expecting, word_of};

use crate::blocks::{PairVector, block_end, evaluate_block};
use crate::lane::bit_in_lane;
use netlist::Netlist;
use pd_base::{Items, LineId, OutOfMemory, Test};
use std::alloc::Global;

/// The tests with the bits that they expect, in place of those that they came with. The one error is that memory ran out.
pub fn with_expected_bits(
    alloc: Global,
    net: &Netlist,
    tests: Vec<Test>,
) -> Result<Vec<Test>, OutOfMemory>
    requires { All (λ test. length test.pair.second ≡ source_count net.now) tests.items }
    ensures { IfOk result (λ filled. filled.items ≡ map (expecting net.now) tests.items) }
{
    let mut filled = tests;
    fill_all(alloc, net, filled.as_mut_slice())?;
    Ok(filled)
}

/// For each of these tests whether it expects what the observed lines have under its second vector, neither more nor fewer bits. The one
/// error is that memory ran out.
pub fn expect_observed(
    alloc: Global,
    net: &Netlist,
    tests: &[Test],
) -> Result<Vec<bool>, OutOfMemory>
    requires { All (λ test. length test.pair.second ≡ source_count net.now) tests.now }
    ensures { IfOk result (λ flags. TellsExpected net.now tests.now flags.items) }
{
    let mut words = vec![in alloc; 0; net.lines() as usize]?;
    let mut observed = vec![in alloc; 0; net.observed().len()]?;
    let mut flags = vec![in alloc; false; tests.len()]?;
    tell_blocks(
        net,
        tests,
        words.as_mut_slice(),
        observed.as_mut_slice(),
        flags.as_mut_slice(),
    );
    Ok(flags)
}

// Fills the bits in.
fn fill_all(alloc: Global, net: &Netlist, tests: &mut [Test]) -> Result<(), OutOfMemory>
    requires { All (λ test. length test.pair.second ≡ source_count net.now) tests.old }
    ensures { OnOk result (tests.new ≡ map (expecting net.now) tests.old) }
{
    let mut words = vec![in alloc; 0; net.lines() as usize]?;
    let mut observed = vec![in alloc; 0; net.observed().len()]?;
    fill_blocks(
        alloc,
        net,
        words.as_mut_slice(),
        observed.as_mut_slice(),
        tests,
    )
}

// Fills them in, one block of tests after another. There is a word for each line, and one for each observed line.
fn fill_blocks(
    alloc: Global,
    net: &Netlist,
    words: &mut [u64],
    observed: &mut [u64],
    tests: &mut [Test],
) -> Result<(), OutOfMemory>
    requires words { length words.old ≡ line_count net.now }
    requires observed { length observed.old ≡ length (observed_lines net.now) }
    requires bits { All (λ test. length test.pair.second ≡ source_count net.now) tests.old }
    ensures { OnOk result (tests.new ≡ map (expecting net.now) tests.old) }
{
    let mut begin = 0;
    while begin < tests.len() {
        let end = block_end(begin, tests.len());
        fill_block(alloc, net, words, observed, tests, begin, end)?;
        begin = end;
    }
    Ok(())
}

// Tells of one block of tests after another. There is a word for each line, one for each observed line, and a flag for each test.
fn tell_blocks(
    net: &Netlist,
    tests: &[Test],
    words: &mut [u64],
    observed: &mut [u64],
    flags: &mut [bool],
)
    requires words { length words.old ≡ line_count net.now }
    requires observed { length observed.old ≡ length (observed_lines net.now) }
    requires flags { length flags.old ≡ length tests.now }
    requires bits { All (λ test. length test.pair.second ≡ source_count net.now) tests.now }
    ensures { TellsExpected net.now tests.now flags.new }
{
    let mut begin = 0;
    while begin < tests.len() {
        let end = block_end(begin, tests.len());
        observe_block(net, tests, begin, end, words, observed);
        tell_block(tests, begin, end, observed, flags);
        begin = end;
    }
}

// Fills in those of the tests between two places, whose second vectors fit in a word's lanes.
fn fill_block(
    alloc: Global,
    net: &Netlist,
    words: &mut [u64],
    observed: &mut [u64],
    tests: &mut [Test],
    begin: usize,
    end: usize,
) -> Result<(), OutOfMemory>
    requires words { length words.old ≡ line_count net.now }
    requires observed { length observed.old ≡ length (observed_lines net.now) }
    requires bits { All (λ test. length test.pair.second ≡ source_count net.now) tests.old }
    requires few { end ≤ begin + 64 }
    requires within { end ≤ length tests.old }
    requires some { begin ≤ end }
    ensures { OnOk result (AreFilled net.now begin end tests.old tests.new) }
{
    observe_block(net, tests, begin, end, words, observed);
    for place in begin..end {
        let bits = bits_in_lane(alloc, observed, (place - begin) as u32)?;
        tests[place].expected = Items::new(bits);
    }
    Ok(())
}

// Flags those of the tests between two places that expect the bits in the lanes of their places among them.
fn tell_block(tests: &[Test], begin: usize, end: usize, observed: &[u64], flags: &mut [bool])
    requires flags { length flags.old ≡ length tests.now }
    requires few { end ≤ begin + 64 }
    requires within { end ≤ length tests.now }
    requires some { begin ≤ end }
    ensures { AreCompared begin end tests.now observed.now flags.old flags.new }
{
    for place in begin..end {
        let bits = tests[place].expected.as_slice();
        flags[place] = are_bits_in_lane(observed, (place - begin) as u32, bits);
    }
}

// Computes what the observed lines have under the second vectors of the tests between two places, each in the lane of its place among
// them.
fn observe_block(
    net: &Netlist,
    tests: &[Test],
    begin: usize,
    end: usize,
    words: &mut [u64],
    observed: &mut [u64],
)
    requires words { length words.old ≡ line_count net.now }
    requires observed { length observed.old ≡ length (observed_lines net.now) }
    requires bits { All (λ test. length test.pair.second ≡ source_count net.now) tests.now }
    requires few { end ≤ begin + 64 }
    requires within { end ≤ length tests.now }
    ensures { AreObservedIn net.now begin end tests.now observed.new }
{
    evaluate_block(net, PairVector::Second, tests, begin, end, words);
    take_words(net.observed(), words, observed);
}

// Takes the words of these lines, which are read from one place after another: what is done with each of their lanes then reads memory in
// order.
fn take_words(lines: &[LineId], words: &[u64], taken: &mut [u64])
    requires lines { HasPlaces words.now lines.now }
    requires places { length taken.old ≡ length lines.now }
    ensures { taken.new ≡ map (word_of words.now) lines.now }
{
    for (place, line) in lines.iter().enumerate() {
        taken[place] = words[line.0 as usize];
    }
}

// The bits in a lane of these words.
fn bits_in_lane(alloc: Global, words: &[u64], lane: u32) -> Result<Vec<bool>, OutOfMemory>
    requires { lane < 64 }
    ensures { IfOk result (λ bits. bits.items ≡ map (λ word. lane_of word lane) words.now) }
{
    let mut bits = vec![in alloc; false; words.len()]?;
    put_bits(words, lane, bits.as_mut_slice());
    Ok(bits)
}

// Puts the bits in a lane of these words into places.
fn put_bits(words: &[u64], lane: u32, bits: &mut [bool])
    requires lane { lane < 64 }
    requires places { length bits.old ≡ length words.now }
    ensures { bits.new ≡ map (λ word. lane_of word lane) words.now }
{
    for (place, word) in words.iter().enumerate() {
        bits[place] = bit_in_lane(*word, lane);
    }
}

// Whether these are the bits in a lane of some words.
fn are_bits_in_lane(words: &[u64], lane: u32, bits: &[bool]) -> bool
    requires { lane < 64 }
    ensures { IsTrue result ↔ (bits.now ≡ map (λ word. lane_of word lane) words.now) }
{
    if bits.len() != words.len() {
        return false;
    }
    for (place, word) in words.iter().enumerate() {
        if bit_in_lane(*word, lane) != bits[place] {
            return false;
        }
    }
    true
}
