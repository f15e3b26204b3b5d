// Which tests keep links: at each linked source the second vector has the value that its line has under the first one. The first vectors of a
// block are evaluated at once (blocks.rt).
ghost use Rattle.std.specs.Prelude.{◌≡◌, ◌+◌, ◌<◌, ◌≤◌, ◌↔◌, All, IfOk, IsTrue, length};
ghost use Rattle.netlist.specs.Circuit.{line_count, source_count};
ghost use Rattle.netlist.specs.LinkedPairs.{AreLinksOf, KeepsLinks};
ghost use Rattle.logic_values.specs.Blocks.{AreFlaggedIn, AreFlags};
ghost use Rattle.logic_values.specs.KeptLinks.{HasLinkBit, HasLinkBits};

use crate::blocks::{PairVector, block_end, evaluate_block};
use crate::lane::bit_in_lane;
use netlist::Netlist;
use pd_base::{LineId, Links, OutOfMemory, Test};
use std::alloc::Global;

/// For each of these tests whether its pair keeps the links: at each linked source the bit of the second vector is the value that its line has
/// under the first. The links are of this circuit, and the vectors have one bit per source in the order of the sources. The one error is that
/// memory ran out.
pub fn keep_links(
    alloc: Global,
    net: &Netlist,
    links: &Links,
    tests: &[Test],
) -> Result<Vec<bool>, OutOfMemory>
    requires links { AreLinksOf net.now links.now.pairs }
    requires bits { All (λ test. length test.pair.first ≡ source_count net.now) tests.now }
    ensures { IfOk result (λ flags. AreFlags (λ test. KeepsLinks net.now links.now.pairs test.pair) tests.now flags.items) }
{
    let mut words = vec![in alloc; 0; net.lines() as usize]?;
    let mut flags = vec![in alloc; false; tests.len()]?;
    flag_blocks(
        net,
        links.pairs(),
        tests,
        words.as_mut_slice(),
        flags.as_mut_slice(),
    );
    Ok(flags)
}

// Flags the tests of one block after another. There is a word for each line, and a flag for each test.
fn flag_blocks(
    net: &Netlist,
    links: &[(LineId, LineId)],
    tests: &[Test],
    words: &mut [u64],
    flags: &mut [bool],
)
    requires links { AreLinksOf net.now links.now }
    requires words { length words.old ≡ line_count net.now }
    requires flags { length flags.old ≡ length tests.now }
    requires bits { All (λ test. length test.pair.first ≡ source_count net.now) tests.now }
    ensures { AreFlags (λ test. KeepsLinks net.now links.now test.pair) tests.now flags.new }
{
    let mut begin = 0;
    while begin < tests.len() {
        let end = block_end(begin, tests.len());
        evaluate_block(net, PairVector::First, tests, begin, end, words);
        flag_block(net, links, tests, begin, end, words, flags);
        begin = end;
    }
}

// Flags those of the tests between two places whose second vectors have, at the linked sources, what stands in the lanes of their places among
// them.
fn flag_block(
    net: &Netlist,
    links: &[(LineId, LineId)],
    tests: &[Test],
    begin: usize,
    end: usize,
    words: &[u64],
    flags: &mut [bool],
)
    requires links { AreLinksOf net.now links.now }
    requires words { length words.now ≡ line_count net.now }
    requires flags { length flags.old ≡ length tests.now }
    requires bits { All (λ test. length test.pair.first ≡ source_count net.now) tests.now }
    requires few { end ≤ begin + 64 }
    requires within { end ≤ length tests.now }
    requires some { begin ≤ end }
    ensures { AreFlaggedIn (λ lane test. HasLinkBits links.now test.pair.second words.now lane) begin end tests.now flags.old flags.new }
{
    for place in begin..end {
        let second = tests[place].pair.second();
        flags[place] = has_link_bits(links, second, words, (place - begin) as u32);
    }
}

// Whether each linked source has in this vector the bit of its line in a lane.
fn has_link_bits(links: &[(LineId, LineId)], vector: &[bool], words: &[u64], lane: u32) -> bool
    requires sources { All (λ link. link.0.0 < length vector.now) links.now }
    requires lines { All (λ link. link.1.0 < length words.now) links.now }
    requires lane { lane < 64 }
    ensures { IsTrue result ↔ HasLinkBits links.now vector.now words.now lane }
{
    for link in links {
        if !has_link_bit(*link, vector, words, lane) {
            return false;
        }
    }
    true
}

// Whether the linked source has it.
fn has_link_bit(link: (LineId, LineId), vector: &[bool], words: &[u64], lane: u32) -> bool
    requires source { link.0.0 < length vector.now }
    requires line { link.1.0 < length words.now }
    requires lane { lane < 64 }
    ensures { IsTrue result ↔ HasLinkBit vector.now words.now lane link }
{
    vector[link.0.0 as usize] == bit_in_lane(words[link.1.0 as usize], lane)
}
