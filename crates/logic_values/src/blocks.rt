// Blocks of tests, of which as many are looked at at once as a word has lanes: the values of all lines under one vector of each, the test's in
// the lane of its place in the block. What is read off these values stands in expected.rt and kept_links.rt.
ghost use Rattle.std.specs.Prelude.{◌≡◌, ◌+◌, ◌<◌, ◌≤◌, All, length};
ghost use Rattle.netlist.specs.Circuit.{line_count, source_count};
ghost use Rattle.logic_values.specs.Blocks.{AreInLanes, AreValuesIn, vector_of};

use crate::lane::put_into_lane;
use crate::lanes::evaluate_lanes;
use netlist::Netlist;
use pd_base::{Pair, Test};

// How many vectors are evaluated at once.
const LANES: usize = 64;

// One of the two vectors of a pair.
#[derive(Clone, Copy)]
pub(crate) enum PairVector {
    First,
    Second,
}

// Where the block ends that begins at a place of so many.
pub(crate) fn block_end(begin: usize, count: usize) -> usize
    requires { begin < count }
    ensures on { begin < result }
    ensures within { result ≤ count }
    ensures few { result ≤ begin + 64 }
{
    if count - begin > LANES {
        begin + LANES
    } else {
        count
    }
}

// Computes the values of all lines under one vector of each test between two places, in the lane of its place among them.
pub(crate) fn evaluate_block(
    net: &Netlist,
    which: PairVector,
    tests: &[Test],
    begin: usize,
    end: usize,
    words: &mut [u64],
)
    requires words { length words.old ≡ line_count net.now }
    requires bits { All (λ test. length (vector_of which test.pair) ≡ source_count net.now) tests.now }
    requires few { end ≤ begin + 64 }
    requires within { end ≤ length tests.now }
    ensures { AreValuesIn net.now which begin end tests.now words.new }
{
    put_vectors(net, which, tests, begin, end, words);
    evaluate_lanes(net, words);
}

// Puts one vector of each test between two places into lanes.
fn put_vectors(
    net: &Netlist,
    which: PairVector,
    tests: &[Test],
    begin: usize,
    end: usize,
    words: &mut [u64],
)
    requires words { length words.old ≡ line_count net.now }
    requires bits { All (λ test. length (vector_of which test.pair) ≡ source_count net.now) tests.now }
    requires few { end ≤ begin + 64 }
    requires within { end ≤ length tests.now }
    ensures { AreInLanes which begin end tests.now words.new }
{
    // a circuit's sources are lines
    let _ = net.sources();
    for place in begin..end {
        let vector = vector_of(which, &tests[place].pair);
        put_into_lane(vector, (place - begin) as u32, words);
    }
}

// That vector of a pair.
fn vector_of(which: PairVector, pair: &Pair) -> &[bool]
    ensures { result.now ≡ vector_of which pair.now }
{
    match which {
        PairVector::First => pair.first(),
        PairVector::Second => pair.second(),
    }
}
