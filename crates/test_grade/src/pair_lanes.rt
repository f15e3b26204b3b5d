// What all lines are under up to 64 pairs at once, in memory that is used again for the next pairs; and of each of these pairs, whether it
// is a test for a path.
ghost use Rattle.std.specs.Prelude.{◌≡◌, ◌≤◌, ◌<◌, ◌+◌, ◌↔◌, ℕ, All, IfOk, IsTrue, length};
ghost use Rattle.pd_base.specs.Pair.{Vectors};
ghost use Rattle.pd_base.specs.Target.{target_of};
ghost use Rattle.netlist.specs.Circuit.{line_count, source_count};
ghost use Rattle.netlist.specs.Conditions.{Meets};
ghost use Rattle.netlist.specs.Paths.{IsPrefix};
ghost use Rattle.logic_values.specs.Known.{bit_at};
ghost use Rattle.logic_values.specs.Lanes.{lane_bit};
ghost use Rattle.test_grade.specs.Lines.{AreTestsUnder, AreUnder, HasLineWords};
ghost use Rattle.test_grade.specs.Serving.{StandInLanes};

use crate::grading::meeting_lanes;
use crate::steady_lanes::evaluate_pairs;
use logic_values::{bit_in_lane, put_into_lane};
use netlist::Netlist;
use pd_base::{Direction, Kind, OutOfMemory, Path, Test};
use std::alloc::Global;
use std::marker::Model;

/// How many pairs are looked at at once.
pub const LANES: usize = 64;

/// What all lines of a netlist are under up to 64 pairs, each in a lane of its own, from 0. Contracts see a word for each line of the
/// values under the second vectors, and one of whether it is steady: bit k tells of the pair in lane k.
#[derive(Drop)]
pub struct PairLanes {
    finals: Vec<u64>,
    steadies: Vec<u64>,
}

impl Model for PairLanes {
    ghost use Rattle.test_grade.specs.Lines.{LineWords};

    ghost Value = { LineWords };

    ghost view = { λ s. record { finals = s.finals.items; steadies = s.steadies.items } };
}

impl PairLanes {
    /// Words for the lines of this netlist. The one error is that memory ran out.
    pub fn new(alloc: Global, net: &Netlist) -> Result<PairLanes, OutOfMemory>
        ensures { IfOk result (HasLineWords net.now) }
    {
        let lines = net.lines() as usize;
        Ok(PairLanes {
            finals: vec![in alloc; 0; lines]?,
            steadies: vec![in alloc; 0; lines]?,
        })
    }

    /// Looks at the tests from a place on, up to 64 of them, each in the lane of its place among them. What an earlier call saw is gone.
    /// The words were made for this netlist, and the vectors of the tests have a bit for each source. Takes no memory.
    pub fn look_at(&mut self, net: &Netlist, tests: &[Test], begin: usize)
        requires words { HasLineWords net.now self.old }
        requires begin { begin < length tests.now }
        requires firsts { All (λ test. length test.pair.first ≡ source_count net.now) tests.now }
        requires seconds { All (λ test. length test.pair.second ≡ source_count net.now) tests.now }
        ensures words { HasLineWords net.now self.new }
        ensures tests { AreTestsUnder net.now begin tests.now self.new }
    {
        let PairLanes { finals, steadies } = self;
        evaluate_tests(
            net,
            tests,
            begin,
            finals.as_mut_slice(),
            steadies.as_mut_slice(),
        );
    }

    /// Whether the pair in a lane is a test of this kind for the transition at the source of a path, or of a prefix, as `meets` of
    /// path_model tells of one pair. Takes no memory.
    pub fn meets(
        &self,
        net: &Netlist,
        path: &Path,
        direction: Direction,
        kind: Kind,
        lane: u32,
    ) -> bool
        requires words { HasLineWords net.now self.now }
        requires prefix { IsPrefix net.now path.now }
        requires lane { lane < 64 }
        ensures { (pair : Vectors) → AreUnder net.now pair lane self.now.finals self.now.steadies
            → IsTrue result ↔ Meets net.now (target_of path.now direction kind) pair }
    {
        let finals = self.finals.as_slice();
        let steadies = self.steadies.as_slice();
        bit_in_lane(
            meeting_lanes(net, path, direction, kind, finals, steadies),
            lane,
        )
    }

    // For each line, what it ends at in each lane.
    pub(crate) fn finals(&self) -> &[u64]
        ensures { result.now ≡ self.now.finals }
    {
        self.finals.as_slice()
    }

    // For each line, whether it is steady in each lane.
    pub(crate) fn steadies(&self) -> &[u64]
        ensures { result.now ≡ self.now.steadies }
    {
        self.steadies.as_slice()
    }

    /// Fills in the values of all lines under the second vector of the pair in a lane. There is a place per line, by line number. Takes no
    /// memory.
    pub fn final_values(&self, lane: u32, out: &mut [bool])
        requires lane { lane < 64 }
        requires places { length out.old ≡ length self.now.finals }
        ensures { (line : ℕ) → line < length out.new → bit_at out.new line ≡ lane_bit self.now.finals lane line }
    {
        for line in 0..out.len() {
            out[line] = bit_in_lane(self.finals[line], lane);
        }
    }
}

// What all lines are under the tests from a place on, up to 64 of them.
fn evaluate_tests(
    net: &Netlist,
    tests: &[Test],
    begin: usize,
    finals: &mut [u64],
    steadies: &mut [u64],
)
    requires finals { length finals.old ≡ line_count net.now }
    requires steadies { length steadies.old ≡ line_count net.now }
    requires begin { begin < length tests.now }
    requires firsts { All (λ test. length test.pair.first ≡ source_count net.now) tests.now }
    requires seconds { All (λ test. length test.pair.second ≡ source_count net.now) tests.now }
    ensures { AreTestsUnder net.now begin tests.now (record { finals = finals.new; steadies = steadies.new }) }
{
    let end = block_end(begin, tests.len());
    put_pairs(net, tests, begin, end, finals, steadies);
    evaluate_pairs(net, finals, steadies);
}

// Where the block ends that begins at a place of so many.
fn block_end(begin: usize, count: usize) -> usize
    requires { begin < count }
    ensures few { result ≤ begin + 64 }
    ensures within { result ≤ count }
    ensures last { (place : ℕ) → place < begin + 64 → place < count → place < result }
{
    if count - begin > LANES {
        begin + LANES
    } else {
        count
    }
}

// Puts the pairs of the tests between two places into lanes.
fn put_pairs(
    net: &Netlist,
    tests: &[Test],
    begin: usize,
    end: usize,
    finals: &mut [u64],
    steadies: &mut [u64],
)
    requires bits { All (λ test. length test.pair.second ≡ source_count net.now) tests.now }
    requires finals { length finals.old ≡ line_count net.now }
    requires steadies { length steadies.old ≡ line_count net.now }
    requires few { end ≤ begin + 64 }
    requires within { end ≤ length tests.now }
    ensures seconds { StandInLanes (λ pair. pair.second) begin end tests.now finals.new }
    ensures firsts { StandInLanes (λ pair. pair.first) begin end tests.now steadies.new }
{
    // a circuit's sources are lines
    let _ = net.sources();
    for place in begin..end {
        let pair = &tests[place].pair;
        put_into_lane(pair.second(), (place - begin) as u32, finals);
        put_into_lane(pair.first(), (place - begin) as u32, steadies);
    }
}
