// The word on a test: whether the path that it is for is late. A test is for the path that the report lists under its number, where that is
// a path of the netlist for which the test's pair is a robust one.
ghost use Rattle.std.specs.Prelude.{◌≡◌, ◌≢◌, ◌<◌, ◌*◌, ◌/◌, ◌%◌, IfOk, MatchOption, length};
ghost use Rattle.pd_base.specs.declared.test.Test.{Test as Tested};
ghost use Rattle.netlist.specs.Circuit.{line_count};
ghost use Rattle.netlist.specs.Paths.{IsPrefix};
ghost use Rattle.test_grade.specs.Lines.{AreTestsUnder, AreUnder, HasLineWords};
ghost use Rattle.runs.specs.Lawful.{AreLawfulTests, IsLawfulTest};
ghost use Rattle.runs.specs.declared.run.ListedPath.{ListedPath as Listed};
ghost use Rattle.commands.specs.Inside.RiseFallReplaying.{CanSample, sampling_of};
ghost use Rattle.commands.specs.RiseFallReplayText.{IsRobustFor, IsWordOn, length_under, path_word};

use crate::rise_fall_replay::sampling::Sampling;
use netlist::Netlist;
use path_model::is_path;
use pd_base::{Kind, OutOfMemory, Test};
use rise_fall::length_rise_fall;
use runs::ListedPath;
use std::alloc::Global;
use std::marker::Model;
use test_grade::{LANES, PairLanes};

/// The word on a test.
#[derive(Clone, Copy)]
pub(crate) enum PathWord {
    /// It is a robust test for its listed path, which is longer than the time of sampling, for the values to which its lines go.
    Late,
    /// It is one, and the path is no longer than that.
    Met,
    /// It is none: no path is listed under its number, or that is no path of the netlist, or the pair doesn't meet the robust conditions.
    NotRobust,
}

/// How it is spelled.
pub(crate) fn path_word(word: PathWord) -> &'static [u8]
    ensures { result.now ≡ path_word word }
{
    match word {
        PathWord::Late => b"late",
        PathWord::Met => b"met",
        PathWord::NotRobust => b"none",
    }
}

/// Room in which paths are judged, for up to 64 tests at once. Contracts see the words of the lines.
#[derive(Drop)]
pub(crate) struct PathJudge {
    lanes: PairLanes,
    finals: Vec<bool>,
}

impl Model for PathJudge {
    ghost use Rattle.std.specs.Prelude.{◌≡◌, length};
    ghost use Rattle.test_grade.specs.Lines.{LineWords};

    ghost Value = { LineWords };

    ghost view = { λ s. s.lanes };

    ghost invariant = { λ s. length s.finals.items ≡ length s.lanes.finals };
}

impl PathJudge {
    /// Room for the lines of this netlist. The one error is that memory ran out.
    pub(crate) fn new(alloc: Global, net: &Netlist) -> Result<PathJudge, OutOfMemory>
        ensures { IfOk result (HasLineWords net.now) }
    {
        let lines = net.lines() as usize;
        Ok(PathJudge {
            lanes: PairLanes::new(alloc, net)?,
            finals: vec![in alloc; false; lines]?,
        })
    }

    /// Looks at a block of 64 tests where the test at this place is the first of one. Takes no memory.
    pub(crate) fn go_on(&mut self, net: &Netlist, tests: &[Test], place: usize)
        requires words { HasLineWords net.now self.old }
        requires lawful { AreLawfulTests net.now tests.now }
        requires place { place < length tests.now }
        requires before { place % 64 ≢ 0 → AreTestsUnder net.now (place / 64 * 64) tests.now self.old }
        ensures words { HasLineWords net.now self.new }
        ensures tests { AreTestsUnder net.now (place / 64 * 64) tests.now self.new }
    {
        if place % LANES != 0 {
            return;
        }
        self.lanes.look_at(net, tests, place);
    }

    /// The word on the test in a lane. Takes no memory.
    pub(crate) fn word_on(&mut self, at: &Sampling, test: &Test, lane: u32) -> PathWord
        requires can { CanSample at.now }
        requires lawful { IsLawfulTest at.now.net.now test.now }
        requires words { HasLineWords at.now.net.now self.old }
        requires lane { lane < 64 }
        requires under { AreUnder at.now.net.now test.now.pair lane self.old.finals self.old.steadies }
        ensures word { IsWordOn (sampling_of at.now) test.now result }
        ensures same { self.new ≡ self.old }
    {
        let PathJudge { lanes, finals } = self;
        let Some(listed) = robust_path(at, test, lanes, lane) else {
            return PathWord::NotRobust;
        };
        let length = final_length(at, listed, lanes, lane, finals.as_mut_slice());
        if length <= at.time {
            return PathWord::Met;
        }
        PathWord::Late
    }
}

// The listed path for which the test in a lane is a robust one, if there is one.
fn robust_path<'a>(
    at: &Sampling<'a>,
    test: &Test,
    lanes: &PairLanes,
    lane: u32,
) -> Option<&'a ListedPath>
    requires can { CanSample at.now }
    requires lawful { IsLawfulTest at.now.net.now test.now }
    requires words { HasLineWords at.now.net.now lanes.now }
    requires lane { lane < 64 }
    requires under { AreUnder at.now.net.now test.now.pair lane lanes.now.finals lanes.now.steadies }
    ensures { MatchOption result ((listed : Listed) → ¬ IsRobustFor (sampling_of at.now) test.now listed)
        (λ listed. IsRobustFor (sampling_of at.now) test.now listed.now) }
{
    let listed = at.paths.get(test.path as usize - 1)?;
    let path = &listed.path;
    if is_path(at.net, path) && lanes.meets(at.net, path, test.dir, Kind::Robust, lane) {
        Some(listed)
    } else {
        None
    }
}

// The length of a listed path for the values to which its lines go under the pair in a lane. The values of all lines stay in the slice.
fn final_length(
    at: &Sampling,
    listed: &ListedPath,
    lanes: &PairLanes,
    lane: u32,
    finals: &mut [bool],
) -> u64
    requires can { CanSample at.now }
    requires prefix { IsPrefix at.now.net.now listed.now.path }
    requires words { HasLineWords at.now.net.now lanes.now }
    requires lane { lane < 64 }
    requires places { length finals.old ≡ line_count at.now.net.now }
    ensures { (test : Tested) → AreUnder at.now.net.now test.pair lane lanes.now.finals lanes.now.steadies
        → result ≡ length_under (sampling_of at.now) test listed.now }
{
    lanes.final_values(lane, finals);
    length_rise_fall(at.net, at.delays, &listed.path, finals)
}
