// For which faults tests are what is asked: block by block, each test of a block in a lane, and for each fault a word.
ghost use Rattle.std.specs.Prelude.{◌≡◌, ◌≤◌, ◌<◌, ◌+◌, ◌*◌, ℕ, All, length, slice_index_or};
ghost use Rattle.pd_base.specs.Pair.{Vectors};
ghost use Rattle.netlist.specs.Circuit.{line_count, source_count};
ghost use Rattle.netlist.specs.Paths.{IsPrefix};
ghost use Rattle.test_grade.specs.Lines.{HasLineWords};
ghost use Rattle.test_grade.specs.Serving.{kind_due, kind_for, AreGraded, IsMatrix};

use crate::grading::meeting_lanes;
use crate::kind_asked::KindAsked;
use crate::pair_lanes::{LANES, PairLanes};
use netlist::Netlist;
use pd_base::{Direction, Kind, Test};
use runs::{ListedPath, Verdict};

/// For each block of 64 tests and each fault of the listed paths, path by path and the rising transition first, a word: its bit k, from 0,
/// tells whether the block's test k is what is asked for the fault. So many blocks have all tests, and the last one has some. There is a
/// word per line in `lanes`, and what stands there does not matter. Takes no memory.
pub(crate) fn grade_tests(
    net: &Netlist,
    paths: &[ListedPath],
    tests: &[Test],
    asked: KindAsked,
    blocks: usize,
    lanes: &mut PairLanes,
    words: &mut [u64],
)
    requires paths { All (λ listed. IsPrefix net.now listed.path) paths.now }
    requires firsts { All (λ test. length test.pair.first ≡ source_count net.now) tests.now }
    requires seconds { All (λ test. length test.pair.second ≡ source_count net.now) tests.now }
    requires lanes { HasLineWords net.now lanes.old }
    requires all { length tests.now ≤ blocks * 64 }
    requires few { blocks * 64 < length tests.now + 64 }
    requires words { blocks * (2 * length paths.now) ≤ length words.old }
    ensures { IsMatrix asked net.now paths.now tests.now (length tests.now) words.new }
{
    let mut base = 0;
    for block in 0..blocks {
        lanes.look_at(net, tests, block * LANES);
        grade_paths(
            net,
            paths,
            asked,
            lanes.finals(),
            lanes.steadies(),
            base,
            words,
        );
        base += 2 * paths.len();
    }
}

// Grades the faults of all paths.
fn grade_paths(
    net: &Netlist,
    paths: &[ListedPath],
    asked: KindAsked,
    finals: &[u64],
    steadies: &[u64],
    base: usize,
    words: &mut [u64],
)
    requires paths { All (λ listed. IsPrefix net.now listed.path) paths.now }
    requires finals { length finals.now ≡ line_count net.now }
    requires steadies { length steadies.now ≡ line_count net.now }
    requires words { base + 2 * length paths.now ≤ length words.old }
    ensures graded { AreGraded asked net.now paths.now finals.now steadies.now base (length paths.now) words.new }
    ensures before { (k : ℕ) → k < base → slice_index_or words.new k 0 ≡ slice_index_or words.old k 0 }
{
    for (place, listed) in paths.iter().enumerate() {
        let rise = kind_for(asked, listed.rise);
        words[base + 2 * place] = meeting_lanes(
            net,
            &listed.path,
            Direction::Rise,
            rise,
            finals,
            steadies,
        );
        let fall = kind_for(asked, listed.fall);
        words[base + 2 * place + 1] = meeting_lanes(
            net,
            &listed.path,
            Direction::Fall,
            fall,
            finals,
            steadies,
        );
    }
}

// The conditions that are asked of a test for a fault of this verdict.
fn kind_for(asked: KindAsked, verdict: Verdict) -> Kind
    ensures { result ≡ kind_for asked verdict }
{
    match asked {
        KindAsked::Covering => Kind::Robust,
        KindAsked::Serving => kind_due(verdict),
    }
}

// The conditions that a test has to meet to serve a fault of this verdict.
fn kind_due(verdict: Verdict) -> Kind
    ensures { result ≡ kind_due verdict }
{
    match verdict {
        Verdict::Nonrobust { .. } => Kind::Nonrobust,
        Verdict::Robust { .. } | Verdict::Untestable { .. } | Verdict::Aborted { .. } =>
            Kind::Robust,
    }
}
