// For which faults the tests of a list are what is asked, in words that are made for them.
ghost use Rattle.std.specs.Prelude.{◌≡◌, ◌≤◌, ◌<◌, ◌+◌, ◌*◌, All, IfOk, length};
ghost use Rattle.netlist.specs.Circuit.{source_count};
ghost use Rattle.netlist.specs.Paths.{IsPrefix};
ghost use Rattle.test_grade.specs.Compact.{HasWords};
ghost use Rattle.test_grade.specs.Serving.{IsMatrix};

use crate::kind_asked::KindAsked;
use crate::pair_lanes::PairLanes;
use crate::serving::grade_tests;
use netlist::Netlist;
use pd_base::{OutOfMemory, Test};
use runs::ListedPath;
use std::alloc::Global;

/// For which faults each test is what is asked: for each block of 64 tests, block after block, a word for each fault, path by path and
/// the rising transition first, whose bit k, from 0, tells of the block's test k. `serves` reads a bit. The one error is that memory ran
/// out.
pub fn grade(
    alloc: Global,
    net: &Netlist,
    paths: &[ListedPath],
    tests: &[Test],
    asked: KindAsked,
) -> Result<Vec<u64>, OutOfMemory>
    requires paths { All (λ listed. IsPrefix net.now listed.path) paths.now }
    requires firsts { All (λ test. length test.pair.first ≡ source_count net.now) tests.now }
    requires seconds { All (λ test. length test.pair.second ≡ source_count net.now) tests.now }
    ensures places { IfOk result (λ words. HasWords words.items (length tests.now) (2 * length paths.now)) }
    ensures tells { IfOk result (λ words. IsMatrix asked net.now paths.now tests.now (length tests.now) words.items) }
{
    let blocks = blocks_of(tests.len());
    let count = word_count(blocks, 2 * paths.len())?;
    let words = graded(alloc, net, paths, tests, asked, blocks, count)?;
    Ok(words)
}

// The words of so many blocks, which are so many.
fn graded(
    alloc: Global,
    net: &Netlist,
    paths: &[ListedPath],
    tests: &[Test],
    asked: KindAsked,
    blocks: usize,
    count: usize,
) -> Result<Vec<u64>, OutOfMemory>
    requires paths { All (λ listed. IsPrefix net.now listed.path) paths.now }
    requires firsts { All (λ test. length test.pair.first ≡ source_count net.now) tests.now }
    requires seconds { All (λ test. length test.pair.second ≡ source_count net.now) tests.now }
    requires all { length tests.now ≤ blocks * 64 }
    requires few { blocks * 64 < length tests.now + 64 }
    requires count { count ≡ blocks * (2 * length paths.now) }
    ensures count { IfOk result (λ words. length words.items ≡ count) }
    ensures tells { IfOk result (λ words. IsMatrix asked net.now paths.now tests.now (length tests.now) words.items) }
{
    let mut lanes = PairLanes::new(alloc, net)?;
    let mut words = vec![in alloc; 0; count]?;
    grade_tests(
        net,
        paths,
        tests,
        asked,
        blocks,
        &mut lanes,
        words.as_mut_slice(),
    );
    Ok(words)
}

// In how many blocks of 64 so many tests stand.
fn blocks_of(count: usize) -> usize
    ensures all { count ≤ result * 64 }
    ensures few { result * 64 < count + 64 }
{
    if count % 64 == 0 {
        count / 64
    } else {
        count / 64 + 1
    }
}

// How many words so many blocks have. More than can be counted is more than memory has.
fn word_count(blocks: usize, faults: usize) -> Result<usize, OutOfMemory>
    ensures { IfOk result (λ count. count ≡ blocks * faults) }
{
    match blocks.checked_mul(faults) {
        Some(count) => Ok(count),
        None => Err(OutOfMemory::of_size(blocks, faults)),
    }
}
