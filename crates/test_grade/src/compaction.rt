// A list of tests without those that could be left out.
ghost use Rattle.std.specs.Prelude.{◌≡◌, ◌<◌, ℕ, All, Contains, IfOk, length};
ghost use Rattle.netlist.specs.Circuit.{source_count};
ghost use Rattle.netlist.specs.Paths.{IsPrefix};
ghost use Rattle.test_grade.specs.Compacted.{IsCompacted};
ghost use Rattle.test_grade.specs.Serving.{Serves};

use crate::covering::covering_order;
use crate::flagged_tests::flagged;
use crate::kind_asked::KindAsked;
use crate::leaving_out::keep_needed;
use crate::matrix::grade;
use netlist::Netlist;
use pd_base::{OutOfMemory, Test};
use runs::ListedPath;
use std::alloc::Global;

/// The tests without those that could be left out: each fault of the listed paths that a test serves is served by one that is kept, and
/// each test that is kept serves some fault that no other one does. The one error is that memory ran out, and then the tests are gone.
pub fn compact(
    alloc: Global,
    net: &Netlist,
    paths: &[ListedPath],
    tests: Vec<Test>,
) -> Result<Vec<Test>, OutOfMemory>
    requires paths { All (λ listed. IsPrefix net.now listed.path) paths.now }
    requires firsts { All (λ test. length test.pair.first ≡ source_count net.now) tests.items }
    requires seconds { All (λ test. length test.pair.second ≡ source_count net.now) tests.items }
    ensures { IfOk result (λ kept. IsCompacted (Serves net.now paths.now) tests.items kept.items) }
{
    let count = tests.len();
    let faults = 2 * paths.len();
    let words = grade(alloc, net, paths, tests.as_slice(), KindAsked::Serving)?;
    let first = covering_order(alloc, words.as_slice(), count, faults)?;
    let order = with_all(alloc, first, count)?;
    let kept = keep_needed(alloc, words.as_slice(), count, faults, order.as_slice())?;
    let left = flagged(alloc, tests, kept.as_slice())?;
    Ok(left)
}

// These places and behind them all.
fn with_all(alloc: Global, first: Vec<usize>, count: usize) -> Result<Vec<usize>, OutOfMemory>
    requires { All (λ place. place < count) first.items }
    ensures { IfOk result (λ order. All (λ place. place < count) order.items
        × ((place : ℕ) → place < count → Contains order.items place)) }
{
    let mut order = first;
    for place in 0..count {
        order.push(place)?;
    }
    Ok(order)
}
