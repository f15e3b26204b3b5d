// Upper bounds of the delays of paths, from the tests that passed.
ghost use Rattle.std.specs.Prelude.{◌≡◌, All, IfOk, length};
ghost use Rattle.netlist.specs.Circuit.{source_count};
ghost use Rattle.netlist.specs.Paths.{IsPath};
ghost use Rattle.delay_bounds.specs.Bounds.{AreBounds, NamesTest};

use crate::LogRow;
use crate::earliest::{earliest_passes, least_times};
use netlist::Netlist;
use pd_base::{OutOfMemory, Test};
use runs::ListedPath;
use std::alloc::Global;
use test_grade::{KindAsked, grade};

/// For each fault of the listed paths, path by path and the rising transition first, the least time of a row of the log by which a test
/// passed that covers the fault, in delay units, and none exactly where there is no such row. A path is no longer than that under any
/// delays that agree with the log. The paths are paths of the netlist, the vectors of the tests have a bit for each source, and each row
/// names one of the tests. The one error is that memory ran out.
pub fn bounds(
    alloc: Global,
    net: &Netlist,
    paths: &[ListedPath],
    tests: &[Test],
    log: &[LogRow],
) -> Result<Vec<Option<u64>>, OutOfMemory>
    requires paths { All (λ listed. IsPath net.now listed.path) paths.now }
    requires firsts { All (λ test. length test.pair.first ≡ source_count net.now) tests.now }
    requires seconds { All (λ test. length test.pair.second ≡ source_count net.now) tests.now }
    requires named { All (NamesTest (length tests.now)) log.now }
    ensures { IfOk result (λ bounds. AreBounds net.now tests.now log.now paths.now bounds.items) }
{
    // A netlist is a circuit.
    let _ = net.lines();
    let words = grade(alloc, net, paths, tests, KindAsked::Covering)?;
    let times = earliest_passes(alloc, tests.len(), log)?;
    let least = least_times(alloc, words.as_slice(), 2 * paths.len(), times.as_slice())?;
    Ok(least)
}
