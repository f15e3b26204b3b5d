// The earliest pass of each test, and of those that cover a fault the earliest of all.
ghost use Rattle.std.specs.Prelude.{◌≡◌, ◌<◌, ℕ, All, None, IfOk, length, slice_index_or};
ghost use Rattle.test_grade.specs.Compact.{HasWords};
ghost use Rattle.delay_bounds.specs.Bounds.{NamesTest};
ghost use Rattle.delay_bounds.specs.Least.{IsLeast};
ghost use Rattle.delay_bounds.specs.Inside.Earliest.{AreEarliest, AreLeast, IsTold, earlier};

use crate::LogRow;
use pd_base::OutOfMemory;
use std::alloc::Global;
use test_grade::serves;

// For each of so many tests the least time at which a row of the log has it pass.
pub(crate) fn earliest_passes(
    alloc: Global,
    tests: usize,
    log: &[LogRow],
) -> Result<Vec<Option<u64>>, OutOfMemory>
    requires { All (NamesTest tests) log.now }
    ensures count { IfOk result (λ times. length times.items ≡ tests) }
    ensures earliest { IfOk result (λ times. AreEarliest log.now (length log.now) times.items) }
{
    let mut times = vec![in alloc; None; tests]?;
    note_passes(log, times.as_mut_slice());
    Ok(times)
}

// The same in places where no test has a time at first.
fn note_passes(log: &[LogRow], times: &mut [Option<u64>])
    requires named { All (NamesTest (length times.old)) log.now }
    requires none { (place : ℕ) → slice_index_or times.old place None ≡ None }
    ensures { AreEarliest log.now (length log.now) times.new }
{
    for row in log {
        if row.pass {
            let place = row.test as usize - 1;
            times[place] = earlier(times[place], Some(row.time));
        }
    }
}

// For each of so many faults the least time of the tests that serve it.
pub(crate) fn least_times(
    alloc: Global,
    words: &[u64],
    faults: usize,
    times: &[Option<u64>],
) -> Result<Vec<Option<u64>>, OutOfMemory>
    requires { HasWords words.now (length times.now) faults }
    ensures { IfOk result (λ bounds. AreLeast words.now faults times.now faults bounds.items) }
{
    let mut bounds = Vec::new(alloc);
    for fault in 0..faults {
        bounds.push(least_time(words, faults, fault, times))?;
    }
    Ok(bounds)
}

// That of one fault.
fn least_time(words: &[u64], faults: usize, fault: usize, times: &[Option<u64>]) -> Option<u64>
    requires words { HasWords words.now (length times.now) faults }
    requires fault { fault < faults }
    ensures { IsLeast (IsTold words.now faults fault times.now (length times.now)) result }
{
    let mut least = None;
    for (test, time) in times.iter().enumerate() {
        if serves(words, faults, test, fault) {
            least = earlier(least, *time);
        }
    }
    least
}

// The lesser of two times, of which there may be none.
fn earlier(first: Option<u64>, second: Option<u64>) -> Option<u64>
    ensures { result ≡ earlier first second }
{
    match first {
        None => second,
        Some(time) => match second {
            None => first,
            Some(other) => Some(time.min(other)),
        },
    }
}
