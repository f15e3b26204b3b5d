// An order in which to try to leave tests out: first those that a greedy cover of all faults does without, then those of the cover, from
// the one that was taken last. A hint: which tests are kept is decided by trying, and nothing rests on this order but how many stay.
ghost use Rattle.std.specs.Prelude.{◌≡◌, ◌<◌, ◌*◌, All, IfOk, length};
ghost use Rattle.test_grade.specs.Compact.{HasWords};

use crate::leaving_out::serves;
use pd_base::OutOfMemory;
use std::alloc::Global;

/// The order, in which each place is one of a test. The one error is that memory ran out.
pub(crate) fn covering_order(
    alloc: Global,
    words: &[u64],
    tests: usize,
    faults: usize,
) -> Result<Vec<usize>, OutOfMemory>
    requires { HasWords words.now tests faults }
    ensures { IfOk result (λ order. All (λ test. test < tests) order.items) }
{
    let mut gains = vec![in alloc; 0; tests]?;
    let mut covered = vec![in alloc; false; faults]?;
    let mut taken = vec![in alloc; false; tests]?;
    let cover = take_all(
        alloc,
        words,
        gains.as_mut_slice(),
        covered.as_mut_slice(),
        taken.as_mut_slice(),
    )?;
    ordered(alloc, taken.as_slice(), cover.as_slice())
}

// Takes tests into the cover, one after another, as long as one serves a fault that is not covered.
fn take_all(
    alloc: Global,
    words: &[u64],
    gains: &mut [usize],
    covered: &mut [bool],
    taken: &mut [bool],
) -> Result<Vec<usize>, OutOfMemory>
    requires words { HasWords words.now (length gains.old) (length covered.old) }
    requires taken { length taken.old ≡ length gains.old }
    ensures { IfOk result (λ cover. All (λ test. test < length gains.old) cover.items) }
{
    count_gains(words, covered.len(), gains);
    let mut cover = Vec::new(alloc);
    for _ in 0..gains.len() {
        let best = best_of(gains);
        if gains[best] == 0 {
            break;
        }
        cover.push(best)?;
        taken[best] = true;
        take(words, best, gains, covered);
    }
    Ok(cover)
}

// How many faults each test serves.
fn count_gains(words: &[u64], faults: usize, gains: &mut [usize])
    requires { HasWords words.now (length gains.old) faults }
{
    for test in 0..gains.len() {
        for fault in 0..faults {
            if serves(words, faults, test, fault) {
                gains[test] = gains[test].saturating_add(1);
            }
        }
    }
}

// The first test of the greatest gain.
fn best_of(gains: &[usize]) -> usize
    requires { 0 < length gains.now }
    ensures { result < length gains.now }
{
    let mut best = 0;
    for test in 0..gains.len() {
        if gains[best] < gains[test] {
            best = test;
        }
    }
    best
}

// Covers the faults that a test serves, which from then on are no other test's gain.
fn take(words: &[u64], test: usize, gains: &mut [usize], covered: &mut [bool])
    requires words { HasWords words.now (length gains.old) (length covered.old) }
    requires test { test < length gains.old }
{
    for fault in 0..covered.len() {
        if !covered[fault] && serves(words, covered.len(), test, fault) {
            covered[fault] = true;
            lose(words, covered.len(), fault, gains);
        }
    }
}

// A fault is no test's gain any more.
fn lose(words: &[u64], faults: usize, fault: usize, gains: &mut [usize])
    requires words { HasWords words.now (length gains.old) faults }
    requires fault { fault < faults }
{
    for test in 0..gains.len() {
        if serves(words, faults, test, fault) {
            gains[test] = gains[test].saturating_sub(1);
        }
    }
}

// Those that are not taken, and then the cover from behind.
fn ordered(alloc: Global, taken: &[bool], cover: &[usize]) -> Result<Vec<usize>, OutOfMemory>
    requires { All (λ test. test < length taken.now) cover.now }
    ensures { IfOk result (λ order. All (λ test. test < length taken.now) order.items) }
{
    let mut order = Vec::new(alloc);
    for test in 0..taken.len() {
        if !taken[test] {
            order.push(test)?;
        }
    }
    for place in (0..cover.len()).rev() {
        order.push(cover[place])?;
    }
    Ok(order)
}
