// Tests are left out, one after another, where each fault that they serve is served by another one that is kept. For each fault it is
// counted how many kept tests serve it.
ghost use Rattle.std.specs.Prelude.{◌≡◌, ◌≤◌, ◌<◌, ◌+◌, ◌-◌, ◌*◌, ◌/◌, ℕ, true, if◌then◌else◌, All, Contains, IfOk, IsTrue, MatchOption, length};
ghost use Rattle.test_grade.specs.Compact.{serves_in, HasWords, is_kept, IsCompact, count_below, count_of, AreCounted, IsAlone, IsTried};

use logic_values::bit_in_lane;
use pd_base::OutOfMemory;
use std::alloc::Global;

/// Which tests to keep, so that each fault that is served is served by a kept one, and none that is kept could be left out. They are
/// tried in this order, in which each of them stands. There is a word for each block of 64 tests and each fault, block after block: bit
/// k, from 0, tells whether the block's test k serves the fault. The one error is that memory ran out.
pub(crate) fn keep_needed(
    alloc: Global,
    words: &[u64],
    tests: usize,
    faults: usize,
    order: &[usize],
) -> Result<Vec<bool>, OutOfMemory>
    requires words { HasWords words.now tests faults }
    requires order { All (λ test. test < tests) order.now }
    requires whole { (test : ℕ) → test < tests → Contains order.now test }
    ensures { IfOk result (λ kept. IsCompact tests faults (serves_in words.now faults) kept.items) }
{
    let mut kept = vec![in alloc; true; tests]?;
    let mut counts = vec![in alloc; 0; faults]?;
    decide(words, order, kept.as_mut_slice(), counts.as_mut_slice());
    Ok(kept)
}

// The same in places where all tests are kept at first.
fn decide(words: &[u64], order: &[usize], kept: &mut [bool], counts: &mut [usize])
    requires words { HasWords words.now (length kept.old) (length counts.old) }
    requires order { All (λ test. test < length kept.old) order.now }
    requires whole { (test : ℕ) → test < length kept.old → Contains order.now test }
    requires all { (test : ℕ) → test < length kept.old → IsTrue (is_kept kept.old test) }
    ensures { IsCompact (length kept.old) (length counts.old) (serves_in words.now (length counts.old)) kept.new }
{
    count_servers(words, kept.len(), counts);
    try_all(words, order, kept, counts);
}

/// Whether a test is what was asked for a fault, by the words of `grade`, which have so many faults. Takes no memory.
pub fn serves(words: &[u64], faults: usize, test: usize, fault: usize) -> bool
    requires { test / 64 * faults + fault < length words.now }
    ensures { result ≡ serves_in words.now faults test fault }
{
    bit_in_lane(words[test / 64 * faults + fault], (test % 64) as u32)
}

// Counts for each fault how many tests serve it.
fn count_servers(words: &[u64], tests: usize, counts: &mut [usize])
    requires { HasWords words.now tests (length counts.old) }
    ensures { (fault : ℕ) → fault < length counts.old
        → count_of counts.new fault ≡ count_below (λ test. serves_in words.now (length counts.old) test fault) tests }
{
    for fault in 0..counts.len() {
        counts[fault] = servers_of(words, tests, counts.len(), fault);
    }
}

// How many tests serve a fault.
fn servers_of(words: &[u64], tests: usize, faults: usize, fault: usize) -> usize
    requires words { HasWords words.now tests faults }
    requires fault { fault < faults }
    ensures { result ≡ count_below (λ test. serves_in words.now faults test fault) tests }
{
    let mut count = 0;
    for test in 0..tests {
        if serves(words, faults, test, fault) {
            count += 1;
        }
    }
    count
}

// Tries one test after another.
fn try_all(words: &[u64], order: &[usize], kept: &mut [bool], counts: &mut [usize])
    requires words { HasWords words.now (length kept.old) (length counts.old) }
    requires order { All (λ test. test < length kept.old) order.now }
    requires whole { (test : ℕ) → test < length kept.old → Contains order.now test }
    requires counted { AreCounted (length kept.old) (serves_in words.now (length counts.old)) kept.old counts.old }
    requires all { (test : ℕ) → test < length kept.old → IsTrue (is_kept kept.old test) }
    ensures { IsCompact (length kept.old) (length counts.old) (serves_in words.now (length counts.old)) kept.new }
{
    for test in order {
        try_one(words, *test, kept, counts);
    }
}

// Leaves a test out where no fault needs it.
fn try_one(words: &[u64], test: usize, kept: &mut [bool], counts: &mut [usize])
    requires words { HasWords words.now (length kept.old) (length counts.old) }
    requires test { test < length kept.old }
    requires counted { AreCounted (length kept.old) (serves_in words.now (length counts.old)) kept.old counts.old }
    ensures counted { AreCounted (length kept.old) (serves_in words.now (length counts.old)) kept.new counts.new }
    ensures tried { IsTried (serves_in words.now (length counts.old)) test kept.old counts.old kept.new counts.new }
{
    if kept[test] && needing_fault(words, test, counts).is_none() {
        kept[test] = false;
        count_off(words, test, counts);
    }
}

// A fault that this test serves and at most one does.
fn needing_fault(words: &[u64], test: usize, counts: &[usize]) -> Option<usize>
    requires { (fault : ℕ) → fault < length counts.now → test / 64 * length counts.now + fault < length words.now }
    ensures { MatchOption result
        ((fault : ℕ) → fault < length counts.now → IsTrue (serves_in words.now (length counts.now) test fault) → 2 ≤ count_of counts.now fault)
        (λ fault. IsAlone (serves_in words.now (length counts.now)) counts.now test fault) }
{
    for fault in 0..counts.len() {
        if serves(words, counts.len(), test, fault) && counts[fault] < 2 {
            return Some(fault);
        }
    }
    None
}

// Counts a test off at the faults that it serves.
fn count_off(words: &[u64], test: usize, counts: &mut [usize])
    requires words { (fault : ℕ) → fault < length counts.old → test / 64 * length counts.old + fault < length words.now }
    requires counts { (fault : ℕ) → fault < length counts.old → IsTrue (serves_in words.now (length counts.old) test fault)
        → 2 ≤ count_of counts.old fault }
    ensures { (fault : ℕ) → fault < length counts.old → count_of counts.new fault
        ≡ count_of counts.old fault - (if serves_in words.now (length counts.old) test fault then 1 else 0) }
{
    for fault in 0..counts.len() {
        if serves(words, counts.len(), test, fault) {
            counts[fault] -= 1;
        }
    }
}
