// The counts of a run: its listed paths, its tests, its proofs.
ghost use Rattle.std.specs.Prelude.{◌≡◌, ◌≤◌, ◌<◌, ◌^◌, ◌∷◌, [], count_by, length, map, max, IfNone};
ghost use Rattle.pd_base.specs.declared.limits.TheConstants.{MOST_PATHS};
ghost use Rattle.netlist.specs.Greatest.{greatest};
ghost use Rattle.runs.specs.Verdicts.{verdicts_of};
ghost use Rattle.good_runs.specs.GoodRun.{greatest_cited, is_tested};
ghost use Rattle.claim_check.specs.Flaws.{TellsOfItems};
ghost use Rattle.claim_check.specs.Right.{IsRightCount};

use crate::claim::{Flaw, Reason};
use runs::{ListedPath, Run, Verdict};

// The first wrong count of a run that is to list so many paths.
pub(crate) fn wrong_count(first_count: usize, run: &Run) -> Option<Flaw>
    requires { first_count ≤ MOST_PATHS }
    ensures counts { TellsOfItems (IsRightCount first_count run.now) result }
    ensures few { IfNone result (length run.now.proofs < 2 ^ 32) }
{
    let paths = run.paths.as_slice();
    if paths.len() != first_count {
        return Some(Flaw {
            item: 1,
            reason: Reason::WrongCount,
        });
    }
    if run.tests.as_slice().len() != count_tested(paths) {
        return Some(Flaw {
            item: 2,
            reason: Reason::WrongCount,
        });
    }
    if run.proofs.as_slice().len() != greatest_cited(paths) as usize {
        return Some(Flaw {
            item: 3,
            reason: Reason::WrongCount,
        });
    }
    None
}

// How many verdicts have a test.
fn count_tested(paths: &[ListedPath]) -> usize
    requires { length paths.now ≤ MOST_PATHS }
    ensures { result ≡ count_by is_tested (verdicts_of paths.now) }
{
    let mut count = 0;
    for listed in paths {
        count += tested_in(listed);
    }
    count
}

// How many of the two verdicts on a path have one.
fn tested_in(listed: &ListedPath) -> usize
    ensures tests { result ≡ count_by is_tested (listed.now.rise ∷ listed.now.fall ∷ []) }
    ensures few { result ≤ 2 }
{
    match (is_tested(listed.rise), is_tested(listed.fall)) {
        (true, true) => 2,
        (false, false) => 0,
        _ => 1,
    }
}

// Whether a verdict has a test.
fn is_tested(verdict: Verdict) -> bool
    ensures { result ≡ is_tested verdict }
{
    matches!(verdict, Verdict::Robust { .. } | Verdict::Nonrobust { .. })
}

// The greatest number of a proof that verdicts cite, or 0.
fn greatest_cited(paths: &[ListedPath]) -> u32
    ensures { result ≡ greatest (map greatest_cited (verdicts_of paths.now)) }
{
    let mut greatest = 0;
    for listed in paths {
        greatest = greater(
            greater(greatest, cited_by(listed.rise)),
            cited_by(listed.fall),
        );
    }
    greatest
}

// The greatest number that a verdict cites, or 0.
fn cited_by(verdict: Verdict) -> u32
    ensures { result ≡ greatest_cited verdict }
{
    match verdict {
        Verdict::Robust { .. } => 0,
        Verdict::Nonrobust { proof, .. } => proof,
        Verdict::Untestable { proof } => proof,
        Verdict::Aborted { robust, nonrobust } => greater(robust, nonrobust),
    }
}

// The greater one of two numbers.
fn greater(a: u32, b: u32) -> u32
    ensures { result ≡ max a b }
{
    if a < b { b } else { a }
}
