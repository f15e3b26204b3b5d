// The line of counts that a run ends with.
ghost use Rattle.std.specs.Prelude.{◌≡◌, ◌+◌, ◌-◌, ◌++◌, ◌^◌, ◌<◌, IfOk, OnOk, decimal};
ghost use Rattle.runs.specs.Verdicts.{verdicts_of};
ghost use Rattle.run_files.specs.Summary.{counts_text, summary_text};
ghost use Rattle.run_files.specs.VerdictCounts.{AreCountsOf, CountsOneMore, verdict_total};

use pd_base::{OutOfMemory, push_decimal};
use runs::{ListedPath, Run, Verdict};
use std::alloc::Global;

// How many faults have each verdict.
#[derive(Clone, Copy)]
struct Counts {
    robust: u64,
    nonrobust: u64,
    untestable: u64,
    aborted: u64,
}

/// The line that says how many paths a run lists, and how many of their faults have each verdict.
pub fn summary_text(alloc: Global, run: &Run) -> Result<Vec<u8>, OutOfMemory>
    ensures { IfOk result (λ text. text.items ≡ summary_text run.now) }
{
    let mut text = Vec::new(alloc);
    push_counts(&mut text, run)?;
    text.push(b'\n')?;
    Ok(text)
}

/// Appends how many paths a run lists, and how many of their faults have each verdict. If memory runs out, a part of it may have
/// been appended; so too below.
pub(crate) fn push_counts(out: &mut Vec<u8>, run: &Run) -> Result<(), OutOfMemory>
    ensures { OnOk result (out.new.items ≡ out.old.items ++ counts_text run.now) }
{
    let paths = run.paths.as_slice();
    let counts = count_verdicts(paths);
    push_count(out, b"paths ", paths.len() as u64)?;
    push_count(out, b" robust ", counts.robust)?;
    push_count(out, b" nonrobust ", counts.nonrobust)?;
    push_count(out, b" untestable ", counts.untestable)?;
    push_count(out, b" aborted ", counts.aborted)
}

/// Appends a word, with its spaces, and a count.
pub(crate) fn push_count(out: &mut Vec<u8>, word: &[u8], count: u64) -> Result<(), OutOfMemory>
    ensures { OnOk result (out.new.items ≡ out.old.items ++ word.now ++ decimal count) }
{
    out.extend_from_slice(word)?;
    push_decimal(out, count)
}

// Counts the verdicts of both transitions of each path.
fn count_verdicts(paths: &[ListedPath]) -> Counts
    ensures { AreCountsOf result (verdicts_of paths.now) }
{
    let mut counts = Counts {
        robust: 0,
        nonrobust: 0,
        untestable: 0,
        aborted: 0,
    };
    for listed in paths {
        counts = count_one(counts, listed.rise);
        counts = count_one(counts, listed.fall);
    }
    counts
}

// The counts with one more verdict counted.
fn count_one(counts: Counts, verdict: Verdict) -> Counts
    requires { verdict_total counts < 2 ^ 64 - 1 }
    ensures { CountsOneMore counts result verdict }
{
    match verdict {
        Verdict::Robust { .. } => Counts {
            robust: counts.robust + 1,
            ..counts
        },
        Verdict::Nonrobust { .. } => Counts {
            nonrobust: counts.nonrobust + 1,
            ..counts
        },
        Verdict::Untestable { .. } => Counts {
            untestable: counts.untestable + 1,
            ..counts
        },
        Verdict::Aborted { .. } => Counts {
            aborted: counts.aborted + 1,
            ..counts
        },
    }
}
