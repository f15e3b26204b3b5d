// The stages of `compact` in their order, up to the tests that are kept. Nothing is written here.
ghost use Rattle.std.specs.Prelude.{◌≡◌, IfOk, length};
ghost use Rattle.pd_io.specs.Seen.{files_seen};
ghost use Rattle.netlist.specs.Lawful.{IsCircuit};
ghost use Rattle.runs.specs.Lawful.{AreLawfulTests};
ghost use Rattle.test_grade.specs.Compacted.{IsCompacted};
ghost use Rattle.test_grade.specs.Serving.{Serves};
ghost use Rattle.command_line.specs.CompactForm.{compact_call_of};
ghost use Rattle.calls.specs.Preparing.{Prepares};
ghost use Rattle.commands.specs.Compact.{compact_work, kept_line, kept_products};
ghost use Rattle.commands.specs.Grading.{CanBeGraded};

use crate::inputs::{TestsAndPaths, graded_in, netlist_from, tests_and_report_from};
use calls::Ending;
use command_line::CompactCommand;
use netlist::Netlist;
use pd_base::{OutOfMemory, Test, push_decimal};
use pd_io::Files;
use std::alloc::Global;
use test_grade::compact;

/// What `compact` made of its inputs: all that its products spell.
#[derive(Drop)]
pub(crate) struct Kept {
    /// The netlist.
    pub(crate) net: Netlist,
    /// The tests that are kept.
    pub(crate) tests: Vec<Test>,
    /// The line that says how many they are, and of how many.
    pub(crate) line: Vec<u8>,
}

/// Reads NET, which has to have a circuit, TESTS and REPORT, whose tests have to be such that they can be graded, and leaves out the tests
/// that could be left out. Nothing is written.
pub(crate) fn prepare_compact<F: Files>(
    alloc: Global,
    command: &CompactCommand,
    files: &mut F,
) -> Result<Kept, Ending>
    ensures prepares { Prepares (kept_products (compact_call_of command.now)) (compact_work (compact_call_of command.now)) result
        (files_seen F.Files files.old) (files_seen F.Files files.new) }
    ensures writable { IfOk result (λ made. AreLawfulTests made.net made.tests.items) }
{
    let net = netlist_from(alloc, files, command.net)?;
    let texts = tests_and_report_from(alloc, files, command.tests, command.report)?;
    let listed = graded_in(alloc, b"compact", &net, &texts)?;
    Ok(kept_of(alloc, net, listed)?)
}

// What is kept of these tests.
fn kept_of(alloc: Global, net: Netlist, listed: TestsAndPaths) -> Result<Kept, OutOfMemory>
    requires circuit { IsCircuit net }
    requires lawful { AreLawfulTests net listed.tests.items }
    requires graded { CanBeGraded net listed.tests.items listed.paths.items }
    ensures net { IfOk result (λ made. made.net ≡ net) }
    ensures compacted { IfOk result (λ made. IsCompacted (Serves net listed.paths.items) listed.tests.items made.tests.items) }
    ensures line { IfOk result (λ made. made.line.items ≡ kept_line (length made.tests.items) (length listed.tests.items)) }
{
    let TestsAndPaths { tests, paths } = listed;
    let all = tests.len();
    let kept = compact(alloc, &net, paths.as_slice(), tests)?;
    let line = kept_line(alloc, kept.len(), all)?;
    Ok(Kept {
        net,
        tests: kept,
        line,
    })
}

// The line that says how many tests are kept of how many.
fn kept_line(alloc: Global, kept: usize, all: usize) -> Result<Vec<u8>, OutOfMemory>
    ensures { IfOk result (λ text. text.items ≡ kept_line kept all) }
{
    let mut text = Vec::new(alloc);
    text.extend_from_slice(b"kept ")?;
    push_decimal(&mut text, kept as u64)?;
    text.extend_from_slice(b" of ")?;
    push_decimal(&mut text, all as u64)?;
    text.push(b'\n')?;
    Ok(text)
}
