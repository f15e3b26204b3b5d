// The stages of `bounds` in their order, up to the text that is to be printed. Nothing is written here.
ghost use Rattle.std.specs.Prelude.{◌≡◌, ◌<◌, ◌≤◌, ◌^◌, All, IfErr, IfOk, length};
ghost use Rattle.pd_io.specs.Seen.{files_seen};
ghost use Rattle.netlist.specs.Lawful.{IsCircuit};
ghost use Rattle.runs.specs.Lawful.{AreLawfulTests};
ghost use Rattle.command_line.specs.BoundsForm.{bounds_call_of};
ghost use Rattle.calls.specs.Preparing.{Prepares};
ghost use Rattle.delay_bounds.specs.Bounds.{NamesTest};
ghost use Rattle.delay_bounds.specs.LogFile.{IsLog};
ghost use Rattle.commands.specs.Bounds.{bounds_work};
ghost use Rattle.commands.specs.Grading.{CanBeGraded};
ghost use Rattle.commands.specs.Inside.BoundsJudging.{FailsLog, TellsBounds};
ghost use Rattle.commands.specs.Printed.{printed_text};
ghost use Rattle.commands.specs.declared.inputs.reading.TheConstants.{INPUT_LIMIT};

use crate::bounds::log_ending::log_ending;
use crate::bounds::text::bounds_text;
use crate::inputs::{TestsAndPaths, graded_in, netlist_from, tests_and_report_from, text_from};
use calls::{Ending, Role};
use command_line::BoundsCommand;
use delay_bounds::{LogRow, bounds, read_log};
use netlist::Netlist;
use pd_base::{OutOfMemory, Test};
use pd_io::Files;
use std::alloc::Global;

/// Reads NET, which has to have a circuit, and TESTS, REPORT and LOG; requires that the tests can be graded and that LOG is a log of them;
/// and makes the text. Nothing is written.
pub(crate) fn prepare_bounds<F: Files>(
    alloc: Global,
    command: &BoundsCommand,
    files: &mut F,
) -> Result<Vec<u8>, Ending>
    ensures { Prepares printed_text (bounds_work (bounds_call_of command.now)) result
        (files_seen F.Files files.old) (files_seen F.Files files.new) }
{
    let net = netlist_from(alloc, files, command.net)?;
    let texts = tests_and_report_from(alloc, files, command.tests, command.report)?;
    let log = text_from(alloc, files, Role::Log, command.log)?;
    let listed = graded_in(alloc, b"bounds", &net, &texts)?;
    let rows = log_in(alloc, listed.tests.as_slice(), log.as_slice())?;
    Ok(text_for(alloc, &net, &listed, rows.as_slice())?)
}

// The rows of the log of these tests that the text of LOG is. A text is refused exactly where it is none.
fn log_in(alloc: Global, tests: &[Test], text: &[u8]) -> Result<Vec<LogRow>, Ending>
    requires few { length tests.now < 2 ^ 32 }
    requires within { length text.now ≤ INPUT_LIMIT }
    ensures log { IfOk result (λ rows. IsLog (length tests.now) text.now rows.items) }
    ensures fails { IfErr result (FailsLog (length tests.now) text.now) }
{
    match read_log(alloc, tests.len() as u32, text) {
        Ok(rows) => Ok(rows),
        Err(fault) => Err(log_ending(fault)),
    }
}

// The text of the bounds that these rows show for the faults of the listed paths.
fn text_for(
    alloc: Global,
    net: &Netlist,
    listed: &TestsAndPaths,
    rows: &[LogRow],
) -> Result<Vec<u8>, OutOfMemory>
    requires circuit { IsCircuit net.now }
    requires lawful { AreLawfulTests net.now listed.now.tests.items }
    requires graded { CanBeGraded net.now listed.now.tests.items listed.now.paths.items }
    requires named { All (NamesTest (length listed.now.tests.items)) rows.now }
    ensures { IfOk result (λ text. TellsBounds net.now listed.now.tests.items listed.now.paths.items rows.now text.items) }
{
    let least = bounds(
        alloc,
        net,
        listed.paths.as_slice(),
        listed.tests.as_slice(),
        rows,
    )?;
    bounds_text(alloc, listed.paths.len(), least.as_slice())
}
