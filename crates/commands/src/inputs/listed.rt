// TESTS and REPORT together: both are read before either is tried for its form. A command that reads more behind them does so between these
// two calls.
ghost use Rattle.std.specs.Prelude.{IfErr, IfOk};
ghost use Rattle.pd_io.specs.Seen.{files_seen};
ghost use Rattle.commands.specs.Inside.TestsAndPaths.{AreBothWithin, FailsToReadBoth, FailsToSpellBoth, ReadsBoth};
ghost use Rattle.commands.specs.SpelledRuns.{SpellTestsAndPaths};

use crate::inputs::claims::{report_in, tests_in};
use crate::inputs::reading::text_from;
use calls::{Ending, Role};
use netlist::Netlist;
use pd_base::Test;
use pd_io::Files;
use runs::ListedPath;
use std::alloc::Global;

/// The bytes of the two files.
#[derive(Drop)]
pub(crate) struct TestsAndReport {
    /// Those of TESTS.
    pub(crate) tests: Vec<u8>,
    /// Those of REPORT.
    pub(crate) report: Vec<u8>,
}

/// What they spell.
#[derive(Drop)]
pub(crate) struct TestsAndPaths {
    /// The tests of TESTS, in order.
    pub(crate) tests: Vec<Test>,
    /// The listed paths of REPORT, in order.
    pub(crate) paths: Vec<ListedPath>,
}

/// Reads TESTS and then REPORT, up to the first that is not read, or is over its limit.
pub(crate) fn tests_and_report_from<F: Files>(
    alloc: Global,
    files: &mut F,
    tests_name: &str,
    report_name: &str,
) -> Result<TestsAndReport, Ending>
    ensures within { IfOk result AreBothWithin }
    ensures reads { IfOk result (λ texts. ReadsBoth tests_name.now report_name.now texts
        (files_seen F.Files files.old) (files_seen F.Files files.new)) }
    ensures fails { IfErr result (λ ending. FailsToReadBoth tests_name.now report_name.now ending
        (files_seen F.Files files.old) (files_seen F.Files files.new)) }
{
    let tests = text_from(alloc, files, Role::Tests, tests_name)?;
    let report = text_from(alloc, files, Role::Report, report_name)?;
    Ok(TestsAndReport { tests, report })
}

/// The tests of NET and the listed paths that the two texts spell. They are refused, under the word of the command, exactly where one of
/// them lacks its form: TESTS is tried first.
pub(crate) fn tests_and_paths_in(
    alloc: Global,
    command: &'static [u8],
    net: &Netlist,
    texts: &TestsAndReport,
) -> Result<TestsAndPaths, Ending>
    requires { AreBothWithin texts.now }
    ensures spells { IfOk result (λ listed. SpellTestsAndPaths net.now texts.now.tests.items texts.now.report.items
        listed.tests.items listed.paths.items) }
    ensures fails { IfErr result (FailsToSpellBoth command.now net.now texts.now.tests.items texts.now.report.items) }
{
    let tests = tests_in(alloc, command, net, texts.tests.as_slice())?;
    let paths = report_in(alloc, command, net, texts.report.as_slice())?;
    Ok(TestsAndPaths { tests, paths })
}
