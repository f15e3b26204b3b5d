// What commands that grade tests require of TESTS and REPORT together: both have their form, each listed path is a path of the netlist, each
// test expects what the observed lines have, and there is not too much to grade. Which tests serve which faults is asked of test_grade.
ghost use Rattle.std.specs.Prelude.{◌≡◌, ◌*◌, ◌<◌, ◌≤◌, ◌^◌, All, IfErr, IfOk, MatchOption, OnOk, length};
ghost use Rattle.netlist.specs.Circuit.{source_count};
ghost use Rattle.runs.specs.Lawful.{IsNameable};
ghost use Rattle.commands.specs.Grading.{AreTooManyGrades, CanBeGraded, ExpectsValues, HaveWrongExpected, HaveWrongPath, IsFirstWithout, ListsPath, grades, too_many_grades, wrong_item};
ghost use Rattle.commands.specs.Inside.Grading.{FailsToBeGraded};
ghost use Rattle.commands.specs.Inside.InputJudging.{FailsFor};
ghost use Rattle.commands.specs.Inside.TestsAndPaths.{AreBothWithin};
ghost use Rattle.commands.specs.SpelledRuns.{SpellTestsAndPaths};

use crate::inputs::listed::{TestsAndPaths, TestsAndReport, tests_and_paths_in};
use calls::{Cause, Ending, Part, Refusal};
use logic_values::expect_observed;
use netlist::Netlist;
use path_model::is_path;
use pd_base::{OutOfMemory, Test};
use runs::ListedPath;
use std::alloc::Global;

/// The most tests times faults that are graded.
pub const MOST_GRADES: u64 = 1_000_000;

/// The tests of NET and the listed paths that the two texts spell, which can be graded against each other. They are refused under the word
/// of the command: where a text lacks its form, a listed path is no path, a test expects other values, or there is too much to grade, the
/// first of these.
pub(crate) fn graded_in(
    alloc: Global,
    command: &'static [u8],
    net: &Netlist,
    texts: &TestsAndReport,
) -> Result<TestsAndPaths, Ending>
    requires { AreBothWithin texts.now }
    ensures spells { IfOk result (λ listed. SpellTestsAndPaths net.now texts.now.tests.items texts.now.report.items
        listed.tests.items listed.paths.items) }
    ensures graded { IfOk result (λ listed. CanBeGraded net.now listed.tests.items listed.paths.items) }
    ensures fails { IfErr result (FailsToBeGraded command.now net.now texts.now.tests.items texts.now.report.items) }
{
    let listed = tests_and_paths_in(alloc, command, net, texts)?;
    require_paths(command, net, listed.paths.as_slice())?;
    require_expected(alloc, command, net, listed.tests.as_slice())?;
    require_few(listed.tests.as_slice(), listed.paths.as_slice())?;
    Ok(listed)
}

// Refuses listed paths of which one is no path.
fn require_paths(command: &'static [u8], net: &Netlist, paths: &[ListedPath]) -> Result<(), Ending>
    requires { All (λ listed. IsNameable net.now listed.path) paths.now }
    ensures paths { OnOk result (All (ListsPath net.now) paths.now) }
    ensures fails { IfErr result (FailsFor (HaveWrongPath command.now net.now paths.now)) }
{
    match first_wrong_path(net, paths) {
        None => Ok(()),
        Some(number) => {
            Err(Ending::Refused(wrong_item(command, b": path ", number, b" WrongPath")))
        }
    }
}

// The number of the first listed path that is no path of the netlist. That it is one of its first paths is not asked.
#[tactic(auto, using(crate::proofs::FirstWithout::one_more_path))]
fn first_wrong_path(net: &Netlist, paths: &[ListedPath]) -> Option<u64>
    requires { All (λ listed. IsNameable net.now listed.path) paths.now }
    ensures { MatchOption result (All (ListsPath net.now) paths.now) (IsFirstWithout (ListsPath net.now) paths.now) }
{
    for (place, listed) in paths.iter().enumerate() {
        if !is_path(net, &listed.path) {
            return Some(place as u64 + 1);
        }
    }
    None
}

// Refuses tests of which one does not expect what the observed lines have under its second vector.
fn require_expected(
    alloc: Global,
    command: &'static [u8],
    net: &Netlist,
    tests: &[Test],
) -> Result<(), Ending>
    requires { All (λ test. length test.pair.second ≡ source_count net.now) tests.now }
    ensures expected { OnOk result (All (ExpectsValues net.now) tests.now) }
    ensures fails { IfErr result (FailsFor (HaveWrongExpected command.now net.now tests.now)) }
{
    match first_wrong_expected(alloc, net, tests)? {
        None => Ok(()),
        Some(number) => {
            Err(Ending::Refused(wrong_item(command, b": test ", number, b" WrongExpected")))
        }
    }
}

// The number of the first test that expects other values.
#[tactic(auto, using(crate::proofs::FirstWithout::first_unexpected, crate::proofs::FirstWithout::one_more_expects))]
fn first_wrong_expected(
    alloc: Global,
    net: &Netlist,
    tests: &[Test],
) -> Result<Option<u64>, OutOfMemory>
    requires { All (λ test. length test.pair.second ≡ source_count net.now) tests.now }
    ensures { IfOk result (λ first. MatchOption first (All (ExpectsValues net.now) tests.now)
        (IsFirstWithout (ExpectsValues net.now) tests.now)) }
{
    let flags = expect_observed(alloc, net, tests)?;
    for (place, flag) in flags.as_slice().iter().enumerate() {
        if !*flag {
            return Ok(Some(place as u64 + 1));
        }
    }
    Ok(None)
}

// Refuses so many tests and faults.
fn require_few(tests: &[Test], paths: &[ListedPath]) -> Result<(), Ending>
    requires tests { length tests.now < 2 ^ 32 }
    requires faults { 2 * length paths.now < 2 ^ 32 }
    ensures few { OnOk result (grades tests.now paths.now ≤ MOST_GRADES) }
    ensures fails { IfErr result (FailsFor (AreTooManyGrades tests.now paths.now)) }
{
    let count = tests.len() as u64 * (2 * paths.len() as u64);
    if count > MOST_GRADES {
        return Err(Ending::Refused(too_many_grades(count)));
    }
    Ok(())
}

// The refusal of an item of this number, under the word of the command.
fn wrong_item(
    command: &'static [u8],
    item: &'static [u8],
    number: u64,
    reason: &'static [u8],
) -> Refusal
    ensures { result ≡ wrong_item command.now item.now number reason.now }
{
    Refusal::new(
        Cause::Claims,
        &[
            Part::Words(command),
            Part::Words(item),
            Part::Number(number),
            Part::Words(reason),
        ],
    )
}

// That of too much to grade.
fn too_many_grades(count: u64) -> Refusal
    ensures { result ≡ too_many_grades count }
{
    Refusal::new(
        Cause::Size,
        &[Part::Words(b"size: grade "), Part::Number(count)],
    )
}
