// The run: the listed paths in order, each with its length and its two verdicts, and the tests and proofs that these name.
ghost use Rattle.std.specs.Prelude.{◌≡◌, ◌-◌, [], IfOk};
ghost use Rattle.delay_annotation.specs.Annotation.{delays_of, Fits};
ghost use Rattle.prefix_sensitize.specs.Answers.{AreWritten, IsWriterFor, written_by};
ghost use Rattle.prefix_sensitize.specs.Listed.{AreAllOutcomes, ArePathsAnswered, IsNextPath, IsPathAnswered, IsRunWith};
ghost use Rattle.prefix_sensitize.specs.SearchedRuns.{IsSearchedRun};
ghost use Rattle.prefix_sensitize.specs.Searches.{AreBothOutcomesFrom, AreFaultOutcomes, AreSearches, Searches};

use crate::all_outcomes::{AllOutcomes, BothOutcomes, FaultOutcomes};
use crate::verdicts::{ListedFault, Writer};
use delay_annotation::Delays;
use logic_values::with_expected_bits;
use netlist::Netlist;
use path_model::length;
use pd_base::{Direction, Items, OutOfMemory, Path, Rules};
use runs::{ListedPath, Run};
use std::alloc::Global;

/// The run that these searches make: each listed path with its length and a verdict for each direction. A proof gets its number where
/// it is first cited, and one that nobody cites is left out.
pub(crate) fn run_of(
    alloc: Global,
    net: &Netlist,
    delays: &Delays,
    rules: Rules,
    paths: Vec<Path>,
    outcomes: AllOutcomes,
) -> Result<Run, OutOfMemory>
    ghost searches: { Searches }
    requires fits { Fits net.now delays.now }
    requires rules { rules ≡ searches.rules }
    requires paths { paths.items ≡ searches.routes }
    requires outcomes { AreAllOutcomes net.now searches outcomes }
    ensures { IfOk result (IsSearchedRun net.now (delays_of net.now delays.now) searches.routes searches.budget searches.rules) }
{
    let AllOutcomes {
        budget: _,
        mut rises,
        mut falls,
        proofs,
    } = outcomes;
    let mut writer = Writer::new(alloc, net, proofs)?;
    let listed = list_paths(
        alloc,
        net,
        delays,
        paths,
        &mut rises,
        &mut falls,
        &mut writer,
    )?;
    run_with(alloc, net, rules, listed, writer)
}

// The paths with their lengths and verdicts, in order.
fn list_paths(
    alloc: Global,
    net: &Netlist,
    delays: &Delays,
    paths: Vec<Path>,
    rises: &mut BothOutcomes,
    falls: &mut BothOutcomes,
    writer: &mut Writer,
) -> Result<Vec<ListedPath>, OutOfMemory>
    ghost searches: { Searches }
    requires fits { Fits net.now delays.now }
    requires paths { paths.items ≡ searches.routes }
    requires searches { AreSearches net.now searches }
    requires rises { AreBothOutcomesFrom net.now searches.rules searches.routes searches.proofs Direction.Rise 0 rises.old }
    requires falls { AreBothOutcomesFrom net.now searches.rules searches.routes searches.proofs Direction.Fall 0 falls.old }
    requires writer { IsWriterFor net.now searches writer.old }
    requires nothing { written_by writer.old ≡ record { tests = []; cited = [] } }
    ensures listed { IfOk result (λ listed. ArePathsAnswered net.now (delays_of net.now delays.now) searches searches.routes listed.items (written_by writer.new)) }
    ensures writer { IfOk result (λ _. IsWriterFor net.now searches writer.new) }
{
    let mut listed = Vec::with_capacity(alloc, paths.len())?;
    for path in paths {
        let row = listed.len();
        let rise = rises.take(row);
        let fall = falls.take(row);
        let entry = list_path(net, delays, writer, row as u32 + 1, path, rise, fall)?;
        listed.push(entry)?;
    }
    Ok(listed)
}

// The path of this number with its length and verdicts.
fn list_path(
    net: &Netlist,
    delays: &Delays,
    writer: &mut Writer,
    number: u32,
    path: Path,
    rise: FaultOutcomes,
    fall: FaultOutcomes,
) -> Result<ListedPath, OutOfMemory>
    ghost searches: { Searches }
    requires fits { Fits net.now delays.now }
    requires next { IsNextPath net.now searches number path writer.old }
    requires rise { AreFaultOutcomes net.now searches.rules searches.routes searches.proofs (number - 1) Direction.Rise path rise }
    requires fall { AreFaultOutcomes net.now searches.rules searches.routes searches.proofs (number - 1) Direction.Fall path fall }
    ensures listed { IfOk result (λ listed. IsPathAnswered net.now (delays_of net.now delays.now) searches number path (written_by writer.old) (written_by writer.new) listed) }
    ensures writer { IfOk result (λ _. IsWriterFor net.now searches writer.new) }
{
    let length = length(net, delays, &path);
    let rising = ListedFault {
        number,
        path: &path,
        direction: Direction::Rise,
    };
    let rise = writer.answer(net, &rising, rise)?;
    let falling = ListedFault {
        number,
        path: &path,
        direction: Direction::Fall,
    };
    let fall = writer.answer(net, &falling, fall)?;
    Ok(ListedPath {
        path,
        length,
        rise,
        fall,
    })
}

// The run of these paths, and of what was written for them.
fn run_with(
    alloc: Global,
    net: &Netlist,
    rules: Rules,
    listed: Vec<ListedPath>,
    writer: Writer,
) -> Result<Run, OutOfMemory>
    ghost searches: { Searches }
    requires rules { rules ≡ searches.rules }
    requires writer { IsWriterFor net.now searches writer }
    requires written { AreWritten net.now searches (written_by writer) }
    ensures { IfOk result (λ run. IsRunWith net.now searches listed.items (written_by writer) run) }
{
    let (tests, proofs) = writer.into_parts()?;
    let tests = with_expected_bits(alloc, net, tests)?;
    Ok(Run {
        rules,
        paths: Items::new(listed),
        tests: Items::new(tests),
        proofs: Items::new(proofs),
    })
}
