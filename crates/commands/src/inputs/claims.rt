// The claim files of a run, judged: the tests, the report and the proofs that their texts spell. Each is refused under the word of the
// command that reads it.
ghost use Rattle.std.specs.Prelude.{◌≡◌, ◌≤◌, length, IfOk, IfErr};
ghost use Rattle.pd_io.specs.Seen.{files_seen};
ghost use Rattle.pd_base.specs.declared.limits.TheConstants.{MOST_BYTES};
ghost use Rattle.commands.specs.Inside.Checking.{SpellsNumbered};
ghost use Rattle.commands.specs.Inside.InputJudging.{FailsProofs, FailsReport, FailsTests, FailsToGiveTests, GivesTests};
ghost use Rattle.commands.specs.InputRefusals.{malformed};
ghost use Rattle.commands.specs.SpelledRuns.{SpellsReport};
ghost use Rattle.commands.specs.SpelledTests.{SpellsTests};

use crate::inputs::reading::text_from;
use calls::{Cause, Ending, Part, Refusal, Role};
use netlist::Netlist;
use pd_base::Test;
use pd_io::Files;
use run_files::{TextFault, read_proofs, read_report, read_tests};
use runs::{ListedPath, Proof};
use std::alloc::Global;

/// Reads TESTS, and gives the tests of NET that its text spells. One over the limit is refused, and one that spells none.
pub(crate) fn tests_from<F: Files>(
    alloc: Global,
    files: &mut F,
    command: &'static [u8],
    net: &Netlist,
    name: &str,
) -> Result<Vec<Test>, Ending>
    ensures gives { IfOk result (λ tests. GivesTests name.now net.now tests.items
        (files_seen F.Files files.old) (files_seen F.Files files.new)) }
    ensures fails { IfErr result (λ ending. FailsToGiveTests command.now name.now net.now ending
        (files_seen F.Files files.old) (files_seen F.Files files.new)) }
{
    let text = text_from(alloc, files, Role::Tests, name)?;
    tests_in(alloc, command, net, text.as_slice())
}

/// The tests of NET that the text of TESTS spells. A text is refused exactly where it spells none, for its first line that lacks its
/// form.
pub(crate) fn tests_in(
    alloc: Global,
    command: &'static [u8],
    net: &Netlist,
    text: &[u8],
) -> Result<Vec<Test>, Ending>
    requires { length text.now ≤ MOST_BYTES }
    ensures spells { IfOk result (λ tests. SpellsTests net.now text.now tests.items) }
    ensures fails { IfErr result (FailsTests command.now net.now text.now) }
{
    match read_tests(alloc, net, text) {
        Ok(tests) => Ok(tests),
        Err(TextFault::Malformed(line)) => {
            Err(Ending::Refused(malformed(command, Role::Tests, line)))
        }
        Err(TextFault::NoMemory(refused)) => Err(Ending::NoMemory(refused)),
    }
}

/// The listed paths that the text of REPORT spells. A text is refused exactly where it spells none, for its first line that lacks its
/// form.
pub(crate) fn report_in(
    alloc: Global,
    command: &'static [u8],
    net: &Netlist,
    text: &[u8],
) -> Result<Vec<ListedPath>, Ending>
    requires { length text.now ≤ MOST_BYTES }
    ensures spells { IfOk result (λ paths. SpellsReport net.now text.now paths.items) }
    ensures fails { IfErr result (FailsReport command.now net.now text.now) }
{
    match read_report(alloc, net, text) {
        Ok(paths) => Ok(paths),
        Err(TextFault::Malformed(line)) => {
            Err(Ending::Refused(malformed(command, Role::Report, line)))
        }
        Err(TextFault::NoMemory(refused)) => Err(Ending::NoMemory(refused)),
    }
}

/// The proofs of a file, and its version.
#[derive(Drop)]
pub(crate) struct VersionedProofs {
    /// The number of the version, which the first line of PROOFS tells.
    pub(crate) version: u32,
    /// The proofs.
    pub(crate) proofs: Vec<Proof>,
}

/// The proofs that the text of PROOFS spells, with its version. A text is refused exactly where it spells none, for its first line that
/// lacks its form.
pub(crate) fn proofs_in(
    alloc: Global,
    command: &'static [u8],
    net: &Netlist,
    text: &[u8],
) -> Result<VersionedProofs, Ending>
    requires { length text.now ≤ MOST_BYTES }
    ensures spells { IfOk result (λ read. SpellsNumbered net.now text.now read.version read.proofs.items) }
    ensures fails { IfErr result (FailsProofs command.now net.now text.now) }
{
    match read_proofs(alloc, net, text) {
        Ok((version, proofs)) => Ok(VersionedProofs { version, proofs }),
        Err(TextFault::Malformed(line)) => {
            Err(Ending::Refused(malformed(command, Role::Proofs, line)))
        }
        Err(TextFault::NoMemory(refused)) => Err(Ending::NoMemory(refused)),
    }
}

/// The refusal of the claim file of this role, whose line of this number lacks its form.
pub(crate) fn malformed(command: &'static [u8], role: Role, line: u32) -> Refusal
    ensures { result ≡ malformed command.now role line }
{
    Refusal::new(
        Cause::Claims,
        &[
            Part::Words(command),
            Part::Words(b": "),
            Part::Words(role.word()),
            Part::Words(b" line "),
            Part::Number(u64::from(line)),
            Part::Words(b" malformed"),
        ],
    )
}
