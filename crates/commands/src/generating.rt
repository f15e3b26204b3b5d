// The command `gen`: what it prepared is written, the three files in their order and then the summary on out. The files are made piece by
// piece, so memory may run out between two pieces: the files before are whole then, and this one holds the first part of its text.
ghost use Rattle.std.specs.Prelude.{[], ◌∷◌, OnOk, IfErr};
ghost use Rattle.pd_io.specs.Seen.{files_seen, seen};
ghost use Rattle.command_line.specs.Commands.{run_call_of};
ghost use Rattle.command_line.specs.Words.{HasRunNumbers};
ghost use Rattle.calls.specs.Calls.{Performs};
ghost use Rattle.calls.specs.Outputs.{AreUnwritten, FailsToWrite};
ghost use Rattle.calls.specs.Writing.{AreWhole, Writes};
ghost use Rattle.commands.specs.Gen.{CanBeWritten, gen_work, generated_products, proofs_due, report_due, run_files, tests_due};
ghost use Rattle.runs.specs.Lawful.{AreLawfulProofs};

use crate::preparing::{Generated, prepare_gen};
use calls::{Ending, Role, print, write_file};
use command_line::RunCommand;
use netlist::Netlist;
use pd_io::{Files, Sink};
use run_files::{ProofsPieces, ReportPieces, TestsPieces};
use runs::Run;
use std::alloc::Global;

/// Does the work of `gen`, and tells how it ended. No text stands whole in memory but the summary, which is made before the first
/// file is begun.
pub(crate) fn generate<F: Files, O: Sink>(
    alloc: Global,
    command: &RunCommand,
    files: &mut F,
    out: &mut O,
) -> Ending
    requires { HasRunNumbers (run_call_of command.now) }
    ensures { Performs (gen_work (run_call_of command.now)) result
        (seen F.Files O.Sink files.old out.old) (seen F.Files O.Sink files.new out.new) }
{
    match prepare_gen(alloc, command, files) {
        Ok(generated) => write_products(alloc, command, &generated, files, out),
        Err(ending) => ending,
    }
}

// Writes the files, and then the summary on out.
fn write_products<F: Files, O: Sink>(
    alloc: Global,
    command: &RunCommand,
    generated: &Generated,
    files: &mut F,
    out: &mut O,
) -> Ending
    requires { CanBeWritten generated.now.net generated.now.told.run }
    ensures { Writes (generated_products (run_call_of command.now) generated.now) result
        (seen F.Files O.Sink files.old out.old) (seen F.Files O.Sink files.new out.new) }
{
    match write_files(alloc, command, &generated.net, &generated.told.run, files) {
        Ok(()) => print(generated.told.summary.as_slice(), out),
        Err(ending) => ending,
    }
}

// Writes the files of a run in their order, up to the first that is not written.
fn write_files<F: Files>(
    alloc: Global,
    command: &RunCommand,
    net: &Netlist,
    run: &Run,
    files: &mut F,
) -> Result<(), Ending>
    requires { CanBeWritten net.now run.now }
    ensures whole { OnOk result (AreWhole (run_files (run_call_of command.now) net.now run.now)
        (files_seen F.Files files.old) (files_seen F.Files files.new)) }
    ensures unwritten { IfErr result (λ ending. AreUnwritten (run_files (run_call_of command.now) net.now run.now) ending
        (files_seen F.Files files.old) (files_seen F.Files files.new)) }
{
    write_tests(alloc, command, net, run, files)?;
    write_report(alloc, command, net, run, files)?;
    write_proofs(alloc, command, net, run, files)
}

// Writes the tests file.
fn write_tests<F: Files>(
    alloc: Global,
    command: &RunCommand,
    net: &Netlist,
    run: &Run,
    files: &mut F,
) -> Result<(), Ending>
    requires { CanBeWritten net.now run.now }
    ensures whole { OnOk result (AreWhole (tests_due (run_call_of command.now) net.now run.now ∷ [])
        (files_seen F.Files files.old) (files_seen F.Files files.new)) }
    ensures unwritten { IfErr result (λ ending. FailsToWrite (tests_due (run_call_of command.now) net.now run.now) ending
        (files_seen F.Files files.old) (files_seen F.Files files.new)) }
{
    let tests = TestsPieces {
        net,
        tests: run.tests.as_slice(),
    };
    write_file(alloc, Role::Tests, command.tests, &tests, files)
}

// Writes the report.
fn write_report<F: Files>(
    alloc: Global,
    command: &RunCommand,
    net: &Netlist,
    run: &Run,
    files: &mut F,
) -> Result<(), Ending>
    requires { CanBeWritten net.now run.now }
    ensures whole { OnOk result (AreWhole (report_due (run_call_of command.now) net.now run.now ∷ [])
        (files_seen F.Files files.old) (files_seen F.Files files.new)) }
    ensures unwritten { IfErr result (λ ending. FailsToWrite (report_due (run_call_of command.now) net.now run.now) ending
        (files_seen F.Files files.old) (files_seen F.Files files.new)) }
{
    let report = ReportPieces {
        net,
        paths: run.paths.as_slice(),
    };
    write_file(alloc, Role::Report, command.report, &report, files)
}

// Writes the proofs file.
fn write_proofs<F: Files>(
    alloc: Global,
    command: &RunCommand,
    net: &Netlist,
    run: &Run,
    files: &mut F,
) -> Result<(), Ending>
    requires { AreLawfulProofs run.now.proofs }
    ensures whole { OnOk result (AreWhole (proofs_due (run_call_of command.now) net.now run.now ∷ [])
        (files_seen F.Files files.old) (files_seen F.Files files.new)) }
    ensures unwritten { IfErr result (λ ending. FailsToWrite (proofs_due (run_call_of command.now) net.now run.now) ending
        (files_seen F.Files files.old) (files_seen F.Files files.new)) }
{
    let proofs = ProofsPieces {
        net,
        rules: &run.rules,
        proofs: run.proofs.as_slice(),
    };
    write_file(alloc, Role::Proofs, command.proofs, &proofs, files)
}
