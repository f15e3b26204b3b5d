// The command `compact`: what it prepared is written, OUT and then the line on out. OUT is made piece by piece, so memory may run out between
// two pieces: it holds the first part of its text then.
ghost use Rattle.std.specs.Prelude.{[], ◌∷◌, IfErr, OnOk};
ghost use Rattle.pd_io.specs.Seen.{files_seen, seen};
ghost use Rattle.runs.specs.Lawful.{AreLawfulTests};
ghost use Rattle.command_line.specs.CompactForm.{compact_call_of};
ghost use Rattle.calls.specs.Calls.{Performs};
ghost use Rattle.calls.specs.Outputs.{FailsToWrite};
ghost use Rattle.calls.specs.Writing.{AreWhole, Writes};
ghost use Rattle.commands.specs.Compact.{compact_work, kept_products, out_due};

use crate::compact::preparing::{Kept, prepare_compact};
use calls::{Ending, Role, print, write_file};
use command_line::CompactCommand;
use netlist::Netlist;
use pd_base::Test;
use pd_io::{Files, Sink};
use run_files::TestsPieces;
use std::alloc::Global;

/// Does the work of `compact`, and tells how it ended.
pub(crate) fn compact<F: Files, O: Sink>(
    alloc: Global,
    command: &CompactCommand,
    files: &mut F,
    out: &mut O,
) -> Ending
    ensures { Performs (compact_work (compact_call_of command.now)) result
        (seen F.Files O.Sink files.old out.old) (seen F.Files O.Sink files.new out.new) }
{
    match prepare_compact(alloc, command, files) {
        Ok(made) => write_kept(alloc, command, &made, files, out),
        Err(ending) => ending,
    }
}

// Writes OUT, and then the line on out.
fn write_kept<F: Files, O: Sink>(
    alloc: Global,
    command: &CompactCommand,
    made: &Kept,
    files: &mut F,
    out: &mut O,
) -> Ending
    requires { AreLawfulTests made.now.net made.now.tests.items }
    ensures { Writes (kept_products (compact_call_of command.now) made.now) result
        (seen F.Files O.Sink files.old out.old) (seen F.Files O.Sink files.new out.new) }
{
    match write_out(alloc, command, &made.net, made.tests.as_slice(), files) {
        Ok(()) => print(made.line.as_slice(), out),
        Err(ending) => ending,
    }
}

// Writes OUT.
fn write_out<F: Files>(
    alloc: Global,
    command: &CompactCommand,
    net: &Netlist,
    kept: &[Test],
    files: &mut F,
) -> Result<(), Ending>
    requires { AreLawfulTests net.now kept.now }
    ensures whole { OnOk result (AreWhole (out_due (compact_call_of command.now) net.now kept.now ∷ [])
        (files_seen F.Files files.old) (files_seen F.Files files.new)) }
    ensures unwritten { IfErr result (λ ending. FailsToWrite (out_due (compact_call_of command.now) net.now kept.now) ending
        (files_seen F.Files files.old) (files_seen F.Files files.new)) }
{
    let tests = TestsPieces { net, tests: kept };
    write_file(alloc, Role::Out, command.out, &tests, files)
}
