// Writing one product of a command: a file, whose text is made piece by piece, or the text for out.
ghost use Rattle.std.specs.Prelude.{[], ◌∷◌, OnOk, IfErr};
ghost use Rattle.pd_io.specs.Seen.{files_seen, sink_seen};
ghost use Rattle.calls.specs.Outputs.{FailsToWrite, Prints};
ghost use Rattle.calls.specs.Work.{due_file};
ghost use Rattle.calls.specs.Writing.{AreWhole};

use crate::{Ending, Role};
use pd_io::{FileFault, Files, Pieces, Sink, WriteFault, write_all, write_pieces};
use std::alloc::Global;

/// Writes the file of this role under its name. Otherwise the ending says that a write of it failed, or that memory ran out.
pub fn write_file<F: Files, P: Pieces>(
    alloc: Global,
    role: Role,
    name: &str,
    pieces: &P,
    files: &mut F,
) -> Result<(), Ending>
    requires { P.can_spell pieces.now }
    ensures whole { OnOk result (AreWhole (due_file role name.now (P.text pieces.now) ∷ [])
        (files_seen F.Files files.old) (files_seen F.Files files.new)) }
    ensures unwritten { IfErr result (λ ending. FailsToWrite (due_file role name.now (P.text pieces.now)) ending
        (files_seen F.Files files.old) (files_seen F.Files files.new)) }
{
    match write_pieces(alloc, files, name, pieces) {
        Ok(()) => Ok(()),
        Err(WriteFault::Failed) => Err(Ending::WriteFault(role)),
        Err(WriteFault::NoMemory(refused)) => Err(Ending::NoMemory(refused)),
    }
}

/// Prints the text on out. `Done` where out took all of it.
pub fn print<O: Sink>(text: &[u8], out: &mut O) -> Ending
    ensures { Prints text.now result (sink_seen O.Sink out.old) (sink_seen O.Sink out.new) }
{
    match write_all(out, text) {
        Ok(()) => Ending::Done,
        Err(FileFault::Failed) => Ending::OutFault,
        Err(FileFault::NoMemory(refused)) => Ending::NoMemory(refused),
    }
}
