// The command `scan`: the text that it prepared is printed.
ghost use Rattle.pd_io.specs.Seen.{seen};
ghost use Rattle.command_line.specs.ScanForm.{scan_call_of};
ghost use Rattle.calls.specs.Calls.{Performs};
ghost use Rattle.commands.specs.Scan.{scan_work};

use crate::scan::preparing::prepare_scan;
use calls::{Ending, print};
use command_line::ScanCommand;
use pd_io::{Files, Sink};
use std::alloc::Global;

/// Does the work of `scan`, and tells how it ended. No file is written, and the text is whole before out is touched.
pub(crate) fn scan<F: Files, O: Sink>(
    alloc: Global,
    command: &ScanCommand,
    files: &mut F,
    out: &mut O,
) -> Ending
    ensures { Performs (scan_work (scan_call_of command.now)) result
        (seen F.Files O.Sink files.old out.old) (seen F.Files O.Sink files.new out.new) }
{
    match prepare_scan(alloc, command, files) {
        Ok(text) => print(text.as_slice(), out),
        Err(ending) => ending,
    }
}
