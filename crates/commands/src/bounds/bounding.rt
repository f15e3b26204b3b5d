// The command `bounds`: the text that it prepared is printed.
ghost use Rattle.pd_io.specs.Seen.{seen};
ghost use Rattle.command_line.specs.BoundsForm.{bounds_call_of};
ghost use Rattle.calls.specs.Calls.{Performs};
ghost use Rattle.commands.specs.Bounds.{bounds_work};

use crate::bounds::preparing::prepare_bounds;
use calls::{Ending, print};
use command_line::BoundsCommand;
use pd_io::{Files, Sink};
use std::alloc::Global;

/// Does the work of `bounds`, and tells how it ended. No file is written, and the text is whole before out is touched.
pub(crate) fn bounds<F: Files, O: Sink>(
    alloc: Global,
    command: &BoundsCommand,
    files: &mut F,
    out: &mut O,
) -> Ending
    ensures { Performs (bounds_work (bounds_call_of command.now)) result
        (seen F.Files O.Sink files.old out.old) (seen F.Files O.Sink files.new out.new) }
{
    match prepare_bounds(alloc, command, files) {
        Ok(text) => print(text.as_slice(), out),
        Err(ending) => ending,
    }
}
