// The command `replay`: the text that it prepared is printed.
ghost use Rattle.pd_io.specs.Seen.{seen};
ghost use Rattle.command_line.specs.Commands.{replay_call_of};
ghost use Rattle.command_line.specs.Words.{HasReplayNumbers};
ghost use Rattle.calls.specs.Calls.{Performs};
ghost use Rattle.commands.specs.Replay.{replay_work};

use crate::replay::preparing::prepare_replay;
use calls::{Ending, print};
use command_line::ReplayCommand;
use pd_io::{Files, Sink};
use std::alloc::Global;

/// Does the work of `replay`, and tells how it ended. No file is written, and the text is whole before out is touched.
pub(crate) fn replay<F: Files, O: Sink>(
    alloc: Global,
    command: &ReplayCommand,
    files: &mut F,
    out: &mut O,
) -> Ending
    requires { HasReplayNumbers (replay_call_of command.now) }
    ensures { Performs (replay_work (replay_call_of command.now)) result
        (seen F.Files O.Sink files.old out.old) (seen F.Files O.Sink files.new out.new) }
{
    match prepare_replay(alloc, command, files) {
        Ok(text) => print(text.as_slice(), out),
        Err(ending) => ending,
    }
}
