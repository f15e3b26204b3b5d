// The command `rfreplay`: the text that it prepared is printed.
ghost use Rattle.pd_io.specs.Seen.{seen};
ghost use Rattle.command_line.specs.RiseFallReplayForm.{rise_fall_replay_call_of};
ghost use Rattle.command_line.specs.Words.{HasRiseFallReplayNumbers};
ghost use Rattle.calls.specs.Calls.{Performs};
ghost use Rattle.commands.specs.RiseFallReplay.{rise_fall_replay_work};

use crate::rise_fall_replay::preparing::prepare_rise_fall_replay;
use calls::{Ending, print};
use command_line::RiseFallReplayCommand;
use pd_io::{Files, Sink};
use std::alloc::Global;

/// Does the work of `rfreplay`, and tells how it ended. No file is written, and the text is whole before out is touched.
pub(crate) fn rise_fall_replay<F: Files, O: Sink>(
    alloc: Global,
    command: &RiseFallReplayCommand,
    files: &mut F,
    out: &mut O,
) -> Ending
    requires { HasRiseFallReplayNumbers (rise_fall_replay_call_of command.now) }
    ensures { Performs (rise_fall_replay_work (rise_fall_replay_call_of command.now)) result
        (seen F.Files O.Sink files.old out.old) (seen F.Files O.Sink files.new out.new) }
{
    match prepare_rise_fall_replay(alloc, command, files) {
        Ok(text) => print(text.as_slice(), out),
        Err(ending) => ending,
    }
}
