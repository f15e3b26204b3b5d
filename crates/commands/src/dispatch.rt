// From the words to the work of the command that they ask for.
ghost use Rattle.std.specs.Prelude.{◌≡◌, Ok};
ghost use Rattle.pd_io.specs.Seen.{seen};
ghost use Rattle.command_line.specs.Commands.{bytes_of_words, call_of};
ghost use Rattle.command_line.specs.Words.{HasLawfulNumbers};
ghost use Rattle.calls.specs.Calls.{Performs};
ghost use Rattle.commands.specs.Commands.{asked_work, work_of, words_ending};

use crate::bounds::bounds;
use crate::check::check;
use crate::compact::compact;
use crate::generating::generate;
use crate::making::make;
use crate::replay::replay;
use crate::rise_fall_replay::rise_fall_replay;
use crate::scan::scan;
use crate::words_refusal::words_refusal;
use calls::Ending;
use command_line::{Command, WordsFault, read_words};
use pd_io::{Files, Sink};
use std::alloc::Global;

/// Does the work of the command that the words ask for, and tells how it ended.
pub(crate) fn perform<F: Files, O: Sink>(
    alloc: Global,
    words: &[&str],
    files: &mut F,
    out: &mut O,
) -> Ending
    ensures { Performs (asked_work (bytes_of_words words.now)) result
        (seen F.Files O.Sink files.old out.old) (seen F.Files O.Sink files.new out.new) }
{
    match read_words(alloc, words) {
        Ok(command) => perform_command(alloc, &command, files, out),
        Err(fault) => words_ending(fault),
    }
}

// Does the work of a command.
fn perform_command<F: Files, O: Sink>(
    alloc: Global,
    command: &Command,
    files: &mut F,
    out: &mut O,
) -> Ending
    requires { HasLawfulNumbers (call_of command.now) }
    ensures { Performs (work_of (Ok (call_of command.now))) result
        (seen F.Files O.Sink files.old out.old) (seen F.Files O.Sink files.new out.new) }
{
    match command {
        Command::Gen(command) => generate(alloc, command, files, out),
        Command::Check(command) => check(alloc, command, files, out),
        Command::Replay(command) => replay(alloc, command, files, out),
        Command::RiseFallReplay(command) => rise_fall_replay(alloc, command, files, out),
        Command::Compact(command) => compact(alloc, command, files, out),
        Command::Bounds(command) => bounds(alloc, command, files, out),
        Command::Scan(command) => scan(alloc, command, files, out),
        Command::Make(command) => make(alloc, command, out),
    }
}

// How a call ends whose words give no command.
fn words_ending(fault: WordsFault) -> Ending
    ensures { result ≡ words_ending fault }
{
    match fault {
        WordsFault::Refused(reason) => Ending::Refused(words_refusal(reason)),
        WordsFault::NoMemory(refused) => Ending::NoMemory(refused),
    }
}
