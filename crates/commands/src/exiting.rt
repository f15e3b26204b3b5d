// From the program's arguments, as the system gives them, to the code with which it ends.
ghost use Rattle.std.specs.Prelude.{◌≡◌, ◌≢◌, [], map, string_bytes, IfErr, IfOk};
ghost use Rattle.std.specs.IoError.{error_kind};
ghost use Rattle.std.specs.Process.{exit_status};
ghost use Rattle.pd_io.specs.Seen.{outside};
ghost use Rattle.command_line.specs.Commands.{bytes_of_words};
ghost use Rattle.calls.specs.Calls.{Ends};
ghost use Rattle.commands.specs.Commands.{asked_work};
ghost use Rattle.commands.specs.Exits.{ExitsFor, ExitsWithoutMemory};

use crate::calling::run;
use calls::{Ending, Status, tell};
use pd_base::OutOfMemory;
use pd_io::{Files, Sink};
use std::alloc::Global;
use std::io;
use std::io::ErrorKind;
use std::process::ExitCode;

/// Does what these arguments ask for, which are those behind the program's own name, and gives the code with which the program ends:
/// the number of the status of this call (`run`). Arguments that are not all UTF-8 count as missing. Where there was no memory for them,
/// nothing is done but to say so on err.
pub fn exit_code<F: Files, O: Sink, E: Sink>(
    alloc: Global,
    arguments: io::Result<Vec<String>>,
    files: &mut F,
    out: &mut O,
    err: &mut E,
) -> ExitCode
    ensures given { IfOk arguments (λ given. ExitsFor (asked_work (map string_bytes given.items)) (exit_status result)
        (outside F.Files O.Sink E.Sink files.old out.old err.old)
        (outside F.Files O.Sink E.Sink files.new out.new err.new)) }
    ensures missing { IfErr arguments (λ error. error_kind error ≢ ErrorKind.OutOfMemory → ExitsFor (asked_work []) (exit_status result)
        (outside F.Files O.Sink E.Sink files.old out.old err.old)
        (outside F.Files O.Sink E.Sink files.new out.new err.new)) }
    ensures no_memory { IfErr arguments (λ error. error_kind error ≡ ErrorKind.OutOfMemory → ExitsWithoutMemory (exit_status result)
        (outside F.Files O.Sink E.Sink files.old out.old err.old)
        (outside F.Files O.Sink E.Sink files.new out.new err.new)) }
{
    let status = match arguments {
        Ok(given) => call_with(alloc, given.as_slice(), files, out, err),
        Err(error) => match error.kind() {
            ErrorKind::OutOfMemory => tell(&Ending::NoMemory(refused_memory(error)), err),
            _ => run(alloc, &[], files, out, err),
        },
    };
    ExitCode::from(status.number())
}

// The want of memory that an error of the arguments tells of, by its kind.
fn refused_memory(_error: io::Error) -> OutOfMemory
    requires { error_kind _error ≡ ErrorKind.OutOfMemory }
{
    OutOfMemory::reported()
}

// A call with these arguments as its words.
fn call_with<F: Files, O: Sink, E: Sink>(
    alloc: Global,
    arguments: &[String],
    files: &mut F,
    out: &mut O,
    err: &mut E,
) -> Status
    ensures { Ends (asked_work (map string_bytes arguments.now)) result
        (outside F.Files O.Sink E.Sink files.old out.old err.old)
        (outside F.Files O.Sink E.Sink files.new out.new err.new) }
{
    match words_of(alloc, arguments) {
        Ok(words) => run(alloc, words.as_slice(), files, out, err),
        Err(refused) => tell(&Ending::NoMemory(refused), err),
    }
}

// These arguments, borrowed.
fn words_of(alloc: Global, arguments: &[String]) -> Result<Vec<&str>, OutOfMemory>
    ensures { IfOk result (λ words. bytes_of_words words.items ≡ map string_bytes arguments.now) }
{
    let mut words = Vec::with_capacity(alloc, arguments.len())?;
    for argument in arguments {
        words.push(argument.as_str())?;
    }
    Ok(words)
}
