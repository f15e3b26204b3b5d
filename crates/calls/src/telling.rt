// Telling how a call ended: its line on err, in parts that need no memory, and its status.
ghost use Rattle.std.specs.Prelude.{◌≡◌, ◌++◌};
ghost use Rattle.pd_io.specs.Seen.{sink_seen};
ghost use Rattle.calls.specs.Lines.{line_of, role_word, status_of};
ghost use Rattle.calls.specs.Parts.{part_text, parts_text};
ghost use Rattle.calls.specs.Reports.{IsReported, LineEnds};
ghost use Rattle.text_pieces.specs.Tokens.{line};

use crate::{Ending, Part, Role, Status};
use itoa::Buffer;
use pd_io::{FileFault, Sink, write_all};

/// Writes the ending's line on err, if it has one, and gives its status. A failed write on err changes no status; if err
/// has no memory, the status is `NoMemory`.
pub fn tell<E: Sink>(ending: &Ending, err: &mut E) -> Status
    ensures { IsReported ending.now result (sink_seen E.Sink err.old) (sink_seen E.Sink err.new) }
{
    if let Ending::Done = ending {
        return Status::Done;
    }
    match write_ending(ending, err) {
        Ok(()) | Err(FileFault::Failed) => status(ending),
        Err(FileFault::NoMemory(refused)) => Status::NoMemory(refused),
    }
}

// The status of an ending.
fn status(ending: &Ending) -> Status
    ensures { result ≡ status_of ending.now }
{
    match ending {
        Ending::Done => Status::Done,
        Ending::Refused(refusal) => refusal.cause().status(),
        Ending::ReadFault(_) => Status::ReadFault,
        Ending::WriteFault(_) | Ending::OutFault => Status::WriteFault,
        Ending::NoMemory(refused) => Status::NoMemory(*refused),
    }
}

// Writes the line of an ending, if it has one.
fn write_ending<E: Sink>(ending: &Ending, err: &mut E) -> Result<(), FileFault>
    ensures { LineEnds (line_of ending.now) result
        (sink_seen E.Sink err.old) (sink_seen E.Sink err.new) }
{
    match ending {
        Ending::Done => Ok(()),
        Ending::Refused(refusal) => refusal.write(err),
        Ending::ReadFault(role) => write_fault(err, b"read fault ", *role),
        Ending::WriteFault(role) => write_fault(err, b"write fault ", *role),
        Ending::OutFault => write_text(err, b"write fault out\n"),
        Ending::NoMemory(_) => write_text(err, b"want of memory\n"),
    }
}

// Writes the line that names a file by its role, behind these words.
fn write_fault<E: Sink>(err: &mut E, words: &'static [u8], role: Role) -> Result<(), FileFault>
    ensures { LineEnds (line (words.now ++ role_word role)) result
        (sink_seen E.Sink err.old) (sink_seen E.Sink err.new) }
{
    write_line(err, &[Part::Words(words), Part::Words(role.word())], b"")
}

// Writes a line of these parts and a name behind them.
pub(crate) fn write_line<E: Sink>(err: &mut E, parts: &[Part], name: &[u8]) -> Result<(), FileFault>
    ensures { LineEnds (line (parts_text parts.now ++ name.now)) result
        (sink_seen E.Sink err.old) (sink_seen E.Sink err.new) }
{
    write_parts(err, parts)?;
    write_text(err, name)?;
    write_text(err, b"\n")
}

// Writes one part after another, up to the first that is not taken whole.
fn write_parts<E: Sink>(err: &mut E, parts: &[Part]) -> Result<(), FileFault>
    ensures { LineEnds (parts_text parts.now) result
        (sink_seen E.Sink err.old) (sink_seen E.Sink err.new) }
{
    for part in parts {
        write_part(err, *part)?;
    }
    Ok(())
}

// Writes a part of a line.
fn write_part<E: Sink>(err: &mut E, part: Part) -> Result<(), FileFault>
    ensures { LineEnds (part_text part) result
        (sink_seen E.Sink err.old) (sink_seen E.Sink err.new) }
{
    match part {
        Part::Words(words) => write_text(err, words),
        Part::Number(number) => {
            let mut digits = Buffer::new();
            write_text(err, digits.format(number).as_bytes())
        }
    }
}

// Writes a text of a line.
fn write_text<E: Sink>(err: &mut E, text: &[u8]) -> Result<(), FileFault>
    ensures { LineEnds text.now result (sink_seen E.Sink err.old) (sink_seen E.Sink err.new) }
{
    write_all(err, text)
}
