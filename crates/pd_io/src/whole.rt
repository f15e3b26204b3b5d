// Whole files read and written over any file object.
ghost use Rattle.std.specs.Prelude.{◌≡◌, ◌+◌, ◌<◌, ◌≤◌, length, Some, None, IfOk, OnOk, OnErr, IsErrOf, vec_len};
ghost use Rattle.pd_io.specs.Counts.{HasCause};
ghost use Rattle.pd_io.specs.Telling.{Tells};
ghost use Rattle.pd_io.specs.Folder.{bytes_at};
ghost use Rattle.pd_io.specs.Whole.{AsksFor, folder_with, HoldsPart};

use crate::appending::{append_all, append_text};
use crate::{Files, Pieces, ReadFault, WriteFault};
use std::alloc::Global;

/// How many bytes are read at once.
const PIECE: usize = 4096;

/// Reads a whole file of at most `limit` bytes. A longer one is `TooLong`, after `limit + 1` of its bytes
/// were taken. `Failed` comes where a call of the object failed, and `NoMemory` where memory ran out.
/// The name is asked once, unless memory runs out, and no name's bytes change.
pub fn read_whole<F: Files>(
    alloc: Global,
    files: &mut F,
    name: &str,
    limit: usize,
) -> Result<Vec<u8>, ReadFault>
    requires { limit < usize.MAX }

    // Ok: all bytes of the file, and the reader stands at its end.
    ensures bytes { IfOk result (λ bytes. Tells (F.folder files.old) (F.folder files.new) (λ old _.
        bytes.items ≡ bytes_at old.held name.now)) }
    ensures within { IfOk result (λ bytes. vec_len bytes ≤ limit) }
    ensures place { IfOk result (λ bytes.
        F.reader files.new ≡ Some (record { name = name.now; place = vec_len bytes })) }
    ensures writer { OnOk result (F.writer files.new ≡ F.writer files.old) }

    // TooLong: the file holds more, and limit + 1 of its bytes were taken.
    ensures too_long { IsErrOf result ReadFault.TooLong →
        Tells (F.folder files.old) (F.folder files.new) (λ old _.
        limit < length (bytes_at old.held name.now)) }
    ensures too_long_place { IsErrOf result ReadFault.TooLong →
        F.reader files.new ≡ Some (record { name = name.now; place = limit + 1 }) }
    ensures too_long_writer { IsErrOf result ReadFault.TooLong →
        F.writer files.new ≡ F.writer files.old }

    // Failed: the count of failed reads rose.
    ensures cause { HasCause
        (F.read_faults files.old) (F.read_faults files.new) result ReadFault.Failed }

    ensures told { Tells (F.folder files.old) (F.folder files.new) (AsksFor result name.now) }
    ensures write_faults { F.write_faults files.new ≡ F.write_faults files.old }
{
    files.begin_read(name)?;
    let mut bytes = Vec::new(alloc);
    let mut buffer = [0; PIECE];
    while bytes.len() <= limit {
        let room = (limit + 1 - bytes.len()).min(PIECE);
        let count = files.read(&mut buffer[..room])?;
        if count == 0 {
            return Ok(bytes);
        }
        bytes.extend_from_slice(&buffer[..count])?;
    }
    Err(ReadFault::TooLong)
}

/// Makes the name hold these bytes, and leaves no file open for writing. After an error the name has what it had, or a front
/// of the bytes. Every other name keeps its bytes, and no name is asked. `Failed` comes where a call of the object failed, and
/// `NoMemory` where memory ran out.
pub fn write_whole<F: Files>(files: &mut F, name: &str, bytes: &[u8]) -> Result<(), WriteFault>
    ensures ok { OnOk result (Tells (F.folder files.old) (F.folder files.new) (λ old new.
        new ≡ folder_with old name.now bytes.now)) }
    ensures writer { OnOk result (F.writer files.new ≡ None) }
    ensures reader { OnOk result (F.reader files.new ≡ F.reader files.old) }
    ensures err { OnErr result (
        Tells (F.folder files.old) (F.folder files.new) (HoldsPart name.now bytes.now)) }
    ensures cause { HasCause
        (F.write_faults files.old) (F.write_faults files.new) result WriteFault.Failed }
    ensures read_faults { F.read_faults files.new ≡ F.read_faults files.old }
{
    files.begin_write(name)?;
    append_all(files, bytes)?;
    files.finish()?;
    Ok(())
}

/// Makes the name hold a text that is made piece by piece, as `write_whole` does with bytes. `NoMemory` comes also where memory
/// ran out for a piece.
pub fn write_pieces<F: Files, P: Pieces>(
    alloc: Global,
    files: &mut F,
    name: &str,
    pieces: &P,
) -> Result<(), WriteFault>
    requires { P.can_spell pieces.now }
    ensures ok { OnOk result (Tells (F.folder files.old) (F.folder files.new) (λ old new.
        new ≡ folder_with old name.now (P.text pieces.now))) }
    ensures writer { OnOk result (F.writer files.new ≡ None) }
    ensures reader { OnOk result (F.reader files.new ≡ F.reader files.old) }
    ensures err { OnErr result (
        Tells (F.folder files.old) (F.folder files.new) (HoldsPart name.now (P.text pieces.now))) }
    ensures cause { HasCause
        (F.write_faults files.old) (F.write_faults files.new) result WriteFault.Failed }
    ensures read_faults { F.read_faults files.new ≡ F.read_faults files.old }
{
    files.begin_write(name)?;
    append_text(alloc, files, pieces)?;
    files.finish()?;
    Ok(())
}
