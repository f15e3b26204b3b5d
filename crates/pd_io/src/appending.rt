// Bytes that go to the file that is open for writing: all of a slice, and all pieces of a text. Small pieces are gathered first.
ghost use Rattle.std.specs.Prelude.{◌+◌, ◌<◌, ◌≤◌, [], ◌++◌, IsSome, OnErr, OnOk};
ghost use Rattle.pd_io.specs.declared.fault.FileFault.TheVariants.{Failed};
ghost use Rattle.pd_io.specs.OpenFile.{KeepsOpen, TakesUpTo, TakesFront};
ghost use Rattle.pd_io.specs.Counts.{HasCause, greatest_count};
ghost use Rattle.pd_io.specs.Seen.{files_seen};
ghost use Rattle.pd_io.specs.Telling.{Tells};

use crate::{FileFault, Files, Pieces};
use std::alloc::Global;

/// How many bytes are gathered before they go to the file.
const GATHERED: usize = 32_768;

/// Appends all bytes to the open file. After an error a front of them may stand there; so too below.
pub(crate) fn append_all<F: Files>(files: &mut F, bytes: &[u8]) -> Result<(), FileFault>
    requires open { IsSome (F.writer files.old) }
    requires counted { F.write_faults files.old ≤ greatest_count }
    ensures ok { OnOk result (Tells (F.folder files.old) (F.folder files.new)
        (TakesUpTo (F.writer files.old) bytes.now [])) }
    ensures err { OnErr result (Tells (F.folder files.old) (F.folder files.new)
        (TakesFront (F.writer files.old) bytes.now)) }
    ensures cause { HasCause (F.write_faults files.old) (F.write_faults files.new) result Failed }
    ensures keeps { KeepsOpen (files_seen F.Files files.old) (files_seen F.Files files.new) }
{
    // Each write is offered all that was not yet taken.
    let mut rest = bytes;
    while !rest.is_empty() {
        let count = files.write(rest)?;
        rest = &rest[count..];
    }
    Ok(())
}

/// Appends a text to the open file.
pub(crate) fn append_text<F: Files, P: Pieces>(
    alloc: Global,
    files: &mut F,
    pieces: &P,
) -> Result<(), FileFault>
    requires spelled { P.can_spell pieces.now }
    requires open { IsSome (F.writer files.old) }
    requires counted { F.write_faults files.old ≤ greatest_count }
    ensures ok { OnOk result (Tells (F.folder files.old) (F.folder files.new)
        (TakesUpTo (F.writer files.old) (P.text pieces.now) [])) }
    ensures err { OnErr result (Tells (F.folder files.old) (F.folder files.new)
        (TakesFront (F.writer files.old) (P.text pieces.now))) }
    ensures cause { HasCause (F.write_faults files.old) (F.write_faults files.new) result Failed }
    ensures keeps { KeepsOpen (files_seen F.Files files.old) (files_seen F.Files files.new) }
{
    let mut buffer = Vec::new(alloc);
    pieces.push_head(&mut buffer)?;
    append_items(files, pieces, &mut buffer)?;
    append_all(files, buffer.as_slice())
}

// Appends what the buffer holds and all items to the open file, but for the bytes that the buffer holds at the end.
fn append_items<F: Files, P: Pieces>(
    files: &mut F,
    pieces: &P,
    buffer: &mut Vec<u8>,
) -> Result<(), FileFault>
    requires spelled { P.can_spell pieces.now }
    requires open { IsSome (F.writer files.old) }
    requires counted { F.write_faults files.old ≤ greatest_count }
    ensures ok { OnOk result (Tells (F.folder files.old) (F.folder files.new)
        (TakesUpTo (F.writer files.old) (buffer.old.items ++ P.left pieces.now 0) buffer.new.items)) }
    ensures err { OnErr result (Tells (F.folder files.old) (F.folder files.new)
        (TakesFront (F.writer files.old) (buffer.old.items ++ P.left pieces.now 0))) }
    ensures cause { HasCause (F.write_faults files.old) (F.write_faults files.new) result Failed }
    ensures keeps { KeepsOpen (files_seen F.Files files.old) (files_seen F.Files files.new) }
{
    for index in 0..pieces.count() {
        append_item(files, pieces, index, buffer)?;
    }
    Ok(())
}

// Puts an item behind what the buffer holds. Where that is enough, it goes to the open file.
fn append_item<F: Files, P: Pieces>(
    files: &mut F,
    pieces: &P,
    index: usize,
    buffer: &mut Vec<u8>,
) -> Result<(), FileFault>
    requires spelled { P.can_spell pieces.now }
    requires within { index < P.total pieces.now }
    requires open { IsSome (F.writer files.old) }
    requires counted { F.write_faults files.old ≤ greatest_count }
    ensures ok { OnOk result (Tells (F.folder files.old) (F.folder files.new)
        (TakesUpTo (F.writer files.old) (buffer.old.items ++ P.left pieces.now index)
        (buffer.new.items ++ P.left pieces.now (index + 1)))) }
    ensures err { OnErr result (Tells (F.folder files.old) (F.folder files.new)
        (TakesFront (F.writer files.old) (buffer.old.items ++ P.left pieces.now index))) }
    ensures cause { HasCause (F.write_faults files.old) (F.write_faults files.new) result Failed }
    ensures keeps { KeepsOpen (files_seen F.Files files.old) (files_seen F.Files files.new) }
{
    pieces.push_item(index, buffer)?;
    if buffer.len() < GATHERED {
        return Ok(());
    }
    append_all(files, buffer.as_slice())?;
    buffer.clear();
    Ok(())
}
