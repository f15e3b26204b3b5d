// What the tests try of files and sinks: it is proved once, for all of them, and where a test makes files, it hands them to one of these
// functions.
ghost use Rattle.std.specs.Prelude.{◌≡◌, ◌<◌, IsSome, IsTrue};

use pd_io::{FileFault, Files, ReadFault, Sink, WriteFault, read_whole, write_all, write_whole};
use std::alloc::Global;

/// A device that is full from the start.
pub(crate) const FULL: &str = "/dev/full";

/// The working folder.
pub(crate) const FOLDER: &str = ".";

/// Whether a file is read as this text under a limit, or else is too long.
pub(crate) fn ends_reading<F: Files>(
    alloc: Global,
    files: &mut F,
    text: &[u8],
    limit: usize,
    whole: bool,
) -> bool
    requires { limit < usize.MAX }
{
    if whole {
        reads(alloc, files, "name", limit, text)
    } else {
        is_too_long(alloc, files, "name", limit)
    }
}

/// Whether a text is written to a file, or else writing has failed.
pub(crate) fn ends_writing<F: Files>(files: &mut F, text: &[u8], fails: bool) -> bool {
    if fails {
        fails_to_write(files, "name", text)
    } else {
        writes(files, "name", text)
    }
}

/// Whether the one byte of a file is read, or else reading has failed; and the same of writing.
pub(crate) fn ends_reading_and_writing<F: Files>(
    alloc: Global,
    files: &mut F,
    is_read: bool,
    is_written: bool,
) -> bool {
    let read = if is_read {
        reads(alloc, files, "name", 9, b"\0")
    } else {
        fails_to_read(alloc, files, "name")
    };
    read && ends_writing(files, b"text", !is_written)
}

/// Whether an absent file is read as empty, and another as its text, which is then written to the absent one.
pub(crate) fn are_copied<F: Files>(
    alloc: Global,
    files: &mut F,
    absent: &str,
    text: &[u8],
) -> bool {
    reads(alloc, files, absent, 9, b"")
        && reads(alloc, files, "name", 9, text)
        && writes(files, absent, text)
}

/// What is tried of the files of the system. One function makes these for all attempts, since it is dear to prove.
#[derive(Clone, Copy)]
pub(crate) enum Attempt<'a> {
    /// A file of this name is written with this text, read again, and too long for a byte less.
    Again(&'a str, &'a [u8]),
    /// A file of this name is written.
    Written(&'a str),
    /// Folders and absent files are not read; folders, the full device and files in absent folders are not written.
    Refused,
}

impl Attempt<'_> {
    /// Whether that holds of these files.
    pub(crate) fn holds<F: Files>(self, alloc: Global, files: &mut F) -> bool {
        match self {
            Attempt::Again(name, text) => is_again(alloc, files, name, text),
            Attempt::Written(name) => writes(files, name, b"text"),
            Attempt::Refused => all_fail_to_read(alloc, files) && all_fail_to_write(files),
        }
    }
}

// Whether a file is written with a text, read again, and too long for a limit of a byte less.
fn is_again<F: Files>(alloc: Global, files: &mut F, name: &str, text: &[u8]) -> bool {
    let limit = text.len();
    writes(files, name, text)
        && reads(alloc, files, name, limit, text)
        && is_too_long(alloc, files, name, limit.saturating_sub(1))
}

// Whether reading a folder, or what is absent, fails.
fn all_fail_to_read<F: Files>(alloc: Global, files: &mut F) -> bool {
    for name in [FOLDER, "absent", "absent/name"] {
        if !fails_to_read(alloc, files, name) {
            return false;
        }
    }
    true
}

// Whether writing to a folder, to the full device, or into a folder that is absent fails.
fn all_fail_to_write<F: Files>(files: &mut F) -> bool {
    for name in [FOLDER, FULL, "absent/name"] {
        if !fails_to_write(files, name, b"text") {
            return false;
        }
    }
    true
}

// Whether a file is read as this text under a limit.
fn reads<F: Files>(alloc: Global, files: &mut F, name: &str, limit: usize, text: &[u8]) -> bool
    requires { limit < usize.MAX }
{
    match read_whole(alloc, files, name, limit) {
        Ok(bytes) => bytes.as_slice() == text,
        Err(_) => false,
    }
}

// Whether a file is too long for a limit.
fn is_too_long<F: Files>(alloc: Global, files: &mut F, name: &str, limit: usize) -> bool
    requires { limit < usize.MAX }
{
    matches!(
        read_whole(alloc, files, name, limit),
        Err(ReadFault::TooLong)
    )
}

// Whether reading a file fails.
fn fails_to_read<F: Files>(alloc: Global, files: &mut F, name: &str) -> bool {
    matches!(read_whole(alloc, files, name, 9), Err(ReadFault::Failed))
}

/// Whether a text is written to a file.
pub(crate) fn writes<F: Files>(files: &mut F, name: &str, text: &[u8]) -> bool {
    write_whole(files, name, text).is_ok()
}

// Whether writing a text to a file fails.
fn fails_to_write<F: Files>(files: &mut F, name: &str, text: &[u8]) -> bool {
    matches!(write_whole(files, name, text), Err(WriteFault::Failed))
}

/// Whether nothing more is read of the file that is open for reading.
pub(crate) fn reads_no_more<F: Files>(files: &mut F) -> bool
    requires { IsSome (F.reader files.old) }
    ensures { IsTrue result → F.reader files.new ≡ F.reader files.old }
{
    files.read(&mut [0u8; 9]).is_err()
}

/// Whether nothing more is written to the file that is open for writing.
pub(crate) fn writes_no_more<F: Files>(files: &mut F) -> bool
    requires { IsSome (F.writer files.old) }
    ensures { F.writer files.new ≡ F.writer files.old }
{
    files.write(b"text").is_err()
}

/// Whether a sink takes a text.
pub(crate) fn takes<S: Sink>(sink: &mut S, text: &[u8]) -> bool {
    write_all(sink, text).is_ok()
}

/// Whether a sink fails to take a text.
pub(crate) fn fails_to_take<S: Sink>(sink: &mut S, text: &[u8]) -> bool {
    matches!(write_all(sink, text), Err(FileFault::Failed))
}
