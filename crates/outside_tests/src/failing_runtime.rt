// A runtime with one file, of which a call fails: what a real file can't be made to do in a test.
use crate::attempts::ends_reading_and_writing;
use std::alloc::{Allocator, Global};
use std::fs::{Metadata, OpenFile, OpenOptions};
use std::io::{Error, ErrorKind, Read, Seek, SeekFrom, Write};
use std::{io, rt};
use system_files::StdFiles;

/// Which call fails.
#[derive(Clone, Copy)]
enum Failing {
    /// None does.
    Nothing,
    /// The second read.
    SecondRead,
    /// The second write.
    SecondWrite,
    /// The second write takes no byte.
    WriteOfNothing,
    /// The flush.
    Flush,
    /// The call that syncs, with this error.
    Sync(ErrorKind),
}

/// A file that gives and takes a byte in the first call, and in later calls as much as it is asked for.
#[derive(Drop)]
struct FailingFile {
    failing: Failing,
    calls: u32,
}

impl FailingFile {
    /// Counts a read or a write, and says whether it is not the first.
    fn is_later(&mut self) -> bool {
        self.calls = self.calls.saturating_add(1);
        self.calls > 1
    }
}

impl Read for FailingFile {
    fn read(&mut self, buf: &mut [u8]) -> io::Result<usize> {
        match (self.is_later(), self.failing) {
            (true, Failing::SecondRead) => Err(Error::from(ErrorKind::Other)),
            (true, _) => Ok(0),
            (false, _) => Ok(buf.len().min(1)),
        }
    }
}

impl Write for FailingFile {
    fn write(&mut self, buf: &[u8]) -> io::Result<usize> {
        match (self.is_later(), self.failing) {
            (true, Failing::SecondWrite) => Err(Error::from(ErrorKind::Other)),
            (true, Failing::WriteOfNothing) => Ok(0),
            (true, _) => Ok(buf.len()),
            (false, _) => Ok(buf.len().min(1)),
        }
    }

    fn flush(&mut self) -> io::Result<()> {
        match self.failing {
            Failing::Flush => Err(Error::from(ErrorKind::Other)),
            _ => Ok(()),
        }
    }
}

impl Seek for FailingFile {
    fn seek(&mut self, _to: SeekFrom) -> io::Result<u64> {
        Err(unsupported())
    }
}

impl OpenFile for FailingFile {
    fn metadata(&self) -> io::Result<Metadata> {
        Err(unsupported())
    }

    fn set_len(&self, _size: u64) -> io::Result<()> {
        Err(unsupported())
    }

    fn sync_all(&self) -> io::Result<()> {
        match self.failing {
            Failing::Sync(kind) => Err(Error::from(kind)),
            _ => Ok(()),
        }
    }

    fn sync_data(&self) -> io::Result<()> {
        Err(unsupported())
    }
}

/// A runtime of such files alone.
#[derive(Drop)]
struct FailingRuntime {
    failing: Failing,
}

impl rt::Files for FailingRuntime {
    type File = FailingFile;

    type Dir = FailingFile;

    fn open_file(&self, _how: &OpenOptions, _path: &str) -> io::Result<FailingFile> {
        Ok(FailingFile {
            failing: self.failing,
            calls: 0,
        })
    }

    fn open_dir(&self, _path: &str) -> io::Result<FailingFile> {
        Err(unsupported())
    }

    fn metadata(&self, _path: &str) -> io::Result<Metadata> {
        Err(unsupported())
    }

    fn symlink_metadata(&self, _path: &str) -> io::Result<Metadata> {
        Err(unsupported())
    }

    fn copy(&self, _from: &str, _to: &str) -> io::Result<u64> {
        Err(unsupported())
    }

    fn rename(&self, _from: &str, _to: &str) -> io::Result<()> {
        Err(unsupported())
    }

    fn remove_file(&self, _path: &str) -> io::Result<()> {
        Err(unsupported())
    }

    fn create_dir(&self, _path: &str) -> io::Result<()> {
        Err(unsupported())
    }

    fn remove_dir(&self, _path: &str) -> io::Result<()> {
        Err(unsupported())
    }

    fn remove_dir_all<B: Allocator>(&self, _alloc: B, _path: &str) -> io::Result<()> {
        Err(unsupported())
    }
}

/// What a call answers that these tests don't need.
fn unsupported() -> Error {
    Error::from(ErrorKind::Unsupported)
}

#[test]
fn a_failing_call_of_std_is_no_success(rt: HostRuntime) {
    let rows = [
        (Failing::Nothing, true, true),
        (Failing::SecondRead, false, true),
        (Failing::SecondWrite, true, false),
        (Failing::WriteOfNothing, true, false),
        (Failing::Flush, true, false),
        (Failing::Sync(ErrorKind::StorageFull), true, false),
        (Failing::Sync(ErrorKind::ReadOnlyFilesystem), true, false),
        (Failing::Sync(ErrorKind::InvalidInput), true, true),
        (Failing::Sync(ErrorKind::Unsupported), true, true),
    ];
    for (row, (failing, is_read, is_written)) in rows.iter().enumerate() {
        assert!(rt;
            is_told(rt.alloc(), *failing, *is_read, *is_written),
            "row {row}"
        );
    }
}

// Whether files of a runtime of which a call fails tell of it: the one byte of a file is read, or else reading has failed; and the same
// of writing.
fn is_told(alloc: Global, failing: Failing, is_read: bool, is_written: bool) -> bool {
    let mut files = StdFiles::new(alloc, FailingRuntime { failing });
    ends_reading_and_writing(alloc, &mut files, is_read, is_written)
}
