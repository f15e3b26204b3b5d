// The trusted edge: real files and streams, by std. They tell nothing of content, and count the errors of std's calls.
ghost use Rattle.std.specs.Prelude.{◌≡◌, ◌+◌, ◌<◌, ◌≤◌, length, take, None, Some, IsSome, IfSome, IfNone, IfOk, OnOk, OnErr, IfErr, IsTrue, string_bytes};
ghost use Rattle.std.specs.Io.KnownBytes.{Appends};
ghost use Rattle.std.specs.IoError.{error_kind};
ghost use Rattle.pd_io.specs.Counts.{HasCause};
ghost use Rattle.pd_io.specs.Folder.{reader_after};
ghost use Rattle.system_files.specs.StdFiles.{std_reader, std_writer, open_to_read, open_to_write, Gave, FileGave, FileTook, cannot_sync};

use pd_io::{FailedCalls, FileFault, Files, Sink};
use std::alloc::Global;
use std::fs::OpenFile;
use std::io::{ErrorKind, Read, Write};
use std::{fs, io, rt};

/// A file that is read, its name, and how many of its bytes were taken. A failed read closes it for good.
#[derive(Drop)]
struct ReadFile<F> {
    file: Option<F>,
    name: String,
    place: u64,
}

/// A file that is written, and its name. A failed write closes it for good.
#[derive(Drop)]
struct WriteFile<F> {
    file: Option<F>,
    name: String,
}

/// The files of a runtime. Each error of std is a failed call, also one that a signal brings; so is a write that takes
/// nothing, and a read past byte 2^64 - 1. A failed call gives its file back to the system at once, so that nothing
/// that is written later under the same descriptor lands in it.
#[derive(Drop)]
pub struct StdFiles<R: rt::Files> {
    alloc: Global,
    runtime: R,
    reading: Option<ReadFile<R::File>>,
    writing: Option<WriteFile<R::File>>,
    read_faults: FailedCalls,
    write_faults: FailedCalls,
}

impl<R: rt::Files> StdFiles<R> {
    /// The files that a runtime reaches; none of them is open.
    pub fn new(alloc: Global, runtime: R) -> StdFiles<R>
        ensures folder { ⟦<StdFiles<R> as Files>⟧.folder result ≡ None }
        ensures reader { ⟦<StdFiles<R> as Files>⟧.reader result ≡ None }
        ensures writer { ⟦<StdFiles<R> as Files>⟧.writer result ≡ None }
        ensures read_faults { ⟦<StdFiles<R> as Files>⟧.read_faults result ≡ 0 }
        ensures write_faults { ⟦<StdFiles<R> as Files>⟧.write_faults result ≡ 0 }
    {
        StdFiles {
            alloc,
            runtime,
            reading: None,
            writing: None,
            read_faults: FailedCalls::new(),
            write_faults: FailedCalls::new(),
        }
    }
}

impl<R: rt::Files> Files for StdFiles<R> {
    ghost folder = { λ _. None };

    ghost reader = { λ files. std_reader files.reading };

    ghost writer = { λ files. std_writer files.writing };

    ghost read_faults = { λ files. files.read_faults.count };

    ghost write_faults = { λ files. files.write_faults.count };

    fn begin_read(&mut self, name: &str) -> Result<(), FileFault>
        ensures begins { OnOk result (
            std_reader self.new.reading ≡ Some (record { name = name.now; place = 0 })) }
        ensures writer { std_writer self.new.writing ≡ std_writer self.old.writing }
        ensures cause { HasCause
            self.old.read_faults.count self.new.read_faults.count result FileFault.Failed }
        ensures write_faults { self.new.write_faults.count ≡ self.old.write_faults.count }

        // A file is open exactly where one was begun.
        ensures opened { OnOk result (IsSome (open_to_read self.new.reading)) }
        ensures closed { OnErr result (open_to_read self.new.reading ≡ None) }
    {
        // What was read before is closed first.
        self.reading = None;
        let kept = String::from_str(self.alloc, name)?;
        match fs::open(&self.runtime, name) {
            Ok(file) => {
                self.reading = Some(ReadFile {
                    file: Some(file),
                    name: kept,
                    place: 0,
                });
                Ok(())
            }
            Err(_) => {
                self.read_faults.rise();
                Err(FileFault::Failed)
            }
        }
    }

    fn read(&mut self, buf: &mut [u8]) -> Result<usize, FileFault>
        requires open { IsSome (std_reader self.old.reading) }
        requires room { 0 < length buf.old }
        ensures within { IfOk result (λ count. count ≤ length buf.new) }
        ensures place { std_reader self.new.reading
            ≡ reader_after (std_reader self.old.reading) result }
        ensures writer { std_writer self.new.writing ≡ std_writer self.old.writing }
        ensures cause { HasCause
            self.old.read_faults.count self.new.read_faults.count result FileFault.Failed }
        ensures write_faults { self.new.write_faults.count ≡ self.old.write_faults.count }

        // The bytes are those that std read, and none only at the end. A failed read closes the file.
        ensures gave { IfOk result (λ count. FileGave R.File.remaining
            (open_to_read self.old.reading) (open_to_read self.new.reading) count buf.new) }
        ensures closed { OnErr result (open_to_read self.new.reading ≡ None) }
    {
        match &mut self.reading {
            None => unreachable!(),
            Some(reading) => match reading.read(buf) {
                Some(count) => Ok(count),
                None => {
                    self.read_faults.rise();
                    Err(FileFault::Failed)
                }
            },
        }
    }

    fn begin_write(&mut self, name: &str) -> Result<(), FileFault>
        ensures begins { OnOk result (std_writer self.new.writing ≡ Some name.now) }
        ensures reader { std_reader self.new.reading ≡ std_reader self.old.reading }
        ensures cause { HasCause
            self.old.write_faults.count self.new.write_faults.count result FileFault.Failed }
        ensures read_faults { self.new.read_faults.count ≡ self.old.read_faults.count }

        // A file is open exactly where one was begun.
        ensures opened { OnOk result (IsSome (open_to_write self.new.writing)) }
        ensures closed { OnErr result (open_to_write self.new.writing ≡ None) }
    {
        // What was written before is closed first.
        self.writing = None;
        let kept = String::from_str(self.alloc, name)?;
        match fs::create(&self.runtime, name) {
            Ok(file) => {
                self.writing = Some(WriteFile {
                    file: Some(file),
                    name: kept,
                });
                Ok(())
            }
            Err(_) => {
                self.write_faults.rise();
                Err(FileFault::Failed)
            }
        }
    }

    fn write(&mut self, bytes: &[u8]) -> Result<usize, FileFault>
        requires open { IsSome (std_writer self.old.writing) }
        requires some { 0 < length bytes.now }
        ensures within { IfOk result (λ count. (0 < count) × (count ≤ length bytes.now)) }
        ensures writer { std_writer self.new.writing ≡ std_writer self.old.writing }
        ensures reader { std_reader self.new.reading ≡ std_reader self.old.reading }
        ensures cause { HasCause
            self.old.write_faults.count self.new.write_faults.count result FileFault.Failed }
        ensures read_faults { self.new.read_faults.count ≡ self.old.read_faults.count }

        // The bytes that are answered for are those that std took. A failed write closes the file.
        ensures took { IfOk result (λ count. FileTook R.File.contents
            (open_to_write self.old.writing) (open_to_write self.new.writing)
            (take count bytes.now)) }
        ensures closed { OnErr result (open_to_write self.new.writing ≡ None) }
    {
        match &mut self.writing {
            None => unreachable!(),
            Some(writing) => match writing.write(bytes) {
                Some(count) => Ok(count),
                None => {
                    self.write_faults.rise();
                    Err(FileFault::Failed)
                }
            },
        }
    }

    fn finish(&mut self) -> Result<(), FileFault>
        requires open { IsSome (std_writer self.old.writing) }
        ensures writer { std_writer self.new.writing ≡ None }
        ensures reader { std_reader self.new.reading ≡ std_reader self.old.reading }
        ensures cause { HasCause
            self.old.write_faults.count self.new.write_faults.count result FileFault.Failed }
        ensures read_faults { self.new.read_faults.count ≡ self.old.read_faults.count }

        // It is `Ok` only where no write of this file failed.
        ensures whole { OnOk result (IsSome (open_to_write self.old.writing)) }
    {
        let file = match self.writing.take() {
            None => None,
            Some(writing) => writing.file,
        };
        if !close(file) {
            self.write_faults.rise();
            return Err(FileFault::Failed);
        }
        Ok(())
    }
}

impl<F: Read + Drop> ReadFile<F> {
    /// Reads the next bytes, and moves the place by their number. `None` is an error: the place stays, and the file is
    /// closed.
    fn read(&mut self, buf: &mut [u8]) -> Option<usize>
        requires { 0 < length buf.old }
        ensures name { string_bytes self.new.name ≡ string_bytes self.old.name }
        ensures moved { IfSome result (λ count. self.new.place ≡ self.old.place + count) }
        ensures stays { IfNone result (self.new.place ≡ self.old.place) }
        ensures within { IfSome result (λ count. count ≤ length buf.new) }
        ensures gave { IfSome result (λ count.
            FileGave F.remaining self.old.file self.new.file count buf.new) }
        ensures closed { IfNone result (self.new.file ≡ None) }
    {
        let count = match &mut self.file {
            None => None,
            Some(file) => read_on(file, &mut self.place, buf),
        };
        if count.is_none() {
            self.file = None;
        }
        count
    }
}

impl<F: Write + Drop> WriteFile<F> {
    /// Writes a front of these bytes, at least one. `None` is an error, and closes the file.
    fn write(&mut self, bytes: &[u8]) -> Option<usize>
        ensures name { string_bytes self.new.name ≡ string_bytes self.old.name }
        ensures within { IfSome result (λ count. (0 < count) × (count ≤ length bytes.now)) }
        ensures took { IfSome result (λ count.
            FileTook F.contents self.old.file self.new.file (take count bytes.now)) }
        ensures closed { IfNone result (self.new.file ≡ None) }
    {
        let count = match &mut self.file {
            None => None,
            Some(file) => write_some(file, bytes),
        };
        if count.is_none() {
            self.file = None;
        }
        count
    }
}

/// Reads the next bytes, and moves the place by their number. `None` is an error, and leaves the place.
fn read_on<F: Read>(file: &mut F, place: &mut u64, buf: &mut [u8]) -> Option<usize>
    requires { 0 < length buf.old }
    ensures moved { IfSome result (λ count. place.new ≡ place.old + count) }
    ensures stays { IfNone result (place.new ≡ place.old) }
    ensures within { IfSome result (λ count. count ≤ length buf.new) }
    ensures gave { IfSome result (λ count.
        Gave (F.remaining file.old) (F.remaining file.new) count buf.new) }
{
    let count = file.read(buf).ok()?;
    *place = place.checked_add(count as u64)?;
    Some(count)
}

/// Writes a front of these bytes, at least one. `None` is an error.
fn write_some<W: Write>(stream: &mut W, bytes: &[u8]) -> Option<usize>
    ensures within { IfSome result (λ count. (0 < count) × (count ≤ length bytes.now)) }
    ensures took { IfSome result (λ count.
        Appends (W.contents stream.old) (W.contents stream.new) (take count bytes.now)) }
{
    match stream.write(bytes) {
        Ok(0) | Err(_) => None,
        Ok(count) => Some(count),
    }
}

/// Closes a file once its bytes have reached their device, and answers whether they have. Those of a file that a failed
/// write closed have not. A pipe or a device can't be asked for that, and passes.
fn close<F: Write + OpenFile + Drop>(file: Option<F>) -> bool
    ensures { IsTrue result → IsSome file }
{
    match file {
        None => false,
        Some(mut file) => file.flush().is_ok() && is_synced(file.sync_all()),
    }
}

/// Whether `sync_all`, which answered this, brought a file's bytes to their device. Two kinds of error say that the file
/// is none that can be synced, and pass.
fn is_synced(answer: io::Result<()>) -> bool
    ensures ok { OnOk answer (IsTrue result) }
    ensures err { IfErr answer (λ error. result ≡ cannot_sync (error_kind error)) }
{
    match answer {
        Ok(()) => true,
        Err(error) => matches!(
            error.kind(),
            ErrorKind::InvalidInput | ErrorKind::Unsupported
        ),
    }
}

/// A stream of a runtime, as standard output. Each error is a failed write, also one that a signal brings; so is a
/// write that takes nothing.
#[derive(Drop)]
pub struct StdSink<W: Write> {
    stream: W,
    faults: FailedCalls,
}

impl<W: Write> StdSink<W> {
    /// A sink over a stream, with no failed write yet.
    pub fn new(stream: W) -> StdSink<W>
        ensures taken { ⟦<StdSink<W> as Sink>⟧.taken result ≡ None }
        ensures faults { ⟦<StdSink<W> as Sink>⟧.faults result ≡ 0 }
    {
        StdSink {
            stream,
            faults: FailedCalls::new(),
        }
    }
}

impl<W: Write> Sink for StdSink<W> {
    ghost taken = { λ _. None };

    ghost faults = { λ sink. sink.faults.count };

    fn write(&mut self, bytes: &[u8]) -> Result<usize, FileFault>
        requires { 0 < length bytes.now }
        ensures within { IfOk result (λ count. (0 < count) × (count ≤ length bytes.now)) }
        ensures cause { HasCause self.old.faults.count self.new.faults.count result FileFault.Failed }

        // The bytes that are answered for are those that std took.
        ensures took { IfOk result (λ count. Appends
            (W.contents self.old.stream) (W.contents self.new.stream) (take count bytes.now)) }
    {
        match write_some(&mut self.stream, bytes) {
            Some(count) => Ok(count),
            None => {
                self.faults.rise();
                Err(FileFault::Failed)
            }
        }
    }
}
