// Files and a sink in memory whose calls succeed unless memory runs out. Their counts of failed calls stay 0.
ghost use Rattle.std.specs.Prelude.{◌≡◌, ◌<◌, ◌≤◌, ◌++◌, length, [], Some, None, Err, IsSome, IsOk, IfOk, OnOk, OnErr, option_copied};
ghost use Rattle.pd_base.specs.Memory.{out_of_memory};
ghost use Rattle.pd_io.specs.Folder.{empty_folder, reader_after, GivesNext, contents_after_write, bytes_taken};
ghost use Rattle.pd_io.specs.Whole.{folder_with};
ghost use Rattle.pd_io.specs.Steady.{steady_folder, steady_reader, steady_writer, steady_bytes};

use crate::named::{MOST_AT_ONCE, take_front};
use crate::shelf::Shelf;
use crate::{FileFault, Files, Sink};
use pd_base::OutOfMemory;
use std::alloc::Global;

/// Files kept in memory, where an absent name reads as an empty file. No call answers `Failed`; `read` and `finish`
/// always succeed, and the others unless memory runs out. No read or write moves more than `MOST_AT_ONCE` bytes.
#[derive(Drop)]
pub struct SteadyFiles {
    shelf: Shelf,
}

impl SteadyFiles {
    /// Files that hold nothing and were asked nothing.
    pub fn new(alloc: Global) -> SteadyFiles
        ensures folder { steady_folder result ≡ empty_folder }
        ensures reader { steady_reader result ≡ None }
        ensures writer { steady_writer result ≡ None }
    {
        SteadyFiles {
            shelf: Shelf::new(alloc),
        }
    }

    /// Makes a name hold these bytes. All other names keep theirs. If memory runs out, every name keeps its bytes.
    pub fn put(&mut self, name: &str, bytes: &[u8]) -> Result<(), OutOfMemory>
        ensures ok { OnOk result (
            steady_folder self.new ≡ folder_with (steady_folder self.old) name.now bytes.now) }
        ensures err { OnErr result (steady_folder self.new ≡ steady_folder self.old) }
        ensures reader { steady_reader self.new ≡ steady_reader self.old }
        ensures writer { steady_writer self.new ≡ steady_writer self.old }
    {
        self.shelf.put(name, bytes)?;
        Ok(())
    }

    /// The bytes under a name, and `None` exactly for an absent name.
    pub fn get(&self, name: &str) -> Option<&[u8]>
        ensures { option_copied result ≡ (steady_folder self.now).held name.now }
    {
        self.shelf.get(name)
    }
}

impl Files for SteadyFiles {
    ghost folder = { λ files. Some (steady_folder files) };

    ghost reader = { steady_reader };

    ghost writer = { steady_writer };

    ghost read_faults = { λ _. 0 };

    ghost write_faults = { λ _. 0 };

    fn begin_read(&mut self, name: &str) -> Result<(), FileFault> {
        self.shelf.begin_read(name)?;
        Ok(())
    }

    fn read(&mut self, buf: &mut [u8]) -> Result<usize, FileFault>
        requires open { IsSome (steady_reader self.old) }
        requires room { 0 < length buf.old }
        ensures within { IfOk result (λ count. count ≤ length buf.new) }
        ensures most { IfOk result (λ count. count ≤ MOST_AT_ONCE) }
        ensures place { steady_reader self.new ≡ reader_after (steady_reader self.old) result }
        ensures bytes { IfOk result (λ count.
            GivesNext (steady_folder self.old) (steady_reader self.old) count buf.new) }
        ensures writer { steady_writer self.new ≡ steady_writer self.old }
        ensures folder { steady_folder self.new ≡ steady_folder self.old }

        // It always succeeds.
        ensures ok { IsOk result }
    {
        Ok(self.shelf.read(buf))
    }

    fn begin_write(&mut self, name: &str) -> Result<(), FileFault> {
        self.shelf.begin_write(name)?;
        Ok(())
    }

    fn write(&mut self, bytes: &[u8]) -> Result<usize, FileFault>
        requires open { IsSome (steady_writer self.old) }
        requires some { 0 < length bytes.now }
        ensures within { IfOk result (λ count. (0 < count) × (count ≤ length bytes.now)) }
        ensures most { IfOk result (λ count. count ≤ MOST_AT_ONCE) }
        ensures told { steady_folder self.new ≡ record (steady_folder self.old) {
          held = contents_after_write
              (steady_folder self.old).held (steady_writer self.old) result bytes.now;
        } }
        ensures writer { steady_writer self.new ≡ steady_writer self.old }
        ensures reader { steady_reader self.new ≡ steady_reader self.old }
        ensures memory { OnErr result (result ≡ Err (FileFault.NoMemory out_of_memory)) }
    {
        Ok(self.shelf.write(bytes)?)
    }

    fn finish(&mut self) -> Result<(), FileFault>
        requires open { IsSome (steady_writer self.old) }
        ensures writer { steady_writer self.new ≡ None }
        ensures reader { steady_reader self.new ≡ steady_reader self.old }
        ensures folder { steady_folder self.new ≡ steady_folder self.old }

        // It always succeeds.
        ensures ok { IsOk result }
    {
        self.shelf.finish();
        Ok(())
    }
}

/// A sink that keeps its bytes in memory. One write takes at most `MOST_AT_ONCE` bytes. It fails only if memory runs
/// out, and then takes none.
#[derive(Drop)]
pub struct SteadySink {
    bytes: Vec<u8>,
}

impl SteadySink {
    /// A sink that took nothing.
    pub fn new(alloc: Global) -> SteadySink
        ensures { steady_bytes result ≡ [] }
    {
        SteadySink {
            bytes: Vec::new(alloc),
        }
    }

    /// The bytes taken, in order.
    pub fn bytes(&self) -> &[u8]
        ensures { result.now ≡ steady_bytes self.now }
    {
        self.bytes.as_slice()
    }
}

impl Sink for SteadySink {
    ghost taken = { λ sink. Some (steady_bytes sink) };

    ghost faults = { λ _. 0 };

    fn write(&mut self, bytes: &[u8]) -> Result<usize, FileFault>
        requires { 0 < length bytes.now }
        ensures within { IfOk result (λ count. (0 < count) × (count ≤ length bytes.now)) }
        ensures most { IfOk result (λ count. count ≤ MOST_AT_ONCE) }
        ensures told { steady_bytes self.new
            ≡ steady_bytes self.old ++ bytes_taken result bytes.now }
        ensures memory { OnErr result (result ≡ Err (FileFault.NoMemory out_of_memory)) }
    {
        Ok(take_front(&mut self.bytes, bytes)?)
    }
}
