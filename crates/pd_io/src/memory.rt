// Files and a sink in memory of which single calls can be planned to fail, for tests.
ghost use Rattle.std.specs.Prelude.{◌≡◌, ◌↔◌, ◌<◌, ◌≤◌, ◌++◌, false, length, [], Some, None, Err, IsTrue, IsSome, IfOk, OnOk, OnErr, IsErrOf, option_copied};
ghost use Rattle.pd_base.specs.Memory.{out_of_memory};
ghost use Rattle.pd_io.specs.Counts.{HasCause};
ghost use Rattle.pd_io.specs.Folder.{empty_folder, names_after_asking, reader_after, GivesNext, contents_after_begin, contents_after_write, bytes_taken};
ghost use Rattle.pd_io.specs.Whole.{folder_with};
ghost use Rattle.pd_io.specs.Plan.{empty_plan, fails_next, plan_after_call, plan_with};
ghost use Rattle.pd_io.specs.Memory.{memory_folder, memory_reader, memory_writer, memory_read_faults, memory_write_faults, memory_plans, no_plans, plans_with, refuses, memory_bytes, memory_faults, sink_plan};

use crate::named::{MOST_AT_ONCE, take_front};
use crate::plan::Plan;
use crate::shelf::Shelf;
use crate::{FailedCalls, FileFault, Files, Sink};
use pd_base::OutOfMemory;
use std::alloc::Global;

/// A method of `Files`, of which calls can be planned to fail.
#[derive(Clone, Copy, Debug, PartialEq, Eq)]
pub enum FileCall {
    /// `begin_read`, which opens a file for reading.
    BeginRead,
    /// `read`, which gives the next bytes.
    Read,
    /// `begin_write`, which opens a file for writing.
    BeginWrite,
    /// `write`, which takes the next bytes.
    Write,
    /// `finish`, which ends the writing.
    Finish,
}

/// Files kept in memory, with calls that were chosen to fail. Opening an absent name for reading fails too. No read
/// or write moves more than `MOST_AT_ONCE` bytes. A call that fails does what `Files` says of an error, and nothing else.
#[derive(Drop)]
pub struct MemoryFiles {
    shelf: Shelf,
    begin_reads: Plan,
    reads: Plan,
    begin_writes: Plan,
    writes: Plan,
    finishes: Plan,
    read_faults: FailedCalls,
    write_faults: FailedCalls,
}

impl MemoryFiles {
    /// Files that hold nothing and were asked nothing, of which no call is to fail.
    pub fn new(alloc: Global) -> MemoryFiles
        ensures folder { memory_folder result ≡ empty_folder }
        ensures reader { memory_reader result ≡ None }
        ensures writer { memory_writer result ≡ None }
        ensures plans { memory_plans result ≡ no_plans }
        ensures read_faults { memory_read_faults result ≡ 0 }
        ensures write_faults { memory_write_faults result ≡ 0 }
    {
        MemoryFiles {
            shelf: Shelf::new(alloc),
            begin_reads: Plan::new(alloc),
            reads: Plan::new(alloc),
            begin_writes: Plan::new(alloc),
            writes: Plan::new(alloc),
            finishes: Plan::new(alloc),
            read_faults: FailedCalls::new(),
            write_faults: FailedCalls::new(),
        }
    }

    /// Makes a name hold these bytes. All other names keep theirs. If memory runs out, every name keeps its bytes.
    pub fn put(&mut self, name: &str, bytes: &[u8]) -> Result<(), OutOfMemory>
        ensures ok { OnOk result (
            memory_folder self.new ≡ folder_with (memory_folder self.old) name.now bytes.now) }
        ensures err { OnErr result (memory_folder self.new ≡ memory_folder self.old) }
        ensures reader { memory_reader self.new ≡ memory_reader self.old }
        ensures writer { memory_writer self.new ≡ memory_writer self.old }
        ensures plans { memory_plans self.new ≡ memory_plans self.old }
        ensures read_faults { memory_read_faults self.new ≡ memory_read_faults self.old }
        ensures write_faults { memory_write_faults self.new ≡ memory_write_faults self.old }
    {
        self.shelf.put(name, bytes)?;
        Ok(())
    }

    /// The bytes under a name, and `None` exactly for an absent name.
    pub fn get(&self, name: &str) -> Option<&[u8]>
        ensures { option_copied result ≡ (memory_folder self.now).held name.now }
    {
        self.shelf.get(name)
    }

    /// Plans that the call of this number fails, counted from 1 over all calls of the method since `new`. If memory
    /// runs out, the same calls are to fail as before.
    pub fn fail(&mut self, call: FileCall, nth: u64) -> Result<(), OutOfMemory>
        ensures ok { OnOk result (
            memory_plans self.new ≡ plans_with (memory_plans self.old) call nth) }
        ensures err { OnErr result (memory_plans self.new ≡ memory_plans self.old) }
        ensures folder { memory_folder self.new ≡ memory_folder self.old }
        ensures reader { memory_reader self.new ≡ memory_reader self.old }
        ensures writer { memory_writer self.new ≡ memory_writer self.old }
        ensures read_faults { memory_read_faults self.new ≡ memory_read_faults self.old }
        ensures write_faults { memory_write_faults self.new ≡ memory_write_faults self.old }
    {
        match call {
            FileCall::BeginRead => self.begin_reads.fail(nth),
            FileCall::Read => self.reads.fail(nth),
            FileCall::BeginWrite => self.begin_writes.fail(nth),
            FileCall::Write => self.writes.fail(nth),
            FileCall::Finish => self.finishes.fail(nth),
        }
    }
}

impl Files for MemoryFiles {
    ghost folder = { λ files. Some (memory_folder files) };

    ghost reader = { memory_reader };

    ghost writer = { memory_writer };

    ghost read_faults = { memory_read_faults };

    ghost write_faults = { memory_write_faults };

    fn begin_read(&mut self, name: &str) -> Result<(), FileFault>
        ensures begins { OnOk result (
            memory_reader self.new ≡ Some (record { name = name.now; place = 0 })) }
        ensures reader { OnErr result (memory_reader self.new ≡ memory_reader self.old) }
        ensures writer { memory_writer self.new ≡ memory_writer self.old }
        ensures told { memory_folder self.new ≡ record (memory_folder self.old) {
          asked = names_after_asking result (memory_folder self.old).asked name.now;
        } }
        ensures cause { HasCause
            (memory_read_faults self.old) (memory_read_faults self.new) result FileFault.Failed }
        ensures write_faults { memory_write_faults self.new ≡ memory_write_faults self.old }

        // `Ok` comes only where no failure is planned and the name is there, `Failed` only where one is or it is absent.
        ensures ok { OnOk result (refuses self.old name.now ≡ false) }
        ensures failed { IsErrOf result FileFault.Failed → IsTrue (refuses self.old name.now) }
        ensures plans { memory_plans self.new ≡ record (memory_plans self.old) {
          begin_read = plan_after_call (memory_plans self.old).begin_read;
        } }
    {
        let planned = self.begin_reads.next();
        if planned || self.shelf.get(name).is_none() {
            self.shelf.note(name)?;
            self.read_faults.rise();
            return Err(FileFault::Failed);
        }
        self.shelf.begin_read(name)?;
        Ok(())
    }

    fn read(&mut self, buf: &mut [u8]) -> Result<usize, FileFault>
        requires open { IsSome (memory_reader self.old) }
        requires room { 0 < length buf.old }
        ensures within { IfOk result (λ count. count ≤ length buf.new) }
        ensures most { IfOk result (λ count. count ≤ MOST_AT_ONCE) }
        ensures place { memory_reader self.new ≡ reader_after (memory_reader self.old) result }
        ensures bytes { IfOk result (λ count.
            GivesNext (memory_folder self.old) (memory_reader self.old) count buf.new) }
        ensures writer { memory_writer self.new ≡ memory_writer self.old }
        ensures folder { memory_folder self.new ≡ memory_folder self.old }
        ensures cause { HasCause
            (memory_read_faults self.old) (memory_read_faults self.new) result FileFault.Failed }
        ensures write_faults { memory_write_faults self.new ≡ memory_write_faults self.old }

        // It fails exactly where that is planned, and it never answers want of memory.
        ensures failed { (result ≡ Err FileFault.Failed)
            ↔ IsTrue (fails_next (memory_plans self.old).read) }
        ensures memory { IsErrOf result (FileFault.NoMemory out_of_memory) → ⊥ }
        ensures plans { memory_plans self.new ≡ record (memory_plans self.old) {
          read = plan_after_call (memory_plans self.old).read;
        } }
    {
        if self.reads.next() {
            self.read_faults.rise();
            return Err(FileFault::Failed);
        }
        Ok(self.shelf.read(buf))
    }

    fn begin_write(&mut self, name: &str) -> Result<(), FileFault>
        ensures begins { OnOk result (memory_writer self.new ≡ Some name.now) }
        ensures stays { OnErr result (memory_writer self.new ≡ memory_writer self.old) }
        ensures reader { memory_reader self.new ≡ memory_reader self.old }
        ensures told { memory_folder self.new ≡ record (memory_folder self.old) {
          held = contents_after_begin result (memory_folder self.old).held name.now;
        } }
        ensures cause { HasCause
            (memory_write_faults self.old) (memory_write_faults self.new) result FileFault.Failed }
        ensures read_faults { memory_read_faults self.new ≡ memory_read_faults self.old }

        // `Ok` comes only where no failure is planned, and `Failed` only where one is.
        ensures ok { OnOk result (fails_next (memory_plans self.old).begin_write ≡ false) }
        ensures failed { IsErrOf result FileFault.Failed →
            IsTrue (fails_next (memory_plans self.old).begin_write) }
        ensures plans { memory_plans self.new ≡ record (memory_plans self.old) {
          begin_write = plan_after_call (memory_plans self.old).begin_write;
        } }
    {
        if self.begin_writes.next() {
            self.write_faults.rise();
            return Err(FileFault::Failed);
        }
        self.shelf.begin_write(name)?;
        Ok(())
    }

    fn write(&mut self, bytes: &[u8]) -> Result<usize, FileFault>
        requires open { IsSome (memory_writer self.old) }
        requires some { 0 < length bytes.now }
        ensures within { IfOk result (λ count. (0 < count) × (count ≤ length bytes.now)) }
        ensures most { IfOk result (λ count. count ≤ MOST_AT_ONCE) }
        ensures told { memory_folder self.new ≡ record (memory_folder self.old) {
          held = contents_after_write
              (memory_folder self.old).held (memory_writer self.old) result bytes.now;
        } }
        ensures writer { memory_writer self.new ≡ memory_writer self.old }
        ensures reader { memory_reader self.new ≡ memory_reader self.old }
        ensures cause { HasCause
            (memory_write_faults self.old) (memory_write_faults self.new) result FileFault.Failed }
        ensures read_faults { memory_read_faults self.new ≡ memory_read_faults self.old }

        // `Ok` comes only where no failure is planned, and `Failed` only where one is.
        ensures ok { OnOk result (fails_next (memory_plans self.old).write ≡ false) }
        ensures failed { IsErrOf result FileFault.Failed →
            IsTrue (fails_next (memory_plans self.old).write) }
        ensures plans { memory_plans self.new ≡ record (memory_plans self.old) {
          write = plan_after_call (memory_plans self.old).write;
        } }
    {
        if self.writes.next() {
            self.write_faults.rise();
            return Err(FileFault::Failed);
        }
        Ok(self.shelf.write(bytes)?)
    }

    fn finish(&mut self) -> Result<(), FileFault>
        requires { IsSome (memory_writer self.old) }
        ensures writer { memory_writer self.new ≡ None }
        ensures reader { memory_reader self.new ≡ memory_reader self.old }
        ensures folder { memory_folder self.new ≡ memory_folder self.old }
        ensures cause { HasCause
            (memory_write_faults self.old) (memory_write_faults self.new) result FileFault.Failed }
        ensures read_faults { memory_read_faults self.new ≡ memory_read_faults self.old }

        // It fails exactly where that is planned, and it never answers want of memory.
        ensures failed { (result ≡ Err FileFault.Failed)
            ↔ IsTrue (fails_next (memory_plans self.old).finish) }
        ensures memory { IsErrOf result (FileFault.NoMemory out_of_memory) → ⊥ }
        ensures plans { memory_plans self.new ≡ record (memory_plans self.old) {
          finish = plan_after_call (memory_plans self.old).finish;
        } }
    {
        self.shelf.finish();
        if self.finishes.next() {
            self.write_faults.rise();
            return Err(FileFault::Failed);
        }
        Ok(())
    }
}

/// A sink that keeps its bytes in memory, with writes that were chosen to fail. One write takes at most `MOST_AT_ONCE`
/// bytes.
#[derive(Drop)]
pub struct MemorySink {
    bytes: Vec<u8>,
    writes: Plan,
    faults: FailedCalls,
}

impl MemorySink {
    /// A sink that took nothing, of which no write is to fail.
    pub fn new(alloc: Global) -> MemorySink
        ensures bytes { memory_bytes result ≡ [] }
        ensures plan { sink_plan result ≡ empty_plan }
        ensures faults { memory_faults result ≡ 0 }
    {
        MemorySink {
            bytes: Vec::new(alloc),
            writes: Plan::new(alloc),
            faults: FailedCalls::new(),
        }
    }

    /// The bytes taken, in order.
    pub fn bytes(&self) -> &[u8]
        ensures { result.now ≡ memory_bytes self.now }
    {
        self.bytes.as_slice()
    }

    /// Plans that the write of this number fails, counted from 1 over all writes since `new`. If memory runs out, the
    /// same writes are to fail as before.
    pub fn fail(&mut self, nth: u64) -> Result<(), OutOfMemory>
        ensures ok { OnOk result (sink_plan self.new ≡ plan_with (sink_plan self.old) nth) }
        ensures err { OnErr result (sink_plan self.new ≡ sink_plan self.old) }
        ensures bytes { memory_bytes self.new ≡ memory_bytes self.old }
        ensures faults { memory_faults self.new ≡ memory_faults self.old }
    {
        self.writes.fail(nth)
    }
}

impl Sink for MemorySink {
    ghost taken = { λ sink. Some (memory_bytes sink) };

    ghost faults = { memory_faults };

    fn write(&mut self, bytes: &[u8]) -> Result<usize, FileFault>
        requires { 0 < length bytes.now }
        ensures within { IfOk result (λ count. (0 < count) × (count ≤ length bytes.now)) }
        ensures most { IfOk result (λ count. count ≤ MOST_AT_ONCE) }
        ensures told { memory_bytes self.new
            ≡ memory_bytes self.old ++ bytes_taken result bytes.now }
        ensures cause { HasCause
            (memory_faults self.old) (memory_faults self.new) result FileFault.Failed }

        // `Ok` comes only where no failure is planned, and `Failed` only where one is.
        ensures ok { OnOk result (fails_next (sink_plan self.old) ≡ false) }
        ensures failed { IsErrOf result FileFault.Failed →
            IsTrue (fails_next (sink_plan self.old)) }
        ensures plan { sink_plan self.new ≡ plan_after_call (sink_plan self.old) }
    {
        if self.writes.next() {
            self.faults.rise();
            return Err(FileFault::Failed);
        }
        Ok(take_front(&mut self.bytes, bytes)?)
    }
}
