// Files by name: one file open for reading, one for writing. What real folders hold is told by no object.
ghost use Rattle.std.specs.Prelude.{◌≡◌, ℕ, ◌<◌, ◌≤◌, List, length, Option, Some, None, IsSome, IfOk, OnOk};
ghost use Rattle.pd_io.specs.declared.fault.FileFault.TheVariants.{Failed};
ghost use Rattle.pd_io.specs.Counts.{HasCause};
ghost use Rattle.pd_io.specs.Telling.{Tells};
ghost use Rattle.pd_io.specs.Folder.{Folder, Reader, names_after_asking, reader_after, GivesNext, contents_after_begin, contents_after_write};

use crate::FileFault;

/// Files by name, as a program sees them: at most one is open for reading, and one for writing. A call that answers
/// `Failed` raises its count of failed calls, which stops at 2^64 - 1; one that answers anything else changes no count.
pub trait Files {
    /// What the object holds and was asked. One that tells nothing of it has `None`, always.
    ghost folder: { Self → Option Folder };

    /// The file that is open for reading, and how many of its bytes were taken.
    ghost reader: { Self → Option Reader };

    /// The name of the file that is open for writing.
    ghost writer: { Self → Option (List ℕ) };

    /// How often reading failed, at most 2^64 - 1.
    ghost read_faults: { Self → ℕ };

    /// How often writing failed, at most 2^64 - 1.
    ghost write_faults: { Self → ℕ };

    /// Opens a file for reading, from its start. An absent name is `Failed`, or an empty file. The name is
    /// noted among those asked, unless memory runs out. After an error any file may be open, or none.
    fn begin_read(&mut self, name: &str) -> Result<(), FileFault>
        ensures begins { OnOk result (
            reader self.new ≡ Some (record { name = name.now; place = 0 })) }
        ensures writer { OnOk result (writer self.new ≡ writer self.old) }
        ensures told { Tells (folder self.old) (folder self.new) (λ old new.
            new ≡ record old { asked = names_after_asking result old.asked name.now }) }
        ensures cause { HasCause (read_faults self.old) (read_faults self.new) result Failed }
        ensures write_faults { write_faults self.new ≡ write_faults self.old };

    /// Puts the bytes that follow the place into the front of the buffer, and answers how many these are. The
    /// answer is 0 at the end of the file and nowhere else. After an error the place is the same.
    fn read(&mut self, buf: &mut [u8]) -> Result<usize, FileFault>
        requires open { IsSome (reader self.old) }
        requires room { 0 < length buf.old }
        ensures within { IfOk result (λ count. count ≤ length buf.new) }
        ensures place { reader self.new ≡ reader_after (reader self.old) result }
        ensures bytes { IfOk result (λ count. Tells (folder self.old) (folder self.new) (λ old _.
            GivesNext old (reader self.old) count buf.new)) }
        ensures writer { writer self.new ≡ writer self.old }
        ensures folder { folder self.new ≡ folder self.old }
        ensures cause { HasCause (read_faults self.old) (read_faults self.new) result Failed }
        ensures write_faults { write_faults self.new ≡ write_faults self.old };

    /// Opens a file for writing: its name holds nothing from now on. After an error every name keeps its bytes,
    /// and any file may be open, or none.
    fn begin_write(&mut self, name: &str) -> Result<(), FileFault>
        ensures begins { OnOk result (writer self.new ≡ Some name.now) }
        ensures reader { OnOk result (reader self.new ≡ reader self.old) }
        ensures told { Tells (folder self.old) (folder self.new) (λ old new.
            new ≡ record old { held = contents_after_begin result old.held name.now }) }
        ensures cause { HasCause (write_faults self.old) (write_faults self.new) result Failed }
        ensures read_faults { read_faults self.new ≡ read_faults self.old };

    /// Appends the first of the bytes to the file that is open for writing, at least one, and answers how
    /// many. After an error every name keeps its bytes.
    fn write(&mut self, bytes: &[u8]) -> Result<usize, FileFault>
        requires open { IsSome (writer self.old) }
        requires some { 0 < length bytes.now }
        ensures within { IfOk result (λ count. (0 < count) × (count ≤ length bytes.now)) }
        ensures told { Tells (folder self.old) (folder self.new) (λ old new.
            new ≡ record old {
              held = contents_after_write old.held (writer self.old) result bytes.now;
            }) }
        ensures writer { writer self.new ≡ writer self.old }
        ensures reader { reader self.new ≡ reader self.old }
        ensures cause { HasCause (write_faults self.old) (write_faults self.new) result Failed }
        ensures read_faults { read_faults self.new ≡ read_faults self.old };

    /// Ends the writing: no file is open for writing from now on, also after an error. Every name keeps its bytes.
    fn finish(&mut self) -> Result<(), FileFault>
        requires open { IsSome (writer self.old) }
        ensures writer { writer self.new ≡ None }
        ensures reader { reader self.new ≡ reader self.old }
        ensures folder { folder self.new ≡ folder self.old }
        ensures cause { HasCause (write_faults self.old) (write_faults self.new) result Failed }
        ensures read_faults { read_faults self.new ≡ read_faults self.old };
}
