// Files kept in memory by name, with one open for reading and one for writing: what the two kinds of file
// objects in memory share. Over it stand `SteadyFiles` and `MemoryFiles`.
ghost use Rattle.std.specs.Prelude.{◌≡◌, ◌<◌, ◌≤◌, length, [], Some, None, Ok, IsSome, IfOk, OnOk, OnErr, option_copied};
ghost use Rattle.pd_io.specs.Folder.{empty_folder, put, reader_after, GivesNext, contents_after_write};
ghost use Rattle.pd_io.specs.Whole.{folder_after_asking, folder_with};
ghost use Rattle.pd_io.specs.Shelf.{folder_of, reader_of, writer_of};

use crate::named::{MOST_AT_ONCE, NamedFiles, append, bytes_of, copy_front, left_of, store};
use std::alloc::{AllocError, Global};
use std::collections::BTreeMap;

/// A file that is open for reading, and how many of its bytes were taken.
#[derive(Drop)]
pub(crate) struct OpenFile {
    name: String,
    place: usize,
}

/// Files by name. A reader of an absent name finds no bytes.
#[derive(Drop)]
pub(crate) struct Shelf {
    alloc: Global,
    files: NamedFiles,
    asked: Vec<String>,
    reading: Option<OpenFile>,
    writing: Option<String>,
}

impl Shelf {
    /// A shelf that holds nothing and was asked nothing.
    pub(crate) fn new(alloc: Global) -> Shelf
        ensures folder { folder_of result ≡ empty_folder }
        ensures reader { reader_of result ≡ None }
        ensures writer { writer_of result ≡ None }
    {
        Shelf {
            alloc,
            files: BTreeMap::new(alloc),
            asked: Vec::new(alloc),
            reading: None,
            writing: None,
        }
    }

    /// Makes a name hold these bytes.
    pub(crate) fn put(&mut self, name: &str, bytes: &[u8]) -> Result<(), AllocError>
        ensures ok { OnOk result (
            folder_of self.new ≡ folder_with (folder_of self.old) name.now bytes.now) }
        ensures err { OnErr result (folder_of self.new ≡ folder_of self.old) }
        ensures reader { reader_of self.new ≡ reader_of self.old }
        ensures writer { writer_of self.new ≡ writer_of self.old }
    {
        let bytes = Vec::from_slice(self.alloc, bytes)?;
        store(&mut self.files, self.alloc, name, bytes)
    }

    /// The bytes under a name.
    pub(crate) fn get(&self, name: &str) -> Option<&[u8]>
        ensures { option_copied result ≡ (folder_of self.now).held name.now }
    {
        bytes_of(&self.files, name)
    }

    /// Notes a name among those asked.
    pub(crate) fn note(&mut self, name: &str) -> Result<(), AllocError>
        ensures ok { OnOk result (
            folder_of self.new ≡ folder_after_asking (folder_of self.old) name.now) }
        ensures err { OnErr result (folder_of self.new ≡ folder_of self.old) }
        ensures reader { reader_of self.new ≡ reader_of self.old }
        ensures writer { writer_of self.new ≡ writer_of self.old }
    {
        let name = String::from_str(self.alloc, name)?;
        self.asked.push(name)?;
        Ok(())
    }

    /// Notes a name among those asked, and opens its file for reading.
    pub(crate) fn begin_read(&mut self, name: &str) -> Result<(), AllocError>
        ensures ok { OnOk result (
            folder_of self.new ≡ folder_after_asking (folder_of self.old) name.now) }
        ensures err { OnErr result (folder_of self.new ≡ folder_of self.old) }
        ensures begins { OnOk result (
            reader_of self.new ≡ Some (record { name = name.now; place = 0 })) }
        ensures stays { OnErr result (reader_of self.new ≡ reader_of self.old) }
        ensures writer { writer_of self.new ≡ writer_of self.old }
    {
        let opened = String::from_str(self.alloc, name)?;
        self.note(name)?;
        self.reading = Some(OpenFile {
            name: opened,
            place: 0,
        });
        Ok(())
    }

    /// Gives the next bytes of the file that is open for reading.
    pub(crate) fn read(&mut self, buf: &mut [u8]) -> usize
        requires open { IsSome (reader_of self.old) }
        requires room { 0 < length buf.old }
        ensures within { result ≤ length buf.new }
        ensures most { result ≤ MOST_AT_ONCE }
        ensures place { reader_of self.new ≡ reader_after (reader_of self.old) (Ok result) }
        ensures bytes { GivesNext (folder_of self.old) (reader_of self.old) result buf.new }
        ensures folder { folder_of self.new ≡ folder_of self.old }
        ensures writer { writer_of self.new ≡ writer_of self.old }
    {
        match &mut self.reading {
            None => unreachable!(),
            Some(file) => {
                let left = left_of(&self.files, file.name.as_str(), file.place);
                let count = copy_front(buf, left);
                file.place += count;
                count
            }
        }
    }

    /// Opens a file for writing: its name holds nothing from now on.
    pub(crate) fn begin_write(&mut self, name: &str) -> Result<(), AllocError>
        ensures ok { OnOk result (
            folder_of self.new ≡ folder_with (folder_of self.old) name.now []) }
        ensures err { OnErr result (folder_of self.new ≡ folder_of self.old) }
        ensures begins { OnOk result (writer_of self.new ≡ Some name.now) }
        ensures stays { OnErr result (writer_of self.new ≡ writer_of self.old) }
        ensures reader { reader_of self.new ≡ reader_of self.old }
    {
        let begun = String::from_str(self.alloc, name)?;
        store(&mut self.files, self.alloc, name, Vec::new(self.alloc))?;
        self.writing = Some(begun);
        Ok(())
    }

    /// Appends the first of the bytes to the file that is open for writing, and answers how many.
    pub(crate) fn write(&mut self, bytes: &[u8]) -> Result<usize, AllocError>
        requires open { IsSome (writer_of self.old) }
        requires some { 0 < length bytes.now }
        ensures within { IfOk result (λ count. (0 < count) × (count ≤ length bytes.now)) }
        ensures most { IfOk result (λ count. count ≤ MOST_AT_ONCE) }
        ensures ok { IfOk result (λ count. folder_of self.new ≡ record (folder_of self.old) {
          held = contents_after_write
              (folder_of self.old).held (writer_of self.old) (Ok count) bytes.now;
        }) }
        ensures err { OnErr result (folder_of self.new ≡ folder_of self.old) }
        ensures writer { writer_of self.new ≡ writer_of self.old }
        ensures reader { reader_of self.new ≡ reader_of self.old }
    {
        match &self.writing {
            None => unreachable!(),
            Some(name) => append(&mut self.files, self.alloc, name.as_str(), bytes),
        }
    }

    /// Ends the writing.
    pub(crate) fn finish(&mut self)
        ensures folder { folder_of self.new ≡ folder_of self.old }
        ensures writer { writer_of self.new ≡ None }
        ensures reader { reader_of self.new ≡ reader_of self.old }
    {
        self.writing = None;
    }
}
