// What a call finds and leaves: files, out and err, all in memory; and the call itself.
use crate::answer_lines::add_came;
use crate::row::Object;
use commands::exit_code;
use pd_base::OutOfMemory;
use pd_io::{Files, MemoryFiles, MemorySink, Sink, SteadySink};
use row_answers::Text;
use std::alloc::Global;
use std::io;
use std::io::{Error, ErrorKind};
use std::process::ExitCode;

/// Files and streams of one call.
#[derive(Drop)]
pub struct Outside {
    alloc: Global,
    files: MemoryFiles,
    out: MemorySink,
    err: MemorySink,
}

impl Outside {
    /// No files, streams that took nothing, and nothing that is to fail.
    pub fn new(alloc: Global) -> Outside {
        Outside {
            alloc,
            files: MemoryFiles::new(alloc),
            out: MemorySink::new(alloc),
            err: MemorySink::new(alloc),
        }
    }

    /// Puts bytes under a name.
    pub fn put(&mut self, name: &str, bytes: &[u8]) -> Result<(), OutOfMemory> {
        self.files.put(name, bytes)
    }

    /// What stands under a name.
    pub fn get(&self, name: &str) -> Option<&[u8]> {
        self.files.get(name)
    }

    /// Plans that the call of this number fails.
    pub fn fail(&mut self, object: Object, nth: u64) -> Result<(), OutOfMemory> {
        match object {
            Object::Files(call) => self.files.fail(call, nth),
            Object::Out => self.out.fail(nth),
            Object::Err => self.err.fail(nth),
        }
    }

    /// A call with these words: adds the number with which it ends, and what err and out took, line by line.
    pub fn call(&mut self, words: &[&str], answer: &mut Text) {
        let status = self.status(words);
        add_came(status, self.err.bytes(), self.out.bytes(), answer);
    }

    /// A call whose words can't be had, with an error of this kind: adds the number with which it ends, and what err and out took.
    pub fn call_without_words(&mut self, kind: ErrorKind, answer: &mut Text) {
        let status = self.end(Err(Error::from(kind)));
        add_came(status, self.err.bytes(), self.out.bytes(), answer);
    }

    // The number with which a call with these words ends.
    fn status(&mut self, words: &[&str]) -> u8 {
        self.end(arguments_of(self.alloc, words))
    }

    // The number with which a call with these arguments ends.
    fn end(&mut self, arguments: io::Result<Vec<String>>) -> u8 {
        exit_of(
            self.alloc,
            arguments,
            &mut self.files,
            &mut self.out,
            &mut self.err,
        )
    }
}

/// The same over these files, and over streams, whose calls never fail.
pub fn call_unfailing<F: Files>(alloc: Global, words: &[&str], files: &mut F, answer: &mut Text) {
    let mut out = SteadySink::new(alloc);
    let mut err = SteadySink::new(alloc);
    let arguments = arguments_of(alloc, words);
    let status = exit_of(alloc, arguments, files, &mut out, &mut err);
    add_came(status, err.bytes(), out.bytes(), answer);
}

// These words, as the system gives them.
fn arguments_of(alloc: Global, words: &[&str]) -> io::Result<Vec<String>> {
    let mut arguments = Vec::new(alloc);
    for word in words {
        arguments.push(String::from_str(alloc, word)?)?;
    }
    Ok(arguments)
}

// The number with which a call ends. It promises nothing, so that what is printed is not proved over again under the contract of
// `exit_code`.
fn exit_of<F: Files, O: Sink, E: Sink>(
    alloc: Global,
    arguments: io::Result<Vec<String>>,
    files: &mut F,
    out: &mut O,
    err: &mut E,
) -> u8 {
    number_of(exit_code(alloc, arguments, files, out, err))
}

// The number of an exit code, which tells it only to who compares.
fn number_of(code: ExitCode) -> u8 {
    for number in 0..u8::MAX {
        if ExitCode::from(number) == code {
            return number;
        }
    }
    u8::MAX
}
