// The rows: what stands in files, what is to fail, calls and series of calls, and what is asked of a netlist.
use crate::shape::Shape;
use pd_io::FileCall;
use row_answers::{Trouble, number_of};
use std::io::ErrorKind;

/// What fails: a call of the files, or a write on out or err.
#[derive(Clone, Copy)]
pub enum Object {
    /// Such a call of the files.
    Files(FileCall),
    /// A write on out.
    Out,
    /// A write on err.
    Err,
}

impl Object {
    // The object of this word.
    fn of(word: &str) -> Result<Object, Trouble> {
        match word {
            "begin_read" => Ok(Object::Files(FileCall::BeginRead)),
            "read" => Ok(Object::Files(FileCall::Read)),
            "begin_write" => Ok(Object::Files(FileCall::BeginWrite)),
            "write" => Ok(Object::Files(FileCall::Write)),
            "finish" => Ok(Object::Files(FileCall::Finish)),
            "out" => Ok(Object::Out),
            "err" => Ok(Object::Err),
            _ => Err(Trouble::NoRow),
        }
    }
}

/// How a call is made, or a series of calls.
#[derive(Clone, Copy)]
pub enum Manner<'a> {
    /// One call, in which fails what is planned.
    Planned,
    /// One call whose files are not told: what it leaves in them is what later calls find.
    Kept,
    /// One over files and streams whose calls never fail.
    Unfailing,
    /// One over files for which there is no memory, and streams whose calls never fail.
    Full,
    /// Calls in which the file of this name is cut to nothing, then behind each of its bytes but the last.
    Cuts(&'a str),
    /// Calls in which one line after another of the file of this name stands twice.
    Repeats(&'a str),
    /// Calls in which one call after another of this object fails. No failures are planned beside these.
    Failing(Object),
}

/// One row.
#[derive(Clone, Copy)]
pub enum Row<'a> {
    /// A line for the reader: empty, or behind `#`.
    Heading,
    /// From now on each call finds this text under this name; `\n` stands for LF (texts.rt has all signs).
    Put(&'a str, &'a str),
    /// From now on each call finds the netlist of this shape and size, under the name `net`.
    Build(Shape, u32),
    /// From now on the name is absent.
    Remove(&'a str),
    /// From now on each call finds another text at one place of what stands under this name: the text there, and behind a slash between two
    /// spaces the other one.
    Exchange(&'a str, &'a str),
    /// From now on, of the files that a call changes only these are told, single spaces between.
    Show(&'a str),
    /// In the next call the call of this number fails.
    Fail(Object, u64),
    /// A call without words.
    BareCall,
    /// A call whose words can't be had, with an error of this kind.
    Wordless(ErrorKind),
    /// Calls in a manner with these words, single spaces between.
    Call(Manner<'a>, &'a str),
    /// A word of the rows about netlists, and what stands behind it.
    Ask(&'a str, &'a str),
}

impl<'a> Row<'a> {
    /// The row of a line.
    pub fn of(line: &'a str) -> Result<Row<'a>, Trouble> {
        if line.is_empty() || line.starts_with('#') {
            return Ok(Row::Heading);
        }
        if line == "call" {
            return Ok(Row::BareCall);
        }
        let (word, rest) = line.split_once(' ').unwrap_or((line, ""));
        match word {
            "remove" => Ok(Row::Remove(rest)),
            "show" => Ok(Row::Show(rest)),
            "wordless" => Ok(Row::Wordless(lack_of(rest)?)),
            "call" => Ok(Row::Call(Manner::Planned, rest)),
            "unfailing" => Ok(Row::Call(Manner::Unfailing, rest)),
            "full" => Ok(Row::Call(Manner::Full, rest)),
            "keep" => Ok(Row::Call(Manner::Kept, rest)),
            "put" | "build" | "exchange" | "fail" | "cuts" | "repeats" | "failing" => {
                let (first, more) = rest.split_once(' ').ok_or(Trouble::NoRow)?;
                of_two_parts(word, first, more)
            }
            _ => Ok(Row::Ask(word, rest)),
        }
    }
}

// The kind of error of words that can't be had: they are no text, or no memory is left for them.
fn lack_of(word: &str) -> Result<ErrorKind, Trouble> {
    match word {
        "text" => Ok(ErrorKind::InvalidData),
        "memory" => Ok(ErrorKind::OutOfMemory),
        _ => Err(Trouble::NoRow),
    }
}

// The row of a word with two parts behind it.
fn of_two_parts<'a>(word: &str, first: &'a str, more: &'a str) -> Result<Row<'a>, Trouble> {
    match word {
        "put" => Ok(Row::Put(first, more)),
        "exchange" => Ok(Row::Exchange(first, more)),
        "build" => Ok(Row::Build(Shape::of(first)?, number_of(more)?)),
        "fail" => Ok(Row::Fail(Object::of(first)?, u64::from(number_of(more)?))),
        "cuts" => Ok(Row::Call(Manner::Cuts(first), more)),
        "repeats" => Ok(Row::Call(Manner::Repeats(first), more)),
        "failing" => {
            let object = Object::of(first)?;
            Ok(Row::Call(Manner::Failing(object), more))
        }
        _ => Err(Trouble::NoRow),
    }
}
