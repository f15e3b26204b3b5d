//! Plays rows and prints what came of each: what a netlist's text says, values, delays, paths and tests, waves, hulls and trees of cases,
//! searches; what is read of the files of a run; and whole calls over files and streams in memory, alone and in series, on small netlists
//! and on larger ones that it makes. The rows are this crate's stdin; what they have to print, its stdout, was worked out by hand. In the end
//! it is the program `pdfgen` once more, for the words that it was called with (the file `args`), which ask for tests of c17 (the folder
//! `data`): so the last line is the summary, and the status is 0. pd_tool is run with words that are refused. Stands on row_answers,
//! search_answers, run_files and commands, and is no part of the product.
#![tactic(auto)]

mod answer_lines;
mod claims;
mod full_files;
mod outside;
mod questions;
mod row;
mod searches;
mod series;
mod shape;
mod spelling;
mod standing;
mod subject;
mod table;

use commands::serve;
use full_files::FullFiles;
use outside::call_unfailing;
use row::{Manner, Row};
use row_answers::{Text, Trouble};
use shape::Shape;
use std::alloc::{AllocError, Global};
use std::process::ExitCode;
use subject::Subject;
use table::Table;

fn main(rt: HostRuntime) -> ExitCode {
    match play_all(&rt) {
        Ok(()) => serve(rt),
        Err(_) => ExitCode::FAILURE,
    }
}

// Plays one row after another, up to one that is none.
fn play_all(rt: &HostRuntime) -> Result<(), Trouble> {
    let mut table = Table::new(rt.alloc());
    let mut subject = Subject::new(rt.alloc());
    play_lines(rt, &mut table, &mut subject)
}

// Plays the rows of stdin.
fn play_lines(rt: &HostRuntime, table: &mut Table, subject: &mut Subject) -> Result<(), Trouble> {
    for line in rt.lines(rt.alloc()) {
        let line = line?;
        play(rt, table, subject, line.as_str())?;
    }
    Ok(())
}

// Plays a row. Rows print themselves first, but for those that only say what later calls find.
fn play(
    rt: &HostRuntime,
    table: &mut Table,
    subject: &mut Subject,
    line: &str,
) -> Result<(), Trouble> {
    match Row::of(line)? {
        Row::Put(name, text) => table.put(name, text)?,
        Row::Build(shape, size) => build(rt.alloc(), table, shape, size)?,
        Row::Remove(name) => table.remove(name),
        Row::Exchange(name, parts) => table.exchange(name, parts)?,
        Row::Show(names) => table.show(names)?,
        Row::Fail(object, nth) => table.fail(object, nth)?,
        row => play_aloud(rt, table, subject, line, row)?,
    }
    Ok(())
}

// From now on each call finds a text of this shape and size.
fn build(alloc: Global, table: &mut Table, shape: Shape, size: u32) -> Result<(), Trouble> {
    let mut text = Text::new(alloc);
    shape.add(size, &mut text);
    table.put_as_is("net", text.read()?)?;
    Ok(())
}

// Plays a row that prints itself.
fn play_aloud(
    rt: &HostRuntime,
    table: &mut Table,
    subject: &mut Subject,
    line: &str,
    row: Row<'_>,
) -> Result<(), Trouble> {
    let mut answer = Text::new(rt.alloc());
    add_answer(rt.alloc(), table, subject, row, &mut answer)?;
    print(rt, line, answer.read()?)
}

// Prints a row and its answer.
fn print(rt: &HostRuntime, line: &str, answer: &str) -> Result<(), Trouble> {
    println!(rt; "{line}")?;
    print!(rt; "{answer}")?;
    Ok(())
}

// What came of a row that prints itself.
fn add_answer(
    alloc: Global,
    table: &mut Table,
    subject: &mut Subject,
    row: Row<'_>,
    answer: &mut Text,
) -> Result<(), Trouble> {
    match row {
        Row::BareCall => Ok(table.call(&[], answer)?),
        Row::Wordless(kind) => Ok(table.call_without_words(kind, answer)?),
        Row::Call(manner, words) => called(alloc, table, manner, words, answer),
        Row::Ask(word, rest) => subject.answer(alloc, word, rest, answer),
        // a heading
        _ => Ok(()),
    }
}

// What came of calls with these words.
fn called(
    alloc: Global,
    table: &mut Table,
    manner: Manner<'_>,
    words: &str,
    answer: &mut Text,
) -> Result<(), Trouble> {
    let words = words_of(alloc, words)?;
    called_with(alloc, table, manner, words.as_slice(), answer)
}

// The same of these words.
fn called_with(
    alloc: Global,
    table: &mut Table,
    manner: Manner<'_>,
    words: &[&str],
    answer: &mut Text,
) -> Result<(), Trouble> {
    match manner {
        Manner::Planned => Ok(table.call(words, answer)?),
        Manner::Kept => table.keep(words, answer),
        Manner::Unfailing => Ok(table.call_unfailing(words, answer)?),
        Manner::Full => call_full(alloc, words, answer),
        Manner::Cuts(name) => series::cuts(alloc, table, name, words, answer),
        Manner::Repeats(name) => series::repeats(alloc, table, name, words, answer),
        Manner::Failing(object) => series::failing(alloc, table, object, words, answer),
    }
}

// The same where memory is full: a request that no memory meets stands for those of the call.
fn call_full(alloc: Global, words: &[&str], answer: &mut Text) -> Result<(), Trouble> {
    match search_answers::ask_room(alloc, usize::BITS - 1) {
        Ok(()) => Err(Trouble::NoRow),
        Err(refused) => {
            call_unfailing(alloc, words, &mut FullFiles::new(alloc, refused), answer);
            Ok(())
        }
    }
}

// The words of a call, between single spaces.
fn words_of(alloc: Global, words: &str) -> Result<Vec<&str>, AllocError> {
    words.split(' ').collect(alloc)
}
