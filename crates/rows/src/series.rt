// Calls in a series: with a file that is cut behind one byte after another, with one line after another that stands twice, and with one
// call of the outside after another that fails. What came of each stands in one line; where the same came of calls that follow one
// another, it is told once. Each function holds one value that has to be dropped where the next call fails, so a series is handed down
// from function to function.
use crate::answer_lines::add_in_one_line;
use crate::outside::Outside;
use crate::row::Object;
use crate::standing::add_standings;
use crate::table::Table;
use pd_base::OutOfMemory;
use row_answers::{Text, Trouble};
use std::alloc::Global;
use std::mem;

// More calls of one method than a call of any row makes.
const MOST_CALLS: u64 = 1_000;

// What came of the calls of a series, by number. Those before the last ones, of which the same came, are told.
#[derive(Drop)]
struct Series {
    // The first and the last one of the calls of which came the same as of the last one, and what came of it.
    first: u64,
    last: u64,
    came: Text,
    // What came of the next call, written by who makes it.
    next: Text,
}

impl Series {
    // No call.
    fn new(alloc: Global) -> Series {
        Series {
            first: 0,
            last: 0,
            came: Text::new(alloc),
            next: Text::new(alloc),
        }
    }

    // Adds the next call, of this number.
    fn add(&mut self, number: u64, answer: &mut Text) -> Result<(), Trouble> {
        if self.came.read()? != self.next.read()? {
            self.tell(answer)?;
            self.first = number;
            mem::swap(&mut self.came, &mut self.next);
        }
        self.last = number;
        self.next.clear();
        Ok(())
    }

    // Tells what came of the last calls, if there are any.
    fn tell(&self, answer: &mut Text) -> Result<(), Trouble> {
        let came = self.came.read()?;
        if !came.is_empty() {
            self.add_line(came, answer);
        }
        Ok(())
    }

    // Their line.
    fn add_line(&self, came: &str, answer: &mut Text) {
        answer.add_number("  ", self.first);
        if self.first != self.last {
            answer.add_number(" to ", self.last);
        }
        answer.add(": ");
        add_in_one_line(came, answer);
        answer.add("\n");
    }
}

/// Calls with these words in which the file of this name is cut to so many bytes: none, one, and so on up to all but the last.
pub fn cuts(
    alloc: Global,
    table: &Table,
    name: &str,
    words: &[&str],
    answer: &mut Text,
) -> Result<(), Trouble> {
    let mut series = Series::new(alloc);
    add_cuts(table, name, words, &mut series, answer)
}

// The same calls of a series.
fn add_cuts(
    table: &Table,
    name: &str,
    words: &[&str],
    series: &mut Series,
    answer: &mut Text,
) -> Result<(), Trouble> {
    let text = table.held(name).ok_or(Trouble::NoRow)?;
    for length in 0..text.len() {
        call_with(table, name, &text[..length], words, &mut series.next)?;
        series.add(length as u64, answer)?;
    }
    series.tell(answer)
}

/// Calls with these words in which the line of this number of the file of this name stands twice: the first one, the second, and so on.
pub fn repeats(
    alloc: Global,
    table: &Table,
    name: &str,
    words: &[&str],
    answer: &mut Text,
) -> Result<(), Trouble> {
    let mut series = Series::new(alloc);
    add_repeats(alloc, table, name, words, &mut series, answer)
}

// The same calls of a series.
fn add_repeats(
    alloc: Global,
    table: &Table,
    name: &str,
    words: &[&str],
    series: &mut Series,
    answer: &mut Text,
) -> Result<(), Trouble> {
    let text = table.text(name).ok_or(Trouble::NoRow)?;
    let mut number = 0u64;
    for _ in text.lines() {
        number = number.saturating_add(1);
        call_repeating(alloc, table, name, number, words, &mut series.next)?;
        series.add(number, answer)?;
    }
    series.tell(answer)
}

// What came of a call in which the line of this number of a file stands twice.
fn call_repeating(
    alloc: Global,
    table: &Table,
    name: &str,
    number: u64,
    words: &[&str],
    came: &mut Text,
) -> Result<(), Trouble> {
    let text = table.text(name).ok_or(Trouble::NoRow)?;
    let mut twice = Text::new(alloc);
    add_with_twice(text, number, &mut twice);
    call_with(table, name, twice.read()?.as_bytes(), words, came)?;
    Ok(())
}

// The text, with its line of this number twice.
fn add_with_twice(text: &str, number: u64, twice: &mut Text) {
    let mut at = 0u64;
    for line in text.split_inclusive('\n') {
        at = at.saturating_add(1);
        twice.add(line);
        if at == number {
            twice.add(line);
        }
    }
}

// What came of a call that finds these bytes under this name.
fn call_with(
    table: &Table,
    name: &str,
    bytes: &[u8],
    words: &[&str],
    came: &mut Text,
) -> Result<(), OutOfMemory> {
    let mut outside = table.outside()?;
    outside.put(name, bytes)?;
    outside.call(words, came);
    Ok(())
}

/// Calls with these words in which the first call of the outside of this kind fails, then the second, and so on, up to the one of which
/// the same comes as where nothing fails.
pub fn failing(
    alloc: Global,
    table: &Table,
    object: Object,
    words: &[&str],
    answer: &mut Text,
) -> Result<(), Trouble> {
    let mut unfailed = table.outside()?;
    failing_beside(alloc, table, object, words, &mut unfailed, answer)
}

// The same calls beside one in which nothing fails, over this outside.
fn failing_beside(
    alloc: Global,
    table: &Table,
    object: Object,
    words: &[&str],
    unfailed: &mut Outside,
    answer: &mut Text,
) -> Result<(), Trouble> {
    let mut goal = Text::new(alloc);
    unfailed.call(words, &mut goal);
    let outside: &Outside = unfailed;
    add_standings(table, outside, outside, &mut goal);
    let came = &goal;
    let unfailed = Unfailed { outside, came };
    failing_to(alloc, table, object, words, unfailed, answer)
}

// A call in which nothing fails: what it left, and what came of it.
#[derive(Clone, Copy)]
struct Unfailed<'a> {
    outside: &'a Outside,
    came: &'a Text,
}

// The same calls up to the one of which the same comes.
fn failing_to(
    alloc: Global,
    table: &Table,
    object: Object,
    words: &[&str],
    unfailed: Unfailed<'_>,
    answer: &mut Text,
) -> Result<(), Trouble> {
    let mut series = Series::new(alloc);
    add_failing(table, object, words, unfailed, &mut series, answer)
}

// The same calls of a series.
fn add_failing(
    table: &Table,
    object: Object,
    words: &[&str],
    unfailed: Unfailed<'_>,
    series: &mut Series,
    answer: &mut Text,
) -> Result<(), Trouble> {
    let goal = unfailed.came.read()?;
    for nth in 1..=MOST_CALLS {
        call_failing(
            table,
            object,
            nth,
            words,
            unfailed.outside,
            &mut series.next,
        )?;
        let is_last = series.next.read()? == goal;
        series.add(nth, answer)?;
        if is_last {
            break;
        }
    }
    series.tell(answer)
}

// What came of a call of which the call of the outside of this number fails.
fn call_failing(
    table: &Table,
    object: Object,
    nth: u64,
    words: &[&str],
    unfailed: &Outside,
    came: &mut Text,
) -> Result<(), OutOfMemory> {
    let mut outside = table.outside()?;
    outside.fail(object, nth)?;
    outside.call(words, came);
    add_standings(table, &outside, unfailed, came);
    Ok(())
}
