// What stands in files behind a call of which something failed, against the same call where nothing fails.
use crate::answer_lines::add_line;
use crate::outside::Outside;
use crate::table::{NAMES, Table};
use row_answers::Text;

// What a file holds behind a call.
#[derive(Clone, Copy)]
enum Standing {
    // All that it holds where nothing fails.
    Whole,
    // What it held before.
    AsBefore,
    // None of the bytes that it holds where nothing fails.
    Empty,
    // Some of them, from the first on.
    Front,
    // Anything else.
    Other,
}

impl Standing {
    // What stands under a name, by what stood there before, and what stands there where nothing fails.
    fn of(before: Option<&[u8]>, now: Option<&[u8]>, whole: Option<&[u8]>) -> Standing {
        if now == whole {
            return Standing::Whole;
        }
        if now == before {
            return Standing::AsBefore;
        }
        match (now, whole) {
            (Some(now), Some(whole)) => Standing::of_part(now, whole),
            _ => Standing::Other,
        }
    }

    // What this part of a text is.
    fn of_part(part: &[u8], whole: &[u8]) -> Standing {
        if part.is_empty() {
            Standing::Empty
        } else if whole.starts_with(part) {
            Standing::Front
        } else {
            Standing::Other
        }
    }

    // Its word.
    fn word(self) -> &'static str {
        match self {
            Standing::Whole => "whole",
            Standing::AsBefore => "as before",
            Standing::Empty => "empty",
            Standing::Front => "front",
            Standing::Other => "other",
        }
    }
}

/// Adds a line for each file that the call changes where nothing fails, or that was changed by this one.
pub fn add_standings(table: &Table, outside: &Outside, unfailed: &Outside, answer: &mut Text) {
    for name in NAMES {
        let before = table.held(name);
        let now = outside.get(name);
        let whole = unfailed.get(name);
        if now != before || whole != before {
            add_line(name, Standing::of(before, now, whole).word(), answer);
        }
    }
}
