// What came of calls, as lines: the status, what err and out took, and files that changed.
use row_answers::Text;

/// Adds what came of a call with this status, where err and out took these bytes.
pub fn add_came(status: u8, err: &[u8], out: &[u8], answer: &mut Text) {
    answer.add_number("  status ", status as u64);
    answer.add("\n");
    add_taken("err", err, answer);
    add_taken("out", out, answer);
}

// A line with what was taken, if it is anything.
fn add_taken(name: &str, bytes: &[u8], answer: &mut Text) {
    if !bytes.is_empty() {
        add(name, bytes, answer);
    }
}

/// Adds a line with a name and a text.
pub fn add(name: &str, bytes: &[u8], answer: &mut Text) {
    add_name(name, answer);
    answer.add_shown(bytes);
    answer.add("\n");
}

/// Adds a line with a name and what is told of it.
pub fn add_line(name: &str, told: &str, answer: &mut Text) {
    add_name(name, answer);
    answer.add(told);
    answer.add("\n");
}

// A name at the front of a line.
fn add_name(name: &str, answer: &mut Text) {
    answer.add("  ");
    answer.add(name);
    answer.add(" ");
}

/// Adds the lines of what came of a call as one, commas between.
pub fn add_in_one_line(came: &str, answer: &mut Text) {
    let mut is_first = true;
    for part in came.lines() {
        answer.add(if is_first { "" } else { ", " });
        answer.add(part.trim_start());
        is_first = false;
    }
}
