// Signs of a row that stand for bytes, `\n` for LF and so on; and words and numbers in a row.
use crate::trouble::Trouble;
use std::alloc::{AllocError, Global};

/// The text that a row spells, with each sign exchanged for what it stands for.
pub fn spelled_out(alloc: Global, row: &str) -> Result<String, AllocError> {
    let mut text = String::new(alloc);
    add_spelled_out(row, &mut text)?;
    Ok(text)
}

// Adds that text.
fn add_spelled_out(row: &str, text: &mut String) -> Result<(), AllocError> {
    let mut in_sign = false;
    for letter in row.chars() {
        if letter == '\\' && !in_sign {
            in_sign = true;
        } else {
            text.push(if in_sign { meant(letter) } else { letter })?;
            in_sign = false;
        }
    }
    Ok(())
}

// What a sign with this letter stands for.
fn meant(letter: char) -> char {
    match letter {
        'n' => '\n',
        'r' => '\r',
        't' => '\t',
        'f' => '\u{c}',
        'b' => '\u{7}',
        'v' => '\u{b}',
        'd' => '\u{7f}',
        '0' => '\0',
        _ => letter,
    }
}

/// The first word, and what stands behind the space after it.
pub fn parted(row: &str) -> Result<(&str, &str), Trouble> {
    row.split_once(' ').ok_or(Trouble::NoRow)
}

/// The number that a part of a row spells.
pub fn number_of(text: &str) -> Result<u32, Trouble> {
    match text.parse::<u32>() {
        Ok(number) => Ok(number),
        Err(_) => Err(Trouble::NoRow),
    }
}
