// A text that grows, as an answer to a row. What goes wrong is kept, so that nobody who adds to the text has to ask at each word.
use crate::trouble::Trouble;
use std::alloc::Global;

/// A text that grows, or why it could not.
#[derive(Drop)]
pub struct Text {
    text: String,
    trouble: Option<Trouble>,
}

impl Text {
    /// No text yet.
    pub fn new(alloc: Global) -> Text {
        Text {
            text: String::new(alloc),
            trouble: None,
        }
    }

    /// The text, or what went wrong.
    pub fn read(&self) -> Result<&str, Trouble> {
        match self.trouble {
            Some(trouble) => Err(trouble),
            None => Ok(self.text.as_str()),
        }
    }

    /// Begins again with no text. What went wrong stays.
    pub fn clear(&mut self) {
        self.text.clear();
    }

    /// Adds a text.
    pub fn add(&mut self, text: &str) {
        if self.text.push_str(text).is_err() {
            self.trouble = Some(Trouble::NoMemory);
        }
    }

    /// Adds a letter.
    pub fn add_letter(&mut self, letter: char) {
        if self.text.push(letter).is_err() {
            self.trouble = Some(Trouble::NoMemory);
        }
    }

    /// Adds the text of these bytes.
    pub fn add_bytes(&mut self, bytes: &[u8]) {
        match str::from_utf8(bytes) {
            Ok(text) => self.add(text),
            Err(_) => self.trouble = Some(Trouble::NoText),
        }
    }

    /// Adds a word and a number.
    pub fn add_number(&mut self, word: &str, number: u64) {
        if write!(self.text, "{word}{number}").is_err() {
            self.trouble = Some(Trouble::NoMemory);
        }
    }

    /// Adds a number with a hundred digits, as a long name.
    pub fn add_long_number(&mut self, number: u32) {
        if write!(self.text, "{number:0100}").is_err() {
            self.trouble = Some(Trouble::NoMemory);
        }
    }

    /// Adds a time behind a space.
    pub fn add_time(&mut self, time: i64) {
        if write!(self.text, " {time}").is_err() {
            self.trouble = Some(Trouble::NoMemory);
        }
    }

    /// Adds bits.
    pub fn add_bits(&mut self, bits: &[bool]) {
        for bit in bits {
            self.add_letter(if *bit { '1' } else { '0' });
        }
    }

    /// Adds a line of bits.
    pub fn add_bits_line(&mut self, bits: &[bool]) {
        self.add("  ");
        self.add_bits(bits);
        self.add("\n");
    }

    /// Adds a line that says yes or no.
    pub fn add_yes_or_no(&mut self, yes: bool) {
        self.add(if yes { "  yes\n" } else { "  no\n" });
    }

    /// Adds a text as a row shows it, in one line: LF by its sign.
    pub fn add_shown(&mut self, bytes: &[u8]) {
        match str::from_utf8(bytes) {
            Ok(text) => self.add_with_signs(text),
            Err(_) => self.trouble = Some(Trouble::NoText),
        }
    }

    // Adds the letters of a text, LF by its sign.
    fn add_with_signs(&mut self, text: &str) {
        for letter in text.chars() {
            if letter == '\n' {
                self.add("\\n");
            } else {
                self.add_letter(letter);
            }
        }
    }
}
