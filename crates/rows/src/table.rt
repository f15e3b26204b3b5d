// What stands between two calls: the files that a call finds, and what is to fail in the next one.
use crate::answer_lines::{add, add_line};
use crate::outside::{Outside, call_unfailing};
use crate::row::Object;
use pd_base::OutOfMemory;
use pd_io::SteadyFiles;
use row_answers::{Text, Trouble, spelled_out};
use std::alloc::{AllocError, Global};
use std::collections::BTreeMap;
use std::io::ErrorKind;

/// The names of which a call may change what they hold.
pub const NAMES: [&str; 6] = ["net", "delays", "tests", "report", "proofs", "other"];

/// Files by name, and failures of the next call.
#[derive(Drop)]
pub struct Table {
    alloc: Global,
    held: BTreeMap<String, String>,
    shown: Option<String>,
    failing: Vec<(Object, u64)>,
}

impl Table {
    /// No files, and no failures.
    pub fn new(alloc: Global) -> Table {
        Table {
            alloc,
            held: BTreeMap::new(alloc),
            shown: None,
            failing: Vec::new(alloc),
        }
    }

    /// Puts a text under a name, with its signs exchanged for what they stand for.
    pub fn put(&mut self, name: &str, text: &str) -> Result<(), AllocError> {
        let text = spelled_out(self.alloc, text)?;
        self.put_as_is(name, text.as_str())
    }

    /// Puts a text under a name as it is.
    pub fn put_as_is(&mut self, name: &str, text: &str) -> Result<(), AllocError> {
        let name = String::from_str(self.alloc, name)?;
        self.held.insert(name, String::from_str(self.alloc, text)?)?;
        Ok(())
    }

    /// Makes a name absent.
    pub fn remove(&mut self, name: &str) {
        self.held.remove(name);
    }

    /// Exchanges the first place of what stands under a name that has a text, for another one: both, a slash between two spaces between.
    pub fn exchange(&mut self, name: &str, parts: &str) -> Result<(), Trouble> {
        let (old, new) = parts.split_once(" / ").ok_or(Trouble::NoRow)?;
        let changed = exchanged(self.alloc, self.text(name), old, new)?;
        self.put_as_is(name, changed.as_str())?;
        Ok(())
    }

    /// What stands under a name.
    pub fn text(&self, name: &str) -> Option<&str> {
        match self.held.get(name) {
            Some(text) => Some(text.as_str()),
            None => None,
        }
    }

    /// The same as bytes.
    pub fn held(&self, name: &str) -> Option<&[u8]> {
        match self.held.get(name) {
            Some(text) => Some(text.as_bytes()),
            None => None,
        }
    }

    /// Of the files that a call changes tells only these, single spaces between.
    pub fn show(&mut self, names: &str) -> Result<(), AllocError> {
        self.shown = Some(String::from_str(self.alloc, names)?);
        Ok(())
    }

    /// Plans a failure of the next call.
    pub fn fail(&mut self, object: Object, nth: u64) -> Result<(), AllocError> {
        self.failing.push((object, nth))?;
        Ok(())
    }

    /// A call with these words: adds what came of it, line by line.
    pub fn call(&mut self, words: &[&str], answer: &mut Text) -> Result<(), OutOfMemory> {
        let mut outside = self.outside()?;
        self.call_over(words, &mut outside, answer)
    }

    // The same over this outside.
    fn call_over(
        &mut self,
        words: &[&str],
        outside: &mut Outside,
        answer: &mut Text,
    ) -> Result<(), OutOfMemory> {
        self.plan_failures(outside)?;
        self.failing.clear();
        outside.call(words, answer);
        self.add_changed(outside, answer);
        Ok(())
    }

    /// A call whose words can't be had, with an error of this kind: adds what came of it, line by line.
    pub fn call_without_words(
        &self,
        kind: ErrorKind,
        answer: &mut Text,
    ) -> Result<(), OutOfMemory> {
        let mut outside = self.outside()?;
        outside.call_without_words(kind, answer);
        self.add_changed(&outside, answer);
        Ok(())
    }

    /// A call with these words: adds its status, and what err and out took. What it leaves in files is what later calls find.
    pub fn keep(&mut self, words: &[&str], answer: &mut Text) -> Result<(), Trouble> {
        let mut outside = self.outside()?;
        outside.call(words, answer);
        self.take_files(&outside)
    }

    // Holds from now on what is held there.
    fn take_files(&mut self, outside: &Outside) -> Result<(), Trouble> {
        for name in NAMES {
            if let Some(bytes) = outside.get(name) {
                self.put_as_is(name, text_of(bytes)?)?;
            }
        }
        Ok(())
    }

    /// A call with these words over files and streams whose calls never fail: adds its status, and what err and out took.
    pub fn call_unfailing(&self, words: &[&str], answer: &mut Text) -> Result<(), OutOfMemory> {
        let mut files = SteadyFiles::new(self.alloc);
        self.put_steady(&mut files)?;
        call_unfailing(self.alloc, words, &mut files, answer);
        Ok(())
    }

    // Puts all files there.
    fn put_steady(&self, files: &mut SteadyFiles) -> Result<(), OutOfMemory> {
        for (name, text) in self.held.iter() {
            files.put(name.as_str(), text.as_bytes())?;
        }
        Ok(())
    }

    /// What a call finds, and nothing that is to fail.
    pub fn outside(&self) -> Result<Outside, OutOfMemory> {
        let mut outside = Outside::new(self.alloc);
        self.put_held(&mut outside)?;
        Ok(outside)
    }

    // Puts all files there.
    fn put_held(&self, outside: &mut Outside) -> Result<(), OutOfMemory> {
        for (name, text) in self.held.iter() {
            outside.put(name.as_str(), text.as_bytes())?;
        }
        Ok(())
    }

    // Makes the calls fail that are to fail.
    fn plan_failures(&self, outside: &mut Outside) -> Result<(), OutOfMemory> {
        for (object, nth) in self.failing.iter() {
            outside.fail(*object, *nth)?;
        }
        Ok(())
    }

    // Whether a change of this file is told.
    fn shows(&self, name: &str) -> bool {
        match &self.shown {
            Some(names) => has_word(names.as_str(), name),
            None => true,
        }
    }

    // A line for each file that holds another text than before, if it is told.
    fn add_changed(&self, outside: &Outside, answer: &mut Text) {
        for name in NAMES {
            let after = outside.get(name);
            if after != self.held(name) && self.shows(name) {
                add_file(name, after, answer);
            }
        }
    }
}

// The text that these bytes are.
fn text_of(bytes: &[u8]) -> Result<&str, Trouble> {
    match str::from_utf8(bytes) {
        Ok(text) => Ok(text),
        Err(_) => Err(Trouble::NoText),
    }
}

// The line of a file that holds these bytes.
fn add_file(name: &str, bytes: Option<&[u8]>, answer: &mut Text) {
    match bytes {
        Some(bytes) => add(name, bytes, answer),
        None => add_line(name, "absent", answer),
    }
}

// Whether a word is among these, single spaces between.
fn has_word(words: &str, word: &str) -> bool {
    for other in words.split(' ') {
        if other == word {
            return true;
        }
    }
    false
}

// A text with another one at its first place that has an old one.
fn exchanged(alloc: Global, text: Option<&str>, old: &str, new: &str) -> Result<String, Trouble> {
    let text = text.ok_or(Trouble::NoRow)?;
    let (front, back) = text.split_once(old).ok_or(Trouble::NoRow)?;
    let mut changed = String::from_str(alloc, front)?;
    changed.push_str(new)?;
    changed.push_str(back)?;
    Ok(changed)
}
