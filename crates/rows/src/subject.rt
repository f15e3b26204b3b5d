// What rows about netlists speak of, and the rows that say so. A row is a word, a space, and what the word asks for; `\n` stands
// there for LF, and so on. A question is to the last netlist and its delays.
use crate::questions::asked;
use netlist::Netlist;
use row_answers::{Text, Trouble, read, spelled_out};
use std::alloc::Global;

/// What rows speak of.
#[derive(Drop)]
pub struct Subject {
    /// The last netlist, if it was not refused.
    pub net: Option<Netlist>,
    /// The text of its delay file; without one each pin has a delay of one unit.
    pub delays: Option<String>,
    /// Whether a delay file prints nothing.
    pub quiet: bool,
    /// The text of a prefix, below which trees stand.
    pub prefix: String,
}

impl Subject {
    /// Nothing yet.
    pub fn new(alloc: Global) -> Subject {
        Subject {
            net: None,
            delays: None,
            quiet: false,
            prefix: String::new(alloc),
        }
    }

    /// The text of the delay file, if there is one.
    pub fn delay_text(&self) -> Option<&str> {
        match &self.delays {
            Some(text) => Some(text.as_str()),
            None => None,
        }
    }

    // From now on questions are to the netlist of this text, with unit delays.
    fn take(&mut self, alloc: Global, text: &str) -> Result<(), Trouble> {
        self.net = read(alloc, text)?;
        self.delays = None;
        Ok(())
    }

    /// Adds what came of a row of this word.
    pub fn answer(
        &mut self,
        alloc: Global,
        word: &str,
        rest: &str,
        answer: &mut Text,
    ) -> Result<(), Trouble> {
        match word {
            // the canonical text of the netlist of this text, or that it is refused
            "text" => add_text(alloc, rest, answer),
            // the same, and what else is said of it; from now on questions are to this netlist, with unit delays
            "net" => {
                self.take(alloc, rest)?;
                self.add_facts(alloc, answer)
            }
            _ => {
                if self.set(alloc, word, rest)? {
                    Ok(())
                } else {
                    asked(alloc, self, word, rest, answer)
                }
            }
        }
    }

    // What is said of the last netlist.
    fn add_facts(&self, alloc: Global, answer: &mut Text) -> Result<(), Trouble> {
        match &self.net {
            Some(net) => row_answers::netlist_facts(alloc, net, answer),
            None => {
                answer.add("  refused\n");
                Ok(())
            }
        }
    }

    // Takes a row that only says what later rows speak of. Tells whether it is one.
    fn set(&mut self, alloc: Global, word: &str, rest: &str) -> Result<bool, Trouble> {
        match word {
            // the netlist of this text, with unit delays
            "use" => self.take(alloc, rest)?,
            // unit delays
            "unit" => self.delays = None,
            // this delay file; where it is to print what it says, it is a question too
            "delays" => {
                self.delays = Some(spelled_out(alloc, rest)?);
                return Ok(self.quiet);
            }
            // no delay file prints what it says
            "quiet" => self.quiet = true,
            // this prefix
            "prefix" => self.prefix = spelled_out(alloc, rest)?,
            _ => return Ok(false),
        }
        Ok(true)
    }
}

// The canonical text of the netlist of a text.
fn add_text(alloc: Global, text: &str, answer: &mut Text) -> Result<(), Trouble> {
    match read(alloc, text)? {
        Some(net) => row_answers::netlist_text(alloc, &net, answer),
        None => {
            answer.add("  refused\n");
            Ok(())
        }
    }
}
