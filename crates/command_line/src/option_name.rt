// The list of the options of the commands. Which commands know an option, their forms say.
ghost use Rattle.std.specs.Prelude.{◌≡◌, option_map};
ghost use Rattle.command_line.specs.Options.{option_entry, option_word};
ghost use Rattle.command_line.specs.Taken.{entry_seen};
ghost use Rattle.command_line.specs.Values.{is_allowed, is_file_name};

use crate::number::MOST_DIGITS;
use crate::value_kind::ValueKind;
use pd_base::{MOST_BUDGET, MOST_PATHS};

/// An option of a command.
#[derive(Clone, Copy, Debug)]
pub enum OptionName {
    /// How many paths are to be listed, where the netlist has as many.
    Paths,
    /// How many splits each search may make.
    Budget,
    /// How a tester applies the two vectors of a pair.
    Mode,
    /// The file of the scan chains.
    Scan,
}

/// What the rules say of an option.
#[derive(Clone, Copy)]
pub(crate) struct OptionEntry {
    /// The word that stands for the option on the command line.
    pub(crate) word: &'static str,
    /// The word without its hyphens, by which clap knows it.
    pub(crate) name: &'static str,
    /// What its value may be.
    pub(crate) kind: ValueKind,
    /// The value where the words give none, if it has one.
    pub(crate) default: Option<&'static str>,
}

impl OptionName {
    // What the rules say of the option.
    pub(crate) fn entry(self) -> OptionEntry
        ensures entry { entry_seen result ≡ option_entry self }
        ensures word { result.word.now ≡ option_word self }
    {
        match self {
            OptionName::Paths => OptionEntry {
                word: "--paths",
                name: "paths",
                kind: ValueKind::Number {
                    least: 1,
                    greatest: MOST_PATHS,
                    digits: MOST_DIGITS,
                },
                default: Some("100"),
            },
            OptionName::Budget => OptionEntry {
                word: "--budget",
                name: "budget",
                kind: ValueKind::Number {
                    least: 1,
                    greatest: MOST_BUDGET,
                    digits: MOST_DIGITS,
                },
                default: Some("1000"),
            },
            OptionName::Mode => OptionEntry {
                word: "--mode",
                name: "mode",
                kind: ValueKind::OneOf(&["enhanced", "broadside", "skewed"]),
                default: Some("enhanced"),
            },
            OptionName::Scan => OptionEntry {
                word: "--scan",
                name: "scan",
                kind: ValueKind::FileName,
                default: None,
            },
        }
    }

    /// The word that stands for the option on the command line.
    pub fn word(self) -> &'static str
        ensures { result.now ≡ option_word self }
    {
        self.entry().word
    }

    // The value of the option where the words give none, if it has one.
    pub(crate) fn default(self) -> Option<&'static str>
        ensures { option_map (λ text. text.now) result ≡ (option_entry self).default }
    {
        self.entry().default
    }

    // Whether this text may be the option's value.
    pub(crate) fn allows(self, text: &str) -> bool
        ensures { result ≡ is_allowed (option_entry self).allowed text.now }
    {
        self.entry().kind.allows(text)
    }

    // Whether the option's value is the name of a file.
    pub(crate) fn names_file(self) -> bool
        ensures { result ≡ is_file_name (option_entry self).allowed }
    {
        self.entry().kind.is_file_name()
    }
}
