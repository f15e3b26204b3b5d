// What a word may have as its value.
ghost use Rattle.std.specs.Prelude.{◌≡◌};
ghost use Rattle.command_line.specs.Commands.{bytes_of_words};
ghost use Rattle.command_line.specs.Taken.{allowed_seen};
ghost use Rattle.command_line.specs.Values.{is_allowed, is_among, is_file_name, is_plain};

use crate::number::is_within;

/// What the value of a word may be.
#[derive(Clone, Copy)]
pub(crate) enum ValueKind {
    /// A number from the least to the greatest, spelled by at most so many digits.
    Number {
        least: u32,
        greatest: u32,
        digits: usize,
    },
    /// One of these words, none of which begins with a hyphen.
    OneOf(&'static [&'static str]),
    /// The name of a file. None begins with a hyphen.
    FileName,
}

impl ValueKind {
    // Whether this text may be the value.
    pub(crate) fn allows(self, text: &str) -> bool
        ensures { result ≡ is_allowed (allowed_seen self) text.now }
    {
        match self {
            ValueKind::Number {
                least,
                greatest,
                digits,
            } => is_within(text, least, greatest, digits),
            ValueKind::OneOf(words) => is_plain(text) && is_among(words, text),
            ValueKind::FileName => is_plain(text),
        }
    }

    // Whether the value is the name of a file.
    pub(crate) fn is_file_name(self) -> bool
        ensures { result ≡ is_file_name (allowed_seen self) }
    {
        match self {
            ValueKind::Number { .. } | ValueKind::OneOf(_) => false,
            ValueKind::FileName => true,
        }
    }
}

// Whether a text has a first byte, which is no hyphen.
fn is_plain(text: &str) -> bool
    ensures { result ≡ is_plain text.now }
{
    match text.as_bytes() {
        [] | [b'-', ..] => false,
        _ => true,
    }
}

// Whether a text is one of these words.
fn is_among(words: &[&str], text: &str) -> bool
    ensures { result ≡ is_among (bytes_of_words words.now) text.now }
{
    let mut rest = words;
    while let [word, later @ ..] = rest {
        if text == *word {
            return true;
        }
        rest = later;
    }
    false
}
