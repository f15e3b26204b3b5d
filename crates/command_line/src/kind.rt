// What a word behind a command's own is, by itself.
ghost use Rattle.std.specs.Prelude.{◌≡◌, option_map};
ghost use Rattle.command_line.specs.Kinds.{option_kind, other_kind, word_kind};
ghost use Rattle.command_line.specs.Taken.{kind_seen};

use crate::OptionName;

/// The kind of a word. Whether it may stand where it does is another question.
#[derive(Clone, Copy)]
pub(crate) enum WordKind<'a> {
    /// An option's own word. Its value is the next word.
    Alone(OptionName),
    /// An option's word with its value.
    Valued(OptionName, &'a str),
    /// Another word that begins with a hyphen.
    Hyphened,
    /// A word without bytes.
    Empty,
    /// Any other word.
    Plain,
}

// The kind of a word of a command that knows these options.
pub(crate) fn word_kind<'a>(options: &[OptionName], word: &'a str) -> WordKind<'a>
    ensures { kind_seen result ≡ word_kind options.now word.now }
{
    let mut rest = options;
    while let [option, later @ ..] = rest {
        if let Some(kind) = option_kind(*option, word) {
            return kind;
        }
        rest = later;
    }
    other_kind(word)
}

// The kind of a word that is no option of the command.
fn other_kind(word: &str) -> WordKind<'_>
    ensures { kind_seen result ≡ other_kind word.now }
{
    match word.as_bytes() {
        [] => WordKind::Empty,
        [b'-', ..] => WordKind::Hyphened,
        _ => WordKind::Plain,
    }
}

// The kind of a word that may be this option's, if it is.
fn option_kind(option: OptionName, word: &str) -> Option<WordKind<'_>>
    ensures { option_map kind_seen result ≡ option_kind option word.now }
{
    let Some(behind) = word.strip_prefix(option.word()) else {
        return None;
    };
    if behind.is_empty() {
        return Some(WordKind::Alone(option));
    }
    match behind.strip_prefix("=") {
        Some(value) => Some(WordKind::Valued(option, value)),
        None => None,
    }
}
