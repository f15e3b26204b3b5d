// The refusal of words, for each reason that command_line finds.
ghost use Rattle.std.specs.Prelude.{◌≡◌, ◌++◌, codes, decimal};
ghost use Rattle.commands.specs.WordsRefusals.{words_refusal, wrong_words};

use calls::{Cause, Part, Refusal};
use command_line::WordsRefusal;

// The refusal of words for this reason.
pub(crate) fn words_refusal(reason: WordsRefusal) -> Refusal
    ensures { result ≡ words_refusal reason }
{
    match reason {
        WordsRefusal::Command => wrong_words(b"command"),
        WordsRefusal::Repeat(option) => wrong_option(b"repeat ", option.word().as_bytes()),
        WordsRefusal::Value(option) => wrong_option(b"value ", option.word().as_bytes()),
        WordsRefusal::OptionAt(place) => wrong_number(b"option at ", place as u64),
        WordsRefusal::EmptyAt(place) => wrong_number(b"empty at ", place as u64),
        WordsRefusal::Count => wrong_words(b"count"),
        WordsRefusal::Scan => wrong_words(b"scan"),
        WordsRefusal::SameAt(place, later) => same_words(place as u64, later as u64),
        WordsRefusal::Product(product) => wrong_number(b"product ", product),
        WordsRefusal::Time => wrong_words(b"value TIME"),
        WordsRefusal::Stages => wrong_words(b"value N"),
    }
}

// What is wrong with the words.
fn wrong_words(reason: &'static [u8]) -> Refusal
    ensures { result ≡ wrong_words reason.now }
{
    Refusal::new(
        Cause::Words,
        &[Part::Words(b"words: "), Part::Words(reason)],
    )
}

// What is wrong with the option of this word.
fn wrong_option(reason: &'static [u8], option: &'static [u8]) -> Refusal
    ensures { result ≡ wrong_words (reason.now ++ option.now) }
{
    Refusal::new(
        Cause::Words,
        &[
            Part::Words(b"words: "),
            Part::Words(reason),
            Part::Words(option),
        ],
    )
}

// What is wrong, and a number that says where or how much.
fn wrong_number(reason: &'static [u8], number: u64) -> Refusal
    ensures { result ≡ wrong_words (reason.now ++ decimal number) }
{
    Refusal::new(
        Cause::Words,
        &[
            Part::Words(b"words: "),
            Part::Words(reason),
            Part::Number(number),
        ],
    )
}

// The words at these two places are the same.
fn same_words(place: u64, later: u64) -> Refusal
    ensures { result ≡ wrong_words (codes "same at " ++ decimal place ++ codes " " ++ decimal later) }
{
    Refusal::new(
        Cause::Words,
        &[
            Part::Words(b"words: same at "),
            Part::Number(place),
            Part::Words(b" "),
            Part::Number(later),
        ],
    )
}
