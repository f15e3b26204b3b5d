// The values of words that the rules accept, as clap reads them. Nothing else speaks of clap.
ghost use Rattle.std.specs.Prelude.{◌≡◌, IfOk, IfErr, true, false, option_map};
ghost use Rattle.std.specs.List.{list_all};
ghost use Rattle.clap.specs.Words.{app_of, found_of, kind_of, rule_of, with_rule};
ghost use Rattle.command_line.specs.ClapWords.{argument_rule, option_rule, texts_found, word_rule, words_app};
ghost use Rattle.command_line.specs.Commands.{bytes_of_words};
ghost use Rattle.command_line.specs.Options.{has_name};
ghost use Rattle.command_line.specs.Reading.{Given, GivesWords, texts_given, value_asked};
ghost use Rattle.command_line.specs.Taken.{form_seen, texts_parsed};

use crate::OptionName;
use crate::form::WordsForm;
use clap::error::ErrorKind;
use clap::{Arg, ArgAction, ArgMatches, Command, Error};
use pd_base::OutOfMemory;
use std::alloc::Global;

/// The values of the words of a command, as clap has them.
#[derive(Drop)]
pub(crate) struct Parsed<'a> {
    /// The positional words, in order.
    pub(crate) positional: Vec<&'a str>,
    /// All that clap has of the words.
    matches: ArgMatches<'a>,
}

impl<'a> Parsed<'a> {
    // The value of an option, or its default where the words give none.
    pub(crate) fn value_asked(&self, option: OptionName) -> Option<&'a str>
        ensures { option_map (λ text. text.now) result ≡ value_asked option (texts_parsed self.now) }
    {
        match self.matches.get_str(option.word()) {
            None => option.default(),
            value => value,
        }
    }
}

// The values of the words of a command of this form, its own in front. Of words that the rules accept, clap has the values that the rules
// give; it refuses them only for want of memory.
pub(crate) fn parsed_words<'a>(
    alloc: Global,
    form: WordsForm,
    words: &'a [&'a str],
) -> Result<Parsed<'a>, Error>
    requires { list_all has_name form.options.now ≡ true }
    ensures parsed { (given : Given) → GivesWords (form_seen form) (bytes_of_words words.entry.now) given
        → IfOk result (λ parsed. texts_parsed parsed ≡ texts_given given) }
    ensures memory { (given : Given) → GivesWords (form_seen form) (bytes_of_words words.entry.now) given
        → IfErr result (λ error. kind_of error ≡ ErrorKind.OutOfMemory) }
{
    let parser = words_parser(alloc, form.options)?;
    let matches = parser.try_get_matches_from(words)?;
    values_of(alloc, matches)
}

// The want of memory that an error of clap tells of, by its kind.
pub(crate) fn refused_memory(_error: Error) -> OutOfMemory
    requires { kind_of _error ≡ ErrorKind.OutOfMemory }
{
    OutOfMemory::reported()
}

// What clap is told of the words: one argument takes all positional words, and each option that the command knows has a value. Each
// argument is made where it is handed over, so that none has to be dropped where memory runs out.
fn words_parser<'a>(alloc: Global, options: &[OptionName]) -> Result<Command<'a>, Error>
    ensures parser { IfOk result (λ command. app_of command ≡ words_app options.now) }
    ensures memory { IfErr result (λ error. kind_of error ≡ ErrorKind.OutOfMemory) }
{
    let mut parser = Command::new(alloc, "pdfgen").arg(positional_argument(alloc))?;
    for option in options {
        parser = with_option(alloc, parser, *option)?;
    }
    Ok(parser)
}

// One option more.
fn with_option<'a>(
    alloc: Global,
    parser: Command<'a>,
    option: OptionName,
) -> Result<Command<'a>, Error>
    ensures parser { IfOk result (λ command. app_of command ≡ with_rule (app_of parser.entry) (option_rule option)) }
    ensures memory { IfErr result (λ error. kind_of error ≡ ErrorKind.OutOfMemory) }
{
    let entry = option.entry();
    Ok(parser.arg(option_argument(alloc, lent(entry.word), lent(entry.name)))?)
}

// The same text, for as long as the parser needs it.
fn lent<'a>(text: &'static str) -> &'a str
    ensures { result.now ≡ text.entry.now }
{
    text
}

// The argument that takes all positional words.
fn positional_argument<'a>(alloc: Global) -> Arg<'a>
    ensures rule { rule_of result ≡ word_rule }
    ensures local { result.global ≡ false }
{
    Arg::new(alloc, "positional").action(ArgAction::Append)
}

// The argument of an option with this word and name.
fn option_argument<'a>(alloc: Global, word: &'a str, name: &'a str) -> Arg<'a>
    ensures rule { rule_of result ≡ argument_rule word.entry.now name.entry.now }
    ensures local { result.global ≡ false }
{
    Arg::new(alloc, word).long(name)
}

// The values that were found.
fn values_of<'a>(alloc: Global, matches: ArgMatches<'a>) -> Result<Parsed<'a>, Error>
    ensures values { IfOk result (λ parsed. texts_parsed parsed ≡ texts_found (found_of matches.entry)) }
    ensures memory { IfErr result (λ error. kind_of error ≡ ErrorKind.OutOfMemory) }
{
    let positional = matches.get_strs("positional").unwrap_or(&[]);
    Ok(Parsed {
        positional: Vec::from_slice(alloc, positional)?,
        matches,
    })
}
