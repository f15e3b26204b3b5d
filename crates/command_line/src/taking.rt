// The words of a command, taken from the left.
ghost use Rattle.std.specs.Prelude.{◌≡◌, Ok, IfOk, IfErr};
ghost use Rattle.command_line.specs.Commands.{bytes_of_words};
ghost use Rattle.command_line.specs.Reading.{first_place, none_given, words_taken};
ghost use Rattle.command_line.specs.Taken.{IsFaultOf, form_seen, given_of};

use crate::WordsFault;
use crate::form::WordsForm;
use crate::taken::Taken;
use std::alloc::Global;

/// The place of the first word behind the command, which stands at 1.
const FIRST_PLACE: usize = 2;

// What the words behind a command's own give, or the first reason why they are refused.
pub(crate) fn taken_words<'a>(
    alloc: Global,
    form: WordsForm,
    words: &[&'a str],
) -> Result<Taken<'a>, WordsFault>
    ensures taken { IfOk result (λ taken. words_taken (form_seen form) first_place none_given (bytes_of_words words.now) ≡ Ok (given_of taken)) }
    ensures fault { IfErr result (IsFaultOf (words_taken (form_seen form) first_place none_given (bytes_of_words words.now))) }
{
    let mut taken = Taken::none(alloc);
    for (index, word) in words.iter().enumerate() {
        taken.take(form, FIRST_PLACE + index, *word)?;
    }
    match taken.missing(form) {
        Some(reason) => Err(WordsFault::Refused(reason)),
        None => Ok(taken),
    }
}
