// The words behind a command's own, read by its form.
ghost use Rattle.std.specs.Prelude.{◌≡◌, ℕ, List, ◌∷◌, Ok, IfOk, IfErr, OnOk};
ghost use Rattle.command_line.specs.Commands.{bytes_of_words};
ghost use Rattle.command_line.specs.Reading.{AreAccepted, accepted_texts, together_reason};
ghost use Rattle.command_line.specs.Taken.{IsFaultOf, given_of, texts_parsed};

use crate::form::CommandForm;
use crate::parsing::{Parsed, parsed_words, refused_memory};
use crate::same::same_among;
use crate::taken::Taken;
use crate::taking::taken_words;
use crate::{WordsFault, WordsRefusal};
use std::alloc::Global;

// What the words of a command say, of which these stand behind its own, or the first reason why they are refused.
pub(crate) fn accepted_words<'a, F: CommandForm>(
    alloc: Global,
    words: &'a [&'a str],
    later: &[&'a str],
) -> Result<Parsed<'a>, WordsFault>
    requires { (command : List ℕ) × (bytes_of_words words.now ≡ command ∷ bytes_of_words later.now) }
    ensures parsed { IfOk result (λ parsed. accepted_texts F.form (bytes_of_words later.now) ≡ Ok (texts_parsed parsed)) }
    ensures fault { IfErr result (IsFaultOf (accepted_texts F.form (bytes_of_words later.now))) }
{
    judge_words::<F>(alloc, later)?;
    match parsed_words(alloc, F::words(), words) {
        Ok(parsed) => Ok(parsed),
        Err(error) => Err(WordsFault::NoMemory(refused_memory(error))),
    }
}

// Refuses the words behind a command's own that are no call of it.
fn judge_words<F: CommandForm>(alloc: Global, words: &[&str]) -> Result<(), WordsFault>
    ensures accepts { OnOk result (AreAccepted F.form (bytes_of_words words.now)) }
    ensures fault { IfErr result (IsFaultOf (accepted_texts F.form (bytes_of_words words.now))) }
{
    let taken = taken_words(alloc, F::words(), words)?;
    match together_reason::<F>(&taken) {
        Some(reason) => Err(WordsFault::Refused(reason)),
        None => Ok(()),
    }
}

// Why words that may stand where they do are refused together, if they are.
fn together_reason<F: CommandForm>(taken: &Taken) -> Option<WordsRefusal>
    ensures { result ≡ together_reason F.form (given_of taken.now) }
{
    if let Some(reason) = F::before_names(taken) {
        return Some(reason);
    }
    match same_among(taken.names.as_slice()) {
        None => F::after_names(taken),
        reason => reason,
    }
}
