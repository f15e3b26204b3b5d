// The words of `make`: the number of stages of a ladder.
ghost use Rattle.std.specs.Prelude.{◌≡◌, ℕ, List, ◌∷◌, Ok, IfOk, IfErr, length, refl};
ghost use Rattle.command_line.specs.Commands.{bytes_of_words};
ghost use Rattle.command_line.specs.MakeForm.{HasMakeNumbers, asked_make, make_call, make_call_of, make_form, stages_reason, stages_spelled};
ghost use Rattle.command_line.specs.Taken.{IsFaultOf, texts_parsed};

use crate::form::{CommandForm, WordsForm};
use crate::number::number;
use crate::parsing::Parsed;
use crate::reading::accepted_words;
use crate::taken::Taken;
use crate::{WordsFault, WordsRefusal};
use pd_base::MOST_STAGES;
use std::alloc::Global;

/// The most digits of the number of stages.
pub const MOST_STAGES_DIGITS: usize = 4;

/// A call of `make`.
#[derive(Clone, Copy)]
pub struct MakeCommand {
    /// How many stages the ladder is to have.
    pub stages: u32,
}

// The form of these words.
struct MakeForm;

impl CommandForm for MakeForm {
    ghost form = { make_form };

    fn words() -> WordsForm {
        WordsForm {
            options: &[],
            positional: 1,
            files: 0,
        }
    }

    fn before_names(taken: &Taken) -> Option<WordsRefusal> {
        stages_reason(taken.text_at(0))
    }

    fn after_names(_taken: &Taken) -> Option<WordsRefusal> {
        None
    }

    ghost lawful = { record { named = refl; apart = refl } };
}

// What the words of `make` ask for, of which these stand behind its own.
pub(crate) fn read_make<'a>(
    alloc: Global,
    words: &'a [&'a str],
    later: &[&'a str],
) -> Result<MakeCommand, WordsFault>
    requires { (command : List ℕ) × (bytes_of_words words.now ≡ command ∷ bytes_of_words later.now) }
    ensures asked { IfOk result (λ command. asked_make (bytes_of_words later.now) ≡ Ok (make_call_of command)) }
    ensures fault { IfErr result (IsFaultOf (asked_make (bytes_of_words later.now))) }
    ensures numbers { IfOk result (λ command. HasMakeNumbers (make_call_of command)) }
{
    let parsed = accepted_words::<MakeForm>(alloc, words, later)?;
    Ok(make_command(&parsed))
}

// The call of `make` with these words.
fn make_command(parsed: &Parsed) -> MakeCommand
    requires { length (texts_parsed parsed.now).positional ≡ 1 }
    ensures { make_call_of result ≡ make_call (texts_parsed parsed.now) }
{
    let words = parsed.positional.as_slice();
    MakeCommand {
        stages: stages_spelled(words[0]).unwrap_or(0),
    }
}

// The number of stages that a text spells.
fn stages_spelled(text: &str) -> Option<u32>
    ensures { result ≡ stages_spelled text.now }
{
    number(text, MOST_STAGES_DIGITS)
}

// Why a text is no number of stages, if it is none.
fn stages_reason(text: &str) -> Option<WordsRefusal>
    ensures { result ≡ stages_reason text.now }
{
    match stages_spelled(text) {
        Some(stages) if stages >= 1 && stages <= MOST_STAGES => None,
        _ => Some(WordsRefusal::Stages),
    }
}
