// The words of `replay`: the names of three files, and a time.
ghost use Rattle.std.specs.Prelude.{◌≡◌, ℕ, List, ◌∷◌, Ok, IfOk, IfErr, length, refl};
ghost use Rattle.command_line.specs.Commands.{bytes_of_words};
ghost use Rattle.command_line.specs.ReplayForm.{HasReplayNumbers, asked_replay, replay_call, replay_call_of, replay_form};
ghost use Rattle.command_line.specs.Taken.{IsFaultOf, texts_parsed};

use crate::form::{CommandForm, WordsForm};
use crate::parsing::Parsed;
use crate::reading::accepted_words;
use crate::taken::Taken;
use crate::time::{time_reason, time_spelled};
use crate::{WordsFault, WordsRefusal};
use std::alloc::Global;

/// How many files `replay` reads. Their names stand before the time.
pub const REPLAY_FILES: usize = 3;

/// A call of `replay`. All its files are to be read.
#[derive(Clone, Copy)]
pub struct ReplayCommand<'a> {
    /// The netlist.
    pub net: &'a str,
    /// The delays.
    pub delays: &'a str,
    /// The tests.
    pub tests: &'a str,
    /// The time at which the observed lines are sampled, in the unit of the delays.
    pub time: u64,
}

// The form of these words.
struct ReplayForm;

impl CommandForm for ReplayForm {
    ghost form = { replay_form };

    fn words() -> WordsForm {
        WordsForm {
            options: &[],
            positional: 4,
            files: REPLAY_FILES,
        }
    }

    fn before_names(taken: &Taken) -> Option<WordsRefusal> {
        time_reason(taken.text_at(REPLAY_FILES))
    }

    fn after_names(_taken: &Taken) -> Option<WordsRefusal> {
        None
    }

    ghost lawful = { record { named = refl; apart = refl } };
}

// What the words of `replay` ask for, of which these stand behind its own.
pub(crate) fn read_replay<'a>(
    alloc: Global,
    words: &'a [&'a str],
    later: &[&'a str],
) -> Result<ReplayCommand<'a>, WordsFault>
    requires { (command : List ℕ) × (bytes_of_words words.now ≡ command ∷ bytes_of_words later.now) }
    ensures asked { IfOk result (λ command. asked_replay (bytes_of_words later.now) ≡ Ok (replay_call_of command)) }
    ensures fault { IfErr result (IsFaultOf (asked_replay (bytes_of_words later.now))) }
    ensures numbers { IfOk result (λ command. HasReplayNumbers (replay_call_of command)) }
{
    let parsed = accepted_words::<ReplayForm>(alloc, words, later)?;
    Ok(replay_command(&parsed))
}

// The call of `replay` with these words.
fn replay_command<'a>(parsed: &Parsed<'a>) -> ReplayCommand<'a>
    requires { length (texts_parsed parsed.now).positional ≡ 4 }
    ensures { replay_call_of result ≡ replay_call (texts_parsed parsed.now) }
{
    let words = parsed.positional.as_slice();
    ReplayCommand {
        net: words[0],
        delays: words[1],
        tests: words[2],
        time: time_spelled(words[REPLAY_FILES]).unwrap_or(0),
    }
}
