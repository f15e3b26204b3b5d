// The words of `rfreplay`: the names of four files, and a time.
ghost use Rattle.std.specs.Prelude.{◌≡◌, ℕ, List, ◌∷◌, Ok, IfOk, IfErr, length, refl};
ghost use Rattle.command_line.specs.Commands.{bytes_of_words};
ghost use Rattle.command_line.specs.RiseFallReplayForm.{HasRiseFallReplayNumbers, asked_rise_fall_replay, rise_fall_replay_call, rise_fall_replay_call_of, rise_fall_replay_form};
ghost use Rattle.command_line.specs.Taken.{IsFaultOf, texts_parsed};

use crate::form::{CommandForm, WordsForm};
use crate::parsing::Parsed;
use crate::reading::accepted_words;
use crate::taken::Taken;
use crate::time::{time_reason, time_spelled};
use crate::{WordsFault, WordsRefusal};
use std::alloc::Global;

/// How many files `rfreplay` reads. Their names stand before the time.
pub const RISE_FALL_REPLAY_FILES: usize = 4;

/// A call of `rfreplay`. All its files are to be read.
#[derive(Clone, Copy)]
pub struct RiseFallReplayCommand<'a> {
    /// The netlist.
    pub net: &'a str,
    /// The delays, two for each pin.
    pub delays: &'a str,
    /// The tests.
    pub tests: &'a str,
    /// The report, which lists the tests' paths.
    pub report: &'a str,
    /// The time at which the observed lines are sampled, in the unit of the delays.
    pub time: u64,
}

// The form of these words.
struct RiseFallReplayForm;

impl CommandForm for RiseFallReplayForm {
    ghost form = { rise_fall_replay_form };

    fn words() -> WordsForm {
        WordsForm {
            options: &[],
            positional: 5,
            files: RISE_FALL_REPLAY_FILES,
        }
    }

    fn before_names(taken: &Taken) -> Option<WordsRefusal> {
        time_reason(taken.text_at(RISE_FALL_REPLAY_FILES))
    }

    fn after_names(_taken: &Taken) -> Option<WordsRefusal> {
        None
    }

    ghost lawful = { record { named = refl; apart = refl } };
}

// What the words of `rfreplay` ask for, of which these stand behind its own.
pub(crate) fn read_rise_fall_replay<'a>(
    alloc: Global,
    words: &'a [&'a str],
    later: &[&'a str],
) -> Result<RiseFallReplayCommand<'a>, WordsFault>
    requires { (command : List ℕ) × (bytes_of_words words.now ≡ command ∷ bytes_of_words later.now) }
    ensures asked { IfOk result (λ command. asked_rise_fall_replay (bytes_of_words later.now) ≡ Ok (rise_fall_replay_call_of command)) }
    ensures fault { IfErr result (IsFaultOf (asked_rise_fall_replay (bytes_of_words later.now))) }
    ensures numbers { IfOk result (λ command. HasRiseFallReplayNumbers (rise_fall_replay_call_of command)) }
{
    let parsed = accepted_words::<RiseFallReplayForm>(alloc, words, later)?;
    Ok(rise_fall_replay_command(&parsed))
}

// The call of `rfreplay` with these words.
fn rise_fall_replay_command<'a>(parsed: &Parsed<'a>) -> RiseFallReplayCommand<'a>
    requires { length (texts_parsed parsed.now).positional ≡ 5 }
    ensures { rise_fall_replay_call_of result ≡ rise_fall_replay_call (texts_parsed parsed.now) }
{
    let words = parsed.positional.as_slice();
    RiseFallReplayCommand {
        net: words[0],
        delays: words[1],
        tests: words[2],
        report: words[3],
        time: time_spelled(words[RISE_FALL_REPLAY_FILES]).unwrap_or(0),
    }
}
