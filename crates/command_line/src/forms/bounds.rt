// The words of `bounds`: the names of four files.
ghost use Rattle.std.specs.Prelude.{◌≡◌, ℕ, List, ◌∷◌, Ok, IfOk, IfErr, length, refl};
ghost use Rattle.command_line.specs.Commands.{bytes_of_words};
ghost use Rattle.command_line.specs.BoundsForm.{asked_bounds, bounds_call, bounds_call_of, bounds_form};
ghost use Rattle.command_line.specs.Taken.{IsFaultOf, texts_parsed};

use crate::form::{CommandForm, WordsForm};
use crate::parsing::Parsed;
use crate::reading::accepted_words;
use crate::taken::Taken;
use crate::{WordsFault, WordsRefusal};
use std::alloc::Global;

/// A call of `bounds`. All its files are to be read.
#[derive(Clone, Copy)]
pub struct BoundsCommand<'a> {
    /// The netlist.
    pub net: &'a str,
    /// The tests.
    pub tests: &'a str,
    /// The report, which lists the tests' paths.
    pub report: &'a str,
    /// The log of a tester.
    pub log: &'a str,
}

// The form of these words.
struct BoundsForm;

impl CommandForm for BoundsForm {
    ghost form = { bounds_form };

    fn words() -> WordsForm {
        WordsForm {
            options: &[],
            positional: 4,
            files: 4,
        }
    }

    fn before_names(_taken: &Taken) -> Option<WordsRefusal> {
        None
    }

    fn after_names(_taken: &Taken) -> Option<WordsRefusal> {
        None
    }

    ghost lawful = { record { named = refl; apart = refl } };
}

// What the words of `bounds` ask for, of which these stand behind its own.
pub(crate) fn read_bounds<'a>(
    alloc: Global,
    words: &'a [&'a str],
    later: &[&'a str],
) -> Result<BoundsCommand<'a>, WordsFault>
    requires { (command : List ℕ) × (bytes_of_words words.now ≡ command ∷ bytes_of_words later.now) }
    ensures asked { IfOk result (λ command. asked_bounds (bytes_of_words later.now) ≡ Ok (bounds_call_of command)) }
    ensures fault { IfErr result (IsFaultOf (asked_bounds (bytes_of_words later.now))) }
{
    let parsed = accepted_words::<BoundsForm>(alloc, words, later)?;
    Ok(bounds_command(&parsed))
}

// The call of `bounds` with these words.
fn bounds_command<'a>(parsed: &Parsed<'a>) -> BoundsCommand<'a>
    requires { length (texts_parsed parsed.now).positional ≡ 4 }
    ensures { bounds_call_of result ≡ bounds_call (texts_parsed parsed.now) }
{
    let names = parsed.positional.as_slice();
    BoundsCommand {
        net: names[0],
        tests: names[1],
        report: names[2],
        log: names[3],
    }
}
