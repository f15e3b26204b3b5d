// The words of `compact`: the names of four files.
ghost use Rattle.std.specs.Prelude.{◌≡◌, ℕ, List, ◌∷◌, Ok, IfOk, IfErr, length, refl};
ghost use Rattle.command_line.specs.Commands.{bytes_of_words};
ghost use Rattle.command_line.specs.CompactForm.{asked_compact, compact_call, compact_call_of, compact_form};
ghost use Rattle.command_line.specs.Taken.{IsFaultOf, texts_parsed};

use crate::form::{CommandForm, WordsForm};
use crate::parsing::Parsed;
use crate::reading::accepted_words;
use crate::taken::Taken;
use crate::{WordsFault, WordsRefusal};
use std::alloc::Global;

/// A call of `compact`. The first three files are to be read.
#[derive(Clone, Copy)]
pub struct CompactCommand<'a> {
    /// The netlist.
    pub net: &'a str,
    /// The tests.
    pub tests: &'a str,
    /// The report, which lists the tests' paths.
    pub report: &'a str,
    /// The tests that are kept, to be written.
    pub out: &'a str,
}

// The form of these words.
struct CompactForm;

impl CommandForm for CompactForm {
    ghost form = { compact_form };

    fn words() -> WordsForm {
        WordsForm {
            options: &[],
            positional: 4,
            files: 4,
        }
    }

    fn before_names(_taken: &Taken) -> Option<WordsRefusal> {
        None
    }

    fn after_names(_taken: &Taken) -> Option<WordsRefusal> {
        None
    }

    ghost lawful = { record { named = refl; apart = refl } };
}

// What the words of `compact` ask for, of which these stand behind its own.
pub(crate) fn read_compact<'a>(
    alloc: Global,
    words: &'a [&'a str],
    later: &[&'a str],
) -> Result<CompactCommand<'a>, WordsFault>
    requires { (command : List ℕ) × (bytes_of_words words.now ≡ command ∷ bytes_of_words later.now) }
    ensures asked { IfOk result (λ command. asked_compact (bytes_of_words later.now) ≡ Ok (compact_call_of command)) }
    ensures fault { IfErr result (IsFaultOf (asked_compact (bytes_of_words later.now))) }
{
    let parsed = accepted_words::<CompactForm>(alloc, words, later)?;
    Ok(compact_command(&parsed))
}

// The call of `compact` with these words.
fn compact_command<'a>(parsed: &Parsed<'a>) -> CompactCommand<'a>
    requires { length (texts_parsed parsed.now).positional ≡ 4 }
    ensures { compact_call_of result ≡ compact_call (texts_parsed parsed.now) }
{
    let names = parsed.positional.as_slice();
    CompactCommand {
        net: names[0],
        tests: names[1],
        report: names[2],
        out: names[3],
    }
}
