// The words of `scan`: the names of three files.
ghost use Rattle.std.specs.Prelude.{◌≡◌, ℕ, List, ◌∷◌, Ok, IfOk, IfErr, length, refl};
ghost use Rattle.command_line.specs.Commands.{bytes_of_words};
ghost use Rattle.command_line.specs.ScanForm.{asked_scan, scan_call, scan_call_of, scan_form};
ghost use Rattle.command_line.specs.Taken.{IsFaultOf, texts_parsed};

use crate::form::{CommandForm, WordsForm};
use crate::parsing::Parsed;
use crate::reading::accepted_words;
use crate::taken::Taken;
use crate::{WordsFault, WordsRefusal};
use std::alloc::Global;

/// A call of `scan`. All its files are to be read.
#[derive(Clone, Copy)]
pub struct ScanCommand<'a> {
    /// The netlist.
    pub net: &'a str,
    /// The scan chains of its flip-flops.
    pub scan: &'a str,
    /// The tests.
    pub tests: &'a str,
}

// The form of these words.
struct ScanForm;

impl CommandForm for ScanForm {
    ghost form = { scan_form };

    fn words() -> WordsForm {
        WordsForm {
            options: &[],
            positional: 3,
            files: 3,
        }
    }

    fn before_names(_taken: &Taken) -> Option<WordsRefusal> {
        None
    }

    fn after_names(_taken: &Taken) -> Option<WordsRefusal> {
        None
    }

    ghost lawful = { record { named = refl; apart = refl } };
}

// What the words of `scan` ask for, of which these stand behind its own.
pub(crate) fn read_scan<'a>(
    alloc: Global,
    words: &'a [&'a str],
    later: &[&'a str],
) -> Result<ScanCommand<'a>, WordsFault>
    requires { (command : List ℕ) × (bytes_of_words words.now ≡ command ∷ bytes_of_words later.now) }
    ensures asked { IfOk result (λ command. asked_scan (bytes_of_words later.now) ≡ Ok (scan_call_of command)) }
    ensures fault { IfErr result (IsFaultOf (asked_scan (bytes_of_words later.now))) }
{
    let parsed = accepted_words::<ScanForm>(alloc, words, later)?;
    Ok(scan_command(&parsed))
}

// The call of `scan` with these words.
fn scan_command<'a>(parsed: &Parsed<'a>) -> ScanCommand<'a>
    requires { length (texts_parsed parsed.now).positional ≡ 3 }
    ensures { scan_call_of result ≡ scan_call (texts_parsed parsed.now) }
{
    let names = parsed.positional.as_slice();
    ScanCommand {
        net: names[0],
        scan: names[1],
        tests: names[2],
    }
}
