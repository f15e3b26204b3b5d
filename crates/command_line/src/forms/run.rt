// The words of `gen` and of `check`: the names of five files, and as options how many paths, how many splits, and the mode, with a scan
// file where it needs one.
ghost use Rattle.std.specs.Prelude.{◌≡◌, ◌*◌, ℕ, List, ◌∷◌, Ok, IfOk, IfErr, length, option_map, refl};
ghost use Rattle.command_line.specs.Commands.{bytes_of_words};
ghost use Rattle.command_line.specs.RunForm.{HasRunNumbers, asked_run, number_of, product_reason, run_call, run_call_of, run_form, scan_reason};
ghost use Rattle.command_line.specs.Reading.{texts_given};
ghost use Rattle.command_line.specs.Taken.{IsFaultOf, given_of, texts_parsed};

use crate::form::{CommandForm, WordsForm};
use crate::mode::{is_skewed, mode_of};
use crate::number::{MOST_DIGITS, number};
use crate::parsing::Parsed;
use crate::reading::accepted_words;
use crate::taken::Taken;
use crate::{Mode, OptionName, WordsFault, WordsRefusal};
use std::alloc::Global;

/// The most that the number of paths times the budget may be.
pub const MOST_PRODUCT: u64 = 4_000_000;

/// What is asked for of a run: `gen` makes it and writes its three files, `check` judges the run that they spell.
#[derive(Clone, Copy)]
pub struct RunCommand<'a> {
    /// The netlist, to be read.
    pub net: &'a str,
    /// The delays, to be read.
    pub delays: &'a str,
    /// The tests of the run.
    pub tests: &'a str,
    /// The report on the run.
    pub report: &'a str,
    /// The proofs of the run.
    pub proofs: &'a str,
    /// How many paths are to be listed, where the netlist has as many.
    pub paths: u32,
    /// How many splits each search may make.
    pub budget: u32,
    /// The mode, whose pairs alone are looked for and excluded.
    pub mode: Mode<'a>,
}

// The form of these words.
struct RunForm;

impl CommandForm for RunForm {
    ghost form = { run_form };

    fn words() -> WordsForm {
        WordsForm {
            options: &[
                OptionName::Paths,
                OptionName::Budget,
                OptionName::Mode,
                OptionName::Scan,
            ],
            positional: 5,
            files: 5,
        }
    }

    fn before_names(taken: &Taken) -> Option<WordsRefusal> {
        let mode = taken.value_asked(OptionName::Mode);
        let scan = taken.value_asked(OptionName::Scan);
        scan_reason(is_skewed(mode), scan.is_some())
    }

    fn after_names(taken: &Taken) -> Option<WordsRefusal> {
        let paths = number_of(taken.value_asked(OptionName::Paths));
        let budget = number_of(taken.value_asked(OptionName::Budget));
        product_reason(paths, budget)
    }

    ghost lawful = { record { named = refl; apart = refl } };
}

// What the words of `gen` or `check` ask for, of which these stand behind its own.
pub(crate) fn read_run<'a>(
    alloc: Global,
    words: &'a [&'a str],
    later: &[&'a str],
) -> Result<RunCommand<'a>, WordsFault>
    requires { (command : List ℕ) × (bytes_of_words words.now ≡ command ∷ bytes_of_words later.now) }
    ensures asked { IfOk result (λ command. asked_run (bytes_of_words later.now) ≡ Ok (run_call_of command)) }
    ensures fault { IfErr result (IsFaultOf (asked_run (bytes_of_words later.now))) }
    ensures numbers { IfOk result (λ command. HasRunNumbers (run_call_of command)) }
{
    let parsed = accepted_words::<RunForm>(alloc, words, later)?;
    Ok(run_command(&parsed))
}

// What the words ask for of a run, each name in the place of its role.
fn run_command<'a>(parsed: &Parsed<'a>) -> RunCommand<'a>
    requires { length (texts_parsed parsed.now).positional ≡ 5 }
    ensures { run_call_of result ≡ run_call (texts_parsed parsed.now) }
{
    let names = parsed.positional.as_slice();
    RunCommand {
        net: names[0],
        delays: names[1],
        tests: names[2],
        report: names[3],
        proofs: names[4],
        paths: number_of(parsed.value_asked(OptionName::Paths)),
        budget: number_of(parsed.value_asked(OptionName::Budget)),
        mode: mode_of(
            parsed.value_asked(OptionName::Mode),
            parsed.value_asked(OptionName::Scan),
        ),
    }
}

// The number that the value of an option spells.
fn number_of(value: Option<&str>) -> u32
    ensures { result ≡ number_of (option_map (λ text. text.now) value.entry) }
{
    match value {
        Some(text) => number(text, MOST_DIGITS).unwrap_or(0),
        None => 0,
    }
}

// Why words are refused that name a skewed load, or name none, and that give a scan file, or give none, if they are.
fn scan_reason(is_skewed: bool, has_scan: bool) -> Option<WordsRefusal>
    ensures { result ≡ scan_reason is_skewed has_scan }
{
    match (is_skewed, has_scan) {
        (true, true) | (false, false) => None,
        _ => Some(WordsRefusal::Scan),
    }
}

// Why a call for so many paths and this budget is refused, if it is.
fn product_reason(paths: u32, budget: u32) -> Option<WordsRefusal>
    ensures { result ≡ product_reason (paths * budget) }
{
    let product = u64::from(paths) * u64::from(budget);
    if product <= MOST_PRODUCT {
        None
    } else {
        Some(WordsRefusal::Product(product))
    }
}
