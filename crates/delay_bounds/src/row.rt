// From the three fields of a row of a log to what it says.
ghost use Rattle.std.specs.Prelude.{◌≡◌, ◌↔◌, ℕ, Bool, [], ◌∷◌, IsTrue, MatchOption, MatchResult};
ghost use Rattle.delay_annotation.specs.Fields.{SpellsNumber};
ghost use Rattle.delay_bounds.specs.LogRows.{AreTitles, IsLogRow, IsTestNumber, RefusesRow, result_word};

use crate::{LogFault, LogRow, MOST_TEST_DIGITS, MOST_TIME_DIGITS};
use delay_annotation::{long_number, number, trimmed};

// The words for what was seen of a test.
const PASS: &[u8] = b"pass";

const FAIL: &[u8] = b"fail";

// Whether three fields are the titles of a log: `test`, `time`, `result`.
pub(crate) fn are_titles(test: &[u8], time: &[u8], result_field: &[u8]) -> bool
    ensures { IsTrue result ↔ AreTitles (test.now ∷ time.now ∷ result_field.now ∷ []) }
{
    trimmed(test) == b"test".as_slice()
        && trimmed(time) == b"time".as_slice()
        && trimmed(result_field) == b"result".as_slice()
}

// Reads the row of this number, which has three fields. Refused exactly where it is no row of a log, by the first reason that applies.
pub(crate) fn read_row(
    tests: u32,
    row: u32,
    test: &[u8],
    time: &[u8],
    result_field: &[u8],
) -> Result<LogRow, LogFault>
    ensures { MatchResult result (IsLogRow tests (test.now ∷ time.now ∷ result_field.now ∷ []))
        (RefusesRow tests row (test.now ∷ time.now ∷ result_field.now ∷ [])) }
{
    let Some(test) = test_number(tests, trimmed(test)) else {
        return Err(LogFault::NoTest(row));
    };
    let Some(time) = long_number(trimmed(time), MOST_TIME_DIGITS) else {
        return Err(LogFault::BadTime(row));
    };
    let Some(pass) = passed(trimmed(result_field)) else {
        return Err(LogFault::BadResult(row));
    };
    Ok(LogRow { test, time, pass })
}

// The number of one of so many tests.
fn test_number(tests: u32, text: &[u8]) -> Option<u32>
    ensures { MatchOption result ((number : ℕ) → ¬ IsTestNumber tests text.now number) (IsTestNumber tests text.now) }
{
    let number = number(text, MOST_TEST_DIGITS)?;
    if 1 <= number && number <= tests {
        Some(number)
    } else {
        None
    }
}

// Whether a result is that of a test that passed, if it is one.
fn passed(text: &[u8]) -> Option<bool>
    ensures { MatchOption result ((pass : Bool) → ¬ (text.now ≡ result_word pass)) (λ pass. text.now ≡ result_word pass) }
{
    if text == PASS {
        return Some(true);
    }
    if text == FAIL {
        return Some(false);
    }
    None
}
