// The time at which a command samples.
ghost use Rattle.std.specs.Prelude.{◌≡◌};
ghost use Rattle.command_line.specs.Times.{time_reason, time_spelled};

use crate::WordsRefusal;
use crate::number::long_number;

/// The greatest time.
pub const MOST_TIME: u64 = 9_999_999_999;

/// The most digits of a time.
pub const MOST_TIME_DIGITS: usize = 10;

// The time that a text spells.
pub(crate) fn time_spelled(text: &str) -> Option<u64>
    ensures { result ≡ time_spelled text.now }
{
    long_number(text, MOST_TIME_DIGITS)
}

// Why a text is no time, if it is none.
pub(crate) fn time_reason(text: &str) -> Option<WordsRefusal>
    ensures { result ≡ time_reason text.now }
{
    match time_spelled(text) {
        Some(time) if time <= MOST_TIME => None,
        _ => Some(WordsRefusal::Time),
    }
}
