// Decimal numbers in their one spelling: no sign, and no zero before other digits.
ghost use Rattle.std.specs.Prelude.{◌≡◌, ◌≤◌, ◌<◌, ◌^◌, ◌↔◌, decimal, length, IsTrue, MatchOption};
ghost use Rattle.text_pieces.specs.Digits.{AreDigits, AreDigitsOf};
ghost use Rattle.text_pieces.specs.Reads.{Reads};

use itoa::Buffer;

// The most digits of a number of 32 bits.
const MOST_DIGITS: usize = 10;

/// Whether a word is the decimal text of this number.
pub fn is_number(word: &[u8], number: u32) -> bool
    ensures { IsTrue result ↔ (word.now ≡ decimal number) }
{
    let mut buffer = Buffer::new();
    word == buffer.format(number).as_bytes()
}

/// The number, up to the greatest one, whose decimal text a word is.
pub fn read_number(word: &[u8], greatest: u32) -> Option<u32>
    ensures { Reads decimal (λ number. number ≤ greatest) word.now result }
{
    let [first, ..] = word else {
        return None;
    };
    if word.len() > MOST_DIGITS {
        return None;
    }
    if *first == b'0' && word.len() > 1 {
        return None;
    }
    let Some(number) = value_of(word) else {
        return None;
    };
    if number > u64::from(greatest) {
        return None;
    }
    Some(number as u32)
}

// The number that digits spell.
fn value_of(word: &[u8]) -> Option<u64>
    requires { length word.now ≤ MOST_DIGITS }
    ensures { MatchOption result (¬ AreDigits word.now) (AreDigitsOf word.now) }
{
    let mut number: u64 = 0;
    for byte in word {
        let Some(digit) = char::from(*byte).to_digit(10) else {
            return None;
        };
        number = number * 10 + u64::from(digit);
    }
    Some(number)
}

/// The number of 64 bits whose decimal text a word is.
pub fn read_long(word: &[u8]) -> Option<u64>
    ensures { Reads decimal (λ number. number < 2 ^ 64) word.now result }
{
    let Ok(text) = str::from_utf8(word) else {
        return None;
    };
    let Ok(number) = text.parse::<u64>() else {
        return None;
    };
    let mut buffer = Buffer::new();
    if word == buffer.format(number).as_bytes() {
        Some(number)
    } else {
        None
    }
}
