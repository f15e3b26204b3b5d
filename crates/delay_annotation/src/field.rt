// The fields of a row: their text without blanks, and the numbers that they spell.
ghost use Rattle.std.specs.Prelude.{◌≡◌, ◌≤◌, ℕ, MatchOption};
ghost use Rattle.delay_annotation.specs.Fields.{is_space_or_tab, trimmed, without_first_blanks, without_last_blanks, SpellsNumber};

/// The most digits of the number of a pin.
pub const MOST_PIN_DIGITS: usize = 4;

/// The most digits of a delay.
pub const MOST_NUMBER_DIGITS: usize = 7;

/// The most digits of a number that is read from a field.
pub const MOST_LONG_DIGITS: usize = 10;

/// What stands in a field between the blanks at both ends, which are spaces and tabs. Takes no memory.
pub fn trimmed(field: &[u8]) -> &[u8]
    ensures { result.now ≡ trimmed field.now }
{
    without_last_blanks(without_first_blanks(field))
}

fn without_first_blanks(text: &[u8]) -> &[u8]
    ensures { result.now ≡ without_first_blanks text.now }
{
    let mut start = 0;
    while start < text.len() && is_space_or_tab(text[start]) {
        start += 1;
    }
    &text[start..]
}

fn without_last_blanks(text: &[u8]) -> &[u8]
    ensures { result.now ≡ without_last_blanks text.now }
{
    let mut end = text.len();
    while end > 0 && is_space_or_tab(text[end - 1]) {
        end -= 1;
    }
    &text[..end]
}

fn is_space_or_tab(byte: u8) -> bool
    ensures { result ≡ is_space_or_tab byte }
{
    byte == b' ' || byte == b'\t'
}

/// The number that a text of one to `most` decimal digits spells, with zeros in front of others or without; none where it spells none.
/// Takes no memory.
pub fn number(text: &[u8], most: usize) -> Option<u32>
    requires { most ≤ MOST_NUMBER_DIGITS }
    ensures { MatchOption result ((number : ℕ) → ¬ SpellsNumber most text.now number) (SpellsNumber most text.now) }
{
    let number = long_number(text, most)?;
    Some(number as u32)
}

/// The same for more digits. Takes no memory.
pub fn long_number(text: &[u8], most: usize) -> Option<u64>
    requires { most ≤ MOST_LONG_DIGITS }
    ensures { MatchOption result ((number : ℕ) → ¬ SpellsNumber most text.now number) (SpellsNumber most text.now) }
{
    if text.is_empty() || text.len() > most {
        return None;
    }
    let mut number: u64 = 0;
    for byte in text {
        let Some(digit) = char::from(*byte).to_digit(10) else {
            return None;
        };
        number = number * 10 + u64::from(digit);
    }
    Some(number)
}
