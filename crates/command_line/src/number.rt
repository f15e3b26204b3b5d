// Numbers among words.
ghost use Rattle.std.specs.Prelude.{◌≡◌, ◌≢◌, ◌≤◌, ◌↔◌, true, length, slice_index_or};
ghost use Rattle.command_line.specs.Values.{is_within, number_spelled};

/// The most digits of an option's value.
pub const MOST_DIGITS: usize = 7;

// The number that one to so many decimal digits spell. Leading zeros are accepted.
pub(crate) fn number(text: &str, most_digits: usize) -> Option<u32>
    requires { most_digits ≤ 9 }
    ensures { result ≡ number_spelled most_digits text.now }
{
    if may_spell(text, most_digits) {
        text.parse::<u32>().ok()
    } else {
        None
    }
}

// The same, of more digits.
pub(crate) fn long_number(text: &str, most_digits: usize) -> Option<u64>
    requires { most_digits ≤ 19 }
    ensures { result ≡ number_spelled most_digits text.now }
{
    if may_spell(text, most_digits) {
        text.parse::<u64>().ok()
    } else {
        None
    }
}

// Whether a text spells a number in a range by at most so many digits.
pub(crate) fn is_within(text: &str, least: u32, greatest: u32, most_digits: usize) -> bool
    ensures { result ≡ is_within least greatest (number_spelled most_digits text.now) }
{
    if !may_spell(text, most_digits) {
        return false;
    }
    match text.parse::<u32>() {
        Ok(value) => value >= least && value <= greatest,
        Err(_) => false,
    }
}

// Whether a text may spell a number of at most so many digits: it is no longer, and no plus sign, which std would pass over, stands in front.
fn may_spell(text: &str, most_digits: usize) -> bool
    ensures { (result ≡ true) ↔ ((slice_index_or text.now 0 0 ≢ 43) × (length text.now ≤ most_digits)) }
{
    !text.starts_with('+') && text.len() <= most_digits
}
