// Pieces of lines: words, and texts and numbers with a space before them. If memory runs out, a part of a piece may have
// been written.
ghost use Rattle.std.specs.Prelude.{◌≡◌, ◌+◌, ◌++◌, decimal, length, take, OnOk};
ghost use Rattle.text_pieces.specs.Tokens.{after_space, digits, direction_word, kind_word};

use pd_base::{Direction, Kind, OutOfMemory, push_decimal};

/// The word of a transition.
pub fn direction_word(dir: Direction) -> &'static [u8]
    ensures { result.now ≡ direction_word dir }
{
    match dir {
        Direction::Rise => b"rise",
        Direction::Fall => b"fall",
    }
}

/// The word of the conditions that a test meets.
pub fn kind_word(kind: Kind) -> &'static [u8]
    ensures { result.now ≡ kind_word kind }
{
    match kind {
        Kind::Robust => b"robust",
        Kind::Nonrobust => b"nonrobust",
    }
}

/// Appends a space and a text.
pub fn push_spaced(out: &mut Vec<u8>, text: &[u8]) -> Result<(), OutOfMemory>
    ensures { OnOk result (out.new.items ≡ out.old.items ++ after_space text.now) }
{
    out.push(b' ')?;
    out.extend_from_slice(text)?;
    Ok(())
}

/// Appends a space and a number.
pub fn push_spaced_number(out: &mut Vec<u8>, n: u64) -> Result<(), OutOfMemory>
    ensures { OnOk result (out.new.items ≡ out.old.items ++ after_space (decimal n)) }
{
    out.push(b' ')?;
    push_decimal(out, n)
}

/// Appends a space and a digit for each bit.
pub fn push_spaced_digits(out: &mut Vec<u8>, bits: &[bool]) -> Result<(), OutOfMemory>
    ensures { OnOk result (out.new.items ≡ out.old.items ++ after_space (digits bits.now)) }
{
    out.push(b' ')?;
    let begin = out.len();
    out.resize(begin + bits.len(), b'0')?;
    write_digits(bits, begin, out.as_mut_slice());
    Ok(())
}

// Writes the digits of these bits from a place on, up to the end. The loop writes bytes and does nothing else, so that it can go over many
// at a time.
fn write_digits(bits: &[bool], begin: usize, text: &mut [u8])
    requires { length text.old ≡ begin + length bits.now }
    ensures { text.new ≡ take begin text.old ++ digits bits.now }
{
    for (place, bit) in bits.iter().enumerate() {
        text[begin + place] = if *bit { b'1' } else { b'0' };
    }
}
