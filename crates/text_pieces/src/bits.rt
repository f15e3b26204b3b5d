// Vectors, one digit a bit.
ghost use Rattle.std.specs.Prelude.{◌≡◌, ⊤, length, option_map, IfOk};
ghost use Rattle.text_pieces.specs.Tokens.{digit, digits};
ghost use Rattle.text_pieces.specs.Cuts.{items_of};
ghost use Rattle.text_pieces.specs.Reads.{Reads};

use pd_base::OutOfMemory;
use std::alloc::Global;

/// The bits whose digits a word is, where there are so many. It fails only where memory runs out.
pub fn read_bits(alloc: Global, count: usize, word: &[u8]) -> Result<Option<Vec<bool>>, OutOfMemory>
    ensures { IfOk result (λ read. Reads digits (λ bits. length bits ≡ count) word.now (option_map items_of read)) }
{
    if word.len() != count {
        return Ok(None);
    }
    let mut bits = Vec::with_capacity(alloc, count)?;
    for byte in word {
        let Some(bit) = read_bit(*byte) else {
            return Ok(None);
        };
        bits.push(bit)?;
    }
    Ok(Some(bits))
}

// The bit of a digit.
fn read_bit(byte: u8) -> Option<bool>
    ensures { Reads digit (λ bit. ⊤) byte result }
{
    match byte {
        b'0' => Some(false),
        b'1' => Some(true),
        _ => None,
    }
}
