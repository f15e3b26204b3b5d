// Words of a fixed list.
ghost use Rattle.std.specs.Prelude.{⊤};
ghost use Rattle.text_pieces.specs.Tokens.{direction_word, kind_word};
ghost use Rattle.text_pieces.specs.Reads.{Reads};

use pd_base::{Direction, Kind};

/// The transition that a word names.
pub fn read_direction(word: &[u8]) -> Option<Direction>
    ensures { Reads direction_word (λ direction. ⊤) word.now result }
{
    if word == b"rise".as_slice() {
        Some(Direction::Rise)
    } else if word == b"fall".as_slice() {
        Some(Direction::Fall)
    } else {
        None
    }
}

/// The kind of conditions that a word names.
pub fn read_kind(word: &[u8]) -> Option<Kind>
    ensures { Reads kind_word (λ kind. ⊤) word.now result }
{
    if word == b"robust".as_slice() {
        Some(Kind::Robust)
    } else if word == b"nonrobust".as_slice() {
        Some(Kind::Nonrobust)
    } else {
        None
    }
}
