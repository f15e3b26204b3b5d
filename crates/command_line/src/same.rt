// Equal names among the names of files.
ghost use Rattle.std.specs.Prelude.{◌≡◌};
ghost use Rattle.command_line.specs.Reading.{first_same, place_of};
ghost use Rattle.command_line.specs.Taken.{names_placed};

use crate::WordsRefusal;
use crate::taken::PlacedName;

// The first two equal names.
pub(crate) fn same_among(names: &[PlacedName]) -> Option<WordsRefusal>
    ensures { result ≡ first_same (names_placed names.now) }
{
    let mut rest = names;
    while let [name, later @ ..] = rest {
        if let Some(second) = place_of(name.text, later) {
            return Some(WordsRefusal::SameAt(name.place, second));
        }
        rest = later;
    }
    None
}

// The place of the first of these names that is this text.
fn place_of(text: &str, names: &[PlacedName]) -> Option<usize>
    ensures { result ≡ place_of text.now (names_placed names.now) }
{
    let mut rest = names;
    while let [name, later @ ..] = rest {
        if text == name.text {
            return Some(name.place);
        }
        rest = later;
    }
    None
}
