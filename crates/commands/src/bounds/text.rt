// The text of `bounds`, line by line.
ghost use Rattle.std.specs.Prelude.{◌≡◌, ◌*◌, ◌++◌, length, IfOk, OnOk};
ghost use Rattle.text_pieces.specs.Tokens.{after_space};
ghost use Rattle.commands.specs.BoundsText.{bound_line, bound_word, lines_of_first};

use pd_base::{Direction, OutOfMemory, push_decimal};
use std::alloc::Global;
use text_pieces::{direction_word, push_spaced, push_spaced_number};

// The lines of so many paths, two for each, whose bounds these are.
pub(crate) fn bounds_text(
    alloc: Global,
    paths: usize,
    bounds: &[Option<u64>],
) -> Result<Vec<u8>, OutOfMemory>
    requires { length bounds.now ≡ 2 * paths }
    ensures { IfOk result (λ text. text.items ≡ lines_of_first bounds.now paths) }
{
    let mut text = Vec::new(alloc);
    for place in 0..paths {
        let number = place as u64 + 1;
        push_bound(&mut text, number, Direction::Rise, bounds[2 * place])?;
        push_bound(&mut text, number, Direction::Fall, bounds[2 * place + 1])?;
    }
    Ok(text)
}

// Appends the line of a fault of the path of this number.
fn push_bound(
    out: &mut Vec<u8>,
    number: u64,
    direction: Direction,
    bound: Option<u64>,
) -> Result<(), OutOfMemory>
    ensures { OnOk result (out.new.items ≡ out.old.items ++ bound_line number direction bound) }
{
    push_decimal(out, number)?;
    push_spaced(out, direction_word(direction))?;
    push_time(out, bound)?;
    out.push(b'\n')?;
    Ok(())
}

// Appends a space and the word for a bound.
fn push_time(out: &mut Vec<u8>, bound: Option<u64>) -> Result<(), OutOfMemory>
    ensures { OnOk result (out.new.items ≡ out.old.items ++ after_space (bound_word bound)) }
{
    match bound {
        Some(time) => push_spaced_number(out, time),
        None => push_spaced(out, b"-"),
    }
}
