// Writes to a list, undone by a trail; and trails with much room.
ghost use Rattle.std.specs.Prelude.{◌≡◌};
ghost use Rattle.search_answers.specs.declared.trails.TheConstants.{ROOM};

use pd_base::OutOfMemory;
use row_answers::{Text, Trouble, number_of};
use std::alloc::Global;
use undo_trail::Trail;

// The most writes of a row.
const ROOM: usize = 8;

/// Adds what a list has when its writes were undone down to a mark, and how many are still noted. The row: its values, the writes before
/// the mark, and those behind it, each a place, an equals sign and a value; bars between the three.
pub fn undone(alloc: Global, row: &str, answer: &mut Text) -> Result<(), Trouble> {
    let (values, writes) = row.split_once('|').ok_or(Trouble::NoRow)?;
    let (before, since) = writes.split_once('|').ok_or(Trouble::NoRow)?;
    let mut values = values_of(alloc, values)?;
    let left = undo(alloc, values.as_mut_slice(), before, since)?;
    add_line(values.as_slice(), left, answer);
    Ok(())
}

/// Asks memory for a trail of two to this power notes, at most 2^63.
pub fn ask_room(alloc: Global, power: u32) -> Result<(), OutOfMemory> {
    Trail::<u32>::new(alloc, 1 << power.min(usize::BITS - 1))?;
    Ok(())
}

// The values of a row.
fn values_of(alloc: Global, row: &str) -> Result<Vec<u32>, Trouble> {
    let mut values = Vec::new(alloc);
    for word in row.split(' ') {
        if !word.is_empty() {
            values.push(number_of(word)?)?;
        }
    }
    Ok(values)
}

// Makes the writes, and undoes the later ones. How many are still noted.
fn undo(alloc: Global, values: &mut [u32], before: &str, since: &str) -> Result<usize, Trouble> {
    let mut trail = Trail::<u32>::new(alloc, ROOM)?;
    write_all(&mut trail, values, before)?;
    let mark = trail.mark();
    write_all(&mut trail, values, since)?;
    trail.undo_to(values, mark);
    Ok(trail.len())
}

// Makes these writes.
fn write_all(trail: &mut Trail<u32>, values: &mut [u32], writes: &str) -> Result<(), Trouble>
    requires { trail.old.room ≡ ROOM }
    ensures { trail.new.room ≡ ROOM }
{
    for word in writes.split(' ') {
        if !word.is_empty() {
            write(trail, values, word)?;
        }
    }
    Ok(())
}

// Makes a write.
fn write(trail: &mut Trail<u32>, values: &mut [u32], word: &str) -> Result<(), Trouble>
    requires { trail.old.room ≡ ROOM }
    ensures { trail.new.room ≡ ROOM }
{
    let (place, value) = word.split_once('=').ok_or(Trouble::NoRow)?;
    let place = number_of(place)?;
    let value = number_of(value)?;
    if place as usize >= values.len() || trail.len() >= ROOM {
        return Err(Trouble::NoRow);
    }
    trail.note(place, values[place as usize]);
    values[place as usize] = value;
    Ok(())
}

// The values, and how many notes are left.
fn add_line(values: &[u32], left: usize, answer: &mut Text) {
    answer.add(" ");
    for value in values {
        answer.add_number(" ", *value as u64);
    }
    answer.add_number(", ", left as u64);
    answer.add(" noted\n");
}
