// What stood at the places of a list before they were written, from the first write on. Undoing goes back from the last write to a mark,
// and gives each place what stood there. Marks are lengths, plain numbers: a mark past the end changes nothing, and a mark of another trail
// can't be told from one of this.
ghost use Rattle.std.specs.Prelude.{◌≡◌, ◌<◌, ◌-◌, List, [], ◌∷◌, ◌++◌, length, take, drop, slice_set, IfOk};
ghost use Rattle.undo_trail.specs.Undoing.{undone, AreNoted};

use pd_base::OutOfMemory;
use std::alloc::Global;
use std::marker::Model;

/// A write that can be undone: the place, and what stood there before.
#[derive(Clone, Copy)]
pub struct Note<T> {
    /// The place in the list.
    pub index: u32,
    /// What stood there before the write.
    pub old: T,
}

/// The notes of the writes to a list, from the first on, with room for so many. Contracts see the notes and the room.
#[derive(Drop)]
pub struct Trail<T> {
    notes: Vec<Note<T>>,
    room: usize,
}

impl<T> Model for Trail<T> {
    ghost use Rattle.std.specs.Prelude.{◌≤◌, vec_capacity};
    ghost use Rattle.undo_trail.specs.Noted.{Noted};

    ghost Value = { Noted T };

    ghost view = { λ t. record { notes = t.notes.items; room = t.room } };

    ghost invariant = { λ t. t.room ≤ vec_capacity t.notes };
}

impl<T: Copy> Trail<T> {
    /// No notes yet, and room for so many. It fails only where memory runs out.
    pub fn new(alloc: Global, room: usize) -> Result<Trail<T>, OutOfMemory>
        ensures { IfOk result (λ t. t ≡ record { notes = []; room = room }) }
    {
        let notes = Vec::with_capacity(alloc, room)?;
        Ok(Trail { notes, room })
    }

    /// How many writes are noted.
    pub fn len(&self) -> usize
        ensures { result ≡ length self.now.notes }
    {
        self.notes.len()
    }

    /// The mark to which `undo_to` undoes all writes that are noted from now on: the number of notes.
    pub fn mark(&self) -> usize
        ensures { result ≡ length self.now.notes }
    {
        self.notes.len()
    }

    /// The notes, from the first on.
    pub fn notes(&self) -> &[Note<T>]
        ensures { result.now ≡ self.now.notes }
    {
        self.notes.as_slice()
    }

    /// Notes what stands at a place that is about to be written. Takes no memory.
    pub fn note(&mut self, index: u32, old: T)
        requires { length self.old.notes < self.old.room }
        ensures { self.new ≡ record self.old { notes = self.old.notes ++ (record { index = index; old = old }) ∷ [] } }
    {
        self.notes.push_reserved(Note { index, old });
    }

    // Undoes the last write, if there is one.
    fn undo_last(&mut self, values: &mut [T])
        ensures notes { self.new ≡ record self.old { notes = take (length self.old.notes - 1) self.old.notes } }
        ensures values { values.new ≡ undone (drop (length self.old.notes - 1) self.old.notes) values.old }
    {
        let Some(note) = self.notes.pop() else {
            return;
        };
        put(values, note.index as usize, note.old);
    }

    /// Undoes the writes that were noted since there were so many notes, the last one first, and forgets their notes. Where no more
    /// are noted than that, nothing changes. Takes no memory.
    pub fn undo_to(&mut self, values: &mut [T], mark: usize)
        ensures notes { self.new ≡ record self.old { notes = take mark self.old.notes } }
        ensures values { values.new ≡ undone (drop mark self.old.notes) values.old }

        // whatever writes led from some values to these, each noted with what stood there: the values are those again
        ensures before { (before : List T) → AreNoted (drop mark self.old.notes) before values.old → values.new ≡ before }
    {
        while self.mark() > mark {
            self.undo_last(values);
        }
    }
}

// Writes a value at a place, if there is one.
fn put<T: Copy>(values: &mut [T], index: usize, value: T)
    ensures { values.new ≡ slice_set values.old index value }
{
    if index < values.len() {
        values[index] = value;
    }
}
