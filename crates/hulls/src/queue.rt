// Turns in a queue, first in, first out, as two lists: the first is read from a place on, and written as long as it has room, and the
// second is written from then on. Where the first is done, they are exchanged.
ghost use Rattle.std.specs.Prelude.{◌≡◌, ◌≢◌, ◌<◌, ◌↔◌, [], ◌∷◌, ◌++◌, length, vec_capacity, IfOk, IsTrue};

use crate::Turn;
use pd_base::OutOfMemory;
use std::alloc::Global;
use std::marker::Model;
use std::mem;

// Turns in a queue, with room for so many. Contracts see the turns in their order, and the room.
#[derive(Drop)]
pub(crate) struct Queue {
    front: Vec<Turn>,
    at: usize,
    back: Vec<Turn>,
    room: usize,
}

impl Model for Queue {
    ghost use Rattle.std.specs.Prelude.{◌++◌, drop, vec_capacity};
    ghost use Rattle.hulls.specs.Queues.{Queued, IsQueue};

    ghost Value = { Queued };

    ghost view = { λ q. record { turns = drop q.at q.front.items ++ q.back.items; room = q.room } };

    ghost invariant = { λ q. IsQueue q.front.items q.back.items q.at (vec_capacity q.front) (vec_capacity q.back) q.room };
}

impl Queue {
    // No turns yet, and room for so many.
    pub(crate) fn new(alloc: Global, room: usize) -> Result<Queue, OutOfMemory>
        ensures { IfOk result (λ q. q ≡ record { turns = []; room = room }) }
    {
        let front = Vec::with_capacity(alloc, room)?;
        let back = Vec::with_capacity(alloc, room)?;
        Ok(Queue {
            front,
            at: 0,
            back,
            room,
        })
    }

    // Whether there is no turn.
    pub(crate) fn is_empty(&self) -> bool
        ensures { IsTrue result ↔ (self.now.turns ≡ []) }
    {
        self.at >= self.front.len() && self.back.is_empty()
    }

    // One turn more, behind the others. Takes no memory.
    pub(crate) fn push(&mut self, turn: Turn)
        requires { length self.old.turns < self.old.room }
        ensures { self.new ≡ record self.old { turns = self.old.turns ++ turn ∷ [] } }
    {
        // so most turns wait in the list that is read, and an exchange is rare
        if self.front.len() < self.room {
            self.front.push_reserved(turn);
        } else {
            self.back.push_reserved(turn);
        }
    }

    // Takes the first turn of some.
    pub(crate) fn take(&mut self) -> Turn
        requires { self.old.turns ≢ [] }
        ensures turns { self.old.turns ≡ result ∷ self.new.turns }
        ensures room { self.new.room ≡ self.old.room }
    {
        if self.at < self.front.len() {
            let turn = self.front[self.at];
            self.at += 1;
            return turn;
        }
        exchange(&mut self.front, &mut self.back);
        self.at = 1;
        self.front[0]
    }
}

// The second list takes the place of the first, which is done. A call, so that a loop over turns is small.
#[inline(never)]
fn exchange(front: &mut Vec<Turn>, back: &mut Vec<Turn>)
    ensures front { front.new.items ≡ back.old.items }
    ensures back { back.new.items ≡ [] }
    ensures front_room { vec_capacity front.new ≡ vec_capacity back.old }
    ensures back_room { vec_capacity back.new ≡ vec_capacity front.old }
{
    front.clear();
    mem::swap(front, back);
}
