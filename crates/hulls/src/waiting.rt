// The gates and links that wait to be narrowed, first in, first out. Only those inside wait. A flag is up for each that is not to be added:
// for good where it is outside, and else while it waits. That nothing stands twice in the queue is true, and no proof needs it.
ghost use Rattle.std.specs.Prelude.{◌≡◌, ◌≢◌, ◌<◌, ◌↔◌, ◌∷◌, true, [], length, IfOk, IfSome, IsTrue, MatchOption};
ghost use Rattle.hulls.specs.Awaiting.{is_inside, AreOpposite, IsWoken};

use crate::Turn;
use crate::queue::Queue;
use pd_base::{GateId, OutOfMemory};
use std::alloc::Global;
use std::marker::Model;

/// The gates and links that wait, of those inside. Contracts see for each whether it is inside, and those that wait in their order.
#[derive(Drop)]
pub struct Waiting {
    inside: Vec<bool>,
    flags: Vec<bool>,
    queue: Queue,
}

impl Model for Waiting {
    ghost use Rattle.hulls.specs.Awaiting.{Awaited, IsFlagged};

    ghost Value = { Awaited };

    ghost view = { λ w. record { inside = w.inside.items; waiting = w.queue.turns } };

    ghost invariant = { λ w. IsFlagged w.inside.items w.flags.items w.queue.turns w.queue.room };
}

impl Waiting {
    /// Nothing waits yet; those gates and links are inside whose flag is true. It fails only where memory runs out.
    pub fn new(alloc: Global, inside: Vec<bool>) -> Result<Waiting, OutOfMemory>
        ensures { IfOk result (λ w. w ≡ record { inside = inside.items; waiting = [] }) }
    {
        let flags = opposite_flags(alloc, inside.as_slice())?;
        let queue = Queue::new(alloc, inside.len())?;
        Ok(Waiting {
            inside,
            flags,
            queue,
        })
    }

    /// Whether a gate is inside.
    pub fn is_inside(&self, gate: GateId) -> bool
        requires { gate.0 < length self.now.inside }
        ensures { result ≡ is_inside self.now.inside gate.0 }
    {
        self.inside[gate.0 as usize]
    }

    /// Lets a gate or link wait, if it is inside and does not wait yet. Takes no memory.
    pub fn add(&mut self, turn: Turn)
        requires { turn.0 < length self.old.inside }
        ensures { IsWoken turn self.old self.new }
    {
        let at = turn.0 as usize;
        if self.flags[at] {
            return;
        }
        self.flags[at] = true;
        self.queue.push(turn);
    }

    // Whether nothing waits.
    pub(crate) fn is_empty(&self) -> bool
        ensures { IsTrue result ↔ (self.now.waiting ≡ []) }
    {
        self.queue.is_empty()
    }

    // Takes the first gate or link of those that wait.
    pub(crate) fn take(&mut self) -> Turn
        requires { self.old.waiting ≢ [] }
        ensures waiting { self.old.waiting ≡ result ∷ self.new.waiting }
        ensures inside { self.new.inside ≡ self.old.inside }
        ensures is_inside { is_inside self.old.inside result.0 ≡ true }
    {
        let turn = self.queue.take();
        self.flags[turn.0 as usize] = false;
        turn
    }

    /// Takes the first gate or link, if one waits.
    pub fn pop(&mut self) -> Option<Turn>
        ensures cases { MatchOption result ((self.old.waiting ≡ []) × (self.new.waiting ≡ []))
            (λ turn. self.old.waiting ≡ turn ∷ self.new.waiting) }
        ensures inside { self.new.inside ≡ self.old.inside }
        ensures all_inside { IfSome result (λ turn. is_inside self.old.inside turn.0 ≡ true) }
    {
        if self.is_empty() {
            None
        } else {
            Some(self.take())
        }
    }

    /// For each gate and link whether it is inside. Takes no memory.
    pub(crate) fn into_inside(self) -> Vec<bool>
        ensures { result.items ≡ self.inside }
    {
        self.inside
    }

    /// Nothing waits any more.
    #[inline(always)]
    pub fn clear(&mut self)
        ensures waiting { self.new.waiting ≡ [] }
        ensures inside { self.new.inside ≡ self.old.inside }
    {
        while !self.is_empty() {
            let _ = self.take();
        }
    }
}

// For each of these flags one that is up where it is not.
fn opposite_flags(alloc: Global, inside: &[bool]) -> Result<Vec<bool>, OutOfMemory>
    ensures { IfOk result (λ flags. AreOpposite inside.now flags.items) }
{
    let mut flags = Vec::from_slice(alloc, inside)?;
    for at in 0..flags.len() {
        flags[at] = !flags[at];
    }
    Ok(flags)
}
