// Lists that are filled one item after another, each in a room of its own that was measured before: so all items stand in one
// array from the beginning.
ghost use Rattle.std.specs.Prelude.{◌≡◌, ◌+◌, ◌<◌, ◌≤◌, [], ◌∷◌, ◌++◌, length, sum, slice_index, slice_index_or, slice_set, ℕ, IfOk};
ghost use Rattle.pd_base.specs.FlatLists.{items_between};
ghost use Rattle.net_builder.specs.Filling.{FillRooms, filled_lists};

use pd_base::{FlatLists, GateId, OutOfMemory, PinRef};
use std::alloc::Global;
use std::marker::Model;

// What stands in a room where no pin was put yet.
const NO_PIN: PinRef = PinRef {
    gate: GateId(0),
    pin: 0,
};

/// Lists of pins, each with room for so many. Contracts see the lists so far, and the rooms.
#[derive(Drop)]
pub(crate) struct Filling {
    items: Vec<PinRef>,
    // Where each list's items end so far.
    ends: Vec<u32>,
    // Where the room of each list ends, and that of the next one begins.
    limits: Vec<u32>,
}

impl Model for Filling {
    ghost use Rattle.net_builder.specs.Filling.{Filled};

    ghost Value = { Filled };

    ghost use Rattle.net_builder.specs.Filling.{AreRooms, filled_in};

    ghost view = { filled_in };

    ghost invariant = { AreRooms };
}

impl Filling {
    /// An empty list for each of these numbers, with room for so many.
    pub(crate) fn with_rooms(alloc: Global, rooms: &[u32]) -> Result<Filling, OutOfMemory>
        requires { sum rooms.now ≤ u32.MAX }
        ensures rooms { IfOk result (λ filling. filling.rooms ≡ rooms.now) }
        ensures count { IfOk result (λ filling. length filling.lists ≡ length rooms.now) }
        ensures empty { IfOk result (λ filling. (list : ℕ) → slice_index_or filling.lists list [] ≡ []) }
    {
        let mut ends = Vec::with_capacity(alloc, rooms.len())?;
        let mut limits = Vec::with_capacity(alloc, rooms.len())?;
        let mut total = 0;
        for room in rooms {
            ends.push_reserved(total);
            total += *room;
            limits.push_reserved(total);
        }
        let items = vec![in alloc; NO_PIN; total as usize]?;
        Ok(Filling {
            items,
            ends,
            limits,
        })
    }

    /// Puts an item last in a list that has room for it.
    pub(crate) fn push(&mut self, list: usize, item: PinRef)
        requires list { list < length self.old.lists }
        requires room { length (slice_index_or self.old.lists list []) < slice_index self.old.rooms list }
        ensures lists { self.new.lists ≡ slice_set self.old.lists list (slice_index_or self.old.lists list [] ++ item ∷ []) }
        ensures rooms { self.new.rooms ≡ self.old.rooms }
    {
        let end = self.ends[list];
        self.items[end as usize] = item;
        self.ends[list] = end + 1;
    }

    /// The lists alone, without the room that is left.
    pub(crate) fn lists(&self, alloc: Global) -> Result<FlatLists<PinRef>, OutOfMemory>
        ensures { IfOk result (λ lists. lists ≡ self.now.lists) }
    {
        packed(
            alloc,
            self.items.as_slice(),
            self.limits.as_slice(),
            self.ends.as_slice(),
        )
    }
}

// The lists whose rooms end at these limits, each up to its own end.
fn packed(
    alloc: Global,
    items: &[PinRef],
    limits: &[u32],
    ends: &[u32],
) -> Result<FlatLists<PinRef>, OutOfMemory>
    requires rooms { FillRooms 0 limits.now ends.now (length items.now) }
    requires few { length items.now ≤ u32.MAX }
    ensures { IfOk result (λ lists. lists ≡ filled_lists items.now 0 limits.now ends.now) }
{
    let mut lists = FlatLists::with_capacity(alloc, ends.len(), items.len())?;
    let mut begin = 0;
    for list in 0..ends.len() {
        lists.push(part(items, begin as usize, ends[list] as usize))?;
        begin = limits[list];
    }
    Ok(lists)
}

// The items from one place up to another one.
fn part(items: &[PinRef], first: usize, next: usize) -> &[PinRef]
    requires rises { first ≤ next }
    requires within { next ≤ length items.now }
    ensures { result.now ≡ items_between items.now first next }
{
    &items[first..next]
}
