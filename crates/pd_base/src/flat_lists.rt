// Many short lists in one long one, as compressed sparse rows are kept: a walk over all of them reads memory in order, and each
// list's items have places among those of all lists.
ghost use Rattle.std.specs.Prelude.{◌≡◌, ◌+◌, ◌<◌, ◌≤◌, [], ◌∷◌, ◌++◌, length, sum_by, take, slice_index_or, IfOk, OnOk, OnErr};
ghost use Rattle.pd_base.specs.FlatLists.{items_between};

use crate::OutOfMemory;
use std::alloc::Global;
use std::marker::Model;

/// A list of lists whose items stand one after another. Contracts see the list of the lists.
#[derive(Drop)]
pub struct FlatLists<T> {
    items: Vec<T>,
    // Where each list begins, and where the last one ends.
    bounds: Vec<u32>,
}

impl<T> Model for FlatLists<T> {
    ghost use Rattle.std.specs.Prelude.{List};
    ghost use Rattle.pd_base.specs.FlatLists.{lists_within, AreBounds};

    ghost Value = { List (List T) };

    ghost view = { λ l. lists_within l.items.items l.bounds.items };

    ghost invariant = { λ l. AreBounds l.items.items l.bounds.items };
}

impl<T> FlatLists<T> {
    /// No lists yet. Room is asked for so many lists and for so many items of all of them. It fails only where memory runs out.
    pub fn with_capacity(
        alloc: Global,
        lists: usize,
        items: usize,
    ) -> Result<FlatLists<T>, OutOfMemory>
        ensures { IfOk result (λ made. made ≡ []) }
    {
        let mut bounds = Vec::with_capacity(alloc, lists.saturating_add(1))?;
        bounds.push_reserved(0);
        Ok(FlatLists {
            items: Vec::with_capacity(alloc, items)?,
            bounds,
        })
    }

    /// The number of lists.
    pub fn len(&self) -> usize
        ensures { result ≡ length self.now }
    {
        self.bounds.len() - 1
    }

    /// The number of items of all lists.
    pub fn item_count(&self) -> usize
        ensures { result ≡ sum_by length self.now }
    {
        self.items.len()
    }

    /// One of the lists.
    pub fn list(&self, at: usize) -> &[T]
        requires { at < length self.now }
        ensures { result.now ≡ slice_index_or self.now at [] }
    {
        let first = self.bounds[at];
        let next = self.bounds[at + 1];
        part(self.items.as_slice(), first as usize, next as usize)
    }

    /// The place of the first item of a list among the items of all lists: how many items the lists before it have.
    pub fn first_place(&self, at: usize) -> usize
        requires { at < length self.now }
        ensures { result ≡ sum_by length (take at self.now) }
    {
        self.bounds[at] as usize
    }
}

impl<T: Copy> FlatLists<T> {
    /// Puts a list last. All items together have to be fewer than 2^32. Where memory runs out, the lists stay as they are.
    pub fn push(&mut self, list: &[T]) -> Result<(), OutOfMemory>
        requires { sum_by length self.old + length list.now ≤ u32.MAX }
        ensures ok { OnOk result (self.new ≡ self.old ++ list.now ∷ []) }
        ensures err { OnErr result (self.new ≡ self.old) }
    {
        self.bounds.reserve(1)?;
        self.items.extend_from_slice(list)?;
        self.bounds.push_reserved(self.items.len() as u32);
        Ok(())
    }
}

// The items from one place up to another one.
fn part<T>(items: &[T], first: usize, next: usize) -> &[T]
    requires rises { first ≤ next }
    requires within { next ≤ length items.now }
    ensures { result.now ≡ items_between items.now first next }
{
    &items[first..next]
}
