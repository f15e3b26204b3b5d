// The lists of walks of all nodes as they are kept: what each write does to them. Which writes are made when is in growth.
ghost use Rattle.std.specs.Prelude.{◌≡◌, ◌≤◌, ◌<◌, ◌+◌, ◌-◌, ◌^◌, ◌⊎◌, ℕ, length, Contains, OnOk, IfOk, slice_index, slice_range, if◌then◌else◌};
ghost use Rattle.path_laws.specs.Graph.{arc_count};
ghost use Rattle.path_laws.specs.Lists.{Lists, IsGreatest, empty_lists, head_of, is_free, key_at, last_place, with_entry, with_head};
ghost use Rattle.path_laws.specs.Entries.{entry_at};

use crate::timing_graph::TimingGraph;
use path_laws::{NONE, WalkEntry};
use pd_base::OutOfMemory;
use std::alloc::Global;
use std::marker::Model;

// The entries of all nodes, and what the next walk of a node is chosen by. The keys of a node's arcs stand side by side, since
// to go over them is most of the work.
#[derive(Drop)]
pub(crate) struct NodeLists {
    entries: Vec<WalkEntry>,
    nexts: Vec<u32>,
    lasts: Vec<u32>,
    heads: Vec<u32>,
    keys: Vec<u32>,
    free: Vec<bool>,
}

impl Model for NodeLists {
    ghost Value = { Lists };

    ghost view = { λ s. record {
      entries = s.entries.items;
      nexts = s.nexts.items;
      lasts = s.lasts.items;
      heads = s.heads.items;
      keys = s.keys.items;
      free = s.free.items;
    } };
}

impl NodeLists {
    // No node has a walk, and no arc a head.
    pub(crate) fn new(alloc: Global, graph: &TimingGraph) -> Result<NodeLists, OutOfMemory>
        ensures { IfOk result (λ lists. lists ≡ empty_lists graph.now) }
    {
        Ok(NodeLists {
            entries: Vec::new(alloc),
            nexts: Vec::new(alloc),
            lasts: vec![in alloc; NONE; graph.nodes() as usize]?,
            heads: vec![in alloc; NONE; graph.arcs() as usize]?,
            keys: vec![in alloc; 0; graph.arcs() as usize]?,
            free: Vec::from_slice(alloc, graph.stops())?,
        })
    }

    // The entry at a place.
    pub(crate) fn entry(&self, place: u32) -> WalkEntry
        requires { place < length self.now.entries }
        ensures { result ≡ entry_at self.now.entries place }
    {
        self.entries[place as usize]
    }

    // The place of the next entry of the same node.
    pub(crate) fn next(&self, place: u32) -> u32
        requires { place < length self.now.nexts }
        ensures { result ≡ slice_index self.now.nexts place }
    {
        self.nexts[place as usize]
    }

    // The place of the last entry of a node.
    pub(crate) fn last(&self, node: u32) -> u32
        requires { node < length self.now.lasts }
        ensures { result ≡ last_place self.now node }
    {
        self.lasts[node as usize]
    }

    // The place of the head of an arc.
    pub(crate) fn head(&self, arc: u32) -> u32
        requires { arc < length self.now.heads }
        ensures { result ≡ head_of self.now arc }
    {
        self.heads[arc as usize]
    }

    // Whether a node may still stop.
    pub(crate) fn is_free(&self, node: u32) -> bool
        requires { node < length self.now.free }
        ensures { result ≡ is_free self.now node }
    {
        self.free[node as usize]
    }

    // Gives an arc its head, or none.
    pub(crate) fn set_head(&mut self, graph: &TimingGraph, arc: u32, head: u32)
        requires arc { arc < arc_count graph.now }
        requires heads { length self.old.heads ≡ arc_count graph.now }
        requires keys { length self.old.keys ≡ arc_count graph.now }
        requires head { (head ≡ NONE) ⊎ (head < length self.old.entries) }
        requires fits { key_at graph.now self.old.entries arc head < 2 ^ 32 }
        ensures { self.new ≡ with_head graph.now self.old arc head }
    {
        self.heads[arc as usize] = head;
        self.keys[arc as usize] = if head == NONE {
            0
        } else {
            graph.delay(arc) + self.entries[head as usize].length + 1
        };
    }

    // Adds an entry behind all others. It is refused also where no number for it is left.
    pub(crate) fn push(&mut self, entry: WalkEntry) -> Result<(), OutOfMemory>
        requires node { entry.node < length self.old.lasts }
        requires free { entry.node < length self.old.free }
        requires nexts { length self.old.nexts ≡ length self.old.entries }
        requires last { (last_place self.old entry.node ≡ NONE) ⊎ (last_place self.old entry.node < length self.old.entries) }
        ensures new { OnOk result (self.new ≡ with_entry self.old entry) }
        ensures few { OnOk result (length self.old.entries < NONE) }
    {
        let place = self.entries.len();
        if place >= NONE as usize {
            return Err(OutOfMemory::of_size(place + 1, 1));
        }
        let last = self.lasts[entry.node as usize];
        if last != NONE {
            self.nexts[last as usize] = place as u32;
        }
        if entry.arc == NONE {
            self.free[entry.node as usize] = false;
        }
        self.lasts[entry.node as usize] = place as u32;
        self.entries.push(entry)?;
        self.nexts.push(NONE)?;
        Ok(())
    }

    // The greatest of the keys of the arcs from `first` up to `end`, and how many arcs stand before it; 1 where the node is
    // free and no key is greater, else 0.
    pub(crate) fn best(&self, node: u32, first: u32, end: u32) -> (u32, u32)
        requires node { node < length self.now.free }
        requires first { first ≤ end }
        requires end { end ≤ length self.now.keys }
        ensures { IsGreatest (slice_range self.now.keys first end) (end - first) (if is_free self.now node then 1 else 0)
            result.0 result.1 }
    {
        let floor = if self.free[node as usize] { 1 } else { 0 };
        greatest(&self.keys[first as usize..end as usize], floor)
    }

    // The entries alone.
    pub(crate) fn into_entries(self) -> Vec<WalkEntry>
        ensures { result.items ≡ self.entries }
    {
        let NodeLists { entries, .. } = self;
        entries
    }
}

// The first of the greatest of these numbers and its place, where it is above the floor; else the floor. Two short loops,
// since the first one runs over many numbers at once.
fn greatest(keys: &[u32], floor: u32) -> (u32, u32)
    requires { length keys.now < 2 ^ 32 }
    ensures { IsGreatest keys.now (length keys.now) floor result.0 result.1 }
{
    let key = greatest_key(keys, floor);
    if key == floor {
        return (key, 0);
    }
    for (place, other) in keys.iter().enumerate() {
        if *other == key {
            return (key, place as u32);
        }
    }
    (key, 0)
}

// The greatest of these numbers and the floor.
fn greatest_key(keys: &[u32], floor: u32) -> u32
    ensures least { floor ≤ result }
    ensures most { (k : ℕ) → k < length keys.now → slice_index keys.now k ≤ result }
    ensures among { (result ≡ floor) ⊎ Contains keys.now result }
{
    let mut key = floor;
    for other in keys {
        key = key.max(*other);
    }
    key
}
