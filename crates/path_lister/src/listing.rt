// The first walks from node 0, as entries that share their ends; a walk is written out only when it is asked for.
ghost use Rattle.std.specs.Prelude.{◌≡◌, ◌<◌, ℕ, List, [], length, IfOk, OnOk, slice_index_or};
ghost use Rattle.path_laws.specs.Graph.{IsGraph};
ghost use Rattle.path_laws.specs.Walks.{HasShortWalks};
ghost use Rattle.path_laws.specs.Order.{AreFirstWalks};
ghost use Rattle.path_laws.specs.Entries.{AreTailsEarlier, walk_at};
ghost use Rattle.path_laws.specs.Lists.{IsGoing};
ghost use Rattle.path_laws.specs.Growth.{IsBegun};
ghost use Rattle.path_laws.specs.Listed.{AreFirstPlaces, HasNext};

use crate::lists::NodeLists;
use crate::timing_graph::TimingGraph;
use path_laws::{NONE, WalkEntry};
use pd_base::OutOfMemory;
use std::alloc::Global;
use std::marker::Model;

/// Walks in their order, the first at place 0. A walk is the list of its arcs.
#[derive(Drop)]
pub(crate) struct Listing {
    entries: Vec<WalkEntry>,
    places: Vec<u32>,
}

impl Model for Listing {
    ghost use Rattle.std.specs.Prelude.{◌<◌, ℕ, List, length, slice_index};
    ghost use Rattle.path_laws.specs.Entries.{AreTailsEarlier, walks_at};

    ghost Value = { List (List ℕ) };

    ghost view = { λ l. walks_at l.entries.items l.places.items };

    ghost invariant = { λ l. AreTailsEarlier l.entries.items
        × ((k : ℕ) → k < length l.places.items → slice_index l.places.items k < length l.entries.items) };
}

impl Listing {
    /// How many walks there are.
    pub(crate) fn len(&self) -> usize
        ensures { result ≡ length self.now }
    {
        self.places.len()
    }

    /// The arcs of the walk at this place, from its first one on. The one error is that memory ran out.
    pub(crate) fn walk(&self, alloc: Global, place: usize) -> Result<Vec<u32>, OutOfMemory>
        requires { place < length self.now }
        ensures { IfOk result (λ walk. walk.items ≡ slice_index_or self.now place []) }
    {
        walk_from(alloc, self.entries.as_slice(), self.places[place])
    }
}

/// The first `count` walks from node 0, longest first, and at equal lengths those of the lesser arcs first; all walks where
/// there are fewer. The one error is that memory ran out, or that 2^32 - 1 entries would not do. Takes memory for the
/// nodes and arcs and, for each walk listed, at most one entry more at each node that it passes; recursion goes no deeper than
/// the longest walk has arcs.
pub(crate) fn first_walks(
    alloc: Global,
    graph: &TimingGraph,
    count: u32,
) -> Result<Listing, OutOfMemory>
    requires { HasShortWalks graph.now }
    ensures { IfOk result (λ listing. AreFirstWalks graph.now 0 count listing) }
{
    let mut lists = NodeLists::start(alloc, graph)?;
    let places = first_places(alloc, graph, &mut lists, count)?;
    Ok(Listing {
        entries: lists.into_entries(),
        places,
    })
}

// The places of the first walks from node 0 among the entries of all nodes.
fn first_places(
    alloc: Global,
    graph: &TimingGraph,
    lists: &mut NodeLists,
    count: u32,
) -> Result<Vec<u32>, OutOfMemory>
    requires graph { IsGraph graph.now }
    requires short { HasShortWalks graph.now }
    requires begun { IsBegun graph.now lists.old 0 }
    ensures { IfOk result (λ places. AreFirstPlaces graph.now lists.new count places.items) }
{
    let mut places = Vec::new(alloc);
    let mut next = lists.last(0);
    for _listed in 0..count {
        if next == NONE {
            return Ok(places);
        }
        places.push(next)?;
        next = next_place(graph, lists)?;
    }
    Ok(places)
}

// The place of the next walk from node 0, or `NONE` where all are listed.
fn next_place(graph: &TimingGraph, lists: &mut NodeLists) -> Result<u32, OutOfMemory>
    requires graph { IsGraph graph.now }
    requires short { HasShortWalks graph.now }
    requires going { IsGoing graph.now lists.old 0 }
    ensures going { OnOk result (IsGoing graph.now lists.new 0) }
    ensures grown { IfOk result (λ next. HasNext graph.now lists.old lists.new next) }
{
    if lists.grow(graph, 0)? {
        Ok(lists.last(0))
    } else {
        Ok(NONE)
    }
}

// The walk of the entry at a place.
fn walk_from(alloc: Global, entries: &[WalkEntry], place: u32) -> Result<Vec<u32>, OutOfMemory>
    requires tails { AreTailsEarlier entries.now }
    requires place { place < length entries.now }
    ensures { IfOk result (λ walk. walk.items ≡ walk_at entries.now place) }
{
    let mut arcs = Vec::new(alloc);
    let mut at = place;
    let mut entry = entries[at as usize];
    while entry.arc != NONE {
        arcs.push(entry.arc)?;
        at = entry.tail;
        entry = entries[at as usize];
    }
    Ok(arcs)
}
