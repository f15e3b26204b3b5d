// How a node gets its next walk. Its best one goes through the arc of the greatest key, or stops; the arc that its last walk
// took gets its next head only when the node is asked again, and the node behind that arc grows only then.
ghost use Rattle.std.specs.Prelude.{◌<◌, ℕ, IfOk, OnOk, MatchOption};
ghost use Rattle.path_laws.specs.Graph.{IsGraph, node_count};
ghost use Rattle.path_laws.specs.Walks.{HasShortWalks};
ghost use Rattle.path_laws.specs.Lists.{AllReady, HasAll, HasFirst, IsFreeRight, IsGoing, IsLinked, IsStarted};
ghost use Rattle.path_laws.specs.Growth.{HasGrown, HasHeads, IsFed, IsNextEntry, IsWaiting, TakesNext};

use crate::lists::NodeLists;
use crate::timing_graph::TimingGraph;
use path_laws::{NONE, WalkEntry};
use pd_base::OutOfMemory;

impl NodeLists {
    // Adds the next walk from a node to its list; says whether there was one.
    pub(crate) fn grow(&mut self, graph: &TimingGraph, node: u32) -> Result<bool, OutOfMemory>
        requires graph { IsGraph graph.now }
        requires short { HasShortWalks graph.now }
        requires node { node < node_count graph.now }
        requires going { IsGoing graph.now self.old 0 }
        ensures going { OnOk result (IsGoing graph.now self.new 0) }
        ensures grown { IfOk result (λ took. HasGrown graph.now self.old self.new node took) }
    {
        let Some(arc) = self.waiting_arc(graph, node) else {
            return self.take(graph, node);
        };
        self.grow(graph, graph.end(arc))?;
        self.take(graph, node)
    }

    // The arc that the last walk of a node took, where the walk by which it goes on has no next one so far.
    fn waiting_arc(&self, graph: &TimingGraph, node: u32) -> Option<u32>
        requires graph { IsGraph graph.now }
        requires node { node < node_count graph.now }
        requires going { IsGoing graph.now self.now 0 }
        ensures { MatchOption result (IsFed graph.now self.now node) (λ arc. IsWaiting graph.now self.now node arc) }
    {
        let last = self.last(node);
        if last == NONE {
            return None;
        }
        let entry = self.entry(last);
        if entry.arc == NONE || self.next(entry.tail) != NONE {
            return None;
        }
        Some(entry.arc)
    }

    // Adds the next walk from a node to its list, where all is known for it; says whether there was one.
    fn take(&mut self, graph: &TimingGraph, node: u32) -> Result<bool, OutOfMemory>
        requires graph { IsGraph graph.now }
        requires short { HasShortWalks graph.now }
        requires node { node < node_count graph.now }
        requires going { IsGoing graph.now self.old 0 }
        requires fed { IsFed graph.now self.old node }
        ensures { IfOk result (λ took. TakesNext graph.now self.old self.new node took) }
    {
        self.move_head(graph, node);
        self.take_ready(graph, node)
    }

    // Gives its next head to the arc that the last walk of a node took.
    fn move_head(&mut self, graph: &TimingGraph, node: u32)
        requires graph { IsGraph graph.now }
        requires short { HasShortWalks graph.now }
        requires node { node < node_count graph.now }
        requires going { IsGoing graph.now self.old 0 }
        requires fed { IsFed graph.now self.old node }
        ensures { HasHeads graph.now self.old self.new node }
    {
        let last = self.last(node);
        if last == NONE {
            return;
        }
        let entry = self.entry(last);
        if entry.arc == NONE {
            return;
        }
        let head = self.next(entry.tail);
        self.set_head(graph, entry.arc, head);
    }

    // Adds the next walk from a node to its list, where all of its arcs are ready; says whether there was one.
    pub(crate) fn take_ready(&mut self, graph: &TimingGraph, node: u32) -> Result<bool, OutOfMemory>
        requires graph { IsGraph graph.now }
        requires node { node < node_count graph.now }
        requires linked { IsLinked graph.now self.old }
        requires firsts { (other : ℕ) → other < node_count graph.now → HasFirst graph.now self.old.entries other }
        requires started { IsStarted graph.now self.old node }
        requires ready { AllReady graph.now self.old node }
        ensures { IfOk result (λ took. TakesNext graph.now self.old self.new node took) }
    {
        let Some(entry) = self.next_entry(graph, node) else {
            return Ok(false);
        };
        self.push(entry)?;
        Ok(true)
    }

    // The entry of the next walk from a node whose arcs are all ready; `None` where all are listed.
    fn next_entry(&self, graph: &TimingGraph, node: u32) -> Option<WalkEntry>
        requires graph { IsGraph graph.now }
        requires node { node < node_count graph.now }
        requires linked { IsLinked graph.now self.now }
        requires firsts { (other : ℕ) → other < node_count graph.now → HasFirst graph.now self.now.entries other }
        requires free { IsFreeRight graph.now self.now node }
        requires ready { AllReady graph.now self.now node }
        ensures { MatchOption result (HasAll graph.now self.now.entries node)
            (λ entry. IsNextEntry graph.now self.now node entry) }
    {
        let first = graph.first(node);
        let (key, place) = self.best(node, first, graph.first(node + 1));
        if key == 0 {
            return None;
        }
        if key == 1 && self.is_free(node) {
            return Some(WalkEntry {
                node,
                length: 0,
                arc: NONE,
                tail: NONE,
            });
        }
        let arc = first + place;
        Some(WalkEntry {
            node,
            length: key - 1,
            arc,
            tail: self.head(arc),
        })
    }
}
