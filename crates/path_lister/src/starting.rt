// The first walk from each node, from the last node back: when a node's turn comes, the ends of its arcs have had theirs.
ghost use Rattle.std.specs.Prelude.{◌+◌, ◌<◌, IfOk, OnOk};
ghost use Rattle.path_laws.specs.Graph.{IsGraph, node_count};
ghost use Rattle.path_laws.specs.Walks.{HasShortWalks};
ghost use Rattle.path_laws.specs.Lists.{AllReady};
ghost use Rattle.path_laws.specs.Growth.{IsBegun};

use crate::lists::NodeLists;
use crate::timing_graph::TimingGraph;
use pd_base::OutOfMemory;
use std::alloc::Global;

impl NodeLists {
    // Each node has its first walk, where there is one.
    pub(crate) fn start(alloc: Global, graph: &TimingGraph) -> Result<NodeLists, OutOfMemory>
        requires { HasShortWalks graph.now }
        ensures graph { OnOk result (IsGraph graph.now) }
        ensures begun { IfOk result (λ lists. IsBegun graph.now lists 0) }
    {
        let mut lists = NodeLists::new(alloc, graph)?;
        for node in (0..graph.nodes()).rev() {
            lists.begin(graph, node)?;
        }
        Ok(lists)
    }

    // Gives a node its first walk, where all greater nodes have theirs.
    fn begin(&mut self, graph: &TimingGraph, node: u32) -> Result<(), OutOfMemory>
        requires graph { IsGraph graph.now }
        requires short { HasShortWalks graph.now }
        requires node { node < node_count graph.now }
        requires begun { IsBegun graph.now self.old (node + 1) }
        ensures { OnOk result (IsBegun graph.now self.new node) }
    {
        self.set_heads(graph, node);
        self.take_ready(graph, node)?;
        Ok(())
    }

    // Gives each arc of a node the first walk of its end as its head.
    fn set_heads(&mut self, graph: &TimingGraph, node: u32)
        requires graph { IsGraph graph.now }
        requires short { HasShortWalks graph.now }
        requires node { node < node_count graph.now }
        requires begun { IsBegun graph.now self.old (node + 1) }
        ensures begun { IsBegun graph.now self.new (node + 1) }
        ensures ready { AllReady graph.now self.new node }
    {
        for arc in graph.first(node)..graph.first(node + 1) {
            let head = self.last(graph.end(arc));
            self.set_head(graph, arc, head);
        }
    }
}
