// The graph: four lists that are checked by their maker's proof and never change.
ghost use Rattle.std.specs.Prelude.{◌≡◌, ◌<◌, ◌≤◌};
ghost use Rattle.path_laws.specs.Graph.{Graph, IsGraph, node_count, arc_count, first_arc, arc_end, delay_of, graph_of};

use std::marker::Model;

/// Nodes and arcs, both numbered from 0. The arcs of node v are those from `firsts[v]` up to, not including, `firsts[v + 1]`;
/// each leads to a node of a greater number, and has a delay. A walk may stop where `stops` is true.
#[derive(Drop)]
pub(crate) struct TimingGraph {
    firsts: Vec<u32>,
    ends: Vec<u32>,
    delays: Vec<u32>,
    stops: Vec<bool>,
}

impl Model for TimingGraph {
    ghost Value = { Graph };

    ghost view = { λ t. graph_of t.firsts.items t.ends.items t.delays.items t.stops.items };

    ghost invariant = { λ t. IsGraph (graph_of t.firsts.items t.ends.items t.delays.items t.stops.items) };
}

impl TimingGraph {
    /// The graph of these lists: by node its first arc, and behind the last node the number of arcs; by arc the node to which
    /// it leads; by arc its delay; by node whether a walk may stop there. Takes no memory.
    pub(crate) fn new(
        firsts: Vec<u32>,
        ends: Vec<u32>,
        delays: Vec<u32>,
        stops: Vec<bool>,
    ) -> TimingGraph
        requires { IsGraph (graph_of firsts.items ends.items delays.items stops.items) }
        ensures { result ≡ graph_of firsts.items ends.items delays.items stops.items }
    {
        TimingGraph {
            firsts,
            ends,
            delays,
            stops,
        }
    }

    // How many nodes there are.
    pub(crate) fn nodes(&self) -> u32
        ensures graph { IsGraph self.now }
        ensures count { result ≡ node_count self.now }
    {
        self.stops.len() as u32
    }

    // How many arcs there are.
    pub(crate) fn arcs(&self) -> u32
        ensures count { result ≡ arc_count self.now }
    {
        self.ends.len() as u32
    }

    // The first arc of a node, or for the number behind the last node the number of arcs.
    pub(crate) fn first(&self, node: u32) -> u32
        requires { node ≤ node_count self.now }
        ensures { result ≡ first_arc self.now node }
    {
        self.firsts[node as usize]
    }

    // The node to which an arc leads.
    pub(crate) fn end(&self, arc: u32) -> u32
        requires { arc < arc_count self.now }
        ensures { result ≡ arc_end self.now arc }
    {
        self.ends[arc as usize]
    }

    // The delay of an arc.
    pub(crate) fn delay(&self, arc: u32) -> u32
        requires { arc < arc_count self.now }
        ensures { result ≡ delay_of self.now arc }
    {
        self.delays[arc as usize]
    }

    // By node whether a walk may stop there.
    pub(crate) fn stops(&self) -> &[bool]
        ensures { result.now ≡ self.now.stops }
    {
        self.stops.as_slice()
    }
}
