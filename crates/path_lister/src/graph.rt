// The graph of a circuit under a delay assignment. Node 0 leads to each source. The nodes behind it are the lines by level, so
// that each arc leads to a greater node, and the arcs of a line's node are the pins of its fan-out.
ghost use Rattle.std.specs.Prelude.{IfOk};
ghost use Rattle.netlist.specs.Lawful.{IsCircuit};
ghost use Rattle.delay_annotation.specs.Annotation.{delays_of, Fits};
ghost use Rattle.path_lister.specs.Graphs.{IsGraphUnder};
ghost use Rattle.path_lister.specs.Ranking.{IsRanking};

use crate::arcs::arcs_of;
use crate::ranking::{nodes_of, ranked_lines};
use crate::rows::rows_of;
use crate::timing_graph::TimingGraph;
use delay_annotation::Delays;
use netlist::Netlist;
use pd_base::{LineId, OutOfMemory, PinRef};
use std::alloc::Global;

// The graph, and for each arc behind those of the sources its pin.
#[derive(Drop)]
pub(crate) struct CircuitGraph {
    pub(crate) graph: TimingGraph,
    pub(crate) pins: Vec<PinRef>,
}

// Builds the graph, in as many steps as there are lines and pins. The one error is that memory ran out.
pub(crate) fn graph_of(
    alloc: Global,
    net: &Netlist,
    delays: &Delays,
) -> Result<CircuitGraph, OutOfMemory>
    requires { Fits net.now delays.now }
    ensures graph { IfOk result (λ own. IsGraphUnder net.now (delays_of net.now delays.now) own.pins.items own.graph) }
    ensures circuit { IsCircuit net.now }
{
    let lines = ranked_lines(alloc, net)?;
    graph_on(alloc, net, delays, lines.as_slice())
}

// Builds the graph on the nodes of the lines by level.
fn graph_on(
    alloc: Global,
    net: &Netlist,
    delays: &Delays,
    lines: &[LineId],
) -> Result<CircuitGraph, OutOfMemory>
    requires circuit { IsCircuit net.now }
    requires fits { Fits net.now delays.now }
    requires lines { IsRanking net.now lines.now }
    ensures { IfOk result (λ own. IsGraphUnder net.now (delays_of net.now delays.now) own.pins.items own.graph) }
{
    let nodes = nodes_of(alloc, net, lines)?;
    let rows = rows_of(alloc, net, lines)?;
    let arcs = arcs_of(alloc, net, delays, nodes.as_slice(), rows.pins.as_slice())?;
    Ok(CircuitGraph {
        graph: TimingGraph::new(rows.firsts, arcs.ends, arcs.times, arcs.stops),
        pins: rows.pins,
    })
}
