// Where each arc leads and what its delay is, and at which nodes a walk may stop. Delays and the lengths of walks are kept in 32 bits: no
// path of a circuit is longer than 4,096 times 1,000,000 (its levels times the greatest delay).
ghost use Rattle.std.specs.Prelude.{◌≡◌, ◌+◌, ◌++◌, All, IfOk, length, map, replicate, take};
ghost use Rattle.netlist.specs.Circuit.{gate_line, line_count, source_count};
ghost use Rattle.netlist.specs.Pins.{IsPin};
ghost use Rattle.delay_annotation.specs.Annotation.{delays_of, Fits};
ghost use Rattle.path_laws.specs.CircuitGraph.{node_of};
ghost use Rattle.path_lister.specs.Ranking.{AreNodesWithin};
ghost use Rattle.path_lister.specs.Stops.{AreStops};

use delay_annotation::Delays;
use netlist::Netlist;
use pd_base::{OutOfMemory, PinRef};
use std::alloc::Global;

// What is known of each arc, and of each node as the end of a walk.
#[derive(Drop)]
pub(crate) struct Arcs {
    pub(crate) ends: Vec<u32>,
    pub(crate) times: Vec<u32>,
    pub(crate) stops: Vec<bool>,
}

// The ends of the arcs, their delays, and the nodes at which a walk may stop.
pub(crate) fn arcs_of(
    alloc: Global,
    net: &Netlist,
    delays: &Delays,
    nodes: &[u32],
    pins: &[PinRef],
) -> Result<Arcs, OutOfMemory>
    requires fits { Fits net.now delays.now }
    requires nodes { AreNodesWithin net.now nodes.now }
    requires pins { All (IsPin net.now) pins.now }
    ensures ends { IfOk result (λ arcs. arcs.ends.items
        ≡ take (source_count net.now) nodes.now ++ map (λ pin. node_of nodes.now (gate_line net.now pin.gate.0)) pins.now) }
    ensures times { IfOk result (λ arcs. arcs.times.items
        ≡ replicate (source_count net.now) 0 ++ map (delays_of net.now delays.now) pins.now) }
    ensures stops { IfOk result (λ arcs. AreStops net.now nodes.now arcs.stops.items) }
{
    let ends = arc_ends(alloc, net, nodes, pins)?;
    let times = arc_delays(alloc, net, delays, pins)?;
    let stops = stops_of(alloc, net, nodes)?;
    Ok(Arcs { ends, times, stops })
}

// The node to which each arc leads: those of the sources, and then those of the lines of the pins' gates.
fn arc_ends(
    alloc: Global,
    net: &Netlist,
    nodes: &[u32],
    pins: &[PinRef],
) -> Result<Vec<u32>, OutOfMemory>
    requires nodes { length nodes.now ≡ line_count net.now }
    requires pins { All (IsPin net.now) pins.now }
    ensures { IfOk result (λ ends. ends.items
        ≡ take (source_count net.now) nodes.now ++ map (λ pin. node_of nodes.now (gate_line net.now pin.gate.0)) pins.now) }
{
    let sources = net.sources() as usize;
    let mut ends = Vec::with_capacity(alloc, sources + net.pin_total() as usize)?;
    ends.extend_from_slice(&nodes[..sources])?;
    for pin in pins {
        ends.push(nodes[net.line_of(pin.gate).0 as usize])?;
    }
    Ok(ends)
}

// The delay of each arc: none on the way to a source, and else that of the arc's pin.
fn arc_delays(
    alloc: Global,
    net: &Netlist,
    delays: &Delays,
    pins: &[PinRef],
) -> Result<Vec<u32>, OutOfMemory>
    requires fits { Fits net.now delays.now }
    requires pins { All (IsPin net.now) pins.now }
    ensures { IfOk result (λ times. times.items ≡ replicate (source_count net.now) 0 ++ map (delays_of net.now delays.now) pins.now) }
{
    let sources = net.sources() as usize;
    let mut times = vec![in alloc; 0u32; sources + pins.len()]?;
    write_delays(net, delays, pins, sources, times.as_mut_slice());
    Ok(times)
}

// Writes the delays of these pins from a place on, up to the end.
fn write_delays(net: &Netlist, delays: &Delays, pins: &[PinRef], begin: usize, times: &mut [u32])
    requires fits { Fits net.now delays.now }
    requires pins { All (IsPin net.now) pins.now }
    requires long { length times.old ≡ begin + length pins.now }
    ensures { times.new ≡ take begin times.old ++ map (delays_of net.now delays.now) pins.now }
{
    for (place, pin) in pins.iter().enumerate() {
        times[begin + place] = delays.delay(net, *pin);
    }
}

// Whether a walk may stop, by node: at those of the observed lines.
fn stops_of(alloc: Global, net: &Netlist, nodes: &[u32]) -> Result<Vec<bool>, OutOfMemory>
    requires { AreNodesWithin net.now nodes.now }
    ensures { IfOk result (λ stops. AreStops net.now nodes.now stops.items) }
{
    let mut stops = vec![in alloc; false; net.lines() as usize + 1]?;
    for line in net.observed() {
        stops[nodes[line.0 as usize] as usize] = true;
    }
    Ok(stops)
}
