// The first paths: those of the first walks of the circuit's graph, written out one after the other.
ghost use Rattle.std.specs.Prelude.{◌≡◌, ◌≤◌, All, IfOk, map};
ghost use Rattle.pd_base.specs.declared.limits.TheConstants.{MOST_PATHS};
ghost use Rattle.netlist.specs.Order.{AreFirst};
ghost use Rattle.delay_annotation.specs.Annotation.{delays_of, Fits};
ghost use Rattle.path_laws.specs.CircuitGraph.{GoesOnThroughPins, GoesThroughPin, arc_pin, route_of};

use crate::graph::graph_of;
use crate::listing::{Listing, first_walks};
use delay_annotation::Delays;
use netlist::Netlist;
use pd_base::{LineId, OutOfMemory, Path, PinRef};
use std::alloc::Global;

/// The first `count` paths of a netlist under these delays, or all of them where there are fewer: the longer path stands
/// before, of equally long ones that of the lesser source, and then that of the lesser steps, by gate and pin. No path is
/// listed twice. The one error is that memory ran out.
pub fn first_paths(
    alloc: Global,
    net: &Netlist,
    delays: &Delays,
    count: u32,
) -> Result<Vec<Path>, OutOfMemory>
    requires fits { Fits net.now delays.now }
    requires count { count ≤ MOST_PATHS }
    ensures { IfOk result (λ paths. AreFirst net.now (delays_of net.now delays.now) count paths.items) }
{
    let own = graph_of(alloc, net, delays)?;
    let listing = first_walks(alloc, &own.graph, count)?;
    paths_of(alloc, net, own.pins.as_slice(), &listing)
}

// The paths of these walks, in their order.
fn paths_of(
    alloc: Global,
    net: &Netlist,
    pins: &[PinRef],
    listing: &Listing,
) -> Result<Vec<Path>, OutOfMemory>
    requires { All (GoesOnThroughPins net.now pins.now) listing.now }
    ensures { IfOk result (λ paths. paths.items ≡ map (route_of net.now pins.now) listing.now) }
{
    let mut paths = Vec::with_capacity(alloc, listing.len())?;
    for place in 0..listing.len() {
        let walk = listing.walk(alloc, place)?;
        paths.push_reserved(path_of(alloc, net, pins, walk.as_slice())?);
    }
    Ok(paths)
}

// The path of a walk. A walk begins with the arc of a source, whose number that arc has.
fn path_of(alloc: Global, net: &Netlist, pins: &[PinRef], walk: &[u32]) -> Result<Path, OutOfMemory>
    requires { GoesOnThroughPins net.now pins.now walk.now }
    ensures { IfOk result (λ path. path ≡ route_of net.now pins.now walk.now) }
{
    match walk {
        [] => Path::new(alloc, LineId(0), &[]),
        [source, rest @ ..] => {
            let steps = steps_of(alloc, net, pins, rest)?;
            Path::new(alloc, LineId(*source), steps.as_slice())
        }
    }
}

// The pins that these arcs go through.
fn steps_of(
    alloc: Global,
    net: &Netlist,
    pins: &[PinRef],
    walk: &[u32],
) -> Result<Vec<PinRef>, OutOfMemory>
    requires { All (GoesThroughPin net.now pins.now) walk.now }
    ensures { IfOk result (λ steps. steps.items ≡ map (arc_pin net.now pins.now) walk.now) }
{
    let sources = net.sources();
    let mut steps = Vec::with_capacity(alloc, walk.len())?;
    for arc in walk {
        steps.push_reserved(pins[(*arc - sources) as usize]);
    }
    Ok(steps)
}
