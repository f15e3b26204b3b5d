// Delays and paths of rows.
ghost use Rattle.std.specs.Prelude.{◌<◌, All, IfOk, IfSome};
ghost use Rattle.delay_annotation.specs.Annotation.{Fits};
ghost use Rattle.netlist.specs.Circuit.{gate_count};
ghost use Rattle.netlist.specs.Pins.{IsPin};
ghost use Rattle.netlist.specs.Paths.{IsPath};

use crate::texts::number_of;
use crate::trouble::Trouble;
use delay_annotation::{DelayFault, Delays, read_delays};
use netlist::Netlist;
use path_model::is_path;
use pd_base::{GateId, Path, PinRef};
use std::alloc::Global;

// The most bytes of a delay file that a row may have.
const MOST_BYTES: usize = 65_536;

/// The delays of a delay file, or why it is refused; one unit each where there is no file.
pub fn delays(
    alloc: Global,
    net: &Netlist,
    file: Option<&str>,
) -> Result<Result<Delays, DelayFault>, Trouble>
    ensures { IfOk result (λ read. IfOk read (λ delays. Fits net.now delays)) }
{
    match file {
        None => Ok(Ok(Delays::unit(alloc, net)?)),
        Some(file) if file.len() > MOST_BYTES => Err(Trouble::NoRow),
        Some(file) => Ok(read_delays(alloc, net, file.as_bytes())),
    }
}

/// The delays of a delay file that is not refused.
pub fn accepted_delays(alloc: Global, net: &Netlist, file: Option<&str>) -> Result<Delays, Trouble>
    ensures { IfOk result (λ delays. Fits net.now delays) }
{
    match delays(alloc, net, file)? {
        Ok(delays) => Ok(delays),
        Err(_) => Err(Trouble::NoRow),
    }
}

/// The path of a row.
pub fn path(alloc: Global, net: &Netlist, row: &str) -> Result<Path, Trouble>
    ensures { IfOk result (λ path. IsPath net.now path) }
{
    let route = route(alloc, net, row)?;
    if is_path(net, &route) {
        Ok(route)
    } else {
        Err(Trouble::NoRow)
    }
}

/// The route of a row: the name of its source, and for each step the name of its gate, a colon, and the pin.
pub fn route(alloc: Global, net: &Netlist, row: &str) -> Result<Path, Trouble>
    ensures { IfOk result (λ route. All (IsPin net.now) route.steps) }
{
    let (source, steps) = row.split_once(' ').unwrap_or((row, ""));
    let source = net.find(source.as_bytes()).ok_or(Trouble::NoRow)?;
    let steps = steps_of(alloc, net, steps)?;
    Ok(Path::new(alloc, source, steps.as_slice())?)
}

// The steps of a route.
fn steps_of(alloc: Global, net: &Netlist, row: &str) -> Result<Vec<PinRef>, Trouble>
    ensures { IfOk result (λ steps. All (IsPin net.now) steps.items) }
{
    let mut steps = Vec::new(alloc);
    for word in row.split(' ') {
        if !word.is_empty() {
            steps.push(step(net, word)?)?;
        }
    }
    Ok(steps)
}

// A step of a route.
fn step(net: &Netlist, word: &str) -> Result<PinRef, Trouble>
    ensures { IfOk result (λ step. IsPin net.now step) }
{
    let (gate, pin) = word.split_once(':').ok_or(Trouble::NoRow)?;
    let pin = number_of(pin)?;
    match gate_named(net, gate) {
        Some(gate) if (pin as usize) < net.pins(gate).len() => Ok(PinRef { gate, pin }),
        _ => Err(Trouble::NoRow),
    }
}

// The gate whose line has this name.
fn gate_named(net: &Netlist, name: &str) -> Option<GateId>
    ensures { IfSome result (λ gate. gate.0 < gate_count net.now) }
{
    net.gate_of(net.find(name.as_bytes())?)
}
