// The first paths of a netlist.
ghost use Rattle.std.specs.Prelude.{All, IfOk};
ghost use Rattle.delay_annotation.specs.Annotation.{Fits};
ghost use Rattle.netlist.specs.Paths.{IsPath};

use crate::paths::accepted_delays;
use crate::single_paths::length_of;
use crate::text::Text;
use crate::texts::number_of;
use crate::trouble::Trouble;
use delay_annotation::Delays;
use netlist::Netlist;
use path_lister::first_paths;
use pd_base::{MOST_PATHS, Path, PinRef};
use std::alloc::Global;

/// Adds the first paths, so many, a line each: the length, the source, and the steps.
pub fn listing(
    alloc: Global,
    net: &Netlist,
    file: Option<&str>,
    count: &str,
    answer: &mut Text,
) -> Result<(), Trouble> {
    let count = number_of(count)?;
    let delays = accepted_delays(alloc, net, file)?;
    add_listed(alloc, net, &delays, count, answer)
}

// The first paths under these delays.
fn add_listed(
    alloc: Global,
    net: &Netlist,
    delays: &Delays,
    count: u32,
    answer: &mut Text,
) -> Result<(), Trouble>
    requires { Fits net.now delays.now }
{
    let paths = listed(alloc, net, delays, count)?;
    add_paths(net, delays, paths.as_slice(), answer);
    Ok(())
}

// A line for each path.
fn add_paths(net: &Netlist, delays: &Delays, paths: &[Path], answer: &mut Text)
    requires fits { Fits net.now delays.now }
    requires paths { All (IsPath net.now) paths.now }
{
    for path in paths {
        add_path(net, delays, path, answer);
    }
}

// The first paths. It promises only that they are paths, so that the lines are not proved under the contract of `first_paths`.
fn listed(alloc: Global, net: &Netlist, delays: &Delays, count: u32) -> Result<Vec<Path>, Trouble>
    requires { Fits net.now delays.now }
    ensures { IfOk result (λ paths. All (IsPath net.now) paths.items) }
{
    if count > MOST_PATHS {
        return Err(Trouble::NoRow);
    }
    Ok(first_paths(alloc, net, delays, count)?)
}

// The line of a path.
fn add_path(net: &Netlist, delays: &Delays, path: &Path, answer: &mut Text)
    requires fits { Fits net.now delays.now }
    requires path { IsPath net.now path.now }
{
    answer.add_number("  ", length_of(net, delays, path));
    answer.add(" ");
    answer.add_bytes(net.name(path.source()));
    for step in path.steps() {
        add_step(net, *step, answer);
    }
    answer.add("\n");
}

// A step: its gate, if the circuit has it, and its pin.
fn add_step(net: &Netlist, step: PinRef, answer: &mut Text) {
    if step.gate.0 < net.gates() {
        answer.add(" ");
        answer.add_bytes(net.name(net.line_of(step.gate)));
    }
    answer.add_number(":", step.pin as u64);
}
