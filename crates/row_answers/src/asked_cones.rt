// The cones of lines that are asked for in turn of one `Cone`, which keeps those of some lines aside: each has to be that of its line,
// whatever was asked for before.
ghost use Rattle.cones.specs.KeptCones.{IsConeFor};

use crate::rules::rules_of;
use crate::text::Text;
use crate::trouble::Trouble;
use cones::Cone;
use netlist::Netlist;
use pd_base::LineId;
use std::alloc::Global;

/// Adds the cones of lines that are asked for in turn: the rules (rules.rt), and the names of the lines. A line for each: its name, the
/// names of its cone's sources in rising order, and behind a bar the lines of its gates in rank order.
pub fn cones_in_turn(
    alloc: Global,
    net: &Netlist,
    row: &str,
    answer: &mut Text,
) -> Result<(), Trouble> {
    let (rules, names) = rules_of(alloc, net, row)?;
    let mut cone = Cone::new(alloc, net, rules.links())?;
    for name in names.split(' ') {
        add_cone_of(net, &mut cone, name, answer)?;
    }
    Ok(())
}

// Adds the cone of the line of a name.
fn add_cone_of(net: &Netlist, cone: &mut Cone, name: &str, answer: &mut Text) -> Result<(), Trouble>
    requires { IsConeFor net.now cone.old }
    ensures { IsConeFor net.now cone.new }
{
    let Some(end) = net.find(name.as_bytes()) else {
        return Err(Trouble::NoRow);
    };
    cone.set_end(net, end);
    answer.add("  ");
    answer.add(name);
    add_sources(net, cone.sources(), answer);
    answer.add(" |");
    add_gates(net, cone, answer);
    answer.add("\n");
    Ok(())
}

// Adds the names of sources.
fn add_sources(net: &Netlist, sources: &[LineId], answer: &mut Text) {
    for source in sources {
        add_name(net, *source, answer);
    }
}

// Adds the names of the lines of a cone's gates.
fn add_gates(net: &Netlist, cone: &Cone, answer: &mut Text) {
    for gate in cone.gates() {
        if gate.0 < net.gates() {
            add_name(net, net.line_of(*gate), answer);
        }
    }
}

// Adds the name of a line, if there is such a line.
fn add_name(net: &Netlist, line: LineId, answer: &mut Text) {
    answer.add(" ");
    if line.0 < net.lines() {
        answer.add_bytes(net.name(line));
    }
}
