// Whether a route is a path: each of its pins reads the line that was reached before it, and the last line is observed.
ghost use Rattle.std.specs.Prelude.{◌≡◌, ◌↔◌, All, Contains, IsTrue, MatchOption};
ghost use Rattle.netlist.specs.Circuit.{observed_lines};
ghost use Rattle.netlist.specs.Paths.{end_of, line_after, Connects, IsPath, IsPrefix};
ghost use Rattle.netlist.specs.Pins.{IsPin};

use netlist::Netlist;
use pd_base::{LineId, Path, PinRef};

/// Whether the route is a path of the circuit: it begins at a source, each step's pin reads the line that was reached before
/// it, and the last line is observed. Its steps have to be pins of the circuit. Takes no memory.
pub fn is_path(net: &Netlist, path: &Path) -> bool
    requires { All (IsPin net.now) path.now.steps }
    ensures { IsTrue result ↔ IsPath net.now path.now }
{
    match end_of(net, path) {
        Some(end) => is_observed(net, end),
        None => false,
    }
}

// The last line, where the route begins at a source and its steps connect.
fn end_of(net: &Netlist, path: &Path) -> Option<LineId>
    requires { All (IsPin net.now) path.now.steps }
    ensures { MatchOption result (¬ IsPrefix net.now path.now)
        (λ end. IsPrefix net.now path.now × (end.0 ≡ end_of net.now path.now)) }
{
    if path.source().0 >= net.sources() {
        return None;
    }
    last_of(net, path.source(), path.steps())
}

// The line to which the steps lead from a line, where they connect.
fn last_of(net: &Netlist, source: LineId, steps: &[PinRef]) -> Option<LineId>
    requires { All (IsPin net.now) steps.now }
    ensures { MatchOption result (¬ Connects net.now source.0 steps.now)
        (λ last. Connects net.now source.0 steps.now × (last.0 ≡ line_after net.now source.0 steps.now)) }
{
    let mut line = source;
    for step in steps {
        if net.pins(step.gate)[step.pin as usize].0 != line.0 {
            return None;
        }
        line = net.line_of(step.gate);
    }
    Some(line)
}

// Whether the line is observed.
fn is_observed(net: &Netlist, line: LineId) -> bool
    ensures { IsTrue result ↔ Contains (observed_lines net.now) line }
{
    net.observed().contains(&line)
}
