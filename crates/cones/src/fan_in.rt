// The transitive fan-in of a line, by marks alone: one pass over the gates against rank order, in which each marked gate marks the lines
// that it reads. When a gate's turn comes, each gate that could read its line has had its own. A search that costs the cone alone, and
// follows links, stands in back_search.rt.
ghost use Rattle.std.specs.Prelude.{◌≡◌, ◌<◌, ◌↔◌, ℕ, length, All, IsTrue};
ghost use Rattle.netlist.specs.Circuit.{line_count};
ghost use Rattle.netlist.specs.Pins.{IsInFanIn};
ghost use Rattle.cones.specs.Marks.{is_marked, AddsMarks};

use netlist::Netlist;
use pd_base::LineId;

/// Marks the lines in the transitive fan-in of a line, itself included: afterwards `cone` is true at exactly these. `cone` has
/// one place per line, by line number, and what stands there before does not matter. Takes no memory.
pub fn support(net: &Netlist, line: LineId, cone: &mut [bool])
    requires line { line.0 < line_count net.now }
    requires places { length cone.old ≡ line_count net.now }
    ensures places { length cone.new ≡ line_count net.now }
    ensures exactly { (other : ℕ) → other < line_count net.now → IsTrue (is_marked cone.new other) ↔ IsInFanIn net.now line.0 other }
{
    cone.fill(false);
    cone[line.0 as usize] = true;
    let order = net.order();
    for place in (0..order.len()).rev() {
        let gate = order[place];
        let own = net.line_of(gate);
        if cone[own.0 as usize] {
            mark_pins(net.pins(gate), cone);
        }
    }
}

// Marks the lines that these pins read, beside those that are marked.
fn mark_pins(pins: &[LineId], cone: &mut [bool])
    requires { All (λ pin. pin.0 < length cone.old) pins.now }
    ensures { AddsMarks cone.old pins.now cone.new }
{
    for pin in pins {
        cone[pin.0 as usize] = true;
    }
}
