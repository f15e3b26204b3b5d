// The lines that a transition reaches, by level: when a line's turn comes, each line that its gate reads has had its own.
ghost use Rattle.std.specs.Prelude.{◌≡◌, ◌<◌, ◌≤◌, ◌↔◌, length, vec_capacity, true, All};
ghost use Rattle.netlist.specs.Circuit.{line_count};
ghost use Rattle.implication.specs.ByLevel.{IsByLevel, AreSameByLevel};

use netlist::Netlist;
use pd_base::LineId;

// Whether none of these lines stands behind one of a higher level.
pub(crate) fn is_by_level(net: &Netlist, lines: &[LineId]) -> bool
    requires { All (λ line. line.0 < line_count net.now) lines.now }
    ensures { (result ≡ true) ↔ IsByLevel net.now lines.now }
{
    let mut highest = 0;
    for line in lines {
        let level = net.level(*line);
        if level < highest {
            return false;
        }
        highest = level;
    }
    true
}

// Lists these lines by level, each with its level, in place of what stood there. Takes no memory.
pub(crate) fn rank(net: &Netlist, lines: &[LineId], ranked: &mut Vec<(u32, LineId)>)
    requires in_circuit { All (λ line. line.0 < line_count net.now) lines.now }
    requires room { length lines.now ≤ vec_capacity ranked.old }
    ensures ranked { AreSameByLevel net.now lines.now ranked.new.items }
    ensures room { vec_capacity ranked.new ≡ vec_capacity ranked.old }
{
    ranked.clear();
    for line in lines {
        ranked.push_reserved((net.level(*line), *line));
    }
    ranked.sort_unstable();
}
