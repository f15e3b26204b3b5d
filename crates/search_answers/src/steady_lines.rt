// What a caller of `steady` may conclude of a line's values and wave. What is shown of late paths is in late_paths.rt.
ghost use Rattle.std.specs.Prelude.{◌≡◌, ◌<◌, ℤ, ⊤, IsTrue, MatchOption, length};
ghost use Rattle.netlist.specs.Circuit.{source_count, line_count};
ghost use Rattle.netlist.specs.Values.{value};
ghost use Rattle.netlist.specs.Waves.{Delays, wave_of};

use logic_values::{Steady, steady};
use netlist::Netlist;
use pd_base::{LineId, Pair};

/// The value that a line has at every time under a pair, whatever the delays are, where it is steady.
pub fn steady_bit(net: &Netlist, pair: &Pair, line: LineId, out: &mut [Steady]) -> Option<bool>
    requires bits { length pair.now.first ≡ source_count net.now }
    requires places { length out.old ≡ line_count net.now }
    requires line { line.0 < line_count net.now }
    ensures { MatchOption result ⊤ (λ bit. (delays : Delays) (time : ℤ) → wave_of net.now pair.now delays line.0 time ≡ bit) }
{
    steady(net, pair, out);
    match out[line.0 as usize] {
        Steady::Zero => Some(false),
        Steady::One => Some(true),
        Steady::Moving => None,
    }
}

/// Whether a line is steady at 1. It then is 1 under both vectors.
pub fn is_steady_at_one(net: &Netlist, pair: &Pair, line: LineId, out: &mut [Steady]) -> bool
    requires bits { length pair.now.first ≡ source_count net.now }
    requires places { length out.old ≡ line_count net.now }
    requires line { line.0 < line_count net.now }
    ensures first { IsTrue result → IsTrue (value net.now pair.now.first line.0) }
    ensures second { IsTrue result → IsTrue (value net.now pair.now.second line.0) }
{
    steady(net, pair, out);
    out[line.0 as usize] == Steady::One
}
