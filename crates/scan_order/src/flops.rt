// Which lines are those of flip-flops. They are the last sources, so a test of numbers tells.
ghost use Rattle.std.specs.Prelude.{◌<◌, ◌↔◌, IfSome, IsTrue};
ghost use Rattle.netlist.specs.Circuit.{source_count};
ghost use Rattle.netlist.specs.Lawful.{IsCircuit};
ghost use Rattle.netlist.specs.Names.{name_at};
ghost use Rattle.text_pieces.specs.Reads.{Reads};
ghost use Rattle.scan_order.specs.Chains.{IsFlop};

use netlist::Netlist;
use pd_base::LineId;

// The flip-flop of this name, if there is one.
pub(crate) fn find_flop(net: &Netlist, name: &[u8]) -> Option<LineId>
    requires { IsCircuit net.now }
    ensures reads { Reads (λ flop. name_at net.now flop.0) (IsFlop net.now) name.now result }
    ensures source { IfSome result (λ flop. flop.0 < source_count net.now) }
{
    let line = net.find(name)?;
    if is_flop(net, line) { Some(line) } else { None }
}

// Whether a line is that of a flip-flop.
fn is_flop(net: &Netlist, line: LineId) -> bool
    ensures flop { IsTrue result ↔ IsFlop net.now line }
    ensures source { IsTrue result → line.0 < source_count net.now }
{
    let sources = net.sources();
    let inputs = sources as usize - net.flops().len();
    inputs <= line.0 as usize && line.0 < sources
}
