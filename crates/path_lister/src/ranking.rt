// The lines by level, and the nodes that they have in that order.
ghost use Rattle.std.specs.Prelude.{IfOk};
ghost use Rattle.netlist.specs.Lawful.{IsCircuit};
ghost use Rattle.path_lister.specs.Ranking.{AreNodes, IsRanking};

use netlist::Netlist;
use pd_base::{LineId, OutOfMemory};
use std::alloc::Global;

// All lines by level: the sources, and then the lines of the gates in rank order.
pub(crate) fn ranked_lines(alloc: Global, net: &Netlist) -> Result<Vec<LineId>, OutOfMemory>
    ensures lines { IfOk result (λ lines. IsRanking net.now lines.items) }
    ensures circuit { IsCircuit net.now }
{
    let mut lines = Vec::with_capacity(alloc, net.lines() as usize)?;
    for source in 0..net.sources() {
        lines.push_reserved(LineId(source));
    }
    for gate in net.order() {
        lines.push_reserved(net.line_of(*gate));
    }
    Ok(lines)
}

// The nodes of the lines, by line: node 1 is that of the first of these lines, and so on.
pub(crate) fn nodes_of(
    alloc: Global,
    net: &Netlist,
    lines: &[LineId],
) -> Result<Vec<u32>, OutOfMemory>
    requires { IsRanking net.now lines.now }
    ensures { IfOk result (λ nodes. AreNodes net.now lines.now nodes.items) }
{
    let mut nodes = vec![in alloc; 0u32; net.lines() as usize]?;
    for (place, line) in lines.iter().enumerate() {
        nodes[line.0 as usize] = place as u32 + 1;
    }
    Ok(nodes)
}
