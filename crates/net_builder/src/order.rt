// The rank order of all gates: their levels sorted, each with the gate's number.
ghost use Rattle.std.specs.Prelude.{◌≡◌, ◌≤◌, length, IfOk};
ghost use Rattle.netlist.specs.Circuit.{Circuit, source_count};
ghost use Rattle.netlist.specs.Levels.{line_levels, IsRankOrder};
ghost use Rattle.netlist.specs.declared.limits.TheConstants.{MOST_LINES};
ghost use Rattle.net_builder.specs.Ranked.{gates_with_levels, gates_in};

use pd_base::{GateId, OutOfMemory};
use std::alloc::Global;

/// The rank order of the gates of a circuit with so many sources, where `levels` has the levels of all of its lines, by
/// line. The one error is that memory ran out.
pub(crate) fn order_of(
    alloc: Global,
    sources: u32,
    levels: &[u32],
) -> Result<Vec<GateId>, OutOfMemory>
    requires { length levels.now ≤ MOST_LINES }
    ensures { IfOk result (λ order. (c : Circuit) → source_count c ≡ sources → line_levels c ≡ levels.now
        → IsRankOrder c order.items) }
{
    let mut ranked = with_levels(alloc, sources, levels)?;
    ranked.sort_unstable();
    without_levels(alloc, ranked.as_slice())
}

// The level of each gate, with its number, in the order of the numbers.
fn with_levels(alloc: Global, sources: u32, levels: &[u32]) -> Result<Vec<(u32, u32)>, OutOfMemory>
    requires { length levels.now ≤ MOST_LINES }
    ensures { IfOk result (λ ranked. ranked.items ≡ gates_with_levels sources levels.now) }
{
    let mut ranked = Vec::with_capacity(alloc, levels.len())?;
    for line in sources as usize..levels.len() {
        ranked.push((levels[line], line as u32 - sources))?;
    }
    Ok(ranked)
}

// The gates alone, in the same order.
fn without_levels(alloc: Global, ranked: &[(u32, u32)]) -> Result<Vec<GateId>, OutOfMemory>
    ensures { IfOk result (λ order. order.items ≡ gates_in ranked.now) }
{
    let mut order = Vec::with_capacity(alloc, ranked.len())?;
    for (_, gate) in ranked {
        order.push(GateId(*gate))?;
    }
    Ok(order)
}
