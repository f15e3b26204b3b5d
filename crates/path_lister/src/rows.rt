// The arcs of all nodes in one row: node by node, first those of the sources and then the pins of the lines' fan-outs.
ghost use Rattle.std.specs.Prelude.{◌≡◌, [], ◌∷◌, IfOk, OnOk};
ghost use Rattle.netlist.specs.Circuit.{source_count};
ghost use Rattle.path_lister.specs.Ranking.{IsRanking};
ghost use Rattle.path_lister.specs.Rows.{AreRows};

use netlist::Netlist;
use pd_base::{LineId, OutOfMemory, PinRef};
use std::alloc::Global;

// By node its first arc, and behind the last node the number of arcs; and the pin of each arc behind those of the sources.
#[derive(Drop)]
pub(crate) struct Rows {
    pub(crate) firsts: Vec<u32>,
    pub(crate) pins: Vec<PinRef>,
}

// The rows of these lines. The arcs of node 0 are those of the sources.
pub(crate) fn rows_of(alloc: Global, net: &Netlist, lines: &[LineId]) -> Result<Rows, OutOfMemory>
    requires { IsRanking net.now lines.now }
    ensures { IfOk result (λ rows. AreRows net.now lines.now rows.firsts.items rows.pins.items) }
{
    let mut firsts = first_bounds(alloc, net)?;
    let mut pins = Vec::with_capacity(alloc, net.pin_total() as usize)?;
    push_rows(net, lines, &mut firsts, &mut pins)?;
    Ok(Rows { firsts, pins })
}

// Where the row of node 0 begins and ends, with room for those of all lines.
fn first_bounds(alloc: Global, net: &Netlist) -> Result<Vec<u32>, OutOfMemory>
    ensures { IfOk result (λ firsts. firsts.items ≡ 0 ∷ source_count net.now ∷ []) }
{
    let mut firsts = Vec::with_capacity(alloc, net.lines() as usize + 2)?;
    firsts.extend_from_slice(&[0, net.sources()])?;
    Ok(firsts)
}

// Puts the rows of these lines behind that of node 0.
fn push_rows(
    net: &Netlist,
    lines: &[LineId],
    firsts: &mut Vec<u32>,
    pins: &mut Vec<PinRef>,
) -> Result<(), OutOfMemory>
    requires lines { IsRanking net.now lines.now }
    requires firsts { firsts.old.items ≡ 0 ∷ source_count net.now ∷ [] }
    requires pins { pins.old.items ≡ [] }
    ensures { OnOk result (AreRows net.now lines.now firsts.new.items pins.new.items) }
{
    let sources = net.sources();
    for line in lines {
        pins.extend_from_slice(net.fanout(*line))?;
        firsts.push(sources + pins.len() as u32)?;
    }
    Ok(())
}
