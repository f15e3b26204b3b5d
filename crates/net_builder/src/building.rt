// From the statements of a netlist to the netlist.
ghost use Rattle.std.specs.Prelude.{◌≡◌, ◌≤◌, map, All, IfOk, IfErr};
ghost use Rattle.netlist.specs.declared.limits.TheConstants.{MOST_LEVELS};
ghost use Rattle.netlist.specs.Circuit.{observed_lines, source_count};
ghost use Rattle.netlist.specs.Description.{AreNamed, Describes, described, gates, line_named, names_by_line};
ghost use Rattle.netlist.specs.Lawful.{IsLoopFree};
ghost use Rattle.netlist.specs.Levels.{IsRankOrder, greatest_level, line_levels};
ghost use Rattle.netlist.specs.Statements.{IsStatement};
ghost use Rattle.netlist.specs.Stored.{IsStored};
ghost use Rattle.net_builder.specs.Building.{AreNamedLines, AreWires};
ghost use Rattle.net_builder.specs.Refusals.{MayRefuse};

use crate::limits::check_limits;
use crate::measures::greatest_of;
use crate::named_lines::NamedLines;
use crate::named_parts::{NamedParts, named_parts};
use crate::once::observed_of;
use crate::order::order_of;
use crate::parts::kinds_of;
use crate::wires::{Wires, wires_of};
use crate::{BuildFault, RawNet};
use netlist::{GateKind, Layout, Netlist};
use pd_base::{GateId, LineId, OutOfMemory};
use std::alloc::Global;

// What follows from the parts that names tell.
#[derive(Drop)]
struct DerivedParts {
    wires: Wires,
    lists: DerivedLists,
}

// The kinds of the gates, the observed lines, and the gates in rank order.
#[derive(Drop)]
struct DerivedLists {
    kinds: Vec<GateKind>,
    observed: Vec<LineId>,
    order: Vec<GateId>,
}

/// The netlist of the circuit that the statements describe. They are refused exactly where they describe none, by the first
/// reason that applies, in the order of `BuildFault`. `NoMemory` may come in place of any answer.
pub fn build(alloc: Global, raw: &RawNet) -> Result<Netlist, BuildFault>
    ensures circuit { IfOk result (λ net. Describes raw.now net) }
    ensures refused { IfErr result (MayRefuse raw.now) }
{
    check_limits(raw)?;
    let parts = named_parts(alloc, raw)?;
    let layout = layout_of(alloc, raw, parts)?;
    Ok(Netlist::new(layout))
}

// The lists of the netlist.
fn layout_of(alloc: Global, raw: &RawNet, parts: NamedParts) -> Result<Layout, BuildFault>
    requires named { AreNamed raw.now }
    requires lawful { All (λ s. IsStatement s.statement) raw.now }
    requires sources { parts.sources ≡ source_count (described raw.now) }
    requires pins { parts.pins ≡ map (λ gate. map (line_named (names_by_line raw.now)) gate.arguments) (gates raw.now) }
    requires lines { AreNamedLines (described raw.now) parts.lines }
    ensures stored { IfOk result (λ layout. IsStored (described raw.now) layout) }
    ensures loop_free { IfOk result (λ _. IsLoopFree (described raw.now)) }
    ensures few_levels { IfOk result (λ _. greatest_level (described raw.now) ≤ MOST_LEVELS) }
    ensures refused { IfErr result (MayRefuse raw.now) }
{
    let derived = derived_parts(alloc, raw, &parts)?;
    let NamedParts {
        sources,
        pins,
        lines,
    } = parts;
    let DerivedParts { wires, lists } = derived;
    let greatest_level = greatest_of(wires.levels.as_slice());
    Ok(Layout {
        sources,
        names: lines.names,
        by_name: lines.by_name,
        kinds: lists.kinds,
        pins,
        outputs: lines.outputs,
        flops: lines.flops,
        observed: lists.observed,
        fanouts: wires.fanouts,
        levels: wires.levels,
        order: lists.order,
        greatest_level,
        longest_name: lines.longest_name,
    })
}

// What follows from the parts that names tell, or the first gate that is looped or, else, too deep.
fn derived_parts(
    alloc: Global,
    raw: &RawNet,
    parts: &NamedParts,
) -> Result<DerivedParts, BuildFault>
    requires named { AreNamed raw.now }
    requires sources { parts.now.sources ≡ source_count (described raw.now) }
    requires pins { parts.now.pins ≡ map (λ gate. map (line_named (names_by_line raw.now)) gate.arguments) (gates raw.now) }
    requires lines { AreNamedLines (described raw.now) parts.now.lines }
    ensures wires { IfOk result (λ derived. AreWires (described raw.now) derived.wires) }
    ensures kinds { IfOk result (λ derived. derived.lists.kinds.items ≡ map (λ gate. gate.kind) (described raw.now).gates) }
    ensures observed { IfOk result (λ derived. derived.lists.observed.items ≡ observed_lines (described raw.now)) }
    ensures order { IfOk result (λ derived. IsRankOrder (described raw.now) derived.lists.order.items) }
    ensures refused { IfErr result (MayRefuse raw.now) }
{
    let wires = wires_of(alloc, raw, parts.sources, &parts.pins)?;
    let levels = wires.levels.as_slice();
    let lists = derived_lists(alloc, raw, parts.sources, &parts.lines, levels)?;
    Ok(DerivedParts { wires, lists })
}

// The lists that follow from the lines and their levels.
fn derived_lists(
    alloc: Global,
    raw: &RawNet,
    sources: u32,
    lines: &NamedLines,
    levels: &[u32],
) -> Result<DerivedLists, OutOfMemory>
    requires named { AreNamed raw.now }
    requires sources { sources ≡ source_count (described raw.now) }
    requires lines { AreNamedLines (described raw.now) lines.now }
    requires levels { levels.now ≡ line_levels (described raw.now) }
    ensures kinds { IfOk result (λ lists. lists.kinds.items ≡ map (λ gate. gate.kind) (described raw.now).gates) }
    ensures observed { IfOk result (λ lists. lists.observed.items ≡ observed_lines (described raw.now)) }
    ensures order { IfOk result (λ lists. IsRankOrder (described raw.now) lists.order.items) }
{
    let observed = observed_of(
        alloc,
        lines.outputs.as_slice(),
        lines.flops.as_slice(),
        lines.names.len() as u32,
    )?;
    let order = order_of(alloc, sources, levels)?;
    let kinds = kinds_of(alloc, raw)?;
    Ok(DerivedLists {
        kinds,
        observed,
        order,
    })
}
