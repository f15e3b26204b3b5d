// In what a proposal is looked for.
ghost use Rattle.std.specs.Prelude.{◌≡◌, ◌<◌, length, All, IfSome};
ghost use Rattle.netlist.specs.Circuit.{gate_count, line_count, pins_at};
ghost use Rattle.hulls.specs.Conditions.{IsEnteredOn};

use crate::first_values::FirstValues;
use crate::link_ends::LinkEnds;
use hulls::Conditions;
use netlist::Netlist;
use pd_base::{GateId, LineId};
use state_sets::{Condition, StateSet};

// A netlist, the conditions at the gates of a path, the cone of the path's end (a mark by line, and its sources), and what lines are
// liked to be in. With links the marks are those of the second frame, and inside of these or of the first frame; of a line that is
// inside and has no mark the first values count. Without links the marks are the same.
#[derive(Drop)]
pub(crate) struct Region<'a> {
    pub(crate) net: &'a Netlist,
    pub(crate) conditions: &'a Conditions,
    pub(crate) marks: &'a [bool],
    pub(crate) inside: &'a [bool],
    pub(crate) sources: &'a [LineId],
    pub(crate) liked: &'a [StateSet],
    pub(crate) links: &'a LinkEnds,
    pub(crate) values: FirstValues,
    ghost entered: { IsEnteredOn net.now conditions.now },
    ghost one_each: { length marks.now ≡ line_count net.now },
    ghost inside_each: { length inside.now ≡ line_count net.now },
    ghost liked_each: { length liked.now ≡ line_count net.now },
    ghost in_circuit: { All (λ source. source.0 < line_count net.now) sources.now },
}

// Whether a gate is in the cone.
pub(crate) fn is_inside(region: &Region, gate: GateId) -> bool
    requires { gate.0 < gate_count region.now.net.now }
{
    region.inside[region.net.line_of(gate).0 as usize]
}

// Whether the first values of a line alone count.
pub(crate) fn is_first_alone(region: &Region, line: LineId) -> bool
    requires { line.0 < line_count region.now.net.now }
{
    !region.links.is_empty() && !region.marks[line.0 as usize]
}

// The line to which a source is linked, if it is and the link counts.
pub(crate) fn linked_line(region: &Region, source: LineId) -> Option<LineId> {
    let at = source.0 as usize;
    if region.links.is_empty() || at >= region.marks.len() || !region.marks[at] {
        return None;
    }
    region.links.line_of(source)
}

// The condition at a gate, if the path goes through it.
pub(crate) fn condition_of(region: &Region, gate: GateId) -> Option<Condition>
    requires { gate.0 < gate_count region.now.net.now }
    ensures { IfSome result (λ condition. condition.pin < length (pins_at region.now.net.now gate.0)) }
{
    region.conditions.at(gate)
}
