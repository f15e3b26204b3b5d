// Where to split: at the frontier of the labels, that is at what the conditions of the path's steps, the lines that the scope began and
// the labels that changed since still leave open, and from there back to a source. A hint alone: what it leads to is tried before it is
// taken.
ghost use Rattle.std.specs.Prelude.{◌≡◌, ◌<◌, All, IfSome};
ghost use Rattle.netlist.specs.Circuit.{line_count, HasLines};

use crate::open_lines::{is_justified, open_side};
use crate::picking::{Cut, Sight, pick};
use pd_base::{Kind, LineId, Path};
use state_sets::{Algebra, StateSet};
use undo_trail::Note;

/// How many of the path's steps, of the lines that the scope began, and of the changes of labels are known to leave nothing open, at a
/// node and, but for what changes there, below it.
#[derive(Clone, Copy)]
pub struct Frontier {
    /// So many steps, from the first one on.
    pub steps: usize,
    /// So many of the lines begun, from the first one on.
    pub begun_lines: usize,
    /// So many changes, from the first one on.
    pub changes: usize,
}

/// A source at which a split may close what is open, and the frontier there.
#[derive(Clone, Copy)]
pub struct Lead {
    /// Any line, which is a source unless nothing is open.
    pub source: Option<LineId>,
    /// How far nothing is open.
    pub frontier: Frontier,
}

/// Leads from the first thing that is open to a source: first what the conditions of a kind of tests need at the path's steps, then what
/// the lines begun need, in their order, then the lines whose labels have changed, in the order of these changes.
pub fn follow<A: Algebra>(
    sight: &Sight,
    begun_lines: &[LineId],
    changes: &[Note<StateSet>],
    path: &Path,
    kind: Kind,
    frontier: Frontier,
) -> Lead
    requires begun_lines { HasLines sight.now.net.now begun_lines.now }
    requires changes { All (λ change. change.index < line_count sight.now.net.now) changes.now }
{
    let mut frontier = frontier;
    let open = first_open::<A>(sight, begun_lines, changes, path, kind, &mut frontier);
    let source = match open {
        Some(cut) => descend::<A>(sight, cut),
        None => None,
    };
    Lead { source, frontier }
}

// What the first of all these needs that is open.
fn first_open<A: Algebra>(
    sight: &Sight,
    begun_lines: &[LineId],
    changes: &[Note<StateSet>],
    path: &Path,
    kind: Kind,
    frontier: &mut Frontier,
) -> Option<Cut>
    requires begun_lines { HasLines sight.now.net.now begun_lines.now }
    requires changes { All (λ change. change.index < line_count sight.now.net.now) changes.now }
    ensures { IfSome result (λ cut. cut.line.0 < line_count sight.now.net.now) }
{
    let cut = open_step::<A>(sight, path, kind, frontier);
    if cut.is_some() {
        return cut;
    }
    let cut = open_begun::<A>(sight, begun_lines, frontier);
    if cut.is_some() {
        return cut;
    }
    open_change::<A>(sight, changes, frontier)
}

// What the first step needs that leaves something open.
fn open_step<A: Algebra>(
    sight: &Sight,
    path: &Path,
    kind: Kind,
    frontier: &mut Frontier,
) -> Option<Cut>
    ensures { IfSome result (λ cut. cut.line.0 < line_count sight.now.net.now) }
{
    let steps = path.steps();
    for place in frontier.steps..steps.len() {
        let step = steps[place];
        if step.gate.0 < sight.net.gates()
            && let Some(cut) = open_side::<A>(sight.net, sight.labels, step, kind)
        {
            frontier.steps = place;
            return Some(cut);
        }
    }
    frontier.steps = steps.len();
    None
}

// What the first of the lines begun needs that is open.
fn open_begun<A: Algebra>(
    sight: &Sight,
    begun_lines: &[LineId],
    frontier: &mut Frontier,
) -> Option<Cut>
    requires { HasLines sight.now.net.now begun_lines.now }
    ensures { IfSome result (λ cut. cut.line.0 < line_count sight.now.net.now) }
{
    for place in frontier.begun_lines..begun_lines.len() {
        let cut = open_line::<A>(sight, begun_lines[place]);
        if cut.is_some() {
            frontier.begun_lines = place;
            return cut;
        }
    }
    frontier.begun_lines = begun_lines.len();
    None
}

// What the first line needs, in the order of the changes, that is open.
fn open_change<A: Algebra>(
    sight: &Sight,
    changes: &[Note<StateSet>],
    frontier: &mut Frontier,
) -> Option<Cut>
    requires { All (λ change. change.index < line_count sight.now.net.now) changes.now }
    ensures { IfSome result (λ cut. cut.line.0 < line_count sight.now.net.now) }
{
    for place in frontier.changes..changes.len() {
        let line = LineId(changes[place].index);
        let cut = open_line::<A>(sight, line);
        if cut.is_some() {
            frontier.changes = place;
            return cut;
        }
    }
    frontier.changes = changes.len();
    None
}

// The label of a line, if its gate does not justify it. Inlined, since it is asked in loops over lines.
#[inline(always)]
fn open_line<A: Algebra>(sight: &Sight, line: LineId) -> Option<Cut>
    requires { line.0 < line_count sight.now.net.now }
    ensures { IfSome result (λ cut. cut.line ≡ line) }
{
    let gate = sight.net.gate_of(line)?;
    if is_justified::<A>(sight.net, sight.labels, gate) {
        return None;
    }
    Some(Cut {
        line,
        to: sight.labels[line.0 as usize],
    })
}

// From a line back to a source, by what is wanted of it.
fn descend<A: Algebra>(sight: &Sight, cut: Cut) -> Option<LineId>
    requires { cut.line.0 < line_count sight.now.net.now }
{
    let mut cut = cut;
    for _ in 0..sight.net.levels() {
        let Some(gate) = sight.net.gate_of(cut.line) else {
            return Some(cut.line);
        };
        cut = pick::<A>(sight, gate, cut.to)?;
    }
    Some(cut.line)
}
