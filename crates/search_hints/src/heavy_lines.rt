// Where to split by the weights of lines: at the heaviest source, or where the highest line is heavier that has changed, is open, and on
// which late conflicts rest, at the source to which the heaviest lines lead from there. A hint alone.
ghost use Rattle.std.specs.Prelude.{◌<◌, All, IfSome};
ghost use Rattle.netlist.specs.Circuit.{line_count, HasLines};

use crate::open_lines::is_justified;
use crate::picking::{Sight, has_both_values};
use crate::weights::Weights;
use cones::Cone;
use pd_base::LineId;
use state_sets::{Algebra, StateSet};
use undo_trail::Note;

// The heaviest source of the cone, or the one to which the highest heavy line leads of those in the cone that have changed and are open,
// where that line is heavier.
pub(crate) fn lead_by_weight<A: Algebra>(
    sight: &Sight,
    cone: &Cone,
    changes: &[Note<StateSet>],
    weights: &Weights,
) -> Option<LineId>
    requires { All (λ change. change.index < line_count sight.now.net.now) changes.now }
{
    let source = weights.heaviest::<A>(cone.sources(), sight.labels);
    let Some(line) = highest_open::<A>(sight, cone.marks(), changes, weights) else {
        return source;
    };
    match source {
        Some(source) if weights.of(source) >= weights.of(line) => Some(source),
        _ => descend_by_weight::<A>(sight, line, weights),
    }
}

// The highest of these lines that is heavy and open.
fn highest_open<A: Algebra>(
    sight: &Sight,
    marks: &[bool],
    changes: &[Note<StateSet>],
    weights: &Weights,
) -> Option<LineId>
    requires { All (λ change. change.index < line_count sight.now.net.now) changes.now }
    ensures { IfSome result (λ line. line.0 < line_count sight.now.net.now) }
{
    let mut highest: Option<LineId> = None;
    for change in changes {
        let line = LineId(change.index);
        if weights.is_heavy(line)
            && is_above(sight, line, highest)
            && is_open::<A>(sight, marks, line)
        {
            highest = Some(line);
        }
    }
    highest
}

// Whether a line is higher than another one, if there is another one.
fn is_above(sight: &Sight, line: LineId, other: Option<LineId>) -> bool
    requires line { line.0 < line_count sight.now.net.now }
    requires other { IfSome other (λ other. other.0 < line_count sight.now.net.now) }
{
    match other {
        Some(other) => sight.net.level(line) > sight.net.level(other),
        None => true,
    }
}

// Whether a line has a mark and its gate's pins do not justify it.
fn is_open<A: Algebra>(sight: &Sight, marks: &[bool], line: LineId) -> bool
    requires { line.0 < line_count sight.now.net.now }
{
    let at = line.0 as usize;
    if at >= marks.len() || !marks[at] {
        return false;
    }
    match sight.net.gate_of(line) {
        Some(gate) => !is_justified::<A>(sight.net, sight.labels, gate),
        None => false,
    }
}

// From a line back to a source by the heaviest lines that can still end at either value.
fn descend_by_weight<A: Algebra>(sight: &Sight, line: LineId, weights: &Weights) -> Option<LineId>
    requires { line.0 < line_count sight.now.net.now }
{
    let mut line = line;
    for _ in 0..sight.net.levels() {
        let Some(gate) = sight.net.gate_of(line) else {
            return Some(line);
        };
        line = heaviest_pin::<A>(sight, sight.net.pins(gate), weights)?;
    }
    Some(line)
}

// The heaviest of these lines that can still end at either value, the first one where some are as heavy.
fn heaviest_pin<A: Algebra>(sight: &Sight, pins: &[LineId], weights: &Weights) -> Option<LineId>
    requires { HasLines sight.now.net.now pins.now }
    ensures { IfSome result (λ line. line.0 < line_count sight.now.net.now) }
{
    let mut heaviest: Option<LineId> = None;
    for pin in pins {
        if has_both_values::<A>(sight.labels[pin.0 as usize]) {
            heaviest = Some(match heaviest {
                Some(other) if weights.of(*pin) <= weights.of(other) => other,
                _ => *pin,
            });
        }
    }
    heaviest
}
