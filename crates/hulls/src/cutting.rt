// The labels of a gate's lines are cut once all kept sets are known, and what that did is told.
ghost use Rattle.std.specs.Prelude.{◌≡◌, ◌<◌, ◌≤◌, ◌++◌, ◌∷◌, [], ℕ, ◌≢◌, List, length, slice_set, All, Contains, IfSome, IfNone};
ghost use Rattle.state_sets.specs.States.{both_sets, no_states};
ghost use Rattle.state_sets.specs.Labellings.{label_at, TellsOfNarrowing};
ghost use Rattle.hulls.specs.Changes.{Lessens, HasPinsKept};

use pd_base::LineId;
use state_sets::{Narrowed, StateSet};

// Cuts the set of a line down to another one. Tells whether that changed it.
pub(crate) fn cut_line(labels: &mut [StateSet], line: LineId, to: StateSet) -> bool
    requires { line.0 < length labels.old }
    ensures labels { labels.new ≡ slice_set labels.old line.0 (both_sets (label_at labels.old line.0) to) }
    ensures lessens { Lessens labels.old labels.new result }
{
    let at = line.0 as usize;
    let old = labels[at];
    let new = old.intersect(to);
    labels[at] = new;
    new != old
}

// Cuts the set of the line of each pin down to what is kept at that pin. Tells whether that changed any.
pub(crate) fn cut_pins(labels: &mut [StateSet], pins: &[LineId], kept: &[StateSet]) -> bool
    requires lines { All (λ line. line.0 < length labels.old) pins.now }
    requires places { length pins.now ≤ length kept.now }
    ensures kept { (count : ℕ) → HasPinsKept count pins.now kept.now (length pins.now) labels.old labels.new }
    ensures lessens { Lessens labels.old labels.new result }
{
    let mut changed = false;
    for pin in 0..pins.len() {
        changed |= cut_line(labels, pins[pin], kept[pin]);
    }
    changed
}

// What a narrowing answers that changed some set of these lines, or none.
pub(crate) fn told(labels: &[StateSet], pins: &[LineId], own: LineId, changed: bool) -> Narrowed
    requires lines { All (λ line. line.0 < length labels.now) pins.now }
    requires own { own.0 < length labels.now }
    ensures { (old : List _) → Lessens old labels.now changed → TellsOfNarrowing (pins.now ++ own ∷ []) old labels.now result }
{
    if let Some(line) = first_empty(labels, pins) {
        return Narrowed::Empty(line);
    }
    if labels[own.0 as usize] == StateSet::EMPTY {
        return Narrowed::Empty(own);
    }
    if changed {
        Narrowed::Shrunk
    } else {
        Narrowed::Same
    }
}

// The first of these lines that has no state.
fn first_empty(labels: &[StateSet], lines: &[LineId]) -> Option<LineId>
    requires { All (λ line. line.0 < length labels.now) lines.now }
    ensures some { IfSome result (λ line. Contains lines.now line × (label_at labels.now line.0 ≡ no_states)) }
    ensures none { IfNone result (All (λ line. label_at labels.now line.0 ≢ no_states) lines.now) }
{
    for line in lines {
        if labels[line.0 as usize] == StateSet::EMPTY {
            return Some(*line);
        }
    }
    None
}
