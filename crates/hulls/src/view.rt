// What narrowing looks at.
ghost use Rattle.std.specs.Prelude.{◌≡◌, ◌<◌, length, All};
ghost use Rattle.state_sets.specs.States.{both_sets};

use crate::limits::{Limits, limit_at};
use netlist::GateKind;
use pd_base::LineId;
use state_sets::StateSet;

// The kind of a gate, the lines that its pins read, the sets of all lines, and that of its own line.
#[derive(Clone, Copy)]
pub(crate) struct GateView<'a> {
    pub(crate) kind: GateKind,
    pub(crate) pins: &'a [LineId],
    pub(crate) labels: &'a [StateSet],
    pub(crate) own: StateSet,
}

impl GateView<'_> {
    ghost use Rattle.hulls.specs.Sets.{set_at};
    ghost use Rattle.hulls.specs.Limits.{limit_at};
    ghost use Rattle.hulls.specs.GateViews.{pin_sets};

    // The states of the line that a pin reads, cut to the limits.
    pub(crate) fn cut_at(&self, limits: Limits, pin: usize) -> StateSet
        requires lines { All (λ line. line.0 < length self.now.labels.now) self.now.pins.now }
        requires pin { pin < length self.now.pins.now }
        ensures { result ≡ both_sets (set_at (pin_sets self.now) pin) (limit_at limits pin) }
    {
        let line = self.pins[pin];
        self.labels[line.0 as usize].intersect(limit_at(limits, pin))
    }
}
