// Why a line of a draft was cut.
use pd_base::{GateId, LineId};
use state_sets::StateSet;

// What cut a line: a decision, by its place among them, narrowing at a gate, or the link of a source.
#[derive(Clone, Copy)]
pub(crate) enum Cause {
    Decision(usize),
    Gate(GateId),
    Link(LineId),
}

impl Cause {
    // Whether it is narrowing at this gate.
    pub(crate) fn is_gate(self, gate: GateId) -> bool {
        match self {
            Cause::Gate(own) => own == gate,
            Cause::Decision(_) | Cause::Link(_) => false,
        }
    }

    // Whether it is the link of this source.
    pub(crate) fn is_link(self, source: LineId) -> bool {
        match self {
            Cause::Link(own) => own == source,
            Cause::Decision(_) | Cause::Gate(_) => false,
        }
    }
}

// A cut of a line: what stood there before, and why it was cut. Where narrowing at the line's own gate left it no less than the gate
// makes of its pins, what was left: as long as that is its label, the line is justified.
#[derive(Clone, Copy)]
pub(crate) struct Change {
    pub(crate) line: LineId,
    pub(crate) old: StateSet,
    pub(crate) justified: Option<StateSet>,
    pub(crate) cause: Cause,
}

impl Change {
    // Whether the line is known to be justified, if this is its label.
    pub(crate) fn is_justified_at(&self, label: StateSet) -> bool {
        match self.justified {
            Some(left) => left == label,
            None => false,
        }
    }
}
