// A choice between two sets of states of a source.
use pd_base::LineId;
use state_sets::StateSet;

/// Two sets of states that a source may be assumed to be in.
#[derive(Clone, Copy)]
pub struct Choice {
    /// The source.
    pub source: LineId,
    /// The set that is tried first.
    pub first: StateSet,
    /// The set that is tried then.
    pub second: StateSet,
}
