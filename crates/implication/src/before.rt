// What stood before an entry of the list of assumptions. What was left of a line stands with the assumption that cut it, so that taking
// the assumption back gives it back, without a second trail.
use state_sets::StateSet;

/// What an engine goes back to when it takes back an entry.
#[derive(Clone, Copy)]
pub(crate) struct Before {
    /// How many changes of labels were noted.
    pub(crate) changes: usize,
    /// Where the entry is about a line, what was left of the line.
    pub(crate) left: StateSet,
}
