// What searches are for, what each ends with, and what a walk over the listed paths has found.
use pd_base::{Direction, Kind, Pair};
use runs::Proof;

/// Which tests are searched for, and how many splits each search may make.
#[derive(Clone, Copy)]
pub(crate) struct Aim {
    /// The conditions.
    pub(crate) kind: Kind,
    /// The transition at the source of each path.
    pub(crate) direction: Direction,
    /// The most splits of a search.
    pub(crate) budget: u32,
}

/// What is known of the path in a row for an aim: a test, or which of the proofs that were found is its own, since one may serve many rows.
#[derive(Drop)]
pub(crate) enum RowOutcome {
    /// It was not searched.
    Unsearched,
    /// A pair that is a test.
    Tested(Pair),
    /// The proof of this index, from 0, among those found: a refutation that applies to the path, or a tree that spent the budget on it.
    Proved(usize),
}

/// What a walk for an aim has found: an outcome for each row of the listed paths, and the proofs that outcomes name, in the order of
/// finding. Those that stand first are of the walks before it.
#[derive(Drop)]
pub(crate) struct Findings {
    /// The outcomes, by row.
    pub(crate) outcomes: Vec<RowOutcome>,
    /// The proofs.
    pub(crate) proofs: Vec<Proof>,
}
