// What a test is looked for.
use pd_base::{Direction, Kind, Path};

/// What a test is looked for: a path or prefix, the transition at its source, and how strict the test has to be.
#[derive(Clone, Copy)]
pub struct Target<'p> {
    /// The path, or the prefix of one.
    pub path: &'p Path,
    /// The transition at its source.
    pub direction: Direction,
    /// The conditions.
    pub kind: Kind,
}
