// What is asked of a path: which transition is launched at its source, and how strict a test has to be.

/// The transition that is launched at a path's source.
#[derive(Clone, Copy, Debug, PartialEq, Eq)]
pub enum Direction {
    /// From 0 under the first vector to 1 under the second.
    Rise,
    /// From 1 under the first vector to 0 under the second.
    Fall,
}

/// The conditions that a test meets.
#[derive(Clone, Copy, Debug, PartialEq, Eq)]
pub enum Kind {
    /// Shows a late path whatever the other delays are (Lin and Reddy 1987; the condition of XOR and XNOR is this project's own).
    Robust,
    /// Shows a late path where the side pins have settled.
    Nonrobust,
}
