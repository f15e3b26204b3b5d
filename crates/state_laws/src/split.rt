// Splits of the cases at a line, and the halves of a split. Which states a half has stands in specs/Halves.antt.
use pd_base::LineId;

/// By what a split parts the states of a line.
#[derive(Clone, Copy, Debug, PartialEq, Eq)]
pub enum SplitKind {
    /// By the value under the second vector: 0 first.
    LastValue,
    /// By steadiness: steady first.
    Steadiness,
    /// By the value under the first vector: 0 first. Trees have it under linked rules alone.
    FirstValue,
}

/// A split of the cases at a line.
#[derive(Clone, Copy, Debug, PartialEq, Eq)]
pub struct Split {
    /// The line, a source or that of a gate.
    pub line: LineId,
    /// By what its states are parted.
    pub kind: SplitKind,
}

/// The part of a line's states that one half of a split leaves.
#[derive(Clone, Copy)]
pub struct Half {
    /// The split.
    pub split: Split,
    /// Whether this is the second half: value 1, or not steady. The first half has value 0, or steady.
    pub second: bool,
}
