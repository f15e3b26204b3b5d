// What a narrowing answers.
use pd_base::LineId;

/// What a narrowing did to the lines that it looks at.
#[derive(Clone, Copy, Debug, PartialEq, Eq)]
pub enum Narrowed {
    /// No set changed, and each of the lines has a state.
    Same,
    /// Some set lost a state, and each of the lines has a state left.
    Shrunk,
    /// This line has no state.
    Empty(LineId),
}
