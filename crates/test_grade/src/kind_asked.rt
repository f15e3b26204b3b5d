// Which conditions a test has to meet for a fault of a report.

/// What is asked of a test for the faults of a report.
#[derive(Clone, Copy, Debug, PartialEq, Eq)]
pub enum KindAsked {
    /// It covers the fault: its pair meets the robust conditions.
    Covering,
    /// It serves the fault: its pair meets the conditions of the verdict's kind, which are the nonrobust ones where the verdict is
    /// nonrobust and else the robust ones.
    Serving,
}
