// What is claimed of a run: that it is good, or its first flaw.

/// What is wrong at an item of a run.
#[derive(Clone, Copy)]
pub enum Reason {
    /// The number of listed paths (item 1), of tests (item 2) or of proofs (item 3) is not the one that is due.
    WrongCount,
    /// The listed path of this number is not that of its place among the first paths.
    WrongPath,
    /// The listed path of this number has another length.
    WrongLength,
    /// The proof of this number is said to refute, and its prefix, its splits or its tree are not as a refutation asks.
    BadRefutation,
    /// The proof of this number is said to have spent the budget, and its path or its tree is not as a spent proof asks.
    BadSpent,
    /// The verdict on the fault of this number does not cite the proofs that it has to.
    NotShared,
    /// The test of the fault of this number is not a test for it, or its pair is not one of the rules of the run.
    BadTest,
    /// The test of the fault of this number expects other bits than the observed lines have.
    WrongExpected,
}

/// What a check of a run comes to.
#[derive(Clone, Copy)]
pub enum Claim {
    /// The run is good.
    Holds,
    /// It is not. The flaw that is told first has this item and this reason.
    Fails(u32, Reason),
}

// A flaw of a run: the number of a count, a listed path, a proof or a fault, and what is wrong there.
#[derive(Clone, Copy)]
pub(crate) struct Flaw {
    pub(crate) item: u32,
    pub(crate) reason: Reason,
}
