// The greatest numbers that a call may ask for, and how long a text may be that is read.

/// How many paths may be asked for at most, and so the greatest number of a listed path.
pub const MOST_PATHS: u32 = 10_000;

/// How many splits of cases each search may make at most.
pub const MOST_BUDGET: u32 = 1_000_000;

/// How many stages a ladder may have at most.
pub const MOST_STAGES: u32 = 1_000;

/// The most bytes of a text that a reader takes, whatever the text spells.
pub const MOST_BYTES: usize = 268_435_456;
