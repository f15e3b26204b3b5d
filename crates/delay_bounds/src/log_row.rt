// A row of a tester's log.

/// The most digits of the number of a test in a log.
pub const MOST_TEST_DIGITS: usize = 5;

/// The most digits of a time in a log.
pub const MOST_TIME_DIGITS: usize = 10;

/// A row of a log: at this time the test was seen to pass, or to fail.
#[derive(Clone, Copy, Debug, PartialEq, Eq)]
pub struct LogRow {
    /// The number of the test, from 1.
    pub test: u32,
    /// When the observed lines were sampled, in delay units behind the second vector.
    pub time: u64,
    /// Whether each observed line had its value under the second vector then.
    pub pass: bool,
}
