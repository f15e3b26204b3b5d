// A test as the files list it.
use crate::{Direction, Items, Kind, Pair};

/// A vector pair for one path and direction, and what it leads to.
#[derive(Drop)]
pub struct Test {
    /// The number of the listed path, from 1.
    pub path: u32,
    /// The transition at the path's source.
    pub dir: Direction,
    /// The conditions that the pair meets.
    pub kind: Kind,
    /// The vectors.
    pub pair: Pair,
    /// The values of the observed lines under the second vector, one bit per observed line in order.
    pub expected: Items<bool>,
}
