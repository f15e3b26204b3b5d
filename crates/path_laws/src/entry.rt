// One walk among many that share their ends.

/// Stands where there is no arc or no entry: the numbers of both stay below it.
pub const NONE: u32 = u32::MAX;

/// A walk from a node: where it stops at once its arc is `NONE`, else it takes the arc and goes on as the entry at `tail` does,
/// which stands earlier. `length` is that of the whole walk.
#[derive(Clone, Copy)]
pub struct WalkEntry {
    pub node: u32,
    pub length: u32,
    pub arc: u32,
    pub tail: u32,
}
