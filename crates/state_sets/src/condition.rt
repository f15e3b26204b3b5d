// The condition under which a gate on a path is narrowed.
use pd_base::Kind;

/// The step of a path at a gate: the side pins have to meet what a test of this kind asks of them there.
#[derive(Clone, Copy)]
pub struct Condition {
    /// The on-path pin of the gate.
    pub pin: u32,
    /// The kind of the test.
    pub kind: Kind,
}
