// The answers of a check of a tree, and of a call for the hull at a node.
use pd_base::LineId;
use state_sets::{FourStates, Labels, SixStates};

/// What a check tells of a tree.
#[derive(Clone, Copy, Debug, PartialEq, Eq)]
pub enum TreeCheck {
    /// The tree shows what it has to.
    Yes,
    /// It does not. This is the first node at fault, by its place in preorder from 0.
    No(u32),
}

/// What is left at a node of a tree of cases.
#[derive(Drop)]
pub enum Hull {
    /// The hull, in which each line has some state.
    Rest(Labels<FourStates>),
    /// The same under linked rules, whose states tell first values too.
    RestLinked(Labels<SixStates>),
    /// The node closes: no labels at rest have a state at this line. Which such line it is, is not said.
    Empty(LineId),
}
