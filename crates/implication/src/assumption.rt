// What scopes begin with, and what is assumed in them.
use pd_base::{Direction, Kind, LineId, PinRef};
use state_sets::StateSet;

/// With what an outermost scope begins: a transition at a source, and the kind of the tests that are looked for.
#[derive(Clone, Copy)]
pub struct Beginning {
    /// The source of the path.
    pub source: LineId,
    /// The transition that is launched there.
    pub direction: Direction,
    /// Which conditions stand at the pins entered.
    pub kind: Kind,
}

/// An entry of the list of what was assumed.
#[derive(Clone, Copy)]
pub enum Assumption {
    /// The prefix goes on through this pin.
    Entered(PinRef),
    /// The line is in one of these states: what was left of it, intersected with the set that was assumed.
    Assumed(LineId, StateSet),
}

/// How a scope was made.
#[derive(Clone, Copy)]
pub enum Origin {
    /// It is the outermost scope of its engine.
    Begun,
    /// It was made within another scope, when the list of assumptions had this length.
    Within(usize),
}

/// A conflict: the assumptions leave this line no state.
#[derive(Clone, Copy, Debug, PartialEq, Eq)]
pub struct Conflict(pub LineId);
