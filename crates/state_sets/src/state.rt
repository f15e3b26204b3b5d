// A state, and a set of states as bits. What a state means, an `Algebra` says.
ghost use Rattle.std.specs.Prelude.{◌≡◌, ◌<◌, ◌^◌, ◌↔◌, IsTrue, bit_and, bit_or};
ghost use Rattle.std.specs.Int.{bit_at};
ghost use Rattle.state_sets.specs.States.{Has, no_states};

/// A state, by its number, which is below the count of its algebra and so below 8.
#[derive(Clone, Copy, Debug, PartialEq, Eq)]
pub struct State(pub u8);

/// A set of states: bit i is 1 where it holds state i.
#[derive(Clone, Copy, Debug, PartialEq, Eq)]
pub struct StateSet(pub u8);

impl StateSet {
    /// The set without any state.
    pub const EMPTY: StateSet = StateSet(0);

    /// Whether the set holds a state.
    pub fn holds(self, state: State) -> bool
        requires { state.0 < 8 }
        ensures { IsTrue result ↔ (bit_at self.0 state.0 ≡ 1) }
    {
        (self.0 >> state.0) & 1 == 1
    }

    /// The set of one state.
    pub fn only(state: State) -> StateSet
        requires { state.0 < 8 }
        ensures { result.0 ≡ 2 ^ state.0 }
    {
        StateSet(1 << state.0)
    }

    /// The states that both sets hold.
    pub fn intersect(self, other: StateSet) -> StateSet
        ensures { result.0 ≡ bit_and self.0 other.0 }
    {
        StateSet(self.0 & other.0)
    }

    /// The states that one of the sets holds, or both.
    pub fn unite(self, other: StateSet) -> StateSet
        ensures { result.0 ≡ bit_or self.0 other.0 }
    {
        StateSet(self.0 | other.0)
    }
}
