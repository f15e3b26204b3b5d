// Room for the sets of one gate, so that narrowing takes no memory.
ghost use Rattle.std.specs.Prelude.{◌≡◌, ◌<◌, ◌+◌};
ghost use Rattle.netlist.specs.declared.limits.TheConstants.{MOST_FAN_IN};
ghost use Rattle.hulls.specs.Sets.{set_at};

use netlist::MOST_FAN_IN;
use state_sets::StateSet;
use std::marker::Model;

// A place for each pin of any gate, and one past the last.
const PLACES: usize = MOST_FAN_IN as usize + 1;

/// Room for narrowing at any gate.
///
/// Contracts see the sets that the last call of `kept_at` left, one for each pin of its gate, with whatever stands in the places
/// behind them.
#[derive(Drop)]
pub struct NarrowScratch {
    // The sets at the pins, cut to what a condition allows.
    pub(crate) cut: [StateSet; PLACES],
    // By pin what choices out of the sets from this pin on join to; past the last pin the unit.
    pub(crate) suffixes: [StateSet; PLACES],
    // The states kept at each pin so far.
    pub(crate) kept: [StateSet; PLACES],
}

impl Model for NarrowScratch {
    ghost use Rattle.std.specs.Prelude.{◌≡◌, ◌+◌, List, length};
    ghost use Rattle.netlist.specs.declared.limits.TheConstants.{MOST_FAN_IN};
    ghost use Rattle.state_sets.specs.declared.state.StateSet.{StateSet};

    ghost Value = { List StateSet };

    ghost view = { λ s. s.kept };

    ghost invariant = { λ s. length s.kept ≡ MOST_FAN_IN + 1 };
}

impl NarrowScratch {
    /// Room for any gate of any netlist. It takes no memory.
    pub fn new() -> NarrowScratch {
        NarrowScratch {
            cut: [StateSet::EMPTY; PLACES],
            suffixes: [StateSet::EMPTY; PLACES],
            kept: [StateSet::EMPTY; PLACES],
        }
    }

    /// The states that the last call of `kept_at` kept at a pin of its gate.
    pub fn kept(&self, pin: usize) -> StateSet
        requires { pin < MOST_FAN_IN + 1 }
        ensures { result ≡ set_at self.now pin }
    {
        self.kept[pin]
    }
}
