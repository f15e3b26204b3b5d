// The labels under one entry more of the list of assumptions: what it cuts is narrowed on from the labels under those before. And what
// is left of the lines, and the conditions, with an entry more or with the last one taken back.
ghost use Rattle.std.specs.Prelude.{◌≡◌, ◌<◌, ◌∷◌, ◌++◌, [], length, All};
ghost use Rattle.netlist.specs.Circuit.{line_count};
ghost use Rattle.netlist.specs.Pins.{IsPin};
ghost use Rattle.hulls.specs.Conditions.{IsEnteredOn};
ghost use Rattle.hulls.specs.Settling.{MaySettle};
ghost use Rattle.implication.specs.Assumptions.{entered_pins};
ghost use Rattle.implication.specs.Kept.{IsNarrowedMore, IsNarrowedToRest, IsSettledFrom, IsAboutLine, CanStep, CanEnter, left_with, left_without, steps_without};
ghost use Rattle.implication.specs.declared.assumption.Assumption.TheVariants.{Assumed};

use crate::Assumption;
use hulls::{Board, Conditions, NarrowScratch};
use netlist::Netlist;
use pd_base::{LineId, PinRef};
use state_sets::{Algebra, StateSet};

// Narrows on from labels at rest under an entry more: leaves the hull on the board, or gives a line at which no state is left. Takes no
// memory.
pub(crate) fn narrow_on<A: Algebra>(
    net: &Netlist,
    entry: Assumption,
    board: &mut Board<A>,
    conditions: &mut Conditions,
    scratch: &mut NarrowScratch,
) -> Option<LineId>
    requires ready { MaySettle A.algebra net.now conditions.old.kind conditions.old.steps board.old }
    requires entered { IsEnteredOn net.now conditions.old }
    requires step { CanStep conditions.old entry }
    requires pins { All (IsPin net.now) (entered_pins (entry ∷ [])) }
    requires line { IsAboutLine (line_count net.now) entry }
    ensures steps { conditions.new ≡ record conditions.old { steps = conditions.old.steps ++ entered_pins (entry ∷ []) } }
    ensures narrowed { IsNarrowedMore A.algebra net.now entry conditions.new.kind conditions.new.steps board.old board.new result }
    ensures board { IsNarrowedToRest board.old board.new }
{
    match entry {
        Assumption::Entered(pin) => narrow_on_entered(net, pin, board, conditions, scratch),
        Assumption::Assumed(line, set) => {
            narrow_on_cut(net, line, set, board, conditions, scratch)
        }
    }
}

// The same where a pin is entered: its gate is narrowed again, under its condition.
fn narrow_on_entered<A: Algebra>(
    net: &Netlist,
    pin: PinRef,
    board: &mut Board<A>,
    conditions: &mut Conditions,
    scratch: &mut NarrowScratch,
) -> Option<LineId>
    requires ready { MaySettle A.algebra net.now conditions.old.kind conditions.old.steps board.old }
    requires entered { IsEnteredOn net.now conditions.old }
    requires step { CanEnter conditions.old pin }
    requires pin { IsPin net.now pin }
    ensures steps { conditions.new ≡ record conditions.old { steps = conditions.old.steps ++ pin ∷ [] } }
    ensures settled { IsSettledFrom A.algebra net.now board.old.inside board.old.links conditions.new.kind conditions.new.steps
        board.old.labels board.new.labels result }
    ensures board { IsNarrowedToRest board.old board.new }
{
    conditions.enter(pin);
    board.ask(pin.gate);
    board.settle(net, conditions, scratch)
}

// The same where a line is cut down to a set: the gates that have it among their lines are narrowed again, the one that drives it too.
pub(crate) fn narrow_on_cut<A: Algebra>(
    net: &Netlist,
    line: LineId,
    set: StateSet,
    board: &mut Board<A>,
    conditions: &Conditions,
    scratch: &mut NarrowScratch,
) -> Option<LineId>
    requires ready { MaySettle A.algebra net.now conditions.now.kind conditions.now.steps board.old }
    requires entered { IsEnteredOn net.now conditions.now }
    requires line { line.0 < line_count net.now }
    ensures narrowed { IsNarrowedMore A.algebra net.now (Assumed line set) conditions.now.kind conditions.now.steps
        board.old board.new result }
    ensures board { IsNarrowedToRest board.old board.new }
{
    if board.cut(net, line, set) == StateSet::EMPTY {
        board.rest();
        return Some(line);
    }
    board.settle(net, conditions, scratch)
}

// Leaves of its line what an entry leaves.
pub(crate) fn take_from(left: &mut Vec<StateSet>, entry: Assumption)
    requires { IsAboutLine (length left.old.items) entry }
    ensures { left.new.items ≡ left_with entry left.old.items }
{
    if let Assumption::Assumed(line, set) = entry {
        left[line.0 as usize] = set;
    }
}

// Leaves of its line again what was left before the entry.
pub(crate) fn put_back(left: &mut Vec<StateSet>, entry: Assumption, before: StateSet)
    requires { IsAboutLine (length left.old.items) entry }
    ensures { left.new.items ≡ left_without entry before left.old.items }
{
    if let Assumption::Assumed(line, _) = entry {
        left[line.0 as usize] = before;
    }
}

// Leaves the step of the last entry, if it is that of a pin.
pub(crate) fn leave_step(conditions: &mut Conditions, entry: Assumption)
    ensures { conditions.new ≡ steps_without entry conditions.old }
{
    if let Assumption::Entered(_) = entry {
        conditions.leave();
    }
}
