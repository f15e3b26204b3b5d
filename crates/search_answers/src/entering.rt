// The pins of a path, entered one after another.
ghost use Rattle.std.specs.Prelude.{◌≡◌, ◌<◌, ◌++◌, map, IsSome, IsTrue};
ghost use Rattle.netlist.specs.Circuit.{gate_line, line_count};
ghost use Rattle.netlist.specs.Pins.{IsPinOn};
ghost use Rattle.implication.specs.declared.assumption.Assumption.TheVariants.{Entered};
ghost use Rattle.implication.specs.Moves.{grown, with_entered};
ghost use Rattle.implication.specs.Scopes.{IsSameScope, standing};
ghost use Rattle.implication.specs.Standing.{IsTold, end_of_scope};
ghost use Rattle.search_answers.specs.Told.{AreMarkedTold};

use implication::{Scope, Setting};
use netlist::Netlist;
use pd_base::{LineId, PinRef, Steps};
use state_sets::Algebra;

/// Enters these pins. It stops where one is not on the line that was reached, where its gate's line is not marked, or where a conflict
/// comes up. The marked lines are told.
#[tactic(auto, using(crate::proofs::Told::still_told))]
pub(crate) fn enter_all<A: Algebra, S: Setting>(
    scope: &mut Scope<A, S>,
    pins: &[PinRef],
    marks: &[bool],
) -> bool
    requires begun { IsSome (standing scope.old).beginning }
    requires told { AreMarkedTold (standing scope.old) marks.now }
    ensures scope { IsSameScope scope.old scope.new }
    ensures net { (standing scope.new).net ≡ (standing scope.old).net }
    ensures rules { (standing scope.new).rules ≡ (standing scope.old).rules }
    ensures ends { (standing scope.new).ends ≡ (standing scope.old).ends }
    ensures entered { IsTrue result → standing scope.new
        ≡ grown (standing scope.old) ((standing scope.old).assumptions ++ map Entered pins.now) }
{
    match pins {
        [] => true,
        [pin, rest @ ..] => enter(scope, *pin, marks) && enter_all(scope, rest, marks),
    }
}

// Enters a pin.
fn enter<A: Algebra, S: Setting>(scope: &mut Scope<A, S>, pin: PinRef, marks: &[bool]) -> bool
    requires begun { IsSome (standing scope.old).beginning }
    requires told { AreMarkedTold (standing scope.old) marks.now }
    ensures scope { IsSameScope scope.old scope.new }
    ensures net { (standing scope.new).net ≡ (standing scope.old).net }
    ensures rules { (standing scope.new).rules ≡ (standing scope.old).rules }
    ensures ends { (standing scope.new).ends ≡ (standing scope.old).ends }
    ensures entered { IsTrue result → standing scope.new
        ≡ grown (standing scope.old) (with_entered (standing scope.old).assumptions pin) }
{
    let mut steps = Steps::start(());
    is_on(scope.net(), scope.last_line(), pin)
        && leads_to_marked(scope, pin, marks)
        && scope.enter(pin, &mut steps).is_ok()
}

// Whether the line of the pin's gate is marked.
fn leads_to_marked<A: Algebra, S: Setting>(scope: &Scope<A, S>, pin: PinRef, marks: &[bool]) -> bool
    requires pin { IsPinOn (standing scope.now).net pin (end_of_scope (standing scope.now)) }
    requires told { AreMarkedTold (standing scope.now) marks.now }
    ensures { IsTrue result → IsTold (standing scope.now) (gate_line (standing scope.now).net pin.gate.0) }
{
    let line = scope.net().line_of(pin.gate).0 as usize;
    line < marks.len() && marks[line]
}

/// Whether the pin is on this line.
pub(crate) fn is_on(net: &Netlist, line: LineId, pin: PinRef) -> bool
    requires { line.0 < line_count net.now }
    ensures { IsTrue result → IsPinOn net.now pin line.0 }
{
    for other in net.fanout(line) {
        if *other == pin {
            return true;
        }
    }
    false
}
