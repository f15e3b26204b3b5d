// Whether a pair fails at lines of low levels. The gates of a cone are evaluated in rank order, some at first, then more and more, and each
// time the conditions are judged that these lines show by themselves: most pairs fail at one of them, and no gate behind is evaluated.
ghost use Rattle.std.specs.Prelude.{◌≡◌, ◌<◌, All, IfSome, IsTrue};
ghost use Rattle.pd_base.specs.Links.{LinkList};
ghost use Rattle.netlist.specs.Circuit.{gate_count, line_count};
ghost use Rattle.netlist.specs.Paths.{IsPrefix, end_of};
ghost use Rattle.pair_judging.specs.ConeStates.{AreLineStates};
ghost use Rattle.pair_judging.specs.Judged.{IsFailingSide};
ghost use Rattle.cones.specs.KeptCones.{IsConeFor, IsConeAt};
ghost use Rattle.refutation_check.specs.TrialStates.{AreTrialStates, KeepsSources};
ghost use Rattle.pair_judging.specs.Targets.{seen_target};
ghost use Rattle.refutation_check.specs.Blames.{IsBlamed, IsFailure, FailsStep};

use crate::blaming::{Failure, traces};
use crate::trial_states::TrialStates;
use cones::{Cone, FoundLines};
use netlist::{Netlist, SideCondition, side_condition};
use pair_judging::Target;
use pd_base::{Kind, LineId, PinRef};
use state_sets::{Algebra, State};

// So many gates of a cone are evaluated before the conditions are judged, one time after another.
const COUNTS: [usize; 4] = [256, 2_048, 16_384, 131_072];

// Whether the pairs that have these states at the sources of a cone fail at lines whose gates stand early in rank order, and by which
// lines. The gates that were evaluated are not stale any more. False tells nothing.
pub(crate) fn fails_early<A: Algebra>(
    net: &Netlist,
    target: &Target,
    cone: &Cone,
    kept: &mut TrialStates,
    blamed: &mut FoundLines,
) -> bool
    requires prefix { IsPrefix net.now target.now.path.now }
    requires made { IsConeFor net.now cone.now }
    requires cone { IsConeAt net.now (end_of net.now target.now.path.now) cone.now }
    requires kept { AreTrialStates A.algebra net.now kept.old }
    requires room { blamed.old.room ≡ line_count net.now }
    ensures kept { AreTrialStates A.algebra net.now kept.new }
    ensures sources { KeepsSources net.now kept.old kept.new }
    ensures room { blamed.new.room ≡ blamed.old.room }
    ensures blamed { IsTrue result
        → IsBlamed A.algebra net.now cone.now.links (seen_target target.now) kept.new.states.items blamed.new.lines }
{
    // a netlist knows itself as a circuit
    let _ = net.lines();
    let gates = cone.gates();
    for count in COUNTS.iter() {
        if *count >= gates.len() {
            return false;
        }
        kept.refresh::<A>(net, gates, *count);
        // lines below this level are none of the gates that come next
        let level = net.level(net.line_of(gates[*count]));
        if fails_below::<A>(net, target, level, cone, kept, blamed) {
            return true;
        }
    }
    false
}

// Whether the sides of some step fail by lines below this level, as far as these can be traced. False tells nothing.
pub(crate) fn fails_below<A: Algebra>(
    net: &Netlist,
    target: &Target,
    level: u32,
    cone: &Cone,
    kept: &TrialStates,
    blamed: &mut FoundLines,
) -> bool
    requires prefix { IsPrefix net.now target.now.path.now }
    requires made { IsConeFor net.now cone.now }
    requires cone { IsConeAt net.now (end_of net.now target.now.path.now) cone.now }
    requires kept { AreTrialStates A.algebra net.now kept.now }
    requires room { blamed.old.room ≡ line_count net.now }
    ensures room { blamed.new.room ≡ blamed.old.room }
    ensures blamed { IsTrue result
        → IsBlamed A.algebra net.now cone.now.links (seen_target target.now) kept.now.states.items blamed.new.lines }
{
    match failing_step::<A>(net, target, level, kept.states.as_slice()) {
        Some(failure) => traces::<A>(net, target, cone, kept, failure, blamed),
        None => false,
    }
}

// The lines below this level by whose states the sides of some step of the path fail, if there are some.
fn failing_step<A: Algebra>(
    net: &Netlist,
    target: &Target,
    level: u32,
    states: &[State],
) -> Option<Failure>
    requires prefix { IsPrefix net.now target.now.path.now }
    requires states { AreLineStates A.algebra.count net.now states.now }
    ensures { IfSome result (λ failure.
        (links : LinkList) → IsFailure A.algebra net.now links (seen_target target.now) states.now failure) }
{
    // what the states show is shown of a circuit, as which a netlist knows itself
    let at_source = target.path.source().0 < net.lines();
    prove!(at_source);
    let mut line = target.path.source();
    for step in target.path.steps() {
        if net.level(line) >= level {
            return None;
        }
        if let Some(failure) = failure_at::<A>(net, target.kind, line, *step, level, states) {
            return Some(failure);
        }
        line = net.line_of(step.gate);
    }
    None
}

// The lines by whose states the sides of a step fail that goes on from a line, if one fails that stands below this level. Where the side
// would not be allowed either if the line ended at the other value, it fails alone.
fn failure_at<A: Algebra>(
    net: &Netlist,
    kind: Kind,
    line: LineId,
    step: PinRef,
    level: u32,
    states: &[State],
) -> Option<Failure>
    requires line { line.0 < line_count net.now }
    requires gate { step.gate.0 < gate_count net.now }
    requires states { AreLineStates A.algebra.count net.now states.now }
    ensures { IfSome result (FailsStep A.algebra net.now kind states.now line.0 step) }
{
    let gate = net.kind(step.gate);
    let last = A::last(states[line.0 as usize]);
    let condition = side_condition(kind, gate, last);
    let Some(side) = failing_side::<A>(net, condition, net.pins(step.gate), step.pin, level, states)
    else {
        return None;
    };
    let state = states[side.0 as usize];
    let other = side_condition(kind, gate, !last);
    let first = if other.allows(A::last(state), A::is_steady(state)) {
        line
    } else {
        side
    };
    Some(Failure {
        first,
        second: side,
    })
}

// The line below this level of some pin of a gate but the on-path one that is not as is asked of the side pins.
fn failing_side<A: Algebra>(
    net: &Netlist,
    condition: SideCondition,
    pins: &[LineId],
    on_path: u32,
    level: u32,
    states: &[State],
) -> Option<LineId>
    requires pins { All (λ pin. pin.0 < line_count net.now) pins.now }
    requires states { AreLineStates A.algebra.count net.now states.now }
    ensures { IfSome result (IsFailingSide A.algebra condition states.now on_path pins.now) }
{
    for (pin, side) in pins.iter().enumerate() {
        if pin != on_path as usize && net.level(*side) < level {
            let state = states[side.0 as usize];
            if !condition.allows(A::last(state), A::is_steady(state)) {
                return Some(*side);
            }
        }
    }
    None
}
