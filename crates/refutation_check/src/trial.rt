// The trial of a node: the pair of vectors that has at each source of the path's support the least state that the labels leave there is
// judged within the cone of the path's end. The trial closes exactly where this pair is no pair of the rules or does not meet the
// conditions, so nothing has to be narrowed for it; and no gate is evaluated of whose pins' lines none changed since the pair judged last,
// nor one of a high level where the pair fails at lines of lower ones. Where it failed, the lines are kept by which it did: as long as the
// sources among them have the same least states, these alone are looked at.
ghost use Rattle.std.specs.Prelude.{◌≡◌, ◌<◌, false, List, None, length, All, IfOk, IsTrue};
ghost use Rattle.netlist.specs.Circuit.{line_count};
ghost use Rattle.netlist.specs.LinkedPairs.{FitRules};
ghost use Rattle.netlist.specs.Paths.{IsPrefix, end_of};
ghost use Rattle.state_sets.specs.declared.state.StateSet.{StateSet};
ghost use Rattle.state_laws.specs.declared.split.Half.{Half};
ghost use Rattle.implication.specs.Scopes.{standing};
ghost use Rattle.implication.specs.Standing.{IsSupportTold};
ghost use Rattle.trees.specs.Algebras.{algebra_of};
ghost use Rattle.trees.specs.Spent.{IsOpen};
ghost use Rattle.cones.specs.KeptCones.{IsConeFor, IsConeAt};
ghost use Rattle.pair_judging.specs.Targets.{seen_target};
ghost use Rattle.refutation_check.specs.Blames.{IsBlamed, IsFailure};
ghost use Rattle.refutation_check.specs.TrialStates.{is_stale, AreTrialStates};
ghost use Rattle.refutation_check.specs.Trials.{IsTrialRoomFor, IsTrialRoomAt, AreLeastOf, AreLeastAmong, EachIsTest, EachFails, IsScopeInSupport, Shows};

use crate::blaming::{Failure, blame_sources, traces};
use crate::early::{fails_below, fails_early};
use crate::trial_states::TrialStates;
use cones::{Cone, FoundLines};
use implication::{Scope, Setting};
use netlist::Netlist;
use pair_judging::{Judgement, Target, failing_link, judge_steps, least};
use pd_base::{LineId, OutOfMemory, Rules};
use state_sets::{Algebra, State, StateSet};
use std::alloc::Global;

// Room for trials: the cone of one path's end at a time, the states of all lines, and whether the pair failed that was judged last. Then
// these lines are to blame, in the states in which they are.
#[derive(Drop)]
pub(crate) struct TrialRoom {
    pub(crate) cone: Cone,
    pub(crate) kept: TrialStates,
    pub(crate) blamed: FoundLines,
    pub(crate) failed: bool,
}

impl TrialRoom {
    // Room for trials on this netlist under these rules. It fails only where memory runs out.
    pub(crate) fn new<A: Algebra>(
        alloc: Global,
        net: &Netlist,
        rules: &Rules,
    ) -> Result<TrialRoom, OutOfMemory>
        requires chosen { A.algebra ≡ algebra_of rules.now }
        requires fit { FitRules net.now rules.now }
        ensures { IfOk result (IsTrialRoomFor A.algebra net.now rules.now) }
    {
        let kept = TrialStates::new::<A>(alloc, net)?;
        let cone = Cone::new(alloc, net, rules.links())?;
        let blamed = FoundLines::new(alloc, net.lines() as usize)?;
        Ok(TrialRoom {
            cone,
            kept,
            blamed,
            failed: false,
        })
    }
}

// Whether the trial closes of the node at which a scope stands that has no conflict. Where the scope does not tell all lines that are to
// blame, false tells nothing.
pub(crate) fn is_open<A: Algebra, S: Setting>(
    scope: &Scope<A, S>,
    target: &Target,
    room: &mut TrialRoom,
) -> bool
    requires prefix { IsPrefix (standing scope.now).net target.now.path.now }
    requires free { (standing scope.now).conflict ≡ None }
    requires room { IsTrialRoomAt A.algebra (standing scope.now).net (standing scope.now).rules (seen_target target.now) room.old }
    ensures room { IsTrialRoomAt A.algebra (standing scope.now).net (standing scope.now).rules (seen_target target.now) room.new }
    ensures open { (halves : List Half) → IsScopeInSupport A.algebra (seen_target target.now) halves (standing scope.now)
        → Shows (IsSupportTold (standing scope.now) (end_of (standing scope.now).net target.now.path.now)) result
        ((hull : List StateSet) × IsOpen (standing scope.now).net (standing scope.now).rules (seen_target target.now) halves hull) }
{
    // a netlist knows itself as a circuit
    let net = scope.net();
    let at_source = target.path.source().0 < net.sources();
    prove!(at_source);
    let labels = scope.labels();
    if fails_again::<A>(net, room, labels) {
        return scope.engine.tells_all(room.blamed.lines());
    }
    if fails_anew::<A>(
        net,
        labels,
        target,
        &room.cone,
        &mut room.kept,
        &mut room.blamed,
    ) {
        room.failed = true;
        return scope.engine.tells_all(room.blamed.lines());
    }
    room.failed = false;
    false
}

// Whether the pair that was judged last failed by lines of which the sources have the least states of these labels too.
fn fails_again<A: Algebra>(net: &Netlist, room: &TrialRoom, labels: &[StateSet]) -> bool
    requires labels { length labels.now ≡ line_count net.now }
    requires states { length room.now.kept.states.items ≡ line_count net.now }
    requires found { room.now.blamed.room ≡ line_count net.now }
    ensures failed { IsTrue result → IsTrue room.now.failed }
    ensures least { IsTrue result
        → AreLeastAmong A.algebra.count net.now room.now.blamed.lines labels.now room.now.kept.states.items }
{
    room.failed
        && are_least::<A>(
            net,
            room.blamed.lines(),
            labels,
            room.kept.states.as_slice(),
        )
}

// Whether each source among these lines is in the least state of its label.
fn are_least<A: Algebra>(
    net: &Netlist,
    lines: &[LineId],
    labels: &[StateSet],
    states: &[State],
) -> bool
    requires labels { All (λ line. line.0 < length labels.now) lines.now }
    requires states { All (λ line. line.0 < length states.now) lines.now }
    ensures { IsTrue result → AreLeastAmong A.algebra.count net.now lines.now labels.now states.now }
{
    for line in lines {
        let at = line.0 as usize;
        if line.0 < net.sources() && least::<A>(labels[at]) != states[at] {
            return false;
        }
    }
    true
}

// Whether the pairs fail that have at each source of a cone the least state of its label, and by which lines. Else they are tests of the
// rules.
fn fails_anew<A: Algebra>(
    net: &Netlist,
    labels: &[StateSet],
    target: &Target,
    cone: &Cone,
    kept: &mut TrialStates,
    blamed: &mut FoundLines,
) -> bool
    requires prefix { IsPrefix net.now target.now.path.now }
    requires labels { length labels.now ≡ line_count net.now }
    requires made { IsConeFor net.now cone.now }
    requires cone { IsConeAt net.now (end_of net.now target.now.path.now) cone.now }
    requires kept { AreTrialStates A.algebra net.now kept.old }
    requires room { blamed.old.room ≡ line_count net.now }
    ensures kept { AreTrialStates A.algebra net.now kept.new }
    ensures room { blamed.new.room ≡ blamed.old.room }
    ensures least { AreLeastOf A.algebra.count net.now cone.now.links (end_of net.now target.now.path.now) labels.now kept.new.states.items }
    ensures blamed { IsTrue result
        → IsBlamed A.algebra net.now cone.now.links (seen_target target.now) kept.new.states.items blamed.new.lines }
    ensures tests { result ≡ false → EachIsTest A.algebra net.now cone.now.links (seen_target target.now) kept.new.states.items }
{
    // a netlist knows itself as a circuit
    let _ = net.lines();
    kept.take_least::<A>(net, cone.sources(), labels);
    if fails_early::<A>(net, target, cone, kept, blamed) {
        return true;
    }
    let gates = cone.gates();
    kept.refresh::<A>(net, gates, gates.len());
    fails_late::<A>(net, target, cone, kept, blamed)
}

// The same for the pairs that have these states at the sources, where no gate of the cone is stale.
fn fails_late<A: Algebra>(
    net: &Netlist,
    target: &Target,
    cone: &Cone,
    kept: &TrialStates,
    blamed: &mut FoundLines,
) -> bool
    requires prefix { IsPrefix net.now target.now.path.now }
    requires made { IsConeFor net.now cone.now }
    requires cone { IsConeAt net.now (end_of net.now target.now.path.now) cone.now }
    requires kept { AreTrialStates A.algebra net.now kept.now }
    requires fresh { All (λ gate. is_stale kept.now gate.0 ≡ false) cone.now.gates }
    requires room { blamed.old.room ≡ line_count net.now }
    ensures room { blamed.new.room ≡ blamed.old.room }
    ensures blamed { IsTrue result
        → IsBlamed A.algebra net.now cone.now.links (seen_target target.now) kept.now.states.items blamed.new.lines }
    ensures tests { result ≡ false → EachIsTest A.algebra net.now cone.now.links (seen_target target.now) kept.now.states.items }
{
    // a netlist knows itself as a circuit
    let _ = net.lines();
    // the sides of the path come first: what they rest on is nearer than the lines of links
    if fails_below::<A>(net, target, u32::MAX, cone, kept, blamed) {
        return true;
    }
    let states = kept.states.as_slice();
    if let Some((source, line)) = failing_link::<A>(cone.links(), cone.sources(), states) {
        let failure = Failure {
            first: source,
            second: line,
        };
        blame::<A>(net, target, cone, kept, failure, blamed);
        return true;
    }
    match judge_steps::<A>(net, target, states) {
        Judgement::IsTest => false,
        Judgement::FailsAt(_, _) => {
            blame_sources(net, cone, blamed);
            true
        }
    }
}

// Puts the blame for a failure on the lines on which it rests, or on all sources of the cone where these cannot be traced.
fn blame<A: Algebra>(
    net: &Netlist,
    target: &Target,
    cone: &Cone,
    kept: &TrialStates,
    failure: Failure,
    blamed: &mut FoundLines,
)
    requires made { IsConeFor net.now cone.now }
    requires cone { IsConeAt net.now (end_of net.now target.now.path.now) cone.now }
    requires kept { AreTrialStates A.algebra net.now kept.now }
    requires failure { IsFailure A.algebra net.now cone.now.links (seen_target target.now) kept.now.states.items failure }
    requires each { EachFails A.algebra net.now cone.now.links (seen_target target.now) kept.now.states.items }
    requires room { blamed.old.room ≡ line_count net.now }
    ensures room { blamed.new.room ≡ blamed.old.room }
    ensures blamed { IsBlamed A.algebra net.now cone.now.links (seen_target target.now) kept.now.states.items blamed.new.lines }
{
    if traces::<A>(net, target, cone, kept, failure, blamed) {
        return;
    }
    blame_sources(net, cone, blamed);
}
