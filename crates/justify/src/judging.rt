// Judging the pair that has the desk's states at the sources of the cone: by its states; or, under links, as one whose second vector the
// links make of its first values.
ghost use Rattle.std.specs.Prelude.{◌<◌, All, IfOk, IfSome, IfNone, IsTrue, length};
ghost use Rattle.netlist.specs.Paths.{IsPrefix};
ghost use Rattle.implication.specs.Scopes.{standing};
ghost use Rattle.pair_judging.specs.ConeStates.{AreStates, AreSourceStates};
ghost use Rattle.pair_judging.specs.Targets.{seen_target};
ghost use Rattle.justify.specs.Desks.{IsDesk, HasSameStates, AreInSupport};
ghost use Rattle.justify.specs.Tests.{IsFitTest};

use crate::desk::Desk;
use implication::{Scope, Setting};
use pair_judging::{Judgement, Target, judge, read_test};
use pd_base::{LineId, OutOfMemory, Pair};
use state_sets::{Algebra, State};
use std::alloc::Global;

// Judges the pair that has the desk's states at the sources of the cone. It is the answer if it is a test, and lines are liked to be
// as it has them from then on; else sources are blamed.
pub(crate) fn judge_states<A: Algebra, S: Setting>(
    alloc: Global,
    scope: &Scope<A, S>,
    target: &Target,
    desk: &mut Desk,
) -> Result<Option<Pair>, OutOfMemory>
    requires prefix { IsPrefix (standing scope.now).net target.now.path.now }
    requires desk { IsDesk A.algebra (standing scope.now).net (standing scope.now).rules target.now.path.now desk.old }
    requires sources { AreSourceStates A.algebra desk.old.cone.sources desk.old.states.items }
    ensures desk { IsDesk A.algebra (standing scope.now).net (standing scope.now).rules target.now.path.now desk.new }
    ensures kept { HasSameStates (standing scope.now).net desk.old desk.new }
    ensures test { IfOk result (λ found. IfSome found (IsFitTest (standing scope.now).net (standing scope.now).rules (seen_target target.now))) }
    ensures blamed { IfOk result (λ found. IfNone found
        (AreInSupport (standing scope.now).net (standing scope.now).rules target.now.path.now desk.new.blame.sources)) }
{
    // the path's end is a line of a circuit, as which a netlist knows itself
    let net = scope.net();
    let at_source = target.path.source().0 < net.sources();
    prove!(at_source);
    let judgement = judge::<A>(
        net,
        &desk.cone,
        scope.labels(),
        target,
        desk.states.as_mut_slice(),
    );
    match judgement {
        Judgement::IsTest => {
            let pair = read_test::<A>(alloc, net, &desk.cone, desk.states.as_slice())?;
            desk.keep::<A>();
            Ok(Some(pair))
        }
        Judgement::FailsAt(line, side) => {
            desk.blame.set_failure(net, scope.labels(), line, side);
            Ok(None)
        }
    }
}

// Judges the pair that has the desk's states at the sources of the cone, if a source may be in them.
pub(crate) fn judge_proposal<A: Algebra, S: Setting>(
    alloc: Global,
    scope: &Scope<A, S>,
    target: &Target,
    desk: &mut Desk,
) -> Result<Option<Pair>, OutOfMemory>
    requires prefix { IsPrefix (standing scope.now).net target.now.path.now }
    requires desk { IsDesk A.algebra (standing scope.now).net (standing scope.now).rules target.now.path.now desk.old }
    ensures desk { IsDesk A.algebra (standing scope.now).net (standing scope.now).rules target.now.path.now desk.new }
    ensures test { IfOk result (λ found. IfSome found (IsFitTest (standing scope.now).net (standing scope.now).rules (seen_target target.now))) }
{
    if !are_source_states::<A>(desk.cone.sources(), desk.states.as_slice()) {
        return Ok(None);
    }
    if desk.cone.links().pairs().is_empty() {
        judge_states(alloc, scope, target, desk)
    } else {
        judge_pair(alloc, scope, target, desk)
    }
}

// Judges the pair that has the desk's first values at the sources of the cone, and the second vector that the links make of them: only
// the fan-in of the path's end tells whether it is a test.
fn judge_pair<A: Algebra, S: Setting>(
    alloc: Global,
    scope: &Scope<A, S>,
    target: &Target,
    desk: &mut Desk,
) -> Result<Option<Pair>, OutOfMemory>
    requires prefix { IsPrefix (standing scope.now).net target.now.path.now }
    requires desk { IsDesk A.algebra (standing scope.now).net (standing scope.now).rules target.now.path.now desk.old }
    requires sources { AreSourceStates A.algebra desk.old.cone.sources desk.old.states.items }
    ensures desk { IsDesk A.algebra (standing scope.now).net (standing scope.now).rules target.now.path.now desk.new }
    ensures test { IfOk result (λ found. IfSome found (IsFitTest (standing scope.now).net (standing scope.now).rules (seen_target target.now))) }
{
    let net = scope.net();
    let pair = desk
        .judge
        .read_linked::<A>(alloc, net, &desk.cone, desk.states.as_slice())?;
    if !desk.judge.meets(net, target, &pair) {
        return Ok(None);
    }
    desk.like::<A>();
    Ok(Some(pair))
}

// Whether each of these sources is in a state that a source may have.
pub(crate) fn are_source_states<A: Algebra>(sources: &[LineId], states: &[State]) -> bool
    requires places { All (λ source. source.0 < length states.now) sources.now }
    requires states { AreStates A.algebra.count states.now }
    ensures { IsTrue result → AreSourceStates A.algebra sources.now states.now }
{
    let allowed = A::source_states();
    for source in sources {
        if !allowed.holds(states[source.0 as usize]) {
            return false;
        }
    }
    true
}
