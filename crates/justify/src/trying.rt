// What is tried at a node: through the scope the source that is split next and those that closed the trial of the node above, in the least
// states that they have here, and where these do not close it those that were tried last, too; else the pair of the least states of the
// labels is judged, and where it fails the sources to blame for that are tried, and then all that are told. How sources are tried stands in
// trial.rt. What closes a trial is left at the desk.
ghost use Rattle.std.specs.Prelude.{◌≡◌, ◌<◌, length, All, IfOk, IfErr, IfSome, IfNone, IsTrue};
ghost use Rattle.netlist.specs.Circuit.{line_count};
ghost use Rattle.netlist.specs.Paths.{IsPrefix};
ghost use Rattle.justify.specs.Scoping.{SuitsSearch, TellsSupport, MayEndBy};
ghost use Rattle.implication.specs.Scopes.{IsSameScope, standing};
ghost use Rattle.implication.specs.Clients.{IsRestored};
ghost use Rattle.pair_judging.specs.Targets.{seen_target};
ghost use Rattle.implication.specs.NodeScopes.{StandsAtNode};
ghost use Rattle.justify.specs.Desks.{IsDesk, AreInSupport};
ghost use Rattle.justify.specs.Tests.{IsFitTest};
ghost use Rattle.justify.specs.Trying.{CanTry, HasLeastLabel, AreTriedIn, HasLeast, BlamesLeast, EndsAtNode, FailsByKept, GivesTest, IsTrialOf};

use crate::Unfinished;
use crate::closers::Closers;
use crate::desk::Desk;
use crate::halves::has_only;
use crate::judging::{are_source_states, judge_proposal, judge_states};
use crate::trial::{Tried, bring_forward, closes_at};
use implication::{Scope, Setting};
use pair_judging::{Target, least, read_test, take_least};
use pd_base::{LineId, OutOfMemory, Pair};
use state_sets::{Algebra, State};
use std::alloc::Global;
use std::mem;

// Tries the node at which the scope stands, of which the source of the next split is given: by that and what closed the trial above or was
// tried last; else judges the node's pair, and where it fails tries the sources to blame for that, and then all that are told. A test is
// the answer; else there is none, the node's trial has failed, and a conflict was counted. The scope is afterwards as before, also after an
// error; and the desk still serves.
pub(crate) fn try_node<A: Algebra, S: Setting>(
    alloc: Global,
    scope: &mut Scope<A, S>,
    target: &Target,
    desk: &mut Desk,
    above: &Option<Closers>,
    split: Option<LineId>,
) -> Result<Option<Pair>, Unfinished>
    requires suits { SuitsSearch A.algebra (seen_target target.now) (standing scope.old) }
    requires node { StandsAtNode A.algebra (seen_target target.now) (standing scope.old) }
    requires desk { IsDesk A.algebra (standing scope.old).net (standing scope.old).rules target.now.path.now desk.old }
    ensures desk { IsDesk A.algebra (standing scope.old).net (standing scope.old).rules target.now.path.now desk.new }
    ensures scope { IsSameScope scope.old scope.new }
    ensures restored { IsRestored (standing scope.old) (standing scope.new) }
    ensures answer { IfOk result (IsTrialOf A.algebra (seen_target target.now) (standing scope.old) (standing scope.new) desk.new.closers) }
    ensures unfinished { IfErr result (MayEndBy (seen_target target.now) (standing scope.old)) }
{
    let is_closed = closes_by_tried(scope, target, desk, above, split)?;
    if is_closed {
        return Ok(None);
    }
    match judge_least(alloc, scope, target, desk)? {
        Some(pair) => Ok(Some(pair)),
        None => try_blamed(alloc, scope, target, desk),
    }
}

// Whether the node's trial closes by the source of the next split and those that closed the trial of the node above, if these are kept, or
// else by these and those that were tried last: to judge a pair costs the whole cone.
fn closes_by_tried<A: Algebra, S: Setting>(
    scope: &mut Scope<A, S>,
    target: &Target,
    desk: &mut Desk,
    above: &Option<Closers>,
    split: Option<LineId>,
) -> Result<bool, OutOfMemory>
    requires suits { SuitsSearch A.algebra (seen_target target.now) (standing scope.old) }
    requires node { StandsAtNode A.algebra (seen_target target.now) (standing scope.old) }
    requires desk { IsDesk A.algebra (standing scope.old).net (standing scope.old).rules target.now.path.now desk.old }
    ensures desk { IsDesk A.algebra (standing scope.old).net (standing scope.old).rules target.now.path.now desk.new }
    ensures scope { IsSameScope scope.old scope.new }
    ensures restored { IsRestored (standing scope.old) (standing scope.new) }
    ensures failed { IfOk result (λ closes. IsTrue closes
        → FailsByKept A.algebra (seen_target target.now) (standing scope.old) (standing scope.new) desk.new.closers) }
{
    renew_closers(scope, target, desk, split, above)?;
    let is_closed = closes_by_few(scope, target, desk, above);
    if is_closed {
        return Ok(true);
    }
    renew_tried(scope, target, desk, split, above)?;
    Ok(closes_again(scope, target, desk))
}

// Whether the node's trial closes by the few sources that are renewed, where what closed the trial above is kept.
fn closes_by_few<A: Algebra, S: Setting>(
    scope: &mut Scope<A, S>,
    target: &Target,
    desk: &mut Desk,
    above: &Option<Closers>,
) -> bool
    requires suits { SuitsSearch A.algebra (seen_target target.now) (standing scope.old) }
    requires node { StandsAtNode A.algebra (seen_target target.now) (standing scope.old) }
    requires desk { IsDesk A.algebra (standing scope.old).net (standing scope.old).rules target.now.path.now desk.old }
    requires renewed { All (CanTry A.algebra (seen_target target.now) (standing scope.old)) desk.old.renewed.items }
    ensures kept { desk.new ≡ record desk.old { closers = desk.new.closers } }
    ensures scope { IsSameScope scope.old scope.new }
    ensures restored { IsRestored (standing scope.old) (standing scope.new) }
    ensures failed { IsTrue result → FailsByKept A.algebra (seen_target target.now) (standing scope.old) (standing scope.new) desk.new.closers }
{
    if above.is_none() {
        return false;
    }
    let place = closes_by(scope, target, desk.renewed.as_slice(), &mut desk.closers);
    place.is_some()
}

// Makes the list of what is renewed that of the sources that closed the trial above, if they are kept, each in the least state that it has
// here, and before them that of the next split, so that most often what closes the trial closes a half of it, too.
fn renew_closers<A: Algebra, S: Setting>(
    scope: &Scope<A, S>,
    target: &Target,
    desk: &mut Desk,
    split: Option<LineId>,
    above: &Option<Closers>,
) -> Result<(), OutOfMemory>
    requires suits { SuitsSearch A.algebra (seen_target target.now) (standing scope.now) }
    requires node { StandsAtNode A.algebra (seen_target target.now) (standing scope.now) }
    requires desk { IsDesk A.algebra (standing scope.now).net (standing scope.now).rules target.now.path.now desk.old }
    ensures desk { IsDesk A.algebra (standing scope.now).net (standing scope.now).rules target.now.path.now desk.new }
    ensures renewed { IfOk result (λ done. All (CanTry A.algebra (seen_target target.now) (standing scope.now)) desk.new.renewed.items) }
{
    desk.renewed.clear();
    if let Some(source) = split {
        renew(scope, target, desk, source)?;
    }
    let Some(kept) = above else {
        return Ok(());
    };
    for entry in kept.tried() {
        if Some(entry.source) != split {
            renew(scope, target, desk, entry.source)?;
        }
    }
    Ok(())
}

// Adds what was tried last to what is renewed, but for what stands there already.
fn renew_tried<A: Algebra, S: Setting>(
    scope: &Scope<A, S>,
    target: &Target,
    desk: &mut Desk,
    split: Option<LineId>,
    above: &Option<Closers>,
) -> Result<(), OutOfMemory>
    requires suits { SuitsSearch A.algebra (seen_target target.now) (standing scope.now) }
    requires node { StandsAtNode A.algebra (seen_target target.now) (standing scope.now) }
    requires desk { IsDesk A.algebra (standing scope.now).net (standing scope.now).rules target.now.path.now desk.old }
    requires renewed { All (CanTry A.algebra (seen_target target.now) (standing scope.now)) desk.old.renewed.items }
    ensures desk { IsDesk A.algebra (standing scope.now).net (standing scope.now).rules target.now.path.now desk.new }
    ensures renewed { IfOk result (λ done. All (CanTry A.algebra (seen_target target.now) (standing scope.now)) desk.new.renewed.items) }
{
    for place in 0..desk.tried.len() {
        renew_other(scope, target, desk, split, above, place)?;
    }
    Ok(())
}

// Adds what stands at a place of what was tried last, unless it was added before.
fn renew_other<A: Algebra, S: Setting>(
    scope: &Scope<A, S>,
    target: &Target,
    desk: &mut Desk,
    split: Option<LineId>,
    above: &Option<Closers>,
    place: usize,
) -> Result<(), OutOfMemory>
    requires suits { SuitsSearch A.algebra (seen_target target.now) (standing scope.now) }
    requires node { StandsAtNode A.algebra (seen_target target.now) (standing scope.now) }
    requires desk { IsDesk A.algebra (standing scope.now).net (standing scope.now).rules target.now.path.now desk.old }
    requires renewed { All (CanTry A.algebra (seen_target target.now) (standing scope.now)) desk.old.renewed.items }
    ensures desk { IsDesk A.algebra (standing scope.now).net (standing scope.now).rules target.now.path.now desk.new }
    ensures renewed { IfOk result (λ done. All (CanTry A.algebra (seen_target target.now) (standing scope.now)) desk.new.renewed.items) }
{
    let Some(entry) = desk.tried.get(place) else {
        return Ok(());
    };
    let source = entry.source;
    if Some(source) == split || is_kept(above, source) {
        return Ok(());
    }
    renew(scope, target, desk, source)
}

// Whether the source is one of those that closed the trial above, if these are kept.
fn is_kept(above: &Option<Closers>, source: LineId) -> bool {
    let Some(kept) = above else {
        return false;
    };
    for entry in kept.tried() {
        if entry.source == source {
            return true;
        }
    }
    false
}

// Adds a source in its least state to what is renewed, if it is one of the support that is told, and may be in other states, too.
fn renew<A: Algebra, S: Setting>(
    scope: &Scope<A, S>,
    target: &Target,
    desk: &mut Desk,
    source: LineId,
) -> Result<(), OutOfMemory>
    requires suits { SuitsSearch A.algebra (seen_target target.now) (standing scope.now) }
    requires node { StandsAtNode A.algebra (seen_target target.now) (standing scope.now) }
    requires desk { IsDesk A.algebra (standing scope.now).net (standing scope.now).rules target.now.path.now desk.old }
    requires renewed { All (CanTry A.algebra (seen_target target.now) (standing scope.now)) desk.old.renewed.items }
    ensures desk { IsDesk A.algebra (standing scope.now).net (standing scope.now).rules target.now.path.now desk.new }
    ensures renewed { IfOk result (λ done. All (CanTry A.algebra (seen_target target.now) (standing scope.now)) desk.new.renewed.items) }
{
    if source.0 >= scope.net().sources() {
        return Ok(());
    }
    let label = scope.label(source);
    let entry = Tried {
        source,
        state: least::<A>(label),
    };
    if !has_only::<A>(label, entry.state) && has_least(scope, target, desk.cone.marks(), entry) {
        desk.renewed.push(entry)?;
    }
    Ok(())
}

// Whether the node's trial closes by all that is renewed. Then this is what was tried last, and stands there with that first at which it
// closed.
fn closes_again<A: Algebra, S: Setting>(
    scope: &mut Scope<A, S>,
    target: &Target,
    desk: &mut Desk,
) -> bool
    requires suits { SuitsSearch A.algebra (seen_target target.now) (standing scope.old) }
    requires node { StandsAtNode A.algebra (seen_target target.now) (standing scope.old) }
    requires desk { IsDesk A.algebra (standing scope.old).net (standing scope.old).rules target.now.path.now desk.old }
    requires renewed { All (CanTry A.algebra (seen_target target.now) (standing scope.old)) desk.old.renewed.items }
    ensures desk { IsDesk A.algebra (standing scope.old).net (standing scope.old).rules target.now.path.now desk.new }
    ensures scope { IsSameScope scope.old scope.new }
    ensures restored { IsRestored (standing scope.old) (standing scope.new) }
    ensures failed { IsTrue result → FailsByKept A.algebra (seen_target target.now) (standing scope.old) (standing scope.new) desk.new.closers }
{
    match closes_by(scope, target, desk.renewed.as_slice(), &mut desk.closers) {
        Some(place) => {
            bring_forward(desk.renewed.as_mut_slice(), place);
            mem::swap(&mut desk.tried, &mut desk.renewed);
            true
        }
        None => false,
    }
}

// Whether the node's trial closes by these sources, and then the place among them of the one at which the conflict came: those up to that
// one are kept, if they are few.
fn closes_by<A: Algebra, S: Setting>(
    scope: &mut Scope<A, S>,
    target: &Target,
    tried: &[Tried],
    closers: &mut Option<Closers>,
) -> Option<usize>
    requires suits { SuitsSearch A.algebra (seen_target target.now) (standing scope.old) }
    requires node { StandsAtNode A.algebra (seen_target target.now) (standing scope.old) }
    requires tried { All (CanTry A.algebra (seen_target target.now) (standing scope.old)) tried.now }
    ensures scope { IsSameScope scope.old scope.new }
    ensures restored { IsRestored (standing scope.old) (standing scope.new) }
    ensures failed { IfSome result (λ _.
        FailsByKept A.algebra (seen_target target.now) (standing scope.old) (standing scope.new) closers.new) }
    ensures test { IfNone result
        (GivesTest A.algebra (standing scope.old).net (standing scope.old).rules (seen_target target.now) tried.now) }
    ensures ends { EndsAtNode A.algebra (seen_target target.now) (standing scope.old) (standing scope.new) tried.now result }
    ensures place { IfSome result (λ place. place < length tried.now) }
    ensures kept { IfNone result (closers.new ≡ closers.old) }
{
    match closes_at(scope, target, tried) {
        Some(place) => {
            *closers = Closers::of(tried, place + 1);
            Some(place)
        }
        None => None,
    }
}

// Judges the pair that has the least states of the labels at the sources of the cone, and leaves these states at the desk.
fn judge_least<A: Algebra, S: Setting>(
    alloc: Global,
    scope: &Scope<A, S>,
    target: &Target,
    desk: &mut Desk,
) -> Result<Option<Pair>, OutOfMemory>
    requires suits { SuitsSearch A.algebra (seen_target target.now) (standing scope.now) }
    requires node { StandsAtNode A.algebra (seen_target target.now) (standing scope.now) }
    requires desk { IsDesk A.algebra (standing scope.now).net (standing scope.now).rules target.now.path.now desk.old }
    ensures desk { IsDesk A.algebra (standing scope.now).net (standing scope.now).rules target.now.path.now desk.new }
    ensures least { HasLeast A.algebra (seen_target target.now) (standing scope.now) desk.new.states.items }
    ensures test { IfOk result (λ found. IfSome found (IsFitTest (standing scope.now).net (standing scope.now).rules (seen_target target.now))) }
    ensures blamed { IfOk result (λ found. IfNone found
        (AreInSupport (standing scope.now).net (standing scope.now).rules target.now.path.now desk.new.blame.sources)) }
{
    take_states(scope, target, desk);
    if are_source_states::<A>(desk.cone.sources(), desk.states.as_slice()) {
        judge_states(alloc, scope, target, desk)
    } else {
        blame_source(scope, target, desk);
        Ok(None)
    }
}

// Puts the sources of the cone into the least states of their labels.
fn take_states<A: Algebra, S: Setting>(scope: &Scope<A, S>, target: &Target, desk: &mut Desk)
    requires node { StandsAtNode A.algebra (seen_target target.now) (standing scope.now) }
    requires desk { IsDesk A.algebra (standing scope.now).net (standing scope.now).rules target.now.path.now desk.old }
    ensures desk { IsDesk A.algebra (standing scope.now).net (standing scope.now).rules target.now.path.now desk.new }
    ensures least { HasLeast A.algebra (seen_target target.now) (standing scope.now) desk.new.states.items }
{
    take_least::<A>(
        desk.cone.sources(),
        scope.labels(),
        desk.states.as_mut_slice(),
    );
}

// Blames the path's source, where no pair can be judged: a line that is not told may have states in its label that its hull lacks.
fn blame_source<A: Algebra, S: Setting>(scope: &Scope<A, S>, target: &Target, desk: &mut Desk)
    requires prefix { IsPrefix (standing scope.now).net target.now.path.now }
    requires desk { IsDesk A.algebra (standing scope.now).net (standing scope.now).rules target.now.path.now desk.old }
    ensures desk { IsDesk A.algebra (standing scope.now).net (standing scope.now).rules target.now.path.now desk.new }
    ensures kept { desk.new.states.items ≡ desk.old.states.items }
    ensures blamed { AreInSupport (standing scope.now).net (standing scope.now).rules target.now.path.now desk.new.blame.sources }
{
    desk.blame
        .set_failure(scope.net(), scope.labels(), target.path.source(), None);
}

// Tries the sources to blame for the failure of that pair, and then all that are told.
fn try_blamed<A: Algebra, S: Setting>(
    alloc: Global,
    scope: &mut Scope<A, S>,
    target: &Target,
    desk: &mut Desk,
) -> Result<Option<Pair>, Unfinished>
    requires suits { SuitsSearch A.algebra (seen_target target.now) (standing scope.old) }
    requires node { StandsAtNode A.algebra (seen_target target.now) (standing scope.old) }
    requires desk { IsDesk A.algebra (standing scope.old).net (standing scope.old).rules target.now.path.now desk.old }
    requires blames { BlamesLeast A.algebra (seen_target target.now) (standing scope.old) desk.old }
    ensures desk { IsDesk A.algebra (standing scope.old).net (standing scope.old).rules target.now.path.now desk.new }
    ensures scope { IsSameScope scope.old scope.new }
    ensures restored { IsRestored (standing scope.old) (standing scope.new) }
    ensures answer { IfOk result (IsTrialOf A.algebra (seen_target target.now) (standing scope.old) (standing scope.new) desk.new.closers) }
    ensures unfinished { IfErr result (MayEndBy (seen_target target.now) (standing scope.old)) }
{
    collect(
        scope,
        desk.blame.sources(),
        desk.states.as_slice(),
        &mut desk.tried,
    )?;
    if closes_by(scope, target, desk.tried.as_slice(), &mut desk.closers).is_some() {
        return Ok(None);
    }
    try_all(alloc, scope, target, desk)
}

// Tries all sources that are told. Where no conflict comes of that, the pair is a test if these are all; else the same first vector may
// still be that of one.
fn try_all<A: Algebra, S: Setting>(
    alloc: Global,
    scope: &mut Scope<A, S>,
    target: &Target,
    desk: &mut Desk,
) -> Result<Option<Pair>, Unfinished>
    requires suits { SuitsSearch A.algebra (seen_target target.now) (standing scope.old) }
    requires node { StandsAtNode A.algebra (seen_target target.now) (standing scope.old) }
    requires desk { IsDesk A.algebra (standing scope.old).net (standing scope.old).rules target.now.path.now desk.old }
    requires least { HasLeast A.algebra (seen_target target.now) (standing scope.old) desk.old.states.items }
    ensures desk { IsDesk A.algebra (standing scope.old).net (standing scope.old).rules target.now.path.now desk.new }
    ensures scope { IsSameScope scope.old scope.new }
    ensures restored { IsRestored (standing scope.old) (standing scope.new) }
    ensures answer { IfOk result (IsTrialOf A.algebra (seen_target target.now) (standing scope.old) (standing scope.new) desk.new.closers) }
    ensures unfinished { IfErr result (MayEndBy (seen_target target.now) (standing scope.old)) }
{
    // there are labels here
    scope.labels();
    collect(
        scope,
        desk.cone.sources(),
        desk.states.as_slice(),
        &mut desk.tried,
    )?;
    if closes_by(scope, target, desk.tried.as_slice(), &mut desk.closers).is_some() {
        return Ok(None);
    }
    if !scope.engine.tells_all(desk.cone.sources()) {
        let pair = judge_untold(alloc, scope, target, desk)?;
        return Ok(Some(pair));
    }
    let pair = read_test::<A>(alloc, scope.net(), &desk.cone, desk.states.as_slice())?;
    Ok(Some(pair))
}

// Judges the pair that the desk's states propose, where no conflict came of all sources that are told, and others are not. Where it is no
// test, nothing is known.
fn judge_untold<A: Algebra, S: Setting>(
    alloc: Global,
    scope: &Scope<A, S>,
    target: &Target,
    desk: &mut Desk,
) -> Result<Pair, Unfinished>
    requires prefix { IsPrefix (standing scope.now).net target.now.path.now }
    requires desk { IsDesk A.algebra (standing scope.now).net (standing scope.now).rules target.now.path.now desk.old }
    requires untold { ¬ TellsSupport (seen_target target.now) (standing scope.now) }
    ensures desk { IsDesk A.algebra (standing scope.now).net (standing scope.now).rules target.now.path.now desk.new }
    ensures test { IfOk result (IsFitTest (standing scope.now).net (standing scope.now).rules (seen_target target.now)) }
    ensures unfinished { IfErr result (MayEndBy (seen_target target.now) (standing scope.now)) }
{
    match judge_proposal(alloc, scope, target, desk)? {
        Some(pair) => {
            desk.keep::<A>();
            Ok(pair)
        }
        None => Err(Unfinished::Undecided),
    }
}

// Whether these sources can be tried here in the same states: they are in the support and told, and these are their least states here too.
pub(crate) fn can_try<A: Algebra, S: Setting>(
    scope: &Scope<A, S>,
    target: &Target,
    desk: &Desk,
    tried: &[Tried],
) -> bool
    requires suits { SuitsSearch A.algebra (seen_target target.now) (standing scope.now) }
    requires node { StandsAtNode A.algebra (seen_target target.now) (standing scope.now) }
    requires desk { IsDesk A.algebra (standing scope.now).net (standing scope.now).rules target.now.path.now desk.now }
    ensures { IsTrue result → All (CanTry A.algebra (seen_target target.now) (standing scope.now)) tried.now }
{
    for entry in tried {
        if !has_least(scope, target, desk.cone.marks(), *entry) {
            return false;
        }
    }
    true
}

// Whether the source is marked and told, and has this state as the least one of its label.
fn has_least<A: Algebra, S: Setting>(
    scope: &Scope<A, S>,
    target: &Target,
    marks: &[bool],
    entry: Tried,
) -> bool
    requires suits { SuitsSearch A.algebra (seen_target target.now) (standing scope.now) }
    requires node { StandsAtNode A.algebra (seen_target target.now) (standing scope.now) }
    requires marks { length marks.now ≡ line_count (standing scope.now).net }
    ensures { IsTrue result → HasLeastLabel A.algebra (standing scope.now) marks.now entry }
{
    let sources = scope.net().sources();
    if entry.source.0 >= sources {
        return false;
    }
    if !marks[entry.source.0 as usize] || !scope.engine.tells(entry.source) {
        return false;
    }
    least::<A>(scope.label(entry.source)) == entry.state
}

// Makes the list that of those of these sources that are told, each with its state.
fn collect<A: Algebra, S: Setting>(
    scope: &Scope<A, S>,
    sources: &[LineId],
    states: &[State],
    tried: &mut Vec<Tried>,
) -> Result<(), OutOfMemory>
    requires lines { All (λ source. source.0 < length states.now) sources.now }
    requires states { length states.now ≡ line_count (standing scope.now).net }
    ensures { IfOk result (λ done. AreTriedIn (standing scope.now) sources.now states.now tried.new.items) }
{
    tried.clear();
    for source in sources {
        if scope.engine.tells(*source) {
            tried.push(Tried {
                source: *source,
                state: states[source.0 as usize],
            })?;
        }
    }
    Ok(())
}
