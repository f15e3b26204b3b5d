// The search for a test of a path whose pins are entered. Where the engine tells only a part of the path's support, it may end with nothing
// known; it then begins anew, on an engine of its own that tells the whole support of this path. There its scope begins at the path's end.
ghost use Rattle.std.specs.Prelude.{◌≡◌, ◌<◌, None, IfOk};
ghost use Rattle.netlist.specs.Circuit.{line_count};
ghost use Rattle.netlist.specs.Paths.{end_of};
ghost use Rattle.implication.specs.Clients.{IsRestored};
ghost use Rattle.implication.specs.Standing.{IsTold, FollowsLinks};
ghost use Rattle.implication.specs.Scopes.{IsSameScope, standing};
ghost use Rattle.justify.specs.Answers.{IsFound};
ghost use Rattle.justify.specs.Desks.{IsDeskFor};
ghost use Rattle.justify.specs.Scoping.{CanBegin};
ghost use Rattle.pair_judging.specs.Targets.{seen_target};
ghost use Rattle.prefix_sensitize.specs.Anew.{CanBeEntered};
ghost use Rattle.prefix_sensitize.specs.Outcomes.{target_for};
ghost use Rattle.prefix_sensitize.specs.Walks.{IsBudget};

use crate::outcome::Aim;
use implication::{Engine, RuledNetlist, Scope, Setting};
use justify::{Desk, Found, Unfinished, search_at};
use pair_judging::Target;
use pd_base::{LineId, OutOfMemory, Path};
use state_sets::Algebra;
use std::alloc::Global;

// Searches for a test of a path whose pins are entered, and if nothing is shown by what the engine tells, once more on one that tells the
// whole support of the path.
pub(crate) fn decide<A: Algebra, S: Setting>(
    alloc: Global,
    scope: &mut Scope<A, S>,
    desk: &mut Desk,
    path: &Path,
    aim: Aim,
) -> Result<Found, OutOfMemory>
    requires can { CanBegin (target_for aim path.now) aim.budget (standing scope.old) }
    requires enter { CanBeEntered (standing scope.old).net (standing scope.old).rules aim path.now }
    requires desk { IsDeskFor A.algebra (standing scope.old).net (standing scope.old).rules desk.old }
    ensures desk { IsDeskFor A.algebra (standing scope.old).net (standing scope.old).rules desk.new }
    ensures found { IfOk result (IsFound (standing scope.old).net (standing scope.old).rules (target_for aim path.now) aim.budget) }
    ensures scope { IsSameScope scope.old scope.new }
    ensures restored { IsRestored (standing scope.old) (standing scope.new) }
{
    let target = target_along(path, aim);
    match search_at(alloc, scope, desk, &target, aim.budget) {
        Ok(found) => Ok(found),
        Err(Unfinished::NoMemory(refused)) => Err(refused),
        Err(Unfinished::Undecided) => {
            let setting = RuledNetlist {
                net: scope.net(),
                rules: scope.rules(),
            };
            search_anew::<A>(alloc, setting, scope.last_line(), desk, path, aim)
        }
    }
}

// The target of a search for a test of this path.
fn target_along<'p>(path: &'p Path, aim: Aim) -> Target<'p>
    ensures { seen_target result ≡ target_for aim path.now }
{
    Target {
        path,
        direction: aim.direction,
        kind: aim.kind,
    }
}

// Searches for a test of the path that ends at this line, on an engine that tells its whole support.
fn search_anew<A: Algebra>(
    alloc: Global,
    setting: RuledNetlist,
    end: LineId,
    desk: &mut Desk,
    path: &Path,
    aim: Aim,
) -> Result<Found, OutOfMemory>
    requires enter { CanBeEntered setting.net.now setting.rules.now aim path.now }
    requires budget { IsBudget aim.budget }
    requires end { end.0 ≡ end_of setting.net.now path.now }
    requires line { end.0 < line_count setting.net.now }
    requires desk { IsDeskFor A.algebra setting.net.now setting.rules.now desk.old }
    ensures desk { IsDeskFor A.algebra setting.entry.net.now setting.entry.rules.now desk.new }
    ensures found { IfOk result (IsFound setting.entry.net.now setting.entry.rules.now (target_for aim path.now) aim.budget) }
{
    let ends = [end];
    let mut engine: Engine<A, RuledNetlist> = Engine::within(alloc, setting, &ends)?;
    let found = search_begun(alloc, &mut engine, desk, path, aim);
    // a call ends it, so that its many parts needn't be ended in this function's proof
    drop(engine);
    found
}

// Begins a scope at the path's end, with all its pins at once, and searches there. No pin is entered, and none is counted again.
fn search_begun<A: Algebra, S: Setting>(
    alloc: Global,
    engine: &mut Engine<A, S>,
    desk: &mut Desk,
    path: &Path,
    aim: Aim,
) -> Result<Found, OutOfMemory>
    requires idle { engine.old.beginning ≡ None }
    requires told { IsTold engine.old (end_of engine.old.net path.now) }
    requires follows { FollowsLinks engine.old.ends }
    requires enter { CanBeEntered engine.old.net engine.old.rules aim path.now }
    requires budget { IsBudget aim.budget }
    requires desk { IsDeskFor A.algebra engine.old.net engine.old.rules desk.old }
    ensures desk { IsDeskFor A.algebra engine.old.net engine.old.rules desk.new }
    ensures found { IfOk result (IsFound engine.old.net engine.old.rules (target_for aim path.now) aim.budget) }
{
    let mut scope = Scope::begin_at(engine, path, aim.direction, aim.kind);
    // no start of a prefix of the path closes
    if scope.conflict().is_some() {
        unreachable!()
    }
    search_told(alloc, &mut scope, desk, path, aim)
}

// Searches for a test of the path at whose end the scope stands, where the engine tells the path's whole support.
fn search_told<A: Algebra, S: Setting>(
    alloc: Global,
    scope: &mut Scope<A, S>,
    desk: &mut Desk,
    path: &Path,
    aim: Aim,
) -> Result<Found, OutOfMemory>
    requires can { CanBegin (target_for aim path.now) aim.budget (standing scope.old) }
    requires told { IsTold (standing scope.old) (end_of (standing scope.old).net path.now) }
    requires follows { FollowsLinks (standing scope.old).ends }
    requires desk { IsDeskFor A.algebra (standing scope.old).net (standing scope.old).rules desk.old }
    ensures desk { IsDeskFor A.algebra (standing scope.old).net (standing scope.old).rules desk.new }
    ensures found { IfOk result (IsFound (standing scope.old).net (standing scope.old).rules (target_for aim path.now) aim.budget) }
{
    let target = target_along(path, aim);
    match search_at(alloc, scope, desk, &target, aim.budget) {
        Ok(found) => Ok(found),
        Err(Unfinished::NoMemory(refused)) => Err(refused),
        // all sources of the support are told
        Err(Unfinished::Undecided) => unreachable!(),
    }
}
