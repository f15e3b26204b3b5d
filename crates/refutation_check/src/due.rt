// What a spent tree asks of a split: that it is due. Such trees split at sources alone.
ghost use Rattle.std.specs.Prelude.{◌<◌, List, IsTrue};
ghost use Rattle.netlist.specs.Circuit.{source_count};
ghost use Rattle.netlist.specs.Paths.{IsPrefix, end_of};
ghost use Rattle.state_laws.specs.declared.split.Half.{Half};
ghost use Rattle.implication.specs.Scopes.{standing};
ghost use Rattle.implication.specs.Standing.{IsSupportTold, IsTold};
ghost use Rattle.trees.specs.Spent.{IsDue};
ghost use Rattle.pair_judging.specs.Targets.{seen_target};
ghost use Rattle.refutation_check.specs.Trials.{IsTrialRoomAt, IsScopeInSupport, Shows};

use crate::halves::has_both_halves;
use crate::splits::is_source_kind;
use crate::trial::{TrialRoom, is_open};
use implication::{Scope, Setting};
use pair_judging::Target;
use state_laws::Split;
use state_sets::Algebra;

// Whether a split is due at the node at which the scope stands. Its line and its kind are tried before a label is looked up. Where the scope
// does not tell its line, nor all lines that are to blame for a trial that fails, false tells nothing.
pub(crate) fn is_due<A: Algebra, S: Setting>(
    scope: &Scope<A, S>,
    target: &Target,
    room: &mut TrialRoom,
    split: Split,
) -> bool
    requires prefix { IsPrefix (standing scope.now).net target.now.path.now }
    requires room { IsTrialRoomAt A.algebra (standing scope.now).net (standing scope.now).rules (seen_target target.now) room.old }
    ensures room { IsTrialRoomAt A.algebra (standing scope.now).net (standing scope.now).rules (seen_target target.now) room.new }
    ensures told { IsTrue result → (split.line.0 < source_count (standing scope.now).net) × IsTold (standing scope.now) split.line.0 }
    ensures due { (halves : List Half) → IsScopeInSupport A.algebra (seen_target target.now) halves (standing scope.now)
        → Shows (IsSupportTold (standing scope.now) (end_of (standing scope.now).net target.now.path.now)) result
        (IsDue (standing scope.now).net (standing scope.now).rules (seen_target target.now) halves split) }
{
    let Split { line, kind } = split;
    if line.0 >= scope.net().sources() || !room.cone.marks()[line.0 as usize] {
        return false;
    }
    if !is_source_kind(kind) {
        return false;
    }
    if !scope.engine.tells(line) {
        return false;
    }
    if scope.conflict().is_some() {
        return false;
    }
    if !has_both_halves::<A>(scope.label(line), kind) {
        return false;
    }
    is_open(scope, target, room)
}
