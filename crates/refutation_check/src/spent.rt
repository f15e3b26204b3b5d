// Whether a tree shows that a budget was spent: what is asked of each node, on a scope that walks over it. How many splits it has is asked
// in judge.rt.
ghost use Rattle.std.specs.Prelude.{◌≡◌, [], List, None, IfOk, IsTrue};
ghost use Rattle.netlist.specs.Paths.{IsPrefix, end_of};
ghost use Rattle.state_laws.specs.declared.split.Half.{Half};
ghost use Rattle.implication.specs.Scopes.{IsSameScope, standing};
ghost use Rattle.implication.specs.Standing.{IsSupportTold, IsTold};
ghost use Rattle.implication.specs.declared.assumption.Origin.TheVariants.{Begun};
ghost use Rattle.trees.specs.Faults.{IsRightInSpent};
ghost use Rattle.implication.specs.Settings.{IsSameSetting};
ghost use Rattle.pair_judging.specs.Targets.{seen_target};
ghost use Rattle.refutation_check.specs.Answers.{TellsIf, IsIdleOn};
ghost use Rattle.refutation_check.specs.Trials.{IsTrialRoomFor, IsTrialRoomAt, IsScopeInSupport, Shows};
ghost use Rattle.refutation_check.specs.Walks.{IsScopeAt, IsOnTold};

use crate::TreeCheck;
use crate::due::is_due;
use crate::root::begin_root;
use crate::trial::{TrialRoom, is_open};
use crate::walk::{Pending, pass};
use implication::{Engine, Scope, Setting};
use pair_judging::{Target, end_of};
use pd_base::OutOfMemory;
use state_sets::Algebra;
use trees::{Node, Tree};

// Whether each node of a tree is as a tree asks that spent its budget, on an engine on which no scope is open. Where that does not tell the
// whole support of the path's end, No tells nothing.
pub(crate) fn spends<A: Algebra, S: Setting>(
    engine: &mut Engine<A, S>,
    pending: &mut Vec<Pending>,
    room: &mut TrialRoom,
    target: &Target,
    tree: &Tree,
) -> Result<TreeCheck, OutOfMemory>
    requires idle { engine.old.beginning ≡ None }
    requires prefix { IsPrefix engine.old.net target.now.path.now }
    requires told { IsTold engine.old (end_of engine.old.net target.now.path.now) }
    requires room { IsTrialRoomFor A.algebra engine.old.net engine.old.rules room.old }
    ensures idle { IsIdleOn engine.old engine.new }
    ensures room { IsTrialRoomFor A.algebra engine.old.net engine.old.rules room.new }
    ensures tells { IfOk result (TellsIf (IsSupportTold engine.old (end_of engine.old.net target.now.path.now))
        (IsRightInSpent engine.old.net engine.old.rules (seen_target target.now)) tree.now) }
{
    let mut scope = begin_root(engine, target);
    let net = scope.net();
    room.cone.set_end(net, end_of(net, target.path));
    room.failed = false;
    walk_spent(&mut scope, pending, room, target, tree)
}

// The same on a scope that stands at the root.
fn walk_spent<A: Algebra, S: Setting>(
    scope: &mut Scope<A, S>,
    pending: &mut Vec<Pending>,
    room: &mut TrialRoom,
    target: &Target,
    tree: &Tree,
) -> Result<TreeCheck, OutOfMemory>
    requires begun { scope.old.origin ≡ Begun }
    requires prefix { IsPrefix (standing scope.old).net target.now.path.now }
    requires root { IsScopeAt A.algebra (seen_target target.now) [] (standing scope.old) }
    requires room { IsTrialRoomAt A.algebra (standing scope.old).net (standing scope.old).rules (seen_target target.now) room.old }
    ensures scope { IsSameScope scope.old scope.new }
    ensures setting { IsSameSetting (standing scope.old) (standing scope.new) }
    ensures room { IsTrialRoomAt A.algebra (standing scope.old).net (standing scope.old).rules (seen_target target.now) room.new }
    ensures tells { IfOk result (TellsIf (IsSupportTold (standing scope.old) (end_of (standing scope.old).net target.now.path.now))
        (IsRightInSpent (standing scope.old).net (standing scope.old).rules (seen_target target.now)) tree.now) }
{
    pending.clear();
    for (place, node) in tree.nodes().iter().enumerate() {
        if !is_right_at(scope, target, room, *node) {
            return Ok(TreeCheck::No(place as u32));
        }
        pass(scope, pending, *node)?;
    }
    Ok(TreeCheck::Yes)
}

// Whether a node is as a spent tree asks. False tells nothing where the engine does not tell the whole support of the path's end.
fn is_right_at<A: Algebra, S: Setting>(
    scope: &Scope<A, S>,
    target: &Target,
    room: &mut TrialRoom,
    node: Node,
) -> bool
    requires prefix { IsPrefix (standing scope.now).net target.now.path.now }
    requires room { IsTrialRoomAt A.algebra (standing scope.now).net (standing scope.now).rules (seen_target target.now) room.old }
    ensures room { IsTrialRoomAt A.algebra (standing scope.now).net (standing scope.now).rules (seen_target target.now) room.new }
    ensures told { IsTrue result → IsOnTold (standing scope.now) node }
    ensures right { (halves : List Half) → IsScopeInSupport A.algebra (seen_target target.now) halves (standing scope.now)
        → Shows (IsSupportTold (standing scope.now) (end_of (standing scope.now).net target.now.path.now)) result
        (IsRightInSpent (standing scope.now).net (standing scope.now).rules (seen_target target.now) halves node) }
{
    match node {
        Node::Closed => scope.conflict().is_some(),
        Node::Waiting => scope.conflict().is_none() && is_open(scope, target, room),
        Node::Split(split) => is_due(scope, target, room, split),
    }
}
