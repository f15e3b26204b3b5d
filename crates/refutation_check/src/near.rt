// A spent tree on an engine of near gates beside a judge's own. That tells fewer lines and narrows at far fewer gates, so each spent tree
// whose end it tells is walked on it first: what is right there is so on every engine. Where it doesn't show all, the judge's own walks
// the tree again.
ghost use Rattle.std.specs.Prelude.{◌≡◌, None, IfOk, IsTrue};
ghost use Rattle.netlist.specs.Paths.{IsPrefix};
ghost use Rattle.trees.specs.Faults.{IsRightInSpent};
ghost use Rattle.pair_judging.specs.Targets.{seen_target};
ghost use Rattle.refutation_check.specs.Answers.{TellsOfNodes, IsIdleOn};
ghost use Rattle.refutation_check.specs.Trials.{IsTrialRoomFor};

use crate::TreeCheck;
use crate::spent::spends;
use crate::trial::TrialRoom;
use crate::walk::Pending;
use implication::{Engine, Setting};
use pair_judging::{Target, end_of};
use pd_base::OutOfMemory;
use state_sets::Algebra;
use trees::Tree;

// Whether each node of a tree is as a tree asks that spent its budget, as far as such an engine shows it, on which no scope is open. False
// tells nothing: the engine may tell too little.
pub(crate) fn spends_near<A: Algebra, S: Setting>(
    near: &mut Engine<A, S>,
    pending: &mut Vec<Pending>,
    room: &mut TrialRoom,
    target: &Target,
    tree: &Tree,
) -> Result<bool, OutOfMemory>
    requires idle { near.old.beginning ≡ None }
    requires prefix { IsPrefix near.old.net target.now.path.now }
    requires room { IsTrialRoomFor A.algebra near.old.net near.old.rules room.old }
    ensures idle { IsIdleOn near.old near.new }
    ensures room { IsTrialRoomFor A.algebra near.old.net near.old.rules room.new }
    ensures right { IfOk result (λ right. IsTrue right
        → TellsOfNodes (IsRightInSpent near.old.net near.old.rules (seen_target target.now)) tree.now TreeCheck.Yes) }
{
    let net = near.net();
    // a netlist knows itself as a circuit
    let at_source = target.path.source().0 < net.sources();
    prove!(at_source);
    if !near.tells(end_of(net, target.path)) {
        return Ok(false);
    }
    let told = spends(near, pending, room, target, tree)?;
    Ok(told == TreeCheck::Yes)
}
