// Whether a tree refutes: what is asked of each node, on a scope that walks over it.
ghost use Rattle.std.specs.Prelude.{◌≡◌, ◌↔◌, [], List, None, All, IfOk, IsTrue};
ghost use Rattle.pd_base.specs.Target as seen;
ghost use Rattle.netlist.specs.Paths.{IsPrefix, end_of};
ghost use Rattle.state_laws.specs.declared.split.Half.{Half};
ghost use Rattle.implication.specs.Clients.{ExtendsStanding};
ghost use Rattle.implication.specs.Scopes.{IsSameScope, standing};
ghost use Rattle.implication.specs.Standing.{IsTold};
ghost use Rattle.implication.specs.declared.assumption.Origin.TheVariants.{Begun};
ghost use Rattle.trees.specs.Faults.{RefutesAtNode};
ghost use Rattle.implication.specs.Settings.{IsSameSetting};
ghost use Rattle.pair_judging.specs.Targets.{seen_target};
ghost use Rattle.refutation_check.specs.Walks.{IsScopeAt, IsToldAt, IsOnTold};
ghost use Rattle.refutation_check.specs.Answers.{TellsOfNodes, IsIdleOn};

use crate::TreeCheck;
use crate::root::begin_root;
use crate::splits::is_split_of;
use crate::walk::{Pending, pass};
use implication::{Engine, Scope, Setting};
use pair_judging::Target;
use pd_base::OutOfMemory;
use state_sets::Algebra;
use trees::{Node, Tree};

// Whether each node of a tree is as a refutation asks for a prefix, a transition and a kind of test, on an engine on which no scope is open
// and which tells the lines that the tree splits.
pub(crate) fn refutes<A: Algebra, S: Setting>(
    engine: &mut Engine<A, S>,
    pending: &mut Vec<Pending>,
    target: &Target,
    tree: &Tree,
) -> Result<TreeCheck, OutOfMemory>
    requires idle { engine.old.beginning ≡ None }
    requires prefix { IsPrefix engine.old.net target.now.path.now }
    requires told { IsTold engine.old (end_of engine.old.net target.now.path.now) }
    requires splits { All (IsToldAt engine.old) tree.now }
    ensures idle { IsIdleOn engine.old engine.new }
    ensures tells { IfOk result (TellsOfNodes (RefutesAtNode A.algebra engine.old.net engine.old.rules (seen_target target.now)) tree.now) }
{
    let mut scope = begin_root(engine, target);
    walk_refutation(&mut scope, pending, tree)
}

// The same on a scope that stands at the root. What was assumed there still is afterwards, and perhaps more, also where memory ran out.
pub(crate) fn walk_refutation<A: Algebra, S: Setting>(
    scope: &mut Scope<A, S>,
    pending: &mut Vec<Pending>,
    tree: &Tree,
) -> Result<TreeCheck, OutOfMemory>
    requires begun { scope.old.origin ≡ Begun }
    requires splits { All (IsToldAt (standing scope.old)) tree.now }
    ensures scope { IsSameScope scope.old scope.new }
    ensures setting { IsSameSetting (standing scope.old) (standing scope.new) }
    ensures extends { ExtendsStanding (standing scope.old) (standing scope.new) }
    ensures tells { (target : seen.Target) → IsScopeAt A.algebra target [] (standing scope.old)
        → IfOk result (TellsOfNodes (RefutesAtNode A.algebra (standing scope.old).net (standing scope.old).rules target) tree.now) }
{
    pending.clear();
    for (place, node) in tree.nodes().iter().enumerate() {
        if !refutes_at(scope, *node) {
            return Ok(TreeCheck::No(place as u32));
        }
        pass(scope, pending, *node)?;
    }
    Ok(TreeCheck::Yes)
}

// Whether a node is as a refutation asks.
fn refutes_at<A: Algebra, S: Setting>(scope: &Scope<A, S>, node: Node) -> bool
    ensures on { IsToldAt (standing scope.now) node → IsTrue result → IsOnTold (standing scope.now) node }
    ensures right { (target : seen.Target) (halves : List Half) → IsScopeAt A.algebra target halves (standing scope.now)
        → IsTrue result ↔ RefutesAtNode A.algebra (standing scope.now).net (standing scope.now).rules target halves node }
{
    match node {
        Node::Closed => scope.conflict().is_some(),
        Node::Waiting => false,
        Node::Split(split) => is_split_of(scope.net(), scope.rules(), split),
    }
}
