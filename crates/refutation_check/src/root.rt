// The root of a tree: a scope that begins at the end of the tree's prefix, with all pins of it at once.
ghost use Rattle.std.specs.Prelude.{◌≡◌, [], None};
ghost use Rattle.netlist.specs.Paths.{IsPrefix, end_of};
ghost use Rattle.implication.specs.declared.assumption.Origin.TheVariants.{Begun};
ghost use Rattle.implication.specs.Scopes.{standing};
ghost use Rattle.implication.specs.Settings.{IsSameSetting};
ghost use Rattle.implication.specs.Standing.{IsTold};
ghost use Rattle.pair_judging.specs.Targets.{seen_target};
ghost use Rattle.refutation_check.specs.Walks.{IsScopeAt};

use implication::{Engine, Scope, Setting};
use pair_judging::Target;
use state_sets::Algebra;

// Opens a scope at the root of the trees for a target. Where a conflict stands, the root of each of them closes.
pub(crate) fn begin_root<'e, A: Algebra, S: Setting>(
    engine: &'e mut Engine<A, S>,
    target: &Target,
) -> Scope<'e, A, S>
    requires idle { engine.old.beginning ≡ None }
    requires prefix { IsPrefix engine.old.net target.now.path.now }
    requires told { IsTold engine.old (end_of engine.old.net target.now.path.now) }
    ensures same_engine { result.engine.ghost_name ≡ engine.entry.ghost_name }
    ensures origin { result.origin ≡ Begun }
    ensures setting { IsSameSetting engine.old (standing result) }
    ensures root { IsScopeAt A.algebra (seen_target target.now) [] (standing result) }
{
    Scope::begin_at(engine, target.path, target.direction, target.kind)
}
