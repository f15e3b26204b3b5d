// How a walk over a tree goes in preorder on a scope: down into the first half of a split, and behind a leaf round to the second half
// that was put off last. The mark of a split's node leads back to what was assumed there, so a node costs what it changes. Where the
// assumptions have come upon a conflict, it stays until the walk goes back to a node above it. What the nodes have to be stands in
// refutation.rt and spent.rt.
ghost use Rattle.std.specs.Prelude.{◌≡◌, ◌<◌, ◌∷◌, ◌++◌, false, [], List, OnOk};
ghost use Rattle.pd_base.specs.Target.{Target};
ghost use Rattle.netlist.specs.Circuit.{line_count};
ghost use Rattle.state_laws.specs.declared.split.Half.{Half};
ghost use Rattle.state_laws.specs.Halves.{half_of};
ghost use Rattle.implication.specs.Clients.{ExtendsStanding};
ghost use Rattle.implication.specs.Standing.{IsTold};
ghost use Rattle.implication.specs.Scopes.{IsSameScope, standing};
ghost use Rattle.implication.specs.declared.assumption.Origin.TheVariants.{Begun};
ghost use Rattle.implication.specs.Settings.{IsSameSetting};
ghost use Rattle.refutation_check.specs.Walks.{IsScopeAt, IsWalk, KeepsRoot, IsOnTold, GoesRound, GoesDown, PassesOn};

use hulls::half_states;
use implication::{Scope, ScopeMark, Setting};
use pd_base::OutOfMemory;
use state_laws::{Half, Split};
use state_sets::Algebra;
use trees::Node;

// A second half that the walk has put off, and the mark of the node above it.
#[derive(Clone, Copy)]
pub(crate) struct Pending {
    pub(crate) half: Half,
    pub(crate) mark: ScopeMark,
}

// Goes on behind a node: down into the first half of a split, or round behind a leaf.
pub(crate) fn pass<A: Algebra, S: Setting>(
    scope: &mut Scope<A, S>,
    pending: &mut Vec<Pending>,
    node: Node,
) -> Result<(), OutOfMemory>
    requires begun { scope.old.origin ≡ Begun }
    requires walk { IsWalk (standing scope.old) pending.old.items }
    requires split { IsOnTold (standing scope.old) node }
    ensures scope { IsSameScope scope.old scope.new }
    ensures setting { IsSameSetting (standing scope.old) (standing scope.new) }
    ensures root { KeepsRoot (standing scope.old) pending.old.items (standing scope.new) pending.new.items }
    ensures passes { OnOk result (PassesOn A.algebra node (standing scope.old) pending.old.items (standing scope.new) pending.new.items) }
{
    match node {
        Node::Closed | Node::Waiting => {
            turn(scope, pending);
            Ok(())
        }
        Node::Split(split) => go_down(scope, pending, split),
    }
}

// Goes on behind a leaf: back to the node of the split whose second half was put off last, and down into that half. Where there is none,
// the tree is at its end.
fn turn<A: Algebra, S: Setting>(scope: &mut Scope<A, S>, pending: &mut Vec<Pending>)
    requires begun { scope.old.origin ≡ Begun }
    requires walk { IsWalk (standing scope.old) pending.old.items }
    ensures scope { IsSameScope scope.old scope.new }
    ensures setting { IsSameSetting (standing scope.old) (standing scope.new) }
    ensures root { KeepsRoot (standing scope.old) pending.old.items (standing scope.new) pending.new.items }
    ensures goes { GoesRound A.algebra (standing scope.old) pending.old.items (standing scope.new) pending.new.items }
{
    if let Some(next) = pending.pop() {
        scope.back_to(next.mark);
        assume_half(scope, next.half);
    }
}

// Goes down into the first half of a split, and puts the second one off.
fn go_down<A: Algebra, S: Setting>(
    scope: &mut Scope<A, S>,
    pending: &mut Vec<Pending>,
    split: Split,
) -> Result<(), OutOfMemory>
    requires line { split.line.0 < line_count (standing scope.old).net }
    requires told { IsTold (standing scope.old) split.line.0 }
    ensures scope { IsSameScope scope.old scope.new }
    ensures setting { IsSameSetting (standing scope.old) (standing scope.new) }
    ensures root { KeepsRoot (standing scope.old) pending.old.items (standing scope.new) pending.new.items }
    ensures goes { OnOk result (GoesDown A.algebra (half_of split false)
        (standing scope.old) pending.old.items (standing scope.new) pending.new.items) }
{
    let mark = scope.mark();
    let half = Half {
        split,
        second: true,
    };
    pending.push(Pending { half, mark })?;
    assume_half(
        scope,
        Half {
            split,
            second: false,
        },
    );
    Ok(())
}

// Assumes of the line of a half that it is in a state of that half. Where a conflict comes, the scope keeps it.
pub(crate) fn assume_half<A: Algebra, S: Setting>(scope: &mut Scope<A, S>, half: Half)
    requires line { half.split.line.0 < line_count (standing scope.old).net }
    requires told { IsTold (standing scope.old) half.split.line.0 }
    ensures scope { IsSameScope scope.old scope.new }
    ensures extends { ExtendsStanding (standing scope.old) (standing scope.new) }
    ensures below { (target : Target) (halves : List Half) → IsScopeAt A.algebra target halves (standing scope.old)
        → IsScopeAt A.algebra target (halves ++ half ∷ []) (standing scope.new) }
{
    let states = half_states::<A>(half.split.kind, half.second);
    let _ = scope.assume(half.split.line, states);
}
