// What a gate makes of the sets of the lines that its pins read: the states that it has of choices of one state out of each set.
ghost use Rattle.std.specs.Prelude.{◌<◌, ◌∷◌, length, map, All};
ghost use Rattle.state_sets.specs.States.{IsWithin, AreWithin};
ghost use Rattle.state_sets.specs.Labellings.{label_at};
ghost use Rattle.hulls.specs.Sets.{Means};
ghost use Rattle.hulls.specs.Joins.{Folds};
ghost use Rattle.implication.specs.Begun.{IsImage};

use netlist::{GateKind, Op};
use pd_base::LineId;
use state_sets::{Algebra, StateSet};

// What a gate of this kind makes of the sets of these lines.
pub(crate) fn image<A: Algebra>(kind: GateKind, pins: &[LineId], labels: &[StateSet]) -> StateSet
    requires lines { All (λ line. line.0 < length labels.now) pins.now }
    requires within { AreWithin A.algebra.count labels.now }
    ensures within { IsWithin A.algebra.count result }
    ensures image { IsImage A.algebra kind (map (λ line. label_at labels.now line.0) pins.now) result }
{
    let joined = join_lines::<A>(kind.operation(), pins, labels);
    if kind.inverts() {
        A::invert_set(joined)
    } else {
        joined
    }
}

// What an operation makes of choices out of the sets of these lines.
fn join_lines<A: Algebra>(op: Op, lines: &[LineId], labels: &[StateSet]) -> StateSet
    requires lines { All (λ line. line.0 < length labels.now) lines.now }
    requires within { AreWithin A.algebra.count labels.now }
    ensures within { IsWithin A.algebra.count result }
    ensures folds { Means A.algebra.count result (Folds A.algebra op (map (λ line. label_at labels.now line.0) lines.now)) }
{
    let Some((first, others)) = lines.split_first() else {
        return StateSet::only(A::unit(op));
    };
    join_others::<A>(op, labels[first.0 as usize], others, labels)
}

// What an operation makes of choices out of a first set and the sets of these lines. The unit of the operation is left out, so that
// a gate of two pins takes one join.
fn join_others<A: Algebra>(
    op: Op,
    first: StateSet,
    others: &[LineId],
    labels: &[StateSet],
) -> StateSet
    requires first { IsWithin A.algebra.count first }
    requires lines { All (λ line. line.0 < length labels.now) others.now }
    requires within { AreWithin A.algebra.count labels.now }
    ensures within { IsWithin A.algebra.count result }
    ensures folds { Means A.algebra.count result
        (Folds A.algebra op (first ∷ map (λ line. label_at labels.now line.0) others.now)) }
{
    let mut joined = first;
    for line in others {
        joined = A::join_sets(op, joined, labels[line.0 as usize]);
    }
    joined
}
