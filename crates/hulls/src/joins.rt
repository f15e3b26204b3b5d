// What choices out of a list of sets join to: from each place on, and with which states at each place.
ghost use Rattle.std.specs.Prelude.{◌≡◌, ◌<◌, ◌≤◌, ◌+◌, ◌⊎◌, ℕ, length, drop};
ghost use Rattle.state_sets.specs.States.{Has, IsWithin, AreWithin};
ghost use Rattle.hulls.specs.Sets.{Means, set_at};
ghost use Rattle.hulls.specs.Joins.{Folds, FoldsInto, Supports};

use state_sets::{Algebra, Op, StateSet};

// Fills in what choices out of the sets from each place on join to, the unit past the last.
pub(crate) fn join_suffixes<A: Algebra>(op: Op, sets: &[StateSet], suffixes: &mut [StateSet])
    requires sets { AreWithin A.algebra.count sets.now }
    requires places { length suffixes.old ≡ length sets.now + 1 }
    ensures within { AreWithin A.algebra.count suffixes.new }
    ensures folds { (from : ℕ) → from ≤ length sets.now
        → Means A.algebra.count (set_at suffixes.new from) (Folds A.algebra op (drop from sets.now)) }
{
    let mut from = sets.len();
    suffixes[from] = StateSet::only(A::unit(op));
    while from > 0 {
        from -= 1;
        suffixes[from] = A::join_sets(op, sets[from], suffixes[from + 1]);
    }
}

// Adds at each place the states that some choice has there which joins into the target. Gives the states of the target to which
// choices join.
pub(crate) fn support_each<A: Algebra>(
    op: Op,
    sets: &[StateSet],
    suffixes: &[StateSet],
    target: StateSet,
    kept: &mut [StateSet],
) -> StateSet
    requires sets { AreWithin A.algebra.count sets.now }
    requires suffixes_within { AreWithin A.algebra.count suffixes.now }
    requires suffixes { length suffixes.now ≡ length sets.now + 1 }
    requires kept { length kept.old ≡ length sets.now }
    requires target { IsWithin A.algebra.count target }
    requires folds { (from : ℕ) → from ≤ length sets.now
        → Means A.algebra.count (set_at suffixes.now from) (Folds A.algebra op (drop from sets.now)) }
    ensures each { (place : ℕ) → place < length sets.now → Means A.algebra.count (set_at kept.new place)
        (λ s. Has A.algebra.count (set_at kept.old place) s ⊎ Supports A.algebra op sets.now target place s) }
    ensures all { Means A.algebra.count result (FoldsInto A.algebra op sets.now target) }
{
    let mut before = StateSet::only(A::unit(op));
    for place in 0..sets.len() {
        let rest = A::join_sets(op, before, suffixes[place + 1]);
        let found = sets[place].intersect(A::supporting(op, rest, target));
        kept[place] = kept[place].unite(found);
        before = A::join_sets(op, before, sets[place]);
    }
    before.intersect(target)
}
