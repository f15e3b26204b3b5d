// The values of states under the first vector, as far as links ask for them: a source ends at the value with which the line begins to
// which it is linked.
use state_sets::{Algebra, State, StateSet, count_states};

// The states that may begin with 0, and those that may begin with 1.
#[derive(Clone, Copy)]
pub(crate) struct FirstValues {
    at_0: StateSet,
    at_1: StateSet,
}

impl FirstValues {
    // Those of a kind of states.
    pub(crate) fn new<A: Algebra>() -> FirstValues {
        FirstValues {
            at_0: beginning_at::<A>(false),
            at_1: beginning_at::<A>(true),
        }
    }

    // The states that may begin with a value.
    pub(crate) fn at(self, bit: bool) -> StateSet {
        if bit { self.at_1 } else { self.at_0 }
    }

    // The states that may begin as one of these does.
    pub(crate) fn spread(self, set: StateSet) -> StateSet {
        where_some(set, self.at_0, self.at_0).unite(where_some(set, self.at_1, self.at_1))
    }

    // Whether some of these states may begin with 0, and some with 1.
    pub(crate) fn has_both(self, set: StateSet) -> bool {
        set.intersect(self.at_0) != StateSet::EMPTY && set.intersect(self.at_1) != StateSet::EMPTY
    }

    // Whether the least of these states begins with 1.
    pub(crate) fn is_least_at_one(self, set: StateSet) -> bool {
        let least = StateSet(set.0 & set.0.wrapping_neg());
        least.intersect(self.at_0) == StateSet::EMPTY
    }

    // The states of a source that is linked to a line with these states.
    pub(crate) fn of_source<A: Algebra>(self, line: StateSet) -> StateSet {
        let at_0 = where_some(line, self.at_0, A::ending_at(false));
        at_0.unite(where_some(line, self.at_1, A::ending_at(true)))
    }

    // The states of a line to which a source with these states is linked.
    pub(crate) fn of_line<A: Algebra>(self, source: StateSet) -> StateSet {
        let at_0 = where_some(source, A::ending_at(false), self.at_0);
        at_0.unite(where_some(source, A::ending_at(true), self.at_1))
    }
}

// The states of a line to which a source may be linked that is steady at a value.
fn beginning_at<A: Algebra>(bit: bool) -> StateSet {
    let source = A::of(true, bit, bit);
    let mut found = StateSet::EMPTY;
    for number in 0..count_states::<A>() {
        if source.0 < count_states::<A>() && A::link(source, State(number)) {
            found = found.unite(StateSet::only(State(number)));
        }
    }
    found
}

// A set where another one has some of these states, and nothing where it has none.
fn where_some(set: StateSet, these: StateSet, then: StateSet) -> StateSet {
    if set.intersect(these) == StateSet::EMPTY {
        StateSet::EMPTY
    } else {
        then
    }
}

// The states with a last value that some of these have.
pub(crate) fn lasts_of<A: Algebra>(set: StateSet) -> StateSet {
    let at_0 = where_some(set, A::ending_at(false), A::ending_at(false));
    at_0.unite(where_some(set, A::ending_at(true), A::ending_at(true)))
}
