// How many splits the first tree of a search may have, which goes by weights. Where it spends them and more are left of the budget, it is
// dropped, and a tree by backtrace has the whole budget. With links, where such a tree took many splits to refute the conditions of a
// robust test, weights mostly refute those of the next ones with fewer: then first trees have the whole budget themselves, until one
// spends it. A nonrobust search that spends its budget leaves its fault aborted; backtrace spends it less often, so its tree still follows
// there. A hint alone.
use crate::patience::Patience;
use pd_base::Kind;

// Without links: the most splits of a first tree, and the least to which halving brings them.
const MOST_SPLITS: u32 = 100;

const LEAST_SPLITS: u32 = 6;
// With links they are not halved: a tree by weights often refutes just after others spent theirs.
const LINKED_SPLITS: u32 = 50;
// A refutation by backtrace took many splits if it took more than these.
const MANY_SPLITS: u32 = 250;

/// How many splits first trees may have, for each kind of tests.
#[derive(Clone, Copy)]
pub(crate) struct TreeLimits {
    patience: Patience,
    has_links: bool,
    // of robust searches: whether first trees have the whole budget
    has_whole_budget: bool,
}

impl TreeLimits {
    // With links or without; at first no tree has the whole budget.
    pub(crate) fn new(has_links: bool) -> TreeLimits {
        let patience = if has_links {
            Patience::new(LINKED_SPLITS, LINKED_SPLITS)
        } else {
            Patience::new(MOST_SPLITS, LEAST_SPLITS)
        };
        TreeLimits {
            patience,
            has_links,
            has_whole_budget: false,
        }
    }

    // How many splits the first tree of a search for tests of a kind may have, as far as the budget goes.
    pub(crate) fn limit(&self, kind: Kind) -> u32 {
        if kind == Kind::Robust && self.has_whole_budget {
            return u32::MAX;
        }
        self.patience.limit(kind)
    }

    // Learns from a search for tests of a kind whether its first tree spent its splits.
    pub(crate) fn learn(&mut self, kind: Kind, is_spent: bool) {
        self.patience.learn(kind, is_spent);
        if kind == Kind::Robust && is_spent {
            self.has_whole_budget = false;
        }
    }

    // Learns from a search for tests of a kind with how many splits its tree by backtrace refuted the conditions, 0 where it did not.
    pub(crate) fn learn_backtrace(&mut self, kind: Kind, splits: u32) {
        if self.has_links && kind == Kind::Robust && splits > MANY_SPLITS {
            self.has_whole_budget = true;
        }
    }
}
