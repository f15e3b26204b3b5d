// What a search ends with, and what it may end by with nothing found.
ghost use Rattle.std.specs.Prelude.{◌≡◌};
ghost use Rattle.justify.specs.Ends.{is_spent, refuting_splits};
ghost use Rattle.justify.specs.declared.answer.Unfinished.TheVariants.{NoMemory};

use pd_base::{OutOfMemory, Pair};
use trees::Tree;

/// What a search found for a path, a transition and a kind of test.
#[derive(Drop)]
pub enum Found {
    /// A pair of vectors that meets the conditions. A source outside the support of the path is 0 under the first one, and under the second
    /// it has what its link asks, or else 0.
    Test(Pair),
    /// A tree of cases that refutes them: no pair meets them. It has at most as many splits as the budget, all at sources.
    Refuted(Tree),
    /// A tree of cases that spent the budget: it has exactly so many splits, and a pair was tried and failed at each open node.
    Spent(Tree),
}

/// Why a search found nothing.
#[derive(Clone, Copy, Debug, PartialEq, Eq)]
pub enum Unfinished {
    /// Memory ran out.
    NoMemory(OutOfMemory),
    /// The engine doesn't tell all sources in the support of the path, and by those that it tells nothing was shown. A search on an engine
    /// that tells them all doesn't end so.
    Undecided,
}

impl From<OutOfMemory> for Unfinished {
    ghost from_gives = { λ refused unfinished. unfinished ≡ NoMemory refused };

    fn from(refused: OutOfMemory) -> Unfinished {
        Unfinished::NoMemory(refused)
    }
}

impl Found {
    // Whether it refutes the conditions.
    pub(crate) fn is_refuted(&self) -> bool {
        matches!(self, Found::Refuted(_))
    }

    // How many splits it took to refute the conditions, or 0 where it does not refute them.
    pub(crate) fn refuting_splits(&self) -> u32
        ensures { result ≡ refuting_splits self.now }
    {
        match self {
            Found::Refuted(tree) => tree.splits(),
            _ => 0,
        }
    }

    // Whether it is a tree that spent its splits.
    pub(crate) fn is_spent(&self) -> bool
        ensures { result ≡ is_spent self.now }
    {
        matches!(self, Found::Spent(_))
    }
}
