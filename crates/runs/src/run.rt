// A run: what the three files of the program spell together.
use pd_base::{Direction, Items, Kind, Path, Rules, Test};
use trees::Tree;

/// What was found for one path and one direction. Tests and proofs are named by their numbers in the run, from 1.
#[derive(Clone, Copy, Debug, PartialEq, Eq)]
pub enum Verdict {
    /// A robust test was found.
    Robust {
        /// The number of that test.
        test: u32,
    },
    /// A test was found that is nonrobust only.
    Nonrobust {
        /// The number of that test.
        test: u32,
        /// The number of the proof that no robust test was found: a refutation, or a spent budget.
        proof: u32,
    },
    /// No pair of vectors meets even the nonrobust conditions.
    Untestable {
        /// The number of the proof that refutes them.
        proof: u32,
    },
    /// The budget was spent before a nonrobust test was found.
    Aborted {
        /// The number of the proof that no robust test was found: a refutation, or a spent budget.
        robust: u32,
        /// The number of the proof that the search for a nonrobust test spent its budget.
        nonrobust: u32,
    },
}

/// A path of the list, with one verdict per direction.
#[derive(Drop)]
pub struct ListedPath {
    /// The path.
    pub path: Path,
    /// Its length, in delay units.
    pub length: u64,
    /// The verdict for the rising transition at the source.
    pub rise: Verdict,
    /// The verdict for the falling one.
    pub fall: Verdict,
}

/// A tree of cases for a prefix of a listed path: a refutation, or a record of how a budget was spent.
#[derive(Drop)]
pub struct Proof {
    /// Whether the tree shows that the budget was spent. Otherwise it is a refutation.
    pub spent: bool,
    /// The conditions that the tree speaks of.
    pub kind: Kind,
    /// The transition at the source.
    pub dir: Direction,
    /// The number of the listed path, from 1.
    pub path: u32,
    /// How many steps of that path the prefix has, counted from the source.
    pub steps: u32,
    /// The cases.
    pub tree: Tree,
}

/// The listed paths, the tests and the proofs, each numbered from 1 in the order of its list. The type binds none
/// of them to another: what they promise is said by the call that makes the run.
#[derive(Drop)]
pub struct Run {
    /// The rules under which tests were looked for, and under which the proofs are judged.
    pub rules: Rules,
    /// The paths, the longest first.
    pub paths: Items<ListedPath>,
    /// The tests.
    pub tests: Items<Test>,
    /// The proofs.
    pub proofs: Items<Proof>,
}
