// A fault of a run, as it is judged.
use pd_base::{Direction, Path};
use runs::Verdict;

// The listed path of this number, a transition at its source, the verdict on it, and for each kind of test the refutation of the least
// number that applies, if one does.
#[derive(Clone, Copy)]
pub(crate) struct Fault<'p> {
    pub(crate) number: u32,
    pub(crate) path: &'p Path,
    pub(crate) direction: Direction,
    pub(crate) verdict: Verdict,
    pub(crate) robust: Option<u32>,
    pub(crate) nonrobust: Option<u32>,
}
