// What a search is for.
use pair_judging::Target;

/// By what the cases of a tree are split: first the source on which past conflicts rest most, or what is open and what closed trials.
#[derive(Clone, Copy, PartialEq, Eq)]
pub(crate) enum Splitting {
    ByWeight,
    ByBacktrace,
}

/// A target, and how many splits of the cases a tree for it may have, and by what.
#[derive(Clone, Copy)]
pub(crate) struct Task<'p> {
    pub(crate) target: Target<'p>,
    pub(crate) budget: u32,
    pub(crate) splitting: Splitting,
}
