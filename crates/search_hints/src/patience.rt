// How much is tried, as long as that pays: the most for each kind of tests; half as much, but not less than the least, after each search
// in which it was in vain, since what is searched next to it is often like it; and the most again after any other search.
use pd_base::Kind;

/// How much may be tried, for each kind of tests.
#[derive(Clone, Copy)]
pub(crate) struct Patience {
    most: u32,
    least: u32,
    robust: u32,
    nonrobust: u32,
}

impl Patience {
    // The most for each kind.
    pub(crate) fn new(most: u32, least: u32) -> Patience {
        Patience {
            most,
            least,
            robust: most,
            nonrobust: most,
        }
    }

    // How much may be tried for tests of a kind.
    pub(crate) fn limit(&self, kind: Kind) -> u32 {
        match kind {
            Kind::Robust => self.robust,
            Kind::Nonrobust => self.nonrobust,
        }
    }

    // Learns from a search for tests of a kind whether it was in vain.
    pub(crate) fn learn(&mut self, kind: Kind, was_in_vain: bool) {
        let next = if was_in_vain {
            self.halved(kind)
        } else {
            self.most
        };
        match kind {
            Kind::Robust => self.robust = next,
            Kind::Nonrobust => self.nonrobust = next,
        }
    }

    // Half of what may be tried for tests of a kind, but not less than the least.
    fn halved(&self, kind: Kind) -> u32 {
        let half = self.limit(kind) / 2;
        if half < self.least { self.least } else { half }
    }
}
