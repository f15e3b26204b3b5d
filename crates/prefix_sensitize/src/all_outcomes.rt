// What all searches for tests of listed paths found. The outcomes of a row are taken out when the verdicts on its path are given.
ghost use Rattle.std.specs.Prelude.{◌≡◌, ◌<◌, length, slice_set};
ghost use Rattle.prefix_sensitize.specs.Outcomes.{outcome_at};
ghost use Rattle.prefix_sensitize.specs.Searches.{fault_outcomes};

use crate::outcome::RowOutcome;
use runs::Proof;
use std::mem;

/// The outcomes of the searches for tests of one fault.
#[derive(Drop)]
pub(crate) struct FaultOutcomes {
    /// That of the robust search.
    pub(crate) robust: RowOutcome,
    /// That of the nonrobust search, which need not be run where the robust one gave a test.
    pub(crate) nonrobust: RowOutcome,
}

/// The outcomes for one transition, by the rows of the paths.
#[derive(Drop)]
pub(crate) struct BothOutcomes {
    /// Those of the robust searches.
    pub(crate) robust: Vec<RowOutcome>,
    /// Those of the nonrobust searches.
    pub(crate) nonrobust: Vec<RowOutcome>,
}

/// What the searches for one transition found.
#[derive(Drop)]
pub(crate) struct DirectionFindings {
    /// Their outcomes.
    pub(crate) outcomes: BothOutcomes,
    /// The proofs that outcomes name, in the order of finding. Those that stand first were found before, for the other transition.
    pub(crate) proofs: Vec<Proof>,
}

/// All that the searches found.
#[derive(Drop)]
pub(crate) struct AllOutcomes {
    /// How many splits each search might make.
    pub(crate) budget: u32,
    /// The outcomes for the rising transition at the sources.
    pub(crate) rises: BothOutcomes,
    /// Those for the falling one.
    pub(crate) falls: BothOutcomes,
    /// The proofs that outcomes name, in the order of finding.
    pub(crate) proofs: Vec<Proof>,
}

impl BothOutcomes {
    /// Takes the outcomes out of a row.
    pub(crate) fn take(&mut self, row: usize) -> FaultOutcomes
        requires robust { row < length self.old.robust.items }
        requires nonrobust { row < length self.old.nonrobust.items }
        ensures taken { result ≡ fault_outcomes self.old row }
        ensures robust { self.new.robust.items ≡ slice_set self.old.robust.items row RowOutcome.Unsearched }
        ensures nonrobust { self.new.nonrobust.items ≡ slice_set self.old.nonrobust.items row RowOutcome.Unsearched }
    {
        FaultOutcomes {
            robust: take(self.robust.as_mut_slice(), row),
            nonrobust: take(self.nonrobust.as_mut_slice(), row),
        }
    }
}

// Takes the outcome out of a row.
fn take(outcomes: &mut [RowOutcome], row: usize) -> RowOutcome
    requires { row < length outcomes.old }
    ensures taken { result ≡ outcome_at outcomes.old row }
    ensures others { outcomes.new ≡ slice_set outcomes.old row RowOutcome.Unsearched }
{
    mem::replace(&mut outcomes[row], RowOutcome::Unsearched)
}
