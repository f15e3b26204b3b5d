// The sources by which the trial of a node closed, in the states tried, if they are few. The trials of the nodes below close by them too,
// where these are still the least states of their sources, and need not be gone through again; else they are tried there first. And a half
// closes by them where they have no other states. How a trial goes stands in trial.rt.
ghost use Rattle.std.specs.Prelude.{◌≡◌, ◌≤◌, length, take, IfSome};
ghost use Rattle.justify.specs.Closers.{kept_of};

use crate::trial::Tried;
use pd_base::LineId;
use state_sets::State;

// Most trials close by fewer sources. Where more are needed none are kept, and the trials of the nodes below are gone through.
const MOST_KEPT: usize = 8;

/// A few sources in the states tried, by which a trial closed.
#[derive(Clone, Copy)]
pub(crate) struct Closers {
    tried: [Tried; MOST_KEPT],
    count: usize,
}

impl Closers {
    // So many of these, from the first one on, if they are few.
    pub(crate) fn of(tried: &[Tried], count: usize) -> Option<Closers>
        requires { count ≤ length tried.now }
        ensures { IfSome result (λ closers. kept_of closers ≡ take count tried.now) }
    {
        if count > MOST_KEPT {
            return None;
        }
        let none = Tried {
            source: LineId(0),
            state: State(0),
        };
        let mut kept = [none; MOST_KEPT];
        kept[..count].copy_from_slice(&tried[..count]);
        Some(Closers { tried: kept, count })
    }

    // These sources.
    pub(crate) fn tried(&self) -> &[Tried]
        ensures { result.now ≡ kept_of self.now }
    {
        if self.count < MOST_KEPT {
            &self.tried[..self.count]
        } else {
            &self.tried
        }
    }
}
