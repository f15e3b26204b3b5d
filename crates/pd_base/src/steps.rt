// A counter of steps that a caller hands down, so that a contract can bound how many steps a call takes. The call that
// ticks says what one step is.
ghost use Rattle.std.specs.Prelude.{◌≡◌, ◌<◌, ◌+◌};

use std::marker::Model;

/// How many steps were taken. Contracts see the number.
///
/// A counter is made from a mark, so code that is generic in `L` and has no value of it can make no counter of its own: it
/// counts on the one that it was given.
#[derive(Drop)]
pub struct Steps<L> {
    mark: L,
    count: u64,
}

impl<L> Model for Steps<L> {
    ghost use Rattle.std.specs.Prelude.{ℕ};

    ghost Value = { ℕ };

    ghost view = { λ s. s.count };
}

impl<L> Steps<L> {
    /// A counter that stands at 0.
    pub fn start(mark: L) -> Steps<L>
        ensures { result ≡ 0 }
    {
        Steps { mark, count: 0 }
    }

    /// Counts one step.
    pub fn tick(&mut self)
        requires { self.old < u64.MAX }
        ensures { self.new ≡ self.old + 1 }
    {
        self.count += 1;
    }

    /// The number of steps so far.
    pub fn count(&self) -> u64
        ensures { result ≡ self.now }
    {
        self.count
    }
}
