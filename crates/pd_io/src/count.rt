// How often calls failed. Each object that can fail has such counts.
ghost use Rattle.std.specs.Prelude.{◌≡◌, ◌+◌, ◌≤◌, min};
ghost use Rattle.pd_io.specs.Counts.{greatest_count};

/// A number of failed calls. It stops at 2^64 - 1.
#[derive(Drop)]
pub struct FailedCalls {
    count: u64,
    ghost within: { count ≤ greatest_count },
}

impl FailedCalls {
    /// No call failed yet.
    pub fn new() -> FailedCalls
        ensures { result.count ≡ 0 }
    {
        FailedCalls { count: 0 }
    }

    /// One more call failed.
    pub fn rise(&mut self)
        ensures { self.new.count ≡ min (self.old.count + 1) greatest_count }
    {
        self.count = self.count.saturating_add(1);
    }
}
