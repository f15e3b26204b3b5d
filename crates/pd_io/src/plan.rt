// Which calls of one method are to fail. `MemoryFiles` has a plan for each method, `MemorySink` one for its writes.
ghost use Rattle.std.specs.Prelude.{◌≡◌, OnOk, OnErr};
ghost use Rattle.pd_io.specs.Plan.{plan_of, empty_plan, fails_next, plan_after_call, plan_with};

use pd_base::OutOfMemory;
use std::alloc::Global;

/// How often a method was called, and the numbers of the calls that are to fail, from 1.
#[derive(Drop)]
pub(crate) struct Plan {
    calls: u64,
    failing: Vec<u64>,
}

impl Plan {
    /// No call was made, and none is to fail.
    pub(crate) fn new(alloc: Global) -> Plan
        ensures { plan_of result ≡ empty_plan }
    {
        Plan {
            calls: 0,
            failing: Vec::new(alloc),
        }
    }

    /// Plans that the call of this number is to fail. If memory runs out, the plan is as it was.
    pub(crate) fn fail(&mut self, nth: u64) -> Result<(), OutOfMemory>
        ensures ok { OnOk result (plan_of self.new ≡ plan_with (plan_of self.old) nth) }
        ensures err { OnErr result (plan_of self.new ≡ plan_of self.old) }
    {
        self.failing.push(nth)?;
        Ok(())
    }

    /// Counts one more call, and says whether it is to fail.
    pub(crate) fn next(&mut self) -> bool
        ensures fails { result ≡ fails_next (plan_of self.old) }
        ensures counted { plan_of self.new ≡ plan_after_call (plan_of self.old) }
    {
        self.calls = self.calls.saturating_add(1);
        self.failing.as_slice().contains(&self.calls)
    }
}
