// Items whose flags are set.
ghost use Rattle.std.specs.Prelude.{◌≡◌, IfOk, length};
ghost use Rattle.std.specs.List.{items_where_true};

use pd_base::{OutOfMemory, Test};
use std::alloc::Global;

/// Those of the tests whose flags are set, in order. The one error is that memory ran out, and then the tests are gone.
pub(crate) fn flagged(
    alloc: Global,
    tests: Vec<Test>,
    flags: &[bool],
) -> Result<Vec<Test>, OutOfMemory>
    requires { length flags.now ≡ length tests.items }
    ensures { IfOk result (λ kept. kept.items ≡ items_where_true flags.now tests.items) }
{
    let mut kept = Vec::new(alloc);
    let mut place = 0;
    for test in tests {
        if flags[place] {
            kept.push(test)?;
        }
        place += 1;
    }
    Ok(kept)
}
