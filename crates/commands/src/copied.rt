// A copy of a name of the netlist, for a refusal, which owns what its line takes.
ghost use Rattle.std.specs.Prelude.{◌≡◌, IfOk};

use pd_base::{Items, OutOfMemory};
use std::alloc::Global;

/// A copy of this name. The one error is that memory ran out.
pub(crate) fn copied(alloc: Global, name: &[u8]) -> Result<Items<u8>, OutOfMemory>
    ensures { IfOk result (λ copy. copy ≡ name.now) }
{
    Ok(Items::new(Vec::from_slice(alloc, name)?))
}
