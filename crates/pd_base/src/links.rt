// Links between sources and lines.
ghost use Rattle.std.specs.Prelude.{◌≡◌, IfOk};

use crate::{Items, LineId, OutOfMemory};
use std::alloc::Global;

/// Pairs of a source and a line: the bit that the source has after the transition is the value of the line before it.
#[derive(Debug, Drop)]
pub struct Links {
    pairs: Items<(LineId, LineId)>,
}

impl Links {
    /// These pairs. It fails only where memory runs out.
    pub fn new(alloc: Global, pairs: &[(LineId, LineId)]) -> Result<Links, OutOfMemory>
        ensures { IfOk result (λ links. links.pairs ≡ pairs.now) }
    {
        Ok(Links {
            pairs: Items::new(Vec::from_slice(alloc, pairs)?),
        })
    }

    /// The pairs, in order.
    pub fn pairs(&self) -> &[(LineId, LineId)]
        ensures { result.now ≡ self.now.pairs }
    {
        self.pairs.as_slice()
    }
}
