// A path through a circuit: where it begins, and the pins that it goes through. The steps are a plain vector and no container of the kit:
// this type is mentioned nearly everywhere, and each library that mentions such a container writes its statements again.
ghost use Rattle.std.specs.Prelude.{◌≡◌, IfOk};

use crate::{LineId, OutOfMemory, PinRef};
use std::alloc::Global;
use std::marker::Model;

/// A source and the steps behind it, each through one pin of one gate. Whether the steps connect is a
/// question to a circuit.
#[derive(Drop)]
pub struct Path {
    source: LineId,
    steps: Vec<PinRef>,
}

impl Model for Path {
    ghost use Rattle.pd_base.specs.Route.{Route};

    ghost Value = { Route };

    ghost view = { λ p. record { source = p.source; steps = p.steps.items } };
}

impl Path {
    /// A path with these steps. It fails only where a growth is refused.
    pub fn new(alloc: Global, source: LineId, steps: &[PinRef]) -> Result<Path, OutOfMemory>
        ensures { IfOk result (λ path. path ≡ record { source = source; steps = steps.now }) }
    {
        Ok(Path {
            source,
            steps: Vec::from_slice(alloc, steps)?,
        })
    }

    /// The line at which the path begins.
    pub fn source(&self) -> LineId
        ensures { result ≡ self.now.source }
    {
        self.source
    }

    /// The steps, from the source on.
    pub fn steps(&self) -> &[PinRef]
        ensures { result.now ≡ self.now.steps }
    {
        self.steps.as_slice()
    }
}
