// The weights of sources, and which sources have one: most have none, so that the heaviest is found without a pass over all of a cone. How
// weights grow stands in weights.rt. A hint alone.
ghost use Rattle.std.specs.Prelude.{◌≡◌, ◌<◌, ◌≤◌, ◌∷◌, [], Contains, IfOk, IfSome};
ghost use Rattle.cones.specs.FoundLines.{FindsMore};

use crate::weights::{Weights, may_end_at_either};
use cones::FoundLines;
use pd_base::{LineId, OutOfMemory};
use state_sets::{Algebra, StateSet};
use std::alloc::Global;
use std::marker::Model;

/// The weights of the sources of one netlist. Contracts see which sources are listed as weighed.
#[derive(Drop)]
pub(crate) struct SourceWeights {
    weights: Weights,
    // those that were raised, each once; where weights were made smaller one may have none any more
    weighed: FoundLines,
}

impl Model for SourceWeights {
    ghost use Rattle.cones.specs.FoundLines.{FoundSet};
    ghost use Rattle.search_hints.specs.Weighed.{AreListed};

    ghost Value = { FoundSet };

    ghost view = { λ w. w.weighed };

    ghost invariant = { λ w. AreListed w.weights w.weighed };
}

impl SourceWeights {
    // No weight yet, of so many sources. What a conflict adds grows by this part from one to the next.
    pub(crate) fn new(
        alloc: Global,
        sources: usize,
        part: u64,
    ) -> Result<SourceWeights, OutOfMemory>
        ensures { IfOk result (λ weights. weights ≡ record { room = sources; lines = [] }) }
    {
        let weights = Weights::new(alloc, sources, part)?;
        let weighed = FoundLines::new(alloc, sources)?;
        Ok(SourceWeights { weights, weighed })
    }

    // The conflict rests on this source, which gets heavier. Takes no memory.
    pub(crate) fn raise(&mut self, source: LineId)
        ensures inside { source.0 < self.old.room → FindsMore (source ∷ []) self.old self.new }
        ensures outside { self.old.room ≤ source.0 → self.new ≡ self.old }
    {
        self.weights.raise(source);
        if (source.0 as usize) < self.weighed.marks().len() {
            self.weighed.add(source);
        }
    }

    // A conflict is over: the next one adds more.
    pub(crate) fn grow(&mut self)
        ensures { self.new ≡ self.old }
    {
        self.weights.grow();
    }

    // The heaviest source with a mark that can still end at either value, the first in number where some are as heavy.
    pub(crate) fn heaviest<A: Algebra>(&self, marks: &[bool], labels: &[StateSet]) -> Option<LineId>
        ensures { IfSome result (λ source. Contains self.now.lines source) }
    {
        let mut heaviest = None;
        for source in self.weighed.lines() {
            if self.is_before(*source, heaviest)
                && is_marked(*source, marks)
                && may_end_at_either::<A>(*source, labels)
            {
                heaviest = Some(*source);
            }
        }
        heaviest
    }

    // Whether a source with a weight is heavier than another one, or as heavy and first in number.
    fn is_before(&self, source: LineId, other: Option<LineId>) -> bool {
        let weight = self.weights.of(source);
        match other {
            Some(other) => {
                let most = self.weights.of(other);
                weight > most || (weight == most && source.0 < other.0)
            }
            None => weight > 0,
        }
    }
}

// Whether a line has a mark.
fn is_marked(line: LineId, marks: &[bool]) -> bool {
    let at = line.0 as usize;
    at < marks.len() && marks[at]
}
