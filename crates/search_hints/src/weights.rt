// How much past conflicts rest on each line: each conflict makes the lines heavier on which it rests, and a later one by more than an
// earlier one, so that those of late count most. The heaviest source is split first; under links source_weights.rt finds it. A hint alone.
ghost use Rattle.std.specs.Prelude.{◌≡◌, ◌⊎◌, ◌^◌, IfOk, replicate, slice_index};
ghost use Rattle.search_hints.specs.Weighed.{RaisesOne, AreDivided};

use crate::picking::has_both_values;
use pd_base::{LineId, OutOfMemory};
use state_sets::{Algebra, StateSet};
use std::alloc::Global;
use std::marker::Model;

// What the first conflict adds. It is large, so that a part of it is one as well.
const FIRST_STEP: u64 = 65_536;
// Where a conflict adds as much, all weights are made smaller, and what it adds, by the same factor.
const GREATEST_STEP: u64 = 281_474_976_710_656;

const FACTOR: u64 = GREATEST_STEP / FIRST_STEP;

/// The weights of the first lines of one netlist. Contracts see them, by line.
#[derive(Drop)]
pub(crate) struct Weights {
    by_line: Vec<u64>,
    step: u64,
    // A conflict adds more than the one before it by this part; by nothing where it is 0.
    part: u64,
}

impl Model for Weights {
    ghost use Rattle.std.specs.Prelude.{ℕ, ◌<◌, List};

    ghost Value = { List ℕ };

    ghost view = { λ w. w.by_line.items };

    // each conflict adds something
    ghost invariant = { λ w. 0 < w.step };
}

impl Weights {
    // No weight yet, of so many lines. What a conflict adds grows by this part from one to the next.
    pub(crate) fn new(alloc: Global, lines: usize, part: u64) -> Result<Weights, OutOfMemory>
        ensures { IfOk result (λ weights. weights ≡ replicate lines 0) }
    {
        let by_line = vec![in alloc; 0u64; lines]?;
        Ok(Weights {
            by_line,
            step: FIRST_STEP,
            part,
        })
    }

    // The weight of a line.
    pub(crate) fn of(&self, line: LineId) -> u64
        ensures { result ≡ slice_index self.now line.0 }
    {
        let at = line.0 as usize;
        if at < self.by_line.len() {
            self.by_line[at]
        } else {
            0
        }
    }

    // The conflict rests on this line, which gets heavier if it has a weight.
    pub(crate) fn raise(&mut self, line: LineId)
        ensures { RaisesOne line.0 self.old self.new }
    {
        let at = line.0 as usize;
        if at < self.by_line.len() {
            self.by_line[at] = self.by_line[at].saturating_add(self.step);
        }
    }

    // The conflict rests on these lines.
    pub(crate) fn raise_all(&mut self, lines: &[LineId]) {
        for line in lines {
            self.raise(*line);
        }
    }

    // Whether late conflicts rest on this line: it is as heavy as what the next one adds.
    pub(crate) fn is_heavy(&self, line: LineId) -> bool {
        self.of(line) >= self.step
    }

    // A conflict is over: the next one adds more.
    pub(crate) fn grow(&mut self)
        ensures { (self.new ≡ self.old) ⊎ AreDivided (2 ^ 32) self.old self.new }
    {
        if self.step >= GREATEST_STEP {
            scale_down(self.by_line.as_mut_slice());
            self.step = self.step / FACTOR;
        }
        if self.part > 0 {
            self.step = self.step.saturating_add(self.step / self.part);
        }
    }

    // The heaviest of these sources that can still end at either value, the first one where some are as heavy. There is none where none
    // of them has a weight.
    pub(crate) fn heaviest<A: Algebra>(
        &self,
        sources: &[LineId],
        labels: &[StateSet],
    ) -> Option<LineId> {
        let mut heaviest = None;
        let mut most = 0;
        for source in sources {
            let weight = self.of(*source);
            if weight > most && may_end_at_either::<A>(*source, labels) {
                most = weight;
                heaviest = Some(*source);
            }
        }
        heaviest
    }
}

// Makes all weights smaller by the factor.
#[tactic(auto, using(crate::proofs::Weighing::divides_next, crate::proofs::Weighing::divided_all))]
fn scale_down(weights: &mut [u64])
    ensures { AreDivided (2 ^ 32) weights.old weights.new }
{
    for at in 0..weights.len() {
        weights[at] = weights[at] / FACTOR;
    }
}

// Whether a source can still end at either value.
pub(crate) fn may_end_at_either<A: Algebra>(source: LineId, labels: &[StateSet]) -> bool {
    let at = source.0 as usize;
    at < labels.len() && has_both_values::<A>(labels[at])
}
