// On which of the sources that were assumed since a tree began a conflict rests: from the line that was left no state back along the
// changes of labels. A change of a line that matters comes from narrowing at a gate, whose lines then matter too, or else from what was
// assumed of the line. At which gate is not kept, but found again: at one where narrowing, by the labels as they were before the change,
// leaves the line no more than the change did. So this costs nothing where nobody asks. What is found is a hint alone.
ghost use Rattle.std.specs.Prelude.{◌≡◌, ◌<◌, ◌≤◌, length, All, IfOk, IfSome};
ghost use Rattle.netlist.specs.declared.limits.TheConstants.{MOST_FAN_IN};
ghost use Rattle.netlist.specs.Circuit.{gate_count, line_count};

use crate::culprits::add_lines;
use crate::open_lines::{join_all, join_others};
use crate::picking::{uninverted, without};
use crate::region::{Region, condition_of, is_inside};
use crate::source_weights::SourceWeights;
use crate::weights::Weights;
use cones::FoundLines;
use hulls::{NarrowScratch, kept_at};
use netlist::{MOST_FAN_IN, Netlist};
use pd_base::{GateId, LineId, OutOfMemory, PinRef};
use state_sets::{Algebra, StateSet};
use std::alloc::Global;
use std::marker::Model;
use undo_trail::Note;

// One label of a change costs as much as so many that are copied in a row, or more.
const LINES_A_CHANGE: usize = 64;

/// Room for going back from conflicts. Contracts see how many lines there are.
#[derive(Drop)]
pub(crate) struct Grounds {
    // By line: those where the tree began, and while a conflict is traced those before the change that is looked at.
    labels: Vec<StateSet>,
    // The lines that matter.
    matters: FoundLines,
    // How many changes were noted where the tree began.
    begun: usize,
    scratch: NarrowScratch,
}

impl Model for Grounds {
    ghost use Rattle.std.specs.Prelude.{◌≡◌, ℕ, length};

    ghost Value = { ℕ };

    ghost view = { λ g. g.matters.room };

    ghost invariant = { λ g. length g.labels.items ≡ g.matters.room };
}

impl Grounds {
    // No tree yet.
    pub(crate) fn new(alloc: Global, net: &Netlist) -> Result<Grounds, OutOfMemory>
        ensures { IfOk result (λ g. g ≡ line_count net.now) }
    {
        let lines = net.lines() as usize;
        let scratch = NarrowScratch::new();
        let labels = vec![in alloc; StateSet::EMPTY; lines]?;
        let matters = FoundLines::new(alloc, lines)?;
        Ok(Grounds {
            labels,
            matters,
            begun: 0,
            scratch,
        })
    }

    // A tree begins: lines have these labels, and so many changes were noted.
    pub(crate) fn begin(&mut self, labels: &[StateSet], changes: usize)
        ensures { self.new ≡ self.old }
    {
        self.begun = changes;
        self.take_all(labels);
    }

    // Takes the labels of all lines.
    fn take_all(&mut self, labels: &[StateSet])
        ensures { self.new ≡ self.old }
    {
        if labels.len() == self.labels.len() {
            self.labels.as_mut_slice().copy_from_slice(labels);
        }
    }

    // Takes the label of a line from these, if there is one.
    fn write(&mut self, line: LineId, labels: &[StateSet])
        ensures { self.new ≡ self.old }
    {
        let at = line.0 as usize;
        if at < labels.len() && at < self.labels.len() {
            self.labels[at] = labels[at];
        }
    }

    // Makes the sources heavier on which the conflict rests to which these changes led, and the lines that matter for it. These are the
    // labels that the changes left.
    pub(crate) fn trace<A: Algebra>(
        &mut self,
        region: &Region,
        labels: &[StateSet],
        changes: &[Note<StateSet>],
        weights: &mut SourceWeights,
        line_weights: &mut Weights,
    )
        requires lines { self.old ≡ line_count region.now.net.now }
        requires changes { All (λ change. change.index < line_count region.now.net.now) changes.now }
        ensures { self.new ≡ self.old }
    {
        self.take_last(labels, changes);
        for place in (self.begun..changes.len()).rev() {
            self.follow::<A>(region, changes[place], weights);
        }
        line_weights.raise_all(self.matters.lines());
        self.matters.clear();
    }

    // Takes the labels of the lines that have changed since the tree began. The last one that did matters.
    fn take_last(&mut self, labels: &[StateSet], changes: &[Note<StateSet>])
        requires { All (λ change. change.index < self.old) changes.now }
        ensures { self.new ≡ self.old }
    {
        self.take_changed(labels, changes);
        if !changes.is_empty() {
            let last = changes[changes.len() - 1];
            self.matters.add(LineId(last.index));
        }
    }

    // The same, where none matters. Where many have changed all are taken, which costs less: the others are as they were.
    fn take_changed(&mut self, labels: &[StateSet], changes: &[Note<StateSet>])
        ensures { self.new ≡ self.old }
    {
        let count = changes.len().saturating_sub(self.begun);
        if count >= labels.len() / LINES_A_CHANGE {
            self.take_all(labels);
            return;
        }
        for place in self.begun..changes.len() {
            self.write(LineId(changes[place].index), labels);
        }
    }

    // Goes back before a change, and follows it to its cause if its line matters.
    fn follow<A: Algebra>(
        &mut self,
        region: &Region,
        change: Note<StateSet>,
        weights: &mut SourceWeights,
    )
        requires lines { self.old ≡ line_count region.now.net.now }
        requires line { change.index < line_count region.now.net.now }
        ensures { self.new ≡ self.old }
    {
        let line = LineId(change.index);
        let left = self.labels[line.0 as usize];
        self.labels[line.0 as usize] = change.old;
        if !self.matters.marks()[line.0 as usize] {
            return;
        }
        match self.cause::<A>(region, line, left) {
            Some(gate) => add_lines(region.net, gate, &mut self.matters),
            None => match self.linked::<A>(region, line, left) {
                Some(other) => self.matters.add(other),
                None => weights.raise(line),
            },
        }
    }

    // The line at the other end of a link of this line along which narrowing leaves the line no more than this, if there is one.
    fn linked<A: Algebra>(&self, region: &Region, line: LineId, left: StateSet) -> Option<LineId>
        requires lines { self.now ≡ line_count region.now.net.now }
        requires line { line.0 < line_count region.now.net.now }
        ensures { IfSome result (λ other. other.0 < line_count region.now.net.now) }
    {
        if region.links.is_empty() {
            return None;
        }
        let label = self.labels[line.0 as usize];
        if let Some(other) = region.links.line_of(line)
            && other.0 < region.net.lines()
        {
            let given = region.values.of_source::<A>(self.labels[other.0 as usize]);
            if without(given.intersect(label), left) == StateSet::EMPTY {
                return Some(other);
            }
        }
        let mut source = region.links.source_of(line);
        for _ in 0..region.net.sources() {
            let Some(other) = source else {
                return None;
            };
            if other.0 < region.net.lines() {
                let given = region.values.of_line::<A>(self.labels[other.0 as usize]);
                if without(given.intersect(label), left) == StateSet::EMPTY {
                    return Some(other);
                }
            }
            source = region.links.source_before(other);
        }
        None
    }

    // A gate of the cone at which narrowing leaves a line no more than this, if there is one.
    fn cause<A: Algebra>(&mut self, region: &Region, line: LineId, left: StateSet) -> Option<GateId>
        requires lines { self.old ≡ line_count region.now.net.now }
        requires line { line.0 < line_count region.now.net.now }
        ensures same { self.new ≡ self.old }
        ensures gate { IfSome result (λ gate. gate.0 < gate_count region.now.net.now) }
    {
        if let Some(driver) = region.net.gate_of(line)
            && self.drives_to::<A>(region, driver, line, left)
        {
            return Some(driver);
        }
        for reader in region.net.fanout(line) {
            if self.reads_to::<A>(region, *reader, line, left) {
                return Some(reader.gate);
            }
        }
        None
    }

    // Whether narrowing at a gate leaves its own line no more than this.
    fn drives_to<A: Algebra>(
        &mut self,
        region: &Region,
        gate: GateId,
        line: LineId,
        left: StateSet,
    ) -> bool
        requires lines { self.old ≡ line_count region.now.net.now }
        requires gate { gate.0 < gate_count region.now.net.now }
        requires line { line.0 < line_count region.now.net.now }
        ensures { self.new ≡ self.old }
    {
        let given = self.given_at::<A>(region, gate);
        without(given.intersect(self.labels[line.0 as usize]), left) == StateSet::EMPTY
    }

    // What narrowing at a gate gives its line: where no condition stands there, what the gate makes of its pins, whatever these keep.
    fn given_at<A: Algebra>(&mut self, region: &Region, gate: GateId) -> StateSet
        requires lines { self.old ≡ line_count region.now.net.now }
        requires gate { gate.0 < gate_count region.now.net.now }
        ensures { self.new ≡ self.old }
    {
        if condition_of(region, gate).is_some() {
            return self.narrow_at::<A>(region, gate);
        }
        let kind = region.net.kind(gate);
        let pins = region.net.pins(gate);
        let joined = join_all::<A>(self.labels.as_slice(), kind.operation(), pins);
        uninverted::<A>(kind, joined)
    }

    // Whether narrowing at the gate of a pin that reads a line, if it is in the cone, leaves the line no more than this.
    fn reads_to<A: Algebra>(
        &mut self,
        region: &Region,
        reader: PinRef,
        line: LineId,
        left: StateSet,
    ) -> bool
        requires lines { self.old ≡ line_count region.now.net.now }
        requires gate { reader.gate.0 < gate_count region.now.net.now }
        requires line { line.0 < line_count region.now.net.now }
        ensures { self.new ≡ self.old }
    {
        if !is_inside(region, reader.gate) || reader.pin > MOST_FAN_IN {
            return false;
        }
        let kept = self.kept_at_pin::<A>(region, reader);
        without(kept.intersect(self.labels[line.0 as usize]), left) == StateSet::EMPTY
    }

    // What narrowing at the gate of a pin keeps there: where no condition stands at the gate, what joins with the other pins into the label
    // of its line, whatever these keep.
    fn kept_at_pin<A: Algebra>(&mut self, region: &Region, reader: PinRef) -> StateSet
        requires lines { self.old ≡ line_count region.now.net.now }
        requires gate { reader.gate.0 < gate_count region.now.net.now }
        requires pin { reader.pin ≤ MOST_FAN_IN }
        ensures { self.new ≡ self.old }
    {
        if condition_of(region, reader.gate).is_some() {
            self.narrow_at::<A>(region, reader.gate);
            return self.scratch.kept(reader.pin as usize);
        }
        supporting_at::<A>(region.net, self.labels.as_slice(), reader)
    }

    // What narrowing at a gate keeps: its own states, and in the scratch those at its pins.
    fn narrow_at<A: Algebra>(&mut self, region: &Region, gate: GateId) -> StateSet
        requires lines { self.old ≡ line_count region.now.net.now }
        requires gate { gate.0 < gate_count region.now.net.now }
        ensures { self.new ≡ self.old }
    {
        kept_at::<A>(
            region.net,
            self.labels.as_slice(),
            gate,
            condition_of(region, gate),
            &mut self.scratch,
        )
    }
}

// The states that join with some of the other pins of a gate into the label of its line.
fn supporting_at<A: Algebra>(net: &Netlist, labels: &[StateSet], reader: PinRef) -> StateSet
    requires lines { length labels.now ≡ line_count net.now }
    requires gate { reader.gate.0 < gate_count net.now }
{
    let kind = net.kind(reader.gate);
    let op = kind.operation();
    let target = uninverted::<A>(kind, labels[net.line_of(reader.gate).0 as usize]);
    let others = join_others::<A>(labels, op, net.pins(reader.gate), reader.pin);
    A::supporting(op, others, target)
}
