// A draft: labels of a cone that are cut line by line, narrowed at the gates of the cone and along the links in it, and led back. No
// contract speaks of the labels, since what is made of them is judged before it is taken.
ghost use Rattle.std.specs.Prelude.{◌≡◌, ◌<◌, length, All, IfOk, IfSome};
ghost use Rattle.netlist.specs.Circuit.{gate_count, line_count};
ghost use Rattle.netlist.specs.Lawful.{IsCircuit};
ghost use Rattle.search_hints.specs.Drafts.{IsSizedFor, IsGateOfTwo};

use crate::changes::{Cause, Change};
use crate::open_lines::{join_all, join_two};
use crate::picking::{uninverted, without};
use crate::region::{Region, condition_of, is_first_alone, is_inside, linked_line};
use hulls::{NarrowScratch, Turn, Waiting, kept_at};
use netlist::Netlist;
use pd_base::{GateId, LineId, OutOfMemory};
use state_sets::{Algebra, StateSet, every_state};
use std::alloc::Global;
use std::marker::Model;

// How many gates and links are narrowed at most after a cut: more than any cone takes in practice.
const MOST_NARROWINGS: u32 = 16_777_216;

// What narrowing makes of the labels.
#[derive(Clone, Copy)]
pub(crate) enum Settled {
    // No gate and no link waits, and each line has some state.
    AtRest,
    // Narrowing at this gate or link leaves a line no state.
    Conflict(Cause),
    // It took too long.
    Unknown,
}

// A gate of two pins, and the lines that these read.
#[derive(Clone, Copy)]
struct GateOfTwo {
    gate: GateId,
    first: LineId,
    second: LineId,
}

// Labels, with the trail of their changes, and the gates and links that have to be narrowed again. Contracts see how many lines and gates
// there are.
#[derive(Drop)]
pub(crate) struct Draft {
    labels: Vec<StateSet>,
    changes: Vec<Change>,
    waiting: Waiting,
    // the sources whose links have to be narrowed again
    due: Vec<LineId>,
    scratch: NarrowScratch,
}

impl Model for Draft {
    ghost use Rattle.std.specs.Prelude.{◌<◌, length, All};
    ghost use Rattle.netlist.specs.Lawful.{IsCircuit};
    ghost use Rattle.search_hints.specs.Drafts.{Sizes};

    ghost Value = { Sizes };

    ghost view = { λ d. record { lines = length d.labels.items; gates = length d.waiting.inside } };

    ghost invariant = { λ d. All (λ change. change.line.0 < length d.labels.items) d.changes.items };
}

impl Draft {
    // All states at each line, and no changes.
    pub(crate) fn new<A: Algebra>(alloc: Global, net: &Netlist) -> Result<Draft, OutOfMemory>
        ensures { IfOk result (IsSizedFor net.now) }
    {
        // What has most parts is made last, since each refusal drops what was made before.
        let scratch = NarrowScratch::new();
        let labels = vec![in alloc; every_state::<A>(); net.lines() as usize]?;
        let waiting = Waiting::new(alloc, vec![in alloc; true; net.gates() as usize]?)?;
        Ok(Draft {
            labels,
            changes: Vec::new(alloc),
            waiting,
            due: Vec::new(alloc),
            scratch,
        })
    }

    // The labels, by line number.
    pub(crate) fn labels(&self) -> &[StateSet]
        ensures { length result.now ≡ self.now.lines }
    {
        self.labels.as_slice()
    }

    // The changes, from the first on.
    pub(crate) fn changes(&self) -> &[Change]
        ensures { All (λ change. change.line.0 < self.now.lines) result.now }
    {
        self.changes.as_slice()
    }

    // How many changes there are.
    pub(crate) fn mark(&self) -> usize {
        self.changes.len()
    }

    // Forgets all changes, and leaves the labels as they are.
    pub(crate) fn forget(&mut self)
        ensures { self.new ≡ self.old }
    {
        self.changes.clear();
        self.waiting.clear();
        self.due.clear();
    }

    // Writes the label of a line. That is no change.
    pub(crate) fn write(&mut self, line: LineId, set: StateSet)
        requires { line.0 < self.old.lines }
        ensures { self.new ≡ self.old }
    {
        self.labels[line.0 as usize] = set;
    }

    // Takes back all changes since there were so many, and lets no gate wait any more.
    pub(crate) fn undo_to(&mut self, mark: usize)
        ensures { self.new ≡ self.old }
    {
        for _ in mark..self.changes.len() {
            self.undo_last();
        }
        self.waiting.clear();
        self.due.clear();
    }

    // Takes back the last change, if there is one.
    fn undo_last(&mut self)
        ensures { self.new ≡ self.old }
    {
        if let Some(change) = self.changes.pop() {
            self.labels[change.line.0 as usize] = change.old;
        }
    }

    // Cuts a label, notes that, and lets the gates of the cone wait that have the line among theirs. Gives what is left. Most cuts take
    // nothing away: these are inlined.
    #[inline(always)]
    pub(crate) fn cut(
        &mut self,
        region: &Region,
        line: LineId,
        to: StateSet,
        cause: Cause,
    ) -> Result<StateSet, OutOfMemory>
        requires sized { IsSizedFor region.now.net.now self.old }
        requires line { line.0 < line_count region.now.net.now }
        ensures { self.new ≡ self.old }
    {
        let old = self.labels[line.0 as usize];
        let left = old.intersect(to);
        if left != old {
            let justified = None;
            let change = Change {
                line,
                old,
                justified,
                cause,
            };
            self.change(region, change, left)?;
        }
        Ok(left)
    }

    // The same of the line of a gate, at that gate; whether that leaves it no less than the gate makes of its pins.
    #[inline(always)]
    fn cut_own(
        &mut self,
        region: &Region,
        gate: GateId,
        to: StateSet,
        is_justified: bool,
    ) -> Result<StateSet, OutOfMemory>
        requires sized { IsSizedFor region.now.net.now self.old }
        requires gate { gate.0 < gate_count region.now.net.now }
        ensures { self.new ≡ self.old }
    {
        let line = LineId(region.net.sources() + gate.0);
        let old = self.labels[line.0 as usize];
        let left = old.intersect(to);
        if left != old {
            let justified = if is_justified { Some(left) } else { None };
            let cause = Cause::Gate(gate);
            let change = Change {
                line,
                old,
                justified,
                cause,
            };
            self.change(region, change, left)?;
        }
        Ok(left)
    }

    // Gives a line another label, notes that, and lets the gates of the cone wait that have the line among theirs.
    fn change(&mut self, region: &Region, change: Change, left: StateSet) -> Result<(), OutOfMemory>
        requires sized { IsSizedFor region.now.net.now self.old }
        requires line { change.line.0 < line_count region.now.net.now }
        ensures { self.new ≡ self.old }
    {
        self.changes.push(change)?;
        self.labels[change.line.0 as usize] = left;
        self.wake(region, change.line, change.cause);
        if region.links.touch(change.line) {
            self.wake_links(region, change.line, change.cause)?;
        }
        Ok(())
    }

    // Lets the links wait that count and have this line among their two, but not the one that is being narrowed.
    fn wake_links(&mut self, region: &Region, line: LineId, cause: Cause) -> Result<(), OutOfMemory>
        ensures { self.new ≡ self.old }
    {
        self.ask_link(region, line, cause)?;
        let mut linked = region.links.source_of(line);
        for _ in 0..region.net.sources() {
            let Some(source) = linked else {
                break;
            };
            self.ask_link(region, source, cause)?;
            linked = region.links.source_before(source);
        }
        Ok(())
    }

    // Lets the link of a source wait, if it has one that counts and that is not the cause.
    fn ask_link(&mut self, region: &Region, source: LineId, cause: Cause) -> Result<(), OutOfMemory>
        ensures { self.new ≡ self.old }
    {
        if !cause.is_link(source) && linked_line(region, source).is_some() {
            self.due.push(source)?;
        }
        Ok(())
    }

    // Lets the gates of the cone wait that have this line among theirs, but not the one that is being narrowed.
    fn wake(&mut self, region: &Region, line: LineId, cause: Cause)
        requires sized { IsSizedFor region.now.net.now self.old }
        requires line { line.0 < line_count region.now.net.now }
        ensures { self.new ≡ self.old }
    {
        // read once, since most lines have several readers
        let sources = region.net.sources();
        let inside = region.inside;
        for reader in region.net.fanout(line) {
            let own = sources + reader.gate.0;
            if inside[own as usize] && !cause.is_gate(reader.gate) {
                self.add(reader.gate);
            }
        }
        if let Some(driver) = region.net.gate_of(line) {
            self.ask(region, driver, cause);
        }
    }

    // Lets a gate of the cone wait, unless it is the cause.
    fn ask(&mut self, region: &Region, gate: GateId, cause: Cause)
        requires sized { IsSizedFor region.now.net.now self.old }
        requires gate { gate.0 < gate_count region.now.net.now }
        ensures { self.new ≡ self.old }
    {
        if is_inside(region, gate) && !cause.is_gate(gate) {
            self.add(gate);
        }
    }

    // Lets a gate wait.
    fn add(&mut self, gate: GateId)
        requires { gate.0 < self.old.gates }
        ensures { self.new ≡ self.old }
    {
        self.waiting.add(Turn::of_gate(gate));
    }

    // Narrows at the gates and links that wait, until none does or a line has no state left. Gates come before links.
    pub(crate) fn settle<A: Algebra>(&mut self, region: &Region) -> Result<Settled, OutOfMemory>
        requires { IsSizedFor region.now.net.now self.old }
        ensures { self.new ≡ self.old }
    {
        for _ in 0..MOST_NARROWINGS {
            if let Some(gate) = self.next() {
                if !self.narrow_at::<A>(region, gate)? {
                    return Ok(Settled::Conflict(Cause::Gate(gate)));
                }
            } else if let Some(source) = self.due.pop() {
                if !self.narrow_linked::<A>(region, source)? {
                    return Ok(Settled::Conflict(Cause::Link(source)));
                }
            } else {
                return Ok(Settled::AtRest);
            }
        }
        Ok(Settled::Unknown)
    }

    // Narrows along the link of a source, if it has one that counts. Whether each of its lines has a state left.
    fn narrow_linked<A: Algebra>(
        &mut self,
        region: &Region,
        source: LineId,
    ) -> Result<bool, OutOfMemory>
        requires { IsSizedFor region.now.net.now self.old }
        ensures { self.new ≡ self.old }
    {
        match linked_line(region, source) {
            Some(line) => self.narrow_link::<A>(region, source, line),
            None => Ok(true),
        }
    }

    // Narrows along a link. Whether both lines have a state left.
    fn narrow_link<A: Algebra>(
        &mut self,
        region: &Region,
        source: LineId,
        line: LineId,
    ) -> Result<bool, OutOfMemory>
        requires { IsSizedFor region.now.net.now self.old }
        ensures { self.new ≡ self.old }
    {
        if source.0 >= region.net.lines() || line.0 >= region.net.lines() {
            return Ok(true);
        }
        let cause = Cause::Link(source);
        let at_source = region.values.of_source::<A>(self.labels[line.0 as usize]);
        let at_line = region.values.of_line::<A>(self.labels[source.0 as usize]);
        let source_left = self.cut(region, source, at_source, cause)?;
        let line_left = self.cut(region, line, at_line, cause)?;
        Ok(source_left != StateSet::EMPTY && line_left != StateSet::EMPTY)
    }

    // Takes the first gate that waits, if one does.
    #[inline(always)]
    fn next(&mut self) -> Option<GateId>
        ensures same { self.new ≡ self.old }
        ensures gate { IfSome result (λ gate. gate.0 < self.old.gates) }
    {
        let turn = self.waiting.pop()?;
        Some(GateId(turn.0))
    }

    // Narrows at a gate. Whether each of its lines has a state left. Where no condition stands there, and all that the gate makes of its
    // pins is in the label of its line, the pins keep what they have.
    #[inline(always)]
    fn narrow_at<A: Algebra>(&mut self, region: &Region, gate: GateId) -> Result<bool, OutOfMemory>
        requires sized { IsSizedFor region.now.net.now self.old }
        requires gate { gate.0 < gate_count region.now.net.now }
        ensures { self.new ≡ self.old }
    {
        if condition_of(region, gate).is_some() {
            return self.narrow_all::<A>(region, gate);
        }
        if let [first, second] = region.net.pins(gate) {
            let at = GateOfTwo {
                gate,
                first: *first,
                second: *second,
            };
            return self.narrow_two::<A>(region, at);
        }
        self.narrow_freely::<A>(region, gate)
    }

    // The same at a gate without a condition.
    fn narrow_freely<A: Algebra>(
        &mut self,
        region: &Region,
        gate: GateId,
    ) -> Result<bool, OutOfMemory>
        requires sized { IsSizedFor region.now.net.now self.old }
        requires gate { gate.0 < gate_count region.now.net.now }
        ensures { self.new ≡ self.old }
    {
        let own = LineId(region.net.sources() + gate.0);
        let made = made_at::<A>(region, self.labels.as_slice(), gate);
        if without(made, self.labels[own.0 as usize]) == StateSet::EMPTY {
            let left = self.cut_own(region, gate, made, true)?;
            return Ok(left != StateSet::EMPTY);
        }
        self.narrow_all::<A>(region, gate)
    }

    // The same at a gate of two pins without a condition, as most gates are.
    #[inline(always)]
    fn narrow_two<A: Algebra>(
        &mut self,
        region: &Region,
        at: GateOfTwo,
    ) -> Result<bool, OutOfMemory>
        requires sized { IsSizedFor region.now.net.now self.old }
        requires at { IsGateOfTwo region.now.net.now at }
        ensures { self.new ≡ self.old }
    {
        let own = LineId(region.net.sources() + at.gate.0);
        let label = self.labels[own.0 as usize];
        let kind = region.net.kind(at.gate);
        let joined = join_two::<A>(
            self.labels.as_slice(),
            kind.operation(),
            at.first,
            at.second,
        );
        let made = uninverted::<A>(kind, joined);
        let is_justified = without(made, label) == StateSet::EMPTY;
        if !is_justified && !self.cut_two::<A>(region, at)? {
            return Ok(false);
        }
        // the line loses nothing where the gate may make all of its label
        if without(label, made) == StateSet::EMPTY {
            return Ok(label != StateSet::EMPTY);
        }
        let given = if is_first_alone(region, own) {
            region.values.spread(made.intersect(label))
        } else {
            made
        };
        let left = self.cut_own(region, at.gate, given, is_justified)?;
        Ok(left != StateSet::EMPTY)
    }

    // Cuts the lines that the two pins of a gate read to what choices have there that join into the label of its line. Whether each of
    // them has a state left.
    #[inline(always)]
    fn cut_two<A: Algebra>(&mut self, region: &Region, at: GateOfTwo) -> Result<bool, OutOfMemory>
        requires sized { IsSizedFor region.now.net.now self.old }
        requires at { IsGateOfTwo region.now.net.now at }
        ensures { self.new ≡ self.old }
    {
        let own = LineId(region.net.sources() + at.gate.0);
        let kind = region.net.kind(at.gate);
        let op = kind.operation();
        let target = uninverted::<A>(kind, self.labels[own.0 as usize]);
        let at_first = self.labels[at.first.0 as usize].intersect(every_state::<A>());
        let at_second = self.labels[at.second.0 as usize].intersect(every_state::<A>());
        let kept = A::supporting(op, at_second, target);
        if self.cut(region, at.first, kept, Cause::Gate(at.gate))? == StateSet::EMPTY {
            return Ok(false);
        }
        let kept = A::supporting(op, at_first, target);
        Ok(self.cut(region, at.second, kept, Cause::Gate(at.gate))? != StateSet::EMPTY)
    }

    // The same at any gate.
    fn narrow_all<A: Algebra>(&mut self, region: &Region, gate: GateId) -> Result<bool, OutOfMemory>
        requires sized { IsSizedFor region.now.net.now self.old }
        requires gate { gate.0 < gate_count region.now.net.now }
        ensures { self.new ≡ self.old }
    {
        let own = LineId(region.net.sources() + gate.0);
        let given = kept_at::<A>(
            region.net,
            self.labels.as_slice(),
            gate,
            condition_of(region, gate),
            &mut self.scratch,
        );
        let given = if is_first_alone(region, own) {
            region.values.spread(given)
        } else {
            given
        };
        if !self.cut_pins(region, gate)? {
            return Ok(false);
        }
        let left = self.cut(region, own, given, Cause::Gate(gate))?;
        Ok(left != StateSet::EMPTY)
    }

    // Cuts the lines that the pins of a gate read to what the scratch keeps there. Whether each of them has a state left.
    fn cut_pins(&mut self, region: &Region, gate: GateId) -> Result<bool, OutOfMemory>
        requires circuit { IsCircuit region.now.net.now }
        requires sized { IsSizedFor region.now.net.now self.old }
        requires gate { gate.0 < gate_count region.now.net.now }
        ensures { self.new ≡ self.old }
    {
        for (pin, line) in region.net.pins(gate).iter().enumerate() {
            let kept = self.scratch.kept(pin);
            let left = self.cut(region, *line, kept, Cause::Gate(gate))?;
            if left == StateSet::EMPTY {
                return Ok(false);
            }
        }
        Ok(true)
    }
}

// What a gate makes of the labels of its pins, as far as it counts.
fn made_at<A: Algebra>(region: &Region, labels: &[StateSet], gate: GateId) -> StateSet
    requires labels { length labels.now ≡ line_count region.now.net.now }
    requires gate { gate.0 < gate_count region.now.net.now }
{
    let kind = region.net.kind(gate);
    let joined = join_all::<A>(labels, kind.operation(), region.net.pins(gate));
    let made = uninverted::<A>(kind, joined);
    if is_first_alone(region, region.net.line_of(gate)) {
        region.values.spread(made)
    } else {
        made
    }
}
