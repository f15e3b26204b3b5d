// Decisions on lines, one after another, until each line is justified; on a conflict the newest decision on which it rests, and of
// which a part is left, is turned to that part.
ghost use Rattle.std.specs.Prelude.{◌≡◌, ◌<◌, length, All, IfOk, IfSome};
ghost use Rattle.netlist.specs.Circuit.{gate_count, line_count};
ghost use Rattle.search_hints.specs.Drafts.{IsSizedFor, IsNextIn};

use crate::activity::Activity;
use crate::changes::Cause;
use crate::culprits::Culprits;
use crate::draft::{Draft, Settled};
use crate::framed_picking::{is_open_source, pick_framed, pick_last};
use crate::open_lines::{is_justified, open_side};
use crate::picking::{Cut, Sight, pick, pick_any, without};
use crate::region::{Region, is_first_alone, is_inside, linked_line};
use netlist::Netlist;
use pd_base::{GateId, LineId, OutOfMemory};
use state_sets::{Algebra, StateSet};
use std::alloc::Global;
use std::marker::Model;

// How many decisions are made at most in one search: more than any cone takes in practice.
const MOST_DECISIONS: u32 = 1_048_576;

// How many of the steps, of the changes, of the lines that were open at the beginning and of the cone's sources are known to be closed.
#[derive(Clone, Copy)]
pub(crate) struct Cursor {
    steps: usize,
    changes: usize,
    places: usize,
    sources: usize,
}

// A decision: what was noted before it, its line, and the second part of the line's states, which is left to be tried. Where that is
// none, the second part is being tried, and rests on older decisions: those that stand in the list of reasons from this place on.
#[derive(Clone, Copy)]
pub(crate) struct Decision {
    mark: usize,
    cursor: Cursor,
    pub(crate) line: LineId,
    second: StateSet,
    reasons: usize,
}

// The order in which lines are justified that were open at the beginning: by level, and with links those of the first frame alone first,
// or those of the second frame. Or before these and what decisions changed the most active of the lines on which late conflicts rested.
#[derive(Clone, Copy)]
pub(crate) enum Order {
    LowestFirst,
    HighestFirst,
    MostActiveFirst,
}

// How a search ended.
#[derive(Clone, Copy)]
pub(crate) enum Ended {
    // Each line is justified.
    Justified,
    // There is nothing left to be tried.
    Exhausted,
    // It took too many conflicts, or too long.
    Unknown,
}

// What to do next.
enum Next {
    Nothing,
    Decide(Cut),
    GiveUp,
}

// The search: a draft, the decisions made on it, and what led to them. Contracts see for how many lines and gates there is room.
#[derive(Drop)]
pub(crate) struct Decisions {
    draft: Draft,
    made: Vec<Decision>,
    reasons: Vec<usize>,
    culprits: Culprits,
    activity: Activity,
    // The gates whose lines were not justified at the beginning, by level.
    open_at_first: Vec<GateId>,
    cursor: Cursor,
}

impl Model for Decisions {
    ghost use Rattle.std.specs.Prelude.{◌≡◌, ◌<◌, All};
    ghost use Rattle.search_hints.specs.Drafts.{Sizes, AreKept};

    ghost Value = { Sizes };

    ghost view = { λ d. d.draft };

    ghost invariant = { λ d. AreKept d.draft d.made.items d.culprits d.open_at_first.items };
}

impl Decisions {
    // Nothing is decided. Of so many lines it is kept how active they are.
    pub(crate) fn new<A: Algebra>(
        alloc: Global,
        net: &Netlist,
        active_lines: usize,
    ) -> Result<Decisions, OutOfMemory>
        ensures { IfOk result (IsSizedFor net.now) }
    {
        // What has most parts is made last, since each refusal drops what was made before.
        let culprits = Culprits::new(alloc, net)?;
        let draft = Draft::new::<A>(alloc, net)?;
        let activity = Activity::new(alloc, active_lines)?;
        Ok(Decisions {
            draft,
            made: Vec::new(alloc),
            reasons: Vec::new(alloc),
            culprits,
            activity,
            open_at_first: Vec::new(alloc),
            cursor: at_start(),
        })
    }

    // The labels, by line number.
    pub(crate) fn labels(&self) -> &[StateSet]
        ensures { length result.now ≡ self.now.lines }
    {
        self.draft.labels()
    }

    // Forgets all decisions and changes, and leaves the labels as they are.
    pub(crate) fn forget(&mut self)
        ensures { self.new ≡ self.old }
    {
        self.draft.forget();
        self.made.clear();
        self.open_at_first.clear();
    }

    // Writes the label of a line, as long as nothing is decided.
    pub(crate) fn write(&mut self, line: LineId, set: StateSet)
        requires { line.0 < self.old.lines }
        ensures { self.new ≡ self.old }
    {
        self.draft.write(line, set);
    }

    // Notes the gate as open, if its line is not justified now.
    pub(crate) fn note_open<A: Algebra>(
        &mut self,
        net: &Netlist,
        gate: GateId,
    ) -> Result<(), OutOfMemory>
        requires sized { IsSizedFor net.now self.old }
        requires gate { gate.0 < gate_count net.now }
        ensures { self.new ≡ self.old }
    {
        if !is_justified::<A>(net, self.draft.labels(), gate) {
            self.open_at_first.push(gate)?;
        }
        Ok(())
    }

    // Decides until each line is justified, within so many conflicts.
    pub(crate) fn search<A: Algebra>(
        &mut self,
        region: &Region,
        order: Order,
        most_conflicts: u32,
    ) -> Result<Ended, OutOfMemory>
        requires { IsSizedFor region.now.net.now self.old }
        ensures { self.new ≡ self.old }
    {
        self.restart();
        let mut left = most_conflicts;
        for _ in 0..MOST_DECISIONS {
            let settled = match self.next::<A>(region, order) {
                Next::Nothing => return Ok(Ended::Justified),
                Next::Decide(cut) => self.decide::<A>(region, cut)?,
                Next::GiveUp => return Ok(Ended::Unknown),
            };
            match self.resolve::<A>(region, settled, &mut left)? {
                Some(ended) => return Ok(ended),
                None => {}
            }
        }
        Ok(Ended::Unknown)
    }

    // Takes all decisions back.
    fn restart(&mut self)
        ensures { self.new ≡ self.old }
    {
        self.draft.undo_to(0);
        self.made.clear();
        self.reasons.clear();
        self.activity.forget_closed();
        self.cursor = at_start();
    }

    // What to decide: first what a step's side pins need, then what the lines need that were cut, then those that were open at first.
    fn next<A: Algebra>(&mut self, region: &Region, order: Order) -> Next
        requires { IsSizedFor region.now.net.now self.old }
        ensures same { self.new ≡ self.old }
        ensures line { IsNextIn region.now.net.now result }
    {
        if let Some(cut) = next_side::<A>(region, self.draft.labels(), &mut self.cursor.steps) {
            return Next::Decide(cut);
        }
        if let Some(line) = self.next_active::<A>(region, order) {
            return self.pick_for::<A>(region, line);
        }
        if let Some(line) = next_changed::<A>(region, &self.draft, &mut self.cursor.changes) {
            return self.pick_for::<A>(region, line);
        }
        let open = self.open_at_first.as_slice();
        match next_open::<A>(
            region,
            self.draft.labels(),
            open,
            order,
            &mut self.cursor.places,
        ) {
            Some(gate) => self.pick_for::<A>(region, region.net.line_of(gate)),
            None => self.next_source::<A>(region),
        }
    }

    // The most active line of late conflicts that is open, where the order goes by that.
    fn next_active<A: Algebra>(&mut self, region: &Region, order: Order) -> Option<LineId>
        requires { IsSizedFor region.now.net.now self.old }
        ensures same { self.new ≡ self.old }
        ensures line { IfSome result (λ line. line.0 < line_count region.now.net.now) }
    {
        match order {
            Order::MostActiveFirst => {
                let changes = self.draft.mark();
                let labels = self.draft.labels();
                self.activity.most_active::<A>(region, labels, changes)
            }
            Order::LowestFirst | Order::HighestFirst => None,
        }
    }

    // What to decide on a linked source that is open.
    fn next_source<A: Algebra>(&mut self, region: &Region) -> Next
        requires { IsSizedFor region.now.net.now self.old }
        ensures same { self.new ≡ self.old }
        ensures line { IsNextIn region.now.net.now result }
    {
        if region.links.is_empty() {
            return Next::Nothing;
        }
        match next_linked::<A>(region, self.draft.labels(), &mut self.cursor.sources) {
            Some(source) => self.pick_for::<A>(region, source),
            None => Next::Nothing,
        }
    }

    // A decision towards the label of a line.
    fn pick_for<A: Algebra>(&self, region: &Region, line: LineId) -> Next
        requires sized { IsSizedFor region.now.net.now self.now }
        requires line { line.0 < line_count region.now.net.now }
        ensures { IsNextIn region.now.net.now result }
    {
        let sight = Sight {
            net: region.net,
            labels: self.draft.labels(),
            liked: region.liked,
        };
        if let Some(cut) = pick_at::<A>(region, &sight, line) {
            return Next::Decide(cut);
        }
        match pick_any::<A>(&sight, region.sources) {
            Some(cut) => Next::Decide(cut),
            None => Next::GiveUp,
        }
    }

    // Makes a decision, and narrows. One that leaves nothing for a second part would not end.
    fn decide<A: Algebra>(&mut self, region: &Region, cut: Cut) -> Result<Settled, OutOfMemory>
        requires sized { IsSizedFor region.now.net.now self.old }
        requires line { cut.line.0 < line_count region.now.net.now }
        ensures { self.new ≡ self.old }
    {
        let second = without(self.draft.labels()[cut.line.0 as usize], cut.to);
        if second == StateSet::EMPTY || cut.to == StateSet::EMPTY {
            return Ok(Settled::Unknown);
        }
        self.take::<A>(region, cut, second)
    }

    // Takes a part of the states of a line, where a second one is left for later, or none.
    fn take<A: Algebra>(
        &mut self,
        region: &Region,
        cut: Cut,
        second: StateSet,
    ) -> Result<Settled, OutOfMemory>
        requires sized { IsSizedFor region.now.net.now self.old }
        requires line { cut.line.0 < line_count region.now.net.now }
        ensures { self.new ≡ self.old }
    {
        let cause = Cause::Decision(self.made.len());
        let decision = Decision {
            mark: self.draft.mark(),
            cursor: self.cursor,
            line: cut.line,
            second,
            reasons: self.reasons.len(),
        };
        self.made.push(decision)?;
        self.draft.cut(region, cut.line, cut.to, cause)?;
        self.draft.settle::<A>(region)
    }

    // While there is a conflict, turns the newest decision on which it rests and of which a part is left. Tells how the search ends,
    // unless the labels are at rest then.
    fn resolve<A: Algebra>(
        &mut self,
        region: &Region,
        settled: Settled,
        left: &mut u32,
    ) -> Result<Option<Ended>, OutOfMemory>
        requires { IsSizedFor region.now.net.now self.old }
        ensures { self.new ≡ self.old }
    {
        let mut settled = settled;
        for conflicts in (0..*left).rev() {
            let Settled::Conflict(cause) = settled else {
                break;
            };
            *left = conflicts;
            self.blame(region, cause)?;
            let Some(decision) = self.newest_culprit() else {
                return Ok(Some(Ended::Exhausted));
            };
            settled = self.turn::<A>(region, decision)?;
        }
        match settled {
            Settled::AtRest => Ok(None),
            Settled::Conflict(_) | Settled::Unknown => Ok(Some(Ended::Unknown)),
        }
    }

    // Finds the decisions on which the conflict at a gate or a link rests.
    fn blame(&mut self, region: &Region, cause: Cause) -> Result<(), OutOfMemory>
        requires { IsSizedFor region.now.net.now self.old }
        ensures { self.new ≡ self.old }
    {
        self.culprits.blame(
            region.net,
            region.links,
            self.draft.changes(),
            cause,
            self.made.len(),
            &mut self.activity,
        )
    }

    // Takes decisions back down to the newest one on which the conflict rests and of which a part is left, and gives that.
    fn newest_culprit(&mut self) -> Option<Decision>
        ensures same { self.new ≡ self.old }
        ensures line { IfSome result (λ decision. decision.line.0 < self.old.lines) }
    {
        for _ in 0..self.made.len() {
            let decision = self.take_back();
            if decision.is_some() {
                return decision;
            }
        }
        None
    }

    // Takes the last decision back, and gives it if the conflict rests on it and a part of it is left.
    fn take_back(&mut self) -> Option<Decision>
        ensures same { self.new ≡ self.old }
        ensures line { IfSome result (λ decision. decision.line.0 < self.old.lines) }
    {
        let decision = self.made.pop()?;
        self.draft.undo_to(decision.mark);
        let is_culprit = self.culprits.take(self.made.len());
        if is_culprit && decision.second != StateSet::EMPTY {
            return Some(decision);
        }
        drop_reasons(
            &mut self.reasons,
            &mut self.culprits,
            decision.reasons,
            is_culprit,
        );
        None
    }

    // Takes the second part of a decision, which then rests on what else the conflict rested on.
    fn turn<A: Algebra>(
        &mut self,
        region: &Region,
        decision: Decision,
    ) -> Result<Settled, OutOfMemory>
        requires sized { IsSizedFor region.now.net.now self.old }
        requires line { decision.line.0 < line_count region.now.net.now }
        ensures { self.new ≡ self.old }
    {
        self.cursor = decision.cursor;
        self.activity.go_back(decision.mark);
        let cut = Cut {
            line: decision.line,
            to: decision.second,
        };
        let settled = self.take::<A>(region, cut, StateSet::EMPTY)?;
        self.culprits.list(&mut self.reasons)?;
        Ok(settled)
    }
}

// Nothing is known to be closed.
fn at_start() -> Cursor {
    Cursor {
        steps: 0,
        changes: 0,
        places: 0,
        sources: 0,
    }
}

// What the side pins of the first step need that is open, from a place on, which goes on to that step.
fn next_side<A: Algebra>(region: &Region, labels: &[StateSet], place: &mut usize) -> Option<Cut>
    requires { length labels.now ≡ line_count region.now.net.now }
    ensures { IfSome result (λ cut. cut.line.0 < line_count region.now.net.now) }
{
    let steps = region.conditions.steps();
    for at in *place..steps.len() {
        let cut = open_side::<A>(region.net, labels, steps[at], region.conditions.kind());
        if cut.is_some() {
            return cut;
        }
        *place = at + 1;
    }
    None
}

// A decision towards the label of a line, at a pin of its gate, or at an open source.
fn pick_at<A: Algebra>(region: &Region, sight: &Sight, line: LineId) -> Option<Cut>
    requires same { sight.now.net.now ≡ region.now.net.now }
    requires line { line.0 < line_count region.now.net.now }
    ensures { IfSome result (λ cut. cut.line.0 < line_count region.now.net.now) }
{
    let states = sight.labels[line.0 as usize];
    match sight.net.gate_of(line) {
        None => pick_last::<A>(sight, line),
        Some(gate) if region.links.is_empty() => pick::<A>(sight, gate, states),
        Some(gate) => {
            let whole = !is_first_alone(region, line);
            pick_framed::<A>(sight, region.values, whole, gate, states)
        }
    }
}

// The first changed line that is open, from a place on, which goes on to that change.
fn next_changed<A: Algebra>(region: &Region, draft: &Draft, place: &mut usize) -> Option<LineId>
    requires { IsSizedFor region.now.net.now draft.now }
    ensures { IfSome result (λ line. line.0 < line_count region.now.net.now) }
{
    let changes = draft.changes();
    for at in *place..changes.len() {
        let change = &changes[at];
        let line = change.line;
        let labels = draft.labels();
        if !change.is_justified_at(labels[line.0 as usize]) && is_open::<A>(region, labels, line) {
            return Some(line);
        }
        *place = at + 1;
    }
    None
}

// Whether a line is open: one of a gate that is not justified, or a linked source that is open.
fn is_open<A: Algebra>(region: &Region, labels: &[StateSet], line: LineId) -> bool
    requires labels { length labels.now ≡ line_count region.now.net.now }
    requires line { line.0 < line_count region.now.net.now }
{
    match region.net.gate_of(line) {
        Some(gate) => !is_justified::<A>(region.net, labels, gate),
        None => {
            linked_line(region, line).is_some()
                && is_open_source::<A>(region.values, labels[line.0 as usize])
        }
    }
}

// Whether a line is in the cone and open.
pub(crate) fn is_open_inside<A: Algebra>(region: &Region, labels: &[StateSet], line: LineId) -> bool
    requires labels { length labels.now ≡ line_count region.now.net.now }
    requires line { line.0 < line_count region.now.net.now }
{
    let is_counted = match region.net.gate_of(line) {
        Some(gate) => is_inside(region, gate),
        None => true,
    };
    is_counted && is_open::<A>(region, labels, line)
}

// The first of the cone's sources that is linked and open, from a place on, which goes on to that source.
fn next_linked<A: Algebra>(
    region: &Region,
    labels: &[StateSet],
    place: &mut usize,
) -> Option<LineId>
    requires { length labels.now ≡ line_count region.now.net.now }
    ensures { IfSome result (λ line. line.0 < line_count region.now.net.now) }
{
    for at in *place..region.sources.len() {
        let source = region.sources[at];
        if is_open::<A>(region, labels, source) {
            return Some(source);
        }
        *place = at + 1;
    }
    None
}

// The first of these gates, in an order, whose line is not justified, from a place on, which goes on to that gate.
fn next_open<A: Algebra>(
    region: &Region,
    labels: &[StateSet],
    gates: &[GateId],
    order: Order,
    place: &mut usize,
) -> Option<GateId>
    requires labels { length labels.now ≡ line_count region.now.net.now }
    requires gates { All (λ gate. gate.0 < gate_count region.now.net.now) gates.now }
    ensures { IfSome result (λ gate. gate.0 < gate_count region.now.net.now) }
{
    let count = gates.len();
    for at in *place..count {
        let gate = match order {
            Order::LowestFirst | Order::MostActiveFirst => gates[at],
            Order::HighestFirst => gates[count - 1 - at],
        };
        if !is_justified::<A>(region.net, labels, gate) {
            return Some(gate);
        }
        *place = at + 1;
    }
    None
}

// Drops the reasons from a place on. Where they led to what the conflict rests on, it rests on them.
fn drop_reasons(reasons: &mut Vec<usize>, culprits: &mut Culprits, from: usize, is_culprit: bool)
    ensures { culprits.new ≡ culprits.old }
{
    for _ in from..reasons.len() {
        if let Some(reason) = reasons.pop() {
            if is_culprit {
                culprits.put(reason);
            }
        }
    }
}
