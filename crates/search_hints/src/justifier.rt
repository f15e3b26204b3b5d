// The private justifier: states for the sources of a cone, found by decisions on any of its lines. What it finds is a proposal, which
// evaluation judges; so its contracts say that it ends and stays within its room, and no more. It takes the conditions of the path's steps
// that are not met, then the lines that its decisions changed and that are not justified, then those that were not justified at the
// beginning; it brings a pin to what would justify them, narrows, and at a conflict goes back to the last decision on which the conflict
// rests. It is tried with the lowest levels first, and once more with the highest first where the conflicts ran out. With links it looks
// for a first vector and last values that go with it, in the two frames of the path's end, and completes what it found by the links;
// robust tests with the lowest levels first alone; and where the conflicts ran out, it goes on with the lines first on which late conflicts
// rested, and where a budget was spent it does so in rounds, from the beginning in each.
ghost use Rattle.std.specs.Prelude.{◌≡◌, ◌<◌, [], length, All, IfOk};
ghost use Rattle.netlist.specs.Circuit.{line_count, HasLines};
ghost use Rattle.netlist.specs.Paths.{IsPrefix, end_of};
ghost use Rattle.hulls.specs.Conditions.{IsEnteredOn};
ghost use Rattle.cones.specs.KeptCones.{IsConeFor, IsConeAt};
ghost use Rattle.search_hints.specs.Drafts.{IsJustifierOf, IsSizedFor, IsConeIn};

use crate::completing::{Completed, like_firsts, like_states};
use crate::decisions::{Decisions, Ended, Order};
use crate::first_values::FirstValues;
use crate::frames::Frames;
use crate::grounds::Grounds;
use crate::heavy_lines::lead_by_weight;
use crate::link_ends::LinkEnds;
use crate::patience::Patience;
use crate::picking::Sight;
use crate::region::{Region, is_first_alone};
use crate::source_weights::SourceWeights;
use crate::tree_limits::TreeLimits;
use crate::weights::Weights;
use cones::Cone;
use hulls::{Conditions, enter_all};
use netlist::Netlist;
use pd_base::{GateId, Kind, LineId, OutOfMemory, Path};
use state_sets::{Algebra, State, StateSet};
use std::alloc::Global;
use std::marker::Model;
use undo_trail::Note;

// The most conflicts in one order where a budget was spent.
const MOST_CONFLICTS: u32 = 300;
// How often the most active lines are decided on first from the beginning, where a budget was spent: what is active stays from round to
// round, so that each one begins with what those before failed at, and ten find what one of ten times the conflicts doesn't.
const MOST_ROUNDS: u32 = 10;
// The most conflicts of a proposal in one order before any split.
const FIRST_CONFLICTS: u32 = 20;
// The same with links, where a pair is harder to find by splits; and in the order of activity.
const FIRST_LINKED_CONFLICTS: u32 = 30;

const FIRST_ACTIVE_CONFLICTS: u32 = 100;
// By how much more a conflict counts for the split of a tree than the one before it, as a part.
const GROWTH_PART: u64 = 33;

/// How much is tried.
#[derive(Clone, Copy)]
pub enum Effort {
    /// As much as pays before any split.
    Little,
    /// As much as pays where a budget was spent.
    Much,
}

/// Room for searches by decisions on lines. It serves all searches on one netlist. Contracts see the conditions that are entered, and
/// for how many lines and gates there is room.
#[derive(Drop)]
pub struct Justifier {
    conditions: Conditions,
    decisions: Decisions,
    grounds: Grounds,
    // of sources that were assumed, and of all lines that mattered
    weights: SourceWeights,
    line_weights: Weights,
    for_proposals: Patience,
    tree_limits: TreeLimits,
    links: LinkEnds,
    values: FirstValues,
    frames: Frames,
    completed: Completed,
}

impl Model for Justifier {
    ghost use Rattle.search_hints.specs.Drafts.{Prepared, AreBeside};

    ghost Value = { Prepared };

    ghost view = { λ j. record { entered = j.conditions; sizes = j.decisions } };

    ghost invariant = { λ j. AreBeside j.decisions.lines j.grounds j.frames j.completed };
}

impl Justifier {
    /// Room for the lines, gates and levels of a netlist, and for these links. It fails only where memory runs out.
    pub fn new<A: Algebra>(
        alloc: Global,
        net: &Netlist,
        links: &[(LineId, LineId)],
    ) -> Result<Justifier, OutOfMemory>
        ensures { IfOk result (IsJustifierOf net.now) }
    {
        let conditions = Conditions::new(alloc, net, Kind::Robust)?;
        let weights = SourceWeights::new(alloc, net.sources() as usize, GROWTH_PART)?;
        let line_weights = Weights::new(alloc, net.lines() as usize, GROWTH_PART)?;
        let grounds = Grounds::new(alloc, net)?;
        let tree_limits = TreeLimits::new(!links.is_empty());
        let links = LinkEnds::new(alloc, net, links)?;
        let decisions = Decisions::new::<A>(alloc, net, links.room())?;
        let frames = Frames::new(alloc, net)?;
        let completed = Completed::new(alloc, net)?;
        Ok(Justifier {
            conditions,
            decisions,
            grounds,
            weights,
            line_weights,
            for_proposals: Patience::new(FIRST_CONFLICTS, 0),
            tree_limits,
            links,
            values: FirstValues::new::<A>(),
            frames,
            completed,
        })
    }

    /// Learns from a search for tests of a kind whether it ended in a refutation.
    pub fn learn(&mut self, kind: Kind, is_refuted: bool)
        ensures { self.new ≡ self.old }
    {
        self.for_proposals.learn(kind, is_refuted);
    }

    /// Learns from a search for tests of a kind whether its first tree, which goes by weights, spent its splits.
    pub fn learn_first_tree(&mut self, kind: Kind, is_spent: bool)
        ensures { self.new ≡ self.old }
    {
        self.tree_limits.learn(kind, is_spent);
    }

    /// Learns from a search for tests of a kind with how many splits its tree by backtrace refuted the conditions, 0 where it did not.
    pub fn learn_backtrace(&mut self, kind: Kind, splits: u32)
        ensures { self.new ≡ self.old }
    {
        self.tree_limits.learn_backtrace(kind, splits);
    }

    /// How many splits the first tree of a search for tests of a kind may have, which goes by weights: so many as pay, which may be more
    /// than the budget.
    pub fn first_tree_splits(&self, kind: Kind) -> u32 {
        self.tree_limits.limit(kind)
    }

    /// A tree by weights begins: lines have these labels, and so many changes were noted.
    pub fn begin_tree(&mut self, labels: &[StateSet], changes: usize)
        ensures { self.new ≡ self.old }
    {
        self.grounds.begin(labels, changes);
    }

    /// Makes the sources heavier on which a conflict rests, of those that were assumed since the tree began: `changes` are all that led to
    /// the labels that are seen, and the last one left its line no state. The cone is that of the path's end, and the conditions are those
    /// of the kind at the path's gates. This costs the changes since the tree began, and takes no memory.
    pub fn weigh<A: Algebra>(
        &mut self,
        sight: &Sight,
        changes: &[Note<StateSet>],
        cone: &Cone,
        path: &Path,
        kind: Kind,
    )
        requires of { IsJustifierOf sight.now.net.now self.old }
        requires changes { All (λ change. change.index < line_count sight.now.net.now) changes.now }
        requires cone_for { IsConeFor sight.now.net.now cone.now }
        requires cone_at { IsConeAt sight.now.net.now (end_of sight.now.net.now path.now) cone.now }
        requires prefix { IsPrefix sight.now.net.now path.now }
        ensures { IsJustifierOf sight.now.net.now self.new }
    {
        self.conditions.set_kind(kind);
        enter_all(&mut self.conditions, sight.net, path);
        self.trace::<A>(sight, changes, cone);
        leave_all(&mut self.conditions);
        self.weights.grow();
        self.line_weights.grow();
    }

    // The same where the conditions are entered.
    fn trace<A: Algebra>(&mut self, sight: &Sight, changes: &[Note<StateSet>], cone: &Cone)
        requires sizes { IsSizedFor sight.now.net.now self.old.sizes }
        requires changes { All (λ change. change.index < line_count sight.now.net.now) changes.now }
        requires cone { IsConeIn sight.now.net.now cone.now }
        requires entered { IsEnteredOn sight.now.net.now self.old.entered }
        ensures { self.new ≡ self.old }
    {
        let region = Region {
            net: sight.net,
            conditions: &self.conditions,
            marks: cone.marks(),
            inside: cone.marks(),
            sources: cone.sources(),
            liked: sight.liked,
            links: &self.links,
            values: self.values,
        };
        self.grounds.trace::<A>(
            &region,
            sight.labels,
            changes,
            &mut self.weights,
            &mut self.line_weights,
        );
    }

    /// A source on which late conflicts rest, at which to split after these changes, if there is one. The cone is that of the path's end.
    pub fn lead<A: Algebra>(
        &self,
        sight: &Sight,
        changes: &[Note<StateSet>],
        cone: &Cone,
    ) -> Option<LineId>
        requires { All (λ change. change.index < line_count sight.now.net.now) changes.now }
    {
        if self.links.is_empty() {
            lead_by_weight::<A>(sight, cone, changes, &self.line_weights)
        } else {
            self.weights.heaviest::<A>(cone.marks(), sight.labels)
        }
    }

    /// Looks for states of the cone's sources that justify the labels that all of its lines are seen with, under the conditions of a
    /// kind at the gates of a path that ends where the cone does. Whether it found some: `labels` then has them, with the states that are
    /// left where any does. It costs the cone, and what narrowing changes there. It fails only where memory runs out, and still serves
    /// then.
    pub fn propose<A: Algebra>(
        &mut self,
        alloc: Global,
        sight: &Sight,
        cone: &Cone,
        path: &Path,
        kind: Kind,
        effort: Effort,
    ) -> Result<bool, OutOfMemory>
        requires of { IsJustifierOf sight.now.net.now self.old }
        requires cone_for { IsConeFor sight.now.net.now cone.now }
        requires cone_at { IsConeAt sight.now.net.now (end_of sight.now.net.now path.now) cone.now }
        requires prefix { IsPrefix sight.now.net.now path.now }
        ensures { IsJustifierOf sight.now.net.now self.new }
    {
        self.set_frames(alloc, sight.net, cone, path)?;
        self.conditions.set_kind(kind);
        enter_all(&mut self.conditions, sight.net, path);
        let limits = self.limits(kind, effort);
        let found = self.decide::<A>(sight, cone, limits);
        leave_all(&mut self.conditions);
        if let Ok(true) = found
            && !self.links.is_empty()
        {
            return Ok(self.complete::<A>(sight));
        }
        found
    }

    // How many conflicts there may be in each order.
    fn limits(&self, kind: Kind, effort: Effort) -> Limits {
        let is_linked = !self.links.is_empty();
        let by_level = match effort {
            Effort::Little if is_linked => Some(FIRST_LINKED_CONFLICTS),
            Effort::Little => Some(self.for_proposals.limit(kind)),
            Effort::Much if is_linked => None,
            Effort::Much => Some(MOST_CONFLICTS),
        };
        let by_activity = match effort {
            Effort::Little if is_linked => Some(FIRST_ACTIVE_CONFLICTS),
            Effort::Much if is_linked => Some(MOST_CONFLICTS),
            Effort::Little | Effort::Much => None,
        };
        Limits {
            lowest_first: by_level,
            highest_first: match kind {
                // with links the highest levels first hardly ever end a search for a robust test
                Kind::Robust if is_linked => None,
                Kind::Robust | Kind::Nonrobust => by_level,
            },
            most_active_first: by_activity,
            active_rounds: match effort {
                Effort::Little => 1,
                Effort::Much => MOST_ROUNDS,
            },
        }
    }

    // Keeps the frames of a path's end, where there are links.
    fn set_frames(
        &mut self,
        alloc: Global,
        net: &Netlist,
        cone: &Cone,
        path: &Path,
    ) -> Result<(), OutOfMemory>
        requires of { IsJustifierOf net.now self.old }
        requires cone { IsConeIn net.now cone.now }
        ensures { self.new ≡ self.old }
    {
        let end = end_of(net, path);
        if self.links.is_empty() || end.0 >= net.lines() {
            return Ok(());
        }
        self.frames.set_end(alloc, net, &self.links, cone, end)
    }

    // The same where the conditions are entered.
    fn decide<A: Algebra>(
        &mut self,
        sight: &Sight,
        cone: &Cone,
        limits: Limits,
    ) -> Result<bool, OutOfMemory>
        requires sizes { IsSizedFor sight.now.net.now self.old.sizes }
        requires cone { IsConeIn sight.now.net.now cone.now }
        requires entered { IsEnteredOn sight.now.net.now self.old.entered }
        ensures { self.new ≡ self.old }
    {
        if !self.links.is_empty() {
            return self.decide_framed::<A>(sight, cone, limits);
        }
        let region = Region {
            net: sight.net,
            conditions: &self.conditions,
            marks: cone.marks(),
            inside: cone.marks(),
            sources: cone.sources(),
            liked: sight.liked,
            links: &self.links,
            values: self.values,
        };
        begin::<A>(
            &mut self.decisions,
            &region,
            sight.labels,
            cone.sources(),
            cone.gates(),
            &[],
        )?;
        search::<A>(&mut self.decisions, &region, limits)
    }

    // The same in the two frames.
    fn decide_framed<A: Algebra>(
        &mut self,
        sight: &Sight,
        cone: &Cone,
        limits: Limits,
    ) -> Result<bool, OutOfMemory>
        requires sizes { IsSizedFor sight.now.net.now self.old.sizes }
        requires cone { IsConeIn sight.now.net.now cone.now }
        requires entered { IsEnteredOn sight.now.net.now self.old.entered }
        ensures { self.new ≡ self.old }
    {
        let region = Region {
            net: sight.net,
            conditions: &self.conditions,
            marks: self.frames.second_marks(),
            inside: self.frames.marks(),
            sources: self.frames.sources(),
            liked: sight.liked,
            links: &self.links,
            values: self.values,
        };
        begin::<A>(
            &mut self.decisions,
            &region,
            sight.labels,
            cone.sources(),
            self.frames.first_alone(),
            self.frames.second_gates(),
        )?;
        search::<A>(&mut self.decisions, &region, limits)
    }

    /// Makes a pair that keeps the links of the labels of the cone's sources, of what is liked of them as far as they let it. Whether it
    /// may be a test by the labels of all lines of the two frames: `labels` then has its states at the sources. The cone is that of the
    /// path's end. This costs the sources of the cone and the two frames. It fails only where memory runs out, and still serves then.
    pub fn prefer<A: Algebra>(
        &mut self,
        alloc: Global,
        sight: &Sight,
        cone: &Cone,
        path: &Path,
    ) -> Result<bool, OutOfMemory>
        requires of { IsJustifierOf sight.now.net.now self.old }
        requires cone_for { IsConeFor sight.now.net.now cone.now }
        requires cone_at { IsConeAt sight.now.net.now (end_of sight.now.net.now path.now) cone.now }
        ensures { IsJustifierOf sight.now.net.now self.new }
    {
        self.set_frames(alloc, sight.net, cone, path)?;
        write_liked(&mut self.decisions, self.values, &self.links, sight, cone);
        Ok(self.complete::<A>(sight))
    }

    // Completes what the labels of the sources tell, to a pair that keeps the links: the values under the first vector in the first frame,
    // with them the states of linked sources, and with these the states in the second frame. Whether each line's state is in the label
    // that it is seen with; it ends with the first one that is not.
    fn complete<A: Algebra>(&mut self, sight: &Sight) -> bool
        requires of { IsSizedFor sight.now.net.now self.old.sizes }
        ensures { self.new ≡ self.old }
    {
        let Justifier {
            decisions,
            links,
            values,
            frames,
            completed,
            ..
        } = self;
        completed.take(sight.net, frames.sources(), decisions.labels(), *values);
        completed.take(
            sight.net,
            frames.first_sources(),
            decisions.labels(),
            *values,
        );
        completed.compute(sight.net, frames.first_gates());
        completed.complete_sources::<A>(decisions, links, sight, frames.sources())
            && completed.complete_gates::<A>(decisions, sight, frames.second_gates())
    }

    /// From now on the lines of the two frames are liked to be as the pair has them that was completed last.
    pub fn like<A: Algebra>(&self, liked: &mut [StateSet])
        ensures { length liked.new ≡ length liked.old }
    {
        like_firsts(
            self.frames.lines(),
            self.completed.values(),
            self.values,
            liked,
        );
        like_states::<A>(
            self.frames.second_lines(),
            self.decisions.labels(),
            self.values,
            liked,
        );
    }

    /// What a line is liked to be in that is in this state under a test: the states with its last value, and with links the first one
    /// too.
    pub fn liked<A: Algebra>(&self, state: State) -> StateSet
        requires { state.0 < A.algebra.count }
    {
        let lasts = A::ending_at(A::last(state));
        if self.links.is_empty() {
            lasts
        } else {
            lasts.intersect(self.values.spread(StateSet::only(state)))
        }
    }

    /// The labels that the last call of `propose` came to, by line number; of lines that are not in its cone those of earlier calls.
    pub fn labels(&self) -> &[StateSet]
        ensures { length result.now ≡ self.now.sizes.lines }
    {
        self.decisions.labels()
    }
}

// Writes what is liked of the labels of a cone's sources, as far as they let it: the states; or of a linked source the first values; or
// anything. A source without a link is sooner steady then than in its first value.
fn write_liked(
    decisions: &mut Decisions,
    values: FirstValues,
    links: &LinkEnds,
    sight: &Sight,
    cone: &Cone,
)
    requires sizes { IsSizedFor sight.now.net.now decisions.old }
    requires cone { IsConeIn sight.now.net.now cone.now }
    ensures { decisions.new ≡ decisions.old }
{
    decisions.forget();
    for source in cone.sources() {
        let at = source.0 as usize;
        let label = sight.labels[at];
        let liked = sight.liked[at];
        let exact = label.intersect(liked);
        let near = if exact != StateSet::EMPTY {
            exact
        } else if links.line_of(*source).is_some() {
            or_else(label.intersect(values.spread(liked)), label)
        } else {
            label
        };
        decisions.write(*source, near);
    }
}

// A set, or another one where it has no state.
fn or_else(set: StateSet, other: StateSet) -> StateSet {
    if set == StateSet::EMPTY { other } else { set }
}

// The end of a path of a netlist.
fn end_of(net: &Netlist, path: &Path) -> LineId {
    match path.steps().last() {
        Some(step) if step.gate.0 < net.gates() => net.line_of(step.gate),
        _ => path.source(),
    }
}

// Copies the labels of the lines of these sources and gates, and notes which of the gates are open, the later ones behind the others.
fn begin<A: Algebra>(
    decisions: &mut Decisions,
    region: &Region,
    labels: &[StateSet],
    sources: &[LineId],
    gates: &[GateId],
    later: &[GateId],
) -> Result<(), OutOfMemory>
    requires sizes { IsSizedFor region.now.net.now decisions.old }
    requires labels { length labels.now ≡ line_count region.now.net.now }
    requires sources { HasLines region.now.net.now sources.now }
    ensures { decisions.new ≡ decisions.old }
{
    decisions.forget();
    for source in sources {
        decisions.write(*source, seen(region, labels, *source));
    }
    begin_gates::<A>(decisions, region, labels, gates)?;
    begin_gates::<A>(decisions, region, labels, later)
}

// The same of gates.
fn begin_gates<A: Algebra>(
    decisions: &mut Decisions,
    region: &Region,
    labels: &[StateSet],
    gates: &[GateId],
) -> Result<(), OutOfMemory>
    requires sizes { IsSizedFor region.now.net.now decisions.old }
    requires labels { length labels.now ≡ line_count region.now.net.now }
    ensures { decisions.new ≡ decisions.old }
{
    for gate in gates {
        if gate.0 < region.net.gates() {
            let line = region.net.line_of(*gate);
            decisions.write(line, seen(region, labels, line));
            decisions.note_open::<A>(region.net, *gate)?;
        }
    }
    Ok(())
}

// The label of a line, as far as it counts.
fn seen(region: &Region, labels: &[StateSet], line: LineId) -> StateSet
    requires labels { length labels.now ≡ line_count region.now.net.now }
    requires line { line.0 < line_count region.now.net.now }
{
    let label = labels[line.0 as usize];
    if is_first_alone(region, line) {
        region.values.spread(label)
    } else {
        label
    }
}

// How many conflicts there may be in each order, none where it is left out; and how often there is a round of the last one.
#[derive(Clone, Copy)]
struct Limits {
    lowest_first: Option<u32>,
    highest_first: Option<u32>,
    most_active_first: Option<u32>,
    active_rounds: u32,
}

// Decides in one order after another, as long as that takes too many conflicts: the lines of the lowest levels first, those of the
// highest, the most active ones, in some rounds.
fn search<A: Algebra>(
    decisions: &mut Decisions,
    region: &Region,
    limits: Limits,
) -> Result<bool, OutOfMemory>
    requires { IsSizedFor region.now.net.now decisions.old }
    ensures { decisions.new ≡ decisions.old }
{
    let ended = Ended::Unknown;
    let ended = go_on::<A>(
        decisions,
        region,
        ended,
        Order::LowestFirst,
        limits.lowest_first,
    )?;
    let ended = go_on::<A>(
        decisions,
        region,
        ended,
        Order::HighestFirst,
        limits.highest_first,
    )?;
    let ended = go_round::<A>(decisions, region, ended, limits)?;
    Ok(matches!(ended, Ended::Justified))
}

// Decides on the most active lines first, from the beginning in each round.
fn go_round<A: Algebra>(
    decisions: &mut Decisions,
    region: &Region,
    ended: Ended,
    limits: Limits,
) -> Result<Ended, OutOfMemory>
    requires { IsSizedFor region.now.net.now decisions.old }
    ensures { decisions.new ≡ decisions.old }
{
    let mut ended = ended;
    for _ in 0..limits.active_rounds {
        ended = go_on::<A>(
            decisions,
            region,
            ended,
            Order::MostActiveFirst,
            limits.most_active_first,
        )?;
    }
    Ok(ended)
}

// Decides in a further order, where those before took too many conflicts and this one is not left out.
fn go_on<A: Algebra>(
    decisions: &mut Decisions,
    region: &Region,
    ended: Ended,
    order: Order,
    limit: Option<u32>,
) -> Result<Ended, OutOfMemory>
    requires { IsSizedFor region.now.net.now decisions.old }
    ensures { decisions.new ≡ decisions.old }
{
    match (ended, limit) {
        (Ended::Unknown, Some(most)) => decisions.search::<A>(region, order, most),
        _ => Ok(ended),
    }
}

// Leaves all steps.
fn leave_all(conditions: &mut Conditions)
    ensures { conditions.new ≡ record conditions.old { steps = [] } }
{
    for _ in 0..conditions.steps().len() {
        conditions.leave();
    }
}
