// The board: labels that are cut line by line, with a trail by which the changes are undone, and the gates and links that have to be
// narrowed again. Its cost goes by what changes: only making a board and asking all gates and links go over the netlist.
ghost use Rattle.std.specs.Prelude.{◌≡◌, ◌≢◌, ◌<◌, ◌≤◌, ◌↔◌, ◌+◌, ◌^◌, ◌∷◌, ◌++◌, [], ℕ, true, All, Contains, None, bit_and, length, take, drop, replicate, slice_set, IfOk, IsTrue};
ghost use Rattle.netlist.specs.Circuit.{gate_count, line_count};
ghost use Rattle.netlist.specs.LinkedPairs.{AreLinksOf};
ghost use Rattle.state_sets.specs.States.{IsWithin, AreWithin, all_states};
ghost use Rattle.state_sets.specs.Labellings.{IsLabelling, label_at};
ghost use Rattle.undo_trail.specs.Undoing.{undone};
ghost use Rattle.hulls.specs.declared.turn.Turn.{Turn};
ghost use Rattle.hulls.specs.Awaiting.{is_inside, gate_turn};
ghost use Rattle.hulls.specs.Boards.{IsBoardOf, link_turn};
ghost use Rattle.hulls.specs.Settling.{IsCutTo};
ghost use Rattle.hulls.specs.Links.{link_at};

use crate::Turn;
use crate::link_lists::LinkLists;
use crate::waiting::Waiting;
use crate::waking::wake;
use netlist::Netlist;
use pd_base::{GateId, LineId, OutOfMemory};
use state_sets::{Algebra, Labels, StateSet, count_states};
use std::alloc::Global;
use std::marker::Model;
use undo_trail::{Note, Trail};

/// The labels of all lines of a netlist, the trail of their changes, and the gates and links that wait to be narrowed, all of them inside a
/// part of the netlist: all gates, or some, and all links of the board.
///
/// Contracts see the labels, the notes of the changes, what waits in its order, for each gate and link whether it is inside, and the links.
#[derive(Drop)]
pub struct Board<A: Algebra> {
    labels: Labels<A>,
    trail: Trail<StateSet>,
    waiting: Waiting,
    links: LinkLists,
}

impl<A: Algebra> Model for Board<A> {
    ghost use Rattle.hulls.specs.Boards.{OnBoard, IsBoard};

    ghost Value = { OnBoard };

    ghost view = { λ b. record { labels = b.labels; notes = b.trail.notes; waiting = b.waiting.waiting; inside = b.waiting.inside; links = b.links } };

    ghost invariant = { λ b. IsBoard A.algebra.count
        (record { labels = b.labels; notes = b.trail.notes; waiting = b.waiting.waiting; inside = b.waiting.inside; links = b.links }) b.trail.room };
}

impl<A: Algebra> Board<A> {
    /// All states at each line of the netlist, these links, and those gates inside whose flag, by gate number, is true; nothing is noted,
    /// and nothing waits. It fails only where memory runs out, of which it takes for each line a note for each state beside its set, and
    /// for each gate and link some bytes; where there are links, some for each line, too.
    pub fn within(
        alloc: Global,
        net: &Netlist,
        inside: Vec<bool>,
        links: &[(LineId, LineId)],
    ) -> Result<Board<A>, OutOfMemory>
        requires gates { length inside.items ≡ gate_count net.now }
        requires of { AreLinksOf net.now links.now }
        ensures { IfOk result (λ b. b ≡ record {
          labels = replicate (line_count net.now) (all_states A.algebra.count);
          notes = [];
          waiting = [];
          inside = inside.items ++ replicate (length links.now) true;
          links = links.now;
        }) }
    {
        let lines = net.lines() as usize;
        let labels = Labels::full(alloc, net)?;
        let inside = with_links(inside, links.len())?;
        let links = LinkLists::new(alloc, lines, links)?;
        Board::over(alloc, net, labels, inside, links)
    }

    /// The same board with these links, where it had none; nothing waits. It fails only where memory runs out.
    pub fn with_links(
        self,
        alloc: Global,
        net: &Netlist,
        links: &[(LineId, LineId)],
    ) -> Result<Board<A>, OutOfMemory>
        requires gates { length self.inside ≡ gate_count net.now }
        requires of { AreLinksOf net.now links.now }
        ensures { IfOk result (λ b. b ≡ record self {
          waiting = [];
          inside = self.inside ++ replicate (length links.now) true;
          links = links.now;
        }) }
    {
        let lines = net.lines() as usize;
        let inside = with_links(self.waiting.into_inside(), links.len())?;
        Ok(Board {
            labels: self.labels,
            trail: self.trail,
            waiting: Waiting::new(alloc, inside)?,
            links: LinkLists::new(alloc, lines, links)?,
        })
    }

    // These labels and links, and those gates inside whose flag is true.
    fn over(
        alloc: Global,
        net: &Netlist,
        labels: Labels<A>,
        inside: Vec<bool>,
        links: LinkLists,
    ) -> Result<Board<A>, OutOfMemory>
        requires labelling { IsLabelling A.algebra.count net.now labels }
        ensures { IfOk result (λ b. b ≡ record { labels = labels; notes = []; waiting = []; inside = inside.items; links = links }) }
    {
        let trail = Trail::new(alloc, net.lines() as usize * count_states::<A>() as usize)?;
        let waiting = Waiting::new(alloc, inside)?;
        Ok(Board {
            labels,
            trail,
            waiting,
            links,
        })
    }

    /// The set of a line.
    pub fn get(&self, line: LineId) -> StateSet
        requires { line.0 < length self.now.labels }
        ensures set { result ≡ label_at self.now.labels line.0 }
        ensures within { IsWithin A.algebra.count result }
    {
        self.labels.get(line)
    }

    /// The sets of all lines, by line number.
    pub fn labels(&self) -> &[StateSet]
        ensures labels { result.now ≡ self.now.labels }
        ensures within { AreWithin A.algebra.count result.now }
    {
        self.labels.as_slice()
    }

    /// Whether a gate is inside.
    pub fn is_inside(&self, gate: GateId) -> bool
        requires { gate.0 < length self.now.inside }
        ensures { result ≡ is_inside self.now.inside gate.0 }
    {
        self.waiting.is_inside(gate)
    }

    // The link of this number.
    pub(crate) fn link(&self, link: u32) -> (LineId, LineId)
        requires { link < length self.now.links }
        ensures { result ≡ link_at self.now.links link }
    {
        self.links.link(link)
    }

    /// How many changes are noted: the mark to which `undo_to` undoes all that change from now on.
    pub fn mark(&self) -> usize
        ensures { result ≡ length self.now.notes }
    {
        self.trail.mark()
    }

    /// The changes that are noted, from the first on, each with its line and the set that stood there.
    pub fn changes(&self) -> &[Note<StateSet>]
        ensures notes { result.now ≡ self.now.notes }
        ensures on_lines { All (λ note. note.index < length self.now.labels) result.now }
    {
        self.trail.notes()
    }

    /// Lets a gate wait, if it is inside. Takes no memory.
    pub fn ask(&mut self, gate: GateId)
        requires { gate.0 < length self.old.inside }
        ensures labels { self.new ≡ record self.old { waiting = self.new.waiting } }
        ensures waits { is_inside self.old.inside gate.0 ≡ true → Contains self.new.waiting (gate_turn gate.0) }
        ensures stays { (other : Turn) → Contains self.old.waiting other → Contains self.new.waiting other }
    {
        self.ask_turn(Turn::of_gate(gate));
    }

    // The same for a gate or link.
    fn ask_turn(&mut self, turn: Turn)
        requires { turn.0 < length self.old.inside }
        ensures labels { self.new ≡ record self.old { waiting = self.new.waiting } }
        ensures waits { is_inside self.old.inside turn.0 ≡ true → Contains self.new.waiting turn }
        ensures stays { (other : Turn) → Contains self.old.waiting other → Contains self.new.waiting other }
    {
        self.waiting.add(turn);
    }

    /// Lets all gates inside wait, those of the lowest ranks first, and behind them all links. Takes no memory.
    pub fn ask_all(&mut self, net: &Netlist)
        requires { IsBoardOf net.now self.old }
        ensures labels { self.new ≡ record self.old { waiting = self.new.waiting } }
        ensures waits { (gate : ℕ) → gate < gate_count net.now → is_inside self.old.inside gate ≡ true
            → Contains self.new.waiting (gate_turn gate) }
        ensures links_wait { (link : ℕ) → link < length self.old.links → Contains self.new.waiting (link_turn net.now link) }
    {
        self.ask_gates(net);
        self.ask_links(net.gates());
    }

    // Lets all gates inside wait.
    fn ask_gates(&mut self, net: &Netlist)
        requires { IsBoardOf net.now self.old }
        ensures labels { self.new ≡ record self.old { waiting = self.new.waiting } }
        ensures waits { (gate : ℕ) → gate < gate_count net.now → is_inside self.old.inside gate ≡ true
            → Contains self.new.waiting (gate_turn gate) }
    {
        for gate in net.order() {
            self.ask(*gate);
        }
    }

    // Lets all links wait, which are numbered on from here.
    fn ask_links(&mut self, gates: u32)
        requires room { gates + length self.old.links ≤ length self.old.inside }
        requires few { length self.old.inside < 2 ^ 32 }
        requires links_inside { (link : ℕ) → link < length self.old.links → is_inside self.old.inside (gates + link) ≡ true }
        ensures labels { self.new ≡ record self.old { waiting = self.new.waiting } }
        ensures stays { (turn : Turn) → Contains self.old.waiting turn → Contains self.new.waiting turn }
        ensures waits { (link : ℕ) → link < length self.old.links → Contains self.new.waiting (record { 0 = gates + link }) }
    {
        for link in 0..self.links.len() {
            self.ask_turn(Turn::of_link(gates, link as u32));
        }
    }

    // Whether nothing waits.
    pub(crate) fn is_resting(&self) -> bool
        ensures { IsTrue result ↔ (self.now.waiting ≡ []) }
    {
        self.waiting.is_empty()
    }

    // Takes the first gate or link of those that wait.
    pub(crate) fn next(&mut self) -> Turn
        requires { self.old.waiting ≢ [] }
        ensures waiting { self.old.waiting ≡ result ∷ self.new.waiting }
        ensures labels { self.new ≡ record self.old { waiting = self.new.waiting } }
        ensures is_inside { is_inside self.old.inside result.0 ≡ true }
    {
        self.waiting.take()
    }

    /// Nothing waits any more.
    pub fn rest(&mut self)
        ensures { self.new ≡ record self.old { waiting = [] } }
    {
        self.waiting.clear();
    }

    /// Cuts the set of a line down to the states that it shares with another set. Where that takes states, it notes the change and
    /// lets the gates inside and the links wait that have the line among theirs. Gives the set that is left. Takes no memory.
    pub fn cut(&mut self, net: &Netlist, line: LineId, to: StateSet) -> StateSet
        requires of { IsBoardOf net.now self.old }
        requires line { line.0 < line_count net.now }
        ensures cut { IsCutTo A.algebra.count net.now None line.0 to self.old self.new }
        ensures left { result ≡ label_at self.new.labels line.0 }
    {
        self.cut_in(net, line, to, None)
    }

    // The same in the narrowing of a gate, which is passed by if it is given. Most cuts take no states, and that is seen without a call.
    #[inline(always)]
    pub(crate) fn cut_in(
        &mut self,
        net: &Netlist,
        line: LineId,
        to: StateSet,
        passed: Option<GateId>,
    ) -> StateSet
        requires of { IsBoardOf net.now self.old }
        requires line { line.0 < line_count net.now }
        ensures cut { IsCutTo A.algebra.count net.now passed line.0 to self.old self.new }
        ensures left { result ≡ label_at self.new.labels line.0 }
    {
        let old = self.labels.get(line);
        let new = old.intersect(to);
        if new.0 == old.0 {
            return old;
        }
        self.take_states(net, line, to, passed)
    }

    // The same where that takes states: a call, so that `cut_in` is small.
    #[inline(never)]
    fn take_states(
        &mut self,
        net: &Netlist,
        line: LineId,
        to: StateSet,
        passed: Option<GateId>,
    ) -> StateSet
        requires of { IsBoardOf net.now self.old }
        requires line { line.0 < line_count net.now }
        requires takes { bit_and (label_at self.old.labels line.0).0 to.0 ≢ (label_at self.old.labels line.0).0 }
        ensures cut { IsCutTo A.algebra.count net.now passed line.0 to self.old self.new }
        ensures left { result ≡ label_at self.new.labels line.0 }
    {
        let old = self.labels.get(line);
        let new = old.intersect(to);
        self.labels.cut(line, to);
        self.trail.note(line.0, old);
        wake(&mut self.waiting, net, line, passed);
        self.links.wake(&mut self.waiting, net.gates(), line);
        new
    }

    /// Gives a line another set in the place of its own, as before a first narrowing: this is noted nowhere, and lets nothing wait. Takes
    /// no memory.
    pub fn write(&mut self, line: LineId, set: StateSet)
        requires line { line.0 < length self.old.labels }
        requires set { IsWithin A.algebra.count set }
        requires unnoted { self.old.notes ≡ [] }
        ensures { self.new ≡ record self.old { labels = slice_set self.old.labels line.0 set } }
    {
        let sets = self.labels.as_mut_slice();
        sets[line.0 as usize] = set;
    }

    /// Undoes the changes that were noted since there were so many, the last one first, and lets nothing wait any more. Takes no memory.
    pub fn undo_to(&mut self, mark: usize)
        ensures labels { self.new.labels ≡ undone (drop mark self.old.notes) self.old.labels }
        ensures notes { self.new.notes ≡ take mark self.old.notes }
        ensures waiting { self.new.waiting ≡ [] }
        ensures inside { self.new.inside ≡ self.old.inside }
        ensures links { self.new.links ≡ self.old.links }
    {
        self.waiting.clear();
        self.trail.undo_to(self.labels.as_mut_slice(), mark);
    }
}

// The flags with as many more that are up.
fn with_links(mut inside: Vec<bool>, links: usize) -> Result<Vec<bool>, OutOfMemory>
    requires { length inside.items + links < 2 ^ 32 }
    ensures { IfOk result (λ flags. flags.items ≡ inside.items ++ replicate links true) }
{
    inside.resize(inside.len() + links, true)?;
    Ok(inside)
}
