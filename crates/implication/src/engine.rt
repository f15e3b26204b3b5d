// The engine: a netlist with the rules, what is assumed of it, and the labels that follow. Its board narrows on from each assumption
// at the gates that have to be narrowed again, and the trail of the board leads back to what stood before. After an engine is made,
// nothing costs the circuit: a call costs what changes, and one that begins or ends what its source reaches.
ghost use Rattle.std.specs.Prelude.{◌≡◌, ◌<◌, ◌≤◌, ◌-◌, true, false, ◌∷◌, ◌++◌, [], List, length, All, Some, None, Ok, Err, IfOk, IfErr, OnOk, IfSome, IfNone, IsSome, IsTrue, ◌↔◌};
ghost use Rattle.std.specs.Option.{option_map};
ghost use Rattle.pd_base.specs.Links.{links_of};
ghost use Rattle.netlist.specs.Circuit.{source_count, line_count, gate_count, gate_line};
ghost use Rattle.netlist.specs.LinkedPairs.{FitRules, AreLinksOf};
ghost use Rattle.hulls.specs.Awaiting.{is_inside};
ghost use Rattle.netlist.specs.Paths.{Connects, IsPrefix, end_of, line_after};
ghost use Rattle.netlist.specs.Pins.{IsPinOn};
ghost use Rattle.state_sets.specs.States.{AreWithin};
ghost use Rattle.trees.specs.Algebras.{algebra_of};
ghost use Rattle.implication.specs.Standing.{idle_on, told_ends, IsIdle, IsFree, IsLabels, IsTold, TellsLabels, IsEmptiedIn, IsOpenIn, end_of_scope};
ghost use Rattle.implication.specs.Moves.{with_entered, with_assumed, grown, closed_at, back_at, left_behind, idle_again, HasBegun};
ghost use Rattle.implication.specs.AlongPrefix.{HasBegunAt, HasEnteredAlong, HasEnteredTo};
ghost use Rattle.implication.specs.Clients.{ExtendsStanding, TellsOfConflict};
ghost use Rattle.implication.specs.Settings.{IsSameSetting};
ghost use Rattle.implication.specs.FirstStates.{HasFirstValues};
ghost use Rattle.implication.specs.Kept.{IsListFrom, IsLeftBefore, AreEnough, AreToldLines};

use crate::before::Before;
use crate::engine_cone::{Ends, EngineCone, all_of, cone_of, near_cone};
use crate::making::{BoardParts, Lists};
use crate::narrowing_on::{leave_step, narrow_on, put_back, take_from};
use crate::{Assumption, Beginning, Conflict, Origin, Setting};
use netlist::Netlist;
use pd_base::{Direction, GateId, Kind, LineId, OutOfMemory, Path, PinRef, Rules};
use state_sets::{Algebra, StateSet};
use std::alloc::Global;
use std::marker::Model;
use undo_trail::Note;

// An engine of near gates pays where it narrows at no more than one gate of so many. Searches took a third of the time where it narrows
// at a twelfth of the gates, and four times as long at two fifths: there backtrace leads to sources that are not told, and others are
// split.
const GATES_PER_NEAR_GATE: u32 = 4;

/// A netlist with the assumptions that the scopes on it have made, and the labels under them. All room is there from the start.
///
/// Contracts see how it stands: the circuit, the rules, the lines whose support is told, with what the outermost scope began, the list
/// of assumptions, the conflict that stands, and the count of conflicts.
// No Debug: it would print the labels of all lines, and all private types within would need it.
#[derive(Drop)]
pub struct Engine<A: Algebra, S: Setting> {
    setting: S,
    // None: all lines are told.
    ends: Option<Ends>,
    beginning: Option<Beginning>,
    lists: Lists,
    conflict: Option<LineId>,
    closings: u64,
    // For each line whether it is told.
    told: Vec<bool>,
    parts: BoardParts<A>,
}

impl<A: Algebra, S: Setting> Model for Engine<A, S> {
    ghost use Rattle.implication.specs.Standing.{Standing};

    ghost Value = { Standing };

    ghost use Rattle.std.specs.Prelude.{length, vec_capacity};
    ghost use Rattle.std.specs.Option.{option_map};
    ghost use Rattle.pd_base.specs.Links.{links_of};
    ghost use Rattle.implication.specs.Standing.{told_ends};
    ghost use Rattle.implication.specs.Kept.{KeepsStanding, AreToldLines};

    ghost view = { λ e. record {
      net = S.circuit e.setting;
      rules = S.rules e.setting;
      ends = option_map (λ v. told_ends v.lines.items v.near) e.ends;
      beginning = e.beginning;
      assumptions = e.lists.assumptions.items;
      conflict = e.conflict;
      closings = e.closings;
    } };

    ghost invariant = { λ e. (KeepsStanding A.algebra (record {
      net = S.circuit e.setting;
      rules = S.rules e.setting;
      ends = option_map (λ v. told_ends v.lines.items v.near) e.ends;
      beginning = e.beginning;
      assumptions = e.lists.assumptions.items;
      conflict = e.conflict;
      closings = e.closings;
    }) (record {
      board = e.parts.board;
      idle = e.parts.idle;
      befores = e.lists.befores.items;
      left = e.lists.left.items;
      steps = e.parts.conditions;
    }) (vec_capacity e.lists.assumptions) (vec_capacity e.lists.befores))
        × AreToldLines (S.circuit e.setting) (links_of (S.rules e.setting)) (option_map (λ v. told_ends v.lines.items v.near) e.ends) e.told.items };
}

impl<A: Algebra, S: Setting> Engine<A, S> {
    /// An engine over a netlist, on which no scope is open, with room for every list of assumptions. It tells of all lines. It fails
    /// only where memory runs out.
    pub fn new(alloc: Global, setting: S) -> Result<Engine<A, S>, OutOfMemory>
        requires fit { FitRules (S.circuit setting) (S.rules setting) }
        ensures { IfOk result (λ engine. engine ≡ idle_on (S.circuit setting) (S.rules setting) None) }
    {
        let cone = all_of(alloc, setting.netlist(), setting.rules())?;
        Engine::with_cone(alloc, setting, None, cone)
    }

    /// The same, but it tells of the lines in the support of these ends and of the sources without a link alone; a scope begins at a
    /// source that is told, only of lines that are told can sets be assumed, and only gates whose lines are told can be entered.
    pub fn within(alloc: Global, setting: S, ends: &[LineId]) -> Result<Engine<A, S>, OutOfMemory>
        requires ends { All (λ end. end.0 < line_count (S.circuit setting)) ends.now }
        requires fit { FitRules (S.circuit setting) (S.rules setting) }
        ensures { IfOk result (λ engine. engine ≡ idle_on (S.circuit setting) (S.rules setting) (Some (told_ends ends.now false))) }
    {
        // narrowing at these gates and along these links alone is enough for the lines that are told
        let cone = cone_of(alloc, setting.netlist(), setting.rules().links(), ends)?;
        let lines = Vec::from_slice(alloc, ends)?;
        let ends = Ends { lines, near: false };
        Engine::with_cone(alloc, setting, Some(ends), cone)
    }

    /// An engine of near gates, if one pays: under linked rules, where the gates at which it narrows are at most a quarter of those of the
    /// netlist. It tells of the sources without a link and of the lines near the ends alone: those in their fan-in, over no link. A scope
    /// begins at a source that is told, and only what is told can be assumed and entered. A search or a walk on it takes less than on an
    /// engine within the ends, as measured, but may split or follow fewer sources. It takes the kind of states that the rules choose, and
    /// fails only where memory runs out.
    pub fn near_if_few(
        alloc: Global,
        setting: S,
        ends: &[LineId],
    ) -> Result<Option<Engine<A, S>>, OutOfMemory>
        requires states { A.algebra ≡ algebra_of (S.rules setting) }
        requires ends { All (λ end. end.0 < line_count (S.circuit setting)) ends.now }
        requires fit { FitRules (S.circuit setting) (S.rules setting) }
        ensures { IfOk result (λ near. IfSome near (λ engine.
            engine ≡ idle_on (S.circuit setting) (S.rules setting) (Some (told_ends ends.now true)))) }
    {
        if let Rules::Linked(_) = setting.rules() {
            let near = Engine::near(alloc, setting, ends)?;
            if are_few(near.narrows(), near.net()) {
                return Ok(Some(near));
            }
        }
        Ok(None)
    }

    // The same, however many gates these are. It narrows at gates near the ends, along the links of near sources, and at the gates that are
    // first behind those; so it takes states that have first values.
    fn near(alloc: Global, setting: S, ends: &[LineId]) -> Result<Engine<A, S>, OutOfMemory>
        requires first { HasFirstValues A.algebra }
        requires ends { All (λ end. end.0 < line_count (S.circuit setting)) ends.now }
        requires fit { FitRules (S.circuit setting) (S.rules setting) }
        ensures { IfOk result (λ engine. engine ≡ idle_on (S.circuit setting) (S.rules setting) (Some (told_ends ends.now true))) }
    {
        // what is behind these links is asked for its first values alone, and closes nothing
        let cone = near_cone(alloc, setting.netlist(), setting.rules().links(), ends)?;
        let lines = Vec::from_slice(alloc, ends)?;
        let ends = Ends { lines, near: true };
        Engine::with_cone(alloc, setting, Some(ends), cone)
    }

    // The same, with these ends, and the gates and links inside.
    fn with_cone(
        alloc: Global,
        setting: S,
        ends: Option<Ends>,
        cone: EngineCone,
    ) -> Result<Engine<A, S>, OutOfMemory>
        requires told { AreEnough A.algebra (S.circuit setting) (links_of (S.rules setting)) (option_map (λ v. told_ends v.lines.items v.near) ends) cone.inside.items
            cone.links.items }
        requires one_each { length cone.inside.items ≡ gate_count (S.circuit setting) }
        requires of { AreLinksOf (S.circuit setting) cone.links.items }
        requires lines { AreToldLines (S.circuit setting) (links_of (S.rules setting)) (option_map (λ v. told_ends v.lines.items v.near) ends) cone.told.items }
        requires fit { FitRules (S.circuit setting) (S.rules setting) }
        ensures { IfOk result (λ engine. engine ≡ idle_on (S.circuit setting) (S.rules setting) (option_map (λ v. told_ends v.lines.items v.near) ends)) }
    {
        let lists = Lists::new::<A>(alloc, setting.netlist())?;
        let EngineCone {
            inside,
            links,
            told,
        } = cone;
        let parts = BoardParts::new(
            alloc,
            setting.netlist(),
            setting.rules(),
            inside,
            links.as_slice(),
        )?;
        Ok(Engine {
            setting,
            ends,
            beginning: None,
            lists,
            conflict: None,
            closings: 0,
            told,
            parts,
        })
    }

    /// The netlist.
    pub fn net(&self) -> &Netlist
        ensures { result.now ≡ self.now.net }
    {
        self.setting.netlist()
    }

    /// The rules.
    pub fn rules(&self) -> &Rules
        ensures { result.now ≡ self.now.rules }
    {
        self.setting.rules()
    }

    /// Whether a line is told.
    pub fn tells(&self, line: LineId) -> bool
        requires { line.0 < line_count self.now.net }
        ensures { IsTrue result ↔ IsTold self.now line.0 }
    {
        self.told[line.0 as usize]
    }

    /// Whether each of these lines is told.
    pub fn tells_all(&self, lines: &[LineId]) -> bool
        requires { All (λ line. line.0 < line_count self.now.net) lines.now }
        ensures { IsTrue result ↔ All (λ line. IsTold self.now line.0) lines.now }
    {
        for line in lines {
            if !self.tells(*line) {
                return false;
            }
        }
        true
    }

    // How many gates it narrows at: the more these are, the more a search on it may take.
    fn narrows(&self) -> u32 {
        let net = self.setting.netlist();
        let mut count = 0;
        for gate in 0..net.lines() - net.sources() {
            if self.parts.board.is_inside(GateId(gate)) {
                count += 1;
            }
        }
        count
    }

    // Opens the outermost scope.
    pub(crate) fn begin(&mut self, begun: Beginning)
        requires idle { self.old.beginning ≡ None }
        requires source { begun.source.0 < source_count self.old.net }
        requires told { IsTold self.old begun.source.0 }
        ensures begun { HasBegun begun self.old self.new }
        ensures idle { IsIdle self.old }
        ensures open { IfNone self.new.conflict (IsOpenIn A.algebra self.new) }
        ensures emptied { IfSome self.new.conflict (λ line. IsEmptiedIn A.algebra self.new line.0) }
        ensures free { links_of self.old.rules ≡ [] → self.new.conflict ≡ None }
    {
        self.parts.conditions.set_kind(begun.kind);
        self.beginning = Some(begun);
        self.conflict = self.parts.idle.begin(
            self.setting.netlist(),
            self.setting.rules(),
            begun,
            &mut self.parts.board,
            &self.parts.conditions,
            &mut self.parts.scratch,
        );
    }

    // Opens the outermost scope at the last line of a prefix, with its pins entered up to the first conflict, if one comes.
    pub(crate) fn begin_at(&mut self, prefix: &Path, direction: Direction, kind: Kind)
        requires idle { self.old.beginning ≡ None }
        requires prefix { IsPrefix self.old.net prefix.now }
        requires told { IsTold self.old (end_of self.old.net prefix.now) }
        ensures begun { HasBegunAt prefix.now direction kind self.old self.new }
        ensures idle { IsIdle self.old }
        ensures tells { TellsOfConflict A.algebra self.new }
    {
        self.begin(Beginning {
            source: prefix.source(),
            direction,
            kind,
        });
        if self.conflict().is_some() {
            return;
        }
        self.enter_all(prefix);
    }

    // Enters the pins of a prefix, at whose source a scope has just begun, up to the first conflict.
    fn enter_all(&mut self, prefix: &Path)
        requires prefix { IsPrefix self.old.net prefix.now }
        requires told { IsTold self.old (end_of self.old.net prefix.now) }
        requires start { HasEnteredTo A.algebra prefix.now 0 self.old }
        ensures setting { IsSameSetting self.old self.new }
        ensures beginning { self.new.beginning ≡ self.old.beginning }
        ensures along { HasEnteredAlong prefix.now self.old.closings self.new }
        ensures tells { TellsOfConflict A.algebra self.new }
    {
        for pin in prefix.steps() {
            if self.enter(*pin).is_err() {
                return;
            }
        }
    }

    // For each line a set that has its states.
    pub(crate) fn labels(&self) -> &[StateSet]
        ensures one_each { length result.now ≡ line_count self.now.net }
        ensures within { AreWithin A.algebra.count result.now }
        ensures told { self.now.conflict ≡ None
            → (labels : List StateSet) × IsLabels A.algebra self.now labels
            × TellsLabels A.algebra.count self.now labels result.now }
    {
        self.parts.board.labels()
    }

    // The changes of labels since the outermost scope began.
    pub(crate) fn changes(&self) -> &[Note<StateSet>]
        ensures { All (λ note. note.index < line_count self.now.net) result.now }
    {
        self.parts.board.changes()
    }

    // The lines at which the outermost scope began with other sets, unless it noted them as changes.
    pub(crate) fn begun_lines(&self) -> &[LineId]
        ensures { All (λ line. line.0 < line_count self.now.net) result.now }
    {
        self.parts.idle.begun_lines()
    }

    // The line of the conflict that stands, if there is one.
    pub(crate) fn conflict(&self) -> Option<LineId>
        ensures stands { result ≡ self.now.conflict }
        ensures open { IfNone result (IsOpenIn A.algebra self.now) }
        ensures emptied { IfSome result (λ line. IsEmptiedIn A.algebra self.now line.0) }
    {
        self.conflict
    }

    // The last line of the prefix.
    pub(crate) fn last_line(&self) -> LineId
        ensures end { result.0 ≡ end_of_scope self.now }
        ensures in_circuit { IsSome self.now.beginning → result.0 < line_count self.now.net }
        ensures told { IsSome self.now.beginning → IsTold self.now result.0 }
    {
        match self.beginning {
            None => LineId(0),
            Some(begun) => line_behind(
                self.setting.netlist(),
                begun.source,
                self.parts.conditions.steps(),
            ),
        }
    }

    // The number of assumptions.
    pub(crate) fn mark(&self) -> usize
        ensures { result ≡ length self.now.assumptions }
    {
        self.lists.assumptions.len()
    }

    // How many times an assume or enter came upon a conflict.
    pub(crate) fn closings(&self) -> u64
        ensures { result ≡ self.now.closings }
    {
        self.closings
    }

    // Assumes a set of a line, unless a conflict stands or no scope is open.
    pub(crate) fn assume(&mut self, line: LineId, to: StateSet) -> Result<(), Conflict>
        requires line { line.0 < line_count self.old.net }
        requires told { IsTold self.old line.0 }
        ensures idle { self.old.beginning ≡ None → self.new ≡ self.old }
        ensures held { IfSome self.old.conflict (λ emptied. (result ≡ Err (record { 0 = emptied })) × (self.new ≡ self.old)) }
        ensures ok { OnOk result (self.new ≡ grown self.old (with_assumed A.algebra.count self.old.assumptions line to)) }
        ensures err { IsFree self.old → IfErr result (λ conflict.
            self.new ≡ closed_at self.old (with_assumed A.algebra.count self.old.assumptions line to) conflict.0) }
        ensures open { OnOk result (IsOpenIn A.algebra self.new) }
        ensures emptied { IfErr result (λ conflict. IsEmptiedIn A.algebra self.new conflict.0.0) }
        ensures extends { ExtendsStanding self.old self.new }
    {
        if let Some(emptied) = self.conflict {
            return Err(Conflict(emptied));
        }
        if self.beginning.is_none() {
            return Err(Conflict(line));
        }
        let left = self.lists.left[line.0 as usize];
        let cut = left.intersect(to);
        if cut == left {
            return Ok(());
        }
        self.add(Assumption::Assumed(line, cut), left)
    }

    // Enters a pin, unless a conflict stands or no scope is open.
    pub(crate) fn enter(&mut self, pin: PinRef) -> Result<(), Conflict>
        requires pin { IsPinOn self.old.net pin (end_of_scope self.old) }
        requires told { IsTold self.old (gate_line self.old.net pin.gate.0) }
        ensures idle { self.old.beginning ≡ None → self.new ≡ self.old }
        ensures held { IfSome self.old.conflict (λ line. (result ≡ Err (record { 0 = line })) × (self.new ≡ self.old)) }
        ensures ok { OnOk result (self.new ≡ grown self.old (with_entered self.old.assumptions pin)) }
        ensures err { IsFree self.old → IfErr result (λ conflict.
            self.new ≡ closed_at self.old (with_entered self.old.assumptions pin) conflict.0) }
        ensures open { OnOk result (IsOpenIn A.algebra self.new) }
        ensures emptied { IfErr result (λ conflict. IsEmptiedIn A.algebra self.new conflict.0.0) }
        ensures extends { ExtendsStanding self.old self.new }
    {
        if let Some(emptied) = self.conflict {
            return Err(Conflict(emptied));
        }
        if self.beginning.is_none() {
            return Err(Conflict(LineId(0)));
        }
        self.add(Assumption::Entered(pin), StateSet::EMPTY)
    }

    // Adds an entry, with what was left of its line, and narrows the labels on.
    fn add(&mut self, entry: Assumption, left: StateSet) -> Result<(), Conflict>
        requires begun { IsSome self.old.beginning }
        requires free { self.old.conflict ≡ None }
        requires fits { IsListFrom A.algebra.count self.old.net (links_of self.old.rules) self.old.ends self.old.beginning (self.old.assumptions ++ entry ∷ []) }
        requires left { IsLeftBefore A.algebra.count self.old.assumptions entry left }
        ensures ok { OnOk result (self.new ≡ grown self.old (self.old.assumptions ++ entry ∷ [])) }
        ensures err { IfErr result (λ conflict. self.new ≡ closed_at self.old (self.old.assumptions ++ entry ∷ []) conflict.0) }
        ensures open { OnOk result (IsOpenIn A.algebra self.new) }
        ensures emptied { IfErr result (λ conflict. IsEmptiedIn A.algebra self.new conflict.0.0) }
        ensures later { self.old.closings ≤ self.new.closings }
    {
        let changes = self.parts.board.mark();
        self.lists.befores.push_reserved(Before { changes, left });
        self.lists.assumptions.push_reserved(entry);
        take_from(&mut self.lists.left, entry);
        let emptied = narrow_on(
            self.setting.netlist(),
            entry,
            &mut self.parts.board,
            &mut self.parts.conditions,
            &mut self.parts.scratch,
        );
        self.conflict = emptied;
        match emptied {
            None => Ok(()),
            Some(line) => {
                self.closings = self.closings.saturating_add(1);
                Err(Conflict(line))
            }
        }
    }

    // Takes back all that came since the list of assumptions had this length. A length past the end changes nothing.
    pub(crate) fn back_to(&mut self, mark: usize)
        ensures { self.new ≡ back_at self.old mark }
    {
        while self.mark() > mark {
            self.take_back();
        }
    }

    // Takes back the last assumption, if there is one.
    fn take_back(&mut self)
        ensures { self.new ≡ back_at self.old (length self.old.assumptions - 1) }
    {
        let Some(before) = self.lists.befores.pop() else {
            return;
        };
        let Some(entry) = self.lists.assumptions.pop() else {
            return;
        };
        self.parts.board.undo_to(before.changes);
        put_back(&mut self.lists.left, entry, before.left);
        leave_step(&mut self.parts.conditions, entry);
        self.conflict = None;
    }

    // Takes back all that came since a scope of this origin was made.
    pub(crate) fn leave(&mut self, origin: Origin)
        ensures { self.new ≡ left_behind origin self.old }
    {
        match origin {
            Origin::Begun => self.end(),
            Origin::Within(length) => self.back_to(length),
        }
    }

    // Closes the outermost scope.
    fn end(&mut self)
        ensures { self.new ≡ idle_again self.old }
    {
        self.back_to(0);
        self.parts.idle.end(&mut self.parts.board);
        self.beginning = None;
        self.conflict = None;
    }
}

// Whether so many gates are few enough of those of a netlist for an engine of near gates to pay.
fn are_few(gates: u32, net: &Netlist) -> bool {
    gates <= (net.lines() - net.sources()) / GATES_PER_NEAR_GATE
}

// The line to which these steps lead from a source.
fn line_behind(net: &Netlist, source: LineId, steps: &[PinRef]) -> LineId
    requires source { source.0 < source_count net.now }
    requires connects { Connects net.now source.0 steps.now }
    ensures end { result.0 ≡ line_after net.now source.0 steps.now }
    ensures in_circuit { result.0 < line_count net.now }
{
    match steps {
        [] => source,
        [_front @ .., step] => net.line_of(step.gate),
    }
}
