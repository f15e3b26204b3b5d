// Scopes: what is assumed in one is taken back when it is closed or dropped. A scope borrows its engine, and a scope within it borrows
// the engine in turn, by `scope.engine.scope()` at the caller. All calls take no memory.
ghost use Rattle.std.specs.Prelude.{All, [], ◌≡◌, ◌<◌, ◌≤◌, ◌+◌, List, Some, None, IfSome, IfNone, IsSome, length};
ghost use Rattle.pd_base.specs.Links.{links_of};
ghost use Rattle.netlist.specs.Circuit.{source_count, line_count, gate_line};
ghost use Rattle.netlist.specs.Paths.{IsPrefix, end_of};
ghost use Rattle.netlist.specs.Pins.{IsPinOn};
ghost use Rattle.state_sets.specs.States.{IsWithin, AreWithin};
ghost use Rattle.implication.specs.Standing.{Standing, IsIdle, IsLabels, IsTold, TellsLabel, TellsLabels, IsEmptiedIn, IsOpenIn, end_of_scope};
ghost use Rattle.implication.specs.AlongPrefix.{HasBegunAt};
ghost use Rattle.implication.specs.Moves.{with_entered, with_assumed, back_at, left_behind, HasBegun, start_at};
ghost use Rattle.implication.specs.Clients.{ExtendsStanding, IsRestored, TellsOfConflict, TellsOfMore};

use crate::{Beginning, Conflict, Engine, Origin, Setting};
use netlist::Netlist;
use pd_base::{Direction, Kind, LineId, Path, PinRef, Rules, Steps};
use state_sets::{Algebra, StateSet};
use undo_trail::Note;

/// A length of the list of assumptions, to which a scope can go back.
#[derive(Clone, Copy, PartialEq, Eq)]
pub struct ScopeMark {
    at: usize,
}

/// Assumptions about one search: those that stood when the scope was made, and those that are made in it.
pub struct Scope<'e, A: Algebra, S: Setting> {
    /// The engine. A scope within this one is made by `scope.engine.scope()`.
    pub engine: &'e mut Engine<A, S>,
    origin: Origin,
    ghost within: { start_at origin ≤ length engine.now.assumptions },
}

impl<A: Algebra, S: Setting> Engine<A, S> {
    /// A scope within the innermost open one, with its assumptions.
    pub fn scope(&mut self) -> Scope<'_, A, S>
        ensures same_engine { result.engine.ghost_name ≡ self.entry.ghost_name }
        ensures standing { result.engine.now ≡ self.old }
        ensures origin { result.origin ≡ Origin.Within (length self.old.assumptions) }
    {
        let origin = Origin::Within(self.mark());
        Scope {
            engine: self,
            origin,
        }
    }
}

impl<'e, A: Algebra, S: Setting> Scope<'e, A, S> {
    ghost use Rattle.implication.specs.Scopes.{IsSameScope, standing};

    /// Opens the outermost scope of an engine on which none is open: a transition is launched at a source, the other sources start as
    /// the rules leave them, and conditions of a kind of tests will stand at the pins entered. A conflict stands from here on if that
    /// alone leaves some line no state.
    pub fn begin(
        engine: &'e mut Engine<A, S>,
        source: LineId,
        direction: Direction,
        kind: Kind,
    ) -> Scope<'e, A, S>
        requires idle { engine.old.beginning ≡ None }
        requires source { source.0 < source_count engine.old.net }
        requires told { IsTold engine.old source.0 }
        ensures same_engine { result.engine.ghost_name ≡ engine.entry.ghost_name }
        ensures begun { HasBegun (record { source = source; direction = direction; kind = kind }) engine.old (standing result) }
        ensures idle { IsIdle engine.old }
        ensures origin { result.origin ≡ Origin.Begun }
        ensures tells { TellsOfConflict A.algebra (standing result) }

        // without links none does
        ensures free { links_of engine.old.rules ≡ [] → (standing result).conflict ≡ None }
    {
        engine.begin(Beginning {
            source,
            direction,
            kind,
        });
        Scope {
            engine,
            origin: Origin::Begun,
        }
    }

    /// The same at the last line of a prefix, with all its pins at once: no step is counted. The labels are then those of a scope that
    /// has begun at the prefix's source and has entered its pins. Where a conflict comes before all of them are entered, it stands from
    /// here on, and is counted.
    pub fn begin_at(
        engine: &'e mut Engine<A, S>,
        prefix: &Path,
        direction: Direction,
        kind: Kind,
    ) -> Scope<'e, A, S>
        requires idle { engine.old.beginning ≡ None }
        requires prefix { IsPrefix engine.old.net prefix.now }
        requires told { IsTold engine.old (end_of engine.old.net prefix.now) }
        ensures same_engine { result.engine.ghost_name ≡ engine.entry.ghost_name }
        ensures begun { HasBegunAt prefix.now direction kind engine.old (standing result) }
        ensures idle { IsIdle engine.old }
        ensures origin { result.origin ≡ Origin.Begun }
        ensures tells { TellsOfConflict A.algebra (standing result) }
    {
        engine.begin_at(prefix, direction, kind);
        Scope {
            engine,
            origin: Origin::Begun,
        }
    }

    /// Assumes that a line, a source or that of a gate, is in a state of this set. Nothing is added where that takes no state away from
    /// what the assumptions left of the line, nor while a conflict stands, which is then the answer. A Conflict gives a line at which no
    /// state is left, and what was assumed stays.
    pub fn assume(&mut self, line: LineId, to: StateSet) -> Result<(), Conflict>
        requires line { line.0 < line_count (standing self.old).net }
        requires told { IsTold (standing self.old) line.0 }
        ensures scope { IsSameScope self.old self.new }
        ensures tells { TellsOfMore A.algebra (with_assumed A.algebra.count (standing self.old).assumptions line to)
            (standing self.old) (standing self.new) result }
        ensures extends { ExtendsStanding (standing self.old) (standing self.new) }
    {
        self.engine.assume(line, to)
    }

    /// Goes on through a pin on the last line of the prefix, whose gate's line is told. Counts one step, whatever it answers. The
    /// answers are as for `assume`.
    pub fn enter<L>(&mut self, pin: PinRef, steps: &mut Steps<L>) -> Result<(), Conflict>
        requires pin { IsPinOn (standing self.old).net pin (end_of_scope (standing self.old)) }
        requires told { IsTold (standing self.old) (gate_line (standing self.old).net pin.gate.0) }
        requires room { steps.old < u64.MAX }
        ensures scope { IsSameScope self.old self.new }
        ensures counted { steps.new ≡ steps.old + 1 }
        ensures tells { TellsOfMore A.algebra (with_entered (standing self.old).assumptions pin) (standing self.old) (standing self.new) result }
        ensures extends { ExtendsStanding (standing self.old) (standing self.new) }
    {
        steps.tick();
        self.engine.enter(pin)
    }

    /// The set of a line in the hull under the assumptions; where the line is not told, a set that contains it. While a conflict
    /// stands nothing is said of it.
    pub fn label(&self, line: LineId) -> StateSet
        requires { line.0 < line_count (standing self.now).net }
        ensures within { IsWithin A.algebra.count result }
        ensures told { (standing self.now).conflict ≡ None
            → (labels : List StateSet) × IsLabels A.algebra (standing self.now) labels
            × TellsLabel A.algebra.count (standing self.now) labels line.0 result }
    {
        self.labels()[line.0 as usize]
    }

    /// The sets of all lines, by line number: of each what `label` tells.
    pub fn labels(&self) -> &[StateSet]
        ensures one_each { length result.now ≡ line_count (standing self.now).net }
        ensures within { AreWithin A.algebra.count result.now }
        ensures told { (standing self.now).conflict ≡ None
            → (labels : List StateSet) × IsLabels A.algebra (standing self.now) labels
            × TellsLabels A.algebra.count (standing self.now) labels result.now }
    {
        self.engine.labels()
    }

    /// A hint for where to look first: the lines that the outermost scope began with other sets, from its source on, where that noted no
    /// changes. Promised is only that each is a line of the netlist.
    pub fn begun_lines(&self) -> &[LineId]
        ensures { All (λ line. line.0 < line_count (standing self.now).net) result.now }
    {
        self.engine.begun_lines()
    }

    /// A hint for where to look: lines whose labels changed since the outermost scope began. Promised is only that each note is of a
    /// line of the netlist.
    pub fn changes(&self) -> &[Note<StateSet>]
        ensures { All (λ note. note.index < line_count (standing self.now).net) result.now }
    {
        self.engine.changes()
    }

    /// The conflict that stands, if there is one: no state is left at its line. It may stand since the beginning.
    pub fn conflict(&self) -> Option<Conflict>
        ensures none { IfNone result ((standing self.now).conflict ≡ None) }
        ensures some { IfSome result (λ conflict. (standing self.now).conflict ≡ Some conflict.0) }
        ensures open { IfNone result (IsOpenIn A.algebra (standing self.now)) }
        ensures emptied { IfSome result (λ conflict. IsEmptiedIn A.algebra (standing self.now) conflict.0.0) }
    {
        match self.engine.conflict() {
            None => None,
            Some(line) => Some(Conflict(line)),
        }
    }

    /// The last line of the prefix: the source, or the line of the gate of the pin entered last. It is told.
    pub fn last_line(&self) -> LineId
        ensures end { result.0 ≡ end_of_scope (standing self.now) }
        ensures in_circuit { IsSome (standing self.now).beginning → result.0 < line_count (standing self.now).net }
        ensures told { IsSome (standing self.now).beginning → IsTold (standing self.now) result.0 }
    {
        self.engine.last_line()
    }

    /// The netlist of the engine.
    pub fn net(&self) -> &Netlist
        ensures { result.now ≡ (standing self.now).net }
    {
        self.engine.net()
    }

    /// The rules of the engine.
    pub fn rules(&self) -> &Rules
        ensures { result.now ≡ (standing self.now).rules }
    {
        self.engine.rules()
    }

    /// The present length of the list of assumptions.
    pub fn mark(&self) -> ScopeMark
        ensures { result.at ≡ length (standing self.now).assumptions }
    {
        ScopeMark {
            at: self.engine.mark(),
        }
    }

    /// Goes back to the time when the list of assumptions last had this length. A mark of its present length changes nothing.
    pub fn back_to(&mut self, mark: ScopeMark)
        requires start { start_at self.old.origin ≤ mark.at }
        requires now { mark.at ≤ length (standing self.old).assumptions }
        ensures scope { IsSameScope self.old self.new }
        ensures back { standing self.new ≡ back_at (standing self.old) mark.at }
    {
        self.engine.back_to(mark.at);
    }

    /// How many times an assume or enter on this engine came upon a conflict where none stood, up to 2^64 - 1.
    pub fn closings(&self) -> u64
        ensures { result ≡ (standing self.now).closings }
    {
        self.engine.closings()
    }

    /// Closes the scope: what was assumed in it is taken back. Dropping it does the same.
    pub fn close(self)
        ensures left { self.exit.0.now ≡ left_behind self.entry.origin (standing self.entry) }

        // so a scope within another leaves all as it was when it was made
        ensures restored { (before : Standing) → self.entry.origin ≡ Origin.Within (length before.assumptions)
            → ExtendsStanding before (standing self.entry) → IsRestored before self.exit.0.now }
    {
        let Scope { engine, origin } = self;
        engine.leave(origin);
    }
}

impl<'e, A: Algebra, S: Setting> Drop for Scope<'e, A, S> {
    ghost use Rattle.implication.specs.Scopes.{standing};

    fn drop(self)
        ensures left { self.exit.0.now ≡ left_behind self.entry.origin (standing self.entry) }
        ensures restored { (before : Standing) → self.entry.origin ≡ Origin.Within (length before.assumptions)
            → ExtendsStanding before (standing self.entry) → IsRestored before self.exit.0.now }
    {
        let Scope { engine, origin } = self;
        engine.leave(origin);
    }
}
