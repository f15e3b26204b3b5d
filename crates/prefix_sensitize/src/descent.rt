// Along a path: the pins that a scope has entered since it began, and the search for a test of a path. It goes back to where these pins
// are the path's own, enters the others one by one, and then searches. The walk over the paths is in walking.rt.
ghost use Rattle.std.specs.Prelude.{◌≡◌, ◌+◌, ◌<◌, ◌≤◌, ◌^◌, ◌∷◌, ◌++◌, [], Some, None, true, length, map, take, IfOk, OnOk};
ghost use Rattle.implication.specs.declared.assumption.Assumption.TheVariants.{Entered};
ghost use Rattle.implication.specs.declared.assumption.Origin.TheVariants.{Begun};
ghost use Rattle.implication.specs.Moves.{back_at};
ghost use Rattle.implication.specs.Scopes.{IsSameScope, standing};
ghost use Rattle.justify.specs.Desks.{IsDeskFor};
ghost use Rattle.prefix_sensitize.specs.AlongPaths.{HasGoneOn, IsAtPin, LeadsAlong, TriesPin};
ghost use Rattle.prefix_sensitize.specs.Entering.{CanSearch, CountsPins, HasSearched, IsSameBeginning};
ghost use Rattle.prefix_sensitize.specs.PathOrder.{ShareSteps};

use crate::anew::decide;
use crate::outcome::Aim;
use crate::sharing::shared_steps;
use implication::{Scope, ScopeMark, Setting};
use justify::{Desk, Found};
use pd_base::{OutOfMemory, Path, PinRef, Steps};
use state_sets::Algebra;
use std::alloc::Global;
use std::marker::Model;
use trees::{Node, Tree};

/// What was found for a path, and how many of its steps were tried for that: all of them, or those up to the one at which a conflict
/// came. A refutation is one of the prefix that has these steps.
#[derive(Drop)]
pub(crate) struct FoundAlong {
    /// What was found.
    pub(crate) found: Found,
    /// How many steps were tried.
    pub(crate) steps: usize,
}

/// The pins that a scope has entered since its beginning, each with the mark before it. Contracts see the list of pins.
#[derive(Drop)]
pub(crate) struct Descent {
    pins: Vec<PinRef>,
    marks: Vec<ScopeMark>,
}

impl Model for Descent {
    ghost use Rattle.std.specs.Prelude.{List};
    ghost use Rattle.pd_base.specs.declared.ids.PinRef.{PinRef};
    ghost use Rattle.prefix_sensitize.specs.Marks.{AreMarksOf};

    ghost Value = { List PinRef };

    ghost view = { λ d. d.pins.items };

    ghost invariant = { λ d. AreMarksOf d.pins.items d.marks.items };
}

impl Descent {
    /// No pin is entered.
    pub(crate) fn new(alloc: Global) -> Descent
        ensures { result ≡ [] }
    {
        Descent {
            pins: Vec::new(alloc),
            marks: Vec::new(alloc),
        }
    }

    /// Goes on to a path from where the scope stands, which began at the path's source, and searches for a test of it. The pins that are
    /// shared with the path stay entered, and each other one of the path counts one step. A conflict at a pin ends the search: the pin is
    /// left again, and one closed leaf refutes the prefix up to it. Otherwise the search is one of the whole path.
    ///
    /// Afterwards the scope stands at the last pin that was entered and not left. The one error is that memory ran out; where
    /// the scope stands is not promised then, but that no more steps were counted.
    pub(crate) fn search<A: Algebra, S: Setting, L>(
        &mut self,
        alloc: Global,
        scope: &mut Scope<A, S>,
        desk: &mut Desk,
        path: &Path,
        aim: Aim,
        steps: &mut Steps<L>,
    ) -> Result<FoundAlong, OutOfMemory>
        requires begun { scope.old.origin ≡ Begun }
        requires can { CanSearch A.algebra (standing scope.old) path.now aim self.old desk.old steps.old }
        ensures desk { IsDeskFor A.algebra (standing scope.old).net (standing scope.old).rules desk.new }
        ensures scope { IsSameScope scope.old scope.new }
        ensures same { IsSameBeginning (standing scope.old) (standing scope.new) }
        ensures counted { CountsPins self.old path.now steps.old steps.new }
        ensures searched { IfOk result (HasSearched (standing scope.old) (standing scope.new) path.now aim self.old self.new steps.old steps.new) }
    {
        let shared = self.go_back(scope, path);
        let kept = self.go_on(scope, path, shared, steps)?;
        if kept < path.steps().len() {
            let tree = closed_leaf(alloc)?;
            return Ok(FoundAlong {
                found: Found::Refuted(tree),
                steps: kept + 1,
            });
        }
        let found = decide(alloc, scope, desk, path, aim)?;
        Ok(FoundAlong { found, steps: kept })
    }

    // Goes back to where the entered pins are the first ones of a path, and tells how many these are.
    pub(crate) fn go_back<A: Algebra, S: Setting>(
        &mut self,
        scope: &mut Scope<A, S>,
        path: &Path,
    ) -> usize
        requires begun { scope.old.origin ≡ Begun }
        requires entered { (standing scope.old).assumptions ≡ map Entered self.old }
        requires free { (standing scope.old).conflict ≡ None }
        ensures scope { IsSameScope scope.old scope.new }
        ensures same { IsSameBeginning (standing scope.old) (standing scope.new) }
        ensures shared { ShareSteps self.old path.now.steps result }
        ensures at { IsAtPin A.algebra (standing scope.new) self.new path.now result }
    {
        let shared = shared_steps(self.pins(), path.steps());
        self.back_to(scope, shared);
        // no conflict stands, so each line has some state
        if scope.conflict().is_some() {
            unreachable!()
        }
        shared
    }

    // Goes back to where only the first pins, so many, were entered. Where no more are, nothing changes.
    fn back_to<A: Algebra, S: Setting>(&mut self, scope: &mut Scope<A, S>, count: usize)
        requires begun { scope.old.origin ≡ Begun }
        requires entered { (standing scope.old).assumptions ≡ map Entered self.old }
        ensures scope { IsSameScope scope.old scope.new }
        ensures pins { self.new ≡ take count self.old }
        ensures back { standing scope.new ≡ back_at (standing scope.old) count }
    {
        if count < self.marks.len() {
            scope.back_to(self.marks[count]);
            self.marks.truncate(count);
            self.pins.truncate(count);
        }
    }

    // Enters the pins of a path behind the first ones, so many, which are entered. Tells how many are entered then: where these are not
    // all, a conflict came up at the next one, which was left again.
    pub(crate) fn go_on<A: Algebra, S: Setting, L>(
        &mut self,
        scope: &mut Scope<A, S>,
        path: &Path,
        from: usize,
        steps: &mut Steps<L>,
    ) -> Result<usize, OutOfMemory>
        requires along { LeadsAlong A.algebra (standing scope.old) path.now }
        requires at { IsAtPin A.algebra (standing scope.old) self.old path.now from }
        requires room { steps.old + length path.now.steps < 2 ^ 64 }
        ensures scope { IsSameScope scope.old scope.new }
        ensures same { IsSameBeginning (standing scope.old) (standing scope.new) }
        ensures on { IfOk result (HasGoneOn A.algebra (standing scope.old) (standing scope.new) path.now from self.new steps.old steps.new) }
        ensures more { steps.old ≤ steps.new }
        ensures few { from + steps.new ≤ steps.old + length path.now.steps }
    {
        for count in from..path.steps().len() {
            if !self.enter(scope, path, count, steps)? {
                return Ok(count);
            }
        }
        Ok(path.steps().len())
    }

    // Enters the pin of a path that is behind the first ones, so many, which are entered. Where a conflict comes up at it, it is left
    // again, and the answer is false.
    fn enter<A: Algebra, S: Setting, L>(
        &mut self,
        scope: &mut Scope<A, S>,
        path: &Path,
        count: usize,
        steps: &mut Steps<L>,
    ) -> Result<bool, OutOfMemory>
        requires along { LeadsAlong A.algebra (standing scope.old) path.now }
        requires at { IsAtPin A.algebra (standing scope.old) self.old path.now count }
        requires more { count < length path.now.steps }
        requires room { steps.old < u64.MAX }
        ensures scope { IsSameScope scope.old scope.new }
        ensures same { IsSameBeginning (standing scope.old) (standing scope.new) }
        ensures tried { IfOk result (TriesPin A.algebra (standing scope.old) (standing scope.new) path.now count self.new) }
        ensures counted { steps.new ≡ steps.old + 1 }
    {
        let pin = path.steps()[count];
        let mark = scope.mark();
        match scope.enter(pin, steps) {
            Ok(()) => {
                self.note(pin, mark)?;
                Ok(true)
            }
            Err(_) => {
                scope.back_to(mark);
                Ok(false)
            }
        }
    }

    // The pins that are entered.
    fn pins(&self) -> &[PinRef]
        ensures { result.now ≡ self.now }
    {
        self.pins.as_slice()
    }

    // Notes a pin that was entered, and the mark before it.
    fn note(&mut self, pin: PinRef, mark: ScopeMark) -> Result<(), OutOfMemory>
        requires { mark.at ≡ length self.old }
        ensures { OnOk result (self.new ≡ self.old ++ pin ∷ []) }
    {
        self.pins.reserve(1)?;
        self.marks.reserve(1)?;
        self.pins.push_reserved(pin);
        self.marks.push_reserved(mark);
        Ok(())
    }
}

// The tree that is one closed leaf.
pub(crate) fn closed_leaf(alloc: Global) -> Result<Tree, OutOfMemory>
    ensures { IfOk result (λ tree. tree ≡ Node.Closed ∷ []) }
{
    let nodes = vec![in alloc; Node::Closed]?;
    match Tree::from_nodes(nodes) {
        Some(tree) => Ok(tree),
        None => unreachable!(),
    }
}
