// Scopes beside the sweeps: under the pins that they have entered, under halves of splits too, assumed in the scope itself or in one
// within it, and when they have gone back. Only what the next call asks for is promised.
ghost use Rattle.std.specs.Prelude.{◌≡◌, ◌<◌, None, All, IsSome, length};
ghost use Rattle.netlist.specs.Circuit.{source_count, line_count};
ghost use Rattle.trees.specs.Unlinked.{IsUnlinked};
ghost use Rattle.implication.specs.Clients.{ExtendsStanding, IsRestored};
ghost use Rattle.implication.specs.Scopes.{IsSameScope, standing};
ghost use Rattle.search_answers.specs.Told.{AreMarkedTold};

use crate::entering::enter_all;
use crate::sweeping::{Assumed, states_of, swept};
use cones::support;
use implication::{Engine, RuledNetlist, Scope, Setting};
use netlist::Netlist;
use pd_base::{LineId, OutOfMemory};
use state_laws::Half;
use state_sets::{FourStates, StateSet};
use std::alloc::Global;

/// Whether an engine that tells all lines ends like the sweeps.
pub(crate) fn whole_alike(
    alloc: Global,
    net: &Netlist,
    assumed: &Assumed,
) -> Result<bool, OutOfMemory>
    requires source { assumed.now.source.0 < source_count net.now }
    requires halves { All (λ half. half.split.line.0 < source_count net.now) assumed.now.halves.now }
    requires unlinked { IsUnlinked assumed.now.rules.now }
{
    let marks = vec![in alloc; true; net.lines() as usize]?;
    marked_alike(alloc, net, assumed, marks.as_slice())
}

// The same at these lines.
#[tactic(auto, using(crate::proofs::Told::all_told, crate::proofs::Told::fits))]
fn marked_alike(
    alloc: Global,
    net: &Netlist,
    assumed: &Assumed,
    marks: &[bool],
) -> Result<bool, OutOfMemory>
    requires source { assumed.now.source.0 < source_count net.now }
    requires halves { All (λ half. half.split.line.0 < source_count net.now) assumed.now.halves.now }
    requires unlinked { IsUnlinked assumed.now.rules.now }
{
    let rules = assumed.rules;
    let mut engine = Engine::<FourStates, RuledNetlist>::new(alloc, RuledNetlist { net, rules })?;
    prefixes_alike(alloc, &mut engine, assumed, marks)
}

/// Whether one that tells the fan-in of the path's end alone does.
pub(crate) fn within_alike(
    alloc: Global,
    net: &Netlist,
    assumed: &Assumed,
) -> Result<bool, OutOfMemory>
    requires source { assumed.now.source.0 < source_count net.now }
    requires halves { All (λ half. half.split.line.0 < source_count net.now) assumed.now.halves.now }
    requires unlinked { IsUnlinked assumed.now.rules.now }
{
    let mut marks = vec![in alloc; false; net.lines() as usize]?;
    cone_alike(
        alloc,
        net,
        assumed,
        last_line(net, assumed),
        marks.as_mut_slice(),
    )
}

// The line of the gate of the last pin, or the source.
fn last_line(net: &Netlist, assumed: &Assumed) -> LineId
    requires { assumed.now.source.0 < source_count net.now }
    ensures { result.0 < line_count net.now }
{
    match assumed.steps.last() {
        Some(pin) if pin.gate.0 < net.gates() => net.line_of(pin.gate),
        _ => assumed.source,
    }
}

// The same of an engine that tells the fan-in of this line, which it marks.
#[tactic(auto, using(crate::proofs::Told::cone_told, crate::proofs::Told::fits))]
fn cone_alike(
    alloc: Global,
    net: &Netlist,
    assumed: &Assumed,
    end: LineId,
    marks: &mut [bool],
) -> Result<bool, OutOfMemory>
    requires source { assumed.now.source.0 < source_count net.now }
    requires halves { All (λ half. half.split.line.0 < source_count net.now) assumed.now.halves.now }
    requires unlinked { IsUnlinked assumed.now.rules.now }
    requires end { end.0 < line_count net.now }
    requires places { length marks.old ≡ line_count net.now }
{
    support(net, end, marks);
    let rules = assumed.rules;
    let setting = RuledNetlist { net, rules };
    let mut engine = Engine::<FourStates, RuledNetlist>::within(alloc, setting, &[end])?;
    prefixes_alike(alloc, &mut engine, assumed, marks)
}

// Whether scopes on the engine end like the sweeps, one after another for each prefix.
#[tactic(auto, using(crate::proofs::Told::still_told))]
fn prefixes_alike<S: Setting>(
    alloc: Global,
    engine: &mut Engine<FourStates, S>,
    assumed: &Assumed,
    marks: &[bool],
) -> Result<bool, OutOfMemory>
    requires idle { engine.old.beginning ≡ None }
    requires source { assumed.now.source.0 < source_count engine.old.net }
    requires halves { All (λ half. half.split.line.0 < source_count engine.old.net) assumed.now.halves.now }
    requires told { AreMarkedTold engine.old marks.now }
    requires unlinked { IsUnlinked engine.old.rules }
{
    for count in 0..=assumed.steps.len() {
        let shorter = Assumed {
            steps: &assumed.steps[..count],
            ..*assumed
        };
        if !scope_alike(alloc, engine, &shorter, marks)? {
            return Ok(false);
        }
    }
    Ok(true)
}

// Whether a scope ends like the sweeps.
#[tactic(auto, using(crate::proofs::Told::still_told, crate::proofs::Told::unlinked_told))]
fn scope_alike<S: Setting>(
    alloc: Global,
    engine: &mut Engine<FourStates, S>,
    assumed: &Assumed,
    marks: &[bool],
) -> Result<bool, OutOfMemory>
    requires idle { engine.old.beginning ≡ None }
    requires source { assumed.now.source.0 < source_count engine.old.net }
    requires halves { All (λ half. half.split.line.0 < source_count engine.old.net) assumed.now.halves.now }
    requires told { AreMarkedTold engine.old marks.now }
    requires unlinked { IsUnlinked engine.old.rules }
    ensures idle { engine.new.beginning ≡ None }
    ensures net { engine.new.net ≡ engine.old.net }
    ensures rules { engine.new.rules ≡ engine.old.rules }
    ensures ends { engine.new.ends ≡ engine.old.ends }
{
    let mut scope = Scope::begin(engine, assumed.source, assumed.direction, assumed.kind);
    let alike = begun_alike(alloc, &mut scope, assumed, marks);
    scope.close();
    alike
}

// The same of a scope that has begun.
fn begun_alike<S: Setting>(
    alloc: Global,
    scope: &mut Scope<FourStates, S>,
    assumed: &Assumed,
    marks: &[bool],
) -> Result<bool, OutOfMemory>
    requires begun { IsSome (standing scope.old).beginning }
    requires halves { All (λ half. half.split.line.0 < source_count (standing scope.old).net) assumed.now.halves.now }
    requires told { AreMarkedTold (standing scope.old) marks.now }
    requires unlinked { IsUnlinked (standing scope.old).rules }
    ensures scope { IsSameScope scope.old scope.new }
    ensures net { (standing scope.new).net ≡ (standing scope.old).net }
    ensures rules { (standing scope.new).rules ≡ (standing scope.old).rules }
    ensures ends { (standing scope.new).ends ≡ (standing scope.old).ends }
{
    if enter_all(scope, assumed.steps, marks) {
        entered_alike(alloc, scope, assumed, marks)
    } else {
        is_closed(alloc, scope.net(), assumed)
    }
}

// Whether the sweeps leave some line without a state.
fn is_closed(alloc: Global, net: &Netlist, assumed: &Assumed) -> Result<bool, OutOfMemory> {
    let swept = swept(alloc, net, &without_halves(assumed))?;
    Ok(swept.is_none())
}

// Whether a scope that has entered the pins ends like the sweeps: without halves, under them, in a scope within it under them, and when
// it has gone back from either.
fn entered_alike<S: Setting>(
    alloc: Global,
    scope: &mut Scope<FourStates, S>,
    assumed: &Assumed,
    marks: &[bool],
) -> Result<bool, OutOfMemory>
    requires halves { All (λ half. half.split.line.0 < source_count (standing scope.old).net) assumed.now.halves.now }
    requires unlinked { IsUnlinked (standing scope.old).rules }
    ensures scope { IsSameScope scope.old scope.new }
    ensures restored { IsRestored (standing scope.old) (standing scope.new) }
{
    Ok(
        labels_alike(alloc, scope, &without_halves(assumed), marks)?
            && halves_alike(alloc, scope, assumed, marks)?
            && inner_alike(alloc, scope, assumed, marks)?,
    )
}

// Whether a scope that has gone back ends like the sweeps without halves, and tells so many changes.
fn back_alike<S: Setting>(
    alloc: Global,
    scope: &Scope<FourStates, S>,
    assumed: &Assumed,
    marks: &[bool],
    changes: usize,
) -> Result<bool, OutOfMemory> {
    let alike = labels_alike(alloc, scope, &without_halves(assumed), marks)?;
    Ok(alike && scope.changes().len() == changes)
}

// The same without halves.
fn without_halves<'a>(assumed: &Assumed<'a>) -> Assumed<'a> {
    Assumed {
        halves: &[],
        ..*assumed
    }
}

// Whether the scope ends like the sweeps under the halves too. Goes back afterwards by a mark.
fn halves_alike<S: Setting>(
    alloc: Global,
    scope: &mut Scope<FourStates, S>,
    assumed: &Assumed,
    marks: &[bool],
) -> Result<bool, OutOfMemory>
    requires halves { All (λ half. half.split.line.0 < source_count (standing scope.old).net) assumed.now.halves.now }
    requires unlinked { IsUnlinked (standing scope.old).rules }
    ensures scope { IsSameScope scope.old scope.new }
    ensures restored { IsRestored (standing scope.old) (standing scope.new) }
{
    let mark = scope.mark();
    let changes = scope.changes().len();
    assume_all(scope, assumed.halves);
    let alike = labels_alike(alloc, scope, assumed, marks);
    scope.back_to(mark);
    Ok(alike? && back_alike(alloc, scope, assumed, marks, changes)?)
}

// The same in a scope within this one, which is closed.
fn inner_alike<S: Setting>(
    alloc: Global,
    scope: &mut Scope<FourStates, S>,
    assumed: &Assumed,
    marks: &[bool],
) -> Result<bool, OutOfMemory>
    requires halves { All (λ half. half.split.line.0 < source_count (standing scope.old).net) assumed.now.halves.now }
    requires unlinked { IsUnlinked (standing scope.old).rules }
    ensures scope { IsSameScope scope.old scope.new }
    ensures restored { IsRestored (standing scope.old) (standing scope.new) }
{
    let changes = scope.changes().len();
    let mut inner = scope.engine.scope();
    assume_all(&mut inner, assumed.halves);
    let alike = labels_alike(alloc, &inner, assumed, marks);
    inner.close();
    Ok(alike? && back_alike(alloc, scope, assumed, marks, changes)?)
}

// Assumes these halves.
#[tactic(auto, using(crate::proofs::Told::unlinked_told))]
fn assume_all<S: Setting>(scope: &mut Scope<FourStates, S>, halves: &[Half])
    requires halves { All (λ half. half.split.line.0 < source_count (standing scope.old).net) halves.now }
    requires unlinked { IsUnlinked (standing scope.old).rules }
    ensures scope { IsSameScope scope.old scope.new }
    ensures extends { ExtendsStanding (standing scope.old) (standing scope.new) }
{
    for half in halves {
        let _ = scope.assume(half.split.line, states_of(*half));
    }
}

// Whether the marked lines have the sets that the sweeps end with, or a conflict stands where these leave some line without a state.
fn labels_alike<S: Setting>(
    alloc: Global,
    scope: &Scope<FourStates, S>,
    assumed: &Assumed,
    marks: &[bool],
) -> Result<bool, OutOfMemory> {
    let swept = swept(alloc, scope.net(), assumed)?;
    Ok(match swept {
        Some(labels) => {
            scope.conflict().is_none() && have_sets(scope.labels(), labels.as_slice(), marks)
        }
        None => scope.conflict().is_some(),
    })
}

// Whether the marked lines have these sets.
fn have_sets(labels: &[StateSet], sets: &[StateSet], marks: &[bool]) -> bool {
    for line in 0..labels.len() {
        let is_marked = matches!(marks.get(line), Some(true));
        if is_marked && labels.get(line) != sets.get(line) {
            return false;
        }
    }
    true
}
