// How a scope stands under any rules, stage by stage: at its beginning, under the pins of a path, under halves of splits, in a scope
// within it under these, and when it has gone back. Only what the next call asks for is promised.
ghost use Rattle.std.specs.Prelude.{◌≡◌, ◌<◌, None, All, IsSome, length};
ghost use Rattle.netlist.specs.Circuit.{line_count};
ghost use Rattle.netlist.specs.LinkedPairs.{FitRules};
ghost use Rattle.netlist.specs.Paths.{IsPath};
ghost use Rattle.implication.specs.Clients.{ExtendsStanding, IsRestored};
ghost use Rattle.implication.specs.Scopes.{IsSameScope, standing};
ghost use Rattle.search_answers.specs.Told.{AreMarkedTold};

use crate::entering::enter_all;
use hulls::half_states;
use implication::{Engine, RuledNetlist, Scope, Setting};
use netlist::Netlist;
use pd_base::{LineId, Path, Rules};
use row_answers::{Fault, RuledFault, Text, Trouble, fault_of, halves_of, path, rules_of};
use state_laws::Half;
use state_sets::{Algebra, FourStates, SixStates, State, StateSet};
use std::alloc::Global;

// What a scope goes through: its beginning by a fault under rules, the pins of a path, and halves.
#[derive(Clone, Copy)]
struct Stages<'a> {
    path: &'a Path,
    ruled: RuledFault<'a>,
    halves: &'a [Half],
}

/// Adds a line for each stage of a scope: its beginning; under the pins of a path; under halves too; gone back from these; a scope within
/// it under them; that one closed; and gone back to the beginning. Each line has the names of the circuit's lines with the numbers of their
/// states, or tells of a conflict. The row: the rules, transition and kind, and the halves.
pub fn staged(
    alloc: Global,
    net: &Netlist,
    route: &str,
    row: &str,
    answer: &mut Text,
) -> Result<(), Trouble> {
    let (rules, row) = rules_of(alloc, net, row)?;
    let (fault, halves) = fault_of(row)?;
    let halves = halves_of(alloc, net, halves)?;
    let path = path(alloc, net, route)?;
    let rules = &rules;
    let stages = Stages {
        path: &path,
        ruled: RuledFault { rules, fault },
        halves: halves.as_slice(),
    };
    add_by_rules(alloc, net, &stages, answer)
}

// The same with the kind of states that the rules choose.
fn add_by_rules(
    alloc: Global,
    net: &Netlist,
    stages: &Stages,
    answer: &mut Text,
) -> Result<(), Trouble>
    requires path { IsPath net.now stages.now.path.now }
    requires fit { FitRules net.now stages.now.ruled.rules.now }
    requires halves { All (λ half. half.split.line.0 < line_count net.now) stages.now.halves.now }
{
    let marks = vec![in alloc; true; net.lines() as usize]?;
    let marks = marks.as_slice();
    match stages.ruled.rules {
        Rules::One | Rules::Two => add_stages::<FourStates>(alloc, net, stages, marks, answer),
        Rules::Linked(_) => add_stages::<SixStates>(alloc, net, stages, marks, answer),
    }
}

// The same on an engine of its own, which tells all lines.
fn add_stages<A: Algebra>(
    alloc: Global,
    net: &Netlist,
    stages: &Stages,
    marks: &[bool],
    answer: &mut Text,
) -> Result<(), Trouble>
    requires path { IsPath net.now stages.now.path.now }
    requires fit { FitRules net.now stages.now.ruled.rules.now }
    requires halves { All (λ half. half.split.line.0 < line_count net.now) stages.now.halves.now }
{
    let rules = stages.ruled.rules;
    let mut engine = Engine::<A, RuledNetlist>::new(alloc, RuledNetlist { net, rules })?;
    begin(&mut engine, stages, marks, answer);
    Ok(())
}

// The same on an engine on which no scope is open, and which tells all lines.
#[tactic(auto, using(crate::proofs::Told::all_told, crate::proofs::Told::told_by_all))]
fn begin<A: Algebra, S: Setting>(
    engine: &mut Engine<A, S>,
    stages: &Stages,
    marks: &[bool],
    answer: &mut Text,
)
    requires idle { engine.old.beginning ≡ None }
    requires all { engine.old.ends ≡ None }
    requires path { IsPath engine.old.net stages.now.path.now }
    requires halves { All (λ half. half.split.line.0 < line_count engine.old.net) stages.now.halves.now }
{
    let Fault { direction, kind } = stages.ruled.fault;
    let mut scope = Scope::begin(engine, stages.path.source(), direction, kind);
    add_stage("begun", &scope, answer);
    let mark = scope.mark();
    enter_all(&mut scope, stages.path.steps(), marks);
    add_stage("entered", &scope, answer);
    assume(&mut scope, stages.halves, answer);
    scope.back_to(mark);
    add_stage("begun again", &scope, answer);
}

// The stages under halves, in the scope itself and in one within it.
fn assume<A: Algebra, S: Setting>(scope: &mut Scope<A, S>, halves: &[Half], answer: &mut Text)
    requires all { (standing scope.old).ends ≡ None }
    requires halves { All (λ half. half.split.line.0 < line_count (standing scope.old).net) halves.now }
    ensures scope { IsSameScope scope.old scope.new }
    ensures restored { IsRestored (standing scope.old) (standing scope.new) }
{
    let mark = scope.mark();
    assume_all(scope, halves);
    add_stage("assumed", scope, answer);
    scope.back_to(mark);
    add_stage("gone back", scope, answer);
    let mut inner = scope.engine.scope();
    assume_all(&mut inner, halves);
    add_stage("within", &inner, answer);
    inner.close();
    add_stage("closed", scope, answer);
}

// Assumes these halves.
#[tactic(auto, using(crate::proofs::Told::told_by_all))]
fn assume_all<A: Algebra, S: Setting>(scope: &mut Scope<A, S>, halves: &[Half])
    requires all { (standing scope.old).ends ≡ None }
    requires halves { All (λ half. half.split.line.0 < line_count (standing scope.old).net) halves.now }
    ensures scope { IsSameScope scope.old scope.new }
    ensures extends { ExtendsStanding (standing scope.old) (standing scope.new) }
{
    for half in halves {
        let states = half_states::<A>(half.split.kind, half.second);
        let _ = scope.assume(half.split.line, states);
    }
}

// The line of a stage.
fn add_stage<A: Algebra, S: Setting>(name: &str, scope: &Scope<A, S>, answer: &mut Text) {
    answer.add("  ");
    answer.add(name);
    if scope.conflict().is_some() {
        answer.add(": a conflict\n");
    } else {
        answer.add(":");
        add_sets(scope.net(), scope.labels(), answer);
    }
}

// The names of the lines, each with the numbers of the states of its set.
fn add_sets(net: &Netlist, labels: &[StateSet], answer: &mut Text) {
    for line in 0..net.lines() {
        answer.add(" ");
        answer.add_bytes(net.name(LineId(line)));
        answer.add(" ");
        if let Some(label) = labels.get(line as usize) {
            add_numbers(*label, answer);
        }
    }
    answer.add("\n");
}

// The numbers of the states of a set.
fn add_numbers(set: StateSet, answer: &mut Text) {
    for number in 0..8u8 {
        if set.holds(State(number)) {
            answer.add_number("", number as u64);
        }
    }
}
