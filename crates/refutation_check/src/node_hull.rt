// The hull at a node of a tree of cases: a scope of an engine that tells all lines begins with the pins of a prefix, assumes the halves above
// the node, and gives its labels. How a scope comes to the root of a tree stands in root.rt, and how it goes down in walk.rt. No
// command asks for this hull. It is a scope, so that there is one start and one way to settle.
ghost use Rattle.std.specs.Prelude.{◌≡◌, ◌<◌, [], List, None, All, IfOk, length};
ghost use Rattle.pd_base.specs.Target as seen;
ghost use Rattle.pd_base.specs.Target.{target_of};
ghost use Rattle.netlist.specs.Circuit.{line_count};
ghost use Rattle.netlist.specs.LinkedPairs.{FitRules};
ghost use Rattle.netlist.specs.Paths.{IsPrefix};
ghost use Rattle.state_laws.specs.declared.split.Half.{Half};
ghost use Rattle.implication.specs.Scopes.{standing};
ghost use Rattle.implication.specs.Settings.{IsSameSetting};
ghost use Rattle.refutation_check.specs.NodeHulls.{IsAtNode, IsFoundAt, LosesNoPair, DecidesSingletons};
ghost use Rattle.pair_judging.specs.Targets.{seen_target};
ghost use Rattle.refutation_check.specs.Walks.{IsScopeAt};

use crate::Hull;
use crate::root::begin_root;
use crate::walk::assume_half;
use implication::{Engine, RuledNetlist, Scope, Setting};
use netlist::Netlist;
use pair_judging::Target;
use pd_base::{Direction, Kind, LineId, OutOfMemory, Path, Rules};
use state_laws::Half;
use state_sets::{Algebra, FourStates, Labels, SixStates, StateSet};
use std::alloc::Global;

/// The hull at a node: the greatest labels that no narrowing changes, under the conditions of the kind at the gates of the prefix,
/// where the prefix's source launches the transition, the other sources start as the rules leave them, the line of each half has only
/// states of the half, and the links of the rules stand. Under linked rules states are of the six, and else of the four. It fails only
/// where memory runs out, of which it takes some bytes for each line and each gate.
pub fn hull(
    alloc: Global,
    net: &Netlist,
    rules: &Rules,
    prefix: &Path,
    dir: Direction,
    kind: Kind,
    halves: &[Half],
) -> Result<Hull, OutOfMemory>
    requires fit { FitRules net.now rules.now }
    requires prefix { IsPrefix net.now prefix.now }
    requires lines { All (λ half. half.split.line.0 < line_count net.now) halves.now }
    ensures hull { IfOk result (IsAtNode net.now rules.now (target_of prefix.now dir kind) halves.now) }

    // no pair of the rules is lost, and singletons decide
    ensures pairs { IfOk result (LosesNoPair net.now rules.now (target_of prefix.now dir kind) halves.now) }
    ensures singletons { IfOk result (DecidesSingletons net.now rules.now (target_of prefix.now dir kind)) }
{
    // a netlist knows itself as a circuit
    let _ = net.sources();
    let target = Target {
        path: prefix,
        direction: dir,
        kind,
    };
    hull_by_rules(alloc, net, rules, &target, halves)
}

// The same with the kind of states that the rules choose, without what it tells of pairs.
fn hull_by_rules(
    alloc: Global,
    net: &Netlist,
    rules: &Rules,
    target: &Target,
    halves: &[Half],
) -> Result<Hull, OutOfMemory>
    requires fit { FitRules net.now rules.now }
    requires prefix { IsPrefix net.now target.now.path.now }
    requires lines { All (λ half. half.split.line.0 < line_count net.now) halves.now }
    ensures { IfOk result (IsAtNode net.now rules.now (seen_target target.now) halves.now) }
{
    match rules {
        Rules::One | Rules::Two => {
            let found = hull_at::<FourStates>(alloc, net, rules, target, halves)?;
            Ok(found.map_or_else(Hull::Empty, Hull::Rest))
        }
        Rules::Linked(_) => {
            let found = hull_at::<SixStates>(alloc, net, rules, target, halves)?;
            Ok(found.map_or_else(Hull::Empty, Hull::RestLinked))
        }
    }
}

// What is found at a node with one kind of states.
fn hull_at<A: Algebra>(
    alloc: Global,
    net: &Netlist,
    rules: &Rules,
    target: &Target,
    halves: &[Half],
) -> Result<Result<Labels<A>, LineId>, OutOfMemory>
    requires fit { FitRules net.now rules.now }
    requires prefix { IsPrefix net.now target.now.path.now }
    requires lines { All (λ half. half.split.line.0 < line_count net.now) halves.now }
    ensures { IfOk result (IsFoundAt A.algebra net.now rules.now (seen_target target.now) halves.now) }
{
    let mut engine = Engine::<A, RuledNetlist>::new(alloc, RuledNetlist { net, rules })?;
    let found = hull_on(alloc, &mut engine, target, halves);
    // a call ends it, so that its many parts needn't be ended in this function's proof
    drop(engine);
    found
}

// The same on an engine that tells all lines and on which no scope is open.
fn hull_on<A: Algebra, S: Setting>(
    alloc: Global,
    engine: &mut Engine<A, S>,
    target: &Target,
    halves: &[Half],
) -> Result<Result<Labels<A>, LineId>, OutOfMemory>
    requires idle { engine.old.beginning ≡ None }
    requires all_told { engine.old.ends ≡ None }
    requires prefix { IsPrefix engine.old.net target.now.path.now }
    requires lines { All (λ half. half.split.line.0 < line_count engine.old.net) halves.now }
    ensures { IfOk result (IsFoundAt A.algebra engine.old.net engine.old.rules (seen_target target.now) halves.now) }
{
    let mut scope = begin_root(engine, target);
    assume_halves(&mut scope, halves);
    hull_of(alloc, &scope)
}

// Assumes halves one after another, down from the root of a tree.
fn assume_halves<A: Algebra, S: Setting>(scope: &mut Scope<A, S>, halves: &[Half])
    requires all_told { (standing scope.old).ends ≡ None }
    requires lines { All (λ half. half.split.line.0 < line_count (standing scope.old).net) halves.now }
    ensures setting { IsSameSetting (standing scope.old) (standing scope.new) }
    ensures below { (target : seen.Target) → IsScopeAt A.algebra target [] (standing scope.old) → IsScopeAt A.algebra target halves.now (standing scope.new) }
{
    for half in halves {
        assume_half(scope, *half);
    }
}

// The hull at the node at which a scope stands.
fn hull_of<A: Algebra, S: Setting>(
    alloc: Global,
    scope: &Scope<A, S>,
) -> Result<Result<Labels<A>, LineId>, OutOfMemory>
    requires all_told { (standing scope.now).ends ≡ None }
    ensures { (target : seen.Target) (halves : List Half) → IsScopeAt A.algebra target halves (standing scope.now)
        → IfOk result (IsFoundAt A.algebra (standing scope.now).net (standing scope.now).rules target halves) }
{
    if let Some(conflict) = scope.conflict() {
        return Ok(Err(conflict.0));
    }
    let labels = labels_of(alloc, scope.net(), scope.labels())?;
    Ok(Ok(labels))
}

// Labels with these sets.
fn labels_of<A: Algebra>(
    alloc: Global,
    net: &Netlist,
    sets: &[StateSet],
) -> Result<Labels<A>, OutOfMemory>
    requires { length sets.now ≡ line_count net.now }
    ensures { IfOk result (λ labels. labels ≡ sets.now) }
{
    let mut labels = Labels::full(alloc, net)?;
    labels.as_mut_slice().copy_from_slice(sets);
    Ok(labels)
}
