// The labels with which a scope begins, and what comes of entering the first pin of a path in a scope within it: a conflict stays until
// it is left.
ghost use Rattle.std.specs.Prelude.{◌≡◌, ◌<◌, IsSome, None};
ghost use Rattle.netlist.specs.Circuit.{source_count};
ghost use Rattle.netlist.specs.Paths.{IsPath};
ghost use Rattle.trees.specs.Unlinked.{IsUnlinked};
ghost use Rattle.implication.specs.Scopes.{standing};

use crate::entering::is_on;
use implication::{Engine, RuledNetlist, Scope, Setting};
use netlist::Netlist;
use pd_base::{LineId, Path, PinRef, Steps};
use row_answers::{
    Fault, RuledFault, Text, Trouble, add_labels, fault_of, path, unlinked_rules_of,
};
use state_sets::{FourStates, StateSet};
use std::alloc::Global;

// A set of one state: not steady and 1 at last.
const RISES: StateSet = StateSet(8);

/// Adds a line for each line of the circuit, when a transition is launched at the source of a path: its name, and the numbers of its
/// states. Then whether the path's first pin leads to a conflict, and whether an assumption about the source leaves it so; how many steps
/// and how many conflicts were counted. The row: the rules, which have no links, transition and kind.
pub fn launched(
    alloc: Global,
    net: &Netlist,
    route: &str,
    row: &str,
    answer: &mut Text,
) -> Result<(), Trouble> {
    let (rules, row) = unlinked_rules_of(row);
    let (fault, _) = fault_of(row)?;
    let path = path(alloc, net, route)?;
    let rules = &rules;
    add_launch(alloc, net, &path, RuledFault { rules, fault }, answer)
}

// The same on an engine of its own.
fn add_launch(
    alloc: Global,
    net: &Netlist,
    path: &Path,
    fault: RuledFault,
    answer: &mut Text,
) -> Result<(), Trouble>
    requires path { IsPath net.now path.now }
    requires unlinked { IsUnlinked fault.rules.now }
{
    let RuledFault { rules, fault } = fault;
    let setting = RuledNetlist { net, rules };
    let mut engine = Engine::<FourStates, RuledNetlist>::new(alloc, setting)?;
    launch(&mut engine, path, fault, answer)
}

// What comes of the first pin.
#[derive(Clone, Copy)]
struct Entered {
    // Whether it leads to a conflict.
    conflict: bool,
    // Whether an assumption is answered with that conflict, or with none where there is none.
    stays: bool,
    // How many steps were counted.
    steps: u64,
    // How many conflicts were counted.
    closings: u64,
}

// The same on an engine on which no scope is open, and which tells all lines.
fn launch<S: Setting>(
    engine: &mut Engine<FourStates, S>,
    path: &Path,
    fault: Fault,
    answer: &mut Text,
) -> Result<(), Trouble>
    requires idle { engine.old.beginning ≡ None }
    requires all { engine.old.ends ≡ None }
    requires path { IsPath engine.old.net path.now }
{
    let mut scope = Scope::begin(engine, path.source(), fault.direction, fault.kind);
    add_labels(scope.net(), scope.labels(), answer);
    let mut inner = scope.engine.scope();
    let entered = enter_first(&mut inner, path.source(), path.steps());
    inner.close();
    match entered {
        Some(entered) => {
            add_entered(entered, answer);
            Ok(())
        }
        None => Err(Trouble::NoRow),
    }
}

// Enters the first pin, if it is on the source, and then assumes that the source rises.
fn enter_first<S: Setting>(
    scope: &mut Scope<FourStates, S>,
    source: LineId,
    pins: &[PinRef],
) -> Option<Entered>
    requires begun { IsSome (standing scope.old).beginning }
    requires all { (standing scope.old).ends ≡ None }
    requires source { source.0 < source_count (standing scope.old).net }
{
    let pin = *pins.first()?;
    if !is_on(scope.net(), scope.last_line(), pin) {
        return None;
    }
    let mut steps = Steps::start(());
    let conflict = scope.enter(pin, &mut steps).err();
    let again = scope.assume(source, RISES).err();
    Some(Entered {
        conflict: conflict.is_some(),
        stays: again == conflict,
        steps: steps.count(),
        closings: scope.closings(),
    })
}

// The line that tells of it.
fn add_entered(entered: Entered, answer: &mut Text) {
    answer.add(if entered.conflict {
        "  a conflict"
    } else {
        "  no conflict"
    });
    answer.add(if entered.stays { "" } else { ", then another" });
    answer.add_number("; steps ", entered.steps);
    answer.add_number(" conflicts ", entered.closings);
    answer.add("\n");
}
