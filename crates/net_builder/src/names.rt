// The names of the lines by their numbers: inputs, then flip-flops, then gates, each in the order of the statements.
ghost use Rattle.std.specs.Prelude.{◌≡◌, ◌≢◌, ◌<◌, [], ◌∷◌, ◌++◌, length, AllPairs, MatchOption, IfOk, IfErr, OnOk};
ghost use Rattle.netlist.specs.Description.{AreDistinct, names_by_line};
ghost use Rattle.net_builder.specs.Reading.{statement_at};
ghost use Rattle.net_builder.specs.Groups.{group_in, group_names};
ghost use Rattle.net_builder.specs.KnownNames.{known_names};
ghost use Rattle.net_builder.specs.NameFaults.{TellsRepeated};

use crate::RawNet;
use crate::name_set::{NameFault, NameSet, add_name, no_names};
use crate::reading::{flop, gate, input};
use std::alloc::Global;

/// Lines that are numbered one behind another.
#[derive(Clone, Copy)]
pub(crate) enum Group {
    Inputs,
    Flops,
    Gates,
}

/// The names of all lines, by line, where no two are one.
pub(crate) fn names_of_lines(alloc: Global, raw: &RawNet) -> Result<NameSet, NameFault>
    ensures names { IfOk result (λ names. known_names names ≡ names_by_line raw.now) }
    ensures distinct { IfOk result (λ _. AreDistinct raw.now) }
    ensures repeated { IfErr result (TellsRepeated (¬ AreDistinct raw.now)) }
{
    let mut names = no_names(alloc, raw)?;
    add_lines(alloc, raw, &mut names)?;
    Ok(names)
}

// Puts the names of all lines into a set without names.
fn add_lines(alloc: Global, raw: &RawNet, names: &mut NameSet) -> Result<(), NameFault>
    requires { known_names names.old ≡ [] }
    ensures names { OnOk result (known_names names.new ≡ names_by_line raw.now) }
    ensures distinct { OnOk result (AreDistinct raw.now) }
    ensures repeated { IfErr result (TellsRepeated (¬ AreDistinct raw.now)) }
{
    add_group(alloc, raw, Group::Inputs, names)?;
    add_group(alloc, raw, Group::Flops, names)?;
    add_group(alloc, raw, Group::Gates, names)?;
    Ok(())
}

// Puts the names of a group last.
fn add_group(
    alloc: Global,
    raw: &RawNet,
    group: Group,
    names: &mut NameSet,
) -> Result<(), NameFault>
    requires { AllPairs (λ a b. a ≢ b) (known_names names.old) }
    ensures names { OnOk result (known_names names.new ≡ known_names names.old ++ group_names group raw.now) }
    ensures distinct { OnOk result (AllPairs (λ a b. a ≢ b) (known_names names.new)) }
    ensures repeated { IfErr result (TellsRepeated
        (¬ AllPairs (λ a b. a ≢ b) (known_names names.old ++ group_names group raw.now))) }
{
    for place in 0..raw.len() {
        add_member(alloc, raw, place, group, names)?;
    }
    Ok(())
}

// Puts the name last that a statement defines, if it is of the group.
fn add_member(
    alloc: Global,
    raw: &RawNet,
    place: usize,
    group: Group,
    names: &mut NameSet,
) -> Result<(), NameFault>
    requires within { place < length raw.now }
    requires distinct { AllPairs (λ a b. a ≢ b) (known_names names.old) }
    ensures names { OnOk result (known_names names.new ≡ known_names names.old ++ group_in group (statement_at raw.now place)) }
    ensures distinct { OnOk result (AllPairs (λ a b. a ≢ b) (known_names names.new)) }
    ensures repeated { IfErr result (TellsRepeated
        (¬ AllPairs (λ a b. a ≢ b) (known_names names.old ++ group_in group (statement_at raw.now place)))) }
{
    let Some(name) = member(raw, place, group) else {
        return Ok(());
    };
    add_name(alloc, names, name)?;
    Ok(())
}

// The name that a statement defines, if it is of the group.
fn member(raw: &RawNet, place: usize, group: Group) -> Option<&[u8]>
    requires { place < length raw.now }
    ensures { MatchOption result (group_in group (statement_at raw.now place) ≡ [])
        (λ name. group_in group (statement_at raw.now place) ≡ name.now ∷ []) }
{
    match group {
        Group::Inputs => input(raw, place),
        Group::Flops => flop(raw, place),
        Group::Gates => gate(raw, place),
    }
}
