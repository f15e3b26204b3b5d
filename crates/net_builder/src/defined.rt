// The names that are defined: the first that is defined twice, and the first that is used with no definition.
ghost use Rattle.std.specs.Prelude.{◌≡◌, ◌≢◌, ◌+◌, ◌<◌, [], length, map, take, All, AllPairs, Contains, IfOk, IfErr, OnOk};
ghost use Rattle.netlist.specs.Description.{AreDefined, AreDistinct, IsWithinLimits, defined_names, gates, line_named, names_by_line, used_names};
ghost use Rattle.netlist.specs.Statements.{used_by};
ghost use Rattle.net_builder.specs.Reading.{statement_at};
ghost use Rattle.net_builder.specs.Refusals.{MayRefuse};
ghost use Rattle.net_builder.specs.KnownNames.{known_names};

use crate::known::{are_lines, others_defined};
use crate::name_set::{NameFault, NameSet, has_name, name_count, push_name};
use crate::names::names_of_lines;
use crate::ordered_names::OrderedNames;
use crate::reading::defined;
use crate::{BuildFault, RawNet};
use pd_base::{FlatLists, Items, LineId, OutOfMemory};
use std::alloc::Global;

/// The names of all lines, by line, or the first that is defined twice.
pub(crate) fn distinct_names(alloc: Global, raw: &RawNet) -> Result<NameSet, BuildFault>
    requires { IsWithinLimits raw.now }
    ensures names { IfOk result (λ names. known_names names ≡ names_by_line raw.now) }
    ensures distinct { IfOk result (λ _. AreDistinct raw.now) }
    ensures refused { IfErr result (MayRefuse raw.now) }
{
    match names_of_lines(alloc, raw) {
        Ok(names) => Ok(names),
        Err(NameFault::NoMemory(refused)) => Err(BuildFault::NoMemory(refused)),
        Err(NameFault::Repeated) => {
            // The first in the order of the statements; it is found, since there is one.
            check_distinct(alloc, raw)?;
            unreachable!()
        }
    }
}

// Looks for the first name that is defined twice.
fn check_distinct(alloc: Global, raw: &RawNet) -> Result<(), BuildFault>
    requires { IsWithinLimits raw.now }
    ensures distinct { IfOk result (λ _. AreDistinct raw.now) }
    ensures refused { IfErr result (MayRefuse raw.now) }
{
    let mut names = NameSet::Ordered(OrderedNames::new(alloc));
    add_all_defined(alloc, raw, &mut names)
}

// Puts the names that are defined, in order, into a set without names, each once.
fn add_all_defined(alloc: Global, raw: &RawNet, names: &mut NameSet) -> Result<(), BuildFault>
    requires limits { IsWithinLimits raw.now }
    requires none { known_names names.old ≡ [] }
    ensures names { OnOk result (known_names names.new ≡ defined_names raw.now) }
    ensures distinct { IfOk result (λ _. AreDistinct raw.now) }
    ensures refused { IfErr result (MayRefuse raw.now) }
{
    for place in 0..raw.len() {
        add_defined(alloc, raw, place, names)?;
    }
    Ok(())
}

// Adds the name that a statement defines to those that the statements before it define.
fn add_defined(
    alloc: Global,
    raw: &RawNet,
    place: usize,
    names: &mut NameSet,
) -> Result<(), BuildFault>
    requires within { place < length raw.now }
    requires limits { IsWithinLimits raw.now }
    requires names { known_names names.old ≡ defined_names (take place raw.now) }
    requires distinct { AreDistinct (take place raw.now) }
    ensures names { OnOk result (known_names names.new ≡ defined_names (take (place + 1) raw.now)) }
    ensures distinct { OnOk result (AreDistinct (take (place + 1) raw.now)) }
    ensures refused { IfErr result (MayRefuse raw.now) }
{
    let Some(name) = defined(raw, place) else {
        return Ok(());
    };
    if has_name(names, name) {
        return Err(BuildFault::Twice(raw.line(place), copied(alloc, name)?));
    }
    push_name(alloc, names, name)?;
    Ok(())
}

/// Refuses statements that use a name which is none of these, the names of the lines. The pins are those of the gates, and
/// the number past the last line stands for a name that no line bears. So the arguments of gates, of which there are many,
/// are looked up again only where there is such a pin.
pub(crate) fn check_uses(
    alloc: Global,
    raw: &RawNet,
    names: &NameSet,
    pins: &FlatLists<LineId>,
) -> Result<(), BuildFault>
    requires limits { IsWithinLimits raw.now }
    requires distinct { AreDistinct raw.now }
    requires names { known_names names.now ≡ names_by_line raw.now }
    requires pins { pins.now ≡ map (λ gate. map (line_named (known_names names.now)) gate.arguments) (gates raw.now) }
    ensures defined { IfOk result (λ _. AreDefined raw.now) }
    ensures refused { IfErr result (MayRefuse raw.now) }
{
    if are_lines(pins, name_count(names) as u32) && others_defined(raw, names) {
        return Ok(());
    }
    first_undefined(alloc, raw, names)
}

// Looks for the first use of a name that is none of these, which are the names of the lines.
fn first_undefined(alloc: Global, raw: &RawNet, names: &NameSet) -> Result<(), BuildFault>
    requires limits { IsWithinLimits raw.now }
    requires distinct { AreDistinct raw.now }
    requires names { known_names names.now ≡ names_by_line raw.now }
    ensures defined { IfOk result (λ _. AreDefined raw.now) }
    ensures refused { IfErr result (MayRefuse raw.now) }
{
    for place in 0..raw.len() {
        check_used(alloc, raw, place, names)?;
    }
    Ok(())
}

// Looks for the first such use in a statement.
fn check_used(alloc: Global, raw: &RawNet, place: usize, names: &NameSet) -> Result<(), BuildFault>
    requires within { place < length raw.now }
    requires limits { IsWithinLimits raw.now }
    requires distinct { AreDistinct raw.now }
    requires names { known_names names.now ≡ names_by_line raw.now }
    requires before { All (Contains (defined_names raw.now)) (used_names (take place raw.now)) }
    ensures defined { IfOk result (λ _. All (Contains (defined_names raw.now)) (used_by (statement_at raw.now place))) }
    ensures refused { IfErr result (MayRefuse raw.now) }
{
    for argument in 0..raw.used_len(place) {
        let name = raw.used(place, argument);
        if !has_name(names, name) {
            return Err(BuildFault::Undefined(raw.line(place), copied(alloc, name)?));
        }
    }
    Ok(())
}

/// A copy of a name.
pub(crate) fn copied(alloc: Global, name: &[u8]) -> Result<Items<u8>, OutOfMemory>
    ensures { IfOk result (λ copy. copy ≡ name.now) }
{
    Ok(Items::new(Vec::from_slice(alloc, name)?))
}
