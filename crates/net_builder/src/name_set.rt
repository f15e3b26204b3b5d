// A set of names, each with its number: the names in the order in which they came.
ghost use Rattle.std.specs.Prelude.{◌≡◌, ◌≢◌, ◌<◌, ◌≤◌, [], ◌∷◌, ◌++◌, length, position, slice_index_or, MatchBool, IfOk, IfErr, OnOk, Contains};
ghost use Rattle.std.specs.Str.{bytes_eq};
ghost use Rattle.netlist.specs.declared.limits.TheConstants.{MOST_LINES};
ghost use Rattle.netlist.specs.Description.{line_named};
ghost use Rattle.net_builder.specs.KeyNames.{key_names};
ghost use Rattle.net_builder.specs.KnownNames.{known_names};
ghost use Rattle.net_builder.specs.NameFaults.{TellsRepeated};

use crate::RawNet;
use crate::agreeing::hashes_agree;
use crate::ordered_names::OrderedNames;
use indexmap::IndexSet;
use pd_base::{LineId, OutOfMemory};
use std::alloc::{AllocError, AllocFailed, Global};

/// Names that are found by their hashes or, where too many of these agree, by their order.
#[derive(Drop)]
pub(crate) enum NameSet {
    Hashed(IndexSet<Vec<u8>>),
    Ordered(OrderedNames),
}

/// Why names are not a set.
#[derive(Drop)]
pub(crate) enum NameFault {
    /// A name came before.
    Repeated,
    /// Memory ran out.
    NoMemory(OutOfMemory),
}

impl From<OutOfMemory> for NameFault {
    ghost use Rattle.net_builder.specs.declared.name_set.NameFault.TheVariants.{NoMemory};

    ghost from_gives = { λ refused fault. fault ≡ NoMemory refused };

    fn from(refused: OutOfMemory) -> NameFault {
        NameFault::NoMemory(refused)
    }
}

impl From<AllocError> for NameFault {
    ghost use Rattle.net_builder.specs.declared.name_set.NameFault.TheVariants.{NoMemory};
    ghost use Rattle.pd_base.specs.Memory.{out_of_memory};

    ghost from_gives = { λ _ fault. fault ≡ NoMemory out_of_memory };

    fn from(error: AllocError) -> NameFault {
        NameFault::NoMemory(error.into())
    }
}

impl<T: Drop> From<AllocFailed<T>> for NameFault {
    ghost use Rattle.net_builder.specs.declared.name_set.NameFault.TheVariants.{NoMemory};
    ghost use Rattle.pd_base.specs.Memory.{out_of_memory};

    ghost from_gives = { λ _ fault. fault ≡ NoMemory out_of_memory };

    fn from(error: AllocFailed<T>) -> NameFault {
        NameFault::NoMemory(OutOfMemory::from(error))
    }
}

/// No names, where those will come that the statements define.
pub(crate) fn no_names(alloc: Global, raw: &RawNet) -> Result<NameSet, NameFault>
    ensures names { IfOk result (λ names. known_names names ≡ []) }
    ensures repeated { IfErr result (TellsRepeated ⊥) }
{
    if hashes_agree(alloc, raw)? {
        return Ok(NameSet::Ordered(OrderedNames::new(alloc)));
    }
    Ok(NameSet::Hashed(IndexSet::with_capacity(alloc, raw.len())?))
}

/// The names, in the order in which they came.
pub(crate) fn name_texts(names: &NameSet) -> &[Vec<u8>]
    ensures { key_names result.now ≡ known_names names.now }
{
    match names {
        NameSet::Hashed(hashed) => hashed.as_slice(),
        NameSet::Ordered(ordered) => ordered.texts(),
    }
}

/// The number of names.
pub(crate) fn name_count(names: &NameSet) -> usize
    ensures { result ≡ length (known_names names.now) }
{
    name_texts(names).len()
}

/// Whether the set has a name.
pub(crate) fn has_name(names: &NameSet, name: &[u8]) -> bool
    ensures { MatchBool result (Contains (known_names names.now) name.now) (¬ Contains (known_names names.now) name.now) }
{
    match place_of(names, name) {
        Some(_) => true,
        None => false,
    }
}

/// The line that bears a name, where the names are those of the lines, by line.
pub(crate) fn line_named_in(names: &NameSet, name: &[u8]) -> LineId
    requires { length (known_names names.now) ≤ MOST_LINES }
    ensures { result ≡ line_named (known_names names.now) name.now }
{
    match place_of(names, name) {
        Some(line) => LineId(line as u32),
        None => LineId(name_count(names) as u32),
    }
}

// The place of a name among all.
fn place_of(names: &NameSet, name: &[u8]) -> Option<usize>
    ensures { result ≡ position (bytes_eq name.now) (known_names names.now) }
{
    match names {
        NameSet::Hashed(hashed) => hashed.get_index_of(name),
        NameSet::Ordered(ordered) => ordered.place_of(name),
    }
}

/// Puts a name last, if the set has it not.
pub(crate) fn add_name(alloc: Global, names: &mut NameSet, name: &[u8]) -> Result<(), NameFault>
    ensures fresh { OnOk result (¬ Contains (known_names names.old) name.now) }
    ensures repeated { IfErr result (TellsRepeated (Contains (known_names names.old) name.now)) }
    ensures names { OnOk result (known_names names.new ≡ known_names names.old ++ name.now ∷ []) }
{
    match names {
        NameSet::Hashed(hashed) => add_hashed(alloc, hashed, name),
        NameSet::Ordered(ordered) => ordered.add(alloc, name),
    }
}

// Puts a name last, if it is none of these.
fn add_hashed(alloc: Global, names: &mut IndexSet<Vec<u8>>, name: &[u8]) -> Result<(), NameFault>
    ensures fresh { OnOk result (¬ Contains (key_names names.old.keys) name.now) }
    ensures repeated { IfErr result (TellsRepeated (Contains (key_names names.old.keys) name.now)) }
    ensures names { OnOk result (key_names names.new.keys ≡ key_names names.old.keys ++ name.now ∷ []) }
{
    if names.insert(Vec::from_slice(alloc, name)?)? {
        return Ok(());
    }
    Err(NameFault::Repeated)
}

/// Puts a name last that the set has not.
pub(crate) fn push_name(alloc: Global, names: &mut NameSet, name: &[u8]) -> Result<(), OutOfMemory>
    requires { ¬ Contains (known_names names.old) name.now }
    ensures { OnOk result (known_names names.new ≡ known_names names.old ++ name.now ∷ []) }
{
    match add_name(alloc, names, name) {
        Ok(()) => Ok(()),
        Err(NameFault::NoMemory(refused)) => Err(refused),
        Err(NameFault::Repeated) => unreachable!(),
    }
}
