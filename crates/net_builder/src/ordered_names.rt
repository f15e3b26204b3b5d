// Names that are found by their order: in as many steps as the logarithm of their number, however they were chosen.
ghost use Rattle.std.specs.Prelude.{◌≡◌, [], ◌∷◌, ◌++◌, position, None, IfErr, OnOk, Contains};
ghost use Rattle.std.specs.Str.{bytes_eq};
ghost use Rattle.net_builder.specs.KeyNames.{key_names};
ghost use Rattle.net_builder.specs.NameFaults.{TellsRepeated};

use crate::name_set::NameFault;
use pd_base::OutOfMemory;
use std::alloc::Global;
use std::collections::BTreeMap;
use std::marker::Model;

/// Names, each once. Contracts see the list of the names, in the order in which they came.
#[derive(Drop)]
pub(crate) struct OrderedNames {
    names: Vec<Vec<u8>>,
    places: BTreeMap<Vec<u8>, usize>,
}

impl Model for OrderedNames {
    ghost use Rattle.std.specs.Prelude.{List, ℕ};

    ghost Value = { List (List ℕ) };

    ghost use Rattle.net_builder.specs.KeyNames.{key_names};
    ghost use Rattle.net_builder.specs.OrderedNames.{AreFound};

    ghost view = { λ o. key_names o.names.items };

    ghost invariant = { AreFound };
}

impl OrderedNames {
    /// No names.
    pub(crate) fn new(alloc: Global) -> OrderedNames
        ensures { result ≡ [] }
    {
        OrderedNames {
            names: Vec::new(alloc),
            places: BTreeMap::new(alloc),
        }
    }

    /// All names.
    pub(crate) fn texts(&self) -> &[Vec<u8>]
        ensures { key_names result.now ≡ self.now }
    {
        self.names.as_slice()
    }

    /// The place of a name, None where it is none of these.
    pub(crate) fn place_of(&self, name: &[u8]) -> Option<usize>
        ensures { result ≡ position (bytes_eq name.now) self.now }
    {
        self.places.get(name).copied()
    }

    /// Puts a name last, if it is none of these.
    pub(crate) fn add(&mut self, alloc: Global, name: &[u8]) -> Result<(), NameFault>
        ensures fresh { OnOk result (¬ Contains self.old name.now) }
        ensures repeated { IfErr result (TellsRepeated (Contains self.old name.now)) }
        ensures names { OnOk result (self.new ≡ self.old ++ name.now ∷ []) }
    {
        match self.place_of(name) {
            Some(_) => Err(NameFault::Repeated),
            None => Ok(self.push(alloc, name)?),
        }
    }

    // Puts a name last that is none of these.
    fn push(&mut self, alloc: Global, name: &[u8]) -> Result<(), OutOfMemory>
        requires { position (bytes_eq name.now) self.old ≡ None }
        ensures { OnOk result (self.new ≡ self.old ++ name.now ∷ []) }
    {
        let text = Vec::from_slice(alloc, name)?;
        let key = Vec::from_slice(alloc, name)?;
        self.names.reserve(1)?;
        self.places.insert(key, self.names.len())?;
        self.names.push_reserved(text);
        Ok(())
    }
}
