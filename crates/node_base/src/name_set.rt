//! Names of properties that one owner may add to.
ghost use Rattle.std.specs.Prelude.{◌≡◌, ◌<◌, ◌^◌, [], IfOk, OnOk, OnErr};
ghost use Rattle.std.specs.FinMap as map;
ghost use Rattle.node_base.specs.PropDeltas.{kept_in};
ghost use Rattle.node_base.specs.Entries.{stored_bytes};

use crate::{PropName, Props};
use std::alloc::{AllocError, Global};
use std::collections::BTreeSet;
use std::marker::Model;

// Names, each of which is there once. They are seen by contracts as a finite map with an empty value at each name.
#[derive(Drop)]
pub struct NameSet {
    names: BTreeSet<PropName>,
}

impl Model for NameSet {
    ghost use Rattle.std.specs.FinMap as map;
    ghost use Rattle.node_base.specs.Props.{PropMap, coded_props};
    ghost use Rattle.node_base.specs.Entries.{blank};

    ghost Value = { PropMap };

    ghost coded = { coded_props };

    ghost view = { λ a. map.from_entries (blank a.names.keys) };
}

impl NameSet {
    // No names.
    pub fn new(alloc: Global) -> NameSet
        ensures { result ≡ map.empty }
    {
        NameSet {
            names: BTreeSet::new(alloc),
        }
    }

    // Whether the name is among them.
    pub fn contains(&self, name: &PropName) -> bool
        ensures { result ≡ map.contains_key self.now name.now }
    {
        self.names.contains(name)
    }

    // How many there are.
    pub fn len(&self) -> usize
        ensures { result ≡ map.len self.now }
    {
        self.names.len()
    }

    // How many bytes they have.
    pub fn byte_len(&self) -> u128
        ensures len { result ≡ stored_bytes self.now }
        ensures small { result < 2 ^ 72 }
    {
        let mut len = 0;
        for name in &self.names {
            len += name.len() as u128;
        }
        len
    }

    // The name is among them from now on.
    pub fn insert(&mut self, name: PropName) -> Result<(), AllocError>
        ensures ok { OnOk result (self.new ≡ map.insert self.old name []) }
        ensures err { OnErr result (self.new ≡ self.old) }
    {
        self.names.insert(name)?;
        Ok(())
    }

    // The same names once more.
    pub fn copy(&self, alloc: Global) -> Result<NameSet, AllocError>
        ensures { IfOk result (λ s. s ≡ self.now) }
    {
        let mut copied = NameSet::new(alloc);
        for name in &self.names {
            copied.insert(name.copy(alloc)?)?;
        }
        Ok(copied)
    }

    // Takes the names out of a list of properties.
    pub fn remove_from(&self, alloc: Global, list: &mut Props) -> Result<(), AllocError>
        ensures { OnOk result (list.new ≡ kept_in self.now list.old) }
    {
        for name in &self.names {
            list.remove(alloc, name.as_bytes())?;
        }
        Ok(())
    }
}
