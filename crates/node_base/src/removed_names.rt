//! Names that a change of a list of properties removes.
ghost use Rattle.std.specs.Prelude.{◌≡◌, ◌<◌, ◌^◌, [], IfOk, OnOk, OnErr};
ghost use Rattle.std.specs.FinMap as map;
ghost use Rattle.node_base.specs.PropDeltas.{kept_in};
ghost use Rattle.node_base.specs.Entries.{stored_bytes};

use crate::name_set::NameSet;
use crate::{PropName, Props};
use std::alloc::{AllocError, Global};
use std::marker::Model;
use std::sync::Arc;

/// Names that are removed, as many as there may be, each once. They are seen by contracts as a finite map with an empty
/// value at each name. A name is looked up and added by halves, not by a walk over the others. Its owners share the
/// names.
#[derive(Drop)]
pub struct RemovedNames {
    set: Option<Arc<NameSet>>,
}

impl Model for RemovedNames {
    ghost use Rattle.std.specs.Option.{option_map_or};
    ghost use Rattle.node_base.specs.Props.{PropMap, coded_props};
    ghost use Rattle.std.specs.Arc.{arc_value};
    ghost use Rattle.std.specs.FinMap as map;

    ghost Value = { PropMap };

    ghost coded = { coded_props };

    ghost view = { λ a. option_map_or (λ s. arc_value s) a.set map.empty };
}

impl RemovedNames {
    /// No names.
    pub fn empty() -> RemovedNames
        ensures { result ≡ map.empty }
    {
        RemovedNames { set: None }
    }

    /// The same names for another owner, with no copy of them.
    pub fn share(&self) -> Result<RemovedNames, AllocError>
        ensures { IfOk result (λ n. n ≡ self.now) }
    {
        match &self.set {
            Some(set) => Ok(RemovedNames {
                set: Some(Arc::try_clone(set)?),
            }),
            None => Ok(RemovedNames { set: None }),
        }
    }

    /// Whether the name is among them.
    pub fn contains(&self, name: &PropName) -> bool
        ensures { result ≡ map.contains_key self.now name.now }
    {
        match &self.set {
            Some(set) => set.contains(name),
            None => false,
        }
    }

    /// How many there are.
    pub fn len(&self) -> usize
        ensures { result ≡ map.len self.now }
    {
        match &self.set {
            Some(set) => set.len(),
            None => 0,
        }
    }

    /// How many bytes they have. Goes over all of them.
    pub fn byte_len(&self) -> u128
        ensures len { result ≡ stored_bytes self.now }
        ensures small { result < 2 ^ 72 }
    {
        match &self.set {
            Some(set) => set.byte_len(),
            None => 0,
        }
    }

    /// The name is among them from now on. At an error they stay. They are copied only where they have another owner.
    pub fn insert(&mut self, alloc: Global, name: PropName) -> Result<(), AllocError>
        ensures ok { OnOk result (self.new ≡ map.insert self.old name []) }
        ensures err { OnErr result (self.new ≡ self.old) }
    {
        if let Some(set) = &mut self.set {
            if let Some(set) = Arc::get_mut(set) {
                return set.insert(name);
            }
        }
        self.insert_in_copy(alloc, name)
    }

    // The same in a copy of the names.
    fn insert_in_copy(&mut self, alloc: Global, name: PropName) -> Result<(), AllocError>
        ensures ok { OnOk result (self.new ≡ map.insert self.old name []) }
        ensures err { OnErr result (self.new ≡ self.old) }
    {
        let mut set = self.copied(alloc)?;
        set.insert(name)?;
        self.set = Some(Arc::new(alloc, set)?);
        Ok(())
    }

    // The names once more.
    fn copied(&self, alloc: Global) -> Result<NameSet, AllocError>
        ensures { IfOk result (λ s. s ≡ self.now) }
    {
        match &self.set {
            Some(set) => set.copy(alloc),
            None => Ok(NameSet::new(alloc)),
        }
    }

    /// Takes the names out of a list of properties, where they are there.
    pub fn remove_from(&self, alloc: Global, list: &mut Props) -> Result<(), AllocError>
        ensures { OnOk result (list.new ≡ kept_in self.now list.old) }
    {
        match &self.set {
            Some(set) => set.remove_from(alloc, list),
            None => Ok(()),
        }
    }
}
