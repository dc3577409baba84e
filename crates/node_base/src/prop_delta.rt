//! Changes of a list of properties.
ghost use Rattle.std.specs.Prelude.{◌≡◌, true, IfOk, OnOk, IfErr};
ghost use Rattle.std.specs.FinMap as map;
ghost use Rattle.node_base.specs.Props.{PropMap, props_fit};
ghost use Rattle.node_base.specs.PropDeltas.{applied, put_over, IsDeltaFault};

use crate::{PropFault, Props, RemovedNames};
use std::alloc::{AllocError, Global};

/// What a property block of a delta says: names that are set to values, and names that are removed.
#[derive(Drop)]
pub struct PropDelta {
    /// The names that are set, with their values.
    pub sets: Props,
    /// The names that are removed.
    pub removed: RemovedNames,
}

impl PropDelta {
    /// The list that it makes of an old one: the names that it removes are gone, where they were there, and those
    /// that it sets have its values. TooLong where that list is past the limits.
    pub fn applied(&self, alloc: Global, old: &Props) -> Result<Props, PropFault>
        ensures list { IfOk result (λ p. p ≡ applied self.now old.now) }
        ensures within { OnOk result (props_fit (applied self.now old.now) ≡ true) }
        ensures fault { IfErr result (λ e. IsDeltaFault e (applied self.now old.now)) }
    {
        let mut list = old.share()?;
        self.removed.remove_from(alloc, &mut list)?;
        self.put_over(alloc, &mut list)?;
        let _within = list.entries();
        Ok(list)
    }

    // Puts the names that it sets over a list.
    fn put_over(&self, alloc: Global, list: &mut Props) -> Result<(), PropFault>
        ensures list { OnOk result (list.new ≡ put_over self.now.sets list.old) }
        ensures fault { IfErr result (λ e. IsDeltaFault e (put_over self.now.sets list.old)) }
    {
        for (name, value) in self.sets.entries() {
            list.set(alloc, name.copy(alloc)?, value.copy(alloc)?)?;
        }
        Ok(())
    }
}
