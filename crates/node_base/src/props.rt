//! Properties of a node or a revision.
ghost use Rattle.std.specs.Prelude.{◌≡◌, ◌==◌, ◌↔◌, ◌+◌, ◌<◌, ◌≤◌, ◌^◌, length, true, nat_lt, IsTrue, IfOk, OnOk, IfErr, OnErr};
ghost use Rattle.std.specs.Prelude.{if◌then◌else◌};
ghost use Rattle.std.specs.FinMap as map;
ghost use Rattle.std.specs.Option.{option_copied};
ghost use Rattle.std.specs.Slice.Iter.{iter_rest};
ghost use Rattle.node_base.specs.declared.prop_fault.PropFault.TheVariants.{TooLong, OutOfMemory};
ghost use Rattle.node_base.specs.Props.{PropMap, IsProps, props_fit, fits_with, is_sync, sync_part, without_sync};
ghost use Rattle.node_base.specs.Props.{copied_beside};
ghost use Rattle.node_base.specs.Entries.{stored_bytes};

use crate::limits::{PROPS, SYNC_PROPS};
use crate::prop_list::PropList;
use crate::{PropFault, PropName, PropValue};
use std::alloc::{AllocError, Global};
use std::marker::Model;
use std::slice::Iter;
use std::sync::Arc;

/// Values by name, seen by contracts as a finite map in the byte order of the names. Its owners share the entries.
#[derive(Drop)]
pub struct Props {
    list: Option<Arc<PropList>>,
}

impl Model for Props {
    ghost use Rattle.std.specs.Option.{option_map_or};
    ghost use Rattle.node_base.specs.Props.{PropMap, coded_props};
    ghost use Rattle.std.specs.Arc.{arc_value};
    ghost use Rattle.std.specs.FinMap as map;

    ghost Value = { PropMap };

    ghost coded = { coded_props };

    ghost view = { λ a. option_map_or (λ l. arc_value l) a.list map.empty };

    ghost use Rattle.node_base.specs.Props.{IsProps};

    ghost invariant = { λ a. IsProps (option_map_or (λ l. arc_value l) a.list map.empty) };
}

impl Props {
    /// No properties.
    pub fn empty() -> Props
        ensures { result ≡ map.empty }
    {
        Props { list: None }
    }

    /// The same properties for another owner, with no copy of the entries.
    pub fn share(&self) -> Result<Props, AllocError>
        ensures { IfOk result (λ p. p ≡ self.now) }
    {
        match &self.list {
            Some(list) => Ok(Props {
                list: Some(Arc::try_clone(list)?),
            }),
            None => Ok(Props { list: None }),
        }
    }

    /// The value at the name.
    pub fn get(&self, name: &[u8]) -> Option<&[u8]>
        ensures { option_copied result ≡ map.get self.now name.now }
    {
        match &self.list {
            Some(list) => list.get(name),
            None => None,
        }
    }

    /// Whether a value stands at the name.
    pub fn contains(&self, name: &[u8]) -> bool
        ensures { result ≡ map.contains_key self.now name.now }
    {
        self.get(name).is_some()
    }

    /// How many properties there are.
    pub fn len(&self) -> usize
        ensures { result ≡ map.len self.now }
    {
        self.entries().len()
    }

    /// The names and values in the byte order of the names.
    pub fn entries(&self) -> &[(PropName, PropValue)]
        ensures entries { result.now ≡ map.entries self.now }
        ensures rules { IsProps self.now }
    {
        match &self.list {
            Some(list) => list.entries(),
            None => &[],
        }
    }

    /// How many bytes the names and values have. Goes over all of them.
    pub fn byte_len(&self) -> u64
        ensures len { result ≡ stored_bytes self.now }
        ensures small { result < 2 ^ 32 }
    {
        let mut len = 0;
        for (name, value) in self.entries() {
            len += entry_len(name, value);
        }
        len
    }

    /// Whether there are none.
    pub fn is_empty(&self) -> bool
        ensures { result ≡ (map.len self.now == 0) }
    {
        self.len() == 0
    }

    /// Goes over the names and values in the byte order of the names.
    pub fn iter(&self) -> Iter<'_, (PropName, PropValue)>
        ensures { iter_rest result ≡ map.entries self.now }
    {
        self.entries().iter()
    }

    /// Whether the other ones are the same.
    pub fn equals(&self, other: &Props) -> bool
        ensures { IsTrue result ↔ (self.now ≡ other.now) }
    {
        are_equal(self.entries(), other.entries())
    }

    /// The properties whose names don't begin with `svn:sync-`.
    pub fn without_sync(&self, alloc: Global) -> Result<Props, AllocError>
        ensures { IfOk result (λ p. p ≡ without_sync self.now) }
    {
        let _ = &self.list;
        let others = Arc::new(alloc, self.others(alloc)?)?;
        Ok(Props { list: Some(others) })
    }

    /// Copied properties but for their `svn:sync-` names, beside the `svn:sync-` names of these.
    pub fn copied_beside(&self, alloc: Global, copied: &Props) -> Result<Props, AllocError>
        ensures { IfOk result (λ p. p ≡ copied_beside self.now copied.now) }
    {
        let _ = &self.list;
        let _ = &copied.list;
        let mut list = copied.others(alloc)?;
        self.put_sync(alloc, &mut list)?;
        let list = Arc::new(alloc, list)?;
        Ok(Props { list: Some(list) })
    }

    // Puts those whose names begin with `svn:sync-` into entries that have none of them.
    fn put_sync(&self, alloc: Global, list: &mut PropList) -> Result<(), AllocError>
        ensures { OnOk result ((copied : PropMap) → list.old ≡ without_sync copied
            → list.new ≡ copied_beside self.now copied) }
    {
        for (name, value) in self.entries() {
            if is_sync_name(name.as_bytes()) {
                list.insert(name.copy(alloc)?, value.copy(alloc)?)?;
            }
        }
        Ok(())
    }

    // The entries whose names don't begin with `svn:sync-`.
    fn others(&self, alloc: Global) -> Result<PropList, AllocError>
        ensures { IfOk result (λ l. l ≡ without_sync self.now) }
    {
        match &self.list {
            Some(list) => list.others(alloc),
            None => Ok(PropList::new(alloc)),
        }
    }

    /// Whether the properties stay within the limits with a value at the name.
    pub fn fits_with(&self, name: &[u8]) -> bool
        ensures { result ≡ fits_with self.now name.now }
    {
        let _ = &self.list;
        if self.contains(name) {
            return true;
        }
        if is_sync_name(name) {
            self.sync_len() < SYNC_PROPS
        } else {
            self.has_room_for_other()
        }
    }

    // Whether one name more that doesn't begin so is within its limit. Names are counted only where they aren't few
    // anyway, so that reading a block counts them some thirty times at most, however many come.
    fn has_room_for_other(&self) -> bool
        ensures { result ≡ nat_lt (map.len (without_sync self.now)) PROPS }
    {
        self.len() < PROPS || self.other_len() < PROPS
    }

    // How many names begin with `svn:sync-`.
    fn sync_len(&self) -> usize
        ensures { result ≡ map.len (sync_part self.now) }
    {
        let mut n = 0;
        for (name, _) in self.entries() {
            if is_sync_name(name.as_bytes()) {
                n += 1;
            }
        }
        n
    }

    // How many names don't.
    fn other_len(&self) -> usize
        ensures { result ≡ map.len (without_sync self.now) }
    {
        let mut n = 0;
        for (name, _) in self.entries() {
            if !is_sync_name(name.as_bytes()) {
                n += 1;
            }
        }
        n
    }

    /// No value stands at the name any more. At an error the properties stay. The entries are copied only where they
    /// have another owner.
    pub fn remove(&mut self, alloc: Global, name: &[u8]) -> Result<(), AllocError>
        ensures ok { OnOk result (self.new ≡ map.remove self.old name.now) }
        ensures err { OnErr result (self.new ≡ self.old) }
    {
        match &mut self.list {
            Some(list) => match Arc::get_mut(list) {
                Some(list) => {
                    list.remove(name);
                    Ok(())
                }
                None => self.remove_in_copy(alloc, name),
            },
            None => Ok(()),
        }
    }

    // The same in a copy of the entries.
    fn remove_in_copy(&mut self, alloc: Global, name: &[u8]) -> Result<(), AllocError>
        ensures ok { OnOk result (self.new ≡ map.remove self.old name.now) }
        ensures err { OnErr result (self.new ≡ self.old) }
    {
        let mut rest = self.copied(alloc)?;
        rest.remove(name);
        self.list = Some(Arc::new(alloc, rest)?);
        Ok(())
    }

    // The entries once more.
    fn copied(&self, alloc: Global) -> Result<PropList, AllocError>
        ensures { IfOk result (λ l. l ≡ self.now) }
    {
        match &self.list {
            Some(list) => list.copy(alloc),
            None => Ok(PropList::new(alloc)),
        }
    }

    /// The value stands at the name from now on. TooLong where the map would pass 256 names, or 16 names that begin
    /// with `svn:sync-` and are counted apart. At an error the properties stay. The entries are copied only where they
    /// have another owner.
    pub fn set(&mut self, alloc: Global, name: PropName, value: PropValue) -> Result<(), PropFault>
        ensures ok { OnOk result (self.new ≡ map.insert self.old name value) }
        ensures within { OnOk result (props_fit (map.insert self.old name value) ≡ true) }
        ensures fault { IfErr result (λ e. e ≡ (if props_fit
            (map.insert self.old name value) then OutOfMemory else TooLong)) }
        ensures err { OnErr result (self.new ≡ self.old) }
    {
        let _ = &self.list;
        if !self.fits_with(name.as_bytes()) {
            return Err(PropFault::TooLong);
        }
        Ok(self.put(alloc, name, value)?)
    }

    // The value stands at the name from now on, which stays within the limits.
    fn put(&mut self, alloc: Global, name: PropName, value: PropValue) -> Result<(), AllocError>
        requires { IsProps (map.insert self.old name value) }
        ensures ok { OnOk result (self.new ≡ map.insert self.old name value) }
        ensures err { OnErr result (self.new ≡ self.old) }
    {
        if let Some(list) = &mut self.list {
            if let Some(list) = Arc::get_mut(list) {
                return list.insert(name, value);
            }
        }
        self.put_in_copy(alloc, name, value)
    }

    // The same in a copy of the entries.
    fn put_in_copy(
        &mut self,
        alloc: Global,
        name: PropName,
        value: PropValue,
    ) -> Result<(), AllocError>
        requires { IsProps (map.insert self.old name value) }
        ensures ok { OnOk result (self.new ≡ map.insert self.old name value) }
        ensures err { OnErr result (self.new ≡ self.old) }
    {
        let mut list = self.copied(alloc)?;
        list.insert(name, value)?;
        self.list = Some(Arc::new(alloc, list)?);
        Ok(())
    }
}

// How many bytes a name and its value have.
fn entry_len(name: &PropName, value: &PropValue) -> u64
    ensures len { result ≡ length name.now + length value.now }
    ensures small { result ≤ 65791 }
{
    name.len() as u64 + value.len() as u64
}

// Whether two lists of names and values are the same.
fn are_equal(these: &[(PropName, PropValue)], those: &[(PropName, PropValue)]) -> bool
    ensures { IsTrue result ↔ (these.now ≡ those.now) }
{
    if these.len() != those.len() {
        return false;
    }
    for i in 0..these.len() {
        let this = &these[i];
        let that = &those[i];
        if this.0.as_bytes() != that.0.as_bytes() || this.1.as_slice() != that.1.as_slice() {
            return false;
        }
    }
    true
}

/// Whether a name begins with `svn:sync-`.
pub fn is_sync_name(name: &[u8]) -> bool
    ensures { result ≡ is_sync name.now }
{
    name.starts_with(b"svn:sync-")
}
