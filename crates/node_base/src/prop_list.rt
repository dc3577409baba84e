//! Entries of a property map that one owner may change.
ghost use Rattle.std.specs.Prelude.{◌≡◌, ◌≤◌, ◌<◌, length, IfOk, OnOk, IfErr, OnErr, IsSome, None};
ghost use Rattle.std.specs.FinMap as map;
ghost use Rattle.std.specs.Option.{option_copied};
ghost use Rattle.node_base.specs.Path.{name_cmp};
ghost use Rattle.node_base.specs.Entries.{IsRising, place};
ghost use Rattle.node_base.specs.Props.{without_sync};

use crate::props::is_sync_name;
use crate::{PropName, PropValue};
use std::alloc::{AllocError, Global};
use std::cmp::Ordering;
use std::marker::Model;

// Values by name, the names rising.
#[derive(Drop)]
pub struct PropList {
    entries: Vec<(PropName, PropValue)>,
}

impl Model for PropList {
    ghost use Rattle.std.specs.FinMap as map;
    ghost use Rattle.node_base.specs.Props.{PropMap, coded_props};
    ghost use Rattle.node_base.specs.Entries.{IsRising};

    ghost Value = { PropMap };

    ghost coded = { coded_props };

    ghost view = { λ a. map.from_sorted a.entries.items };

    ghost invariant = { λ a. IsRising a.entries.items };
}

// Where the name is, or where it would go.
fn place_of(entries: &[(PropName, PropValue)], name: &[u8]) -> Result<usize, usize>
    requires { IsRising entries.now }
    ensures at { IfOk result (λ i. i ≡ place name.now entries.now) }
    ensures gap { IfErr result (λ i. i ≡ place name.now entries.now) }
    ensures found { IfOk result (λ i. i < length entries.now) }
    ensures present { OnOk result (IsSome (map.find name_cmp name.now entries.now)) }
    ensures absent { IfErr result (λ _. map.find name_cmp name.now entries.now ≡ None) }
    ensures in_range { IfErr result (λ i. i ≤ length entries.now) }
{
    let mut low = 0;
    let mut high = entries.len();
    while low < high {
        let middle = low + (high - low) / 2;
        let entry = &entries[middle];
        match name.cmp(&entry.0.as_bytes()) {
            Ordering::Less => high = middle,
            Ordering::Equal => return Ok(middle),
            Ordering::Greater => low = middle + 1,
        }
    }
    Err(low)
}

// The same name and value once more.
fn copy_entry(
    alloc: Global,
    entry: &(PropName, PropValue),
) -> Result<(PropName, PropValue), AllocError>
    ensures { IfOk result (λ e. e ≡ entry.now) }
{
    let name = entry.0.copy(alloc)?;
    Ok((name, entry.1.copy(alloc)?))
}

impl PropList {
    // No entries.
    pub fn new(alloc: Global) -> PropList
        ensures { result ≡ map.empty }
    {
        PropList {
            entries: Vec::new(alloc),
        }
    }

    // The entries in the order of their names.
    pub fn entries(&self) -> &[(PropName, PropValue)]
        ensures { result.now ≡ map.entries self.now }
    {
        self.entries.as_slice()
    }

    // The value at the name.
    pub fn get(&self, name: &[u8]) -> Option<&[u8]>
        ensures { option_copied result ≡ map.get self.now name.now }
    {
        match place_of(self.entries.as_slice(), name) {
            Ok(i) => {
                let entry = &self.entries[i];
                Some(entry.1.as_slice())
            }
            Err(_) => None,
        }
    }

    // The value stands at the name from now on.
    pub fn insert(&mut self, name: PropName, value: PropValue) -> Result<(), AllocError>
        ensures ok { OnOk result (self.new ≡ map.insert self.old name value) }
        ensures err { OnErr result (self.new ≡ self.old) }
    {
        match place_of(self.entries.as_slice(), name.as_bytes()) {
            Ok(i) => {
                let entry = &mut self.entries[i];
                entry.1 = value;
            }
            Err(i) => {
                self.entries.insert(i, (name, value))?;
            }
        }
        Ok(())
    }

    // No value stands at the name any more. The answer is whether one did.
    pub fn remove(&mut self, name: &[u8]) -> bool
        ensures there { result ≡ map.contains_key self.old name.now }
        ensures removed { self.new ≡ map.remove self.old name.now }
    {
        match place_of(self.entries.as_slice(), name) {
            Ok(i) => {
                self.entries.remove(i);
                true
            }
            Err(_) => false,
        }
    }

    // The same entries once more.
    pub fn copy(&self, alloc: Global) -> Result<PropList, AllocError>
        ensures { IfOk result (λ l. l ≡ self.now) }
    {
        let mut entries = Vec::with_capacity(alloc, self.entries.len())?;
        for entry in &self.entries {
            entries.push(copy_entry(alloc, entry)?)?;
        }
        Ok(PropList { entries })
    }

    // The entries whose names don't begin with `svn:sync-`.
    pub fn others(&self, alloc: Global) -> Result<PropList, AllocError>
        ensures { IfOk result (λ l. l ≡ without_sync self.now) }
    {
        let mut entries = Vec::new(alloc);
        for entry in &self.entries {
            if !is_sync_name(entry.0.as_bytes()) {
                entries.push(copy_entry(alloc, entry)?)?;
            }
        }
        Ok(PropList { entries })
    }
}
