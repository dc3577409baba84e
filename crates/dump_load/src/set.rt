//! A normal set of changes.
ghost use Rattle.std.specs.Prelude.{◌≡◌, ◌≤◌, List, [], length, IfErr, IfOk, OnErr, OnOk, map};
ghost use Rattle.dump_load.specs.Bounds.{IsBounded};
ghost use Rattle.dump_load.specs.Changes.{IsNormal, IsSet};
ghost use Rattle.dump_load.specs.Faults.{IsNoSet};
ghost use Rattle.node_base.specs.Tree.{PathMap};
ghost use Rattle.dump_text.specs.declared.record.NodeRecord.{NodeRecord as RecordOf};
ghost use Rattle.dump_load.specs.Records.{record_of, IsNormalSetOf};

use crate::limits::changes_limits;
use crate::normal::{is_in_order, is_normal};
use crate::{Change, ChangeFault};
use dump_text::NodeRecord;
use node_base::limits::CHANGES;
use std::alloc::{AllocError, Global};
use std::marker::Model;

/// At most 4,096 changes in path order, each path once, nothing under a path that is deleted, and each of them one that
/// dump text can say, whose path, source and parts are within their limits. Contracts see the list of changes.
#[derive(Drop)]
pub struct ChangeSet {
    changes: Vec<Change>,
}

impl Model for ChangeSet {
    ghost use Rattle.std.specs.Prelude.{List};
    ghost use Rattle.dump_load.specs.declared.change.Change.{Change};
    ghost use Rattle.dump_load.specs.Coded.{coded_set};

    ghost Value = { List Change };

    ghost coded = { coded_set };

    ghost use Rattle.dump_load.specs.Bounds.{IsBounded};

    ghost view = { λ a. a.changes.items };

    ghost invariant = { λ a. IsBounded a.changes.items };
}

impl ChangeSet {
    /// The set of these changes.
    pub(crate) fn new(changes: Vec<Change>) -> ChangeSet
        requires { IsSet changes.items }
        ensures set { result ≡ changes.items }
        ensures bounded { IsBounded changes.items }
    {
        changes_limits(&changes);
        ChangeSet { changes }
    }

    /// No change at all.
    pub fn empty(alloc: Global) -> ChangeSet
        ensures { result ≡ [] }
    {
        ChangeSet {
            changes: Vec::new(alloc),
        }
    }

    /// The set of these changes. Refused are more than 4,096 (8), then those that aren't in path order, each path
    /// once and nothing under a path that is deleted (15), then one that copies nothing and doesn't say what is
    /// there, or that dump text can't say: with a source where no node is made, or parts at a deletion (2).
    pub fn from_changes(changes: Vec<Change>) -> Result<ChangeSet, ChangeFault>
        ensures set { IfOk result (λ s. s ≡ changes.items) }
        ensures is_set { OnOk result (IsSet changes.items) }
        ensures bounded { OnOk result (IsBounded changes.items) }
        ensures refused { IfErr result (IsNoSet changes.items) }
        ensures no_set { OnErr result (¬ IsSet changes.items) }
    {
        if changes.len() > CHANGES {
            return Err(ChangeFault::TooLong);
        }
        if is_normal(&changes) {
            return Ok(ChangeSet::new(changes));
        }
        if is_in_order(&changes) {
            Err(ChangeFault::BadHeader)
        } else {
            Err(ChangeFault::OutOfOrder)
        }
    }

    /// The changes alone, in path order.
    pub fn into_changes(self) -> Vec<Change>
        ensures value { result.items ≡ self }
        ensures normal { IsNormal self }
        ensures few { length self ≤ CHANGES }
        ensures bounded { IsBounded self }
    {
        self.changes
    }

    /// Its changes, in path order.
    pub fn changes(&self) -> &[Change]
        ensures value { result.now ≡ self.now }
        ensures normal { IsNormal self.now }
        ensures few { length self.now ≤ CHANGES }
        ensures bounded { IsBounded self.now }
    {
        self.changes.as_slice()
    }

    /// The same set once more. Properties and texts are shared with it.
    pub fn share(&self, alloc: Global) -> Result<ChangeSet, AllocError>
        ensures { IfOk result (λ s. s ≡ self.now) }
    {
        let mut changes = Vec::with_capacity(alloc, self.changes.len())?;
        for change in &self.changes {
            changes.push(change.share(alloc)?)?;
        }
        Ok(ChangeSet { changes })
    }

    /// The records that state its changes, in path order, which they become: nothing of them is copied.
    pub fn into_records(self, alloc: Global) -> Result<Vec<NodeRecord>, AllocError>
        ensures { IfOk result (λ r. r.items ≡ map record_of self) }
    {
        self.changes
            .into_iter()
            .map(|change| change.into_record())
            .collect(alloc)
    }

    /// The records that state its changes, in path order. Where the set came from records over some trees, these give
    /// the same set again over them.
    pub fn to_records(&self, alloc: Global) -> Result<Vec<NodeRecord>, AllocError>
        ensures records { IfOk result (λ r. r.items ≡ map record_of self.now) }
        ensures again { IfOk result (λ r. (trees : List PathMap) (rs : List RecordOf)
            → IsNormalSetOf trees rs self.now
            → IsNormalSetOf trees r.items self.now) }
    {
        let mut records = Vec::with_capacity(alloc, self.changes.len())?;
        for change in &self.changes {
            records.push(change.to_record(alloc)?)?;
        }
        Ok(records)
    }
}
