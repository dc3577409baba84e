//! A master that is lent.
ghost use Rattle.std.specs.Prelude.{◌≡◌, List, None, Some, IfOk};
ghost use Rattle.node_base.specs.Tree.{PathMap};
ghost use Rattle.uuid.specs.Text.{hyphenated_text, lower};
ghost use Rattle.repo_store.specs.Words.{repository_of};
ghost use Rattle.sync_job.specs.Alone.{lent_in, IsAnsweredBy, IsMasterAt, IsTrueIn};
ghost use Rattle.sync_job.specs.Masters.{GivesIdentity, GivesRevision, GivesProps};
ghost use Rattle.sync_job.specs.Questions.{Identity, Fetch, FetchProps};

use crate::master::{Fetched, MasterFault, MasterPort};
use fleet_disk::Disk;
use node_base::{PropValue, Props, Refusal, RevNo};
use path_tree::Tree;
use repo_store::RepoStore;
use std::alloc::{AllocError, Global};
use uuid::Uuid;

/// A master in a store that is lent: no call changes it.
#[derive(Drop)]
pub struct LentMaster<'a, D: Disk + Drop> {
    store: &'a RepoStore<D>,
}

impl<'a, D: Disk + Drop> LentMaster<'a, D> {
    /// The master in a store.
    pub fn new(store: &'a RepoStore<D>) -> LentMaster<'a, D>
        ensures { lent_in result ≡ store.now }
    {
        LentMaster { store }
    }
}

impl<'a, D: Disk + Drop> MasterPort for LentMaster<'a, D> {
    ghost use Rattle.std.specs.Prelude.{◌≡◌};
    ghost use Rattle.std.specs.List.{AllByRecursion};
    ghost use Rattle.std.proofs.Common.{refl};
    ghost use Rattle.repo_store.specs.Words.{repository_of};
    ghost use Rattle.sync_job.specs.Alone.{IsAnsweredBy, IsMasterAt};

    ghost is_at = { λ a o. IsMasterAt (repository_of a.store.now) o };

    ghost answered = { λ now first made. (now ≡ first) × AllByRecursion (IsAnsweredBy (repository_of first.store.now)) made };

    ghost unasked = { λ _. (refl, tt) };

    fn identity(&mut self, alloc: Global) -> Result<PropValue, MasterFault> {
        identity_of(alloc, self.store)
    }

    fn latest(&mut self, _alloc: Global) -> Result<RevNo, MasterFault> {
        Ok(self.store.repo().head())
    }

    fn fetch(
        &mut self,
        alloc: Global,
        number: RevNo,
        _trees: &[Tree],
    ) -> Result<Fetched, MasterFault> {
        revision_of(alloc, self.store, number)
    }

    fn fetch_props(&mut self, _alloc: Global, number: RevNo) -> Result<Props, MasterFault> {
        props_of(self.store, number)
    }
}

// What a master in a store answers; it stays as it is.

pub(crate) fn identity_of<D: Disk>(
    alloc: Global,
    store: &RepoStore<D>,
) -> Result<PropValue, MasterFault>
    ensures value { IsTrueIn (repository_of store.now) (GivesIdentity result) }
    ensures answered { IsAnsweredBy (repository_of store.now) (Identity result) }
{
    match identity_text(alloc, store.repo().identity()) {
        Ok(text) => Ok(text),
        Err(_) => Err(MasterFault::Refused(Refusal::OutOfMemory)),
    }
}

pub(crate) fn revision_of<D: Disk>(
    alloc: Global,
    store: &RepoStore<D>,
    number: RevNo,
) -> Result<Fetched, MasterFault>
    ensures revision { IsTrueIn (repository_of store.now) (GivesRevision number result) }
    ensures treeless { IfOk result (λ r. r.tree ≡ None) }
    ensures answered { (trees : List PathMap) → IsAnsweredBy (repository_of store.now) (Fetch number trees result) }
{
    let props = props_of(store, number)?;
    match store.repo().set(number) {
        Some(set) => match set.share(alloc) {
            Ok(set) => Ok(Fetched::without_tree(set, props)),
            Err(_) => Err(MasterFault::Refused(Refusal::OutOfMemory)),
        },
        None => Err(MasterFault::Refused(Refusal::NoSuchRevision)),
    }
}

pub(crate) fn props_of<D: Disk>(store: &RepoStore<D>, number: RevNo) -> Result<Props, MasterFault>
    ensures value { IsTrueIn (repository_of store.now) (GivesProps number result) }
    ensures answered { IsAnsweredBy (repository_of store.now) (FetchProps number result) }
{
    match store.repo().props(number) {
        Some(props) => match props.share() {
            Ok(props) => Ok(props),
            Err(_) => Err(MasterFault::Refused(Refusal::OutOfMemory)),
        },
        None => Err(MasterFault::Refused(Refusal::NoSuchRevision)),
    }
}

// The identity as a mirror's properties spell it.
fn identity_text(alloc: Global, identity: Uuid) -> Result<PropValue, AllocError>
    ensures { IfOk result (λ v. v ≡ hyphenated_text lower identity) }
{
    let mut buffer = [0u8; 36];
    let text = identity.hyphenated().encode_lower(&mut buffer);
    match PropValue::new(Vec::from_slice(alloc, text.as_bytes())?) {
        Ok(value) => Ok(value),
        Err(_) => Err(AllocError),
    }
}
