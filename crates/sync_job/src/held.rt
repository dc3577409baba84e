//! A master that is held alone.
ghost use Rattle.std.specs.Prelude.{◌≡◌};
ghost use Rattle.sync_job.specs.Alone.{master_in};

use crate::lent::{identity_of, props_of, revision_of};
use crate::master::{Fetched, MasterFault, MasterPort};
use fleet_disk::Disk;
use node_base::{PropValue, Props, RevNo};
use path_tree::Tree;
use repo_store::RepoStore;
use std::alloc::Global;

/// A master in a store that nobody else has.
#[derive(Drop)]
pub struct HeldMaster<D: Disk + Drop> {
    store: RepoStore<D>,
}

impl<D: Disk + Drop> HeldMaster<D> {
    /// The master in a store.
    pub fn new(store: RepoStore<D>) -> HeldMaster<D>
        ensures { master_in result ≡ store }
    {
        HeldMaster { store }
    }

    /// The store.
    pub fn store(&self) -> &RepoStore<D>
        ensures { result.now ≡ master_in self.now }
    {
        &self.store
    }

    /// The store, which no call has changed.
    pub fn into_store(self) -> RepoStore<D>
        ensures { result ≡ master_in self }
    {
        self.store
    }
}

impl<D: Disk + Drop> MasterPort for HeldMaster<D> {
    ghost use Rattle.std.specs.Prelude.{◌≡◌};
    ghost use Rattle.std.specs.List.{AllByRecursion};
    ghost use Rattle.std.proofs.Common.{refl};
    ghost use Rattle.repo_store.specs.Words.{repository_of};
    ghost use Rattle.sync_job.specs.Alone.{IsAnsweredBy, IsMasterAt};

    ghost is_at = { λ a o. IsMasterAt (repository_of a.store) o };

    ghost answered = { λ now first made. (now ≡ first) × AllByRecursion (IsAnsweredBy (repository_of first.store)) made };

    ghost unasked = { λ _. (refl, tt) };

    fn identity(&mut self, alloc: Global) -> Result<PropValue, MasterFault> {
        identity_of(alloc, &self.store)
    }

    fn latest(&mut self, _alloc: Global) -> Result<RevNo, MasterFault> {
        Ok(self.store.repo().head())
    }

    fn fetch(
        &mut self,
        alloc: Global,
        number: RevNo,
        _trees: &[Tree],
    ) -> Result<Fetched, MasterFault> {
        revision_of(alloc, &self.store, number)
    }

    fn fetch_props(&mut self, _alloc: Global, number: RevNo) -> Result<Props, MasterFault> {
        props_of(&self.store, number)
    }
}
