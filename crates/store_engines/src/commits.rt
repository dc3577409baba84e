//! Commits against the head.
ghost use Rattle.repo_core.specs.Dates.{dated};
ghost use Rattle.repo_store.specs.Words.{revisions_of};
ghost use Rattle.repo_store.specs.Changes.{next_entry, IsJudgedOver};
ghost use Rattle.store_engines.specs.Loads.{Commits};

use dump_load::{Applied, ChangeSet};
use fleet_disk::Disk;
use node_base::{Props, Refusal};
use repo_core::Moment;
use repo_store::{RepoStore, store_refusal};
use std::alloc::Global;

/// Commits the revision after the head.
pub fn commit<D: Disk + Drop>(
    alloc: Global,
    store: &mut RepoStore<D>,
    set: ChangeSet,
    props: Props,
    moment: Option<Moment>,
) -> Result<(), Refusal>
    ensures { Commits (next_entry (revisions_of store.old) set (dated props moment)) store.old store.new result }
{
    let head = store.repo().head();
    match store.commit(alloc, head, set, props, moment) {
        Ok(_committed) => Ok(()),
        Err(fault) => Err(store_refusal(fault)),
    }
}

/// Commits the revision after the head, whose set was judged over the revisions so far: it isn't applied again.
pub fn commit_applied<D: Disk + Drop>(
    alloc: Global,
    store: &mut RepoStore<D>,
    applied: Applied,
    props: Props,
) -> Result<(), Refusal>
    requires { IsJudgedOver (revisions_of store.old) applied }
    ensures { Commits (next_entry (revisions_of store.old) applied.set props) store.old store.new result }
{
    match store.commit_applied(alloc, applied, props) {
        Ok(_committed) => Ok(()),
        Err(fault) => Err(store_refusal(fault)),
    }
}
