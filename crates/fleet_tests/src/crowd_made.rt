//! The values, disks and seats that the crowds share.

use crate::stores::created;
use fleet_disk::{Disk, MemDisk};
use mirror_share::{JobSeat, MirrorName, MirrorShare, OpenedMirror};
use node_base::PropValue;
use repo_store::RepoStore;
use std::alloc::Global;
use std::process::Abort;
use std::sync::Wait;
use store_share::OpenedStore;
use sync_core::{SyncFault, Token};

/// The identity that a mirror has before it is begun.
pub(crate) const MIRROR: &str = "6a1f0c3e-0000-4000-8000-000000000002";

/// The number of a refusal, 0 where there is none.
pub(crate) fn number_of<T: Drop>(answer: Result<T, SyncFault>) -> u8 {
    match answer {
        Ok(_) => 0,
        Err(fault) => fault.number(),
    }
}

/// A property's value.
pub(crate) fn value(rt: &impl Abort, alloc: Global, text: &[u8]) -> PropValue {
    let bytes = Vec::from_slice(alloc, text).expect(rt, "memory");
    PropValue::new(bytes).expect(rt, "a property's value")
}

/// A job's token.
pub(crate) fn token(rt: &impl Abort, alloc: Global, text: &[u8]) -> Token {
    Token::new(Vec::from_slice(alloc, text).expect(rt, "memory")).expect(rt, "a token")
}

/// The disk of a store of revision 0 alone.
pub(crate) fn blank_disk(rt: &impl Abort, alloc: Global, identity: &str) -> MemDisk {
    created(rt, alloc, identity).into_disk()
}

// A store on a disk.
fn store_on<D: Disk + Drop>(rt: &impl Abort, alloc: Global, disk: D) -> RepoStore<D> {
    match RepoStore::open(alloc, disk) {
        Ok(store) => store,
        Err(_refused) => rt.abort(),
    }
}

/// A master that is opened on a disk.
pub(crate) fn opened<D: Disk + Drop>(rt: &impl Abort, alloc: Global, disk: D) -> OpenedStore<D> {
    match OpenedStore::of(alloc, store_on(rt, alloc, disk)) {
        Ok(opened) => opened,
        Err(_refused) => rt.abort(),
    }
}

/// A mirror that is opened on a disk.
pub(crate) fn mirror_on<D: Disk + Drop>(
    rt: &impl Abort,
    alloc: Global,
    disk: D,
) -> OpenedMirror<D> {
    match OpenedMirror::of(alloc, store_on(rt, alloc, disk)) {
        Ok(opened) => opened,
        Err(_refused) => rt.abort(),
    }
}

/// A seat for a job.
pub(crate) fn seat<R: Wait + Abort, L: MirrorName, D: Disk>(
    rt: &R,
    alloc: Global,
    share: &MirrorShare<L, D>,
    name: &[u8],
) -> JobSeat<L> {
    share
        .enter_job(rt, alloc, &token(rt, alloc, name))
        .expect(rt, "a seat")
}
