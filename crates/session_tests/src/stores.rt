//! The stores that the tests serve.

use crate::sets::{add, copied, dir, file, set_of};
use dump_load::ChangeSet;
use fleet_disk::MemDisk;
use node_base::{PropName, PropValue, Props};
use repo_store::RepoStore;
use std::alloc::Global;
use std::process::Abort;
use uuid::Uuid;

/// Properties with a log.
pub(crate) fn log(rt: &impl Abort, alloc: Global, text: &[u8]) -> Props {
    let mut props = Props::empty();
    let value = Vec::from_slice(alloc, text).expect(rt, "memory");
    let value = PropValue::new(value).expect(rt, "a value");
    let name = PropName::parse(alloc, b"svn:log").expect(rt, "a name");
    props.set(alloc, name, value).expect(rt, "a property");
    props
}

// A directory with a file.
fn one_file(rt: &impl Abort, alloc: Global) -> ChangeSet {
    let mut changes = Vec::new(alloc);
    add(rt, &mut changes, dir(rt, alloc, "t"));
    add(rt, &mut changes, file(rt, alloc, "t/x", b"x"));
    set_of(rt, changes)
}

/// A copy of the directory of revision 1.
pub(crate) fn copy_of_it(rt: &impl Abort, alloc: Global) -> ChangeSet {
    let mut changes = Vec::new(alloc);
    add(rt, &mut changes, copied(rt, alloc, "b", "t"));
    set_of(rt, changes)
}

// A store with revision 0 alone.
fn empty_store(rt: &impl Abort, alloc: Global) -> RepoStore<MemDisk> {
    let identity = Uuid::parse_str("6a1f0c3e-0000-4000-8000-000000000001").expect(
        rt,
        "an identity",
    );
    match RepoStore::create(alloc, MemDisk::new(alloc), identity) {
        Ok(store) => store,
        Err(_refused) => rt.abort(),
    }
}

// Commits a set with this log.
fn commit(
    rt: &impl Abort,
    alloc: Global,
    store: &mut RepoStore<MemDisk>,
    set: ChangeSet,
    text: &[u8],
) {
    let head = store.repo().head();
    let props = log(rt, alloc, text);
    let _number = store
        .commit(alloc, head, set, props, None)
        .expect(rt, "a revision");
}

/// Revision 1 adds a directory with a file.
pub(crate) fn short_store(rt: &impl Abort, alloc: Global) -> RepoStore<MemDisk> {
    let mut store = empty_store(rt, alloc);
    commit(rt, alloc, &mut store, one_file(rt, alloc), b"one");
    store
}

/// Revision 2 copies the directory of revision 1.
pub(crate) fn long_store(rt: &impl Abort, alloc: Global) -> RepoStore<MemDisk> {
    let mut store = short_store(rt, alloc);
    commit(rt, alloc, &mut store, copy_of_it(rt, alloc), b"two");
    store
}
