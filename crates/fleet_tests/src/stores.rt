//! The stores that the tests share, and sets for them.

use dump_load::{Change, ChangeSet};
use fleet_disk::MemDisk;
use node_base::{Action, NodeKind, NodePath, PropName, PropValue, Props, RevNo, Source};
use repo_store::RepoStore;
use std::alloc::Global;
use std::process::Abort;
use uuid::Uuid;

/// The identity of a master.
pub(crate) const MASTER: &str = "6a1f0c3e-0000-4000-8000-000000000001";

/// The name of the property that the tests change.
pub(crate) fn log_name(rt: &impl Abort, alloc: Global) -> PropName {
    PropName::parse(alloc, b"svn:log").expect(rt, "a name")
}

/// Properties with a log.
pub(crate) fn log(rt: &impl Abort, alloc: Global, text: &[u8]) -> Props {
    let mut props = Props::empty();
    let value = Vec::from_slice(alloc, text).expect(rt, "memory");
    let value = PropValue::new(value).expect(rt, "a value");
    props
        .set(alloc, log_name(rt, alloc), value)
        .expect(rt, "a property");
    props
}

// A change without parts.
fn bare(rt: &impl Abort, alloc: Global, at: &[u8]) -> Change {
    Change {
        path: NodePath::parse(alloc, at).expect(rt, "a path"),
        action: Action::Add,
        kind: None,
        source: None,
        props: None,
        text: None,
    }
}

// The set of one change.
fn alone(rt: &impl Abort, alloc: Global, change: Change) -> ChangeSet {
    let mut changes = Vec::new(alloc);
    changes.push(change).expect(rt, "memory");
    ChangeSet::from_changes(changes).expect(rt, "a normal set")
}

/// A directory that is added.
pub(crate) fn added(rt: &impl Abort, alloc: Global, at: &[u8]) -> ChangeSet {
    let mut change = bare(rt, alloc, at);
    change.kind = Some(NodeKind::Dir);
    change.props = Some(Props::empty());
    alone(rt, alloc, change)
}

/// A copy of the directory of revision 1.
pub(crate) fn copied(rt: &impl Abort, alloc: Global, at: &[u8]) -> ChangeSet {
    let mut change = bare(rt, alloc, at);
    change.source = Some(Source {
        path: NodePath::parse(alloc, b"t").expect(rt, "a path"),
        revision: RevNo::new(1),
    });
    alone(rt, alloc, change)
}

/// A store of revision 0 alone.
pub(crate) fn created(rt: &impl Abort, alloc: Global, identity: &str) -> RepoStore<MemDisk> {
    let identity = Uuid::parse_str(identity).expect(rt, "an identity");
    match RepoStore::create(alloc, MemDisk::new(alloc), identity) {
        Ok(store) => store,
        Err(_refused) => rt.abort(),
    }
}

/// The disk of a store whose revision 1 adds a directory, with the log `hi`.
pub(crate) fn disk(rt: &impl Abort, alloc: Global) -> MemDisk {
    let set = added(rt, alloc, b"t");
    let props = log(rt, alloc, b"hi");
    let mut store = created(rt, alloc, MASTER);
    let _number = store
        .commit(alloc, RevNo::ZERO, set, props, None)
        .expect(rt, "a revision");
    store.into_disk()
}
