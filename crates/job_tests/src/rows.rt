//! How a mirror stands behind so many entries of a job, and what the job has told by then.
use crate::jobs::{
    COMMITTED_1, COMMITTED_ALONE, COPIED_0, COPIED_1, COPIED_BOTH, Order, is_merged,
};
use fleet_disk::MemDisk;
use node_base::RevNo;
use repo_store::RepoStore;
use std::alloc::Global;

// How a mirror stands: its head; on revision 0 what is merged, what is being copied, and the lock's token; and revision
// 1's log. Nothing where it has none.
pub(crate) type Row = (
    u16,
    &'static [u8],
    &'static [u8],
    &'static [u8],
    &'static [u8],
);

// What stands behind so many entries of a synchronisation of a master of one revision, and what it has told by then.
const SYNCHRONISING: [(Row, u64); 8] = [
    ((0, b"0", b"", b"", b""), 0),
    ((0, b"0", b"", b"job", b""), 0),
    ((0, b"0", b"1", b"job", b""), 0),
    ((1, b"0", b"1", b"job", b"hi"), COMMITTED_ALONE),
    ((1, b"0", b"1", b"job", b"hi"), COMMITTED_1),
    ((1, b"1", b"1", b"job", b"hi"), COMMITTED_1),
    ((1, b"1", b"", b"job", b"hi"), COMMITTED_1),
    ((1, b"1", b"", b"", b"hi"), COMMITTED_1),
];

// The same of an initialisation.
const BEGINNING: [(Row, u64); 2] = [
    ((0, b"", b"", b"", b""), 0),
    ((0, b"0", b"", b"", b""), COPIED_0),
];

// The same where the properties of both revisions are copied again, and revision 1's log was edited.
const COPYING: [(Row, u64); 5] = [
    ((1, b"1", b"", b"", b"hi"), 0),
    ((1, b"1", b"", b"job", b"hi"), 0),
    ((1, b"1", b"", b"job", b"hi"), COPIED_0),
    ((1, b"1", b"", b"job", b"ho"), COPIED_BOTH),
    ((1, b"1", b"", b"", b"ho"), COPIED_BOTH),
];

// The row of so many entries.
fn row_in(rows: &[(Row, u64)], count: usize) -> Option<(Row, u64)> {
    match rows.get(count) {
        Some(row) => Some(*row),
        None => None,
    }
}

// What stands behind so many entries of a job, and what it has told by then.
pub(crate) fn row_of(order: &Order, count: usize) -> Option<(Row, u64)> {
    match order {
        Order::Initialize => row_in(&BEGINNING, count),
        Order::Synchronize | Order::Steal => row_in(&SYNCHRONISING, count),
        Order::Copy(_, _) => row_in(&COPYING, count),
    }
}

// How many entries a job has.
pub(crate) fn entries_of(order: &Order) -> usize {
    match order {
        Order::Initialize => 1,
        Order::Synchronize | Order::Steal => 7,
        Order::Copy(_, _) => 4,
    }
}

// Whether a revision says this by a property, or nothing.
fn says(store: &RepoStore<MemDisk>, number: u16, name: &[u8], text: &[u8]) -> bool {
    match store.repo().props(RevNo::new(number)) {
        Some(props) => match props.get(name) {
            Some(found) => !text.is_empty() && found == text,
            None => text.is_empty(),
        },
        None => text.is_empty(),
    }
}

pub(crate) fn is_so(store: &RepoStore<MemDisk>, row: &Row) -> bool {
    let (head, merged, copying, lock, log) = row;
    store.repo().head().get() == *head
        && says(store, 0, b"svn:sync-last-merged-rev", merged)
        && says(store, 0, b"svn:sync-currently-copying", copying)
        && says(store, 0, b"svn:sync-lock", lock)
        && says(store, 1, b"svn:log", log)
}

// Whether two stores have the same of revision 1: its changes, its texts and its properties.
fn are_alike(alloc: Global, store: &RepoStore<MemDisk>, source: &RepoStore<MemDisk>) -> bool {
    let Ok(found) = store.export(alloc, RevNo::new(1)) else {
        return false;
    };
    match source.export(alloc, RevNo::new(1)) {
        Ok(wanted) => found.as_slice() == wanted.as_slice(),
        Err(_) => false,
    }
}

// Whether a disk opens as a mirror at rest with its master's one revision.
pub(crate) fn is_at_rest(alloc: Global, disk: MemDisk, source: &RepoStore<MemDisk>) -> bool {
    match RepoStore::open(alloc, disk) {
        Ok(store) => {
            let is_so = is_merged(&store, 1, b"1") && are_alike(alloc, &store, source);
            let _disk = store.into_disk();
            is_so
        }
        Err(_) => false,
    }
}

// What the later synchronisation tells, by the entries of the stopped one that stand.
pub(crate) fn told_later(entries: usize) -> u64 {
    match entries {
        0..=2 => COMMITTED_1,
        3 | 4 => COPIED_1,
        _ => 0,
    }
}
