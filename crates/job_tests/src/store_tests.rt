//! Entries that a store makes ready and installs, and a store whose device fails.
ghost use Rattle.repo_store.specs.Changes.{IsNumbered};
ghost use Rattle.repo_store.specs.Words.{revisions_of};

use crate::jobs::{fused, master, opened, some_file};
use crate::values::{MASTER, created, log};
use fleet_disk::{Disk, DiskFile, FuseDisk, MemDisk};
use node_base::RevNo;
use repo_core::Entry;
use repo_store::RepoStore;
use std::alloc::Global;
use std::process::Abort;

// The first entry: 149 bytes.
const FIRST: &[u8] =
    b"SVN-fs-dump-format-version: 2\n\nUUID: 6a1f0c3e-0000-4000-8000-000000000001\n\nRevision-number: 0\nProp-content-length: 10\nContent-length: 10\n\nPROPS-END\n\n";

// Revision 1, which adds a file: 275 bytes.
const SECOND: &[u8] =
    b"Revision-number: 1\nProp-content-length: 29\nContent-length: 29\n\nK 7\nsvn:log\nV 2\nhi\nPROPS-END\n\nNode-path: a\nNode-kind: file\nNode-action: add\nProp-content-length: 10\nText-content-length: 6\nText-content-md5: b1946ac92492d2347c6235b4d2611184\nContent-length: 16\n\nPROPS-END\nhello\n\n\n";

// Other properties of revision 1: 93 bytes.
const THIRD: &[u8] =
    b"Revision-number: 1\nProp-content-length: 29\nContent-length: 29\n\nK 7\nsvn:log\nV 2\nho\nPROPS-END\n\n";

// The journal's bytes are these entries, one behind another.
fn is_journal(disk: &MemDisk, entries: &[&[u8]]) -> bool {
    let mut rest = disk.bytes(DiskFile::Journal);
    for entry in entries {
        match rest.strip_prefix(*entry) {
            Some(behind) => rest = behind,
            None => return false,
        }
    }
    rest.is_empty()
}

// Whether this is the text of revision 1.
fn exports(alloc: Global, store: &RepoStore<MemDisk>, text: &[u8]) -> bool {
    match store.export(alloc, RevNo::new(1)) {
        Ok(exported) => exported.as_slice() == text,
        Err(_) => false,
    }
}

// Makes an entry ready, and drops it or installs it. Whether that is answered well.
fn staged(alloc: Global, store: &mut RepoStore<MemDisk>, entry: Entry, installed: bool) -> bool
    requires { IsNumbered (revisions_of store.old) entry }
{
    match store.stage(alloc, entry) {
        Ok(staged) if installed => store.install(staged).is_ok(),
        Ok(_dropped) => true,
        Err(_) => false,
    }
}

// The next revision, which adds a file with a log.
fn staged_file(rt: &impl Abort, alloc: Global, store: &mut RepoStore<MemDisk>) -> bool {
    let next = store.repo().trees().len();
    if next > 65_535 {
        return false;
    }
    let entry = Entry::Revised {
        number: RevNo::new(next as u16),
        set: some_file(alloc, "a").expect(rt, "a set"),
        props: log(rt, alloc, b"hi"),
    };
    staged(alloc, store, entry, true)
}

// Other properties of revision 1.
fn staged_log(
    rt: &impl Abort,
    alloc: Global,
    store: &mut RepoStore<MemDisk>,
    installed: bool,
) -> bool {
    let entry = Entry::Mapped {
        number: RevNo::new(1),
        props: log(rt, alloc, b"ho"),
    };
    staged(alloc, store, entry, installed)
}

#[test]
fn entries_are_staged_and_installed(rt: HostRuntime) {
    let alloc = rt.alloc();
    let mut store = created(&rt, alloc, MASTER);
    assert!(rt; staged_file(&rt, alloc, &mut store));
    assert!(rt; staged_log(&rt, alloc, &mut store, false));
    let mut store = opened(&rt, alloc, store.into_disk());
    assert!(rt; exports(alloc, &store, SECOND));
    assert!(rt; staged_log(&rt, alloc, &mut store, true));
    assert!(rt; is_journal(&store.into_disk(), &[FIRST, SECOND, THIRD]));
}

// Commits a file against the head, with a log: the number of the refusal, or 0.
fn commit<D: Disk>(rt: &impl Abort, alloc: Global, store: &mut RepoStore<D>, at: &str) -> u8 {
    let set = some_file(alloc, at).expect(rt, "a set");
    let props = log(rt, alloc, b"hi");
    match store.commit(alloc, store.repo().head(), set, props, None) {
        Ok(_) => 0,
        Err(fault) => fault.number(),
    }
}

// Whether this is the head of a store.
fn has_head<D: Disk>(store: &RepoStore<D>, revision: u16) -> bool {
    store.repo().head().get() == revision
}

// Whether a revision of this number may stand on the disk or not.
fn is_in_doubt<D: Disk>(store: &RepoStore<D>, revision: u16) -> bool {
    match store.in_doubt() {
        Some(Entry::Revised { number, .. }) => number.get() == revision,
        _ => false,
    }
}

// Whether a commit fails at its third call, and each later one for that.
fn fails(rt: &impl Abort, alloc: Global, store: &mut RepoStore<FuseDisk<MemDisk>>) -> bool {
    commit(rt, alloc, store, "b") == 31
        && commit(rt, alloc, store, "b") == 32
        && store.has_failed()
        && has_head(store, 1)
}

#[test]
fn the_third_call_fails(rt: HostRuntime) {
    let alloc = rt.alloc();
    let disk = master(&rt, alloc).into_disk();
    let mut store = fused(&rt, alloc, &disk, 2);
    assert!(rt; fails(&rt, alloc, &mut store));
    assert!(rt; is_in_doubt(&store, 2));
    let mut store = opened(&rt, alloc, store.into_disk());
    assert!(rt; has_head(&store, 1) && commit(&rt, alloc, &mut store, "b") == 0);
    let _disk = store.into_disk();
}
