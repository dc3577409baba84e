//! What the tests run: a master of two revisions, a mirror on a disk, and a report that counts in digits.
use crate::values::{MASTER, OTHER, created, log, number_of, some_token, some_value};
use dump_load::{Change, ChangeSet};
use fleet_disk::{Disk, DiskFile, Fuse, FuseDisk, MemDisk, Pick};
use gate_log::LogVersion;
use node_base::{Action, NodeKind, NodePath, PropValue, Props, RevNo, Text};
use repo_store::RepoStore;
use std::alloc::Global;
use std::process::Abort;
use sync_core::Token;
use sync_job::{
    AloneMirror, JobPorts, LentMaster, MasterPort, Report, run_copy_revprops, run_init, run_sync,
};

/// What was told, in decimal digits: 2 and twice the number for a commit, 1 and twice the number for a copy.
#[derive(Drop)]
pub(crate) struct Heard {
    pub(crate) told: u64,
}

impl Report for Heard {
    ghost heard = { λ now first told. Unit {0} };

    fn committed(&mut self, number: RevNo) {
        self.told = self
            .told
            .wrapping_mul(10)
            .wrapping_add(u64::from(number.get()).wrapping_mul(2).wrapping_add(2));
    }

    fn copied(&mut self, number: RevNo) {
        self.told = self
            .told
            .wrapping_mul(10)
            .wrapping_add(u64::from(number.get()).wrapping_mul(2).wrapping_add(1));
    }
}

/// Copied 0; committed 1; committed 1 and copied 1; copied 1 alone; copied 0 and copied 1.
pub(crate) const COPIED_0: u64 = 1;

pub(crate) const COMMITTED_ALONE: u64 = 4;

pub(crate) const COMMITTED_1: u64 = 43;

pub(crate) const COPIED_1: u64 = 3;

pub(crate) const COPIED_BOTH: u64 = 13;

/// How a run ended: what was told, and the number of its refusal, 0 where there is none.
#[derive(Clone, Copy, PartialEq, Eq)]
pub(crate) struct Ran {
    pub(crate) told: u64,
    pub(crate) number: u8,
}

pub(crate) fn ended(told: u64, number: u8) -> Ran {
    Ran { told, number }
}

/// A set that adds a file with six bytes.
pub(crate) fn some_file(alloc: Global, at: &str) -> Option<ChangeSet> {
    let path = NodePath::parse(alloc, at.as_bytes()).ok()?;
    let text = Text::new(alloc, Vec::from_slice(alloc, b"hello\n").ok()?).ok()?;
    let mut changes = Vec::new(alloc);
    changes.reserve(1).ok()?;
    changes.push_reserved(Change {
        path,
        action: Action::Add,
        kind: Some(NodeKind::File),
        source: None,
        props: Some(Props::empty()),
        text: Some(text),
    });
    ChangeSet::from_changes(changes).ok()
}

/// Commits a file with a log.
pub(crate) fn commit(rt: &impl Abort, alloc: Global, store: &mut RepoStore<MemDisk>, at: &str) {
    let head = store.repo().head();
    let set = some_file(alloc, at).expect(rt, "a set");
    match store.commit(alloc, head, set, log(rt, alloc, b"hi"), None) {
        Ok(_) => {}
        Err(_) => rt.abort(),
    }
}

/// Edits the log of a revision.
pub(crate) fn edit(rt: &impl Abort, alloc: Global, store: &mut RepoStore<MemDisk>, number: u16) {
    match store.put_props(alloc, RevNo::new(number), log(rt, alloc, b"ho")) {
        Ok(_) => {}
        Err(_) => rt.abort(),
    }
}

/// The master: one file in revision 1.
pub(crate) fn master(rt: &impl Abort, alloc: Global) -> RepoStore<MemDisk> {
    let mut store = created(rt, alloc, MASTER);
    commit(rt, alloc, &mut store, "a");
    store
}

/// What a job is to do.
#[derive(Clone, Copy)]
pub(crate) enum Order {
    Initialize,
    Synchronize,
    Steal,
    Copy(u16, u16),
}

/// Runs a job over a master at the mirror of a store, which comes back as the job's calls have left it.
pub(crate) fn job_over<M: MasterPort + Drop, D: Disk + Drop>(
    alloc: Global,
    master: M,
    store: RepoStore<D>,
    order: &Order,
    url: PropValue,
    token: Token,
) -> (RepoStore<D>, Ran) {
    let mirror = AloneMirror::new(store);
    let mut ports = JobPorts::new(alloc, master, mirror, Heard { told: 0 });
    let answer = match order {
        Order::Initialize => run_init(alloc, &mut ports, url),
        Order::Synchronize => run_sync(alloc, &mut ports, token, false),
        Order::Steal => run_sync(alloc, &mut ports, token, true),
        Order::Copy(low, high) => run_copy_revprops(
            alloc,
            &mut ports,
            token,
            RevNo::new(*low),
            RevNo::new(*high),
        ),
    };
    let (_master, mirror, heard) = ports.into_parts();
    (mirror.into_store(), ended(heard.told, number_of(answer)))
}

/// The URL and the token of a job.
pub(crate) fn words(rt: &impl Abort, alloc: Global) -> (PropValue, Token) {
    let url = some_value(alloc, b"master").expect(rt, "a property's value");
    (url, some_token(alloc, b"job").expect(rt, "a token"))
}

/// Runs a job over a store as its master.
pub(crate) fn job<D: Disk + Drop>(
    rt: &impl Abort,
    alloc: Global,
    store: RepoStore<D>,
    source: &RepoStore<MemDisk>,
    order: &Order,
) -> (RepoStore<D>, Ran) {
    let (url, token) = words(rt, alloc);
    job_over(alloc, LentMaster::new(source), store, order, url, token)
}

/// The store of a disk.
pub(crate) fn opened<D: Disk + Drop>(rt: &impl Abort, alloc: Global, disk: D) -> RepoStore<D> {
    match RepoStore::open(alloc, disk) {
        Ok(store) => store,
        Err(_) => rt.abort(),
    }
}

/// Runs a job at the mirror of a disk.
pub(crate) fn run(
    rt: &impl Abort,
    alloc: Global,
    disk: MemDisk,
    source: &RepoStore<MemDisk>,
    order: &Order,
) -> (MemDisk, Ran) {
    let store = opened(rt, alloc, disk);
    let (store, ran) = job(rt, alloc, store, source, order);
    (store.into_disk(), ran)
}

/// A disk with an empty repository of its own identity.
pub(crate) fn empty(rt: &impl Abort, alloc: Global) -> MemDisk {
    created(rt, alloc, OTHER).into_disk()
}

/// A disk with an initialised mirror, all synced.
pub(crate) fn initialised(rt: &impl Abort, alloc: Global, source: &RepoStore<MemDisk>) -> MemDisk {
    let (disk, _ran) = run(rt, alloc, empty(rt, alloc), source, &Order::Initialize);
    disk.crash(Pick::New).expect(rt, "memory")
}

/// The same, brought up to its master.
pub(crate) fn synchronised(rt: &impl Abort, alloc: Global, source: &RepoStore<MemDisk>) -> MemDisk {
    let begun = initialised(rt, alloc, source);
    let (disk, _ran) = run(rt, alloc, begun, source, &Order::Synchronize);
    disk.crash(Pick::New).expect(rt, "memory")
}

/// The disk at which a job begins.
pub(crate) fn begun_for(
    rt: &impl Abort,
    alloc: Global,
    source: &RepoStore<MemDisk>,
    order: &Order,
) -> MemDisk {
    match order {
        Order::Initialize => empty(rt, alloc),
        Order::Synchronize | Order::Steal => initialised(rt, alloc, source),
        Order::Copy(_, _) => synchronised(rt, alloc, source),
    }
}

/// The store of a disk, of which one call fails once, behind an opening and so many calls.
pub(crate) fn fused(
    rt: &impl Abort,
    alloc: Global,
    disk: &MemDisk,
    calls: u64,
) -> RepoStore<FuseDisk<MemDisk>> {
    let copy = disk.crash(Pick::New).expect(rt, "memory");
    let opening = opened(rt, alloc, copy).into_disk().calls().len() as u64;
    let copy = disk.crash(Pick::New).expect(rt, "memory");
    let passing = opening.saturating_add(calls);
    opened(rt, alloc, FuseDisk::new(copy, passing, Fuse::Once))
}

/// A disk with the entries of this one, its log in that version; this one's is in the second. The gates of the first are
/// the slots without their sums.
pub(crate) fn in_version(
    rt: &impl Abort,
    alloc: Global,
    disk: &MemDisk,
    version: &LogVersion,
) -> MemDisk {
    let slots = disk.bytes(DiskFile::Slots);
    let mut gates = Vec::new(alloc);
    for slot in slots.chunks(25) {
        gates
            .extend_from_slice(slot.get(..9).unwrap_or(slot))
            .expect(rt, "memory");
    }
    let journal = disk.bytes(DiskFile::Journal);
    let made = match version {
        LogVersion::First => MemDisk::with_bytes(alloc, journal, gates.as_slice(), b""),
        LogVersion::Second => MemDisk::with_bytes(alloc, journal, b"", slots),
    };
    made.expect(rt, "memory")
}

/// How many entries a disk has, whose log is of the second version, and that was opened since they were made.
pub(crate) fn entries(disk: &MemDisk) -> usize {
    disk.bytes(DiskFile::Slots).len() / 25
}

// Whether revision 0 has this property.
fn has(store: &RepoStore<MemDisk>, name: &[u8], text: Option<&[u8]>) -> bool {
    match store.repo().props(RevNo::ZERO) {
        Some(props) => props.get(name) == text,
        None => false,
    }
}

/// Whether a store is a mirror at rest, with this head merged.
pub(crate) fn is_merged(store: &RepoStore<MemDisk>, head: u16, merged: &[u8]) -> bool {
    store.repo().head().get() == head
        && has(store, b"svn:sync-last-merged-rev", Some(merged))
        && has(store, b"svn:sync-currently-copying", None)
        && has(store, b"svn:sync-lock", None)
        && has(store, b"svn:sync-from-url", Some(b"master"))
        && has(store, b"svn:sync-from-uuid", Some(MASTER.as_bytes()))
}

/// Whether a disk opens as a mirror at rest, with this head merged.
pub(crate) fn rests(alloc: Global, disk: MemDisk, head: u16, merged: &[u8]) -> bool {
    match RepoStore::open(alloc, disk) {
        Ok(store) => {
            let rests = is_merged(&store, head, merged);
            let _disk = store.into_disk();
            rests
        }
        Err(_) => false,
    }
}
