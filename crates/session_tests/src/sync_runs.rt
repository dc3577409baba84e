//! Jobs at a mirror on a disk, whose master is told by what a server writes.

use crate::client_sessions::{Line as Stream, open};
use fleet_disk::MemDisk;
use node_base::{PropValue, RevNo};
use repo_core::Repo;
use repo_store::RepoStore;
use std::alloc::Global;
use std::process::Abort;
use std::rt::HostRuntime;
use sync_core::{SyncFault, Token};
use sync_job::{AloneMirror, JobPorts, MasterPort, Report, run_copy_revprops, run_init, run_sync};
use uuid::Uuid;

/// What an initialisation asks of its master, and what a synchronisation does.
pub(crate) const BEGINS: &[u8] = b"( rev-proplist ( 0 ) ) ";

pub(crate) const GOES_ON: &[u8] =
    b"( get-latest-rev ( ) ) ( replay-range ( 1 1 0 true ) ) ( rev-proplist ( 1 ) ) ( replay-range ( 2 2 0 true ) ) ( rev-proplist ( 2 ) ) ";

/// What a job tells while it runs: a line of the command.
#[derive(Clone, Copy, PartialEq, Eq)]
pub(crate) enum Line {
    Committed(u16),
    Copied(u16),
}

// All that it told.
#[derive(Drop)]
struct Lines {
    told: Vec<Line>,
}

impl Report for Lines {
    ghost heard = { λ now first told. Unit {0} };

    fn committed(&mut self, number: RevNo) {
        let _lost = self.told.push(Line::Committed(number.get()));
    }

    fn copied(&mut self, number: RevNo) {
        let _lost = self.told.push(Line::Copied(number.get()));
    }
}

/// A disk with a repository of another identity.
pub(crate) fn empty(rt: &impl Abort, alloc: Global) -> MemDisk {
    let identity = Uuid::parse_str("6a1f0c3e-0000-4000-8000-000000000002").expect(
        rt,
        "an identity",
    );
    match RepoStore::create(alloc, MemDisk::new(alloc), identity) {
        Ok(store) => store.into_disk(),
        Err(_) => rt.abort(),
    }
}

// The number of a refusal, 0 for none.
fn number_of(answer: Result<(), SyncFault>) -> u8 {
    match answer {
        Ok(()) => 0,
        Err(fault) => fault.number(),
    }
}

pub(crate) fn url(rt: &impl Abort, alloc: Global) -> PropValue {
    let bytes = Vec::from_slice(alloc, b"svn://127.0.0.1:3690/").expect(rt, "memory");
    PropValue::new(bytes).expect(rt, "a property's value")
}

pub(crate) fn token(rt: &impl Abort, alloc: Global) -> Token {
    let bytes = Vec::from_slice(alloc, b"job").expect(rt, "memory");
    Token::new(bytes).expect(rt, "a token")
}

/// What a job leaves: the disk of its mirror, the number of its refusal, 0 for none, and its lines.
#[derive(Drop)]
pub(crate) struct Left {
    pub(crate) disk: MemDisk,
    pub(crate) number: u8,
    pub(crate) told: Vec<Line>,
}

/// What a job does at a mirror.
#[derive(Clone, Copy)]
pub(crate) enum Job {
    /// It begins the mirror.
    Begin,
    /// It brings the mirror up to its master.
    Synchronize,
    /// It copies the properties of revisions 0 and 1 again.
    Copy,
}

// What is left where a job doesn't begin.
fn unbegun(alloc: Global, disk: MemDisk, number: u8) -> Left {
    Left {
        disk,
        number,
        told: Vec::new(alloc),
    }
}

/// Runs a job at the mirror of a disk.
pub(crate) fn run_by<M: MasterPort + Drop>(
    rt: &impl Abort,
    alloc: Global,
    disk: MemDisk,
    master: M,
    job: &Job,
) -> Left {
    let store = match RepoStore::open(alloc, disk) {
        Ok(store) => store,
        Err((fault, disk)) => return unbegun(alloc, disk, fault.number()),
    };
    let lines = Lines {
        told: Vec::new(alloc),
    };
    let mut ports = JobPorts::new(alloc, master, AloneMirror::new(store), lines);
    let answer = match job {
        Job::Begin => run_init(alloc, &mut ports, url(rt, alloc)),
        Job::Synchronize => run_sync(alloc, &mut ports, token(rt, alloc), false),
        Job::Copy => run_copy_revprops(
            alloc,
            &mut ports,
            token(rt, alloc),
            RevNo::ZERO,
            RevNo::new(1),
        ),
    };
    let (_master, mirror, lines) = ports.into_parts();
    Left {
        disk: mirror.into_disk(),
        number: number_of(answer),
        told: lines.told,
    }
}

/// The same, whose master says these bytes, which come so.
pub(crate) fn run_over(
    rt: &impl Abort,
    alloc: Global,
    disk: MemDisk,
    bytes: &[u8],
    stream: &Stream,
    job: &Job,
) -> Left {
    match open(alloc, bytes, stream) {
        Ok(master) => run_by(rt, alloc, disk, master, job),
        Err(_) => unbegun(alloc, disk, 60),
    }
}

/// What the first job of a mirror tells, and what a synchronisation does.
pub(crate) const BEGUN: [Line; 1] = [Line::Copied(0)];

pub(crate) const SYNCED: [Line; 4] = [
    Line::Committed(1),
    Line::Copied(1),
    Line::Committed(2),
    Line::Copied(2),
];

// Commits a revision of a repository at the head of a store.
fn commit(
    rt: &impl Abort,
    alloc: Global,
    store: &mut RepoStore<MemDisk>,
    source: &Repo,
    number: RevNo,
) {
    let Some(set) = source.set(number) else {
        rt.abort()
    };
    let Some(props) = source.props(number) else {
        rt.abort()
    };
    let set = set.share(alloc).expect(rt, "memory");
    let props = props.share().expect(rt, "memory");
    let head = store.repo().head();
    let _committed = store
        .commit(alloc, head, set, props, None)
        .expect(rt, "a revision");
}

/// A repository of two revisions in a store.
pub(crate) fn stored(rt: &impl Abort, alloc: Global, source: &Repo) -> RepoStore<MemDisk> {
    let mut store = match RepoStore::create(alloc, MemDisk::new(alloc), source.identity()) {
        Ok(store) => store,
        Err(_) => rt.abort(),
    };
    commit(rt, alloc, &mut store, source, RevNo::new(1));
    commit(rt, alloc, &mut store, source, RevNo::new(2));
    store
}
