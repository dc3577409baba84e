//! A mirror that is brought up to date by sessions in memory: what its runs say, how many entries they leave, and that
//! it is its master's.

use crate::served_tests::commit;
use crate::sets::{add, file, same_tree, set_of};
use crate::sync_runs::{empty, token, url};
use byte_streams::MemOutput;
use fleet_disk::{DiskFile, MemDisk};
use mirror_engines::Work;
use node_base::RevNo;
use repo_core::Repo;
use repo_store::RepoStore;
use session_road::runs::run_served;
use std::alloc::Global;
use std::process::Abort;
use std::rt::HostRuntime;
use uuid::Uuid;

// A repository whose first revision adds a file.
fn master(rt: &impl Abort, alloc: Global) -> Repo {
    let identity = Uuid::parse_str("6a1f0c3e-0000-4000-8000-000000000001").expect(
        rt,
        "an identity",
    );
    let mut repo = Repo::new(alloc, identity).expect(rt, "memory");
    let mut changes = Vec::new(alloc);
    add(rt, &mut changes, file(rt, alloc, "a", b"hello\n"));
    commit(rt, alloc, &mut repo, set_of(rt, changes));
    repo
}

// The disk of a mirror behind a run that ended well and printed these lines.
fn run(alloc: Global, disk: MemDisk, source: &Repo, work: Work, lines: &[u8]) -> Option<MemDisk> {
    let Ok(store) = RepoStore::open(alloc, disk) else {
        return None;
    };
    let output = MemOutput::new(alloc, u64::MAX);
    let (store, output, answer) = run_served(alloc, store, source, work, output);
    let is_so = answer.is_ok() && output.bytes() == lines;
    let disk = store.into_disk();
    if is_so { Some(disk) } else { None }
}

fn begin(rt: &impl Abort, alloc: Global, source: &Repo) -> Option<MemDisk> {
    let work = Work::Initialize {
        url: url(rt, alloc),
    };
    run(
        alloc,
        empty(rt, alloc),
        source,
        work,
        b"Copied properties for revision 0.\n",
    )
}

fn synchronize(
    rt: &impl Abort,
    alloc: Global,
    disk: MemDisk,
    source: &Repo,
    lines: &[u8],
) -> Option<MemDisk> {
    let work = Work::Synchronize {
        token: token(rt, alloc),
        steal: false,
    };
    run(alloc, disk, source, work, lines)
}

// A mirror that was begun and synchronised.
fn first(rt: &impl Abort, alloc: Global, source: &Repo) -> Option<MemDisk> {
    match begin(rt, alloc, source) {
        Some(disk) => synchronize(
            rt,
            alloc,
            disk,
            source,
            b"Committed revision 1.\nCopied properties for revision 1.\n",
        ),
        None => None,
    }
}

// The mirror synchronised once more, which has nothing to do; none where the first left another count of entries.
fn second(rt: &impl Abort, alloc: Global, source: &Repo) -> Option<MemDisk> {
    match first(rt, alloc, source) {
        Some(disk) if disk.bytes(DiskFile::Slots).len() == 226 => {
            synchronize(rt, alloc, disk, source, b"")
        }
        _ => None,
    }
}

fn is_alike(alloc: Global, one: &Repo, other: &Repo, number: RevNo) -> bool {
    let (Some(tree), Some(there)) = (one.tree(number), other.tree(number)) else {
        return false;
    };
    same_tree(alloc, tree, there)
}

fn has_log(repo: &Repo) -> bool {
    match repo.props(RevNo::new(1)) {
        Some(props) => props.len() == 1 && props.get(b"svn:log") == Some(b"hi".as_slice()),
        None => false,
    }
}

// Whether a disk holds a mirror of a repository of one revision.
fn holds(alloc: Global, disk: MemDisk, source: &Repo) -> bool {
    let Ok(store) = RepoStore::open(alloc, disk) else {
        return false;
    };
    let repo = store.repo();
    let holds = repo.head().get() == 1
        && is_alike(alloc, repo, source, RevNo::ZERO)
        && is_alike(alloc, repo, source, RevNo::new(1))
        && has_log(repo);
    let _disk = store.into_disk();
    holds
}

// Whether that is so, with as many entries as it takes.
fn is_brought_up(rt: &impl Abort, alloc: Global) -> bool {
    let source = master(rt, alloc);
    match second(rt, alloc, &source) {
        Some(disk) => { disk.bytes(DiskFile::Slots).len() == 276 && holds(alloc, disk, &source) }
        None => false,
    }
}

#[test]
fn a_mirror_is_brought_up_by_sessions(rt: HostRuntime) {
    assert!(rt; is_brought_up(&rt, rt.alloc()));
}
