//! A fleet of two mirrors in memory.

use crate::stores::{MASTER, added, created};
use byte_streams::MemOutput;
use fleet_disk::MemDisk;
use fleet_jobs::StartGate;
use fleet_shares::{Answered, FleetStores, run_fleet};
use mirror_engines::run_initialize;
use node_base::{PropValue, Props, Refusal, RevNo};
use repo_store::RepoStore;
use std::alloc::{AllocError, Global};
use std::process::Abort;
use std::sync::Wait;
use std::thread::Threads;
use sync_job::LentMaster;

const MIRROR: &str = "6a1f0c3e-0000-4000-8000-000000000002";

// A master with so many revisions, each of which adds a directory.
fn master(rt: &impl Abort, alloc: Global, count: u8) -> RepoStore<MemDisk> {
    let mut store = created(rt, alloc, MASTER);
    for i in 0..count {
        let set = added(rt, alloc, &[b'a' + (i & 15)]);
        let head = store.repo().head();
        let _committed = store
            .commit(alloc, head, set, Props::empty(), None)
            .expect(rt, "a revision");
    }
    store
}

// A mirror of a master, which has no revision of it yet.
fn mirror(rt: &impl Abort, alloc: Global, master: &RepoStore<MemDisk>) -> RepoStore<MemDisk> {
    let bytes = Vec::from_slice(alloc, b"master").expect(rt, "memory");
    let url = PropValue::new(bytes).expect(rt, "a property's value");
    let lent = LentMaster::new(master);
    let output = MemOutput::new(alloc, 1_000_000);
    let blank = created(rt, alloc, MIRROR);
    let (store, _output, done) = run_initialize(alloc, blank, lent, url, output);
    done.expect(rt, "a mirror");
    store
}

// A master of so many revisions with mirrors in the first two slots.
fn fleet_of_two(rt: &impl Abort, alloc: Global, revisions: u8) -> FleetStores<MemDisk> {
    let stores = FleetStores::of(master(rt, alloc, revisions));
    let first = mirror(rt, alloc, &stores.master);
    let stores = stores.put(0, first);
    let second = mirror(rt, alloc, &stores.master);
    stores.put(1, second)
}

// Two places without a refusal.
fn unrefused(rt: &impl Abort, alloc: Global) -> Vec<Option<Refusal>> {
    let mut refusals = Vec::new(alloc);
    for _ in 0..2 {
        refusals.push(None).expect(rt, "memory");
    }
    refusals
}

// Whether this newest revision is told of both mirrors.
fn are_told(answers: &Result<Vec<Answered>, AllocError>, head: RevNo) -> bool {
    match answers {
        Ok(answers) => answers.len() == 2 && answers.iter().all(|answer| is_told(answer, head)),
        Err(_) => false,
    }
}

fn is_told(answer: &Answered, head: RevNo) -> bool {
    match answer {
        Ok(newest) => *newest == head,
        Err(_) => false,
    }
}

/// Whether two mirrors of a master of so many revisions are brought up by so many workers behind a gate, and told so.
pub(crate) fn brings_up_two<
    R: Threads + Wait + Abort + Clone + Send + Drop + 'static,
    G: StartGate + Send + Sync + Drop + 'static,
>(rt: &R, alloc: Global, revisions: u8, workers: usize, gate: G) -> bool {
    let stores = fleet_of_two(rt, alloc, revisions);
    let refusals = unrefused(rt, alloc);
    let (stores, told) = run_fleet(rt, alloc, stores, refusals, workers, gate);
    let head = RevNo::new(u16::from(revisions));
    let stand = stores.head_at(0) == Some(head) && stores.head_at(1) == Some(head);
    drop(stores);
    stand && are_told(&told, head)
}
