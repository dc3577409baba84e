//! A master that refuses a question, and one that is held.
use crate::jobs::{
    COMMITTED_1, COMMITTED_ALONE, COPIED_0, COPIED_1, COPIED_BOTH, Order, Ran, begun_for, ended,
    job_over, master, opened, rests, run, words,
};
use crate::values::{OTHER, created, none_wrong};
use fleet_disk::{Disk, MemDisk};
use node_base::{PropValue, Props, Refusal, RevNo};
use path_tree::Tree;
use repo_store::RepoStore;
use std::alloc::Global;
use std::process::Abort;
use std::rt::HostRuntime;
use sync_job::{Fetched, HeldMaster, LentMaster, MasterFault, MasterPort};

// A master that answers so many questions, and refuses all later ones.
#[derive(Drop)]
struct Refusing<'a, D: Disk + Drop> {
    master: LentMaster<'a, D>,
    left: u64,
}

impl<'a, D: Disk + Drop> Refusing<'a, D> {
    fn answers(&mut self) -> Result<(), MasterFault> {
        if self.left == 0 {
            return Err(MasterFault::Refused(Refusal::NoSuchRevision));
        }
        self.left = self.left.wrapping_sub(1);
        Ok(())
    }
}

impl<'a, D: Disk + Drop> MasterPort for Refusing<'a, D> {
    // nothing is said of what it answers
    ghost is_at = { λ a o. ⊥ };

    ghost answered = { λ _ _ _. Unit {0} };

    ghost unasked = { λ _. tt };

    fn identity(&mut self, alloc: Global) -> Result<PropValue, MasterFault> {
        self.answers()?;
        self.master.identity(alloc)
    }

    fn latest(&mut self, alloc: Global) -> Result<RevNo, MasterFault> {
        self.answers()?;
        self.master.latest(alloc)
    }

    fn fetch(
        &mut self,
        alloc: Global,
        number: RevNo,
        trees: &[Tree],
    ) -> Result<Fetched, MasterFault> {
        self.answers()?;
        self.master.fetch(alloc, number, trees)
    }

    fn fetch_props(&mut self, alloc: Global, number: RevNo) -> Result<Props, MasterFault> {
        self.answers()?;
        self.master.fetch_props(alloc, number)
    }
}

// A job at the mirror of a disk, whose master refuses behind so many answers.
fn refused_behind(
    rt: &impl Abort,
    alloc: Global,
    disk: MemDisk,
    source: &RepoStore<MemDisk>,
    order: &Order,
    left: u64,
) -> (MemDisk, Ran) {
    let store = opened(rt, alloc, disk);
    let master = Refusing {
        master: LentMaster::new(source),
        left,
    };
    let (url, token) = words(rt, alloc);
    let (store, ran) = job_over(alloc, master, store, order, url, token);
    (store.into_disk(), ran)
}

// What a job that was refused had told, where the refusal is told with 60 and the lock is given back: the next one goes
// on without stealing, tells this, and leaves the mirror with that head.
fn told_behind(
    rt: &impl Abort,
    alloc: Global,
    disk: MemDisk,
    source: &RepoStore<MemDisk>,
    order: &Order,
    left: u64,
    last: (u64, u16, &[u8]),
) -> Option<u64> {
    let (told, head, merged) = last;
    let (disk, first) = refused_behind(rt, alloc, disk, source, order, left);
    let (disk, later) = run(rt, alloc, disk, source, order);
    let well = first.number == 60 && later == ended(told, 0) && rests(alloc, disk, head, merged);
    if well { Some(first.told) } else { None }
}

// The first number of answers behind which a refused job, and the one that goes on, don't tell what is due; the job that
// is answered all tells `all`.
fn first_untold(
    rt: &impl Abort,
    alloc: Global,
    order: &Order,
    table: &[(u64, u64)],
    all: u64,
    head: u16,
    merged: &[u8],
) -> Option<u64> {
    let source = master(rt, alloc);
    let mut wrong = None;
    for (left, (before, behind)) in table.iter().enumerate() {
        let disk = begun_for(rt, alloc, &source, order);
        let last = (*behind, head, &*merged);
        let told = told_behind(rt, alloc, disk, &source, order, left as u64, last);
        if told != Some(*before) && wrong.is_none() {
            wrong = Some(left as u64);
        }
    }
    let disk = begun_for(rt, alloc, &source, order);
    let left = table.len() as u64;
    let (_disk, last) = refused_behind(rt, alloc, disk, &source, order, left);
    let _source = source.into_disk();
    if wrong.is_none() && last != ended(all, 0) {
        return Some(left);
    }
    wrong
}

// The identity, the newest revision, the revision, and its properties again: what was told by then, and what is left to
// tell.
const SYNCHRONISING: [(u64, u64); 4] = [
    (0, COMMITTED_1),
    (0, COMMITTED_1),
    (0, COMMITTED_1),
    (COMMITTED_ALONE, COPIED_1),
];

// The identity, and the properties of revision 0.
const BEGINNING: [(u64, u64); 2] = [(0, COPIED_0), (0, COPIED_0)];

// The identity, and the properties of either revision.
const COPYING: [(u64, u64); 3] = [(0, COPIED_BOTH), (0, COPIED_BOTH), (COPIED_0, COPIED_BOTH)];

#[test]
fn a_master_refuses_each_question(rt: HostRuntime) {
    let alloc = rt.alloc();
    let order = Order::Synchronize;
    let wrong = first_untold(&rt, alloc, &order, &SYNCHRONISING, COMMITTED_1, 1, b"1");
    none_wrong(&rt, "answers to a synchronisation", wrong);
    let wrong = first_untold(
        &rt,
        alloc,
        &Order::Initialize,
        &BEGINNING,
        COPIED_0,
        0,
        b"0",
    );
    none_wrong(&rt, "answers to an initialisation", wrong);
    let wrong = first_untold(
        &rt,
        alloc,
        &Order::Copy(0, 1),
        &COPYING,
        COPIED_BOTH,
        1,
        b"1",
    );
    none_wrong(&rt, "answers to a copying", wrong);
}

// A job at the mirror of a store, whose master is held and not lent; the store, and what was told.
fn run_held(
    rt: &impl Abort,
    alloc: Global,
    store: RepoStore<MemDisk>,
    order: &Order,
) -> (RepoStore<MemDisk>, Ran) {
    let (url, token) = words(rt, alloc);
    let held = HeldMaster::new(master(rt, alloc));
    job_over(alloc, held, store, order, url, token)
}

#[test]
fn a_held_master_is_asked_as_a_lent_one(rt: HostRuntime) {
    let alloc = rt.alloc();
    let store = created(&rt, alloc, OTHER);
    let (store, begun) = run_held(&rt, alloc, store, &Order::Initialize);
    let (store, done) = run_held(&rt, alloc, store, &Order::Synchronize);
    let disk = store.into_disk();
    assert!(rt; begun == ended(COPIED_0, 0) && done == ended(COMMITTED_1, 0));
    assert!(rt; rests(alloc, disk, 1, b"1"));
}
