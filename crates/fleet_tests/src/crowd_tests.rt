//! Three committers at a master, two jobs at each of two mirrors of it and four readers, all at once; and the same with a
//! machine that stops amid them.

ghost use Rattle.std.specs.Prelude.{◌≡◌};
ghost use Rattle.mirror_share.specs.Names.{IsNamed};
ghost use Rattle.store_share.specs.Opened.{cells_of};

use crate::board::Board;
use crate::crowd::{ALL, begins, committer, job, ran, ran_from, reader};
use crate::crowd_made::{MIRROR, blank_disk, mirror_on, opened};
use crate::fronts::front_of;
use crate::stores::MASTER;
use fleet_disk::{Disk, Fuse, FuseDisk, MemDisk, Pick};
use mirror_share::{MirrorName, MirrorShare, OpenedMirror};
use node_base::RevNo;
use repo_store::RepoStore;
use std::alloc::Global;
use std::marker::Brand;
use std::process::Abort;
use std::rt::HostRuntime;
use std::sync::Wait;
use std::thread;
use std::thread::Threads;
use store_share::{MasterShare, OpenedStore, RowName};
use sync_job::LentMaster;

// A disk that stops after a number of calls.
type Stopping = FuseDisk<MemDisk>;

// A master and two mirrors of it, and what is told of each mirror.
#[derive(Drop)]
struct Crowd<'a, M: RowName, A: MirrorName, B: MirrorName, D: Disk> {
    master: &'a MasterShare<M, MemDisk>,
    one: &'a MirrorShare<A, D>,
    other: &'a MirrorShare<B, D>,
    board: &'a Board,
    other_board: &'a Board,
}

// What the thread of that place does.
fn does<R: Wait + Abort, M: RowName, A: MirrorName, B: MirrorName, D: Disk>(
    rt: &R,
    alloc: Global,
    crowd: &Crowd<'_, M, A, B, D>,
    place: usize,
) -> u8 {
    match place {
        0 => committer(rt, alloc, crowd.master, b'a'),
        1 => committer(rt, alloc, crowd.master, b'b'),
        2 => committer(rt, alloc, crowd.master, b'c'),
        3 => job(rt, alloc, crowd.master, crowd.one, crowd.board, b"a"),
        4 => job(rt, alloc, crowd.master, crowd.one, crowd.board, b"b"),
        5 => job(
            rt,
            alloc,
            crowd.master,
            crowd.other,
            crowd.other_board,
            b"a",
        ),
        6 => job(
            rt,
            alloc,
            crowd.master,
            crowd.other,
            crowd.other_board,
            b"b",
        ),
        7 => reader(rt, alloc, crowd.one, crowd.board),
        8 => reader(rt, alloc, crowd.one, crowd.board),
        _ => reader(rt, alloc, crowd.other, crowd.other_board),
    }
}

// The first answer of a thread that isn't as it is to be, 0 where all are.
fn goes<
    R: Threads + Wait + Abort + Sync,
    M: RowName + Send + Sync,
    A: MirrorName + Send + Sync,
    B: MirrorName + Send + Sync,
    D: Disk + Send,
>(rt: &R, alloc: Global, crowd: &Crowd<'_, M, A, B, D>) -> u8 {
    let answers = thread::map_indices(rt, alloc, 11, &|i| does(rt, alloc, crowd, i)).expect(
        rt, "threads",
    );
    for answer in answers.iter() {
        if *answer != 0 {
            return *answer;
        }
    }
    0
}

// Whether each of the threads did as it is to, and, where the machine doesn't stop, one more run at each mirror too.
fn is_well<
    R: Threads + Wait + Abort + Sync,
    M: RowName + Send + Sync,
    A: MirrorName + Send + Sync,
    B: MirrorName + Send + Sync,
    D: Disk + Send,
>(rt: &R, alloc: Global, crowd: &Crowd<'_, M, A, B, D>, stops: bool) -> bool {
    if !begins(rt, alloc, crowd.one) || !begins(rt, alloc, crowd.other) {
        return false;
    }
    if goes(rt, alloc, crowd) != 0 {
        return false;
    }
    if stops {
        return crowd.board.has_stopped() && crowd.other_board.has_stopped();
    }
    let one = ran(rt, alloc, crowd.master, crowd.one, crowd.board, b"z", true);
    let other = ran(
        rt,
        alloc,
        crowd.master,
        crowd.other,
        crowd.other_board,
        b"z",
        true,
    );
    one == 0 && other == 0
}

// The last commit that was told of each mirror; None where it didn't go well.
fn told_by<
    R: Threads + Wait + Abort + Sync,
    M: RowName + Send + Sync,
    A: MirrorName + Send + Sync,
    B: MirrorName + Send + Sync,
    D: Disk + Send,
>(
    rt: &R,
    alloc: Global,
    master: &MasterShare<M, MemDisk>,
    one: &MirrorShare<A, D>,
    other: &MirrorShare<B, D>,
    stops: bool,
) -> Option<(RevNo, RevNo)> {
    let board = Board::new(stops);
    let other_board = Board::new(stops);
    let crowd = Crowd {
        master,
        one,
        other,
        board: &board,
        other_board: &other_board,
    };
    if is_well(rt, alloc, &crowd, stops) {
        Some((board.told(), other_board.told()))
    } else {
        None
    }
}

// What a crowd leaves: the stores, and the last commit that was told of each mirror; None where it didn't go well.
struct Left<D: Disk> {
    master: RepoStore<MemDisk>,
    one: RepoStore<D>,
    other: RepoStore<D>,
    told: Option<(RevNo, RevNo)>,
}

fn together<
    R: Threads + Wait + Abort + Sync,
    M: RowName + Send + Sync,
    A: MirrorName + Send + Sync,
    B: MirrorName + Send + Sync,
    D: Disk + Send,
>(
    rt: &R,
    alloc: Global,
    master: OpenedStore<MemDisk>,
    one: OpenedMirror<D>,
    other: OpenedMirror<D>,
    stops: bool,
) -> Left<D>
    requires master { cells_of master ≡ M.cells }
    requires one { IsNamed one A.cells A.merged A.copying A.head A.holder }
    requires other { IsNamed other B.cells B.merged B.copying B.head B.holder }
{
    let master = master.named::<M>();
    let one = MirrorShare::<A, D>::of(alloc, one);
    let other = MirrorShare::<B, D>::of(alloc, other);
    let told = told_by(rt, alloc, &master, &one, &other, stops);
    Left {
        master: master.close().into_store(),
        one: one.close().into_book().into_store(),
        other: other.close().into_book().into_store(),
        told,
    }
}

// A crowd at mirrors on two disks.
fn gathered<R: Threads + Wait + Abort + Sync, D: Disk + Drop + Send>(
    rt: &R,
    alloc: Global,
    disks: (D, D),
    stops: bool,
) -> Left<D> {
    let master = opened(rt, alloc, blank_disk(rt, alloc, MASTER));
    let one = mirror_on(rt, alloc, disks.0);
    let other = mirror_on(rt, alloc, disks.1);
    together::<R, Brand, Brand, Brand, D>(rt, alloc, master, one, other, stops)
}

// All goes well, and the mirrors have all of the master.
fn is_brought_up<R: Threads + Wait + Abort + Sync>(rt: &R, alloc: Global) -> bool {
    let disks = (blank_disk(rt, alloc, MIRROR), blank_disk(rt, alloc, MIRROR));
    let Left {
        master,
        one,
        other,
        told,
    } = gathered(rt, alloc, disks, false);
    let all = Some(RevNo::new(ALL));
    let whole = front_of(alloc, &one, &master) == all && front_of(alloc, &other, &master) == all;
    let head = master.repo().head() == RevNo::new(ALL);
    let _disk = master.into_disk();
    let _disk = one.into_disk();
    let _disk = other.into_disk();
    told == Some((RevNo::new(ALL), RevNo::new(ALL))) && whole && head
}

#[test]
fn a_crowd_brings_two_mirrors_up(rt: HostRuntime) {
    assert!(rt; is_brought_up(&rt, rt.alloc()));
}

// A run with steal at a mirror that was opened again; its store, and whether the run ended well.
fn brought_up<R: Wait + Abort, L: MirrorName>(
    rt: &R,
    alloc: Global,
    opened: OpenedMirror<MemDisk>,
    master: &RepoStore<MemDisk>,
) -> (RepoStore<MemDisk>, bool)
    requires { IsNamed opened L.cells L.merged L.copying L.head L.holder }
{
    let share = MirrorShare::<L, MemDisk>::of(alloc, opened);
    let board = Board::new(false);
    let number = ran_from(
        rt,
        alloc,
        LentMaster::new(master),
        &share,
        &board,
        b"s",
        true,
    );
    (share.close().into_book().into_store(), number == 0)
}

// Whether what a stop left opens as a front of the master with all that was told, and has all of the master after one
// more run, which steals the lock.
fn comes_back<R: Wait + Abort>(
    rt: &R,
    alloc: Global,
    disk: &MemDisk,
    pick: Pick,
    told: RevNo,
    master: &RepoStore<MemDisk>,
) -> bool {
    let opened = mirror_on(rt, alloc, disk.crash(pick).expect(rt, "memory"));
    let stands = match front_of(alloc, opened.store(), master) {
        Some(head) => told <= head,
        None => false,
    };
    let (store, well) = brought_up::<R, Brand>(rt, alloc, opened, master);
    let whole = front_of(alloc, &store, master) == Some(RevNo::new(ALL));
    let _disk = store.into_disk();
    stands && well && whole
}

// Whether a disk comes back whatever was lost of what wasn't synced.
fn always_comes_back<R: Wait + Abort>(
    rt: &R,
    alloc: Global,
    disk: &MemDisk,
    told: RevNo,
    master: &RepoStore<MemDisk>,
) -> bool {
    comes_back(rt, alloc, disk, Pick::Old, told, master)
        && comes_back(rt, alloc, disk, Pick::New, told, master)
        && comes_back(rt, alloc, disk, Pick::Fill(0x41), told, master)
}

fn stopping(rt: &impl Abort, alloc: Global, calls: u64) -> Stopping {
    FuseDisk::new(blank_disk(rt, alloc, MIRROR), calls, Fuse::ForGood)
}

// The machine of the mirrors stops after so many calls of each disk, and each comes back.
fn outlives_a_stop<R: Threads + Wait + Abort + Sync>(
    rt: &R,
    alloc: Global,
    calls: (u64, u64),
) -> bool {
    let disks = (stopping(rt, alloc, calls.0), stopping(rt, alloc, calls.1));
    let Left {
        master,
        one,
        other,
        told,
    } = gathered(rt, alloc, disks, true);
    let one = one.into_disk().into_inner();
    let other = other.into_disk().into_inner();
    let back = match told {
        Some((first, second)) => {
            always_comes_back(rt, alloc, &one, first, &master)
                && always_comes_back(rt, alloc, &other, second, &master)
        }
        None => false,
    };
    let _disk = master.into_disk();
    back
}

#[test]
fn mirrors_outlive_a_stop(rt: HostRuntime) {
    assert!(rt; outlives_a_stop(&rt, rt.alloc(), (200, 701)));
}

#[test]
fn mirrors_outlive_another_stop(rt: HostRuntime) {
    assert!(rt; outlives_a_stop(&rt, rt.alloc(), (503, 304)));
}
