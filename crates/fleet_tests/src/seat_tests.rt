//! Seats of one share, and what they read beside threads that commit.

ghost use Rattle.std.specs.Prelude.{◌≡◌};
ghost use Rattle.store_share.specs.Opened.{cells_of};

use crate::crowd_made::opened;
use crate::fetch_tests::fetch_beside;
use crate::stores::{copied, disk, log, log_name};
use fleet_disk::{Disk, MemDisk};
use node_base::RevNo;
use repo_core::Expected;
use repo_store::StoreFault;
use std::alloc::Global;
use std::marker::Brand;
use std::process::Abort;
use std::rt::HostRuntime;
use std::sync::Wait;
use std::thread;
use std::thread::Threads;
use std::time::Clock;
use store_share::{MasterShare, OpenedStore, ReaderSeat, RowName};

// The number of a refusal, 0 where there is none.
fn number_of<T: Drop>(answer: Result<T, StoreFault>) -> u8 {
    match answer {
        Ok(_) => 0,
        Err(fault) => fault.number(),
    }
}

// A seat.
fn seat<R: Wait + Abort, L: RowName, D: Disk>(
    rt: &R,
    alloc: Global,
    share: &MasterShare<L, D>,
) -> ReaderSeat<L> {
    share.enter_reader(rt, alloc).expect(rt, "a seat")
}

// Commits the copy over this revision.
fn commit_copy<R: Wait + Abort, L: RowName, D: Disk>(
    rt: &R,
    alloc: Global,
    share: &MasterShare<L, D>,
    base: RevNo,
) -> u8 {
    let mut seat = seat(rt, alloc, share);
    let set = copied(rt, alloc, b"b");
    let props = log(rt, alloc, b"two");
    number_of(share.commit(rt, alloc, &mut seat, base, set, props, None))
}

// The log of revision 1.
fn has_log<R: Wait, L: RowName>(rt: &R, share: &MasterShare<L, MemDisk>, text: &[u8]) -> bool {
    match share.fetch_props(rt, RevNo::new(1)) {
        Ok(props) => props.get(b"svn:log") == Some(text),
        Err(_) => false,
    }
}

// Whether what is refused, with its number, leaves the newest revision and its properties.
fn refuses<R: Wait + Abort, L: RowName>(
    rt: &R,
    alloc: Global,
    share: &MasterShare<L, MemDisk>,
) -> bool {
    let mut seat = seat(rt, alloc, share);
    let name = log_name(rt, alloc);
    let behind = commit_copy(rt, alloc, share, RevNo::ZERO);
    let found = number_of(share.change_prop(
        rt,
        alloc,
        RevNo::new(1),
        &name,
        Some(b"ho"),
        &Expected::Absent,
    ));
    let above = number_of(share.put_props(rt, alloc, RevNo::new(2), log(rt, alloc, b"hu")));
    let none = number_of(share.fetch_props(rt, RevNo::new(2)));
    (behind, found, above, none) == (25, 22, 21, 21)
        && has_log(rt, share, b"hi")
        && share.latest(rt, &mut seat) == RevNo::new(1)
        && share.read_at(&mut seat, RevNo::new(2)).is_none()
}

// Whether no revision that a reader is told as the newest is below one before, or lacks its tree, over so many looks.
fn never_falls<R: Wait + Abort, L: RowName>(
    rt: &R,
    share: &MasterShare<L, MemDisk>,
    mut seat: ReaderSeat<L>,
    looks: u32,
) -> bool {
    let mut last = RevNo::new(1);
    let mut all = true;
    for _ in 0..looks {
        let now = share.latest(rt, &mut seat);
        all = all && last <= now && share.read_at(&mut seat, now).is_some();
        last = now;
    }
    all
}

// Whether a reader beside a thread that commits never sees the newest revision fall.
fn reads_beside<R: Threads + Wait + Abort + Sync, L: RowName + Send + Sync>(
    rt: &R,
    alloc: Global,
    share: &MasterShare<L, MemDisk>,
) -> bool {
    let reader = seat(rt, alloc, share);
    let (number, all) = thread::join(
        rt,
        move || commit_copy(rt, alloc, share, RevNo::new(1)),
        move || never_falls(rt, share, reader, 200),
    );
    number == 0 && all
}

// Whether a seat that meets one that has seen more has seen as much then, and reads it.
fn sees_what_another_saw<R: Wait + Abort, L: RowName>(
    rt: &R,
    alloc: Global,
    share: &MasterShare<L, MemDisk>,
) -> bool {
    let mut one = seat(rt, alloc, share);
    let committed = commit_copy(rt, alloc, share, RevNo::new(1));
    let mut other = seat(rt, alloc, share);
    let before = one.seen() == RevNo::new(1) && other.seen() == RevNo::new(2);
    one.meet(&mut other);
    committed == 0
        && before
        && one.seen() == RevNo::new(2)
        && other.seen() == RevNo::new(2)
        && share.read_at(&mut one, RevNo::new(2)).is_some()
}

// What is asked of a share.
#[derive(Clone, Copy, Drop)]
enum Case {
    Fetch,
    Refusals,
    Beside,
    Meets,
}

fn judged<R: Threads + Wait + Abort + Clock + Sync, L: RowName + Send + Sync>(
    rt: &R,
    alloc: Global,
    share: &MasterShare<L, MemDisk>,
    case: Case,
) -> bool {
    match case {
        Case::Fetch => fetch_beside(rt, alloc, share),
        Case::Refusals => refuses(rt, alloc, share),
        Case::Beside => reads_beside(rt, alloc, share),
        Case::Meets => sees_what_another_saw(rt, alloc, share),
    }
}

// The same of an opened store.
fn judged_of<R: Threads + Wait + Abort + Clock + Sync, L: RowName + Send + Sync>(
    rt: &R,
    alloc: Global,
    opened: OpenedStore<MemDisk>,
    case: Case,
) -> bool
    requires { cells_of opened ≡ L.cells }
{
    let share = opened.named::<L>();
    let answer = judged(rt, alloc, &share, case);
    let store = share.close().into_store();
    let _disk = store.into_disk();
    answer
}

// The same of a store of revisions 0 and 1.
fn passes<R: Threads + Wait + Abort + Clock + Sync>(rt: &R, alloc: Global, case: Case) -> bool {
    let opened = opened(rt, alloc, disk(rt, alloc));
    judged_of::<R, Brand>(rt, alloc, opened, case)
}

#[test]
fn two_seats_fetch_while_a_third_thread_commits(rt: HostRuntime) {
    assert!(rt; passes(&rt, rt.alloc(), Case::Fetch));
}

#[test]
fn a_refusal_leaves_all_as_it_was(rt: HostRuntime) {
    assert!(rt; passes(&rt, rt.alloc(), Case::Refusals));
}

#[test]
fn the_newest_never_falls_beside_a_commit(rt: HostRuntime) {
    assert!(rt; passes(&rt, rt.alloc(), Case::Beside));
}

#[test]
fn seats_that_meet_have_seen_the_same(rt: HostRuntime) {
    assert!(rt; passes(&rt, rt.alloc(), Case::Meets));
}
