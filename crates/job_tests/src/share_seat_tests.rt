//! Seats at one mirror: who may come, who holds its lock, what a holder's looks tell, and what is left when it lets go.

use crate::calls::{Kind, Parts};
use crate::share_run_tests::{Case, passes};
use crate::shares::{begun, called, is_at, seat};
use crate::values::{number_of, token};
use fleet_disk::MemDisk;
use mirror_share::{JobSeat, MirrorName, MirrorShare};
use node_base::{Props, RevNo};
use std::alloc::Global;
use std::process::Abort;
use std::rt::HostRuntime;
use std::sync::Wait;
use sync_core::{MirrorCall, SyncFault};

// A seat without the lock: its calls are refused (59), it can't take it (54), and it can't steal it (55).
fn is_outside<R: Wait + Abort, L: MirrorName>(
    rt: &R,
    alloc: Global,
    share: &MirrorShare<L, MemDisk>,
    seat: &mut JobSeat<L>,
) -> bool {
    let token = token(rt, alloc, b"b");
    let number = RevNo::new(1);
    let held = called(rt, alloc, share, seat, &MirrorCall::TakeLock(&token));
    let stolen = called(rt, alloc, share, seat, &MirrorCall::StealLock(&token));
    let copying = called(rt, alloc, share, seat, &MirrorCall::SetCopying(number));
    let merged = called(rt, alloc, share, seat, &MirrorCall::SetMerged(number));
    let cleared = called(rt, alloc, share, seat, &MirrorCall::ClearCopying);
    let released = called(rt, alloc, share, seat, &MirrorCall::ReleaseLock);
    (held, stolen, copying) == (54, 55, 59) && (merged, cleared, released) == (59, 59, 59)
}

// The calls of one revision, each done, with calls of another seat between them.
fn copies<R: Wait + Abort, L: MirrorName>(
    rt: &R,
    alloc: Global,
    share: &MirrorShare<L, MemDisk>,
    seat: &mut JobSeat<L>,
    other: &mut JobSeat<L>,
) -> bool {
    let parts = Parts::new(alloc, b"a").expect(rt, "memory");
    let copying = called(rt, alloc, share, seat, &parts.call(Kind::Copying));
    let beside = is_outside(rt, alloc, share, other);
    let committed = called(rt, alloc, share, seat, &parts.call(Kind::Commit));
    let between = is_outside(rt, alloc, share, other);
    let copied = called(rt, alloc, share, seat, &parts.call(Kind::Put));
    let merged = called(rt, alloc, share, seat, &parts.call(Kind::Merged));
    let cleared = called(rt, alloc, share, seat, &parts.call(Kind::Clear));
    let answer = (copying, committed, copied) == (0, 0, 0)
        && (merged, cleared) == (0, 0)
        && beside
        && between;
    drop(parts);
    answer
}

// While a seat holds the lock its looks tell what its own calls left, whichever seats call between, and what is out of
// turn isn't done (61); the lock is free behind its release.
fn carries<R: Wait + Abort, L: MirrorName>(
    rt: &R,
    alloc: Global,
    share: &MirrorShare<L, MemDisk>,
) -> bool {
    let a = token(rt, alloc, b"a");
    let b = token(rt, alloc, b"b");
    let early = MirrorCall::SetMerged(RevNo::new(1));
    let mut holder = seat(rt, alloc, share, b"a");
    let mut other = seat(rt, alloc, share, b"b");
    let numbers = (
        begun(rt, alloc, share, &mut holder),
        called(rt, alloc, share, &mut holder, &MirrorCall::TakeLock(&a)),
        called(rt, alloc, share, &mut holder, &early),
    );
    let steal = MirrorCall::StealLock(&b);
    let stolen = number_of(share.step_beside(rt, alloc, &mut holder, &mut other, &steal));
    let look = MirrorCall::Look;
    let before = is_at(share.step(rt, alloc, &mut holder, &look), 0, b"0");
    let all = copies(rt, alloc, share, &mut holder, &mut other);
    let after = is_at(share.step(rt, alloc, &mut holder, &look), 1, b"1");
    let beside = is_at(share.step(rt, alloc, &mut other, &look), 1, b"1");
    let released = called(rt, alloc, share, &mut holder, &MirrorCall::ReleaseLock);
    let taken = called(rt, alloc, share, &mut other, &MirrorCall::TakeLock(&b));
    share.leave(rt, holder);
    share.leave(rt, other);
    numbers == (0, 0, 61)
        && stolen == 55
        && (released, taken) == (0, 0)
        && before
        && all
        && after
        && beside
}

// A reader sees a revision once a holder has committed it, and reads it.
pub(crate) fn is_carried<R: Wait + Abort, L: MirrorName>(
    rt: &R,
    alloc: Global,
    share: &MirrorShare<L, MemDisk>,
) -> bool {
    let mut reader = share.enter_reader(rt, alloc).expect(rt, "a seat");
    let number = RevNo::new(1);
    let none = share.read_at(&mut reader, number).is_none();
    let carried = carries(rt, alloc, share);
    let newest = share.latest(rt, &mut reader) == number;
    let there = match share.read_at(&mut reader, number) {
        Some(rev) => rev.number == number && rev.set.changes().len() == 1,
        None => false,
    };
    none && carried && newest && there
}

// Whether the refusal is 55 and tells this token.
fn is_running<T: Drop>(answer: Result<T, SyncFault>, text: &[u8]) -> bool {
    match answer {
        Err(SyncFault::HolderRunning(token)) => token.bytes.as_slice() == text,
        _ => false,
    }
}

// While a job holds the lock its token doesn't come in again, and nobody steals. Where it has left its token comes in
// again, and the lock stays until it is stolen.
pub(crate) fn one_holds<R: Wait + Abort, L: MirrorName>(
    rt: &R,
    alloc: Global,
    share: &MirrorShare<L, MemDisk>,
) -> bool {
    let a = token(rt, alloc, b"a");
    let b = token(rt, alloc, b"b");
    let (take, steal) = (MirrorCall::TakeLock(&b), MirrorCall::StealLock(&b));
    let early = MirrorCall::SetMerged(RevNo::new(1));
    let mut holder = seat(rt, alloc, share, b"a");
    let mut other = seat(rt, alloc, share, b"b");
    let begun = begun(rt, alloc, share, &mut holder);
    let taken = called(rt, alloc, share, &mut holder, &MirrorCall::TakeLock(&a));
    let again = is_running(share.enter_job(rt, alloc, &a), b"a");
    let stolen = is_running(share.step(rt, alloc, &mut other, &steal), b"a");
    let held = called(rt, alloc, share, &mut other, &take);
    share.leave(rt, holder);
    let back = number_of(share.enter_job(rt, alloc, &a));
    let left = (
        called(rt, alloc, share, &mut other, &take),
        called(rt, alloc, share, &mut other, &steal),
        called(rt, alloc, share, &mut other, &early),
    );
    share.leave(rt, other);
    (begun, taken, held, back) == (0, 0, 54, 0) && left == (54, 0, 61) && again && stolen
}

// Properties of revisions: those that were put, and 21 above the head.
pub(crate) fn tells_props<R: Wait + Abort, L: MirrorName>(
    rt: &R,
    alloc: Global,
    share: &MirrorShare<L, MemDisk>,
) -> bool {
    let mut holder = seat(rt, alloc, share, b"a");
    let begun = begun(rt, alloc, share, &mut holder);
    let there = match share.rev_props(rt, RevNo::ZERO) {
        Ok(props) => has(&props, b"svn:log", b"hi") && has(&props, b"svn:sync-from-url", b"master"),
        Err(_) => false,
    };
    let above = match share.rev_props(rt, RevNo::new(1)) {
        Ok(_) => 0,
        Err(fault) => fault.number(),
    };
    begun == 0 && there && above == 21
}

fn has(props: &Props, name: &[u8], text: &[u8]) -> bool {
    props.get(name) == Some(text)
}

#[test]
fn a_holder_carries_a_revision(rt: HostRuntime) {
    assert!(rt; passes(&rt, rt.alloc(), Case::Carried));
}

#[test]
fn the_holder_is_running(rt: HostRuntime) {
    assert!(rt; passes(&rt, rt.alloc(), Case::Holds));
}

#[test]
fn properties_are_told(rt: HostRuntime) {
    assert!(rt; passes(&rt, rt.alloc(), Case::Props));
}
