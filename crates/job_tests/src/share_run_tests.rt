//! Jobs that run over a shared mirror: beside readers, beside one another, and after a stop.

ghost use Rattle.mirror_share.specs.Names.{IsNamed};

use crate::share_seat_tests::{is_carried, one_holds, tells_props};
use crate::shares::{REVISIONS, Untold, blank, called, master, opened, seat};
use crate::values::{number_of, token, value};
use fleet_disk::{MemDisk, Pick};
use mirror_share::{
    JobSeat, MirrorName, MirrorShare, OpenedMirror, SeatMirror, law, run_copy_revprops_at,
    run_sync_at,
};
use node_base::RevNo;
use std::alloc::Global;
use std::marker::Brand;
use std::process::Abort;
use std::rt::HostRuntime;
use std::sync::Wait;
use std::thread;
use std::thread::Threads;
use store_share::ReaderSeat;
use sync_core::MirrorCall;
use sync_job::{JobPorts, LentMaster, run_init};

// What a job is to do.
#[derive(Clone, Copy)]
enum Order {
    Initialise,
    Synchronise,
    Steal,
    CopyProps,
}

// A run of a job under this token, from a master of its own: the number of the refusal, 0 where it ends well.
fn ran<R: Wait + Abort, L: MirrorName>(
    rt: &R,
    alloc: Global,
    share: &MirrorShare<L, MemDisk>,
    name: &[u8],
    order: Order,
) -> u8 {
    let source = master(rt, alloc);
    let seat = seat(rt, alloc, share, name);
    let Ok(mirror) = SeatMirror::new(rt, alloc, share, seat) else {
        rt.abort()
    };
    let mut ports = JobPorts::new(alloc, LentMaster::new(&source), mirror, Untold {});
    let token = token(rt, alloc, name);
    let answer = match order {
        Order::Initialise => run_init(alloc, &mut ports, value(rt, alloc, b"master")),
        Order::Synchronise => run_sync_at(alloc, &mut ports, token, false),
        Order::Steal => run_sync_at(alloc, &mut ports, token, true),
        Order::CopyProps => {
            run_copy_revprops_at(alloc, &mut ports, token, RevNo::ZERO, RevNo::new(REVISIONS))
        }
    };
    let (_source, mirror, _report) = ports.into_parts();
    share.leave(rt, mirror.into_seat());
    let _disk = source.into_disk();
    number_of(answer)
}

// Begins the mirror and brings it up; the numbers of the refusals.
fn brought_up<R: Wait + Abort, L: MirrorName>(
    rt: &R,
    alloc: Global,
    share: &MirrorShare<L, MemDisk>,
) -> (u8, u8) {
    let begun = ran(rt, alloc, share, b"job", Order::Initialise);
    (begun, ran(rt, alloc, share, b"job", Order::Synchronise))
}

// Whether a revision of the mirror has this log.
fn has_log<R: Wait, L: MirrorName>(
    rt: &R,
    share: &MirrorShare<L, MemDisk>,
    number: u16,
    text: &[u8],
) -> bool {
    match share.rev_props(rt, RevNo::new(number)) {
        Ok(props) => props.get(b"svn:log") == Some(text),
        Err(_) => false,
    }
}

// Whether the mirror has all of its master.
fn is_whole<R: Wait + Abort, L: MirrorName>(
    rt: &R,
    alloc: Global,
    share: &MirrorShare<L, MemDisk>,
) -> bool {
    let mut reader = share.enter_reader(rt, alloc).expect(rt, "a seat");
    let head = RevNo::new(REVISIONS);
    let tree = match share.read_at(&mut reader, head) {
        Some(rev) => rev.number == head,
        None => false,
    };
    share.latest(rt, &mut reader) == head
        && tree
        && has_log(rt, share, 1, b"hi")
        && has_log(rt, share, 2, b"ho")
}

// Whether a run more of each kind, which nobody disturbs, ends well, and the mirror has all of its master.
fn goes_on<R: Wait + Abort, L: MirrorName>(
    rt: &R,
    alloc: Global,
    share: &MirrorShare<L, MemDisk>,
) -> bool {
    let copied = ran(rt, alloc, share, b"c", Order::CopyProps);
    let again = ran(rt, alloc, share, b"c", Order::Synchronise);
    (copied, again) == (0, 0) && is_whole(rt, alloc, share)
}

// Whether no revision that a reader is told as the newest is below one before, or lacks its tree, over so many looks.
fn never_falls<R: Wait + Abort, L: MirrorName>(
    rt: &R,
    share: &MirrorShare<L, MemDisk>,
    mut seat: ReaderSeat<L>,
    looks: u32,
) -> bool {
    let mut last = RevNo::ZERO;
    let mut all = true;
    for _ in 0..looks {
        let now = share.latest(rt, &mut seat);
        let there = match share.read_at(&mut seat, now) {
            Some(rev) => rev.number == now,
            None => false,
        };
        all = all && last <= now && there;
        last = now;
    }
    all
}

// Two readers beside a job that brings the mirror up.
fn is_read_beside<R: Threads + Wait + Abort + Sync, L: MirrorName + Send + Sync>(
    rt: &R,
    alloc: Global,
    share: &MirrorShare<L, MemDisk>,
) -> bool {
    let one = share.enter_reader(rt, alloc).expect(rt, "a seat");
    let other = share.enter_reader(rt, alloc).expect(rt, "a seat");
    let (numbers, all) = thread::join(
        rt,
        move || brought_up(rt, alloc, share),
        move || never_falls(rt, share, one, 300) && never_falls(rt, share, other, 300),
    );
    numbers == (0, 0) && all && goes_on(rt, alloc, share)
}

// How often a job runs at most; it ends before by what it sees.
const RUNS: u32 = 100_000;

// What a job answers that never saw the mirror whole.
const MISSED: u8 = 255;

// Runs until the mirror has all of the master. Another's lock ends a run (54), or that it runs (55) one that steals; none
// of its calls is refused for its lock (59) or its turn (61).
fn runs<R: Wait + Abort, L: MirrorName>(
    rt: &R,
    alloc: Global,
    share: &MirrorShare<L, MemDisk>,
    name: &[u8],
    order: Order,
) -> u8 {
    let mut reader = share.enter_reader(rt, alloc).expect(rt, "a seat");
    for _ in 0..RUNS {
        let number = ran(rt, alloc, share, name, order);
        if number != 0 && number != 54 && number != 55 {
            return number;
        }
        if share.latest(rt, &mut reader) == RevNo::new(REVISIONS) {
            return 0;
        }
        thread::yield_now();
    }
    MISSED
}

// Two jobs in threads, one of which steals.
fn run_beside<R: Threads + Wait + Abort + Sync, L: MirrorName + Send + Sync>(
    rt: &R,
    alloc: Global,
    share: &MirrorShare<L, MemDisk>,
) -> bool {
    let begun = ran(rt, alloc, share, b"i", Order::Initialise);
    let answers = thread::join(
        rt,
        move || runs(rt, alloc, share, b"a", Order::Synchronise),
        move || runs(rt, alloc, share, b"b", Order::Steal),
    );
    begun == 0 && answers == (0, 0) && goes_on(rt, alloc, share)
}

// Whether a job that was stopped between its calls is followed by one that steals its lock and brings the mirror up.
fn is_followed<R: Wait + Abort, L: MirrorName>(
    rt: &R,
    alloc: Global,
    share: &MirrorShare<L, MemDisk>,
) -> bool {
    let held = ran(rt, alloc, share, b"job", Order::Synchronise);
    let stolen = ran(rt, alloc, share, b"job", Order::Steal);
    (held, stolen) == (54, 0) && is_whole(rt, alloc, share)
}

// Takes the lock and says that revision 1 is being copied, and leaves it at that.
fn leaves_off<R: Wait + Abort, L: MirrorName>(
    rt: &R,
    alloc: Global,
    share: &MirrorShare<L, MemDisk>,
) -> bool {
    let begun = ran(rt, alloc, share, b"job", Order::Initialise);
    let mut seat: JobSeat<L> = seat(rt, alloc, share, b"job");
    let token = token(rt, alloc, b"job");
    let copying = MirrorCall::SetCopying(RevNo::new(1));
    let taken = called(rt, alloc, share, &mut seat, &MirrorCall::TakeLock(&token));
    let said = called(rt, alloc, share, &mut seat, &copying);
    (begun, taken, said) == (0, 0, 0)
}

// What is tried; the first three are those of `share_seat_tests`.
#[derive(Clone, Copy)]
pub(crate) enum Case {
    Carried,
    Holds,
    Props,
    Readers,
    Jobs,
    LeavesOff,
    Followed,
}

fn judged<R: Threads + Wait + Abort + Sync, L: MirrorName + Send + Sync>(
    rt: &R,
    alloc: Global,
    opened: OpenedMirror<MemDisk>,
    case: Case,
) -> (MemDisk, bool)
    requires { IsNamed opened L.cells L.merged L.copying L.head L.holder }
{
    law::a_run_is_served();
    let share = MirrorShare::<L, MemDisk>::of(alloc, opened);
    let answer = match case {
        Case::Carried => is_carried(rt, alloc, &share),
        Case::Holds => one_holds(rt, alloc, &share),
        Case::Props => tells_props(rt, alloc, &share),
        Case::Readers => is_read_beside(rt, alloc, &share),
        Case::Jobs => run_beside(rt, alloc, &share),
        Case::LeavesOff => leaves_off(rt, alloc, &share),
        Case::Followed => is_followed(rt, alloc, &share),
    };
    let store = share.close().into_book().into_store();
    (store.into_disk(), answer)
}

fn on<R: Threads + Wait + Abort + Sync>(
    rt: &R,
    alloc: Global,
    disk: MemDisk,
    case: Case,
) -> (MemDisk, bool) {
    let opened = opened(rt, alloc, disk);
    judged::<R, Brand>(rt, alloc, opened, case)
}

pub(crate) fn passes<R: Threads + Wait + Abort + Sync>(rt: &R, alloc: Global, case: Case) -> bool {
    let (_disk, answer) = on(rt, alloc, blank(rt, alloc), case);
    answer
}

#[test]
fn readers_read_beside_a_job(rt: HostRuntime) {
    assert!(rt; passes(&rt, rt.alloc(), Case::Readers));
}

#[test]
fn jobs_run_beside_one_another(rt: HostRuntime) {
    assert!(rt; passes(&rt, rt.alloc(), Case::Jobs));
}

// Of a machine that stops in a job whatever was written but not synced is lost or there: what was answered stands.
fn goes_on_after<R: Threads + Wait + Abort + Sync>(rt: &R, alloc: Global, pick: Pick) -> bool {
    let (disk, left) = on(rt, alloc, blank(rt, alloc), Case::LeavesOff);
    let disk = disk.crash(pick).expect(rt, "memory");
    let (_disk, whole) = on(rt, alloc, disk, Case::Followed);
    left && whole
}

#[test]
fn a_stopped_job_is_followed(rt: HostRuntime) {
    assert!(rt; goes_on_after(&rt, rt.alloc(), Pick::Old));
    assert!(rt; goes_on_after(&rt, rt.alloc(), Pick::New));
}
