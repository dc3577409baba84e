//! What each thread of a crowd does: committers at a master, jobs and readers at its mirrors. Each answers 0 where all went
//! as it is to, else the number of a refusal that wasn't to come, or that it missed something.

use crate::board::{Board, Telling};
use crate::crowd_made::{number_of, seat, token, value};
use crate::master::SeatMaster;
use crate::stores::{MASTER, added, log};
use fleet_disk::{Disk, MemDisk};
use mirror_share::{MirrorName, MirrorShare, SeatMirror};
use node_base::RevNo;
use std::alloc::Global;
use std::process::Abort;
use std::sync::Wait;
use std::thread;
use store_share::{MasterShare, ReaderSeat, RowName};
use sync_core::MirrorCall;
use sync_job::{JobPorts, MasterPort, run_sync};

/// How many directories each committer adds.
pub(crate) const EACH: u8 = 20;

/// The master's head once all three committers are done.
pub(crate) const ALL: u16 = 60;

/// What a thread answers that missed something.
pub(crate) const MISSED: u8 = 255;

// How often a committer tries to add one directory: each time another was faster.
const TRIES: u32 = 100;

// How often a job runs; it ends before by what it sees.
const RUNS: u32 = 1_000_000;

/// How often a reader looks; it ends before by what it sees.
pub(crate) const LOOKS: u32 = 1_000_000_000;

// The number of a commit's refusal; 0 where the committer reads its revision then.
fn commits<R: Wait + Abort, L: RowName>(
    rt: &R,
    alloc: Global,
    share: &MasterShare<L, MemDisk>,
    reader: &mut ReaderSeat<L>,
    path: &[u8],
) -> u8 {
    let base = share.latest(rt, reader);
    let set = added(rt, alloc, path);
    match share.commit(rt, alloc, reader, base, set, log(rt, alloc, b"hi"), None) {
        Ok(number) => match share.read_at(reader, number) {
            Some(rev) if rev.number == number => 0,
            _ => MISSED,
        },
        Err(fault) => fault.number(),
    }
}

// One directory more. It tries again where another committer was faster (25).
fn adds<R: Wait + Abort, L: RowName>(
    rt: &R,
    alloc: Global,
    share: &MasterShare<L, MemDisk>,
    reader: &mut ReaderSeat<L>,
    path: &[u8],
) -> u8 {
    for _ in 0..TRIES {
        match commits(rt, alloc, share, reader, path) {
            25 => thread::yield_now(),
            other => return other,
        }
    }
    MISSED
}

/// A committer of directories, whose names begin with this letter.
pub(crate) fn committer<R: Wait + Abort, L: RowName>(
    rt: &R,
    alloc: Global,
    share: &MasterShare<L, MemDisk>,
    letter: u8,
) -> u8 {
    let mut reader = share.enter_reader(rt, alloc).expect(rt, "a seat");
    for i in 0..EACH {
        let answer = adds(rt, alloc, share, &mut reader, &[letter, b'a' + i]);
        if answer != 0 {
            return answer;
        }
    }
    0
}

/// Makes a mirror one of the master.
pub(crate) fn begins<R: Wait + Abort, L: MirrorName, D: Disk>(
    rt: &R,
    alloc: Global,
    share: &MirrorShare<L, D>,
) -> bool {
    let call = MirrorCall::Init {
        url: &value(rt, alloc, b"master"),
        uuid: &value(rt, alloc, MASTER.as_bytes()),
        props: &log(rt, alloc, b"hi"),
    };
    let mut seat = seat(rt, alloc, share, b"i");
    let number = number_of(share.step(rt, alloc, &mut seat, &call));
    share.leave(rt, seat);
    number == 0
}

/// One run of a job from a master: the number of its refusal, 0 where it ends well.
pub(crate) fn ran_from<R: Wait + Abort, S: MasterPort + Drop, L: MirrorName, D: Disk>(
    rt: &R,
    alloc: Global,
    source: S,
    share: &MirrorShare<L, D>,
    board: &Board,
    name: &[u8],
    steal: bool,
) -> u8 {
    let seat = seat(rt, alloc, share, name);
    let Ok(mirror) = SeatMirror::new(rt, alloc, share, seat) else {
        rt.abort()
    };
    let mut ports = JobPorts::new(alloc, source, mirror, Telling { board });
    let answer = run_sync(alloc, &mut ports, token(rt, alloc, name), steal);
    let (_source, mirror, _report) = ports.into_parts();
    share.leave(rt, mirror.into_seat());
    number_of(answer)
}

/// The same from a shared master.
pub(crate) fn ran<R: Wait + Abort, M: RowName, L: MirrorName, D: Disk>(
    rt: &R,
    alloc: Global,
    master: &MasterShare<M, MemDisk>,
    share: &MirrorShare<L, D>,
    board: &Board,
    name: &[u8],
    steal: bool,
) -> u8 {
    let source = SeatMaster {
        rt,
        share: master,
        reader: master.enter_reader(rt, alloc).expect(rt, "a seat"),
    };
    ran_from(rt, alloc, source, share, board, name, steal)
}

// Runs until the mirror has all that the committers make, or its machine has stopped. A run ends well, or behind the job
// that holds the lock (54).
fn runs<R: Wait + Abort, M: RowName, L: MirrorName, D: Disk>(
    rt: &R,
    alloc: Global,
    master: &MasterShare<M, MemDisk>,
    share: &MirrorShare<L, D>,
    board: &Board,
    name: &[u8],
) -> u8 {
    let mut reader = share.enter_reader(rt, alloc).expect(rt, "a seat");
    for _ in 0..RUNS {
        let number = ran(rt, alloc, master, share, board, name, false);
        if number != 0 && number != 54 && !board.stops_by(number) {
            return number;
        }
        if board.has_stopped() || share.latest(rt, &mut reader) == RevNo::new(ALL) {
            return 0;
        }
        thread::yield_now();
    }
    MISSED
}

/// A job that runs until its mirror has all that the committers make, or its machine has stopped.
pub(crate) fn job<R: Wait + Abort, M: RowName, L: MirrorName, D: Disk>(
    rt: &R,
    alloc: Global,
    master: &MasterShare<M, MemDisk>,
    share: &MirrorShare<L, D>,
    board: &Board,
    name: &[u8],
) -> u8 {
    let answer = runs(rt, alloc, master, share, board, name);
    board.end();
    answer
}

/// The newest revision, where one that was told is read without the lock, and the newest is no less than it and than the
/// last.
pub(crate) fn sees<R: Wait, L: MirrorName, D: Disk>(
    rt: &R,
    share: &MirrorShare<L, D>,
    reader: &mut ReaderSeat<L>,
    told: RevNo,
    last: RevNo,
) -> Option<RevNo> {
    let there = match share.read_at(reader, told) {
        Some(rev) => rev.number == told,
        None => false,
    };
    let newest = share.latest(rt, reader);
    if there && told <= newest && last <= newest {
        Some(newest)
    } else {
        None
    }
}

/// A reader of a mirror, who is told of its commits, until its jobs have ended; then it has all, unless its machine has
/// stopped.
pub(crate) fn reader<R: Wait + Abort, L: MirrorName, D: Disk>(
    rt: &R,
    alloc: Global,
    share: &MirrorShare<L, D>,
    board: &Board,
) -> u8 {
    let mut reader = share.enter_reader(rt, alloc).expect(rt, "a seat");
    let mut last = RevNo::ZERO;
    for _ in 0..LOOKS {
        let is_over = board.is_over();
        match sees(rt, share, &mut reader, board.told(), last) {
            Some(newest) => last = newest,
            None => return MISSED,
        }
        if is_over && (board.has_stopped() || last == RevNo::new(ALL)) {
            return 0;
        }
        if is_over {
            return MISSED;
        }
        thread::yield_now();
    }
    MISSED
}
