//! What is told of a mirror while its jobs run.

use node_base::RevNo;
use std::sync::atomic::{AtomicU64, Ordering};
use sync_job::Report;

// How many jobs run at a mirror.
const JOBS: u64 = 2;

/// A mirror's last commit, how many of its jobs have ended, and whether its machine may stop and has stopped.
#[derive(Drop)]
pub(crate) struct Board {
    may_stop: bool,
    told: AtomicU64,
    ended: AtomicU64,
    stopped: AtomicU64,
}

impl Board {
    /// Nothing is told yet.
    pub(crate) fn new(may_stop: bool) -> Board {
        Board {
            may_stop,
            told: AtomicU64::new(0),
            ended: AtomicU64::new(0),
            stopped: AtomicU64::new(0),
        }
    }

    /// The last commit that was told.
    pub(crate) fn told(&self) -> RevNo {
        RevNo::new((self.told.load(Ordering::SeqCst) % 65_536) as u16)
    }

    /// A job has ended.
    pub(crate) fn end(&self) {
        self.ended.fetch_add(1, Ordering::SeqCst);
    }

    /// Both jobs have ended.
    pub(crate) fn is_over(&self) -> bool {
        self.ended.load(Ordering::SeqCst) >= JOBS
    }

    /// A job met the machine's end, by that refusal (31 or 32), where it may.
    pub(crate) fn stops_by(&self, number: u8) -> bool {
        if self.may_stop && (number == 31 || number == 32) {
            self.stopped.store(1, Ordering::SeqCst);
            return true;
        }
        false
    }

    /// The machine has stopped.
    pub(crate) fn has_stopped(&self) -> bool {
        self.stopped.load(Ordering::SeqCst) == 1
    }
}

/// Who reads a mirror is told of each commit.
#[derive(Drop)]
pub(crate) struct Telling<'a> {
    pub(crate) board: &'a Board,
}

impl Report for Telling<'_> {
    ghost heard = { λ now first told. Unit {0} };

    fn committed(&mut self, number: RevNo) {
        self.board
            .told
            .store(u64::from(number.get()), Ordering::SeqCst);
    }

    fn copied(&mut self, _number: RevNo) {}
}
