//! The gate that holds a first order, and what gates and runners see.

use fleet_jobs::StartGate;
use std::alloc::Global;
use std::process::Abort;
use std::sync::Arc;
use std::sync::atomic::{AtomicU64, Ordering};
use std::thread;
use std::time::{Clock, Duration};

/// What a gate and a runner have seen.
#[derive(Drop)]
pub(crate) struct Seen {
    pub(crate) begun: AtomicU64,
    pub(crate) ended: AtomicU64,
    pub(crate) ran: AtomicU64,
    pub(crate) waited: AtomicU64,
}

/// Nothing yet.
pub(crate) fn nothing_seen(rt: &impl Abort, alloc: Global) -> Arc<Seen> {
    let seen = Seen {
        begun: AtomicU64::new(0),
        ended: AtomicU64::new(0),
        ran: AtomicU64::new(0),
        waited: AtomicU64::new(0),
    };
    Arc::new(alloc, seen).expect(rt, "memory")
}

/// Another share of it.
pub(crate) fn shared(rt: &impl Abort, seen: &Arc<Seen>) -> Arc<Seen> {
    Arc::try_clone(seen).expect(rt, "memory")
}

/// Holds order 0 until order 1 has ended, for at most 10,000 turns of a millisecond.
#[derive(Drop)]
pub(crate) struct Holding<C: Clock + Drop> {
    pub(crate) clock: C,
    pub(crate) seen: Arc<Seen>,
}

impl<C: Clock + Drop> StartGate for Holding<C> {
    fn begin(&self, order: u64) {
        if order != 0 {
            return;
        }
        for _turn in 0..10_000u32 {
            if self.seen.ended.load(Ordering::SeqCst) >= 1 {
                self.seen.waited.store(1, Ordering::SeqCst);
                return;
            }
            thread::sleep(&self.clock, Duration::from_millis(1));
        }
    }

    fn ended(&self, _order: u64) {
        self.seen.ended.fetch_add(1, Ordering::SeqCst);
    }
}
