//! Workers that run beside one another, and what each does with an order.

use crate::gates::{Holding, Seen, nothing_seen, shared};
use crate::orders::{Plain, numbered, order};
use fleet_jobs::{Fleet, Order, Runner, StartGate, Work};
use node_base::RevNo;
use std::alloc::Global;
use std::process::Abort;
use std::rt::HostRuntime;
use std::sync::atomic::Ordering;
use std::sync::{Arc, Wait};
use std::thread::Threads;
use std::time::Clock;
use sync_core::SyncFault;

// Whether, of two orders over two workers, the first is held until the second has ended, and both end.
fn run_beside<R: Threads + Wait + Abort + Clock + Clone + Send + Sync + Drop + 'static>(
    rt: &R,
    alloc: Global,
) -> bool {
    let seen = nothing_seen(rt, alloc);
    let gate = Holding {
        clock: rt.clone().expect(rt, "memory"),
        seen: shared(rt, &seen),
    };
    let first = order(alloc, 0, Work::Sync { steal: false }, 1).expect(rt, "memory");
    let second = order(alloc, 1, Work::Sync { steal: false }, 2).expect(rt, "memory");
    let mut fleet = Fleet::start(rt, alloc, Plain, 2, gate).expect(rt, "a fleet");
    let given = fleet.give(rt, first).is_ok() && fleet.give(rt, second).is_ok();
    let all = match fleet.finish(rt) {
        Ok(outcomes) => outcomes.len() == 2,
        Err(_) => false,
    };
    let ended = seen.ended.load(Ordering::SeqCst);
    given && all && ended == 2 && seen.waited.load(Ordering::SeqCst) == 1
}

// Counts what begins and what has ended.
#[derive(Drop)]
struct Counting {
    seen: Arc<Seen>,
}

impl StartGate for Counting {
    fn begin(&self, order: u64) {
        if self.seen.begun.load(Ordering::SeqCst) == order {
            self.seen.begun.fetch_add(1, Ordering::SeqCst);
        }
    }

    fn ended(&self, order: u64) {
        if self.seen.ended.load(Ordering::SeqCst) == order {
            self.seen.ended.fetch_add(1, Ordering::SeqCst);
        }
    }
}

// Counts the jobs that run while one more has begun than has ended.
#[derive(Drop)]
struct Counted {
    seen: Arc<Seen>,
}

impl Runner for Counted {
    ghost use Rattle.std.specs.Prelude.{true, IsErr};

    ghost has_slot = { λ r mirror. true };

    ghost may_answer = { λ r order answer. IsErr answer };

    fn has(&self, _mirror: usize) -> bool {
        true
    }

    fn run<R: Wait>(&self, _rt: &R, _order: &Order) -> Result<RevNo, SyncFault> {
        let begun = self.seen.begun.load(Ordering::SeqCst);
        if begun == self.seen.ended.load(Ordering::SeqCst).wrapping_add(1) {
            self.seen.ran.fetch_add(1, Ordering::SeqCst);
        }
        Err(SyncFault::OutOfTurn)
    }
}

// Whether one worker takes twenty orders as they were given, and runs the job of each once, between the gate's calls.
fn runs_each_once<R: Threads + Wait + Abort + Clone + Send + Drop + 'static>(
    rt: &R,
    alloc: Global,
) -> bool {
    let seen = nothing_seen(rt, alloc);
    let gate = Counting {
        seen: shared(rt, &seen),
    };
    let runner = Counted {
        seen: shared(rt, &seen),
    };
    let mut fleet = Fleet::start(rt, alloc, runner, 1, gate).expect(rt, "a fleet");
    for number in 0..20 {
        let order = numbered(alloc, number).expect(rt, "memory");
        let _given = fleet.give(rt, order);
    }
    let count = match fleet.finish(rt) {
        Ok(outcomes) => outcomes.len(),
        Err(_) => 0,
    };
    let begun = seen.begun.load(Ordering::SeqCst);
    let ended = seen.ended.load(Ordering::SeqCst);
    count == 20 && begun == 20 && ended == 20 && seen.ran.load(Ordering::SeqCst) == 20
}

#[test]
fn two_workers_run_beside_one_another(rt: HostRuntime) {
    assert!(rt; run_beside(&rt, rt.alloc()));
}

#[test]
fn each_job_runs_once_between_the_calls_of_the_gate(rt: HostRuntime) {
    assert!(rt; runs_each_once(&rt, rt.alloc()));
}
