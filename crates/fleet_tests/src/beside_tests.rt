//! Two mirrors' jobs that run beside one another, and without a worker.

use crate::fleets::brings_up_two;
use crate::gates::{Holding, nothing_seen, shared};
use fleet_shares::Unheld;
use std::alloc::Global;
use std::process::Abort;
use std::sync::Wait;
use std::sync::atomic::Ordering;
use std::test::Fail;
use std::thread::Threads;
use std::time::Clock;

// Whether the first mirror's job is held until the second's has ended, and both mirrors are brought up.
fn run_beside<R: Threads + Wait + Abort + Clock + Clone + Send + Sync + Drop + 'static>(
    rt: &R,
    alloc: Global,
) -> bool {
    let seen = nothing_seen(rt, alloc);
    let gate = Holding {
        clock: rt.clone().expect(rt, "memory"),
        seen: shared(rt, &seen),
    };
    let is_up = brings_up_two(rt, alloc, 2, 2, gate);
    let ended = seen.ended.load(Ordering::SeqCst);
    let waited = seen.waited.load(Ordering::SeqCst);
    is_up && ended == 2 && waited == 1
}

#[test]
fn two_mirrors_are_brought_up_beside_one_another(rt: HostRuntime) -> Result<(), Fail> {
    assert!(rt; run_beside(&rt, rt.alloc()));
    Ok(())
}

#[test]
fn without_a_worker_who_gives_the_orders_runs_them(rt: HostRuntime) -> Result<(), Fail> {
    assert!(rt; brings_up_two(&rt, rt.alloc(), 12, 0, Unheld));
    Ok(())
}
