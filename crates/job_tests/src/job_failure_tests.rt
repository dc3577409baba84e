//! A device that fails once after each call of a job: the next job of the same store is refused, at mirrors whose logs are
//! of either version.
use crate::jobs::{Order, begun_for, edit, ended, fused, in_version, job, master};
use crate::rows::{entries_of, row_of};
use crate::values::none_wrong;
use fleet_disk::MemDisk;
use gate_log::LogVersion;
use repo_store::RepoStore;
use std::alloc::Global;
use std::process::Abort;
use std::rt::HostRuntime;

// How many calls of the device each entry of a job takes.
const CALLS: usize = 5;

// Whether, where the device fails once after so many calls of a job, that is told with 31 behind the lines of the entries
// that were acknowledged, and the next job of the same store is refused with 32.
fn fails_well(
    rt: &impl Abort,
    alloc: Global,
    source: &RepoStore<MemDisk>,
    begun: &MemDisk,
    order: &Order,
    calls: usize,
) -> bool {
    let Some((_, told)) = row_of(order, calls / CALLS) else {
        return false;
    };
    let store = fused(rt, alloc, begun, calls as u64);
    let (store, first) = job(rt, alloc, store, source, order);
    let again = match order {
        Order::Initialize => Order::Initialize,
        Order::Synchronize | Order::Steal | Order::Copy(_, _) => Order::Steal,
    };
    let (store, second) = job(rt, alloc, store, source, &again);
    let _disk = store.into_disk();
    first == ended(told, 31) && second == ended(0, 32)
}

// The number of calls after which that isn't so.
fn first_failure(
    rt: &impl Abort,
    alloc: Global,
    source: &RepoStore<MemDisk>,
    begun: &MemDisk,
    order: &Order,
) -> Option<u64> {
    let most = entries_of(order).saturating_mul(CALLS);
    for calls in 0..most {
        if !fails_well(rt, alloc, source, begun, order, calls) {
            return Some(calls as u64);
        }
    }
    None
}

const VERSIONS: [LogVersion; 2] = [LogVersion::Second, LogVersion::First];

// The first failure of a job that isn't told, at a mirror of either version. A copying is of properties that were edited.
fn first_untold(rt: &impl Abort, alloc: Global, order: &Order) -> Option<u64> {
    let mut source = master(rt, alloc);
    let begun = begun_for(rt, alloc, &source, order);
    edit(rt, alloc, &mut source, 1);
    let mut found = None;
    for version in &VERSIONS {
        let begun = in_version(rt, alloc, &begun, version);
        found = found.or(first_failure(rt, alloc, &source, &begun, order));
    }
    let _source = source.into_disk();
    drop(begun);
    found
}

// All jobs.
const ORDERS: [Order; 3] = [Order::Initialize, Order::Synchronize, Order::Copy(0, 1)];

#[test]
fn jobs_fail_anywhere(rt: HostRuntime) {
    for order in &ORDERS {
        none_wrong(&rt, "calls", first_untold(&rt, rt.alloc(), order));
    }
}
