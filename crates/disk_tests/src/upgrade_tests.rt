//! Upgrades over disks in memory: what a stop leaves after each of their calls.

use crate::log_tests::{
    PICKS, WHOLE, WHOLE_SLOTS, crashed, found, has_entries, has_files, opened, opening_calls,
};
use crate::steps::none_wrong;
use fleet_disk::{Disk, Fuse, FuseDisk, MemDisk, Pick};
use gate_log::{GateLog, LogFault, LogVersion};
use std::alloc::Global;
use std::process::Abort;

const FIRST: LogVersion = LogVersion::First;

const SECOND: LogVersion = LogVersion::Second;

// Which version a stop leaves after so many of the ten calls, for each pick: the write of the first gate decides.
const LEFT: [[LogVersion; 4]; 11] = [
    [FIRST, FIRST, FIRST, FIRST],
    [FIRST, FIRST, FIRST, FIRST],
    [FIRST, FIRST, FIRST, FIRST],
    [FIRST, FIRST, FIRST, FIRST],
    [FIRST, FIRST, FIRST, FIRST],
    [FIRST, FIRST, FIRST, FIRST],
    [FIRST, FIRST, FIRST, FIRST],
    [FIRST, SECOND, SECOND, FIRST],
    [SECOND, SECOND, SECOND, SECOND],
    [SECOND, SECOND, SECOND, SECOND],
    [SECOND, SECOND, SECOND, SECOND],
];

// A disk with two entries in the first version, and these bytes in `slots`.
fn two_entries(rt: &impl Abort, alloc: Global, slots: &[u8]) -> MemDisk {
    MemDisk::with_bytes(alloc, b"firstsecond", WHOLE, slots).expect(rt, "memory")
}

// How many calls such a disk is asked before the ten of an upgrade.
fn calls_before(rt: &impl Abort, alloc: Global, slots: &[u8]) -> u64 {
    let mut log = found(rt, alloc, two_entries(rt, alloc, slots));
    assert!(rt; log.upgrade(alloc) == Ok(2));
    let calls = log.into_disk().calls().len() as u64;
    calls.saturating_sub(10)
}

// Whether an upgrade of two entries, from whichever version, ends in the second, and a second one finds nothing to do.
fn is_upgraded(alloc: Global, disk: MemDisk, wanted: LogVersion) -> bool {
    let Ok(mut log) = opened(alloc, disk) else {
        return false;
    };
    let due = match wanted {
        LogVersion::First => 2,
        LogVersion::Second => 0,
    };
    log.version() == wanted
        && has_entries(alloc, &mut log, 2)
        && log.upgrade(alloc) == Ok(due)
        && log.version() == SECOND
        && has_entries(alloc, &mut log, 2)
        && log.upgrade(alloc) == Ok(0)
        && has_files(&log.into_disk(), b"firstsecond", b"", WHOLE_SLOTS)
}

// The disk behind an upgrade of which so many calls passed.
fn stopped(rt: &impl Abort, alloc: Global, slots: &[u8], calls: u64) -> MemDisk {
    let fused = FuseDisk::new(two_entries(rt, alloc, slots), calls, Fuse::ForGood);
    let mut log = found(rt, alloc, fused);
    let _answer = log.upgrade(alloc);
    log.into_disk().into_inner()
}

// The first number of calls after which another version is left, where `slots` has these bytes before.
fn first_wrong(rt: &impl Abort, alloc: Global, slots: &[u8]) -> Option<u64> {
    let before = calls_before(rt, alloc, slots);
    for (calls, row) in LEFT.iter().enumerate() {
        let disk = stopped(rt, alloc, slots, before.saturating_add(calls as u64));
        for (pick, wanted) in PICKS.iter().zip(row) {
            if !is_upgraded(alloc, crashed(rt, &disk, *pick), *wanted) {
                return Some(calls as u64);
            }
        }
    }
    None
}

#[test]
fn an_upgrade_stopped_after_each_call(rt: HostRuntime) {
    none_wrong(&rt, "calls", first_wrong(&rt, rt.alloc(), b""));
}

// The same where an earlier one has left something in `slots`.
#[test]
fn an_upgrade_behind_a_stopped_one(rt: HostRuntime) {
    let left = b"\0what an earlier upgrade has left";
    none_wrong(&rt, "calls", first_wrong(&rt, rt.alloc(), left));
}

// Whether an upgrade is refused by its device, and then for that.
fn fails_for_good<D: Disk>(alloc: Global, log: &mut GateLog<D>) -> bool {
    log.upgrade(alloc) == Err(LogFault::DeviceFailed)
        && log.has_failed()
        && log.upgrade(alloc) == Err(LogFault::Failed)
        && log.reserve(1) == Err(LogFault::Failed)
}

// Whether an upgrade whose call of this number fails is refused for it, and leaves this version.
fn fails_and_leaves(rt: &impl Abort, alloc: Global, calls: u64, wanted: LogVersion) -> bool {
    let disk = two_entries(rt, alloc, b"");
    let mut log = found(rt, alloc, FuseDisk::new(disk, calls, Fuse::Once));
    let fails = fails_for_good(alloc, &mut log);
    let left = crashed(rt, &log.into_disk().into_inner(), Pick::New);
    fails && is_upgraded(alloc, left, wanted)
}

// The first call of an upgrade for which that isn't so: behind its last three but one the second version is left.
fn first_passed(rt: &impl Abort, alloc: Global) -> Option<u64> {
    let opening = opening_calls(rt, alloc, &two_entries(rt, alloc, b""));
    let last = calls_before(rt, alloc, b"").saturating_add(10);
    for calls in opening..last {
        let wanted = if calls < last.saturating_sub(3) {
            FIRST
        } else {
            SECOND
        };
        if !fails_and_leaves(rt, alloc, calls, wanted) {
            return Some(calls);
        }
    }
    None
}

#[test]
fn each_call_of_an_upgrade_fails(rt: HostRuntime) {
    none_wrong(&rt, "call", first_passed(&rt, rt.alloc()));
}

// An append behind an upgrade, and one in a repository that stays in the first version.
#[test]
fn both_go_on(rt: HostRuntime) {
    let alloc = rt.alloc();
    let mut upgraded = found(&rt, alloc, two_entries(&rt, alloc, b""));
    assert!(rt; upgraded.upgrade(alloc) == Ok(2));
    assert!(rt; upgraded.append(b"third").is_ok() && has_entries(alloc, &mut upgraded, 3));
    let mut reopened = found(&rt, alloc, upgraded.into_disk());
    assert!(rt; reopened.version() == SECOND && has_entries(alloc, &mut reopened, 3));
}
