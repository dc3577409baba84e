//! Stops, folders and fuses: disks by what is read of them.

use crate::folders::{Deed, first_undone, made_disk};
use crate::steps::{GATE, JOURNAL, SLOTS, Step, first_wrong, none_wrong};
use fleet_disk::{Disk, DiskFile, Fuse, FuseDisk, HostDisk, MemDisk, OverDisk, Pick};
use std::alloc::Global;
use std::process::Abort;

// Whether a stop with this pick leaves these bytes of a file, on a disk that was asked nothing.
fn is_left(disk: &MemDisk, file: DiskFile, pick: Pick, wanted: &[u8]) -> bool {
    match disk.crash(pick) {
        Ok(left) => left.bytes(file) == wanted && left.calls().is_empty(),
        Err(_) => false,
    }
}

// Whether a stop leaves these bytes of a file: the old ones, the new ones, or `#` where either is possible.
fn are_left(disk: &MemDisk, file: DiskFile, old: &[u8], new: &[u8], other: &[u8]) -> bool {
    is_left(disk, file, Pick::Old, old)
        && is_left(disk, file, Pick::New, new)
        && is_left(disk, file, Pick::Fill(b'#'), other)
}

// A call of a disk in memory, which is taken, or what is found there.
#[derive(Clone, Copy)]
enum Call<'a> {
    Write(DiskFile, u64, &'a [u8]),
    Cut(DiskFile, u64),
    Sync,
    // A stop leaves the old bytes of a file, the new ones, or those with `#`.
    Leaves(DiskFile, &'a [u8], &'a [u8], &'a [u8]),
    // So many calls were made.
    Calls(usize),
}

// Whether a call is taken, or what is to be there is.
fn is_taken(disk: &mut MemDisk, call: &Call<'_>) -> bool {
    match *call {
        Call::Write(file, at, bytes) => {
            at <= disk.bytes(file).len() as u64 && disk.write_at(file, at, bytes).is_ok()
        }
        Call::Cut(file, len) => {
            len <= disk.bytes(file).len() as u64 && disk.cut(file, len).is_ok()
        }
        Call::Sync => disk.sync().is_ok(),
        Call::Leaves(file, old, new, other) => are_left(disk, file, old, new, other),
        Call::Calls(count) => disk.calls().len() == count,
    }
}

// The first of these calls that isn't, on a disk with six bytes in its journal.
fn first_refused(rt: &impl Abort, alloc: Global, calls: &[Call<'_>]) -> Option<u64> {
    let mut disk = MemDisk::with_bytes(alloc, b"abcdef", b"", b"").expect(rt, "memory");
    for (number, call) in calls.iter().enumerate() {
        if !is_taken(&mut disk, call) {
            return Some(number as u64);
        }
    }
    None
}

// A stop before a sync leaves what it may: the old bytes, the new ones, or others where there was a write.
const UNSYNCED: [Call<'static>; 8] = [
    Call::Write(JOURNAL, 4, b"12345"),
    Call::Leaves(JOURNAL, b"abcdef", b"abcd12345", b"abcd#####"),
    Call::Cut(JOURNAL, 5),
    Call::Leaves(JOURNAL, b"abcdef", b"abcd1", b"abcd#####"),
    Call::Write(GATE, 0, b"x"),
    Call::Leaves(GATE, b"", b"x", b"#"),
    Call::Write(SLOTS, 0, b"yz"),
    Call::Leaves(SLOTS, b"", b"yz", b"##"),
];

// A stop after a sync leaves what a read gives, but for what was written since.
const SYNCED: [Call<'static>; 9] = [
    Call::Cut(JOURNAL, 5),
    Call::Write(JOURNAL, 4, b"1"),
    Call::Write(GATE, 0, b"x"),
    Call::Sync,
    Call::Leaves(JOURNAL, b"abcd1", b"abcd1", b"abcd1"),
    Call::Write(JOURNAL, 0, b"z"),
    Call::Leaves(JOURNAL, b"abcd1", b"zbcd1", b"#bcd1"),
    Call::Leaves(GATE, b"x", b"x", b"x"),
    Call::Calls(5),
];

#[test]
fn a_stop_between_two_syncs(rt: HostRuntime) {
    let alloc = rt.alloc();
    none_wrong(&rt, "unsynced", first_refused(&rt, alloc, &UNSYNCED));
    none_wrong(&rt, "synced", first_refused(&rt, alloc, &SYNCED));
}

// Whether the journal is empty at first, and this is written over it and cut.
fn is_written<D: Disk>(disk: &mut D) -> bool {
    disk.len(JOURNAL) == Ok(0)
        && disk.write_at(JOURNAL, 0, b"hello").is_ok()
        && disk.write_at(JOURNAL, 3, b"p!").is_ok()
        && disk.cut(JOURNAL, 4).is_ok()
        && disk.sync().is_ok()
}

// Whether a read from the second byte on gives what was written, and one at the end nothing.
fn is_read<D: Disk>(disk: &mut D) -> bool {
    let mut buf = *b"......";
    disk.read(JOURNAL, 1, &mut buf) == Ok(3)
        && disk.read(JOURNAL, 4, &mut [0u8; 6]) == Ok(0)
        && buf == *b"elp..."
}

const LENGTHS: [Step<'static>; 3] = [
    Step::Len(JOURNAL, 4),
    Step::Len(GATE, 0),
    Step::Len(SLOTS, 0),
];

/// Whether a disk with empty files can be written, asked and read.
pub(crate) fn goes_round<D: Disk>(disk: &mut D) -> bool {
    is_written(disk) && first_wrong(disk, &LENGTHS).is_none() && is_read(disk)
}

#[test]
fn a_disk_in_memory(rt: HostRuntime) {
    assert!(rt; goes_round(&mut MemDisk::new(rt.alloc())));
}

// The calls of a host that go to a disk in memory.
#[test]
fn a_disk_over_calls(rt: HostRuntime) {
    let alloc = rt.alloc();
    assert!(rt; goes_round(&mut HostDisk::new(alloc, OverDisk::new(MemDisk::new(alloc)))));
}

// A folder without files is one of empty files that can't be written; one that is made can be.
const FOLDER: [Deed<'static>; 5] = [
    Deed::Empty,
    Deed::Opened(&[Step::Len(GATE, 0), Step::Unwritten(GATE)]),
    Deed::Round,
    Deed::Opened(&[Step::Len(JOURNAL, 4)]),
    Deed::Gone,
];

#[test]
fn a_folder(rt: HostRuntime) {
    none_wrong(
        &rt,
        "a folder",
        first_undone(&rt, "fleet_disk_folder", &FOLDER),
    );
}

// Whether a folder is refused while it is open, and can be written meanwhile.
fn is_held(rt: &HostRuntime, folder: &str) -> bool {
    match made_disk(rt, rt.alloc(), folder) {
        Ok(mut disk) => {
            first_undone(rt, folder, &[Deed::Refused]).is_none()
                && disk.write_at(JOURNAL, 0, b"kept").is_ok()
        }
        Err(_) => false,
    }
}

// While a folder is open, nobody else has it.
#[test]
fn a_folder_in_use(rt: HostRuntime) {
    let folder = "fleet_disk_folder_in_use";
    none_wrong(&rt, "before", first_undone(&rt, folder, &[Deed::Empty]));
    assert!(rt; is_held(&rt, folder));
    let left = [Deed::Opened(&[Step::Len(JOURNAL, 4)]), Deed::Gone];
    none_wrong(&rt, "behind", first_undone(&rt, folder, &left));
}

// A disk in memory of which so many calls pass.
fn fused(alloc: Global, calls: u64, fuse: Fuse) -> FuseDisk<MemDisk> {
    FuseDisk::new(MemDisk::new(alloc), calls, fuse)
}

// Whether these calls come to what they say where one passes, and leave this gate.
fn leaves(alloc: Global, fuse: Fuse, steps: &[Step<'_>], gate: &[u8]) -> bool {
    let mut disk = fused(alloc, 1, fuse);
    first_wrong(&mut disk, steps).is_none() && disk.into_inner().bytes(GATE) == gate
}

// The call behind the one that fails passes.
const ONCE: [Step<'static>; 3] = [Step::Sync, Step::Unwritten(GATE), Step::Write(GATE, b"y")];

// Each later call fails.
const FOR_GOOD: [Step<'static>; 3] = [Step::Sync, Step::Unwritten(GATE), Step::Unsynced];

#[test]
fn a_fuse(rt: HostRuntime) {
    let alloc = rt.alloc();
    assert!(rt; goes_round(&mut fused(alloc, 10, Fuse::ForGood)));
    assert!(rt; leaves(alloc, Fuse::Once, &ONCE, b"y"));
    assert!(rt; leaves(alloc, Fuse::ForGood, &FOR_GOOD, b""));
}
