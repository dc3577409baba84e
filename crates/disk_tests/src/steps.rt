//! Calls of a disk, each with what it comes to, so that a table of them is a test.

use fleet_disk::{Disk, DiskFile};
use std::process::Abort;

pub(crate) const JOURNAL: DiskFile = DiskFile::Journal;

pub(crate) const GATE: DiskFile = DiskFile::Gate;

pub(crate) const SLOTS: DiskFile = DiskFile::Slots;

/// A call of a disk, and what it comes to.
#[derive(Clone, Copy)]
pub(crate) enum Step<'a> {
    /// A read of four bytes from this place on gives these.
    Read(DiskFile, u64, &'a [u8]),
    /// So long is a file.
    Len(DiskFile, u64),
    /// A write over the front of a file.
    Write(DiskFile, &'a [u8]),
    /// A cut of all of it.
    Cut(DiskFile),
    /// A sync.
    Sync,
    /// A read of four bytes is refused.
    Unread(DiskFile),
    /// The question how long a file is.
    Untold(DiskFile),
    /// A write.
    Unwritten(DiskFile),
    /// A cut.
    Uncut(DiskFile),
    /// A sync.
    Unsynced,
}

/// Whether a read into a buffer gives these bytes.
pub(crate) fn reads<D: Disk>(
    disk: &mut D,
    file: DiskFile,
    at: u64,
    buf: &mut [u8],
    wanted: &[u8],
) -> bool {
    match disk.read(file, at, buf) {
        Ok(count) => &buf[..count] == wanted,
        Err(_) => false,
    }
}

// Whether a call comes to what its step says.
fn comes<D: Disk>(disk: &mut D, step: &Step<'_>) -> bool {
    match *step {
        Step::Read(file, at, wanted) => reads(disk, file, at, &mut [0u8; 4], wanted),
        Step::Len(file, count) => disk.len(file) == Ok(count),
        Step::Write(file, bytes) => disk.write_at(file, 0, bytes).is_ok(),
        Step::Cut(file) => disk.cut(file, 0).is_ok(),
        Step::Sync => disk.sync().is_ok(),
        Step::Unread(file) => disk.read(file, 0, &mut [0u8; 4]).is_err(),
        Step::Untold(file) => disk.len(file).is_err(),
        Step::Unwritten(file) => disk.write_at(file, 0, b"x").is_err(),
        Step::Uncut(file) => disk.cut(file, 0).is_err(),
        Step::Unsynced => disk.sync().is_err(),
    }
}

/// The first step that doesn't come to what it says.
pub(crate) fn first_wrong<D: Disk>(disk: &mut D, steps: &[Step<'_>]) -> Option<u64> {
    for (number, step) in steps.iter().enumerate() {
        if !comes(disk, step) {
            return Some(number as u64);
        }
    }
    None
}

/// Nothing of this was wrong: it is asserted here for all tests, and what is wrong is told.
pub(crate) fn none_wrong(rt: &impl Abort, what: &str, wrong: Option<u64>) {
    assert_eq!(rt; wrong, None, "{what}");
}
