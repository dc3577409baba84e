//! The calls that a disk in memory remembers, and the images that its stop may leave.

use crate::DiskFile;

/// A call that was made to a disk in memory.
#[derive(Drop)]
pub enum DiskCall {
    /// A read of so many bytes, from an offset on.
    Read {
        /// The file.
        file: DiskFile,
        /// The offset of the first byte.
        at: u64,
        /// How many bytes the buffer had.
        len: usize,
    },
    /// The question how long a file is.
    Len {
        /// The file.
        file: DiskFile,
    },
    /// A write.
    Write {
        /// The file.
        file: DiskFile,
        /// The offset of the first byte.
        at: u64,
        /// The bytes.
        bytes: Vec<u8>,
    },
    /// A cut.
    Cut {
        /// The file.
        file: DiskFile,
        /// The length that it was cut to.
        len: u64,
    },
    /// A sync.
    Sync,
}

/// Which of the images that it may leave a stop leaves.
#[derive(Clone, Copy, PartialEq, Eq)]
pub enum Pick {
    /// As at the last sync.
    Old,
    /// As written.
    New,
    /// This byte in place of each byte that isn't synced, and the greatest length.
    Fill(u8),
}
