//! The disk that a log is kept on: three files, and what a stop of the machine may leave of them.
//!
//! A `Disk` has the files `journal`, `gate` and `slots`, which are read, written, cut and synced. Between two syncs
//! each written range may hold any bytes after a stop, a length lies between the least and the greatest since the
//! last sync, and other bytes stay; after a sync that answers Ok a stop leaves what a read gives. `MemDisk` is such a disk
//! in memory, which can be stopped; `FuseDisk` makes the calls of another fail; `HostDisk` is a disk over the calls of
//! a host on the files of a folder (`HostCalls`), which are those of `StdFiles` or, for tests, of another disk
//! (`OverDisk`).
//!
//! `open_folder`, `create_folder` and `complete_folder` lend the disk of a folder, by the single calls that a host has
//! to open, make and close files (`FolderCalls`), which are those of `StdFolders`.
//!
//! Each call of a disk says what it does to what a read gives, to the images that a stop may leave now, and to those
//! that a stop at some moment since a given clock might have left; a call is refused only where the device's count
//! of failures rose.
//!
//! ```text
//! let mut disk = MemDisk::new(alloc);
//! disk.write_at(DiskFile::Journal, 0, b"hello")?;
//! let stopped = disk.crash(Pick::Fill(0))?; // five bytes, each of them 0
//! ```
#![tactic(auto)]

mod above;
mod ahead;
mod call;
mod calls;
mod contents;
mod copy;
mod disk;
mod files;
mod folder;
mod folder_calls;
mod folder_fault;
mod folder_files;
mod fuse;
mod host;
mod memory;
mod over;
mod std_folders;

pub use call::{DiskCall, Pick};
pub use calls::HostCalls;
pub use disk::{Disk, DiskFault, DiskFile};
pub use files::{HeldFiles, StdFiles};
pub use folder::{complete_folder, create_folder, open_folder};
pub use folder_calls::FolderCalls;
pub use folder_fault::FolderFault;
pub use folder_files::FolderFiles;
pub use fuse::{Fuse, FuseDisk};
pub use host::HostDisk;
pub use memory::MemDisk;
pub use over::OverDisk;
pub use std_folders::StdFolders;
