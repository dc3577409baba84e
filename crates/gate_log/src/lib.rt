//! A log on a disk that a stop can't tear: each entry is there whole, or not at all.
//!
//! The entries stand one behind another in the file `journal`. The file `slots` has a slot for each entry, an open gate
//! (01), the journal's length behind the entry (eight bytes, the highest first) and the entry's MD5, and a closed gate
//! behind the last. An append writes the entry, then its slot's length and sum with a closed gate behind it, syncs, opens
//! the gate by a write of one byte, and syncs again. Opening syncs, reads the gates up to the first closed one, compares
//! each entry with its sum, cuts what is behind, and syncs. That is the second version; the first has its gates and
//! lengths in the file `gate`, and no sums. Both are read and appended to, and `upgrade` makes the second of the first.
//!
//! At each moment since an append began, a stop leaves an image that stands for the old entries, or for these and
//! the new one; once the append has answered Ok, always with the new one. An opening finds exactly the entries that
//! stand, and may itself be stopped at any moment.
//!
//! ```text
//! let disk = create_folder(&mut StdFolders::new(&rt), alloc, "folder")?;
//! let mut log = GateLog::create(alloc, disk).map_err(|(fault, _disk)| fault)?;
//! let receipt = log.append(b"first")?;
//! let log = GateLog::open(alloc, log.into_disk()).map_err(|(fault, _disk)| fault)?;
//! ```
#![tactic(auto)]

mod create;
mod ends;
mod fault;
mod find;
mod log;
mod migrate;
mod put;
mod reads;
mod recover;
mod slots;
mod sums;
mod verdicts;
mod version;

pub use fault::LogFault;
pub use log::{GateLog, MOST_BYTES, Receipt};
pub use verdicts::one_verdict;
pub use version::LogVersion;
