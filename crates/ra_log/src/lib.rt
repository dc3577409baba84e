//! What a log tells of revisions, and what is told of a file's versions, by the revisions' sets, properties and trees.
//!
//! [`write_entries`] tells the entries of some revisions, one behind another: what each changed, and those of its
//! properties that are wanted. `specs/Entries` has what an entry is.
//!
//! [`write_versions`] tells the versions of a file, each as what differs from the one before it: `specs/Versions`.
#![tactic(auto)]

pub use entry::write_entries;
pub use rows::LogRows;
pub use version::write_versions;

mod change;
mod entry;
mod kind;
mod revprops;
mod rows;
mod version;
