//! A repository that is kept on a disk: each accepted change is an entry of a journal, in the dump text that says it.
//!
//! The first entry is the dump's head with the identity, and revision 0's record. A new revision is an entry of its
//! record and its nodes; other properties of a revision are an entry of that revision's record alone, with the whole
//! map. All of it is in the canonical spelling (the dump-load-format notes), so that the journal is itself a dump of
//! the history. An entry is acknowledged once its gate is synced (`gate_log`). A store whose log is of the first version
//! is read and changed in that, until `upgrade` makes it one of the second, which has the MD5 of each entry.
//!
//! ```text
//! let disk = create_folder(&mut StdFolders::new(&rt), alloc, "folder")?;
//! let mut store = RepoStore::create(alloc, disk, identity).map_err(|(fault, _disk)| fault)?;
//! let committed = store.commit(alloc, store.repo().head(), set, props, Moment::from_micros(now))?;
//! let store = RepoStore::open(alloc, store.into_disk()).map_err(|(fault, _disk)| fault)?;
//! let text = store.export(alloc, committed.number)?;
//! ```
//!
//! At each moment since a call began, a stop leaves an image that keeps the repository before the call or after it;
//! once the call has answered Ok, the one after it. An image reopens to one repository at most. Opening gives that one,
//! with the sets of changes that its entries tell, so that after a stop at any moment each revision is exported as it
//! was before the call or is after it; it answers 33 for the first entry that is damaged, and only there.
#![tactic(auto)]

pub use committed::Committed;
pub use fault::{StoreFault, log_refusal, store_refusal};
pub use numbers::commits_in_order;
pub use staged::Staged;
pub use store::RepoStore;
pub use verdicts::one_verdict;

mod changes;
mod committed;
mod fault;
mod numbers;
mod read;
mod replay;
mod spell;
mod staged;
mod store;
mod upgrade;
mod verdicts;
