//! A repository in memory: an identity, and revisions from 0 on, each a tree and a property map.
//!
//! A commit adds the revision after the head, with the tree that its changes make of the trees before; properties
//! of a revision change alone, one by one under a condition (as `svn propset --revprop` does) or all at once. Each
//! change is first staged, which judges it and takes all memory that it needs, and then installed, which can't
//! fail: what stores changes on a disk does so between the two.
//!
//! ```text
//! let mut repo = Repo::new(alloc, identity)?;
//! let head = repo.commit(alloc, repo.head(), set, props, Moment::from_micros(now))?;
//! repo.change_prop(alloc, head, &log, Some(b"better"), &Expected::Value(found))?;
//!
//! let staged = repo.stage_commit(alloc, head, next, props, None)?; // nothing has changed yet
//! repo.install(staged);
//! ```
//!
//! A call that is taken makes the repository that its entry makes of the old one, and a refusal is the first that
//! is due, or want of memory; a refused call changes nothing.
#![tactic(auto)]

pub use entry::Entry;
pub use expected::Expected;
pub use fault::{RepoFault, repo_refusal};
pub use moment::Moment;
pub use repo::Repo;
pub use staged::Staged;

mod calls;
mod entry;
mod expected;
mod fault;
pub mod laws;
mod maps;
mod moment;
mod repo;
mod stage;
mod staged;
