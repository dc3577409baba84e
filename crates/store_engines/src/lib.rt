//! The engines of the commands over a store, over any disk, input and output: they load a dump into it,
//! dump it, commit a directory, and give its entries their sums.
//!
//! ```text
//! let disk = open_folder(&mut StdFolders::new(&rt), alloc, "folder")?;
//! let Ok(mut store) = RepoStore::open(alloc, disk) else { .. };
//! run_load(alloc, false, &mut store, &mut input, &mut output)?;
//! run_dump(alloc, &store, None, &mut output)?;
//! ```
//!
//! A load judges each revision whole before it commits it, and a refusal keeps what was committed before it. Its flag
//! says whether the dump's texts may be given as deltas. What is dumped is the canonical text of the revisions as they
//! are now.
#![tactic(auto)]

pub use dump::run_dump;
pub use load::run_load;
pub use make_dir::run_mkdir;
pub use mirror::is_mirror;
pub use range::RevRange;
pub use repo_core::repo_refusal;
pub use repo_store::{log_refusal, store_refusal};
pub use report::LoadReport;
pub use upgrade::run_upgrade;

mod commits;
mod dump;
mod lines;
mod load;
mod make_dir;
mod mirror;
mod range;
mod refusals;
mod report;
mod upgrade;
