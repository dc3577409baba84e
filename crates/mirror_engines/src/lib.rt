//! The engines of the commands over a mirror, over any disk, any master and any output: they make a repository the
//! mirror of a master, bring it up to that, copy properties of its revisions again, and tell how it stands.
//!
//! ```text
//! let mut folders = StdFolders::new(&rt);
//! let Ok(source) = RepoStore::open(alloc, open_folder(&mut folders, alloc, "source")?) else { .. };
//! let Ok(mirror) = RepoStore::open(alloc, open_folder(&mut folders, alloc, "mirror")?) else { .. };
//! let (mirror, output, done) = run_initialize(alloc, mirror, LentMaster::new(&source), url, output);
//! done?;
//! let master = LentMaster::new(&source);
//! let (mirror, mut output, done) = run_synchronize(alloc, mirror, master, token, false, output);
//! done?;
//! run_info(alloc, &mirror, &mut output)?;
//! ```
//!
//! A run is one of `sync_job`, over a mirror that is held alone and a master of any kind: a store that is lent, as
//! above, or a server. What it has done is printed line by line, each handed on as soon as what it tells stands. A line
//! that can't be written stops no run: it is told at the end (49), where the run wasn't refused, and no line is written
//! behind it.
//!
//! Of a run over a master that is a repository it is said what it makes of the mirror, whatever it answers: in every world
//! in which that was a mirror of the master it is one, and so is what a stop leaves at any moment. Runs chain: `law` says
//! what has become of a mirror behind any list of them.
#![tactic(auto)]

pub use info::run_info;
pub use printer::Printer;
pub use runs::{run_copy_revprops, run_initialize, run_synchronize, run_work};
pub use work::Work;

mod info;
pub mod law;
mod lines;
mod printer;
mod runs;
mod work;
