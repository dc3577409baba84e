//! Each command of the program but `serve`, from what its words ask for to its status.
//!
//! ```text
//! fill_streams(&mut HostDescriptors::new(&rt))?;
//! match plan(alloc, &words) {
//!     Ok(Planned::Run(command)) => run(alloc, &mut folders, command, &mut input, output, &mut errors),
//!     Ok(Planned::Pull(asked)) => pull(&rt, alloc, &mut folders, asked, output, &mut errors),
//!     Ok(Planned::Serve(service)) => svn_server::serve(&rt, alloc, &mut folders, &service, &teller, output, &mut errors),
//!     Ok(Planned::Fleet(asked)) => fleet(&rt, alloc, &mut folders, &asked, output, &mut errors),
//!     Err(Usage::Shown(text)) => show(text),
//!     Err(Usage::Wrong(line)) => tell(line, 2),
//!     Err(Usage::OutOfMemory) => tell("svnfleet: 70 out of memory", 1),
//! }
//! ```
//!
//! `plan` and what it gives are those of `command_words`. The status of `run` is 0 only where the command is done and
//! what it wrote is handed on, and 1 with the refusal's line; of a folder whose disk keeps the rules it says what was
//! there before, what the command made of it, and what a stop leaves. So does `pull`, of a mirror whose source is on a
//! server, and so does `fleet`, up to where the runs begin: it starts threads and waits.
#![tactic(auto)]

pub use bringing::fleet;
pub use byte_streams::{CountedReader, CountedWriter};
pub use command_words::{Command, Fleet, Planned, Pull, Service, Task, Usage, plan};
pub use execute::{refused, run};
pub use fleet_disk::FolderFault;
pub use folders::{HostFolders, opened};
pub use lending::Folders;
pub use pulling::pull;
pub use store_engines::RevRange;
pub use streams::{Descriptors, HostDescriptors, fill_streams};

mod bringing;
mod execute;
mod folders;
pub mod law;
mod lending;
mod newest;
mod pulling;
mod streams;
