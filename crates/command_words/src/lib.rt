//! The program's command line: what its words ask for.
//!
//! ```text
//! match plan(alloc, &words) {
//!     Ok(Planned::Run(command)) => run(command),
//!     Ok(Planned::Pull(asked)) => pull(asked),
//!     Ok(Planned::Serve(service)) => serve(&service),
//!     Ok(Planned::Fleet(asked)) => fleet(&asked),
//!     Err(Usage::Shown(text)) => show(text),
//!     Err(Usage::Wrong(line)) => tell(line, 2),
//!     Err(Usage::OutOfMemory) => tell("svnfleet: 70 out of memory", 1),
//! }
//! ```
//!
//! `plan` gives the command, the server or the fleet that the words name, with the values that they spell, or else says
//! what is wrong with them; it shows a text only where help or the version was asked for. What it gives is carried out
//! by `fleet_main`.
#![tactic(auto)]

pub use command_line::{Command, Planned, Pull, Service, Task, Usage, plan};
pub use fleet_words::Fleet;

mod builder;
mod command_line;
mod fleet_named;
mod fleet_words;
mod help;
mod root_url;
mod table;
mod terminal;
mod texts;
mod word;
