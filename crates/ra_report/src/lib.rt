//! A working copy's report, answered by the edit that makes what is wanted of it.
//!
//! A command that a report follows is asked first whether it is one that is answered ([`ordered`]). The report's commands
//! are then collected, and [`finish`] answers them all: it sends the edit from what was reported to what is wanted, or
//! tells why there is none.
//!
//! `specs/Orders` has what a command wants, `specs/Reports` what a report says, `specs/Switches` what is wanted where something
//! is switched, `specs/Trimmed` what is where a working copy doesn't have all, and `specs/Edits` what a report is answered.
#![tactic(auto)]

pub use answer::finish;
pub use order::{awaits_report, ordered};

mod aim;
mod answer;
mod folder;
mod follow;
mod order;
mod plan;
mod report;
mod revisions;
mod send;
mod shown;
mod switched;
mod take;
mod trim;
