//! A repository served to Subversion's reading clients over the ra_svn protocol.
//!
//! [`browse`] answers one session from any `RepoPort` of `ra_serve`: the opening, each command as `ra_browse` does, and
//! each report of a working copy as `ra_report` does. The session stands at the client's URL: its paths are relative to
//! it, and `reparent` moves it. No answer changes the repository. [`browse_to`] is the same over an output that counts
//! its failures.
//!
//! `specs/Standings` has what a session awaits, and what each item is told there, and `specs/Sessions` what a whole session
//! is; the clause `served` of [`browse`] is on these.
#![tactic(auto)]

pub use counted::browse_to;
pub use session::browse;

mod counted;
pub mod law;
mod phase;
mod said;
mod session;
mod take;
