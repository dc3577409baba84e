//! What the single commands of Subversion's reading clients are answered over the ra_svn protocol.
//!
//! [`answer::command_answer`] answers one command from any `RepoPort` of `ra_serve`. The session that asks stands at its
//! client's URL: its paths are relative to it, and `reparent` moves it. No answer changes the repository.
//!
//! `specs/Answers` has what each command is denied and told. Why one isn't answered is told by `ra_denial`.
#![tactic(auto)]

pub mod answer;
mod dated;
mod dir;
mod file;
pub mod law;
mod location;
mod log;
mod look;
mod made;
mod pieces;
mod place;
mod stat;
mod versions;
