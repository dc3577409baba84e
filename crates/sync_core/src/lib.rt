//! The core of svnsync mirrors, with no disk, no thread and no stream: a mirror's calls on plain states, a job's
//! decisions, and the law over every run.
//!
//! A mirror keeps on its revision 0 where it is copied from (`svn:sync-from-url`, `svn:sync-from-uuid`), the last
//! revision that is copied whole (`svn:sync-last-merged-rev`), the one that is being copied
//! (`svn:sync-currently-copying`) and the token of the job that copies (`svn:sync-lock`), as the Subversion book's
//! chapter on svnsync says. A [`JobState`] says what its job does next and is told the answer; a [`PlainMirror`] is a
//! mirror in memory:
//!
//! ```text
//! let mut mirror = PlainMirror::new(Repo::new(alloc, identity)?);
//! let mut job = JobState::sync(token, false);
//! loop {
//!     let answer = match decide(&job) {
//!         Action::End => break,
//!         Action::Call(call) => match mirror.step(alloc, seat, &call) {
//!             Ok(Reply::Done) => Answer::Done,
//!             Ok(Reply::Seen(standing)) => Answer::Seen(standing),
//!             Err(fault) => Answer::Refused(fault),
//!         },
//!         question => ask(&master, question)?, // who it is, its newest revision, a revision, or its properties
//!     };
//!     job = absorb(job, answer);
//! }
//! mirror.leave(seat);
//! ```
//!
//! Contract: a step of a mirror is the one that the table of its calls fixes, with the first need that isn't met or
//! else what the repository refuses, and a job follows its table of phases and makes only calls that it may make. Of
//! such steps, whatever else happens between them, [`law::every_run`] says what holds of every mirror, as long as
//! nobody else writes it and each answer is the master's as it is at that moment; that the jobs' steps are such,
//! [`law::answers_are_heard`].
#![tactic(auto)]

pub use action::Action;
pub use answer::Answer;
pub use call::MirrorCall;
pub use ending::Ending;
pub use entry::{entry_of, own_of};
pub use fault::SyncFault;
pub use holders::{holder_after, holder_left};
pub use kept_call::KeptCall;
pub use lock_token::LockToken;
pub use looking::look;
pub use mirror::PlainMirror;
pub use need::Need;
pub use needs::unmet_need;
pub use number::Number;
pub use numbers::Numbers;
pub use planning::{Planned, plan};
pub use reply::Reply;
pub use resting::Resting;
pub use seat::Seat;
pub use shape::shape_of;
pub use standing::Standing;
pub use state::{JobState, absorb, decide};
pub use token::Token;
pub use told_need::need_fault;
pub use told_number::told_of;

mod action;
mod answer;
mod call;
mod copies;
mod copy_job;
mod ending;
mod entry;
mod fault;
mod fault_text;
mod holders;
mod identity;
mod init_job;
mod kept_call;
pub mod law;
mod lock_token;
mod looking;
mod mirror;
mod need;
mod needs;
mod number;
mod number_words;
mod numbers;
mod planning;
pub mod properties;
mod reply;
mod resting;
mod seat;
mod shape;
mod standing;
mod state;
mod sync_job;
mod token;
mod told_need;
mod told_number;
