//! A repository served over the ra_svn protocol.
//!
//! [`serve`] answers one session from any [`RepoPort`]; [`HeldRepo`] and [`HeldStore`] are the ports over a repository
//! in memory and one on a disk. What is written goes out command by command, and a replay revision by revision: no
//! answer is composed whole. That of `get-dir`, which may be refused by its length, is measured before it is written.
//! The client's items come by [`ClientItems`], so each answer is handed on before the next one is awaited.
//!
//! `specs/Answers` has what each command is refused and told, and `specs/Sessions` what a whole session is; the clause
//! `served` of [`serve`] is on these.
#![tactic(auto)]

pub use ask::{asked, props_asked, revision, tree_asked};
pub use client::ClientItems;
pub use counted::{Unserved, judged, serve};
pub use fault::{End, PortFault, ServeFault};
pub use held_repo::HeldRepo;
pub use held_store::{HeldStore, port_fault};
pub use port::{Replay, RepoPort};
pub use session::{logs_in, write_identity, write_realm};
pub use text::{hex_of, write_wanted};

mod answer;
mod ask;
mod browse;
mod client;
mod counted;
mod directory;
mod fault;
mod held_repo;
mod held_store;
mod port;
mod replay;
mod session;
mod text;
mod told;
mod unflushed;
