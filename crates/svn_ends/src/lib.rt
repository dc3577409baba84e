//! Ports over a shared repository, from which `svn_server` answers over `svn://`, and runs over a mirror's store and the
//! repository that a server on 127.0.0.1 has.
//!
//! A store is shared by its sessions. Each has a [`MasterSharePort`] with a seat of its own at a
//! `store_share::MasterShare`: what its session has seen it reads for good, whatever others commit or change meanwhile.
//! Trees and changes are read without the lock; the newest revision, properties and changes of these are asked under it,
//! and a change that one session makes the others see. So a port doesn't know the repository between the calls of its
//! session, and `ra_serve::serve` says nothing of its answers: what is known of them stands in the clauses of the port's
//! own methods. A mirror is shared so too, by a [`MirrorSharePort`] at a `mirror_share::MirrorShare`.
//!
//! What is to be done over a mirror is run over its store and the repository that a server has:
//!
//! ```text
//! let url = b"svn://127.0.0.1:3690/";
//! let peer = Peer { port: 3690, patience: Duration::from_secs(600) };
//! let source = Source { peer, url, deltas: false };
//! let (mirror, output, done) = run_work_from(&rt, alloc, mirror, source, work, output);
//! done?;
//! ```
//!
//! The connection lasts as long as the run. What the server answers is as a master's answers are to `sync_job`: a
//! refusal of it ends the run with MasterFailed (60).
#![tactic(auto)]

pub use mirror_port::{MirrorSharePort, over_mirror};
pub use port::{MasterSharePort, SharePort};
pub use shares::ServedShare;
pub use work::{Source, run_deltas_over, run_work_from, run_work_over};

mod fault;
mod mirror_port;
mod port;
mod refusals;
mod seen;
mod shares;
mod tree_seat;
mod work;
