//! Runs of synchronisation jobs over a master, a mirror and a report, by svnsync's protocol (the Subversion book's
//! chapter on svnsync): `sync_core` says what a job does next, and this does it.
//!
//! ```text
//! let master = HeldMaster::new(RepoStore::open(alloc, there).map_err(|(fault, _disk)| fault)?);
//! let mirror = AloneMirror::new(RepoStore::open(alloc, here).map_err(|(fault, _disk)| fault)?);
//! let mut ports = JobPorts::new(alloc, master, mirror, report);
//! run_sync(alloc, &mut ports, token, false)?;
//! let (master, mirror, report) = ports.into_parts();
//! ```
//!
//! Contract: `JobPorts` lists each call, question and report with its answer, in order, and of that list a run says:
//! each call was one that the job may make after what it had heard; the master was asked for no other revision than
//! the one that is its turn; each accepted call was reported right behind, and nothing else was; a run that ends well
//! has brought the mirror up to what the master told (or begun it, or put each number's properties once, in order) and
//! given the lock back; a refusal is one that a port answered, want of memory, or shown by an answer that was heard. At
//! each moment since its start a stop leaves the mirror as it was, or as a front of the accepted calls leaves it. At a
//! true master's port a run is a list of events of `sync_core`'s world, so that what it leaves is a mirror of the
//! master.
#![tactic(auto)]

pub use alone::AloneMirror;
pub use held::HeldMaster;
pub use lent::LentMaster;
pub use master::{Fetched, MasterFault, MasterPort};
pub use mirror::MirrorPort;
pub use port_call::{PortCall, SeenCall};
pub use ports::JobPorts;
pub use report::{Report, Told};
pub use run::{run_copy_revprops, run_init, run_sync};

mod alone;
mod faults;
mod held;
pub mod law;
mod lent;
mod master;
mod mirror;
mod port_call;
mod ports;
mod report;
mod run;
mod said_list;
