//! The jobs of a fleet over shares: a master and up to four mirrors on disks, brought up by workers in threads.
//!
//! [`FleetShares`] has a master's share and a slot for each of four mirrors, and [`SharesRunner`] runs the jobs of
//! orders over it: a job enters its mirror, runs over the ports [`SharedMaster`] and `mirror_share::SeatMirror`, and
//! leaves. Who keeps an `Arc` of the shares beside the fleet has them back when it is finished:
//!
//! ```text
//! let shares = Arc::new(alloc, FleetShares::<M, L0, L1, L2, L3, D>::of(alloc, opened))?;
//! let runner = SharesRunner::new(alloc, Arc::try_clone(&shares)?);
//! let mut fleet = Fleet::start(rt, alloc, runner, workers, Unheld)?;
//! let number = fleet.give(rt, order)?;
//! let outcomes = fleet.finish(rt)?;
//! let stores = stores_of(rt, shares);
//! ```
//!
//! [`run_shared`] does this for a list of orders, and answers each by its own answer: who calls it runs the jobs for which
//! no worker is left. [`stores_of`] closes the shares.
//! [`run_fleet`] does all of it for an order a mirror, from stores to what is told of each.
#![tactic(auto)]

pub use answers::{Answered, Due, answer_all};
pub use fleet::run_fleet;
pub use lines::{answer_lines, are_done, refuse_at};
pub use master::SharedMaster;
pub use orders::sync_orders;
pub use run::{run_shared, stores_of};
pub use runner::SharesRunner;
pub use shares::FleetShares;
pub use stores::{FleetStores, OpenedFleet};
pub use unheld::Unheld;

mod answers;
mod brings;
mod closing;
mod compared;
mod fleet;
mod job;
mod lines;
mod master;
mod opening;
mod orders;
mod run;
mod runner;
mod same;
mod shares;
mod stores;
mod told;
mod unheard;
mod unheld;
