//! Workers that run the jobs of mirrors: first given, first taken, each once.
//!
//! A [`Fleet`] starts its workers, each a thread, over the jobs of a [`Runner`]. An [`Order`] that is given goes
//! through a queue of 64 places to one worker, which runs its job and keeps the [`Outcome`]; at the end all outcomes
//! come back, in the order in which their orders were given:
//!
//! ```text
//! let mut fleet = Fleet::start(rt, alloc, runner, workers, gate)?;
//! let number = fleet.give(rt, order)?; // once for each order; what is refused comes back
//! let outcomes = fleet.finish(rt)?; // one for each order that was given
//! ```
//!
//! A worker makes the room of an outcome before it takes an order, so that none is taken without one. A fleet has to be
//! finished: it can't be let go, so that every thread is joined.
//!
//! Contract: each outcome names its order, and its result is one that the order's job may answer. What the workers took
//! is a beginning of what was given, in order, each once ([`law::first_given_first_taken`]); where an order was left
//! behind, [`Fleet::finish`] gives the outcomes of those before it, which are all that were taken.
#![tactic(auto)]

pub use fault::{FleetFault, Refused, Unfinished};
pub use fleet::Fleet;
pub use gate::StartGate;
pub use order::{Order, Outcome, Ticket, Work};
pub use queue::{Hand, Message, Part, Seat};
pub use runner::Runner;

mod crew;
mod fault;
mod fleet;
mod gate;
pub mod law;
mod order;
mod places;
mod queue;
mod runner;
mod worker;
