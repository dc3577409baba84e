//! Why a fleet refuses, and what comes back then.
ghost use Rattle.std.specs.Prelude.{◌≡◌};
ghost use Rattle.node_base.specs.Refusals.{refusal_number};
ghost use Rattle.fleet_jobs.specs.Faults.{refusal_of};

use crate::order::{Order, Outcome};
use crate::queue::Seat;
use node_base::{Refusal, texts};
use thiserror::Error;

/// Why an order is refused.
#[derive(Clone, Copy, Debug, PartialEq, Eq, Drop, Error)]
pub enum FleetFault {
    /// No worker is left (32).
    #[error("{}", texts::FAILED)]
    Failed,
    /// The slot has no mirror, or there is no slot of that number (34).
    #[error("{}", texts::NO_REPOSITORY)]
    NoRepository,
    /// A growth was refused (70).
    #[error("{}", texts::OUT_OF_MEMORY)]
    OutOfMemory,
}

impl FleetFault {
    /// Its number in the table of refusals.
    pub fn number(self) -> u8
        ensures { result ≡ refusal_number (refusal_of self) }
    {
        match self {
            FleetFault::Failed => 32,
            FleetFault::NoRepository => 34,
            FleetFault::OutOfMemory => 70,
        }
    }
}

impl From<FleetFault> for Refusal {
    ghost use Rattle.std.specs.Prelude.{◌≡◌};
    ghost use Rattle.fleet_jobs.specs.Faults.{refusal_of};

    ghost from_gives = { λ f r. r ≡ refusal_of f };

    fn from(fault: FleetFault) -> Refusal {
        match fault {
            FleetFault::Failed => Refusal::Failed,
            FleetFault::NoRepository => Refusal::NoRepository,
            FleetFault::OutOfMemory => Refusal::OutOfMemory,
        }
    }
}

/// An order that wasn't accepted, handed back.
#[derive(Drop)]
pub struct Refused {
    pub fault: FleetFault,
    pub order: Order,
}

/// What there is where an accepted order has no outcome (32), since all workers have ended before it was taken.
#[derive(Drop)]
pub struct Unfinished {
    /// The outcomes of the orders before it, by their numbers.
    pub outcomes: Vec<Outcome>,
    /// The giver's seat at the queue: in contracts, what was given and what each worker took of it.
    pub seat: Seat,
}

impl Unfinished {
    /// Its number in the table of refusals.
    pub fn number(&self) -> u8
        ensures { result ≡ 32 }
    {
        32
    }
}
