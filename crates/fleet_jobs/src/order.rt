//! Orders, and what comes of them.

use node_base::RevNo;
use sync_core::{SyncFault, Token};

/// What a job does.
#[derive(Clone, Copy)]
pub enum Work {
    /// It brings its mirror up to the master; where it steals, it takes the lock of a job that has stopped.
    Sync { steal: bool },
    /// It copies the properties of these revisions again, both ends among them.
    Copy { low: RevNo, high: RevNo },
}

/// A job on a mirror, by the number of its slot from 0 to 3, under a token.
#[derive(Drop)]
pub struct Order {
    pub mirror: usize,
    pub work: Work,
    pub token: Token,
}

/// An order that was accepted, and its number.
#[derive(Drop)]
pub struct Ticket {
    pub number: u64,
    pub order: Order,
}

/// What came of the order of that number: the mirror's head after its job, or why the job was refused.
#[derive(Drop)]
pub struct Outcome {
    pub order: u64,
    pub result: Result<RevNo, SyncFault>,
}
