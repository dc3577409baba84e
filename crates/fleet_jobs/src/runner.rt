//! What runs the job of an order.

use crate::order::Order;
use node_base::RevNo;
use std::sync::Wait;
use sync_core::SyncFault;

/// A master and the mirrors of up to four slots, on which jobs run.
pub trait Runner {
    ghost use Rattle.std.specs.Prelude.{◌≡◌, ℕ, Bool};
    ghost use Rattle.fleet_jobs.specs.Answers.{Answer};
    ghost use Rattle.fleet_jobs.specs.declared.order.Order.{Order as OrderOf};

    /// Whether the slot of that number has a mirror.
    ghost has_slot: { Self → ℕ → Bool };

    /// What the job of an order may answer.
    ghost may_answer: { Self → OrderOf → Answer → Type 0 };

    /// Whether the slot of that number has a mirror.
    fn has(&self, mirror: usize) -> bool
        ensures { result ≡ has_slot self.now mirror };

    /// Runs the job of the order, and answers the mirror's head after it.
    fn run<R: Wait>(&self, rt: &R, order: &Order) -> Result<RevNo, SyncFault>
        ensures { may_answer self.now order.now result };
}
