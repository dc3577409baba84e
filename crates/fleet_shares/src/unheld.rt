//! A gate that holds no order.

use fleet_jobs::StartGate;

/// A gate at which no order waits.
#[derive(Drop)]
pub struct Unheld;

impl StartGate for Unheld {
    fn begin(&self, _order: u64) {}

    fn ended(&self, _order: u64) {}
}
