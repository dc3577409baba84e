//! A report that nobody hears.

use node_base::RevNo;
use sync_job::Report;

/// Nobody is told what a job has done: its outcome tells.
#[derive(Drop)]
pub(crate) struct Unheard;

impl Report for Unheard {
    ghost heard = { λ now first told. Unit {0} };

    fn committed(&mut self, _number: RevNo) {}

    fn copied(&mut self, _number: RevNo) {}
}
