//! What a commit answers.

use gate_log::Receipt;
use node_base::RevNo;

/// A commit that is on the disk: its revision's number, and the receipt of its entry.
#[derive(Drop)]
pub struct Committed {
    /// The sign that the entry is on the disk.
    pub receipt: Receipt,
    /// The new revision's number.
    pub number: RevNo,
}
