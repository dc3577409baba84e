//! A node record as a dump gives it.

use dump_text::{DeltaText, NodeRecord};

/// A node record as a dump gives it: the record, and the delta that its text is given as, where it is.
#[derive(Drop)]
pub struct ReadNode {
    /// The record. Its own text counts where there is no delta.
    pub node: NodeRecord,
    /// The delta that its text is given as.
    pub delta: Option<DeltaText>,
}
