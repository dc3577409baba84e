//! The shapes in which a mirror rests.

/// Where a mirror's copying stands, by the last revision that is merged (copied whole), the one that is being copied,
/// and the head.
#[derive(Clone, Copy, PartialEq, Eq)]
pub enum Resting {
    /// The head is merged, and nothing is being copied.
    Idle,
    /// The head is merged, and the revision after it, this one, is to be copied: it isn't committed yet.
    Copying(u64),
    /// The head, this revision, is being copied: it is committed, and its properties are to be copied again.
    Committed(u64),
    /// The head is merged, and still noted as being copied.
    Merged,
}
