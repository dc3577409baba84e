//! What a mirror's call needs.

/// A need of a mirror's call that isn't met.
#[derive(Clone, Copy, PartialEq, Eq)]
pub enum Need {
    /// The mirror isn't initialized (51).
    NotInitialised,
    /// The mirror is initialized already (52).
    AlreadyInitialised,
    /// The mirror has revisions and can't be initialized (53).
    NotEmpty,
    /// The sync lock is held (54).
    LockHeld,
    /// The holder of the sync lock is running (55).
    HolderRunning,
    /// The caller doesn't hold the sync lock (59).
    NotHolder,
    /// It isn't the call's turn (61).
    OutOfTurn,
}
