//! A gate that a caller may hold.

/// What a worker calls before each order's job and after it. Either may wait, by a handle of its own.
pub trait StartGate {
    /// The job of that order is about to run.
    fn begin(&self, order: u64);

    /// It has ended.
    fn ended(&self, order: u64);
}
