//! Limits on what windows make.

/// How many bytes a text may have: those of a file's text.
pub const TEXT_BYTES: u64 = 1_048_576;

/// How many bytes a window makes, brings or sees of the base.
pub const WINDOW_BYTES: u64 = 102_400;
