//! Limits on items, on what is read and on what is made alike.

/// How many lists may stand in one another.
pub const NESTING: u32 = 16;
/// How many bytes a word may have.
pub const WORD_BYTES: usize = 64;
/// How many bytes a string may have.
pub const STRING_BYTES: usize = 1_048_576;
/// How many bytes a top-level item may have, from its first to its last.
pub const ITEM_BYTES: u32 = 33_554_432;
