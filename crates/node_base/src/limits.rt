//! The limits of what is read, kept and written.

/// A name of a path: 255 bytes.
pub const NAME_BYTES: usize = 255;

/// A path's text: 1,024 bytes.
pub const PATH_BYTES: usize = 1_024;

/// A path: 64 names.
pub const PATH_NAMES: usize = 64;

/// A property's name: 255 bytes.
pub const PROP_NAME_BYTES: usize = 255;

/// A property's value: 65,536 bytes.
pub const PROP_VALUE_BYTES: usize = 65_536;

/// Properties of a node or a revision, apart from those whose names begin with `svn:sync-`.
pub const PROPS: usize = 256;

/// Properties of a node or a revision whose names begin with `svn:sync-`.
pub const SYNC_PROPS: usize = 16;

/// A property block: 33,554,432 bytes.
pub const BLOCK_BYTES: u64 = 33_554_432;

/// A file's text: 1,048,576 bytes.
pub const TEXT_BYTES: u64 = 1_048_576;

/// Changes of one revision.
pub const CHANGES: usize = 4_096;

/// The greatest revision number.
pub const REVISION: u16 = 65_535;

/// A header line, without its LF: 4,096 bytes.
pub const LINE_BYTES: usize = 4_096;
