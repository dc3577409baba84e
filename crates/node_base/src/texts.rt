//! The texts of refusals, of those that tell no number, token or text of their own.

/// Of 1.
pub const BAD_VERSION: &str = "unsupported dump format version";

/// Of 2.
pub const BAD_HEADER: &str = "bad header";

/// Of 3.
pub const BAD_NUMBER: &str = "bad number";

/// Of 4.
pub const BAD_LENGTH: &str = "lengths do not agree";

/// Of 5.
pub const BAD_PROPS: &str = "bad property block";

/// Of 6.
pub const BAD_SUM: &str = "checksum mismatch";

/// Of 7.
pub const TRUNCATED: &str = "unexpected end of input";

/// Of 8.
pub const TOO_LONG: &str = "limit exceeded";

/// Of 9.
pub const TEXT_DELTA: &str = "text deltas are not supported";

/// Of 10.
pub const BAD_PATH: &str = "bad path";

/// Of 11.
pub const NO_SUCH_PATH: &str = "no such path";

/// Of 12.
pub const PATH_THERE: &str = "path already exists";

/// Of 13.
pub const NOT_DIR: &str = "not a directory";

/// Of 14.
pub const NO_SOURCE: &str = "no such copy source";

/// Of 15.
pub const OUT_OF_ORDER: &str = "changes of one path do not combine";

/// Of 16.
pub const WRONG_NUMBER: &str = "revision out of sequence";

/// Of 17.
pub const KIND_MISMATCH: &str = "node kind mismatch";

/// Of 21.
pub const NO_SUCH_REVISION: &str = "no such revision";

/// Of 22.
pub const BASE_MISMATCH: &str = "the property is not as expected";

/// Of 23.
pub const FULL: &str = "no more revisions";

/// Of 24.
pub const READ_ONLY: &str = "the mirror is read-only";

/// Of 31.
pub const DEVICE_FAILED: &str = "device failed";

/// Of 32.
pub const FAILED: &str = "failed before";

/// Of 34.
pub const NO_REPOSITORY: &str = "no repository";

/// Of 35.
pub const THERE_ALREADY: &str = "repository already there";

/// Of 36.
pub const LOG_FULL: &str = "journal is full";

/// Of 41.
pub const BAD_ITEM: &str = "bad item";

/// Of 42.
pub const TOO_DEEP: &str = "nesting too deep";

/// Of 43.
pub const REPLAY_FORM: &str = "replay form not supported";

/// Of 44.
pub const BAD_WINDOW: &str = "bad window";

/// Of 45.
pub const COPY_WINDOW: &str = "window copies";

/// Of 46.
pub const BAD_TOKEN: &str = "bad token";

/// Of 47.
pub const UNKNOWN_COMMAND: &str = "unknown command";

/// Of 48.
pub const BAD_SHAPE: &str = "bad command shape";

/// Of 49.
pub const PEER_FAILED: &str = "stream failed";

/// Of 51.
pub const NOT_INITIALISED: &str = "not initialized";

/// Of 52.
pub const ALREADY_INITIALISED: &str = "already initialized";

/// Of 53.
pub const NOT_EMPTY: &str = "the mirror has revisions";

/// Of 56.
pub const WRONG_MASTER: &str = "the source is another repository";

/// Of 59.
pub const NOT_HOLDER: &str = "the sync lock is not held";

/// Of 61.
pub const OUT_OF_TURN: &str = "call out of turn";

/// Of 70.
pub const OUT_OF_MEMORY: &str = "out of memory";
