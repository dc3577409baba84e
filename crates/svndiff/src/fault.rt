//! Why bytes are no text in windows.

ghost use Rattle.std.specs.Prelude.{◌≡◌};
ghost use Rattle.svndiff.specs.Faults.{fault_number};

use thiserror::Error;

/// Why bytes are no text in windows of new data alone.
#[derive(Clone, Copy, Debug, PartialEq, Eq, Error)]
pub enum WindowFault {
    /// A window's text or new data is longer than 102,400 bytes, or the text than 1,048,576 (8).
    #[error("limit exceeded")]
    TooLong,
    /// The reader has refused bytes before (32).
    #[error("failed before")]
    Failed,
    /// Bytes that aren't version 0 or no window: a number past ten bytes or 2^64 - 1, an instruction of another
    /// kind, without length or past its section, lengths that don't agree, or an end inside a window (44).
    #[error("bad window")]
    BadWindow,
    /// A window with a source, or an instruction that copies (45).
    #[error("window copies")]
    CopyWindow,
}

impl WindowFault {
    /// The number by which logs and answers name the refusal.
    pub fn number(&self) -> u32
        ensures { result ≡ fault_number self.now }
    {
        match self {
            WindowFault::TooLong => 8,
            WindowFault::Failed => 32,
            WindowFault::BadWindow => 44,
            WindowFault::CopyWindow => 45,
        }
    }
}
