//! Why bytes are no delta of a text.

ghost use Rattle.std.specs.Prelude.{◌≡◌};
ghost use Rattle.svndiff.specs.DeltaFaults.{delta_number};
ghost use Rattle.svndiff.specs.declared.delta_fault.DeltaFault.TheVariants.{OutOfMemory};

use std::alloc::AllocError;
use thiserror::Error;

/// Why bytes are no delta of a text, or their text isn't made.
#[derive(Clone, Copy, Debug, PartialEq, Eq, Error)]
pub enum DeltaFault {
    /// A window's text, its new data or its view of the base is longer than 102,400 bytes, or the text than
    /// 1,048,576 (8).
    #[error("limit exceeded")]
    TooLong,
    /// The reader has refused bytes before (32).
    #[error("failed before")]
    Failed,
    /// Bytes that aren't version 0 or no window: a number past ten bytes or 2^64 - 1, a view past the base's end or one
    /// that slides back, an instruction of no kind, without length, past its section, past its view, past what is made
    /// or past the new data, lengths that don't agree, or an end inside a window (44).
    #[error("bad window")]
    BadWindow,
    /// A growth was refused (70).
    #[error("out of memory")]
    OutOfMemory,
}

impl DeltaFault {
    /// The number by which logs and answers name the refusal.
    pub fn number(&self) -> u32
        ensures { result ≡ delta_number self.now }
    {
        match self {
            DeltaFault::TooLong => 8,
            DeltaFault::Failed => 32,
            DeltaFault::BadWindow => 44,
            DeltaFault::OutOfMemory => 70,
        }
    }
}

impl From<AllocError> for DeltaFault {
    ghost from_gives = { λ _ e. e ≡ OutOfMemory };

    fn from(_: AllocError) -> DeltaFault {
        DeltaFault::OutOfMemory
    }
}
