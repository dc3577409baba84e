//! Why a dump isn't taken.

ghost use Rattle.std.specs.Prelude.{◌≡◌};
ghost use Rattle.dump_text.specs.Faults.{dump_refusal, number_of_fault};
ghost use Rattle.dump_text.specs.declared.fault.DumpFault.TheVariants.{OutOfMemory};

use node_base::{Refusal, texts};
use std::alloc::{AllocError, AllocFailed};
use thiserror::Error;

/// Why bytes are no dump of format 2 or 3, each with the number by which the program names it.
#[derive(Clone, Copy, Debug, PartialEq, Eq, Error)]
pub enum DumpFault {
    /// The first line isn't a version line of these formats (1).
    #[error("{}", texts::BAD_VERSION)]
    BadVersion,
    /// A header line or a block of headers that no record has (2).
    #[error("{}", texts::BAD_HEADER)]
    BadHeader,
    /// A value that is no number, or a revision above 65,535 (3).
    #[error("{}", texts::BAD_NUMBER)]
    BadNumber,
    /// `Content-length` isn't the sum of the two other lengths (4).
    #[error("{}", texts::BAD_LENGTH)]
    BadLength,
    /// A property block that isn't one, or doesn't end where its length says (5).
    #[error("{}", texts::BAD_PROPS)]
    BadProps,
    /// A whole text that doesn't have its MD5 (6).
    #[error("{}", texts::BAD_SUM)]
    BadSum,
    /// The input ends inside a record, or before the version block is whole (7).
    #[error("{}", texts::TRUNCATED)]
    Truncated,
    /// A line, a length, a count or a path past its limit (8).
    #[error("{}", texts::TOO_LONG)]
    TooLong,
    /// A text is given as a delta, and the reader takes none (9).
    #[error("{}", texts::TEXT_DELTA)]
    TextDelta,
    /// A path outside the rule for names (10).
    #[error("{}", texts::BAD_PATH)]
    BadPath,
    /// The reader has refused bytes before (32).
    #[error("{}", texts::FAILED)]
    Failed,
    /// A growth was refused (70).
    #[error("{}", texts::OUT_OF_MEMORY)]
    OutOfMemory,
}

impl DumpFault {
    /// The number of the refusal.
    pub fn number(&self) -> u32
        ensures { result ≡ number_of_fault self.now }
    {
        u32::from(dump_refusal(*self).number())
    }
}

/// The refusal of the table that a fault is.
pub fn dump_refusal(fault: DumpFault) -> Refusal
    ensures value { result ≡ dump_refusal fault }
    ensures no_peer { result ≡ Refusal.PeerFailed → ⊥ }
{
    match fault {
        DumpFault::BadVersion => Refusal::BadVersion,
        DumpFault::BadHeader => Refusal::BadHeader,
        DumpFault::BadNumber => Refusal::BadNumber,
        DumpFault::BadLength => Refusal::BadLength,
        DumpFault::BadProps => Refusal::BadProps,
        DumpFault::BadSum => Refusal::BadSum,
        DumpFault::Truncated => Refusal::Truncated,
        DumpFault::TooLong => Refusal::TooLong,
        DumpFault::TextDelta => Refusal::TextDelta,
        DumpFault::BadPath => Refusal::BadPath,
        DumpFault::Failed => Refusal::Failed,
        DumpFault::OutOfMemory => Refusal::OutOfMemory,
    }
}

impl From<AllocError> for DumpFault {
    ghost from_gives = { λ _ e. e ≡ OutOfMemory };

    fn from(_: AllocError) -> DumpFault {
        DumpFault::OutOfMemory
    }
}

impl<T: Drop> From<AllocFailed<T>> for DumpFault {
    ghost from_gives = { λ _ e. e ≡ OutOfMemory };

    fn from(_: AllocFailed<T>) -> DumpFault {
        DumpFault::OutOfMemory
    }
}
