//! Why a text isn't made.
ghost use Rattle.std.specs.Prelude.{◌≡◌};
ghost use Rattle.node_base.specs.declared.text_fault.TextFault.TheVariants.{OutOfMemory};

use crate::texts;
use std::alloc::{AllocError, AllocFailed};
use thiserror::Error;

/// Why a text isn't made, or doesn't grow. Each message is the refusal's.
#[derive(Clone, Copy, Debug, PartialEq, Eq, Error)]
pub enum TextFault {
    /// More than 1,048,576 bytes (8).
    #[error("{}", texts::TOO_LONG)]
    TooLong,
    /// No memory (70).
    #[error("{}", texts::OUT_OF_MEMORY)]
    OutOfMemory,
}

impl From<AllocError> for TextFault {
    ghost from_gives = { λ _ e. e ≡ OutOfMemory };

    fn from(_: AllocError) -> TextFault {
        TextFault::OutOfMemory
    }
}

impl<T: Drop> From<AllocFailed<T>> for TextFault {
    ghost from_gives = { λ _ e. e ≡ OutOfMemory };

    fn from(_: AllocFailed<T>) -> TextFault {
        TextFault::OutOfMemory
    }
}
