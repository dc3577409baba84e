//! What can be wrong with properties.
ghost use Rattle.std.specs.Prelude.{◌≡◌};
ghost use Rattle.node_base.specs.declared.prop_fault.PropFault.TheVariants.{OutOfMemory};

use crate::texts;
use std::alloc::{AllocError, AllocFailed};
use thiserror::Error;

/// A fault of a property's name or value, of a property map or of a property block. Each message is the refusal's.
#[derive(Clone, Copy, Debug, PartialEq, Eq, Error)]
pub enum PropFault {
    /// A name outside the rule, or bytes that are no property block (5).
    #[error("{}", texts::BAD_PROPS)]
    BadProps,
    /// A name, a value or a count of properties past its limit (8).
    #[error("{}", texts::TOO_LONG)]
    TooLong,
    /// No memory (70).
    #[error("{}", texts::OUT_OF_MEMORY)]
    OutOfMemory,
}

impl From<AllocError> for PropFault {
    ghost from_gives = { λ _ e. e ≡ OutOfMemory };

    fn from(_: AllocError) -> PropFault {
        PropFault::OutOfMemory
    }
}

impl<T: Drop> From<AllocFailed<T>> for PropFault {
    ghost from_gives = { λ _ e. e ≡ OutOfMemory };

    fn from(_: AllocFailed<T>) -> PropFault {
        PropFault::OutOfMemory
    }
}
