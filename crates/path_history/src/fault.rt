//! Why a history isn't told.
ghost use Rattle.std.specs.Prelude.{◌≡◌};
ghost use Rattle.path_history.specs.declared.fault.HistoryFault.TheVariants.{OutOfMemory};

use node_base::texts;
use std::alloc::{AllocError, AllocFailed};
use thiserror::Error;

/// Why a history isn't told.
#[derive(Clone, Copy, Debug, PartialEq, Eq, Drop, Error)]
pub enum HistoryFault {
    /// A path of it is past the limits of paths. It can't be in a repository, where something stands at each place of a
    /// node's history.
    #[error("{}", texts::TOO_LONG)]
    TooLong,
    /// A growth was refused.
    #[error("{}", texts::OUT_OF_MEMORY)]
    OutOfMemory,
}

impl From<AllocError> for HistoryFault {
    ghost from_gives = { λ _ e. e ≡ OutOfMemory };

    fn from(_error: AllocError) -> HistoryFault {
        HistoryFault::OutOfMemory
    }
}

impl<T: Drop> From<AllocFailed<T>> for HistoryFault {
    ghost from_gives = { λ _ e. e ≡ OutOfMemory };

    fn from(_error: AllocFailed<T>) -> HistoryFault {
        HistoryFault::OutOfMemory
    }
}
