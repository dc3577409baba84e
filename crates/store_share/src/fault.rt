//! Why a row isn't made, or a revision isn't shown.
ghost use Rattle.std.specs.Prelude.{◌≡◌};
ghost use Rattle.store_share.specs.Faults.{number_of};

use node_base::{Refusal, texts};
use std::alloc::{AllocError, AllocFailed};
use thiserror::Error;

/// Why a row isn't made, or a revision isn't shown.
#[derive(Debug, Drop, Error)]
pub enum RowFault {
    /// The cell refuses its box, since it shows a revision already (32).
    #[error("{}", texts::FAILED)]
    Failed,
    /// A growth was refused (70).
    #[error("{}", texts::OUT_OF_MEMORY)]
    OutOfMemory,
}

impl RowFault {
    /// Its number in the table of refusals.
    pub fn number(&self) -> u8
        ensures { result ≡ number_of self.now }
    {
        match self {
            RowFault::Failed => 32,
            RowFault::OutOfMemory => 70,
        }
    }
}

impl From<RowFault> for Refusal {
    ghost use Rattle.std.specs.Prelude.{◌≡◌};
    ghost use Rattle.store_share.specs.Faults.{row_refusal};

    ghost from_gives = { λ f e. e ≡ row_refusal f };

    fn from(fault: RowFault) -> Refusal {
        match fault {
            RowFault::Failed => Refusal::Failed,
            RowFault::OutOfMemory => Refusal::OutOfMemory,
        }
    }
}

impl From<AllocError> for RowFault {
    ghost use Rattle.std.specs.Prelude.{◌≡◌};
    ghost use Rattle.store_share.specs.declared.fault.RowFault.TheVariants.{OutOfMemory};

    ghost from_gives = { λ _ e. e ≡ OutOfMemory };

    fn from(_: AllocError) -> RowFault {
        RowFault::OutOfMemory
    }
}

impl<T: Drop> From<AllocFailed<T>> for RowFault {
    ghost use Rattle.std.specs.Prelude.{◌≡◌};
    ghost use Rattle.store_share.specs.declared.fault.RowFault.TheVariants.{OutOfMemory};

    ghost from_gives = { λ _ e. e ≡ OutOfMemory };

    fn from(_: AllocFailed<T>) -> RowFault {
        RowFault::OutOfMemory
    }
}
