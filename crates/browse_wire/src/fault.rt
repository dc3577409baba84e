//! Why an item isn't what was to come.

ghost use Rattle.std.specs.Prelude.{◌≡◌};
ghost use Rattle.browse_wire.specs.Faults.{of_wire};
ghost use Rattle.browse_wire.specs.declared.fault.BrowseFault.TheVariants.{OutOfMemory};

use node_base::texts;
use ra_wire::fault::WireFault;
use std::alloc::{AllocError, AllocFailed};
use thiserror::Error;

/// Why an item isn't what was to come.
#[derive(Clone, Copy, Debug, PartialEq, Eq, Drop, Error)]
pub enum BrowseFault {
    /// A replay against another revision than 0, or without texts.
    #[error("{}", texts::REPLAY_FORM)]
    ReplayForm,
    /// A command of another name.
    #[error("{}", texts::UNKNOWN_COMMAND)]
    UnknownCommand,
    /// An item of another shape.
    #[error("{}", texts::BAD_SHAPE)]
    BadShape,
    /// A command with a depth that leaves a path out.
    #[error("depth 'exclude' not supported")]
    ExcludedDepth,
    /// A growth was refused.
    #[error("{}", texts::OUT_OF_MEMORY)]
    OutOfMemory,
}

impl From<WireFault> for BrowseFault {
    ghost from_gives = { λ f e. e ≡ of_wire f };

    fn from(fault: WireFault) -> BrowseFault {
        match fault {
            WireFault::ReplayForm => BrowseFault::ReplayForm,
            WireFault::UnknownCommand => BrowseFault::UnknownCommand,
            WireFault::BadShape => BrowseFault::BadShape,
            WireFault::OutOfMemory => BrowseFault::OutOfMemory,
        }
    }
}

impl From<AllocError> for BrowseFault {
    ghost from_gives = { λ _ e. e ≡ OutOfMemory };

    fn from(_: AllocError) -> BrowseFault {
        BrowseFault::OutOfMemory
    }
}

impl<T: Drop> From<AllocFailed<T>> for BrowseFault {
    ghost from_gives = { λ _ e. e ≡ OutOfMemory };

    fn from(_: AllocFailed<T>) -> BrowseFault {
        BrowseFault::OutOfMemory
    }
}
