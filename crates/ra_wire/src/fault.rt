//! Why an item isn't what was to come.

ghost use Rattle.std.specs.Prelude.{◌≡◌};
ghost use Rattle.ra_wire.specs.Faults.{number_of_fault};
ghost use Rattle.ra_wire.specs.declared.fault.WireFault.TheVariants.{OutOfMemory};

use node_base::texts;
use std::alloc::{AllocError, AllocFailed};
use thiserror::Error;

/// Why an item isn't what was to come.
#[derive(Clone, Copy, Debug, PartialEq, Eq, Drop, Error)]
pub enum WireFault {
    /// A replay against another revision than 0, or without texts (43).
    #[error("{}", texts::REPLAY_FORM)]
    ReplayForm,
    /// A command of another name (47).
    #[error("{}", texts::UNKNOWN_COMMAND)]
    UnknownCommand,
    /// An item of another shape, a path or a property's name that is none (48).
    #[error("{}", texts::BAD_SHAPE)]
    BadShape,
    /// A growth was refused (70).
    #[error("{}", texts::OUT_OF_MEMORY)]
    OutOfMemory,
}

impl WireFault {
    /// Its number in the table of refusals.
    pub fn number(self) -> u8
        ensures { result ≡ number_of_fault self }
    {
        match self {
            WireFault::ReplayForm => 43,
            WireFault::UnknownCommand => 47,
            WireFault::BadShape => 48,
            WireFault::OutOfMemory => 70,
        }
    }
}

impl From<AllocError> for WireFault {
    ghost from_gives = { λ _ e. e ≡ OutOfMemory };

    fn from(_: AllocError) -> WireFault {
        WireFault::OutOfMemory
    }
}

impl<T: Drop> From<AllocFailed<T>> for WireFault {
    ghost from_gives = { λ _ e. e ≡ OutOfMemory };

    fn from(_: AllocFailed<T>) -> WireFault {
        WireFault::OutOfMemory
    }
}
