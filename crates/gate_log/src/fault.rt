//! Why a log refused a call.
ghost use Rattle.std.specs.Prelude.{◌≡◌};
ghost use Rattle.gate_log.specs.Faults.{number_of};
ghost use Rattle.gate_log.specs.declared.fault.LogFault.TheVariants.{DeviceFailed, OutOfMemory};

use fleet_disk::DiskFault;
use std::alloc::{AllocError, AllocFailed};
use thiserror::Error;

/// Why a log refused a call. Each has a number, which `number` gives.
#[derive(Clone, Copy, Debug, PartialEq, Eq, Error)]
pub enum LogFault {
    /// The device failed (31).
    #[error("device failed")]
    DeviceFailed,
    /// The device failed in an earlier call (32).
    #[error("failed before")]
    Failed,
    /// The length of this entry, or the gate behind it, breaks the format (33).
    #[error("entry {0} is damaged")]
    Damaged(u64),
    /// The first gate is missing or closed (34).
    #[error("no repository")]
    NoRepository,
    /// A file isn't empty (35).
    #[error("repository already there")]
    ThereAlready,
    /// The journal would pass 2^56 bytes (36).
    #[error("journal is full")]
    LogFull,
    /// A growth was refused (70).
    #[error("out of memory")]
    OutOfMemory,
}

impl LogFault {
    /// The number that a program prints.
    pub fn number(&self) -> u8
        ensures { result ≡ number_of self.now }
    {
        match self {
            LogFault::DeviceFailed => 31,
            LogFault::Failed => 32,
            LogFault::Damaged(_) => 33,
            LogFault::NoRepository => 34,
            LogFault::ThereAlready => 35,
            LogFault::LogFull => 36,
            LogFault::OutOfMemory => 70,
        }
    }
}

impl From<DiskFault> for LogFault {
    ghost from_gives = { λ _ e. e ≡ DeviceFailed };

    fn from(_: DiskFault) -> LogFault {
        LogFault::DeviceFailed
    }
}

impl From<AllocError> for LogFault {
    ghost from_gives = { λ _ e. e ≡ OutOfMemory };

    fn from(_: AllocError) -> LogFault {
        LogFault::OutOfMemory
    }
}

impl<T: Drop> From<AllocFailed<T>> for LogFault {
    ghost from_gives = { λ _ e. e ≡ OutOfMemory };

    fn from(_: AllocFailed<T>) -> LogFault {
        LogFault::OutOfMemory
    }
}
