//! Why a port refuses a call, and why a session ends before its client does.

ghost use Rattle.std.specs.Prelude.{◌≡◌};
ghost use Rattle.node_base.specs.Refusals.{refusal_number, refusal_text};
ghost use Rattle.ra_serve.specs.Ports.{refusal_of};

use node_base::texts;
use ra_item::fault::ItemFault;
use std::alloc::AllocError;
use std::io;
use thiserror::Error;

/// Why a port refuses a call. Each is a refusal of the table.
#[derive(Clone, Copy, Debug, PartialEq, Eq, Drop, Error)]
pub enum PortFault {
    /// Properties past their limits: a value, or how many there are (8).
    #[error("{}", texts::TOO_LONG)]
    TooLong,
    /// A revision above the head (21).
    #[error("{}", texts::NO_SUCH_REVISION)]
    NoSuchRevision,
    /// A conditional change found another value (22).
    #[error("{}", texts::BASE_MISMATCH)]
    BaseMismatch,
    /// The port's device failed (31).
    #[error("{}", texts::DEVICE_FAILED)]
    DeviceFailed,
    /// It failed before (32).
    #[error("{}", texts::FAILED)]
    Failed,
    /// Its journal is full (36).
    #[error("{}", texts::LOG_FULL)]
    LogFull,
    /// A growth of its own was refused (70).
    #[error("{}", texts::OUT_OF_MEMORY)]
    OutOfMemory,
}

impl PortFault {
    /// Its number in the table of refusals.
    pub fn number(self) -> u8
        ensures { result ≡ refusal_number (refusal_of self) }
    {
        match self {
            PortFault::TooLong => 8,
            PortFault::NoSuchRevision => 21,
            PortFault::BaseMismatch => 22,
            PortFault::DeviceFailed => 31,
            PortFault::Failed => 32,
            PortFault::LogFull => 36,
            PortFault::OutOfMemory => 70,
        }
    }

    /// Its text.
    pub fn text(self) -> &'static [u8]
        ensures { result.now ≡ refusal_text (refusal_of self) }
    {
        match self {
            PortFault::TooLong => texts::TOO_LONG.as_bytes(),
            PortFault::NoSuchRevision => texts::NO_SUCH_REVISION.as_bytes(),
            PortFault::BaseMismatch => texts::BASE_MISMATCH.as_bytes(),
            PortFault::DeviceFailed => texts::DEVICE_FAILED.as_bytes(),
            PortFault::Failed => texts::FAILED.as_bytes(),
            PortFault::LogFull => texts::LOG_FULL.as_bytes(),
            PortFault::OutOfMemory => texts::OUT_OF_MEMORY.as_bytes(),
        }
    }
}

/// Why a session ends before its client does.
#[derive(Clone, Copy, Debug, PartialEq, Eq, Drop, Error)]
pub enum ServeFault {
    /// The reader failed (49).
    #[error("{}", texts::PEER_FAILED)]
    ReadFailed,
    /// The writer failed (49).
    #[error("{}", texts::PEER_FAILED)]
    WriteFailed,
    /// A growth of the session's own was refused (70).
    #[error("{}", texts::OUT_OF_MEMORY)]
    OutOfMemory,
}

impl From<io::Error> for ServeFault {
    ghost use Rattle.std.specs.Prelude.{◌≡◌};
    ghost use Rattle.ra_serve.specs.declared.fault.ServeFault.TheVariants.{WriteFailed};

    ghost from_gives = { λ _ e. e ≡ WriteFailed };

    fn from(_: io::Error) -> ServeFault {
        ServeFault::WriteFailed
    }
}

impl From<AllocError> for ServeFault {
    ghost use Rattle.std.specs.Prelude.{◌≡◌};
    ghost use Rattle.ra_serve.specs.declared.fault.ServeFault.TheVariants.{OutOfMemory};

    ghost from_gives = { λ _ e. e ≡ OutOfMemory };

    fn from(_: AllocError) -> ServeFault {
        ServeFault::OutOfMemory
    }
}

/// What ended a session.
#[derive(Clone, Copy, PartialEq, Eq, Drop)]
pub enum End {
    /// The input ended between items.
    Input,
    /// The opening ended it: the client isn't one of version 2, or says in another way who it is.
    Opening,
    /// A fault of items: 7, 8, 41, 42, or 32 where the stream was refused before.
    Items(ItemFault),
}
