//! Why an editor refuses a call.
ghost use Rattle.std.specs.Prelude.{◌≡◌};
ghost use Rattle.delta_editor.specs.Faults.{number_of};

use node_base::{TreeFault, texts};
use std::alloc::{AllocError, AllocFailed};
use thiserror::Error;

/// Why an editor refuses a call. After any refusal its caller discards the batons that are open and calls `abort_edit`.
#[derive(Clone, Copy, Debug, PartialEq, Eq, Drop, Error)]
pub enum EditorFault {
    /// A limit is passed: more than 4,096 changes, a path of a copy, a property's value, a node's properties, or a text
    /// (8).
    #[error("{}", texts::TOO_LONG)]
    TooLong,
    /// The root is added or deleted (10).
    #[error("{}", texts::BAD_PATH)]
    BadPath,
    /// Nothing is where a call wants something, or above a path (11).
    #[error("{}", texts::NO_SUCH_PATH)]
    NoSuchPath,
    /// Something is where an add wants nothing (12).
    #[error("{}", texts::PATH_THERE)]
    PathThere,
    /// A file is above a path (13).
    #[error("{}", texts::NOT_DIR)]
    NotDir,
    /// The source isn't in an earlier revision (14).
    #[error("{}", texts::NO_SOURCE)]
    NoSource,
    /// A path is opened or added twice, or deleted after it or something below it was touched (15).
    #[error("{}", texts::OUT_OF_ORDER)]
    OutOfOrder,
    /// The target isn't the revision that comes next (16).
    #[error("{}", texts::WRONG_NUMBER)]
    WrongNumber,
    /// A directory is opened as a file, or a file as a directory, or a source is of the other kind (17).
    #[error("{}", texts::KIND_MISMATCH)]
    KindMismatch,
    /// What the calls are written to failed (49).
    #[error("{}", texts::PEER_FAILED)]
    PeerFailed,
    /// A growth was refused (70).
    #[error("{}", texts::OUT_OF_MEMORY)]
    OutOfMemory,
}

impl EditorFault {
    /// Its number in the table of refusals.
    pub fn number(self) -> u8
        ensures { result ≡ number_of self }
    {
        match self {
            EditorFault::TooLong => 8,
            EditorFault::BadPath => 10,
            EditorFault::NoSuchPath => 11,
            EditorFault::PathThere => 12,
            EditorFault::NotDir => 13,
            EditorFault::NoSource => 14,
            EditorFault::OutOfOrder => 15,
            EditorFault::WrongNumber => 16,
            EditorFault::KindMismatch => 17,
            EditorFault::PeerFailed => 49,
            EditorFault::OutOfMemory => 70,
        }
    }
}

impl From<AllocError> for EditorFault {
    ghost use Rattle.delta_editor.specs.declared.fault.EditorFault.TheVariants.{OutOfMemory};

    ghost from_gives = { λ _ e. e ≡ OutOfMemory };

    fn from(_: AllocError) -> EditorFault {
        EditorFault::OutOfMemory
    }
}

impl<T: Drop> From<AllocFailed<T>> for EditorFault {
    ghost use Rattle.delta_editor.specs.declared.fault.EditorFault.TheVariants.{OutOfMemory};

    ghost from_gives = { λ _ e. e ≡ OutOfMemory };

    fn from(_: AllocFailed<T>) -> EditorFault {
        EditorFault::OutOfMemory
    }
}

impl From<TreeFault> for EditorFault {
    ghost use Rattle.delta_editor.specs.Faults.{refused};

    ghost from_gives = { λ f e. e ≡ refused f };

    fn from(fault: TreeFault) -> EditorFault {
        match fault {
            TreeFault::TooLong => EditorFault::TooLong,
            TreeFault::BadPath => EditorFault::BadPath,
            TreeFault::NoSuchPath => EditorFault::NoSuchPath,
            TreeFault::PathThere => EditorFault::PathThere,
            TreeFault::NotDir => EditorFault::NotDir,
            TreeFault::NoSource => EditorFault::NoSource,
            TreeFault::KindMismatch => EditorFault::KindMismatch,
        }
    }
}
