//! What is wrong with a set of changes.
ghost use Rattle.std.specs.Prelude.{◌≡◌};
ghost use Rattle.dump_load.specs.Faults.{change_refusal, number_of};

use node_base::{Refusal, TreeFault, texts};
use std::alloc::{AllocError, AllocFailed};
use thiserror::Error;

/// Why records make no set of changes, or a set no tree.
#[derive(Clone, Copy, Debug, PartialEq, Eq, Drop, Error)]
pub enum ChangeFault {
    /// An add or a replace that copies nothing doesn't say what it adds, or a change is one that dump text can't
    /// say (2).
    #[error("{}", texts::BAD_HEADER)]
    BadHeader,
    /// More than 4,096 paths are changed, or a path of a copy is past the limits (8).
    #[error("{}", texts::TOO_LONG)]
    TooLong,
    /// The root is added, deleted or replaced (10).
    #[error("{}", texts::BAD_PATH)]
    BadPath,
    /// Nothing is where a change, a delete or a replace wants something, or above a path (11).
    #[error("{}", texts::NO_SUCH_PATH)]
    NoSuchPath,
    /// Something is where an add wants nothing (12).
    #[error("{}", texts::PATH_THERE)]
    PathThere,
    /// A file is above a path (13).
    #[error("{}", texts::NOT_DIR)]
    NotDir,
    /// The source isn't in an earlier revision (14).
    #[error("{}", texts::NO_SOURCE)]
    NoSource,
    /// A path's changes don't combine, or one is under a path that is deleted (15).
    #[error("{}", texts::OUT_OF_ORDER)]
    OutOfOrder,
    /// A revision isn't the one that comes next (16).
    #[error("{}", texts::WRONG_NUMBER)]
    WrongNumber,
    /// The kind that is given isn't the node's or the source's, or a directory is given a text (17).
    #[error("{}", texts::KIND_MISMATCH)]
    KindMismatch,
    /// A growth was refused (70).
    #[error("{}", texts::OUT_OF_MEMORY)]
    OutOfMemory,
}

impl ChangeFault {
    /// Its number in the table of refusals.
    pub fn number(self) -> u8
        ensures { result ≡ number_of self }
    {
        change_refusal(self).number()
    }
}

/// The refusal of the table that a fault of a set of changes is.
pub fn change_refusal(fault: ChangeFault) -> Refusal
    ensures value { result ≡ change_refusal fault }
    ensures no_peer { result ≡ Refusal.PeerFailed → ⊥ }
{
    match fault {
        ChangeFault::BadHeader => Refusal::BadHeader,
        ChangeFault::TooLong => Refusal::TooLong,
        ChangeFault::BadPath => Refusal::BadPath,
        ChangeFault::NoSuchPath => Refusal::NoSuchPath,
        ChangeFault::PathThere => Refusal::PathThere,
        ChangeFault::NotDir => Refusal::NotDir,
        ChangeFault::NoSource => Refusal::NoSource,
        ChangeFault::OutOfOrder => Refusal::OutOfOrder,
        ChangeFault::WrongNumber => Refusal::WrongNumber,
        ChangeFault::KindMismatch => Refusal::KindMismatch,
        ChangeFault::OutOfMemory => Refusal::OutOfMemory,
    }
}

impl From<AllocError> for ChangeFault {
    ghost use Rattle.std.specs.Prelude.{◌≡◌};
    ghost use Rattle.dump_load.specs.declared.fault.ChangeFault.TheVariants.{OutOfMemory};

    ghost from_gives = { λ _ e. e ≡ OutOfMemory };

    fn from(_: AllocError) -> ChangeFault {
        ChangeFault::OutOfMemory
    }
}

impl<T: Drop> From<AllocFailed<T>> for ChangeFault {
    ghost use Rattle.std.specs.Prelude.{◌≡◌};
    ghost use Rattle.dump_load.specs.declared.fault.ChangeFault.TheVariants.{OutOfMemory};

    ghost from_gives = { λ _ e. e ≡ OutOfMemory };

    fn from(_: AllocFailed<T>) -> ChangeFault {
        ChangeFault::OutOfMemory
    }
}

impl From<TreeFault> for ChangeFault {
    ghost use Rattle.std.specs.Prelude.{◌≡◌};
    ghost use Rattle.dump_load.specs.Faults.{refused};

    ghost from_gives = { λ f e. e ≡ refused f };

    fn from(fault: TreeFault) -> ChangeFault {
        match fault {
            TreeFault::TooLong => ChangeFault::TooLong,
            TreeFault::BadPath => ChangeFault::BadPath,
            TreeFault::NoSuchPath => ChangeFault::NoSuchPath,
            TreeFault::PathThere => ChangeFault::PathThere,
            TreeFault::NotDir => ChangeFault::NotDir,
            TreeFault::NoSource => ChangeFault::NoSource,
            TreeFault::KindMismatch => ChangeFault::KindMismatch,
        }
    }
}
