//! What can be wrong with a path's text, and with a place in a tree.
ghost use Rattle.std.specs.Prelude.{◌≡◌};
ghost use Rattle.node_base.specs.declared.fault.PathFault.TheVariants.{OutOfMemory};

use crate::texts;
use std::alloc::{AllocError, AllocFailed};
use thiserror::Error;

/// Why bytes are taken for no path or name.
#[derive(Clone, Copy, Debug, Error, PartialEq, Eq)]
pub enum PathFault {
    /// Past a limit (8).
    #[error("{}", texts::TOO_LONG)]
    TooLong,
    /// Outside the rule for names (10).
    #[error("{}", texts::BAD_PATH)]
    BadPath,
    /// Memory ran out (70).
    #[error("{}", texts::OUT_OF_MEMORY)]
    OutOfMemory,
}

impl From<AllocError> for PathFault {
    ghost from_gives = { λ _ e. e ≡ OutOfMemory };

    fn from(_error: AllocError) -> PathFault {
        PathFault::OutOfMemory
    }
}

impl<T: Drop> From<AllocFailed<T>> for PathFault {
    ghost from_gives = { λ _ e. e ≡ OutOfMemory };

    fn from(_error: AllocFailed<T>) -> PathFault {
        PathFault::OutOfMemory
    }
}

/// A fault of a place in a tree, or of a change there.
#[derive(Clone, Copy, Debug, PartialEq, Eq)]
pub enum TreeFault {
    /// Past a limit (8).
    TooLong,
    /// No path for such a change (10).
    BadPath,
    /// Nothing is there (11).
    NoSuchPath,
    /// Something is there already (12).
    PathThere,
    /// A front of the path is a file (13).
    NotDir,
    /// The source isn't there, or isn't earlier (14).
    NoSource,
    /// The kind isn't the node's, or a directory was given a text (17).
    KindMismatch,
}
