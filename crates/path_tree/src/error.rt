//! Why a call on a tree says no.
ghost use Rattle.std.specs.Prelude.{◌≡◌, Some};
ghost use Rattle.node_base.specs.Refusals.{refusal_text};
ghost use Rattle.path_tree.specs.Calls.{error_number, error_refusal};
ghost use Rattle.path_tree.specs.declared.error.TreeError.TheVariants.{OutOfMemory};

use node_base::{Refusal, TreeFault, texts};
use std::alloc::AllocError;
use std::error::Error;
use std::fmt;

/// Why a call on a tree says no. The tree is then as it was.
#[derive(Clone, Copy, Debug, PartialEq, Eq)]
pub enum TreeError {
    /// The first fault of the call (8, 10 to 14, 17).
    Fault(TreeFault),
    /// Memory ran out (70).
    OutOfMemory,
}

impl TreeError {
    /// Its number.
    pub fn number(&self) -> u8
        ensures { result ≡ error_number self.now }
    {
        match self {
            TreeError::Fault(TreeFault::TooLong) => 8,
            TreeError::Fault(TreeFault::BadPath) => 10,
            TreeError::Fault(TreeFault::NoSuchPath) => 11,
            TreeError::Fault(TreeFault::PathThere) => 12,
            TreeError::Fault(TreeFault::NotDir) => 13,
            TreeError::Fault(TreeFault::NoSource) => 14,
            TreeError::Fault(TreeFault::KindMismatch) => 17,
            TreeError::OutOfMemory => 70,
        }
    }
}

impl fmt::Display for TreeError {
    ghost output = { λ e. Some (refusal_text (error_refusal e)) };

    /// The refusal's text.
    fn fmt<W: fmt::Write>(&self, f: &mut fmt::Formatter<W>) -> fmt::Result {
        match self {
            TreeError::Fault(fault) => write!(f, "{fault}"),
            TreeError::OutOfMemory => f.write_str(texts::OUT_OF_MEMORY),
        }
    }
}

impl Error for TreeError {}

impl From<TreeError> for Refusal {
    ghost from_gives = { λ e r. r ≡ error_refusal e };

    fn from(error: TreeError) -> Refusal {
        match error {
            TreeError::Fault(fault) => Refusal::from(fault),
            TreeError::OutOfMemory => Refusal::OutOfMemory,
        }
    }
}

impl From<AllocError> for TreeError {
    ghost from_gives = { λ _ e. e ≡ OutOfMemory };

    fn from(_error: AllocError) -> TreeError {
        TreeError::OutOfMemory
    }
}
