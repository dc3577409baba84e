//! Why a repository refuses a call.
ghost use Rattle.std.specs.Prelude.{◌≡◌};
ghost use Rattle.repo_core.specs.Refusals.{number_of, repo_refusal};

use dump_load::{ChangeFault, change_refusal};
use node_base::{PropValue, Refusal, RevNo, texts};
use std::alloc::{AllocError, AllocFailed};
use thiserror::Error;

/// Why a repository refuses a call. A refused call changes nothing.
#[derive(Debug, Drop, Error)]
pub enum RepoFault {
    /// A revision above the head (21).
    #[error("{}", texts::NO_SUCH_REVISION)]
    NoSuchRevision,
    /// A conditional change of a property found another value than it expected, or none: this one (22).
    #[error("{}", texts::BASE_MISMATCH)]
    BaseMismatch(Option<PropValue>),
    /// The head is 65,535, the last revision that can be (23).
    #[error("{}", texts::FULL)]
    Full,
    /// A commit against an earlier revision than the head, which is told (25).
    #[error("the base is not the head {0}")]
    Behind(RevNo),
    /// The first fault of a commit's changes: a path of a copy past the limits (8), the root added, deleted or
    /// replaced (10), nothing there (11), something there (12), a file above (13), no such source (14), another
    /// kind (17).
    #[error("{0}")]
    Change(ChangeFault),
    /// Properties past the limits: a value, or how many there are (8).
    #[error("{}", texts::TOO_LONG)]
    TooLong,
    /// A growth was refused (70).
    #[error("{}", texts::OUT_OF_MEMORY)]
    OutOfMemory,
}

impl RepoFault {
    /// Its number in the table of refusals.
    pub fn number(&self) -> u8
        ensures { result ≡ number_of self.now }
    {
        match self {
            RepoFault::TooLong => 8,
            RepoFault::NoSuchRevision => 21,
            RepoFault::BaseMismatch(_) => 22,
            RepoFault::Full => 23,
            RepoFault::Behind(_) => 25,
            RepoFault::Change(fault) => fault.number(),
            RepoFault::OutOfMemory => 70,
        }
    }
}

/// The refusal of the table that a repository's fault is.
pub fn repo_refusal(fault: RepoFault) -> Refusal
    ensures value { result ≡ repo_refusal fault }
    ensures no_peer { result ≡ Refusal.PeerFailed → ⊥ }
{
    match fault {
        RepoFault::NoSuchRevision => Refusal::NoSuchRevision,
        RepoFault::BaseMismatch(_) => Refusal::BaseMismatch,
        RepoFault::Full => Refusal::Full,
        RepoFault::Behind(head) => Refusal::Behind(head),
        RepoFault::Change(fault) => change_refusal(fault),
        RepoFault::TooLong => Refusal::TooLong,
        RepoFault::OutOfMemory => Refusal::OutOfMemory,
    }
}

impl From<AllocError> for RepoFault {
    ghost use Rattle.std.specs.Prelude.{◌≡◌};
    ghost use Rattle.repo_core.specs.declared.fault.RepoFault.TheVariants.{OutOfMemory};

    ghost from_gives = { λ _ e. e ≡ OutOfMemory };

    fn from(_: AllocError) -> RepoFault {
        RepoFault::OutOfMemory
    }
}

impl<T: Drop> From<AllocFailed<T>> for RepoFault {
    ghost use Rattle.std.specs.Prelude.{◌≡◌};
    ghost use Rattle.repo_core.specs.declared.fault.RepoFault.TheVariants.{OutOfMemory};

    ghost from_gives = { λ _ e. e ≡ OutOfMemory };

    fn from(_: AllocFailed<T>) -> RepoFault {
        RepoFault::OutOfMemory
    }
}

impl From<ChangeFault> for RepoFault {
    ghost use Rattle.std.specs.Prelude.{◌≡◌};
    ghost use Rattle.repo_core.specs.ChangeRefusals.{of_change};

    ghost from_gives = { λ f e. e ≡ of_change f };

    fn from(fault: ChangeFault) -> RepoFault {
        match fault {
            ChangeFault::OutOfMemory => RepoFault::OutOfMemory,
            fault => RepoFault::Change(fault),
        }
    }
}
