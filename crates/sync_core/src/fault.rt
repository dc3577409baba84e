//! Why a mirror or a job refuses.
ghost use Rattle.std.specs.Prelude.{◌≡◌};
ghost use Rattle.node_base.specs.Refusals.{refusal_number};
ghost use Rattle.sync_core.specs.Faults.{refusal_of, of_changes};

use crate::lock_token::LockToken;
use dump_load::{ChangeFault, change_refusal};
use node_base::{Refusal, RevNo, ToldNumber};
use repo_core::{RepoFault, repo_refusal};
use std::alloc::{AllocError, AllocFailed};
use std::error::Error;

/// Why a call of a mirror was refused, or a job ended without what it was to do. Each message is the refusal's.
#[derive(Debug, Drop)]
pub enum SyncFault {
    /// The mirror isn't initialized (51).
    NotInitialised,
    /// The mirror is initialized already (52).
    AlreadyInitialised,
    /// The mirror has revisions and can't be initialized (53).
    NotEmpty,
    /// The sync lock is held, by the job of that token (54).
    LockHeld(LockToken),
    /// The holder of the sync lock, of that token, is running (55).
    HolderRunning(LockToken),
    /// The source isn't the repository that the mirror was initialized from (56).
    WrongMaster,
    /// What is merged, what is being copied and the head fit no shape in which a mirror rests (57).
    Inconsistent {
        merged: ToldNumber,
        copying: ToldNumber,
        head: RevNo,
    },
    /// Properties are to be copied up to that revision, which isn't merged yet (58).
    NotYetCopied(RevNo),
    /// The caller doesn't hold the sync lock (59).
    NotHolder,
    /// The master refused, with that text (60).
    MasterFailed(String),
    /// It isn't the call's turn, or an answer fits no question (61).
    OutOfTurn,
    /// What the mirror's repository refuses, or what keeps it.
    Other(Refusal),
    /// A growth was refused (70).
    OutOfMemory,
}

impl Error for SyncFault {}

impl From<SyncFault> for Refusal {
    ghost use Rattle.std.specs.Prelude.{◌≡◌};
    ghost use Rattle.sync_core.specs.Faults.{refusal_of};

    ghost from_gives = { λ f r. r ≡ refusal_of f };

    fn from(fault: SyncFault) -> Refusal {
        match fault {
            SyncFault::NotInitialised => Refusal::NotInitialised,
            SyncFault::AlreadyInitialised => Refusal::AlreadyInitialised,
            SyncFault::NotEmpty => Refusal::NotEmpty,
            SyncFault::LockHeld(token) => Refusal::LockHeld(token.bytes),
            SyncFault::HolderRunning(token) => Refusal::HolderRunning(token.bytes),
            SyncFault::WrongMaster => Refusal::WrongMaster,
            SyncFault::Inconsistent {
                merged,
                copying,
                head,
            } => Refusal::Inconsistent {
                merged,
                copying,
                head,
            },
            SyncFault::NotYetCopied(number) => Refusal::NotYetCopied(number),
            SyncFault::NotHolder => Refusal::NotHolder,
            SyncFault::MasterFailed(text) => Refusal::MasterFailed(text),
            SyncFault::OutOfTurn => Refusal::OutOfTurn,
            SyncFault::Other(refusal) => refusal,
            SyncFault::OutOfMemory => Refusal::OutOfMemory,
        }
    }
}

impl SyncFault {
    /// Its number in the table of refusals.
    pub fn number(&self) -> u8
        ensures { result ≡ refusal_number (refusal_of self.now) }
    {
        match self {
            SyncFault::NotInitialised => 51,
            SyncFault::AlreadyInitialised => 52,
            SyncFault::NotEmpty => 53,
            SyncFault::LockHeld(_) => 54,
            SyncFault::HolderRunning(_) => 55,
            SyncFault::WrongMaster => 56,
            SyncFault::Inconsistent { .. } => 57,
            SyncFault::NotYetCopied(_) => 58,
            SyncFault::NotHolder => 59,
            SyncFault::MasterFailed(_) => 60,
            SyncFault::OutOfTurn => 61,
            SyncFault::Other(refusal) => refusal.number(),
            SyncFault::OutOfMemory => 70,
        }
    }
}

impl From<AllocError> for SyncFault {
    ghost use Rattle.std.specs.Prelude.{◌≡◌};
    ghost use Rattle.sync_core.specs.declared.fault.SyncFault.TheVariants.{OutOfMemory};

    ghost from_gives = { λ _ e. e ≡ OutOfMemory };

    fn from(_: AllocError) -> SyncFault {
        SyncFault::OutOfMemory
    }
}

impl<T: Drop> From<AllocFailed<T>> for SyncFault {
    ghost use Rattle.std.specs.Prelude.{◌≡◌};
    ghost use Rattle.sync_core.specs.declared.fault.SyncFault.TheVariants.{OutOfMemory};

    ghost from_gives = { λ _ e. e ≡ OutOfMemory };

    fn from(_: AllocFailed<T>) -> SyncFault {
        SyncFault::OutOfMemory
    }
}

impl From<RepoFault> for SyncFault {
    ghost use Rattle.std.specs.Prelude.{◌≡◌};
    ghost use Rattle.sync_core.specs.Faults.{of_repository};

    ghost from_gives = { λ f e. e ≡ of_repository f };

    fn from(fault: RepoFault) -> SyncFault {
        match fault {
            RepoFault::Change(fault) => of_changes(fault),
            RepoFault::OutOfMemory => SyncFault::OutOfMemory,
            fault => SyncFault::Other(repo_refusal(fault)),
        }
    }
}

// What is wrong with a set of changes.
fn of_changes(fault: ChangeFault) -> SyncFault
    ensures { result ≡ of_changes fault }
{
    match fault {
        ChangeFault::OutOfMemory => SyncFault::OutOfMemory,
        fault => SyncFault::Other(change_refusal(fault)),
    }
}
