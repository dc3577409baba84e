//! Why a store refuses a call, and the refusal that this is.
ghost use Rattle.std.specs.Prelude.{◌≡◌};
ghost use Rattle.repo_store.specs.Refusals.{number_of, log_refusal, store_refusal};

use gate_log::LogFault;
use node_base::Refusal;
use repo_core::{RepoFault, repo_refusal};
use std::alloc::{AllocError, AllocFailed};
use thiserror::Error;

/// Why a store refuses a call. Want of memory (70) may come as either.
#[derive(Debug, Drop, Error)]
pub enum StoreFault {
    /// The repository doesn't take the change: 2, 8, 10 to 14, 17, 21, 22, 23, 25, 70.
    #[error("{0}")]
    Repo(RepoFault),
    /// The journal: 31 to 36, 70. Damaged (33) also tells an entry that isn't one.
    #[error("{0}")]
    Log(LogFault),
}

impl StoreFault {
    /// Its number in the table of refusals.
    pub fn number(&self) -> u8
        ensures { result ≡ number_of self.now }
    {
        match self {
            StoreFault::Repo(fault) => fault.number(),
            StoreFault::Log(fault) => fault.number(),
        }
    }
}

impl From<RepoFault> for StoreFault {
    ghost use Rattle.std.specs.Prelude.{◌≡◌};
    ghost use Rattle.repo_store.specs.declared.fault.StoreFault.TheVariants.{Repo};

    ghost from_gives = { λ f e. e ≡ Repo f };

    fn from(fault: RepoFault) -> StoreFault {
        StoreFault::Repo(fault)
    }
}

impl From<LogFault> for StoreFault {
    ghost use Rattle.std.specs.Prelude.{◌≡◌};
    ghost use Rattle.repo_store.specs.declared.fault.StoreFault.TheVariants.{Log};

    ghost from_gives = { λ f e. e ≡ Log f };

    fn from(fault: LogFault) -> StoreFault {
        StoreFault::Log(fault)
    }
}

impl From<AllocError> for StoreFault {
    ghost use Rattle.std.specs.Prelude.{◌≡◌};
    ghost use Rattle.gate_log.specs.declared.fault.LogFault.TheVariants.{OutOfMemory};
    ghost use Rattle.repo_store.specs.declared.fault.StoreFault.TheVariants.{Log};

    ghost from_gives = { λ _ e. e ≡ Log OutOfMemory };

    fn from(_: AllocError) -> StoreFault {
        StoreFault::Log(LogFault::OutOfMemory)
    }
}

impl<T: Drop> From<AllocFailed<T>> for StoreFault {
    ghost use Rattle.std.specs.Prelude.{◌≡◌};
    ghost use Rattle.gate_log.specs.declared.fault.LogFault.TheVariants.{OutOfMemory};
    ghost use Rattle.repo_store.specs.declared.fault.StoreFault.TheVariants.{Log};

    ghost from_gives = { λ _ e. e ≡ Log OutOfMemory };

    fn from(_: AllocFailed<T>) -> StoreFault {
        StoreFault::Log(LogFault::OutOfMemory)
    }
}

/// The refusal that a log's fault is.
pub fn log_refusal(fault: LogFault) -> Refusal
    ensures value { result ≡ log_refusal fault }
    ensures no_peer { result ≡ Refusal.PeerFailed → ⊥ }
{
    match fault {
        LogFault::DeviceFailed => Refusal::DeviceFailed,
        LogFault::Failed => Refusal::Failed,
        LogFault::Damaged(entry) => Refusal::Damaged(entry),
        LogFault::NoRepository => Refusal::NoRepository,
        LogFault::ThereAlready => Refusal::ThereAlready,
        LogFault::LogFull => Refusal::LogFull,
        LogFault::OutOfMemory => Refusal::OutOfMemory,
    }
}

/// The refusal that a store's fault is.
pub fn store_refusal(fault: StoreFault) -> Refusal
    ensures value { result ≡ store_refusal fault }
    ensures no_peer { result ≡ Refusal.PeerFailed → ⊥ }
{
    match fault {
        StoreFault::Repo(fault) => repo_refusal(fault),
        StoreFault::Log(fault) => log_refusal(fault),
    }
}

impl From<StoreFault> for Refusal {
    ghost use Rattle.std.specs.Prelude.{◌≡◌};
    ghost use Rattle.repo_store.specs.Refusals.{store_refusal};

    ghost from_gives = { λ f e. e ≡ store_refusal f };

    fn from(fault: StoreFault) -> Refusal {
        store_refusal(fault)
    }
}
