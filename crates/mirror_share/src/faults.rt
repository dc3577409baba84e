//! What a store's fault is at a mirror.
ghost use Rattle.std.specs.Prelude.{◌≡◌};
ghost use Rattle.sync_job.specs.StoreFaults.{fault_of};

use gate_log::LogFault;
use repo_store::{StoreFault, log_refusal};
use sync_core::SyncFault;

/// The refusal of a mirror's call that the fault of its store is.
pub(crate) fn fault_of(fault: StoreFault) -> SyncFault
    ensures { result ≡ fault_of fault }
{
    match fault {
        StoreFault::Repo(fault) => SyncFault::from(fault),
        StoreFault::Log(LogFault::OutOfMemory) => SyncFault::OutOfMemory,
        StoreFault::Log(fault) => SyncFault::Other(log_refusal(fault)),
    }
}
