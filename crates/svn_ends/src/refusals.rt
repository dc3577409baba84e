//! Why a server gives no repository.

ghost use Rattle.std.specs.Prelude.{◌≡◌, ◌⊎◌};
ghost use Rattle.svn_ends.specs.Runs.{IsUnreached, TellsMaster};

use node_base::Refusal;
use ra_client::ClientFault;
use sockets::SocketFault;
use std::alloc::Global;
use sync_job::MasterFault;

/// The refusal that a connection's fault is.
pub(crate) fn unreached(fault: SocketFault) -> Refusal
    ensures { IsUnreached result }
{
    match fault {
        SocketFault::PeerFailed => Refusal::PeerFailed,
        SocketFault::OutOfMemory => Refusal::OutOfMemory,
    }
}

/// What is told of a server that ends an opening: as a job tells it of its master.
pub(crate) fn refused(alloc: Global, fault: ClientFault) -> Refusal
    ensures { (result ≡ Refusal.OutOfMemory) ⊎ TellsMaster fault result }
{
    match MasterFault::from(fault).text(alloc) {
        Ok(text) => Refusal::MasterFailed(text),
        Err(_) => Refusal::OutOfMemory,
    }
}
