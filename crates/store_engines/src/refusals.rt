//! The refusals that a path's faults are.
ghost use Rattle.std.specs.Prelude.{◌≡◌};
ghost use Rattle.store_engines.specs.Refusals.{path_refusal};

use node_base::{PathFault, Refusal};

/// The refusal that a path's fault is.
pub fn path_refusal(fault: PathFault) -> Refusal
    ensures value { result ≡ path_refusal fault }
    ensures no_peer { result ≡ Refusal.PeerFailed → ⊥ }
{
    match fault {
        PathFault::TooLong => Refusal::TooLong,
        PathFault::BadPath => Refusal::BadPath,
        PathFault::OutOfMemory => Refusal::OutOfMemory,
    }
}
