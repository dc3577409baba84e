//! Why a call stopped.

ghost use Rattle.std.specs.Prelude.{◌≡◌, ℕ};
ghost use Rattle.node_base.specs.declared.refusal.Refusal.{Refusal};
ghost use Rattle.repo_core.specs.Repository.{Repository};
ghost use Rattle.ra_serve.specs.Ports as port;
ghost use Rattle.ra_denial.specs.Denials.{no_revision};
ghost use Rattle.ra_denial.specs.Stops.{MayStop};

use crate::denial::Denial;
use ra_serve::PortFault;

/// Why a call stopped.
#[derive(Clone, Copy, Drop)]
pub enum Stop {
    /// What was looked for isn't there.
    Denied(Denial),
    /// The port refused by itself.
    Port(PortFault),
    /// A growth was refused.
    OutOfMemory,
}

/// The refusal of a port that was asked for a revision.
#[tactic(auto, using(crate::proofs::Causes::stops))]
pub fn stopped(fault: PortFault) -> Stop
    ensures { (x : Repository) (before now n : ℕ) → port.MayRefuse before now fault (port.no_revision x n)
        → MayStop before now (no_revision x n) result }
{
    match fault {
        PortFault::NoSuchRevision => Stop::Denied(Denial::NoRevision),
        fault => Stop::Port(fault),
    }
}
