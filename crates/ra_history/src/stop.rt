//! Why sets aren't shared.

use ra_serve::PortFault;

/// Why sets aren't shared.
#[derive(Clone, Copy, Debug, PartialEq, Eq, Drop)]
pub enum SetsStop {
    /// The port refused a revision.
    Port(PortFault),
    /// A growth was refused.
    OutOfMemory,
}
