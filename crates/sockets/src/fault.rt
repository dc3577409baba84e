//! Why a server or a client gives up.
ghost use Rattle.std.specs.Prelude.{◌≡◌};
ghost use Rattle.sockets.specs.Lines.{number_of};

use thiserror::Error;

/// Why a server or a client gives up.
#[derive(Clone, Copy, Debug, PartialEq, Eq, Drop, Error)]
pub enum SocketFault {
    /// A call of a socket, a reader or a writer failed (49).
    #[error("stream failed")]
    PeerFailed,
    /// A growth was refused, that of a thread among them (70).
    #[error("out of memory")]
    OutOfMemory,
}

impl SocketFault {
    /// Its number in the table of refusals.
    pub fn number(self) -> u8
        ensures { result ≡ number_of self }
    {
        match self {
            SocketFault::PeerFailed => 49,
            SocketFault::OutOfMemory => 70,
        }
    }
}
