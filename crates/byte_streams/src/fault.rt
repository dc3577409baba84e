//! Why a stream refuses a call.
ghost use Rattle.std.specs.Prelude.{◌≡◌};
ghost use Rattle.byte_streams.specs.Causes.{number_of};

use thiserror::Error;

/// Why a stream refused a call.
#[derive(Clone, Copy, Debug, PartialEq, Eq, Error)]
pub enum StreamFault {
    /// The reader or the writer failed (49).
    #[error("the stream failed")]
    PeerFailed,
}

/// Why something wasn't written whole.
#[derive(Clone, Copy, Debug, PartialEq, Eq, Error)]
pub enum SinkFault {
    /// The output failed (49).
    #[error("the stream failed")]
    PeerFailed,
    /// What wrote gave up, and no output failed: memory ran out (70).
    #[error("out of memory")]
    OutOfMemory,
}

impl SinkFault {
    /// The number that the refusal is told by.
    pub fn number(&self) -> u8
        ensures { result ≡ number_of self.now }
    {
        match self {
            SinkFault::PeerFailed => 49,
            SinkFault::OutOfMemory => 70,
        }
    }
}
