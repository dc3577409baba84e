//! Why a server's answer isn't taken.

ghost use Rattle.std.specs.Prelude.{◌≡◌};
ghost use Rattle.ra_client.specs.Faults.{number_of, of_next, of_sink, of_wire, of_props, of_edit, is_answer};

use byte_streams::SinkFault;
use ra_edit::edit_fault::EditFault;
use ra_item::fault::NextFault;
use ra_wire::fault::WireFault;
use ra_wire::props_fault::PropsFault;
use thiserror::Error;

/// Why a call of a client isn't answered.
#[derive(Clone, Copy, Debug, PartialEq, Eq, Drop, Error)]
pub enum ClientFault {
    /// The stream, the edit in it, properties past a limit, or want of memory; the number is that refusal's.
    #[error("{0}")]
    Edit(EditFault),
    /// The server sent a failure as its answer (60). The session goes on.
    #[error("refused")]
    Refused,
    /// What came is an answer of another form, or the input ended where one was due (60).
    #[error("refused")]
    BadAnswer,
}

impl ClientFault {
    /// The number by which logs and answers name the refusal.
    pub fn number(&self) -> u8
        ensures { result ≡ number_of self.now }
    {
        match self {
            ClientFault::Edit(fault) => fault.number(),
            ClientFault::Refused | ClientFault::BadAnswer => 60,
        }
    }

    // Whether it is an answer itself, behind which the session goes on.
    pub(crate) fn is_answer(&self) -> bool
        ensures { result ≡ is_answer self.now }
    {
        match self {
            ClientFault::Refused => true,
            ClientFault::Edit(_) | ClientFault::BadAnswer => false,
        }
    }
}

impl From<EditFault> for ClientFault {
    ghost from_gives = { λ f e. e ≡ of_edit f };

    fn from(fault: EditFault) -> ClientFault {
        ClientFault::Edit(fault)
    }
}

impl From<NextFault> for ClientFault {
    ghost from_gives = { λ f e. e ≡ of_next f };

    fn from(fault: NextFault) -> ClientFault {
        ClientFault::Edit(EditFault::from(fault))
    }
}

impl From<WireFault> for ClientFault {
    ghost from_gives = { λ f e. e ≡ of_wire f };

    fn from(fault: WireFault) -> ClientFault {
        match fault {
            WireFault::OutOfMemory => ClientFault::Edit(EditFault::OutOfMemory),
            WireFault::ReplayForm | WireFault::UnknownCommand | WireFault::BadShape => {
                ClientFault::BadAnswer
            }
        }
    }
}

impl From<PropsFault> for ClientFault {
    ghost from_gives = { λ f e. e ≡ of_props f };

    fn from(fault: PropsFault) -> ClientFault {
        match fault {
            PropsFault::TooLong => ClientFault::Edit(EditFault::TooLong),
            PropsFault::BadShape => ClientFault::BadAnswer,
            PropsFault::OutOfMemory => ClientFault::Edit(EditFault::OutOfMemory),
        }
    }
}

impl From<SinkFault> for ClientFault {
    ghost from_gives = { λ f e. e ≡ of_sink f };

    fn from(fault: SinkFault) -> ClientFault {
        match fault {
            SinkFault::PeerFailed => ClientFault::Edit(EditFault::PeerFailed),
            SinkFault::OutOfMemory => ClientFault::Edit(EditFault::OutOfMemory),
        }
    }
}
