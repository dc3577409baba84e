//! Why a delta makes no text.
ghost use Rattle.std.specs.Prelude.{◌≡◌};
ghost use Rattle.whole_texts.specs.Refusals.{text_refusal, number_of, of_delta};

use node_base::{Refusal, texts};
use std::alloc::{AllocError, AllocFailed};
use svndiff::delta_fault::DeltaFault;
use thiserror::Error;

/// Why a text that is given as a delta isn't made.
#[derive(Clone, Copy, Debug, PartialEq, Eq, Drop, Error)]
pub enum TextRefusal {
    /// The text that the delta is over, or the one that it makes, doesn't have its MD5 (6).
    #[error("{}", texts::BAD_SUM)]
    BadSum,
    /// A window, or the text, is past its limit (8).
    #[error("{}", texts::TOO_LONG)]
    TooLong,
    /// Nothing is where a change wants a text (11).
    #[error("{}", texts::NO_SUCH_PATH)]
    NoSuchPath,
    /// The source isn't in an earlier revision (14).
    #[error("{}", texts::NO_SOURCE)]
    NoSource,
    /// A directory is where the delta wants a text (17).
    #[error("{}", texts::KIND_MISMATCH)]
    KindMismatch,
    /// The bytes are no delta of the text that is there (44).
    #[error("{}", texts::BAD_WINDOW)]
    BadWindow,
    /// A growth was refused (70).
    #[error("{}", texts::OUT_OF_MEMORY)]
    OutOfMemory,
}

impl TextRefusal {
    /// Its number in the table of refusals.
    pub fn number(self) -> u8
        ensures { result ≡ number_of self }
    {
        text_refusal(self).number()
    }
}

/// The refusal of the table that it is.
pub fn text_refusal(fault: TextRefusal) -> Refusal
    ensures value { result ≡ text_refusal fault }
    ensures no_peer { result ≡ Refusal.PeerFailed → ⊥ }
{
    match fault {
        TextRefusal::BadSum => Refusal::BadSum,
        TextRefusal::TooLong => Refusal::TooLong,
        TextRefusal::NoSuchPath => Refusal::NoSuchPath,
        TextRefusal::NoSource => Refusal::NoSource,
        TextRefusal::KindMismatch => Refusal::KindMismatch,
        TextRefusal::BadWindow => Refusal::BadWindow,
        TextRefusal::OutOfMemory => Refusal::OutOfMemory,
    }
}

/// The refusal that a delta's fault becomes.
pub fn of_delta(fault: DeltaFault) -> TextRefusal
    ensures { result ≡ of_delta fault }
{
    match fault {
        DeltaFault::TooLong => TextRefusal::TooLong,
        DeltaFault::Failed | DeltaFault::BadWindow => TextRefusal::BadWindow,
        DeltaFault::OutOfMemory => TextRefusal::OutOfMemory,
    }
}

impl From<AllocError> for TextRefusal {
    ghost use Rattle.std.specs.Prelude.{◌≡◌};
    ghost use Rattle.whole_texts.specs.declared.refusal.TextRefusal.TheVariants.{OutOfMemory};

    ghost from_gives = { λ _ e. e ≡ OutOfMemory };

    fn from(_: AllocError) -> TextRefusal {
        TextRefusal::OutOfMemory
    }
}

impl<T: Drop> From<AllocFailed<T>> for TextRefusal {
    ghost use Rattle.std.specs.Prelude.{◌≡◌};
    ghost use Rattle.whole_texts.specs.declared.refusal.TextRefusal.TheVariants.{OutOfMemory};

    ghost from_gives = { λ _ e. e ≡ OutOfMemory };

    fn from(_: AllocFailed<T>) -> TextRefusal {
        TextRefusal::OutOfMemory
    }
}
