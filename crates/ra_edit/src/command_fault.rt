//! Why a command of a drive isn't done.

ghost use Rattle.std.specs.Prelude.{◌≡◌};
ghost use Rattle.ra_edit.specs.EditFaults.{of_window, of_delta};
ghost use Rattle.ra_edit.specs.declared.command_fault.CommandFault.TheVariants as fault;

use delta_editor::EditorFault;
use node_base::texts;
use std::alloc::{AllocError, AllocFailed};
use svndiff::delta_fault::DeltaFault;
use svndiff::fault::WindowFault;
use thiserror::Error;

/// Why an item is no command of a drive, or one that can't be done. None of these is the stream's.
#[derive(Clone, Copy, Debug, PartialEq, Eq, Drop, Error)]
pub enum CommandFault {
    /// A text isn't the one whose MD5 came with it (6).
    #[error("{}", texts::BAD_SUM)]
    BadSum,
    /// A window or a text is longer than its limit (8).
    #[error("{}", texts::TOO_LONG)]
    TooLong,
    /// The text was refused before (32).
    #[error("{}", texts::FAILED)]
    Failed,
    /// A text's bytes aren't svndiff version 0 (44).
    #[error("{}", texts::BAD_WINDOW)]
    BadWindow,
    /// A window of a text copies (45).
    #[error("{}", texts::COPY_WINDOW)]
    CopyWindow,
    /// A command names what isn't open, isn't the innermost open thing or is of another kind; a new token is in
    /// use; or something is open at the end (46).
    #[error("{}", texts::BAD_TOKEN)]
    BadToken,
    /// No editor command, one out of its place, a path, a property's name or a revision that is none (48).
    #[error("{}", texts::BAD_SHAPE)]
    BadShape,
    /// The peer gave the drive up: `abort-edit`, or a failure in place of a command (60).
    #[error("refused")]
    Refused,
    /// A growth was refused (70).
    #[error("{}", texts::OUT_OF_MEMORY)]
    OutOfMemory,
    /// The editor refused a call; the number is the editor's.
    #[error("{0}")]
    Editor(EditorFault),
}

impl From<AllocError> for CommandFault {
    ghost from_gives = { λ _ e. e ≡ fault.OutOfMemory };

    fn from(_: AllocError) -> CommandFault {
        CommandFault::OutOfMemory
    }
}

impl<T: Drop> From<AllocFailed<T>> for CommandFault {
    ghost from_gives = { λ _ e. e ≡ fault.OutOfMemory };

    fn from(_: AllocFailed<T>) -> CommandFault {
        CommandFault::OutOfMemory
    }
}

impl From<WindowFault> for CommandFault {
    ghost from_gives = { λ f e. e ≡ of_window f };

    fn from(fault: WindowFault) -> CommandFault {
        match fault {
            WindowFault::TooLong => CommandFault::TooLong,
            WindowFault::Failed => CommandFault::Failed,
            WindowFault::BadWindow => CommandFault::BadWindow,
            WindowFault::CopyWindow => CommandFault::CopyWindow,
        }
    }
}

impl From<DeltaFault> for CommandFault {
    ghost from_gives = { λ f e. e ≡ of_delta f };

    fn from(fault: DeltaFault) -> CommandFault {
        match fault {
            DeltaFault::TooLong => CommandFault::TooLong,
            DeltaFault::Failed => CommandFault::Failed,
            DeltaFault::BadWindow => CommandFault::BadWindow,
            DeltaFault::OutOfMemory => CommandFault::OutOfMemory,
        }
    }
}

impl From<EditorFault> for CommandFault {
    ghost from_gives = { λ f e. e ≡ fault.Editor f };

    fn from(fault: EditorFault) -> CommandFault {
        CommandFault::Editor(fault)
    }
}
