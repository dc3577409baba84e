//! Why a drive isn't received.

ghost use Rattle.std.specs.Prelude.{◌≡◌};
ghost use Rattle.ra_edit.specs.EditFaults.{edit_number, of_next, of_command};

use crate::command_fault::CommandFault;
use delta_editor::EditorFault;
use node_base::texts;
use ra_item::fault::{ItemFault, NextFault};
use thiserror::Error;

/// Why items don't come, or why they are no drive of an editor.
#[derive(Clone, Copy, Debug, PartialEq, Eq, Drop, Error)]
pub enum EditFault {
    /// A text isn't the one whose MD5 came with it (6).
    #[error("{}", texts::BAD_SUM)]
    BadSum,
    /// The bytes end inside an item (7).
    #[error("{}", texts::TRUNCATED)]
    Truncated,
    /// A word, a string, an item, a window or a text is longer than its limit (8).
    #[error("{}", texts::TOO_LONG)]
    TooLong,
    /// The stream was refused before (32).
    #[error("{}", texts::FAILED)]
    Failed,
    /// A byte that no item has in its place (41).
    #[error("{}", texts::BAD_ITEM)]
    BadItem,
    /// Lists stand more than 16 deep in one another (42).
    #[error("{}", texts::TOO_DEEP)]
    TooDeep,
    /// A text's bytes aren't svndiff version 0 (44).
    #[error("{}", texts::BAD_WINDOW)]
    BadWindow,
    /// A window of a text copies (45).
    #[error("{}", texts::COPY_WINDOW)]
    CopyWindow,
    /// A command names what isn't open, isn't the innermost open thing or is of another kind; a new token is in
    /// use; or something is open at the end (46).
    #[error("{}", texts::BAD_TOKEN)]
    BadToken,
    /// No editor command, one out of its place, a path, a property's name or a revision that is none, or the
    /// input's end between items (48).
    #[error("{}", texts::BAD_SHAPE)]
    BadShape,
    /// A read failed, or the input was read as often as one stream may be (49).
    #[error("{}", texts::PEER_FAILED)]
    PeerFailed,
    /// The peer gave the drive up: `abort-edit`, or a failure in place of a command (60).
    #[error("refused")]
    Refused,
    /// A growth was refused (70).
    #[error("{}", texts::OUT_OF_MEMORY)]
    OutOfMemory,
    /// The editor refused a call; the number is the editor's.
    #[error("{0}")]
    Editor(EditorFault),
}

impl EditFault {
    /// The number by which logs and answers name the refusal.
    pub fn number(&self) -> u8
        ensures { result ≡ edit_number self.now }
    {
        match self {
            EditFault::BadSum => 6,
            EditFault::Truncated => 7,
            EditFault::TooLong => 8,
            EditFault::Failed => 32,
            EditFault::BadItem => 41,
            EditFault::TooDeep => 42,
            EditFault::BadWindow => 44,
            EditFault::CopyWindow => 45,
            EditFault::BadToken => 46,
            EditFault::BadShape => 48,
            EditFault::PeerFailed => 49,
            EditFault::Refused => 60,
            EditFault::OutOfMemory => 70,
            EditFault::Editor(fault) => fault.number(),
        }
    }
}

impl From<NextFault> for EditFault {
    ghost from_gives = { λ f e. e ≡ of_next f };

    fn from(fault: NextFault) -> EditFault {
        match fault {
            NextFault::Items(ItemFault::Truncated) => EditFault::Truncated,
            NextFault::Items(ItemFault::TooLong) => EditFault::TooLong,
            NextFault::Items(ItemFault::Failed) => EditFault::Failed,
            NextFault::Items(ItemFault::BadItem) => EditFault::BadItem,
            NextFault::Items(ItemFault::TooDeep) => EditFault::TooDeep,
            NextFault::Items(ItemFault::OutOfMemory) => EditFault::OutOfMemory,
            NextFault::PeerFailed => EditFault::PeerFailed,
        }
    }
}

impl From<CommandFault> for EditFault {
    ghost from_gives = { λ f e. e ≡ of_command f };

    fn from(fault: CommandFault) -> EditFault {
        match fault {
            CommandFault::BadSum => EditFault::BadSum,
            CommandFault::TooLong => EditFault::TooLong,
            CommandFault::Failed => EditFault::Failed,
            CommandFault::BadWindow => EditFault::BadWindow,
            CommandFault::CopyWindow => EditFault::CopyWindow,
            CommandFault::BadToken => EditFault::BadToken,
            CommandFault::BadShape => EditFault::BadShape,
            CommandFault::Refused => EditFault::Refused,
            CommandFault::OutOfMemory => EditFault::OutOfMemory,
            CommandFault::Editor(fault) => EditFault::Editor(fault),
        }
    }
}
