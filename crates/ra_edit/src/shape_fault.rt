//! Why an item is read as no command.

ghost use Rattle.std.specs.Prelude.{◌≡◌};
ghost use Rattle.ra_edit.specs.EditFaults.{of_command, of_shape};

use crate::command_fault::CommandFault;
use crate::edit_fault::EditFault;
use node_base::texts;
use thiserror::Error;

/// Why an item is read as no command.
#[derive(Clone, Copy, Debug, PartialEq, Eq, Drop, Error)]
pub enum ShapeFault {
    /// No editor command, a path, a property's name or a revision that is none (48).
    #[error("{}", texts::BAD_SHAPE)]
    BadShape,
    /// A growth was refused (70).
    #[error("{}", texts::OUT_OF_MEMORY)]
    OutOfMemory,
}

impl From<ShapeFault> for CommandFault {
    ghost from_gives = { λ f e. e ≡ of_shape f };

    fn from(fault: ShapeFault) -> CommandFault {
        match fault {
            ShapeFault::BadShape => CommandFault::BadShape,
            ShapeFault::OutOfMemory => CommandFault::OutOfMemory,
        }
    }
}

impl From<ShapeFault> for EditFault {
    ghost from_gives = { λ f e. e ≡ of_command (of_shape f) };

    fn from(fault: ShapeFault) -> EditFault {
        EditFault::from(CommandFault::from(fault))
    }
}
