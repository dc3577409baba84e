//! Why properties aren't read.

ghost use Rattle.std.specs.Prelude.{◌≡◌};

use crate::fault::WireFault;

/// Why properties aren't read.
#[derive(Clone, Copy, Debug, PartialEq, Eq, Drop)]
pub enum PropsFault {
    /// A value, or the properties together, are past their limit (8).
    TooLong,
    /// Another form, or a name that is no property's (48).
    BadShape,
    /// A growth was refused (70).
    OutOfMemory,
}

impl From<WireFault> for PropsFault {
    ghost use Rattle.ra_wire.specs.Limits.{of_wire};

    ghost from_gives = { λ f e. e ≡ of_wire f };

    fn from(fault: WireFault) -> PropsFault {
        match fault {
            WireFault::OutOfMemory => PropsFault::OutOfMemory,
            WireFault::ReplayForm => PropsFault::BadShape,
            WireFault::UnknownCommand => PropsFault::BadShape,
            WireFault::BadShape => PropsFault::BadShape,
        }
    }
}
