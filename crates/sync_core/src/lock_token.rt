//! What stands in a mirror's lock, as it is told.
ghost use Rattle.std.specs.Prelude.{◌≡◌, IfOk};

use node_base::ShownToken;
use std::alloc::{AllocError, Global};
use std::fmt;

/// The token that a mirror's lock has: any bytes, since anybody can set a property. It is shown with `?` for each byte
/// that isn't printable ASCII.
#[derive(Debug, Drop)]
pub struct LockToken {
    pub bytes: Vec<u8>,
}

impl LockToken {
    /// The same token once more.
    pub fn copy(&self, alloc: Global) -> Result<LockToken, AllocError>
        ensures { IfOk result (λ t. t.bytes.items ≡ self.now.bytes.items) }
    {
        Ok(LockToken {
            bytes: Vec::from_slice(alloc, self.bytes.as_slice())?,
        })
    }
}

impl fmt::Display for LockToken {
    ghost use Rattle.std.specs.Prelude.{Some};
    ghost use Rattle.node_base.specs.Refusals.{shown_token};

    ghost output = { λ t. Some (shown_token t.bytes.items) };

    fn fmt<W: fmt::Write>(&self, f: &mut fmt::Formatter<W>) -> fmt::Result {
        write!(f, "{}", ShownToken(self.bytes.as_slice()))
    }
}
