//! Whether a mirror is one of a master.
ghost use Rattle.std.specs.Prelude.{◌≡◌};
ghost use Rattle.sync_core.specs.Identities.{is_identity};

use node_base::PropValue;
use std::cmp::Ordering;

/// Whether the identity that a mirror notes is the master's, byte by byte.
pub(crate) fn is_identity(uuid: &Option<PropValue>, found: &PropValue) -> bool
    ensures { result ≡ is_identity uuid.now found.now }
{
    match uuid {
        Some(own) => own.as_slice().cmp(&found.as_slice()) == Ordering::Equal,
        None => false,
    }
}
