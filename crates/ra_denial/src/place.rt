//! Where a session stands.

ghost use Rattle.std.specs.Prelude.{◌≡◌};
ghost use Rattle.browse_wire.specs.Urls.{url_read};
ghost use Rattle.ra_denial.specs.Places.{place_as, url_denied, moved_to, url_stop};
ghost use Rattle.ra_denial.specs.Stops.{Decides};

use crate::denial::Denial;
use crate::stop::Stop;
use browse_wire::url::{SessionUrl, UrlFault};
use node_base::NodePath;
use std::alloc::Global;

/// The path of another URL of the session's root.
pub fn path_at(alloc: Global, place: &SessionUrl, url: &[u8]) -> Result<NodePath, Stop>
    ensures { Decides (url_denied (place_as place.now) (url_read url.now))
        (λ p. p ≡ (moved_to (place_as place.now) (url_read url.now)).1) result }
{
    match place.path_of(alloc, url) {
        Ok(path) => Ok(path),
        Err(fault) => Err(stop_of(fault)),
    }
}

// Why the session stays where it is.
fn stop_of(fault: UrlFault) -> Stop
    ensures { result ≡ url_stop fault }
{
    match fault {
        UrlFault::OutOfMemory => Stop::OutOfMemory,
        UrlFault::OtherRoot => Stop::Denied(Denial::OtherRoot),
        _ => Stop::Denied(Denial::BadUrl),
    }
}
