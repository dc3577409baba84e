//! Where a session stands.

ghost use Rattle.std.specs.Prelude.{◌≡◌, IfOk};
ghost use Rattle.ra_item.specs.Items.{spell};
ghost use Rattle.ra_wire.specs.Replies.{done};
ghost use Rattle.browse_wire.specs.Urls.{url_read};
ghost use Rattle.ra_denial.specs.Denials.{unless_denied};
ghost use Rattle.ra_denial.specs.Places.{moved_to, place_as, url_denied};
ghost use Rattle.ra_denial.specs.Writing.{TellsBytes};
ghost use Rattle.ra_browse.specs.Tellings.{MayMove};

use browse_wire::url::SessionUrl;
use ra_denial::{Stop, path_at, tell};
use ra_serve::ServeFault;
use ra_wire::reply_writer::write_done;
use std::alloc::Global;
use std::io::Write;

/// Answers `reparent`: the session stands at another URL of its root from then on.
pub fn reparent<W: Write + Drop>(
    alloc: Global,
    place: &mut SessionUrl,
    url: &[u8],
    out: W,
) -> Result<W, ServeFault>
    ensures told { TellsBytes W.Write out (unless_denied (url_denied (place_as place.old) (url_read url.now))
        (spell done)) result }
    ensures moved { IfOk result (λ _. place_as place.new ≡ moved_to (place_as place.old) (url_read url.now)) }
{
    match step(alloc, place, url) {
        Ok(()) => {
            let mut out = out;
            write_done(&mut out)?;
            Ok(out)
        }
        Err(stop) => tell(stop, out),
    }
}

// Goes to another URL.
fn step(alloc: Global, place: &mut SessionUrl, url: &[u8]) -> Result<(), Stop>
    ensures { MayMove (place_as place.old) (place_as place.new) (url_read url.now) result }
{
    match path_at(alloc, place, url) {
        Ok(path) => {
            place.path = path;
            Ok(())
        }
        Err(stop) => Err(stop),
    }
}
