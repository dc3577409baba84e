//! Pieces of what is written: paths behind a slash.
//!
//! Each `Err` is the writer's own; then some of the bytes may have been written.

ghost use Rattle.std.specs.Prelude.{OnOk};
ghost use Rattle.std.specs.Io.KnownBytes.{Appends};
ghost use Rattle.ra_item.specs.Items.{spell, Text};
ghost use Rattle.browse_wire.specs.Told.{absolute};

use node_base::NodePath;
use std::io;
use std::io::Write;

/// A path behind a slash.
pub fn write_absolute<W: Write>(out: &mut W, path: &NodePath) -> io::Result<()>
    ensures { OnOk result (Appends (W.contents out.old) (W.contents out.new) (spell (Text (absolute path.now)))) }
{
    let len = path.text_len() + 1;
    write!(out, "{len}:/{path} ")
}
