//! Files that are looked at.

ghost use Rattle.std.specs.Prelude.{◌≡◌, ◌++◌, Some};
ghost use Rattle.hex.specs.Hex.{encode_lower};
ghost use Rattle.md5.specs.Md5.{md5};
ghost use Rattle.ra_wire.specs.Commands.{GetFile};
ghost use Rattle.ra_wire.specs.Replies.{string};
ghost use Rattle.browse_wire.specs.Asks.{Plain};
ghost use Rattle.ra_serve.specs.Tellings.{GivesMore};
ghost use Rattle.ra_denial.specs.Places.{place_as};
ghost use Rattle.ra_denial.specs.Stops.{PortStays};
ghost use Rattle.ra_denial.specs.Writing.{TellsBytes};
ghost use Rattle.ra_browse.specs.Answers.{file_found};
ghost use Rattle.ra_browse.specs.Writing.{Replies, seen_props, file_item, file_body, file_seen};
ghost use Rattle.ra_item.specs.Writing.{Writes, WritesItem};

use crate::look::{Seen, see};
use crate::pieces::write_props;
use browse_wire::url::SessionUrl;
use node_base::{Node, NodePath, Text};
use ra_denial::{Denial, deny, tell};
use ra_item::writer::{write_close, write_number, write_open, write_text};
use ra_serve::{RepoPort, ServeFault, hex_of, write_wanted};
use ra_wire::pieces::{write_end, write_name};
use std::alloc::Global;
use std::io;
use std::io::Write;

/// What of a node is wanted.
#[derive(Clone, Copy, Drop)]
pub struct Wanted {
    pub props: bool,
    pub contents: bool,
}

/// Answers `get-file`.
pub fn get_file<P: RepoPort, W: Write + Drop>(
    alloc: Global,
    port: &mut P,
    place: &SessionUrl,
    path: &NodePath,
    number: Option<u64>,
    wanted: Wanted,
    out: W,
) -> Result<W, ServeFault>
    ensures told { Replies P.RepoPort W.Write port.old port.new out (place_as place.now)
        (Plain (GetFile path.now number wanted.props wanted.contents)) result }
    ensures adds { GivesMore W.contents out result }
    ensures stays { PortStays P.RepoPort port.old port.new }
{
    match see(alloc, port, &place.path, path, number) {
        Ok(seen) => tell_file(&seen, wanted, out),
        Err(stop) => tell(stop, out),
    }
}

// Tells of what stands somewhere as of a file.
fn tell_file<W: Write + Drop>(seen: &Seen, wanted: Wanted, out: W) -> Result<W, ServeFault>
    ensures { TellsBytes W.Write out (file_seen wanted seen.now) result }
{
    let Some(node) = seen.node() else {
        return deny(Denial::NoPath, out);
    };
    let Some(text) = &node.text else {
        return deny(Denial::NotFile, out);
    };
    let mut out = out;
    write_found(&mut out, seen, node, text, wanted)?;
    Ok(out)
}

// A file with its text, where that is wanted.
fn write_found<W: Write>(
    out: &mut W,
    seen: &Seen,
    node: &Node,
    text: &Text,
    wanted: Wanted,
) -> io::Result<()>
    ensures { Writes W.Write out.old out.new (file_body wanted seen.now node.now text.now) result }
{
    write_summed(out, seen, node, text, wanted.props)?;
    write_wanted(out, text.as_slice(), wanted.contents)
}

// A file's sum, revision and properties.
fn write_summed<W: Write>(
    out: &mut W,
    seen: &Seen,
    node: &Node,
    text: &Text,
    props: bool,
) -> io::Result<()>
    ensures { WritesItem W.Write out.old out.new (file_found (encode_lower (md5 text.now)) seen.now.number
        (seen_props props seen.now node.now)) result }
{
    let sum = hex_of(text.sum());
    write_file(out, b"success", sum.as_slice(), seen, node, props)
}

// The same with the answer's name.
fn write_file<W: Write>(
    out: &mut W,
    name: &[u8],
    sum: &[u8],
    seen: &Seen,
    node: &Node,
    props: bool,
) -> io::Result<()>
    ensures { WritesItem W.Write out.old out.new (file_item name.now sum.now props seen.now node.now) result }
{
    write_name(out, name)?;
    write_sum(out, sum)?;
    write_number(out, u64::from(seen.number.get()))?;
    write_props(out, props, node, &seen.made, &seen.identity)?;
    write_end(out)
}

// A sum in brackets.
fn write_sum<W: Write>(out: &mut W, sum: &[u8]) -> io::Result<()>
    ensures { WritesItem W.Write out.old out.new (string (Some sum.now)) result }
{
    write_open(out)?;
    write_text(out, sum)?;
    write_close(out)
}
