//! The properties of a node as they are told, with what is told beside them.
//!
//! Each `Err` is the writer's own; then some of the bytes may have been written.

ghost use Rattle.std.specs.Prelude.{map, true};
ghost use Rattle.std.specs.Option.{option_map};
ghost use Rattle.std.specs.Fmt.{decimal};
ghost use Rattle.uuid.specs.Text.{hyphenated_text, lower};
ghost use Rattle.ra_wire.specs.Replies.{property, properties};
ghost use Rattle.ra_browse.specs.Answers.{perhaps};
ghost use Rattle.ra_browse.specs.Writing.{added_props, node_props};
ghost use Rattle.ra_item.specs.Writing.{WritesItem, WritesItems};

use crate::made::Made;
use itoa::Buffer;
use node_base::Node;
use ra_item::writer::{write_close, write_open};
use ra_wire::pieces::{write_entries, write_none, write_property};
use std::io;
use std::io::Write;
use uuid::Uuid;

// A property that may be missing.
fn write_perhaps<W: Write>(out: &mut W, name: &[u8], value: &Option<Vec<u8>>) -> io::Result<()>
    ensures { WritesItems W.Write out.old out.new
        (map property (perhaps name.now (option_map (λ t. t.items) value.now))) result }
{
    match value {
        Some(value) => write_property(out, name, value.as_slice()),
        None => Ok(()),
    }
}

// The revision that last changed a node.
fn write_changed<W: Write>(out: &mut W, name: &[u8], number: u64) -> io::Result<()>
    ensures { WritesItem W.Write out.old out.new (property (name.now, decimal number)) result }
{
    let mut digits = Buffer::new();
    write_property(out, name, digits.format(number).as_bytes())
}

// A repository's identity.
fn write_identity<W: Write>(out: &mut W, name: &[u8], identity: &Uuid) -> io::Result<()>
    ensures { WritesItem W.Write out.old out.new (property (name.now, hyphenated_text lower identity.now)) result }
{
    let mut buffer = Uuid::encode_buffer();
    let text = identity.hyphenated().encode_lower(&mut buffer);
    write_property(out, name, text.as_bytes())
}

// What is told as properties beside a node's own.
fn write_entry<W: Write>(out: &mut W, node: &Node, made: &Made, identity: &Uuid) -> io::Result<()>
    ensures { WritesItems W.Write out.old out.new (map property (added_props identity.now node.now made.now)) result }
{
    let Made { date, author } = made;
    write_changed(
        out,
        b"svn:entry:committed-rev",
        u64::from(node.changed.get()),
    )?;
    write_perhaps(out, b"svn:entry:committed-date", date)?;
    write_perhaps(out, b"svn:entry:last-author", author)?;
    write_identity(out, b"svn:entry:uuid", identity)
}

/// A node's properties with what is told beside them, where they are wanted, and empty brackets where they aren't.
pub fn write_props<W: Write>(
    out: &mut W,
    wanted: bool,
    node: &Node,
    made: &Made,
    identity: &Uuid,
) -> io::Result<()>
    ensures { WritesItem W.Write out.old out.new
        (properties (node_props wanted identity.now node.now made.now)) result }
{
    if wanted {
        write_wanted(out, node, made, identity)
    } else {
        write_none(out)
    }
}

// The same where they are wanted.
fn write_wanted<W: Write>(out: &mut W, node: &Node, made: &Made, identity: &Uuid) -> io::Result<()>
    ensures { WritesItem W.Write out.old out.new (properties (node_props true identity.now node.now made.now)) result }
{
    write_open(out)?;
    write_entries(out, node.props.entries())?;
    write_entry(out, node, made, identity)?;
    write_close(out)
}
