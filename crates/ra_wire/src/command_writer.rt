//! What a client writes, in the one spelling that is written: one space behind each item and each bracket.
//!
//! Each `Err` is the writer's own; then some of the bytes may have been written.

ghost use Rattle.std.specs.Prelude.{◌≡◌, ◌∷◌, [], codes, true, Some, None};
ghost use Rattle.std.specs.Option.{option_map};
ghost use Rattle.ra_item.specs.Items.{Word, Number, Text};
ghost use Rattle.node_base.specs.PathText.{path_text};
ghost use Rattle.ra_wire.specs.Commands.{command_as, previous_as, truth_word};
ghost use Rattle.ra_wire.specs.Replies.{list, string, number_or_none};
ghost use Rattle.ra_wire.specs.Requests.{replacing, hello, anonymous, command_item};
ghost use Rattle.ra_item.specs.Writing.{WritesItem};
ghost use Rattle.ra_wire.specs.Writing.{WritesNamed};

use crate::command::{Command, Previous};
use crate::pieces::{
    write_end, write_name, write_number_or_none, write_one, write_path, write_text_or_none,
    write_truth,
};
use node_base::{NodePath, PropName};
use ra_item::writer::{write_close, write_number, write_open, write_text, write_word};
use std::io;
use std::io::Write;

// A version, a capability and a URL.
fn write_version<W: Write>(out: &mut W, capability: &[u8], url: &[u8]) -> io::Result<()>
    ensures { WritesItem W.Write out.old out.new
        (list (Number 2 ∷ list (Word capability.now ∷ []) ∷ Text url.now ∷ [])) result }
{
    write_open(out)?;
    write_number(out, 2)?;
    write_one(out, capability)?;
    write_text(out, url)?;
    write_close(out)
}

/// The client's greeting: version 2, its only capability, and the URL that it asks for.
pub fn write_hello<W: Write>(out: &mut W, url: &[u8]) -> io::Result<()>
    ensures { WritesItem W.Write out.old out.new (hello url.now) result }
{
    write_version(out, b"edit-pipeline", url)
}

// A mechanism and a token.
fn write_token<W: Write>(out: &mut W, mechanism: &[u8], token: &[u8]) -> io::Result<()>
    ensures { WritesItem W.Write out.old out.new
        (list (Word mechanism.now ∷ list (Text token.now ∷ []) ∷ [])) result }
{
    write_open(out)?;
    write_word(out, mechanism)?;
    write_open(out)?;
    write_text(out, token)?;
    write_close(out)?;
    write_close(out)
}

/// Says that the client is nobody.
pub fn write_anonymous<W: Write>(out: &mut W) -> io::Result<()>
    ensures { WritesItem W.Write out.old out.new anonymous result }
{
    write_token(out, b"ANONYMOUS", b"")
}

// A command without parameters.
fn write_bare<W: Write>(out: &mut W, name: &[u8]) -> io::Result<()>
    ensures { WritesNamed W.Write out.old out.new name.now [] result }
{
    write_name(out, name)?;
    write_end(out)
}

// A command of a path and a revision.
fn write_at<W: Write>(out: &mut W, name: &[u8], path: &NodePath, n: Option<u64>) -> io::Result<()>
    ensures { WritesNamed W.Write out.old out.new name.now
        (Text (path_text path.now) ∷ number_or_none n ∷ []) result }
{
    write_name(out, name)?;
    write_path(out, path)?;
    write_number_or_none(out, n)?;
    write_end(out)
}

// A command of a path, a revision, and what is wanted.
fn write_look<W: Write>(
    out: &mut W,
    name: &[u8],
    path: &NodePath,
    n: Option<u64>,
    props: bool,
    contents: bool,
) -> io::Result<()>
    ensures { WritesNamed W.Write out.old out.new name.now
        (Text (path_text path.now) ∷ number_or_none n ∷ Word (truth_word props) ∷ Word (truth_word contents) ∷ [])
        result }
{
    write_name(out, name)?;
    write_path(out, path)?;
    write_number_or_none(out, n)?;
    write_truth(out, props)?;
    write_truth(out, contents)?;
    write_end(out)
}

// A command of a revision.
fn write_numbered<W: Write>(out: &mut W, name: &[u8], n: u64) -> io::Result<()>
    ensures { WritesNamed W.Write out.old out.new name.now (Number n ∷ []) result }
{
    write_name(out, name)?;
    write_number(out, n)?;
    write_end(out)
}

// A command of a revision and a property's name.
fn write_property_of<W: Write>(out: &mut W, name: &[u8], n: u64, prop: &[u8]) -> io::Result<()>
    ensures { WritesNamed W.Write out.old out.new name.now (Number n ∷ Text prop.now ∷ []) result }
{
    write_name(out, name)?;
    write_number(out, n)?;
    write_text(out, prop)?;
    write_end(out)
}

// What a change replaces.
fn write_replacing<W: Write>(out: &mut W, old: &Previous) -> io::Result<()>
    ensures { WritesItem W.Write out.old out.new (replacing (previous_as old.now)) result }
{
    write_open(out)?;
    match old {
        Previous::Any => write_truth(out, true)?,
        Previous::Absent => write_truth(out, false)?,
        Previous::Value(value) => {
            write_truth(out, false)?;
            write_text(out, value.as_slice())?;
        }
    }
    write_close(out)
}

// A change of a property.
fn write_change<W: Write>(
    out: &mut W,
    name: &[u8],
    n: u64,
    prop: &PropName,
    value: &Option<Vec<u8>>,
    old: &Previous,
) -> io::Result<()>
    ensures { WritesNamed W.Write out.old out.new name.now
        (Number n ∷ Text prop.now ∷ string (option_map (λ v. v.items) value.now) ∷ replacing (previous_as old.now) ∷ [])
        result }
{
    write_name(out, name)?;
    write_number(out, n)?;
    write_text(out, prop.as_bytes())?;
    write_text_or_none(out, value)?;
    write_replacing(out, old)?;
    write_end(out)
}

// A replay of one revision, against revision 0 and with texts.
fn write_replay<W: Write>(out: &mut W, name: &[u8], n: u64) -> io::Result<()>
    ensures { WritesNamed W.Write out.old out.new name.now
        (Number n ∷ Number 0 ∷ Word (truth_word true) ∷ []) result }
{
    write_name(out, name)?;
    write_number(out, n)?;
    write_number(out, 0)?;
    write_truth(out, true)?;
    write_end(out)
}

// The same of several revisions.
fn write_range<W: Write>(out: &mut W, name: &[u8], start: u64, end: u64) -> io::Result<()>
    ensures { WritesNamed W.Write out.old out.new name.now
        (Number start ∷ Number end ∷ Number 0 ∷ Word (truth_word true) ∷ []) result }
{
    write_name(out, name)?;
    write_number(out, start)?;
    write_number(out, end)?;
    write_number(out, 0)?;
    write_truth(out, true)?;
    write_end(out)
}

/// A command. A change of a property is written as `change-rev-prop2`.
pub fn write_command<W: Write>(out: &mut W, command: &Command) -> io::Result<()>
    ensures { WritesItem W.Write out.old out.new (command_item (command_as command.now)) result }
{
    match command {
        Command::LatestRev => write_bare(out, b"get-latest-rev"),
        Command::CheckPath(path, n) => write_at(out, b"check-path", path, *n),
        Command::GetFile(path, n, props, contents) => {
            write_look(out, b"get-file", path, *n, *props, *contents)
        }
        Command::GetDir(path, n, props, contents) => {
            write_look(out, b"get-dir", path, *n, *props, *contents)
        }
        Command::RevProplist(n) => write_numbered(out, b"rev-proplist", *n),
        Command::RevProp(n, name) => write_property_of(out, b"rev-prop", *n, name.as_bytes()),
        Command::ChangeProp(n, name, value, old) => {
            write_change(out, b"change-rev-prop2", *n, name, value, old)
        }
        Command::Replay(n) => write_replay(out, b"replay", *n),
        Command::ReplayRange(start, end) => write_range(out, b"replay-range", *start, *end),
    }
}
