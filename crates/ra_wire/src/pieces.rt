//! Pieces of what is written: names with brackets, words, strings that may be missing, properties, paths, kinds.
//!
//! Each `Err` is the writer's own; then some of the bytes may have been written.

ghost use Rattle.std.specs.Prelude.{◌≡◌, ◌++◌, ◌∷◌, [], ℕ, map, Some, None};
ghost use Rattle.std.specs.Option.{option_copied, option_map};
ghost use Rattle.std.specs.FinMap as finite;
ghost use Rattle.ra_item.specs.Items.{spell_all, row, Word, Number, Text};
ghost use Rattle.node_base.specs.PathText.{path_text};
ghost use Rattle.ra_wire.specs.Commands.{truth_word};
ghost use Rattle.ra_wire.specs.Replies.{before, behind, list, node_kind_word, number_or_none};
ghost use Rattle.ra_wire.specs.Replies.{properties, property, string};
ghost use Rattle.ra_item.specs.Writing.{Writes, WritesItem};

use node_base::{NodeKind, NodePath, PropName, PropValue, Props};
use ra_item::writer::{write_close, write_number, write_open, write_text, write_word};
use std::io;
use std::io::Write;

/// What stands in front of an answer's content.
pub fn write_name<W: Write>(out: &mut W, name: &[u8]) -> io::Result<()>
    ensures { Writes W.Write out.old out.new (before name.now) result }
{
    write_open(out)?;
    write_word(out, name)?;
    write_open(out)
}

/// What stands behind it.
pub fn write_end<W: Write>(out: &mut W) -> io::Result<()>
    ensures { Writes W.Write out.old out.new behind result }
{
    write_close(out)?;
    write_close(out)
}

/// Brackets without anything.
pub fn write_none<W: Write>(out: &mut W) -> io::Result<()>
    ensures { WritesItem W.Write out.old out.new (list []) result }
{
    out.write_all(b"( ) ")
}

/// One word in brackets.
pub fn write_one<W: Write>(out: &mut W, word: &[u8]) -> io::Result<()>
    ensures { WritesItem W.Write out.old out.new (list (Word word.now ∷ [])) result }
{
    write_open(out)?;
    write_word(out, word)?;
    write_close(out)
}

/// Two words in brackets.
pub fn write_two<W: Write>(out: &mut W, first: &[u8], second: &[u8]) -> io::Result<()>
    ensures { WritesItem W.Write out.old out.new (list (Word first.now ∷ Word second.now ∷ [])) result }
{
    write_open(out)?;
    write_word(out, first)?;
    write_word(out, second)?;
    write_close(out)
}

/// Brackets with a string or nothing.
pub fn write_string<W: Write>(out: &mut W, found: Option<&[u8]>) -> io::Result<()>
    ensures { WritesItem W.Write out.old out.new (string (option_copied found.entry)) result }
{
    match found {
        None => write_none(out),
        Some(found) => {
            write_open(out)?;
            write_text(out, found)?;
            write_close(out)
        }
    }
}

/// A property.
pub fn write_property<W: Write>(out: &mut W, name: &[u8], found: &[u8]) -> io::Result<()>
    ensures { WritesItem W.Write out.old out.new (property (name.now, found.now)) result }
{
    write_open(out)?;
    write_text(out, name)?;
    write_text(out, found)?;
    write_close(out)
}

/// Properties one after another.
pub fn write_entries<W: Write>(out: &mut W, entries: &[(PropName, PropValue)]) -> io::Result<()>
    ensures { Writes W.Write out.old out.new (spell_all (row (map property entries.now))) result }
{
    let Some((first, others)) = entries.split_first() else {
        return Ok(());
    };
    write_property(out, first.0.as_bytes(), first.1.as_slice())?;
    write_entries(out, others)
}

/// Properties in brackets.
pub fn write_properties<W: Write>(out: &mut W, props: &Props) -> io::Result<()>
    ensures { WritesItem W.Write out.old out.new (properties (finite.entries props.now)) result }
{
    write_open(out)?;
    write_entries(out, props.entries())?;
    write_close(out)
}

/// A number in brackets, or empty brackets.
pub fn write_number_or_none<W: Write>(out: &mut W, n: Option<u64>) -> io::Result<()>
    ensures { WritesItem W.Write out.old out.new (number_or_none n) result }
{
    match n {
        None => write_none(out),
        Some(n) => {
            write_open(out)?;
            write_number(out, n)?;
            write_close(out)
        }
    }
}

/// A word that is true or false.
pub fn write_truth<W: Write>(out: &mut W, b: bool) -> io::Result<()>
    ensures { WritesItem W.Write out.old out.new (Word (truth_word b)) result }
{
    if b {
        out.write_all(b"true ")
    } else {
        out.write_all(b"false ")
    }
}

/// A path.
pub fn write_path<W: Write>(out: &mut W, path: &NodePath) -> io::Result<()>
    ensures { WritesItem W.Write out.old out.new (Text (path_text path.now)) result }
{
    let len = path.text_len();
    write!(out, "{len}:{path} ")
}

/// Brackets that are empty or hold a value.
pub fn write_text_or_none<W: Write>(out: &mut W, value: &Option<Vec<u8>>) -> io::Result<()>
    ensures { WritesItem W.Write out.old out.new (string (option_map (λ v. v.items) value.now)) result }
{
    match value {
        None => write_none(out),
        Some(value) => {
            write_open(out)?;
            write_text(out, value.as_slice())?;
            write_close(out)
        }
    }
}

/// A kind of a node as a word.
pub fn write_kind_word<W: Write>(out: &mut W, kind: NodeKind) -> io::Result<()>
    ensures { WritesItem W.Write out.old out.new (Word (node_kind_word kind)) result }
{
    match kind {
        NodeKind::File => write_word(out, b"file"),
        NodeKind::Dir => write_word(out, b"dir"),
    }
}

/// A kind of a node as a string.
pub fn write_kind_text<W: Write>(out: &mut W, kind: NodeKind) -> io::Result<()>
    ensures { WritesItem W.Write out.old out.new (Text (node_kind_word kind)) result }
{
    match kind {
        NodeKind::File => write_text(out, b"file"),
        NodeKind::Dir => write_text(out, b"dir"),
    }
}
