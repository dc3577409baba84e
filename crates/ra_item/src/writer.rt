//! The one spelling that is written: one space behind each item and each bracket, no leading zeros.
//!
//! Each `Err` is the writer's own; then some of the bytes may have been written.

ghost use Rattle.std.specs.Prelude.{◌≡◌, ◌+◌, [], ◌∷◌, ◌++◌, length, OnOk};
ghost use Rattle.std.specs.Fmt.{decimal};
ghost use Rattle.std.specs.Io.KnownBytes.{Appends};
ghost use Rattle.ra_item.specs.Items.{spell, spell_all, row, Word, Number, Text};

use crate::item::{Content, Item};
use std::io;
use std::io::Write;

/// Writes the bytes of a word, and a space. The caller sees to it that they are a word.
pub fn write_word<W: Write>(out: &mut W, word: &[u8]) -> io::Result<()>
    ensures { OnOk result (Appends (W.contents out.old) (W.contents out.new) (spell (Word word.now))) }
{
    out.write_all(word)?;
    out.write_all(b" ")
}

/// Writes a number, without leading zeros, and a space.
pub fn write_number<W: Write>(out: &mut W, n: u64) -> io::Result<()>
    ensures { OnOk result (Appends (W.contents out.old) (W.contents out.new) (spell (Number n))) }
{
    write!(out, "{n} ")
}

/// Writes the length of a string, a colon, its bytes, and a space.
pub fn write_text<W: Write>(out: &mut W, text: &[u8]) -> io::Result<()>
    ensures { OnOk result (Appends (W.contents out.old) (W.contents out.new) (spell (Text text.now))) }
{
    let n = text.len();
    write!(out, "{n}:")?;
    out.write_all(text)?;
    out.write_all(b" ")
}

/// Writes the bracket that opens a list, and a space.
pub fn write_open<W: Write>(out: &mut W) -> io::Result<()>
    ensures { OnOk result (Appends (W.contents out.old) (W.contents out.new) (40 ∷ 32 ∷ [])) }
{
    out.write_all(b"( ")
}

/// Writes the bracket that closes a list, and a space.
pub fn write_close<W: Write>(out: &mut W) -> io::Result<()>
    ensures { OnOk result (Appends (W.contents out.old) (W.contents out.new) (41 ∷ 32 ∷ [])) }
{
    out.write_all(b") ")
}

/// Writes an item, with one space behind it. What it writes is read as that item again, whatever follows.
pub fn write_item<W: Write>(out: &mut W, item: &Item) -> io::Result<()>
    ensures { OnOk result (Appends (W.contents out.old) (W.contents out.new) (spell item.now)) }
{
    match item.content() {
        Content::Word(word) => write_word(out, word),
        Content::Number(n) => write_number(out, *n),
        Content::Text(text) => write_text(out, text),
        Content::List(items) => {
            write_open(out)?;
            for part in items {
                write_item(out, part)?;
            }
            write_close(out)
        }
    }
}
