//! Commands of an editor in the one spelling that is written, item by item.
//!
//! Each `Err` is the writer's own; then some of the bytes may have been written.

ghost use Rattle.std.specs.Prelude.{◌≡◌, ◌<◌, ◌≤◌, ◌+◌, ℕ, List, [], ◌∷◌, ◌++◌, Some};
ghost use Rattle.std.specs.Prelude.{None, length};
ghost use Rattle.std.specs.Option.{option_copied};
ghost use Rattle.std.specs.Fmt.{decimal};
ghost use Rattle.hex.specs.Hex.{encode_lower};
ghost use Rattle.ra_item.specs.Items.{spell, Text, Number};
ghost use Rattle.node_base.specs.PathText.{path_text};
ghost use Rattle.ra_edit.specs.Names.{word_of};
ghost use Rattle.ra_edit.specs.declared.name.Name.TheVariants as word;
ghost use Rattle.ra_edit.specs.Commands.{list, command, revision, string, source, sum_text, token, chunk, parts};
ghost use Rattle.svndiff.specs.Spelling.{head, window};
ghost use Rattle.ra_item.specs.Writing.{Writes, WritesItem};
ghost use Rattle.ra_edit.specs.Written.{before_params, behind_params, chunks, WritesCommand};

use crate::name::Name;
use node_base::{NodePath, RevNo, Source};
use ra_item::writer::{write_close, write_number, write_open, write_text, write_word};
use std::io;
use std::io::Write;
use svndiff::writer::{PIECE, window_size, write_window};

/// What stands in front of a command's parameters.
fn write_name<W: Write>(out: &mut W, name: Name) -> io::Result<()>
    ensures { Writes W.Write out.old out.new (before_params (word_of name)) result }
{
    write_open(out)?;
    write_word(out, name.word().as_bytes())?;
    write_open(out)
}

/// What stands behind a command's parameters.
fn write_end<W: Write>(out: &mut W) -> io::Result<()>
    ensures { Writes W.Write out.old out.new behind_params result }
{
    write_close(out)?;
    write_close(out)
}

/// How many digits a number is written with.
fn digit_count(n: u64) -> u32
    ensures digits { result ≡ length (decimal n) }
    ensures small { result ≤ 20 }
{
    if n < 10 { 1 } else { digit_count(n / 10) + 1 }
}

/// A token.
fn write_token<W: Write>(out: &mut W, n: u64) -> io::Result<()>
    ensures { WritesItem W.Write out.old out.new (Text (token n)) result }
{
    let len = digit_count(n) + 1;
    write!(out, "{len}:t{n} ")
}

/// A path.
fn write_path<W: Write>(out: &mut W, path: &NodePath) -> io::Result<()>
    ensures { WritesItem W.Write out.old out.new (Text (path_text path.now)) result }
{
    let len = path.text_len();
    write!(out, "{len}:{path} ")
}

/// A revision that may be missing.
fn write_revision<W: Write>(out: &mut W, base: Option<RevNo>) -> io::Result<()>
    ensures { WritesItem W.Write out.old out.new (revision base) result }
{
    match base {
        Some(base) => {
            let number = base.get();
            write!(out, "( {number} ) ")
        }
        None => out.write_all(b"( ) "),
    }
}

/// A string that may be missing.
fn write_string<W: Write>(out: &mut W, value: Option<&[u8]>) -> io::Result<()>
    ensures { WritesItem W.Write out.old out.new (string (option_copied value.entry)) result }
{
    match value {
        Some(value) => {
            write_open(out)?;
            write_text(out, value)?;
            write_close(out)
        }
        None => out.write_all(b"( ) "),
    }
}

/// Where a copy comes from.
fn write_source<W: Write>(out: &mut W, from: Option<&Source>) -> io::Result<()>
    ensures { WritesItem W.Write out.old out.new (source (option_copied from.entry)) result }
{
    match from {
        Some(from) => {
            let len = from.path.text_len() + 1;
            let path = &from.path;
            let number = from.revision.get();
            write!(out, "( {len}:/{path} {number} ) ")
        }
        None => out.write_all(b"( ) "),
    }
}

/// A sum in 32 hexadecimal digits, in lower case.
fn hex_of(sum: [u8; 16]) -> [u8; 32]
    ensures { result ≡ encode_lower sum }
{
    let mut digits = [0; 32];
    let written = hex::encode_to_slice(sum.as_slice(), &mut digits);
    written.unwrap();
    digits
}

/// A sum that may be missing.
fn write_sum<W: Write>(out: &mut W, sum: Option<[u8; 16]>) -> io::Result<()>
    ensures { WritesItem W.Write out.old out.new (string (sum_text sum)) result }
{
    match sum {
        Some(sum) => {
            let digits = hex_of(sum);
            write_string(out, Some(digits.as_slice()))
        }
        None => write_string(out, None),
    }
}

/// A command that says a number: the revision that is shown.
pub fn write_numbered<W: Write>(out: &mut W, name: Name, number: u16) -> io::Result<()>
    ensures { WritesCommand W.Write out.old out.new name (Number number ∷ []) result }
{
    write_name(out, name)?;
    write_number(out, u64::from(number))?;
    write_end(out)
}

/// The root is opened.
pub fn write_open_root<W: Write>(
    out: &mut W,
    name: Name,
    base: Option<RevNo>,
    child: u64,
) -> io::Result<()>
    ensures { WritesCommand W.Write out.old out.new name (revision base ∷ Text (token child) ∷ []) result }
{
    write_name(out, name)?;
    write_revision(out, base)?;
    write_token(out, child)?;
    write_end(out)
}

/// A directory or a file is added, as the name of the command says.
pub fn write_add<W: Write>(
    out: &mut W,
    name: Name,
    path: &NodePath,
    up: u64,
    child: u64,
    from: Option<&Source>,
) -> io::Result<()>
    ensures { WritesCommand W.Write out.old out.new name
        (Text (path_text path.now) ∷ Text (token up) ∷ Text (token child) ∷ source (option_copied from.entry) ∷ [])
        result }
{
    write_name(out, name)?;
    write_path(out, path)?;
    write_token(out, up)?;
    write_token(out, child)?;
    write_source(out, from)?;
    write_end(out)
}

/// A directory or a file is opened, as the name of the command says.
pub fn write_open_node<W: Write>(
    out: &mut W,
    name: Name,
    path: &NodePath,
    up: u64,
    child: u64,
    base: Option<RevNo>,
) -> io::Result<()>
    ensures { WritesCommand W.Write out.old out.new name
        (Text (path_text path.now) ∷ Text (token up) ∷ Text (token child) ∷ revision base ∷ []) result }
{
    write_name(out, name)?;
    write_path(out, path)?;
    write_token(out, up)?;
    write_token(out, child)?;
    write_revision(out, base)?;
    write_end(out)
}

/// An entry is deleted.
pub fn write_delete<W: Write>(
    out: &mut W,
    name: Name,
    path: &NodePath,
    base: Option<RevNo>,
    up: u64,
) -> io::Result<()>
    ensures { WritesCommand W.Write out.old out.new name
        (Text (path_text path.now) ∷ revision base ∷ Text (token up) ∷ []) result }
{
    write_name(out, name)?;
    write_path(out, path)?;
    write_revision(out, base)?;
    write_token(out, up)?;
    write_end(out)
}

/// A property gets a value or is removed, a directory's or a file's, as the name of the command says.
pub fn write_prop<W: Write>(
    out: &mut W,
    name: Name,
    at: u64,
    prop: &[u8],
    value: Option<&[u8]>,
) -> io::Result<()>
    ensures { WritesCommand W.Write out.old out.new name
        (Text (token at) ∷ Text prop.now ∷ string (option_copied value.entry) ∷ []) result }
{
    write_name(out, name)?;
    write_token(out, at)?;
    write_text(out, prop)?;
    write_string(out, value)?;
    write_end(out)
}

/// A command that names a file and has empty brackets behind it.
fn write_start<W: Write>(out: &mut W, name: Name, file: u64) -> io::Result<()>
    ensures { WritesCommand W.Write out.old out.new name (Text (token file) ∷ list [] ∷ []) result }
{
    write_name(out, name)?;
    write_token(out, file)?;
    out.write_all(b"( ) ")?;
    write_end(out)
}

/// A chunk of these bytes.
fn write_bytes<W: Write>(out: &mut W, name: Name, file: u64, bytes: &[u8]) -> io::Result<()>
    ensures { WritesCommand W.Write out.old out.new name (Text (token file) ∷ Text bytes.now ∷ []) result }
{
    write_name(out, name)?;
    write_token(out, file)?;
    write_text(out, bytes)?;
    write_end(out)
}

/// A text begins: the command, and a chunk with the four bytes in front of all windows.
pub fn write_text_start<W: Write>(out: &mut W, file: u64) -> io::Result<()>
    ensures { Writes W.Write out.old out.new
        (spell (command (word_of word.ApplyTextdelta) (Text (token file) ∷ list [] ∷ []))
        ++ spell (chunk (Text (token file)) head)) result }
{
    write_start(out, Name::ApplyTextdelta, file)?;
    write_bytes(out, Name::TextdeltaChunk, file, b"SVN\x00")
}

/// A window as a string, of at most 65,536 bytes of a text. `Err` where the writer failed.
pub fn write_window_text<W: Write>(out: &mut W, bytes: &[u8]) -> io::Result<()>
    requires { length bytes.now ≤ 65536 }
    ensures { WritesItem W.Write out.old out.new (Text (window bytes.now)) result }
{
    let len = window_size(bytes.len() as u32);
    write!(out, "{len}:")?;
    write_window(out, bytes)?;
    out.write_all(b" ")
}

/// A window in a chunk of its own.
fn write_chunk<W: Write>(out: &mut W, name: Name, file: u64, bytes: &[u8]) -> io::Result<()>
    requires { length bytes.now ≤ 65536 }
    ensures { WritesCommand W.Write out.old out.new name (Text (token file) ∷ Text (window bytes.now) ∷ []) result }
{
    write_name(out, name)?;
    write_token(out, file)?;
    write_window_text(out, bytes)?;
    write_end(out)
}

/// A piece of a text, window by window.
pub fn write_piece<W: Write>(out: &mut W, file: u64, piece: &[u8]) -> io::Result<()>
    ensures { Writes W.Write out.old out.new (chunks file (parts piece.now)) result }
{
    let mut rest = piece;
    while rest.len() > 0 {
        let (part, behind) = rest.split_at(rest.len().min(PIECE));
        write_chunk(out, Name::TextdeltaChunk, file, part)?;
        rest = behind;
    }
    Ok(())
}

/// A command that names what is open and says no more: a text ends, or a directory is closed.
pub fn write_ended<W: Write>(out: &mut W, name: Name, at: u64) -> io::Result<()>
    ensures { WritesCommand W.Write out.old out.new name (Text (token at) ∷ []) result }
{
    write_name(out, name)?;
    write_token(out, at)?;
    write_end(out)
}

/// A file is closed.
pub fn write_close_file<W: Write>(
    out: &mut W,
    name: Name,
    file: u64,
    sum: Option<[u8; 16]>,
) -> io::Result<()>
    ensures { WritesCommand W.Write out.old out.new name (Text (token file) ∷ string (sum_text sum) ∷ []) result }
{
    write_name(out, name)?;
    write_token(out, file)?;
    write_sum(out, sum)?;
    write_end(out)
}

/// A command that says nothing more: the end of an edit.
pub fn write_bare<W: Write>(out: &mut W, name: Name) -> io::Result<()>
    ensures { WritesCommand W.Write out.old out.new name [] result }
{
    write_name(out, name)?;
    write_end(out)
}
