//! What a server writes, in the one spelling that is written: one space behind each item and each bracket.
//!
//! Each `Err` is the writer's own; then some of the bytes may have been written.

ghost use Rattle.std.specs.Prelude.{◌≡◌, ◌++◌, ◌∷◌, [], codes, map, Some, None, if◌then◌else◌};
ghost use Rattle.std.specs.Option.{option_copied, option_map};
ghost use Rattle.std.specs.FinMap as finite;
ghost use Rattle.ra_item.specs.Items.{spell_all, row, Word, Number, Text};
ghost use Rattle.ra_wire.specs.Replies.{list, greeting, mechanisms, only_anonymous, welcome, authorised};
ghost use Rattle.ra_wire.specs.Replies.{done, number, failure, properties, proplist, revprops, string, value, kind_is};
ghost use Rattle.ra_wire.specs.Replies.{dirent, wanted_props, file_found, dir_found};
ghost use Rattle.ra_wire.specs.Answers.{dirent_as};
ghost use Rattle.ra_wire.specs.Commands.{truth_word};
ghost use Rattle.std.specs.List.{flat_map};
ghost use Rattle.ra_item.specs.Writing.{Writes, WritesItem};
ghost use Rattle.ra_wire.specs.Writing.{WritesNamed};

use crate::dirent::Dirent;
use crate::pieces::{
    write_end, write_kind_word, write_name, write_none, write_one, write_properties, write_string,
    write_text_or_none, write_truth, write_two,
};
use node_base::{NodeKind, NodeName, Props, RevNo};
use ra_item::writer::{write_close, write_number, write_open, write_text, write_word};
use std::io;
use std::io::Write;

/// A greeting of version 2, with its name and two capabilities.
pub fn write_versions<W: Write>(
    out: &mut W,
    name: &[u8],
    first: &[u8],
    second: &[u8],
) -> io::Result<()>
    ensures { WritesNamed W.Write out.old out.new name.now
        (Number 2 ∷ Number 2 ∷ list [] ∷ list (Word first.now ∷ Word second.now ∷ []) ∷ []) result }
{
    write_name(out, name)?;
    write_number(out, 2)?;
    write_number(out, 2)?;
    write_none(out)?;
    write_two(out, first, second)?;
    write_end(out)
}

/// The server's greeting: version 2 and its capabilities.
pub fn write_greeting<W: Write>(out: &mut W) -> io::Result<()>
    ensures { WritesItem W.Write out.old out.new greeting result }
{
    write_versions(out, b"success", b"edit-pipeline", b"atomic-revprops")
}

// A way and a realm.
fn write_way<W: Write>(out: &mut W, name: &[u8], way: &[u8], realm: &[u8]) -> io::Result<()>
    ensures { WritesNamed W.Write out.old out.new name.now (list (Word way.now ∷ []) ∷ Text realm.now ∷ []) result }
{
    write_name(out, name)?;
    write_one(out, way)?;
    write_text(out, realm)?;
    write_end(out)
}

/// The way in which a client may say who it is, and the realm.
pub fn write_mechanisms<W: Write>(out: &mut W, realm: &[u8]) -> io::Result<()>
    ensures { WritesItem W.Write out.old out.new (mechanisms realm.now) result }
{
    write_way(out, b"success", b"ANONYMOUS", realm)
}

// A text as an answer.
fn write_texted<W: Write>(out: &mut W, name: &[u8], text: &[u8]) -> io::Result<()>
    ensures { WritesNamed W.Write out.old out.new name.now (Text text.now ∷ []) result }
{
    write_name(out, name)?;
    write_text(out, text)?;
    write_end(out)
}

/// The answer to another way.
pub fn write_only_anonymous<W: Write>(out: &mut W) -> io::Result<()>
    ensures { WritesItem W.Write out.old out.new only_anonymous result }
{
    write_texted(out, b"failure", b"only ANONYMOUS")
}

// Two texts and empty brackets.
fn write_texts<W: Write>(out: &mut W, name: &[u8], first: &[u8], second: &[u8]) -> io::Result<()>
    ensures { WritesNamed W.Write out.old out.new name.now (Text first.now ∷ Text second.now ∷ list [] ∷ []) result }
{
    write_name(out, name)?;
    write_text(out, first)?;
    write_text(out, second)?;
    write_none(out)?;
    write_end(out)
}

/// The end of an opening: the repository's identity and URL.
pub fn write_welcome<W: Write>(out: &mut W, identity: &[u8], url: &[u8]) -> io::Result<()>
    ensures { WritesItem W.Write out.old out.new (welcome identity.now url.now) result }
{
    write_texts(out, b"success", identity, url)
}

// Empty brackets and a text.
fn write_asking<W: Write>(out: &mut W, name: &[u8], text: &[u8]) -> io::Result<()>
    ensures { WritesNamed W.Write out.old out.new name.now (list [] ∷ Text text.now ∷ []) result }
{
    write_name(out, name)?;
    write_none(out)?;
    write_text(out, text)?;
    write_end(out)
}

/// What stands before the answer to a command.
pub fn write_authorised<W: Write>(out: &mut W) -> io::Result<()>
    ensures { WritesItem W.Write out.old out.new authorised result }
{
    write_asking(out, b"success", b"")
}

/// An answer without content.
pub fn write_done<W: Write>(out: &mut W) -> io::Result<()>
    ensures { WritesItem W.Write out.old out.new done result }
{
    write_name(out, b"success")?;
    write_end(out)
}

// One refusal.
fn write_fault<W: Write>(out: &mut W, n: u8, text: &[u8]) -> io::Result<()>
    ensures { WritesItem W.Write out.old out.new (list (Number n ∷ Text text.now ∷ Text [] ∷ Number 0 ∷ [])) result }
{
    write_open(out)?;
    write_number(out, u64::from(n))?;
    write_text(out, text)?;
    write_text(out, b"")?;
    write_number(out, 0)?;
    write_close(out)
}

// The same with the answer's name.
fn write_refused<W: Write>(out: &mut W, name: &[u8], n: u8, text: &[u8]) -> io::Result<()>
    ensures { WritesNamed W.Write out.old out.new name.now
        (list (Number n ∷ Text text.now ∷ Text [] ∷ Number 0 ∷ []) ∷ []) result }
{
    write_name(out, name)?;
    write_fault(out, n, text)?;
    write_end(out)
}

/// A refusal, by its number and text.
pub fn write_failure<W: Write>(out: &mut W, n: u8, text: &[u8]) -> io::Result<()>
    ensures { WritesItem W.Write out.old out.new (failure n text.now) result }
{
    write_refused(out, b"failure", n, text)
}

// A number with the answer's name.
fn write_numbered<W: Write>(out: &mut W, name: &[u8], n: u64) -> io::Result<()>
    ensures { WritesNamed W.Write out.old out.new name.now (Number n ∷ []) result }
{
    write_name(out, name)?;
    write_number(out, n)?;
    write_end(out)
}

/// A number as an answer.
pub fn write_latest<W: Write>(out: &mut W, n: RevNo) -> io::Result<()>
    ensures { WritesItem W.Write out.old out.new (number n) result }
{
    write_numbered(out, b"success", u64::from(n.get()))
}

// A word with the answer's name.
fn write_worded<W: Write>(out: &mut W, name: &[u8], word: &[u8]) -> io::Result<()>
    ensures { WritesNamed W.Write out.old out.new name.now (Word word.now ∷ []) result }
{
    write_name(out, name)?;
    write_word(out, word)?;
    write_end(out)
}

/// What stands at a path.
pub fn write_kind<W: Write>(out: &mut W, kind: Option<NodeKind>) -> io::Result<()>
    ensures { WritesItem W.Write out.old out.new (kind_is kind) result }
{
    match kind {
        None => write_worded(out, b"success", b"none"),
        Some(NodeKind::File) => write_worded(out, b"success", b"file"),
        Some(NodeKind::Dir) => write_worded(out, b"success", b"dir"),
    }
}

// The same with the answer's name.
fn write_found<W: Write>(out: &mut W, name: &[u8], found: Option<&[u8]>) -> io::Result<()>
    ensures { WritesNamed W.Write out.old out.new name.now (string (option_copied found.entry) ∷ []) result }
{
    write_name(out, name)?;
    write_string(out, found)?;
    write_end(out)
}

/// The value of one property, or none.
pub fn write_value<W: Write>(out: &mut W, found: Option<&[u8]>) -> io::Result<()>
    ensures { WritesItem W.Write out.old out.new (value (option_copied found.entry)) result }
{
    write_found(out, b"success", found)
}

// The same with the answer's name.
fn write_all_named<W: Write>(out: &mut W, name: &[u8], props: &Props) -> io::Result<()>
    ensures { WritesNamed W.Write out.old out.new name.now (properties (finite.entries props.now) ∷ []) result }
{
    write_name(out, name)?;
    write_properties(out, props)?;
    write_end(out)
}

/// All properties of a revision as an answer.
pub fn write_proplist<W: Write>(out: &mut W, props: &Props) -> io::Result<()>
    ensures { WritesItem W.Write out.old out.new (proplist props.now) result }
{
    write_all_named(out, b"success", props)
}

// Properties behind a name.
fn write_behind<W: Write>(out: &mut W, name: &[u8], props: &Props) -> io::Result<()>
    ensures { WritesItem W.Write out.old out.new
        (list (Word name.now ∷ properties (finite.entries props.now) ∷ [])) result }
{
    write_open(out)?;
    write_word(out, name)?;
    write_properties(out, props)?;
    write_close(out)
}

/// All properties of a revision in front of its edit.
pub fn write_revprops<W: Write>(out: &mut W, props: &Props) -> io::Result<()>
    ensures { WritesItem W.Write out.old out.new (revprops props.now) result }
{
    write_behind(out, b"revprops", props)
}

/// Properties where they are wanted, and empty brackets where they aren't.
pub fn write_wanted<W: Write>(out: &mut W, props: &Props, wanted: bool) -> io::Result<()>
    ensures { WritesItem W.Write out.old out.new (wanted_props wanted props.now) result }
{
    if wanted {
        write_properties(out, props)
    } else {
        write_none(out)
    }
}

// A name of a file or a directory.
fn write_node_name<W: Write>(out: &mut W, name: &NodeName) -> io::Result<()>
    ensures { WritesItem W.Write out.old out.new (Text name.now) result }
{
    let text = name.as_str();
    write_text(out, text.as_bytes())
}

// What follows an entry's name, kind and size.
fn write_rest<W: Write>(
    out: &mut W,
    has_props: bool,
    created: u64,
    date: &Option<Vec<u8>>,
    author: &Option<Vec<u8>>,
) -> io::Result<()>
    ensures { Writes W.Write out.old out.new
        (spell_all (row (Word (truth_word has_props) ∷ Number created ∷ string (option_map (λ t. t.items) date.now)
        ∷ string (option_map (λ t. t.items) author.now) ∷ []))) result }
{
    write_truth(out, has_props)?;
    write_number(out, created)?;
    write_text_or_none(out, date)?;
    write_text_or_none(out, author)
}

/// An entry of a directory.
pub fn write_dirent<W: Write>(out: &mut W, entry: &Dirent) -> io::Result<()>
    ensures { WritesItem W.Write out.old out.new (dirent (dirent_as entry.now)) result }
{
    write_open(out)?;
    write_node_name(out, &entry.name)?;
    write_kind_word(out, entry.kind)?;
    write_number(out, entry.size)?;
    write_rest(
        out,
        entry.has_props,
        entry.created,
        &entry.date,
        &entry.author,
    )?;
    write_close(out)
}

// Entries one after another.
fn write_dirents<W: Write>(out: &mut W, entries: &[Dirent]) -> io::Result<()>
    ensures { Writes W.Write out.old out.new (spell_all (row (map dirent (map dirent_as entries.now)))) result }
{
    for entry in entries {
        write_dirent(out, entry)?;
    }
    Ok(())
}

// Entries in brackets.
fn write_entries<W: Write>(out: &mut W, entries: &[Dirent]) -> io::Result<()>
    ensures { WritesItem W.Write out.old out.new (list (map dirent (map dirent_as entries.now))) result }
{
    write_open(out)?;
    write_dirents(out, entries)?;
    write_close(out)
}

// A file's sum, revision and properties behind an answer's name.
fn write_file_named<W: Write>(
    out: &mut W,
    name: &[u8],
    sum: &[u8],
    n: RevNo,
    props: &Props,
    wanted: bool,
) -> io::Result<()>
    ensures { WritesNamed W.Write out.old out.new name.now
        (list (Text sum.now ∷ []) ∷ Number n ∷ wanted_props wanted props.now ∷ []) result }
{
    write_name(out, name)?;
    write_open(out)?;
    write_text(out, sum)?;
    write_close(out)?;
    write_number(out, u64::from(n.get()))?;
    write_wanted(out, props, wanted)?;
    write_end(out)
}

/// What a client is told of a file: the digits of its text's MD5, the revision, and its properties where they are
/// wanted.
pub fn write_file<W: Write>(
    out: &mut W,
    sum: &[u8],
    n: RevNo,
    props: &Props,
    wanted: bool,
) -> io::Result<()>
    ensures { WritesItem W.Write out.old out.new (file_found sum.now n wanted props.now) result }
{
    write_file_named(out, b"success", sum, n, props, wanted)
}

// A directory's revision, properties and entries behind an answer's name.
fn write_dir_named<W: Write>(
    out: &mut W,
    name: &[u8],
    n: RevNo,
    props: &Props,
    wanted: bool,
    entries: &[Dirent],
) -> io::Result<()>
    ensures { WritesNamed W.Write out.old out.new name.now
        (Number n ∷ wanted_props wanted props.now ∷ list (map dirent (map dirent_as entries.now)) ∷ []) result }
{
    write_name(out, name)?;
    write_number(out, u64::from(n.get()))?;
    write_wanted(out, props, wanted)?;
    write_entries(out, entries)?;
    write_end(out)
}

/// What a client is told of a directory: the revision, its properties where they are wanted, and its entries.
pub fn write_dir<W: Write>(
    out: &mut W,
    n: RevNo,
    props: &Props,
    wanted: bool,
    entries: &[Dirent],
) -> io::Result<()>
    ensures { WritesItem W.Write out.old out.new (dir_found n wanted props.now (map dirent_as entries.now)) result }
{
    write_dir_named(out, b"success", n, props, wanted, entries)
}
