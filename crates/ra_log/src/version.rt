//! The versions of a file.

ghost use Rattle.std.specs.Prelude.{◌≡◌, [], None, unwrap_or};
ghost use Rattle.std.specs.Option.{option_copied, option_map};
ghost use Rattle.std.specs.FinMap as finite;
ghost use Rattle.ra_log.specs.Rows.{head_in, versions_in};
ghost use Rattle.ra_log.specs.Versions.{prop_item, had, gone_of, gone_told, given_of, given_told, props_told, head_told};
ghost use Rattle.ra_log.specs.Versions.{windows_told, delta_told, is_same, text_told, text_behind, props_of, text_of};
ghost use Rattle.ra_log.specs.Versions.{version_told};
ghost use Rattle.ra_item.specs.Writing.{Writes, WritesItem};

use crate::rows::LogRows;
use browse_wire::pieces::write_absolute;
use node_base::{Node, PropName, PropValue, Props};
use path_history::Place;
use ra_edit::write_window_text;
use ra_edit::writer::PIECE;
use ra_item::writer::{write_close, write_number, write_open, write_text};
use ra_wire::pieces::{write_properties, write_string, write_truth};
use std::io;
use std::io::Write;

// A property that has another value, or is gone.
fn write_prop<W: Write>(out: &mut W, name: &[u8], value: Option<&[u8]>) -> io::Result<()>
    ensures { WritesItem W.Write out.old out.new (prop_item name.now (option_map (λ v. v.now) value.entry)) result }
{
    write_open(out)?;
    write_text(out, name)?;
    write_string(out, value)?;
    write_close(out)
}

// A property of a name that is gone.
fn write_gone_of<W: Write>(out: &mut W, name: &[u8], new: &Props) -> io::Result<()>
    ensures { Writes W.Write out.old out.new (gone_of new.now name.now) result }
{
    if new.contains(name) {
        return Ok(());
    }
    write_prop(out, name, None)
}

// Of some properties those that are gone.
fn write_gone<W: Write>(
    out: &mut W,
    entries: &[(PropName, PropValue)],
    new: &Props,
) -> io::Result<()>
    ensures { Writes W.Write out.old out.new (gone_told new.now entries.now) result }
{
    let Some((first, others)) = entries.split_first() else {
        return Ok(());
    };
    write_gone_of(out, first.0.as_bytes(), new)?;
    write_gone(out, others, new)
}

// Whether a property had a value.
fn had(old: &Props, name: &[u8], value: &[u8]) -> bool
    ensures { result ≡ had old.now name.now value.now }
{
    match old.get(name) {
        Some(before) => before == value,
        None => false,
    }
}

// A property, where it hadn't that value.
fn write_given_of<W: Write>(out: &mut W, name: &[u8], value: &[u8], old: &Props) -> io::Result<()>
    ensures { Writes W.Write out.old out.new (given_of old.now name.now value.now) result }
{
    if had(old, name, value) {
        return Ok(());
    }
    write_prop(out, name, Some(value))
}

// Of some properties those that hadn't their values.
fn write_given<W: Write>(
    out: &mut W,
    entries: &[(PropName, PropValue)],
    old: &Props,
) -> io::Result<()>
    ensures { Writes W.Write out.old out.new (given_told old.now entries.now) result }
{
    let Some((first, others)) = entries.split_first() else {
        return Ok(());
    };
    write_given_of(out, first.0.as_bytes(), first.1.as_slice(), old)?;
    write_given(out, others, old)
}

// Which properties of a node are other ones than before.
fn write_props<W: Write>(out: &mut W, old: &Props, new: &Props) -> io::Result<()>
    ensures { Writes W.Write out.old out.new (props_told old.now new.now) result }
{
    write_open(out)?;
    write_gone(out, old.entries(), new)?;
    write_given(out, new.entries(), old)?;
    write_close(out)
}

// Where a version stands, and what it is beside its text.
fn write_head<W: Write>(
    out: &mut W,
    place: &Place,
    revision: &Props,
    old: &Props,
    new: &Props,
) -> io::Result<()>
    ensures { Writes W.Write out.old out.new (head_told place.now revision.now old.now new.now) result }
{
    write_open(out)?;
    write_absolute(out, &place.path)?;
    write_number(out, u64::from(place.revision.get()))?;
    write_properties(out, revision)?;
    write_props(out, old, new)?;
    write_truth(out, false)?;
    write_close(out)
}

// A text in windows, each a string.
fn write_windows<W: Write>(out: &mut W, text: &[u8]) -> io::Result<()>
    ensures { Writes W.Write out.old out.new (windows_told text.now) result }
{
    let mut rest = text;
    while rest.len() > 0 {
        let (part, behind) = rest.split_at(rest.len().min(PIECE));
        write_window_text(out, part)?;
        rest = behind;
    }
    Ok(())
}

// The same behind the four bytes in front of all windows.
fn write_delta<W: Write>(out: &mut W, text: &[u8]) -> io::Result<()>
    ensures { Writes W.Write out.old out.new (delta_told text.now) result }
{
    write_text(out, b"SVN\x00")?;
    write_windows(out, text)
}

// Whether a text is the one before it.
fn is_same(old: Option<&[u8]>, new: &[u8]) -> bool
    ensures { result ≡ is_same (option_map (λ v. v.now) old.entry) new.now }
{
    match old {
        Some(old) => old == new,
        None => false,
    }
}

// A text, where it isn't the one before it, and its end.
fn write_text_told<W: Write>(out: &mut W, old: Option<&[u8]>, new: &[u8]) -> io::Result<()>
    ensures { Writes W.Write out.old out.new (text_told (option_map (λ v. v.now) old.entry) new.now) result }
{
    if !is_same(old, new) {
        write_delta(out, new)?;
    }
    write_text(out, b"")
}

// The properties of what stands somewhere; none where nothing does.
fn props_of<'a>(node: Option<&'a Node>, none: &'a Props) -> &'a Props
    requires { none.now ≡ finite.empty }
    ensures { result.now ≡ props_of (option_copied node.entry) }
{
    match node {
        Some(node) => &node.props,
        None => none,
    }
}

// Its text, where it is a file.
fn text_of<'a>(node: Option<&'a Node>) -> Option<&'a [u8]>
    ensures { option_map (λ v. v.now) result ≡ text_of (option_copied node.entry) }
{
    match &node?.text {
        Some(text) => Some(text.as_slice()),
        None => None,
    }
}

// A text that may be missing, where it isn't the one before it, and its end.
fn write_text_if<W: Write>(out: &mut W, old: Option<&[u8]>, new: Option<&[u8]>) -> io::Result<()>
    ensures { Writes W.Write out.old out.new
        (text_told (option_map (λ v. v.now) old.entry) (unwrap_or (option_map (λ v. v.now) new.entry) [])) result }
{
    match new {
        Some(new) => write_text_told(out, old, new),
        None => write_text_told(out, old, b""),
    }
}

// The text of what stands somewhere, by what stood there before.
fn write_text_of<W: Write>(out: &mut W, old: Option<&Node>, new: Option<&Node>) -> io::Result<()>
    ensures { Writes W.Write out.old out.new (text_behind (option_copied old.entry) (option_copied new.entry)) result }
{
    write_text_if(out, text_of(old), text_of(new))
}

// What a version is beside its text, by what stood there before.
fn write_node<W: Write>(
    out: &mut W,
    rows: &LogRows,
    place: &Place,
    old: Option<&Node>,
    new: Option<&Node>,
) -> io::Result<()>
    ensures { Writes W.Write out.old out.new
        (head_in rows.now (option_copied old.entry) (option_copied new.entry) place.now) result }
{
    let none = Props::empty();
    let revision = rows.props(place.revision).unwrap_or(&none);
    write_head(
        out,
        place,
        revision,
        props_of(old, &none),
        props_of(new, &none),
    )
}

// A version, by what stood there before.
fn write_version<W: Write>(
    out: &mut W,
    rows: &LogRows,
    place: &Place,
    old: Option<&Node>,
    new: Option<&Node>,
) -> io::Result<()>
    ensures { Writes W.Write out.old out.new (version_told rows.now.props.items (option_copied old.entry)
        (option_copied new.entry) place.now) result }
{
    write_node(out, rows, place, old, new)?;
    write_text_of(out, old, new)
}

/// The versions of a file at these places, oldest first: of each its path and its revision, the revision's properties,
/// which properties of the file are other ones than those of the version before it, and its text where that is another
/// one than before. `Err` where the writer failed; then some of the bytes may have been written.
pub fn write_versions<W: Write>(out: &mut W, rows: &LogRows, places: &[Place]) -> io::Result<()>
    ensures { Writes W.Write out.old out.new (versions_in rows.now places.now) result }
{
    let mut old = None;
    for place in places {
        let new = rows.node(place);
        write_version(out, rows, place, old, new)?;
        old = new;
    }
    Ok(())
}
