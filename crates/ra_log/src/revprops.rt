//! The properties of a revision that an entry tells.

ghost use Rattle.std.specs.Prelude.{◌≡◌, ◌∷◌, [], false, map, length};
ghost use Rattle.std.specs.List.{list_any};
ghost use Rattle.std.specs.Option.{option_copied};
ghost use Rattle.std.specs.Str.{bytes_eq};
ghost use Rattle.std.specs.FinMap as finite;
ghost use Rattle.ra_item.specs.Items.{Number};
ghost use Rattle.ra_wire.specs.Replies.{string, property, properties};
ghost use Rattle.browse_wire.specs.Asks.{revprops_as};
ghost use Rattle.ra_log.specs.Entries.{is_usual, wants, value_told, is_other, others_of, others_in};
ghost use Rattle.ra_log.specs.Entries.{usual_told, others_told, revprops_told};
ghost use Rattle.ra_item.specs.Writing.{WritesItem, WritesItems};

use browse_wire::ask::RevpropsWanted;
use node_base::{PropName, PropValue, Props};
use ra_item::writer::{write_close, write_number, write_open};
use ra_wire::pieces::{write_property, write_string, write_truth};
use std::io;
use std::io::Write;

// Whether a name is one of these.
fn is_one_of(name: &[u8], names: &[Vec<u8>]) -> bool
    ensures { result ≡ list_any (λ t. bytes_eq name.now t.items) names.now }
{
    for one in names {
        if name == one.as_slice() {
            return true;
        }
    }
    false
}

// Whether a property has a place of its own in an entry.
fn is_usual(name: &[u8]) -> bool
    ensures { result ≡ is_usual name.now }
{
    name == b"svn:author".as_slice()
        || name == b"svn:date".as_slice()
        || name == b"svn:log".as_slice()
}

// Whether a property is wanted.
fn wants(wanted: &RevpropsWanted, name: &[u8]) -> bool
    ensures { result ≡ wants (revprops_as wanted.now) name.now }
{
    match wanted {
        RevpropsWanted::Usual => is_usual(name),
        RevpropsWanted::Every => true,
        RevpropsWanted::These(names) => is_one_of(name, names.as_slice()),
    }
}

// The value of a property, where it is wanted.
fn value_told<'a>(wanted: &RevpropsWanted, props: &'a Props, name: &[u8]) -> Option<&'a [u8]>
    ensures { option_copied result ≡ value_told (revprops_as wanted.now) props.now name.now }
{
    if wants(wanted, name) {
        return props.get(name);
    }
    None
}

// The value of a property that has a place of its own in an entry, where it is wanted.
fn write_value<W: Write>(
    out: &mut W,
    wanted: &RevpropsWanted,
    props: &Props,
    name: &[u8],
) -> io::Result<()>
    ensures { WritesItem W.Write out.old out.new
        (string (value_told (revprops_as wanted.now) props.now name.now)) result }
{
    write_string(out, value_told(wanted, props, name))
}

// A revision's author, date and message.
fn write_usual<W: Write>(out: &mut W, wanted: &RevpropsWanted, props: &Props) -> io::Result<()>
    ensures { WritesItems W.Write out.old out.new (usual_told (revprops_as wanted.now) props.now) result }
{
    write_value(out, wanted, props, b"svn:author")?;
    write_value(out, wanted, props, b"svn:date")?;
    write_value(out, wanted, props, b"svn:log")
}

// Whether a property is wanted that has no place of its own in an entry.
fn is_other(wanted: &RevpropsWanted, name: &[u8]) -> bool
    ensures { result ≡ is_other (revprops_as wanted.now) name.now }
{
    wants(wanted, name) && !is_usual(name)
}

// How many other properties are wanted.
fn count_others(wanted: &RevpropsWanted, entries: &[(PropName, PropValue)]) -> usize
    ensures { result ≡ length (others_of (revprops_as wanted.now) entries.now) }
{
    let mut count = 0;
    for (name, _) in entries {
        if is_other(wanted, name.as_bytes()) {
            count += 1;
        }
    }
    count
}

// A property, where it is wanted and has no place of its own in an entry.
fn write_other<W: Write>(
    out: &mut W,
    wanted: &RevpropsWanted,
    name: &[u8],
    value: &[u8],
) -> io::Result<()>
    ensures { WritesItems W.Write out.old out.new
        (map property (others_of (revprops_as wanted.now) ((name.now, value.now) ∷ []))) result }
{
    if is_other(wanted, name) {
        return write_property(out, name, value);
    }
    Ok(())
}

// The others, one behind another.
fn write_each<W: Write>(
    out: &mut W,
    wanted: &RevpropsWanted,
    entries: &[(PropName, PropValue)],
) -> io::Result<()>
    ensures { WritesItems W.Write out.old out.new
        (map property (others_of (revprops_as wanted.now) entries.now)) result }
{
    for (name, value) in entries {
        write_other(out, wanted, name.as_bytes(), value.as_slice())?;
    }
    Ok(())
}

// How many of a revision's properties are others.
fn count_of(wanted: &RevpropsWanted, props: &Props) -> usize
    ensures { result ≡ length (others_in (revprops_as wanted.now) props.now) }
{
    count_others(wanted, props.entries())
}

// The same as a number.
fn write_count<W: Write>(out: &mut W, wanted: &RevpropsWanted, props: &Props) -> io::Result<()>
    ensures { WritesItem W.Write out.old out.new
        (Number (length (others_in (revprops_as wanted.now) props.now))) result }
{
    write_number(out, count_of(wanted, props) as u64)
}

// The others in brackets.
fn write_listed<W: Write>(
    out: &mut W,
    wanted: &RevpropsWanted,
    entries: &[(PropName, PropValue)],
) -> io::Result<()>
    ensures { WritesItem W.Write out.old out.new (properties (others_of (revprops_as wanted.now) entries.now)) result }
{
    write_open(out)?;
    write_each(out, wanted, entries)?;
    write_close(out)
}

// Those of a revision's properties.
fn write_others<W: Write>(out: &mut W, wanted: &RevpropsWanted, props: &Props) -> io::Result<()>
    ensures { WritesItem W.Write out.old out.new (properties (others_in (revprops_as wanted.now) props.now)) result }
{
    write_listed(out, wanted, props.entries())
}

// The flags behind an entry's message, and its other properties.
fn write_flags<W: Write>(out: &mut W, wanted: &RevpropsWanted, props: &Props) -> io::Result<()>
    ensures { WritesItems W.Write out.old out.new (others_told (revprops_as wanted.now) props.now) result }
{
    write_truth(out, false)?;
    write_truth(out, false)?;
    write_count(out, wanted, props)?;
    write_others(out, wanted, props)?;
    write_truth(out, false)
}

/// What an entry tells of a revision's properties: its author, its date and its message, three flags that are false,
/// and between them how many other properties there are, and these; of each those that are wanted.
pub fn write_props<W: Write>(out: &mut W, wanted: &RevpropsWanted, props: &Props) -> io::Result<()>
    ensures { WritesItems W.Write out.old out.new (revprops_told (revprops_as wanted.now) props.now) result }
{
    write_usual(out, wanted, props)?;
    write_flags(out, wanted, props)
}
