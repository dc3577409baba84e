//! Directories that are looked at.

ghost use Rattle.std.specs.Prelude.{◌≡◌, ◌++◌, [], None, length, map, unwrap_or, MatchResult};
ghost use Rattle.ra_wire.specs.Answers.{dirent_as};
ghost use Rattle.ra_wire.specs.Commands.{GetDir};
ghost use Rattle.ra_wire.specs.Replies.{dirent, list};
ghost use Rattle.browse_wire.specs.Asks.{Plain};
ghost use Rattle.ra_serve.specs.Tellings.{GivesMore};
ghost use Rattle.ra_denial.specs.Places.{place_as};
ghost use Rattle.ra_denial.specs.Stops.{Finds, PortStays};
ghost use Rattle.ra_denial.specs.Writing.{TellsBytes};
ghost use Rattle.ra_browse.specs.Answers.{entry_of, entry_with};
ghost use Rattle.ra_browse.specs.Seeking.{FindsEntry};
ghost use Rattle.ra_browse.specs.Tellings.{made_as, AreEntries};
ghost use Rattle.ra_browse.specs.Writing.{Replies, dir_item, dir_seen};
ghost use Rattle.ra_item.specs.Writing.{WritesItem, WritesItems};

use crate::file::Wanted;
use crate::look::{Seen, see};
use crate::made::{Made, date_told, made_at};
use crate::pieces::write_props;
use browse_wire::url::SessionUrl;
use node_base::{Node, NodePath, Text};
use path_tree::{ChildNode, Children};
use ra_denial::{Denial, Stop, deny, tell};
use ra_item::writer::{write_close, write_number, write_open};
use ra_serve::{RepoPort, ServeFault};
use ra_wire::dirent::Dirent;
use ra_wire::pieces::{write_end, write_name};
use ra_wire::reply_writer::write_dirent;
use std::alloc::Global;
use std::io;
use std::io::Write;

/// Answers `get-dir`.
pub fn get_dir<P: RepoPort, W: Write + Drop>(
    alloc: Global,
    port: &mut P,
    place: &SessionUrl,
    path: &NodePath,
    number: Option<u64>,
    wanted: Wanted,
    out: W,
) -> Result<W, ServeFault>
    ensures told { Replies P.RepoPort W.Write port.old port.new out (place_as place.now)
        (Plain (GetDir path.now number wanted.props wanted.contents)) result }
    ensures adds { GivesMore W.contents out result }
    ensures stays { PortStays P.RepoPort port.old port.new }
{
    let seen = match see(alloc, port, &place.path, path, number) {
        Ok(seen) => seen,
        Err(stop) => return tell(stop, out),
    };
    match entries_wanted(alloc, port, &seen, wanted.contents) {
        Ok(entries) => tell_dir(&seen, wanted.props, entries.as_slice(), out),
        Err(stop) => tell(stop, out),
    }
}

// The entries of what was looked up, where they are wanted.
fn entries_wanted<P: RepoPort>(
    alloc: Global,
    port: &mut P,
    seen: &Seen,
    wanted: bool,
) -> Result<Vec<Dirent>, Stop>
    ensures found { Finds P.RepoPort (λ x. None)
        (λ x es. AreEntries x wanted seen.now.names.items seen.now.tree es.items) port.old port.new result }
    ensures stays { PortStays P.RepoPort port.old port.new }
{
    if !wanted {
        return Ok(Vec::new(alloc));
    }
    match seen.tree.children(alloc, seen.names.as_slice()) {
        Ok(children) => entries_of(alloc, port, children),
        Err(_) => Err(Stop::OutOfMemory),
    }
}

// The entries of children.
fn entries_of<P: RepoPort>(
    alloc: Global,
    port: &mut P,
    children: Children<'_>,
) -> Result<Vec<Dirent>, Stop>
    ensures found { Finds P.RepoPort (λ x. None)
        (λ x es. map dirent_as es.items ≡ map (entry_of x) children.entry) port.old port.new result }
    ensures stays { PortStays P.RepoPort port.old port.new }
{
    let mut children = children;
    let mut entries = Vec::new(alloc);
    for _ in 0..u64::MAX {
        match next_of(alloc, port, &mut children) {
            Ok(Some(entry)) => {
                if entries.push(entry).is_err() {
                    return Err(Stop::OutOfMemory);
                }
            }
            Ok(None) => return Ok(entries),
            Err(stop) => return Err(stop),
        }
    }
    Err(Stop::OutOfMemory)
}

// The entry of the next child.
fn next_of<P: RepoPort>(
    alloc: Global,
    port: &mut P,
    children: &mut Children<'_>,
) -> Result<Option<Dirent>, Stop>
    ensures found { FindsEntry P.RepoPort port.old port.new children.old children.new result }
    ensures stays { PortStays P.RepoPort port.old port.new }
{
    match children.next() {
        Ok(Some(child)) => match entry_of(alloc, port, &child) {
            Ok(entry) => Ok(Some(entry)),
            Err(stop) => Err(stop),
        },
        Ok(None) => Ok(None),
        Err(_) => Err(Stop::OutOfMemory),
    }
}

// The entry of a child.
fn entry_of<P: RepoPort>(alloc: Global, port: &mut P, child: &ChildNode<'_>) -> Result<Dirent, Stop>
    ensures found { Finds P.RepoPort (λ x. None)
        (λ x d. dirent_as d ≡ entry_of x (child.now.name.now, child.now.node.now)) port.old port.new result }
    ensures stays { PortStays P.RepoPort port.old port.new }
{
    match made_at(alloc, port, child.node.changed) {
        Ok(made) => entry_with(alloc, child, made),
        Err(stop) => Err(stop),
    }
}

// The same with when and by whom it was last changed.
fn entry_with(alloc: Global, child: &ChildNode<'_>, made: Made) -> Result<Dirent, Stop>
    ensures { MatchResult result (λ d. dirent_as d ≡ entry_with (child.now.name.now, child.now.node.now) (made_as made))
        (λ s. s ≡ Stop.OutOfMemory) }
{
    let node = child.node;
    let Made { date, author } = made;
    let Ok(date) = date_told(alloc, date) else {
        return Err(Stop::OutOfMemory);
    };
    match child.name.copy(alloc) {
        Ok(name) => Ok(Dirent {
            name,
            kind: node.kind(),
            size: size_of(&node.text),
            has_props: !node.props.is_empty(),
            created: u64::from(node.changed.get()),
            date,
            author,
        }),
        Err(_) => Err(Stop::OutOfMemory),
    }
}

// How long a text is, and 0 where there is none.
fn size_of(text: &Option<Text>) -> u64
    ensures { result ≡ length (unwrap_or text.now []) }
{
    match text {
        Some(text) => text.len() as u64,
        None => 0,
    }
}

// Tells of what stands somewhere as of a directory with these entries.
fn tell_dir<W: Write + Drop>(
    seen: &Seen,
    props: bool,
    entries: &[Dirent],
    out: W,
) -> Result<W, ServeFault>
    ensures { TellsBytes W.Write out (dir_seen props seen.now entries.now) result }
{
    let Some(node) = seen.node() else {
        return deny(Denial::NoPath, out);
    };
    if node.text.is_some() {
        return deny(Denial::NotDir, out);
    }
    let mut out = out;
    write_dir(&mut out, b"success", seen, node, props, entries)?;
    Ok(out)
}

// A directory's revision, properties and entries.
fn write_dir<W: Write>(
    out: &mut W,
    name: &[u8],
    seen: &Seen,
    node: &Node,
    props: bool,
    entries: &[Dirent],
) -> io::Result<()>
    ensures { WritesItem W.Write out.old out.new (dir_item name.now props seen.now node.now entries.now) result }
{
    write_name(out, name)?;
    write_number(out, u64::from(seen.number.get()))?;
    write_props(out, props, node, &seen.made, &seen.identity)?;
    write_entries(out, entries)?;
    write_end(out)
}

// Entries in brackets.
fn write_entries<W: Write>(out: &mut W, entries: &[Dirent]) -> io::Result<()>
    ensures { WritesItem W.Write out.old out.new (list (map dirent (map dirent_as entries.now))) result }
{
    write_open(out)?;
    write_all(out, entries)?;
    write_close(out)
}

// Entries one after another.
fn write_all<W: Write>(out: &mut W, entries: &[Dirent]) -> io::Result<()>
    ensures { WritesItems W.Write out.old out.new (map dirent (map dirent_as entries.now)) result }
{
    for entry in entries {
        write_dirent(out, entry)?;
    }
    Ok(())
}
