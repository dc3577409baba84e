//! Directories that are told, entry by entry.

ghost use Rattle.std.specs.Prelude.{◌≡◌, [], length, is_none, map, IfOk};
ghost use Rattle.std.specs.Io.KnownBytes.{Appends};
ghost use Rattle.std.specs.FinMap as finite;
ghost use Rattle.ra_item.specs.Items.{spell};
ghost use Rattle.ra_wire.specs.Answers.{dirent_as};
ghost use Rattle.ra_wire.specs.Replies.{dirent};
ghost use Rattle.ra_serve.specs.Answers.{dir_told, entries_wanted, entry_of, item_due};
ghost use Rattle.ra_serve.specs.Directories.{front_of, spelt, told_of, whole, whole_told, LeavesRoom};
ghost use Rattle.ra_item.specs.Writing.{Writes};
ghost use Rattle.ra_serve.specs.Tellings.{Sends};

use crate::fault::ServeFault;
use crate::told::{no_such_path, not_a_directory, too_long};
use node_base::{Node, NodeName, NodePath, RevNo};
use path_tree::{ChildNode, Children, Tree};
use ra_item::writer::{write_number, write_open, write_word};
use ra_wire::dirent::Dirent;
use ra_wire::reply_writer::{write_dirent, write_wanted};
use std::alloc::{AllocError, Global};
use std::io;
use std::io::Write;

// How long an answer may be, with the space behind it and without the brackets that close it.
const ROOM: usize = 33_554_427;

/// Tells of what stands at a path as of a directory. The entries are gone through twice, for their length and then
/// to write them, so that no answer is composed whole.
pub fn tell_dir<W: Write + Drop>(
    alloc: Global,
    tree: &Tree,
    path: &NodePath,
    number: RevNo,
    props: bool,
    contents: bool,
    out: W,
) -> Result<W, ServeFault>
    ensures { IfOk result (λ w. Appends (W.contents out) (W.contents w)
        (dir_told number props contents path.now tree.now)) }
{
    let Some(node) = tree.get(path.names()) else {
        return no_such_path(out);
    };
    if node.text.is_some() {
        return not_a_directory(out);
    }
    let Ok(front) = front_of(alloc, node, number, props) else {
        return Err(ServeFault::OutOfMemory);
    };
    tell_entries(alloc, tree, path, contents, front.as_slice(), out)
}

// What stands before the entries.
fn front_of(alloc: Global, node: &Node, number: RevNo, props: bool) -> io::Result<Vec<u8>>
    ensures { IfOk result (λ v. v.items ≡ front_of number props node.now.props) }
{
    let mut front = Vec::new(alloc);
    write_front(&mut front, node, u64::from(number.get()), props)?;
    Ok(front)
}

// The same to a writer.
fn write_front<W: Write>(out: &mut W, node: &Node, number: u64, props: bool) -> io::Result<()>
    ensures { Writes W.Write out.old out.new (front_of number props node.now.props) result }
{
    out.write_all(b"( success ( ")?;
    write_number(out, number)?;
    write_wanted(out, &node.props, props)?;
    write_open(out)
}

// Sends an answer behind its front, or tells that it is too long (8).
fn tell_entries<W: Write + Drop>(
    alloc: Global,
    tree: &Tree,
    path: &NodePath,
    wanted: bool,
    front: &[u8],
    out: W,
) -> Result<W, ServeFault>
    ensures { Sends W.contents out (whole_told front.now (entries_wanted wanted path.now tree.now)) result }
{
    let children = children_wanted(alloc, tree, path, wanted)?;
    if !have_room(alloc, children, front)? {
        return too_long(out);
    }
    let children = children_wanted(alloc, tree, path, wanted)?;
    let mut out = out;
    write_entries(alloc, children, front, &mut out)?;
    Ok(out)
}

// What lies right in a directory, where it is wanted.
fn children_wanted<'a>(
    alloc: Global,
    tree: &'a Tree,
    path: &NodePath,
    wanted: bool,
) -> Result<Children<'a>, AllocError>
    ensures { IfOk result (λ cs. told_of cs ≡ entries_wanted wanted path.now tree.now) }
{
    if wanted {
        tree.children(alloc, path.names())
    } else {
        Ok(Children::none(alloc))
    }
}

// Whether an answer with these entries behind this front isn't too long.
fn have_room(alloc: Global, children: Children<'_>, front: &[u8]) -> Result<bool, AllocError>
    ensures { IfOk result (λ b. b ≡ is_none (item_due (whole front.now (told_of children.entry)))) }
{
    if front.len() > ROOM {
        return Ok(false);
    }
    let left = room_behind(alloc, children, ROOM - front.len())?;
    Ok(left.is_some())
}

// How much room is left behind these entries, if they have it.
fn room_behind(
    alloc: Global,
    children: Children<'_>,
    room: usize,
) -> Result<Option<usize>, AllocError>
    ensures { LeavesRoom room (spelt (told_of children.entry)) result }
{
    let mut children = children;
    let mut left = room;
    while let Some(child) = children.next()? {
        let Some(less) = left.checked_sub(width_of(alloc, &child)?) else {
            return Ok(None);
        };
        left = less;
    }
    Ok(Some(left))
}

// How many bytes an entry takes.
fn width_of(alloc: Global, child: &ChildNode<'_>) -> Result<usize, AllocError>
    ensures { IfOk result (λ n. n ≡ length (spell (dirent (entry_of child.now.node.now child.now.name.now)))) }
{
    let entry = entry_of(alloc, child.node, child.name)?;
    let mut bytes = Vec::new(alloc);
    let Ok(()) = write_dirent(&mut bytes, &entry) else {
        return Err(AllocError);
    };
    Ok(bytes.len())
}

// A front, these entries behind it, and the brackets that close the answer.
fn write_entries<W: Write>(
    alloc: Global,
    children: Children<'_>,
    front: &[u8],
    out: &mut W,
) -> Result<(), ServeFault>
    ensures { Writes W.Write out.old out.new (whole front.now (told_of children.entry)) result }
{
    out.write_all(front)?;
    write_children(alloc, children, out)?;
    Ok(out.write_all(b") ) ) ")?)
}

// These entries, one after another.
fn write_children<W: Write>(
    alloc: Global,
    children: Children<'_>,
    out: &mut W,
) -> Result<(), ServeFault>
    ensures { Writes W.Write out.old out.new (spelt (told_of children.entry)) result }
{
    let mut children = children;
    while let Some(child) = children.next()? {
        write_child(alloc, &child, out)?;
    }
    Ok(())
}

// One of them.
fn write_child<W: Write>(
    alloc: Global,
    child: &ChildNode<'_>,
    out: &mut W,
) -> Result<(), ServeFault>
    ensures { Writes W.Write out.old out.new (spell (dirent (entry_of child.now.node.now child.now.name.now))) result }
{
    let entry = entry_of(alloc, child.node, child.name)?;
    Ok(write_dirent(out, &entry)?)
}

// An entry of a directory.
fn entry_of(alloc: Global, node: &Node, name: &NodeName) -> Result<Dirent, AllocError>
    ensures { IfOk result (λ d. dirent_as d ≡ entry_of node.now name.now) }
{
    let size = match &node.text {
        Some(text) => text.len() as u64,
        None => 0,
    };
    Ok(Dirent {
        name: name.copy(alloc)?,
        kind: node.kind(),
        size,
        has_props: !node.props.is_empty(),
        created: u64::from(node.changed.get()),
        date: None,
        author: None,
    })
}
