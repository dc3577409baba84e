//! The changed paths of a revision.

ghost use Rattle.std.specs.Prelude.{◌∷◌, [], map};
ghost use Rattle.ra_item.specs.Items.{Word};
ghost use Rattle.ra_wire.specs.Replies.{list};
ghost use Rattle.ra_log.specs.Entries.{copied_from, kind_item, path_item, change_with};
ghost use Rattle.ra_log.specs.Entries.{change_item, changes_told, changes_item};
ghost use Rattle.ra_item.specs.Writing.{WritesItem, WritesItems};

use crate::kind::kind_told;
use browse_wire::pieces::write_absolute;
use dump_load::{Change, ChangeSet};
use node_base::{NodeKind, NodePath, RevNo, Source};
use path_history::{ChangedPath, changed_path};
use path_tree::Tree;
use ra_item::writer::{write_close, write_number, write_open, write_word};
use ra_serve::ServeFault;
use ra_wire::pieces::{write_kind_text, write_none, write_truth};
use std::alloc::Global;
use std::io;
use std::io::Write;

// A letter for what a revision did.
fn write_letter<W: Write>(out: &mut W, letter: u8) -> io::Result<()>
    ensures { WritesItem W.Write out.old out.new (Word (letter ∷ [])) result }
{
    write_word(out, &[letter])
}

// Where a copy came from.
fn write_source<W: Write>(out: &mut W, source: &Option<Source>) -> io::Result<()>
    ensures { WritesItem W.Write out.old out.new (copied_from source.now) result }
{
    match source {
        None => write_none(out),
        Some(source) => {
            write_open(out)?;
            write_absolute(out, &source.path)?;
            write_number(out, u64::from(source.revision.get()))?;
            write_close(out)
        }
    }
}

// What a path is, and what of it changed.
fn write_changed<W: Write>(out: &mut W, kind: NodeKind, text: bool, props: bool) -> io::Result<()>
    ensures { WritesItem W.Write out.old out.new (kind_item kind text props) result }
{
    write_open(out)?;
    write_kind_text(out, kind)?;
    write_truth(out, text)?;
    write_truth(out, props)?;
    write_close(out)
}

// What a revision did to a path.
fn write_parts<W: Write>(
    out: &mut W,
    path: &NodePath,
    source: &Option<Source>,
    kind: NodeKind,
    told: ChangedPath,
) -> io::Result<()>
    ensures { WritesItem W.Write out.old out.new
        (path_item path.now told.letter source.now kind told.text told.props) result }
{
    write_open(out)?;
    write_absolute(out, path)?;
    write_letter(out, told.letter)?;
    write_source(out, source)?;
    write_changed(out, kind, told.text, told.props)?;
    write_close(out)
}

// The same by the change.
fn write_change<W: Write>(out: &mut W, kind: NodeKind, change: &Change) -> io::Result<()>
    ensures { WritesItem W.Write out.old out.new (change_with kind change.now) result }
{
    write_parts(
        out,
        &change.path,
        &change.source,
        kind,
        changed_path(change),
    )
}

// The same of a change of a revision's set.
fn write_told<W: Write>(
    alloc: Global,
    out: &mut W,
    trees: &[Tree],
    number: RevNo,
    set: &ChangeSet,
    change: &Change,
) -> Result<(), ServeFault>
    ensures { WritesItem W.Write out.old out.new (change_item trees.now number set.now change.now) result }
{
    let kind = kind_told(alloc, trees, number, set, change)?;
    write_change(out, kind, change)?;
    Ok(())
}

// The same of several changes.
fn write_each<W: Write>(
    alloc: Global,
    out: &mut W,
    trees: &[Tree],
    number: RevNo,
    set: &ChangeSet,
    changes: &[Change],
) -> Result<(), ServeFault>
    ensures { WritesItems W.Write out.old out.new (map (change_item trees.now number set.now) changes.now) result }
{
    for change in changes {
        write_told(alloc, out, trees, number, set, change)?;
    }
    Ok(())
}

// The same in brackets.
fn write_list<W: Write>(
    alloc: Global,
    out: &mut W,
    trees: &[Tree],
    number: RevNo,
    set: &ChangeSet,
    changes: &[Change],
) -> Result<(), ServeFault>
    ensures { WritesItem W.Write out.old out.new
        (list (map (change_item trees.now number set.now) changes.now)) result }
{
    write_open(out)?;
    write_each(alloc, out, trees, number, set, changes)?;
    write_close(out)?;
    Ok(())
}

// All changes of a revision's set, in brackets.
fn write_all<W: Write>(
    alloc: Global,
    out: &mut W,
    trees: &[Tree],
    number: RevNo,
    set: &ChangeSet,
) -> Result<(), ServeFault>
    ensures { WritesItem W.Write out.old out.new (list (changes_told trees.now number set.now)) result }
{
    write_list(alloc, out, trees, number, set, set.changes())
}

// Brackets with nothing.
fn write_no_changes<W: Write>(out: &mut W) -> Result<(), ServeFault>
    ensures { WritesItem W.Write out.old out.new (list []) result }
{
    write_none(out)?;
    Ok(())
}

/// The changed paths of a revision in the order of their paths, where they are wanted.
pub fn write_changes<W: Write>(
    alloc: Global,
    out: &mut W,
    wanted: bool,
    trees: &[Tree],
    number: RevNo,
    set: &ChangeSet,
) -> Result<(), ServeFault>
    ensures { WritesItem W.Write out.old out.new (changes_item wanted trees.now number set.now) result }
{
    if wanted {
        return write_all(alloc, out, trees, number, set);
    }
    write_no_changes(out)
}
