//! A set of changes, shown to an editor.
ghost use Rattle.std.specs.Prelude.{◌≡◌, ◌≤◌, ◌<◌, [], Some, None, length, false};
ghost use Rattle.std.specs.Prelude.{IfOk, IfErr, IsOk, OnOk};
ghost use Rattle.node_base.specs.Path.{is_front};
ghost use Rattle.node_base.specs.Limits.{fits};
ghost use Rattle.node_base.specs.declared.limits.TheConstants.{REVISION};
ghost use Rattle.delta_editor.specs.declared.fault.EditorFault.TheVariants.{OutOfMemory};
ghost use Rattle.dump_load.specs.Changes.{IsNormal};
ghost use Rattle.dump_load.specs.Effect.{effect};
ghost use Rattle.dump_load.specs.Faults.{fault};
ghost use Rattle.editor_ends.specs.Drive.{edit_calls};
ghost use Rattle.editor_ends.specs.Drive as calls;
ghost use Rattle.editor_ends.specs.Driven.{CanGoOn, Drives, Enters, FindsChild, GoesOn, HaltsAmong, HaltsFrom, HaltsInDrive};
ghost use Rattle.editor_ends.specs.Driven.{IsWalked, KeepsEffect, LeavesLater, MovesOn, RestsWith, StopsAmong};
ghost use Rattle.editor_ends.specs.Driven.{inner_calls, planned_calls};
ghost use Rattle.editor_ends.specs.Fronts.{above};
ghost use Rattle.editor_ends.specs.Refusals.{IsDriveRefusal};
ghost use Rattle.editor_ends.specs.Shown.{is_under, IsLater, IsNext};

use crate::parts::{base_of, show_dir, show_file};
use crate::plan::{Plan, advance};
use crate::progress::{Progress, Revision};
use crate::props::give_dir;
use delta_editor::{Editor, EditorFault};
use dump_load::{Change, ChangeSet, begin, next_number};
use node_base::{Action, NodePath, PathFault};
use path_tree::Tree;
use std::alloc::Global;

// Shows a change below the root. A directory stays open.
fn show_change<E: Editor>(
    trees: &[Tree],
    change: &Change,
    plan: &Plan,
    editor: &mut E,
    up: &mut E::Dir,
) -> Result<Option<E::Dir>, EditorFault>
    requires few { length trees.now ≤ REVISION }
    requires up { E.dir_path up.old ≡ above change.now.path }
    requires below_root { is_front change.now.path [] ≡ false }
    ensures shown { Drives E.Editor editor.old editor.new (planned_calls trees.now plan.now change.now) result }
    ensures stops { StopsAmong E.Editor editor.old (planned_calls trees.now plan.now change.now) result }
    ensures rests { RestsWith E.Editor plan.now.file change.now result }
    ensures up { E.dir_path up.new ≡ E.dir_path up.old }
    ensures began { E.began editor.new ≡ E.began editor.old }
{
    if let Action::Delete = change.action {
        editor.delete_entry(up, &change.path, base_of(trees))?;
        return Ok(None);
    }
    if plan.file {
        show_file(editor, up, trees, change, &plan.old)?;
        Ok(None)
    } else {
        Ok(Some(show_dir(editor, up, trees, change, &plan.old)?))
    }
}

// The directory on the way to the next change, which is opened, or that change, which is shown.
fn enter<E: Editor>(
    revision: &Revision<'_>,
    progress: &mut Progress,
    editor: &mut E,
    up: &mut E::Dir,
    path: &NodePath,
) -> Result<Option<E::Dir>, EditorFault>
    requires ready { CanGoOn revision.now progress.old }
    requires here { progress.old.next < length revision.now.set.now }
    requires child { IsNext revision.now.set.now progress.old.next (E.dir_path up.old) path.now }
    ensures walked { OnOk result (IsWalked revision.now progress.new) }
    ensures within { OnOk result (progress.new.next ≤ length revision.now.set.now) }
    ensures moved { MovesOn progress.old progress.new result }
    ensures later { LeavesLater revision.now progress.new (E.dir_path up.old) path.now result }
    ensures up { E.dir_path up.new ≡ E.dir_path up.old }
    ensures shown { Enters E.Editor revision.now progress.old progress.new editor.old editor.new
        (E.dir_path up.old) path.now result }
    ensures halts { HaltsFrom E.Editor revision.now progress.old editor.old (E.dir_path up.old) result }
    ensures began { E.began editor.new ≡ E.began editor.old }
{
    let set = revision.set;
    let change = &set[progress.next];
    if change.path.names().len() > path.names().len() {
        return Ok(Some(editor.open_dir(up, path, base_of(revision.trees))?));
    }
    let plan = advance(revision, progress)?;
    show_change(revision.trees, change, &plan, editor, up)
}

// The path right below a directory, on the way to the next change, where that is below the directory.
fn child_of(
    alloc: Global,
    set: &[Change],
    next: usize,
    at: &NodePath,
) -> Result<Option<NodePath>, EditorFault>
    requires later { IsLater set.now next at.now }
    ensures next { FindsChild set.now next at.now result }
    ensures memory { IfErr result (λ e. e ≡ OutOfMemory) }
{
    if next >= set.len() {
        return Ok(None);
    }
    let Some(rest) = node_base::rest_after(at.names(), set[next].path.names()) else {
        return Ok(None);
    };
    let Some((name, _)) = rest.split_first() else {
        unreachable!()
    };
    match at.child(alloc, name) {
        Ok(path) => Ok(Some(path)),
        Err(PathFault::OutOfMemory) => Err(EditorFault::OutOfMemory),
        Err(PathFault::TooLong) => unreachable!(),
        Err(PathFault::BadPath) => unreachable!(),
    }
}

// Shows the changes from the next one on that are below a directory, the innermost that is open.
fn show_below<E: Editor>(
    revision: &Revision<'_>,
    progress: &mut Progress,
    editor: &mut E,
    dir: &mut E::Dir,
    at: &NodePath,
) -> Result<(), EditorFault>
    requires ready { CanGoOn revision.now progress.old }
    requires within { progress.old.next ≤ length revision.now.set.now }
    requires at { E.dir_path dir.old ≡ at.now }
    requires later { IsLater revision.now.set.now progress.old.next at.now }
    ensures walked { OnOk result (IsWalked revision.now progress.new) }
    ensures within { OnOk result (progress.new.next ≤ length revision.now.set.now) }
    ensures moved { OnOk result (progress.old.next ≤ progress.new.next) }
    ensures baton { E.dir_path dir.new ≡ E.dir_path dir.old }
    ensures past { OnOk result (is_under revision.now.set.now progress.new.next at.now ≡ false) }
    ensures shown { GoesOn E.Editor revision.now progress.old progress.new editor.old editor.new at.now result }
    ensures halts { HaltsFrom E.Editor revision.now progress.old editor.old at.now result }
    ensures began { E.began editor.new ≡ E.began editor.old }
{
    loop {
        let path = match child_of(revision.alloc, revision.set, progress.next, at)? {
            None => return Ok(()),
            Some(path) => path,
        };
        let mut child = match enter(revision, progress, editor, dir, &path)? {
            None => continue,
            Some(child) => child,
        };
        match show_below(revision, progress, editor, &mut child, &path) {
            Ok(()) => editor.close_dir(child)?,
            Err(fault) => {
                editor.discard_dir(child);
                return Err(fault);
            }
        }
    }
}

// Shows the change of the root itself, where the set has one.
fn show_root<E: Editor>(
    revision: &Revision<'_>,
    progress: &mut Progress,
    editor: &mut E,
    root: &mut E::Dir,
) -> Result<(), EditorFault>
    requires ready { CanGoOn revision.now progress.old }
    requires first { progress.old.next ≡ 0 }
    requires at { E.dir_path root.old ≡ [] }
    ensures walked { OnOk result (IsWalked revision.now progress.new) }
    ensures within { OnOk result (progress.new.next ≤ length revision.now.set.now) }
    ensures later { OnOk result (IsLater revision.now.set.now progress.new.next []) }
    ensures baton { E.dir_path root.new ≡ E.dir_path root.old }
    ensures shown { GoesOn E.Editor revision.now progress.old progress.new editor.old editor.new [] result }
    ensures halts { HaltsFrom E.Editor revision.now progress.old editor.old [] result }
    ensures began { E.began editor.new ≡ E.began editor.old }
{
    let set = revision.set;
    if progress.next >= set.len() {
        return Ok(());
    }
    let change = &set[progress.next];
    if !change.path.is_root() {
        return Ok(());
    }
    // For the proof: the root of a tree is a directory.
    progress.tree.is_tree();
    let plan = advance(revision, progress)?;
    give_dir(editor, root, change, &plan.old)
}

// Shows all changes in the root that is open.
fn show_all<E: Editor>(
    revision: &Revision<'_>,
    editor: &mut E,
    root: &mut E::Dir,
) -> Result<(), EditorFault>
    requires few { length revision.now.trees.now ≤ REVISION }
    requires normal { IsNormal revision.now.set.now }
    requires at { E.dir_path root.old ≡ [] }
    ensures faultless { OnOk result (fault revision.now.trees.now revision.now.set.now ≡ None) }
    ensures baton { E.dir_path root.new ≡ E.dir_path root.old }
    ensures shown { Drives E.Editor editor.old editor.new (inner_calls revision.now) result }
    ensures halts { HaltsAmong E.Editor revision.now editor.old (inner_calls revision.now) result }
    ensures began { E.began editor.new ≡ E.began editor.old }
{
    let mut progress = Progress {
        next: 0,
        tree: begin(revision.alloc, revision.trees)?,
    };
    show_root(revision, &mut progress, editor, root)?;
    let at = NodePath::root(revision.alloc);
    show_below(revision, &mut progress, editor, root, &at)
}

// Shows the whole edit but its end.
fn show_edit<E: Editor>(revision: &Revision<'_>, editor: &mut E) -> Result<(), EditorFault>
    requires few { length revision.now.trees.now ≤ REVISION }
    requires normal { IsNormal revision.now.set.now }
    ensures faultless { OnOk result (fault revision.now.trees.now revision.now.set.now ≡ None) }
    ensures shown { Drives E.Editor editor.old editor.new (edit_calls revision.now.trees.now revision.now.set.now)
        result }
    ensures halts { HaltsInDrive E.Editor editor.old revision.now.trees.now revision.now.set.now result }
    ensures began { E.began editor.new ≡ E.began editor.old }
{
    editor.target(next_number(revision.trees))?;
    let mut root = editor.open_root(base_of(revision.trees))?;
    match show_all(revision, editor, &mut root) {
        Ok(()) => editor.close_dir(root),
        Err(fault) => {
            editor.discard_dir(root);
            Err(fault)
        }
    }
}

/// Shows changes, of which there may be any number, as the revision after these trees: the calls of `drive` but for the
/// end. Behind a refusal nothing of the edit is open, and the caller gives the editor up.
pub fn show_changes<E: Editor>(
    alloc: Global,
    trees: &[Tree],
    changes: &[Change],
    editor: &mut E,
) -> Result<(), EditorFault>
    requires few { length trees.now ≤ REVISION }
    requires normal { IsNormal changes.now }
    ensures faultless { OnOk result (fault trees.now changes.now ≡ None) }
    ensures shown { Drives E.Editor editor.old editor.new (edit_calls trees.now changes.now) result }
    ensures halts { HaltsInDrive E.Editor editor.old trees.now changes.now result }
    ensures began { E.began editor.new ≡ E.began editor.old }
{
    let revision = Revision {
        alloc,
        trees,
        set: changes,
    };
    show_edit(&revision, editor)
}

/// Shows a set of changes as the revision after these trees to an editor that was shown nothing yet, and gives what
/// the edit comes to.
///
/// The changes come in path order. Each directory is opened just above what changes in it, and closed when the next
/// path isn't under it. A deletion is one call, a replace is a deletion and an add. Properties that a change gives
/// are shown against those of the node that it begins with: a removal for each name that goes, then each new value,
/// both in the order of the names. A text is sent whole, in pieces of 65,536 bytes at most, and the close of its
/// file has its MD5.
///
/// Refused: with the set's first fault (8, 10 to 14, 17), for want of memory (70), and with what the editor may
/// answer at one of these calls after those before it. The editor is given up then.
pub fn drive<E: Editor>(
    alloc: Global,
    trees: &[Tree],
    set: &ChangeSet,
    editor: E,
) -> Result<E::Done, EditorFault>
    requires few { length trees.now ≤ REVISION }
    requires new { E.shows editor [] }
    ensures began { IfOk result (λ d. E.done_began d ≡ E.began editor) }
    ensures shown { IfOk result (λ d. E.done_shows d (calls.drive trees.now set.now)) }
    ensures faultless { OnOk result (fault trees.now set.now ≡ None) }
    ensures effect { OnOk result (KeepsEffect trees.now set.now) }
    ensures refused { IfErr result (IsDriveRefusal E.refuses (E.began editor) trees.now set.now) }
{
    let revision = Revision {
        alloc,
        trees,
        set: set.changes(),
    };
    let mut editor = editor;
    match show_edit(&revision, &mut editor) {
        Ok(()) => editor.close_edit(),
        Err(fault) => {
            editor.abort_edit();
            Err(fault)
        }
    }
}
