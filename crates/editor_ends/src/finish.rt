//! The set that the changes of an edit come to.
ghost use Rattle.std.specs.Prelude.{◌≡◌, IfOk, OnOk};
ghost use Rattle.std.specs.FinMap as map;
ghost use Rattle.editor_ends.specs.Building.{FinishesAs, KeepsLean, KeepsOn, RefusesToFinish};
ghost use Rattle.editor_ends.specs.Built.{filled, is_idle};

use delta_editor::EditorFault;
use dump_load::{Change, ChangeSet, settles};
use node_base::limits::CHANGES;
use path_tree::Tree;
use std::alloc::{AllocError, Global};

// A change with the properties and the text that it gave, as the tree has them.
fn filled(tree: &Tree, change: Change) -> Result<Change, AllocError>
    ensures { IfOk result (λ c. c ≡ filled (map.get tree.now) change) }
{
    let mut change = change;
    let Some(node) = tree.get(change.path.names()) else {
        return Ok(change);
    };
    if change.props.is_some() {
        change.props = Some(node.props.share()?);
    }
    if change.text.is_some() {
        if let Some(text) = &node.text {
            change.text = Some(text.share()?);
        }
    }
    Ok(change)
}

// Whether a change of what is there gives nothing, and another one is below it.
fn is_idle(change: &Change, next: &Change) -> bool
    ensures { result ≡ is_idle change.now next.now }
{
    !settles(change.action)
        && change.props.is_none()
        && change.text.is_none()
        && node_base::rest_after(change.path.names(), next.path.names()).is_some()
}

// The next change, in the place of the one before it where that only led to it.
fn keep(kept: &mut Vec<Change>, change: Change) -> Result<(), AllocError>
    ensures keeps { OnOk result (KeepsOn kept.old.items kept.new.items change) }
    ensures lean { OnOk result (KeepsLean kept.old.items kept.new.items change) }
{
    let Some(last) = kept.pop() else {
        kept.push(change)?;
        return Ok(());
    };
    if is_idle(&last, &change) {
        kept.push(change)?;
        return Ok(());
    }
    kept.push(last)?;
    kept.push(change)?;
    Ok(())
}

/// The set of changes in path order, with what they gave as the tree has it, and without those that only led to
/// others. Refused: more than 4,096 changes (8).
pub fn finish(alloc: Global, tree: &Tree, changes: Vec<Change>) -> Result<ChangeSet, EditorFault>
    ensures set { FinishesAs tree.now changes.items result }
    ensures refused { RefusesToFinish tree.now changes.items result }
{
    let mut kept: Vec<Change> = Vec::with_capacity(alloc, changes.len())?;
    for change in changes {
        keep(&mut kept, filled(tree, change)?)?;
    }
    if kept.len() > CHANGES {
        return Err(EditorFault::TooLong);
    }
    match ChangeSet::from_changes(kept) {
        Ok(set) => Ok(set),
        Err(_) => Err(EditorFault::OutOfOrder),
    }
}
