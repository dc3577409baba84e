//! What has to be known of a change before it is made.
ghost use Rattle.std.specs.Prelude.{◌≡◌, ◌<◌, ◌+◌, ◌∷◌, [], length, Some, None, false};
ghost use Rattle.std.specs.Prelude.{IfOk, IfErr, OnOk};
ghost use Rattle.std.specs.FinMap as map;
ghost use Rattle.dump_load.specs.declared.change.Change.{Change};
ghost use Rattle.dump_load.specs.Faults.{fault_of};
ghost use Rattle.editor_ends.specs.Drive.{of_file, old_props};
ghost use Rattle.editor_ends.specs.Driven.{CanGoOn, IsFaultless, IsWalked, Plans};
ghost use Rattle.editor_ends.specs.Shown.{IsOwn};

use crate::progress::{Progress, Revision};
use delta_editor::EditorFault;
use dump_load::{Change, fault_of, judged, source_node, step};
use node_base::{NodeKind, Props};
use path_tree::Tree;
use std::alloc::AllocError;

/// What is known of a change before it is made.
#[derive(Drop)]
pub struct Plan {
    /// Whether it is one of a file.
    pub file: bool,
    /// The properties of what it begins with.
    pub old: Props,
}

fn is_of_file(trees: &[Tree], tree: &Tree, change: &Change) -> bool
    ensures { result ≡ of_file trees.now (map.get tree.now) change.now }
{
    match judged(trees, tree, change) {
        Some(NodeKind::File) => true,
        Some(NodeKind::Dir) => false,
        None => false,
    }
}

fn old_props(trees: &[Tree], tree: &Tree, change: &Change) -> Result<Props, AllocError>
    ensures { IfOk result (λ p. p ≡ old_props trees.now (map.get tree.now) change.now) }
{
    let node = if change.brings() {
        match &change.source {
            None => None,
            Some(source) => source_node(trees, source),
        }
    } else {
        tree.get(change.path.names())
    };
    match node {
        None => Ok(Props::empty()),
        Some(node) => node.props.share(),
    }
}

/// Makes the next change in the tree that those before it left, where it has no fault there.
pub fn advance(revision: &Revision<'_>, progress: &mut Progress) -> Result<Plan, EditorFault>
    requires ready { CanGoOn revision.now progress.old }
    requires here { progress.old.next < length revision.now.set.now }
    ensures walked { OnOk result (IsWalked revision.now progress.new) }
    ensures next { OnOk result (progress.new.next ≡ progress.old.next + 1) }
    ensures plan { Plans revision.now progress.old result }
    ensures faultless { OnOk result (IsFaultless revision.now progress.old) }
    ensures own { IfErr result (IsOwn revision.now.trees.now revision.now.set.now) }
{
    let trees = revision.trees;
    let set = revision.set;
    let change = &set[progress.next];
    if let Some(fault) = fault_of(trees, &progress.tree, change) {
        return Err(EditorFault::from(fault));
    }
    let plan = Plan {
        file: is_of_file(trees, &progress.tree, change),
        old: old_props(trees, &progress.tree, change)?,
    };
    step(revision.alloc, trees, &mut progress.tree, change)?;
    progress.next += 1;
    Ok(plan)
}
