//! The edit that makes one tree of another.

ghost use Rattle.std.specs.Prelude.{◌≡◌, ◌++◌, ◌∷◌, [], None, IfOk, IfErr, OnOk};
ghost use Rattle.std.specs.Io.KnownBytes.{Appends};
ghost use Rattle.dump_load.specs.Changes.{IsNormal};
ghost use Rattle.dump_load.specs.Faults.{fault};
ghost use Rattle.ra_edit.specs.Commands.{edit_bytes};
ghost use Rattle.ra_item.specs.Items.{spell};
ghost use Rattle.ra_update.specs.Sent.{calls_told, end_item, IsUnsent};
ghost use Rattle.ra_update.specs.Updates.{IsUpdate, MayStop};

use crate::facts::Facts;
use crate::send::{ended, send_changes};
use crate::unflushed::Unflushed;
use delta_editor::EditorFault;
use dump_load::Change;
use path_tree::Tree;
use path_tree::limits::has_root;
use std::alloc::{AllocError, Global};
use std::io::Write;
use tree_changes::changes_between;

/// Writes behind what the writer has the edit that makes the tree that is wanted of the one that was reported: a
/// target, the calls that the changes are driven as, each with what a client wants to know beside it, and the end. What
/// differs in the nodes' numbers alone isn't told, and of a node that stays neither is a property that doesn't differ.
///
/// Refused: for want of memory (70), and with `PeerFailed` (49) where the writer failed. The writer is let go of then.
pub fn send_update<W: Write + Drop>(
    alloc: Global,
    reported: &Tree,
    facts: &Facts<'_>,
    out: W,
) -> Result<W, EditorFault>
    ensures sent { IfOk result (IsUpdate W.contents reported.now facts.now out) }
    ensures refused { IfErr result MayStop }
{
    // For the proof: where changes have no fault, the calls that they are driven as have their effect.
    editor_ends::law::drive_has_the_effect();
    let changes = changes_between(alloc, reported, facts.target, facts.opens)?;
    send_over(alloc, reported, changes.as_slice(), facts, out)
}

// Writes the edit of changes of a tree. Its commands aren't handed on one by one, but as the writer does it.
fn send_over<W: Write + Drop>(
    alloc: Global,
    reported: &Tree,
    changes: &[Change],
    facts: &Facts<'_>,
    out: W,
) -> Result<W, EditorFault>
    requires { IsNormal changes.now }
    ensures written { IfOk result (λ w. Appends (W.contents out) (W.contents w)
        (edit_bytes (calls_told facts.now (reported.now ∷ []) changes.now) ++ spell end_item)) }
    ensures faultless { OnOk result (fault (reported.now ∷ []) changes.now ≡ None) }
    ensures refused { IfErr result (IsUnsent (reported.now ∷ []) changes.now) }
{
    let trees = alone(alloc, reported)?;
    // For the proof: the root of a tree is a directory.
    has_root(trees.as_slice());
    let unflushed = Unflushed { inner: out };
    let sent = send_changes(alloc, reported, trees.as_slice(), changes, facts, unflushed)?;
    ended(sent.inner)
}

// The tree alone.
fn alone(alloc: Global, tree: &Tree) -> Result<Vec<Tree>, AllocError>
    ensures { IfOk result (λ ts. ts.items ≡ tree.now ∷ []) }
{
    let mut trees = Vec::new(alloc);
    trees.push(tree.share()?)?;
    Ok(trees)
}
