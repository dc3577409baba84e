//! A set of changes from the items of an edit.
ghost use Rattle.std.specs.Prelude.{◌≡◌, ◌≤◌, length, true, false, IfOk, IfErr, OnOk, OnErr};
ghost use Rattle.node_base.specs.declared.limits.TheConstants.{REVISION};
ghost use Rattle.ra_item.specs.ItemStreams.{reader_of, meanwhile, is_spent};
ghost use Rattle.byte_streams.specs.Causes.{Fails};
ghost use Rattle.ra_edit.specs.declared.edit_fault.EditFault.TheVariants.{PeerFailed};
ghost use Rattle.dump_load.specs.Trees.{Makes};
ghost use Rattle.edit_road.specs.Receiving.{IsNextEdit, Receives, Refuses, RefusesEdit};

use byte_streams::Input;
use dump_load::Applied;
use editor_ends::BuildEditor;
use path_tree::Tree;
use path_tree::limits::trees_limits;
use ra_edit::edit_fault::EditFault;
use ra_edit::receive::receive;
use ra_edit::stream::ItemStream;
use std::alloc::Global;

/// Receives the set of changes that the next edit makes as the revision after these trees, 65,535 at most, the newest
/// last, and the tree that the set makes of them, whoever sent the edit. Where a set that was sent over the same trees
/// is to come, what is received has its effect, the stream stands before what follows, and only want of memory (70) or
/// an input that failed (49) refuses it.
///
/// Refused: as `receive` refuses an edit, and as an editor that builds a set refuses one of its calls. After a refusal
/// the stream answers `Failed` (32) from then on.
pub fn receive_set<I: Input + Drop>(
    alloc: Global,
    trees: &[Tree],
    items: &mut ItemStream<I>,
) -> Result<Applied, EditFault>
    requires few { length trees.now ≤ REVISION }
    ensures edit { IfOk result (λ a. IsNextEdit I.remaining trees.now items.old items.new a.set) }
    ensures makes { IfOk result (λ a. Makes trees.now a.set a.tree) }
    ensures stopped { IfErr result (RefusesEdit I.remaining I.failures I.reads trees.now items.old items.new) }
    ensures received { IfOk result (λ a. Receives I.remaining trees.now items.old items.new a.set) }
    ensures refused { IfErr result (Refuses I.remaining I.failures I.reads trees.now items.old items.new) }
    ensures peer { IfErr result (λ f. f ≡ PeerFailed → Fails (meanwhile I.failures I.reads items.old items.new)) }
    ensures failures { I.failures (reader_of items.old) ≤ I.failures (reader_of items.new) }
    ensures goes_on { OnOk result (is_spent items.new ≡ false) }
    ensures spent { OnErr result (is_spent items.new ≡ true) }
{
    // For the proof: what trees keep by their type, and what is read of a set that was sent.
    trees_limits(trees);
    crate::law::drive_is_received();
    crate::law::drive_is_not_refused();
    let Ok(editor) = BuildEditor::new(alloc, trees) else {
        items.spend();
        return Err(EditFault::OutOfMemory);
    };
    match receive(alloc, items, editor) {
        Ok(built) => Ok(built.into_applied()),
        Err(fault) => Err(fault),
    }
}
