//! A set of changes from the items of an edit whose texts come as differences.
ghost use Rattle.std.specs.Prelude.{◌≡◌, ◌≤◌, length, true, false, IfOk, IfErr, OnOk, OnErr};
ghost use Rattle.node_base.specs.declared.limits.TheConstants.{REVISION};
ghost use Rattle.ra_item.specs.ItemStreams.{reader_of, meanwhile, is_spent};
ghost use Rattle.byte_streams.specs.Causes.{Fails};
ghost use Rattle.ra_edit.specs.declared.edit_fault.EditFault.TheVariants.{PeerFailed};
ghost use Rattle.dump_load.specs.Trees.{Makes};
ghost use Rattle.edit_road.specs.Receiving.{IsNextOfDeltas, RefusesNextOfDeltas};

use byte_streams::Input;
use dump_load::Applied;
use editor_ends::BuildEditor;
use path_tree::Tree;
use ra_edit::edit_fault::EditFault;
use ra_edit::receive_deltas::receive_deltas;
use ra_edit::stream::ItemStream;
use std::alloc::Global;

/// Receives the set of changes that the next edit makes as [`receive_set`](crate::receive::receive_set) does, but that
/// each text comes as a difference: of a file that is changed from the text that the edit's calls have left it, of a copy
/// from its source's, and of any other from the empty one. So a server sends them that isn't svnfleet's.
///
/// Refused: as `receive_deltas` refuses an edit, and as an editor that builds a set refuses one of its calls. After a
/// refusal the stream answers `Failed` (32) from then on.
pub fn receive_set_of_deltas<I: Input + Drop>(
    alloc: Global,
    trees: &[Tree],
    items: &mut ItemStream<I>,
) -> Result<Applied, EditFault>
    requires few { length trees.now ≤ REVISION }
    ensures edit { IfOk result (λ a. IsNextOfDeltas I.remaining trees.now items.old items.new a.set) }
    ensures makes { IfOk result (λ a. Makes trees.now a.set a.tree) }
    ensures stopped { IfErr result
        (RefusesNextOfDeltas I.remaining I.failures I.reads trees.now items.old items.new) }
    ensures peer { IfErr result (λ f. f ≡ PeerFailed → Fails (meanwhile I.failures I.reads items.old items.new)) }
    ensures failures { I.failures (reader_of items.old) ≤ I.failures (reader_of items.new) }
    ensures goes_on { OnOk result (is_spent items.new ≡ false) }
    ensures spent { OnErr result (is_spent items.new ≡ true) }
{
    let Ok(editor) = BuildEditor::new(alloc, trees) else {
        items.spend();
        return Err(EditFault::OutOfMemory);
    };
    match receive_deltas(alloc, items, editor) {
        Ok(made) => Ok(made.into_applied()),
        Err(fault) => Err(fault),
    }
}
