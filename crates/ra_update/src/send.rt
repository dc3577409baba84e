//! Changes as the bytes of an update.

ghost use Rattle.std.specs.Prelude.{◌≡◌, ◌≤◌, ◌++◌, ◌∷◌, [], length, None, IfOk, IfErr, OnOk};
ghost use Rattle.std.specs.Io.KnownBytes.{Appends};
ghost use Rattle.dump_load.specs.Changes.{IsNormal};
ghost use Rattle.dump_load.specs.Faults.{fault};
ghost use Rattle.node_base.specs.Tree.{IsDirAt, base};
ghost use Rattle.node_base.specs.declared.limits.TheConstants.{REVISION};
ghost use Rattle.ra_edit.specs.Commands.{edit_bytes};
ghost use Rattle.ra_item.specs.Items.{spell};
ghost use Rattle.ra_update.specs.Sent.{calls_told, end_item, newest, IsUnsent};
ghost use Rattle.delta_editor.specs.declared.fault.EditorFault.TheVariants.{PeerFailed};

use crate::editor::UpdateEditor;
use crate::facts::Facts;
use delta_editor::{Editor, EditorFault};
use dump_load::Change;
use editor_ends::show_changes;
use path_tree::Tree;
use std::alloc::Global;
use std::io;
use std::io::Write;

/// Writes the edit but for its end, and but for the property calls that give what the reported tree has.
pub fn send_changes<W: Write + Drop>(
    alloc: Global,
    reported: &Tree,
    trees: &[Tree],
    changes: &[Change],
    facts: &Facts<'_>,
    out: W,
) -> Result<W, EditorFault>
    requires few { length trees.now ≤ REVISION }
    requires newest { newest trees.now ≡ reported.now }
    requires root { IsDirAt (base trees.now) [] }
    requires normal { IsNormal changes.now }
    ensures written { IfOk result (λ w. Appends (W.contents out) (W.contents w)
        (edit_bytes (calls_told facts.now trees.now changes.now))) }
    ensures faultless { OnOk result (fault trees.now changes.now ≡ None) }
    ensures refused { IfErr result (IsUnsent trees.now changes.now) }
{
    // For the proof: the calls of a drive keep the nesting, and go down.
    editor_ends::law::drive_is_nested();
    editor_ends::law::drive_goes_down();
    let mut editor = UpdateEditor::new(alloc, reported, facts, out)?;
    match show_changes(alloc, trees, changes, &mut editor) {
        Ok(()) => Ok(editor.into_writer()),
        Err(fault) => {
            editor.abort_edit();
            Err(fault)
        }
    }
}

/// Writes the end.
pub fn ended<W: Write + Drop>(out: W) -> Result<W, EditorFault>
    ensures written { IfOk result (λ w. Appends (W.contents out) (W.contents w) (spell end_item)) }
    ensures refused { IfErr result (λ e. e ≡ PeerFailed) }
{
    let mut out = out;
    match write_end(&mut out) {
        Ok(()) => Ok(out),
        Err(_) => Err(EditorFault::PeerFailed),
    }
}

// The command that ends an edit.
fn write_end<W: Write>(out: &mut W) -> io::Result<()>
    ensures { OnOk result (Appends (W.contents out.old) (W.contents out.new) (spell end_item)) }
{
    out.write_all(b"( close-edit ( ) ) ")
}
