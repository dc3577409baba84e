//! An edit from its items, whose texts come as differences.

ghost use Rattle.std.specs.Prelude.{◌≡◌, ◌<◌, IfOk, OnOk, OnErr, None, true, false};
ghost use Rattle.ra_item.specs.ItemStreams.{is_spent, left};
ghost use Rattle.ra_edit.specs.Edit.{StandsAt};
ghost use Rattle.ra_edit.specs.Edits.{Begun};
ghost use Rattle.ra_edit.specs.Drives.{CountsOn, TellsPeer, ReceivesOver, AbandonsOver, ReachesEndOver};
ghost use Rattle.ra_edit.specs.Drives.{StopsWithinOver, TakesCommandOver, StopsAtCommandOver};

use crate::delta_edit::DeltaEdit;
use crate::edit_fault::EditFault;
use crate::receive_command::Command;
use byte_streams::Input;
use delta_editor::TextEditor;
use ra_item::stream::ItemStream;
use std::alloc::Global;

/// Receives one edit as [`receive`](crate::receive::receive) does, but that each text comes as a difference from the
/// text of its file so far, which the editor is asked for: the one with which it was opened, the source's of a copy, or
/// the empty one. It is a delta as the crate `svndiff` reads it. What the windows make that end in one chunk is handed
/// on as one piece for each 65,536 bytes, once the chunk is read.
///
/// Refused as there, with these differences: a window that copies isn't refused for that; `BadWindow` (44) and `TooLong`
/// (8) are what `DeltaReader` answers; `BadSum` (6) also where `apply-textdelta` has a sum and the base another, and
/// `BadShape` (48) where that is no sum.
pub fn receive_deltas<I: Input + Drop, E: TextEditor>(
    alloc: Global,
    items: &mut ItemStream<I>,
    editor: E,
) -> Result<E::Done, EditFault>
    ensures received { ReceivesOver E.Editor E.texts E.has_text items.old items.new editor result }
    ensures began { IfOk result (λ done. E.done_began done ≡ E.began editor) }
    ensures refused { AbandonsOver E.Editor E.texts E.has_text items.old items.new editor result }
    ensures peer { TellsPeer items.old items.new result }
    ensures failures { CountsOn items.old items.new }
    ensures goes_on { OnOk result (is_spent items.new ≡ false) }
    ensures spent { OnErr result (is_spent items.new ≡ true) }
{
    let mut edit = DeltaEdit::new(alloc, editor);
    if let Err(fault) = take_commands(alloc, items, &mut edit) {
        edit.abort();
        items.spend();
        return Err(fault);
    }
    match edit.finish() {
        Ok(done) => Ok(done),
        Err(fault) => {
            items.spend();
            Err(fault.into())
        }
    }
}

// Takes commands up to `finish-replay`.
fn take_commands<I: Input + Drop, E: TextEditor>(
    alloc: Global,
    items: &mut ItemStream<I>,
    edit: &mut DeltaEdit<E>,
) -> Result<(), EditFault>
    requires begun { StandsAt E.dir_path E.file_path edit.old.edit Begun }
    requires none { edit.old.coming ≡ None }
    ensures began { E.began edit.new.edit.editor ≡ E.began edit.old.edit.editor }
    ensures comes { ReachesEndOver E.Editor E.texts E.has_text items.old items.new edit.old edit.new result }
    ensures refused { StopsWithinOver E.Editor E.texts E.has_text items.old items.new edit.old edit.new result }
    ensures failures { CountsOn items.old items.new }
    ensures goes_on { OnOk result (is_spent items.new ≡ false) }
{
    loop {
        if take_command(alloc, items, edit)? {
            return Ok(());
        }
    }
}

// Takes one command; `finish-replay` answers true.
fn take_command<I: Input + Drop, E: TextEditor>(
    alloc: Global,
    items: &mut ItemStream<I>,
    edit: &mut DeltaEdit<E>,
) -> Result<bool, EditFault>
    ensures began { E.began edit.new.edit.editor ≡ E.began edit.old.edit.editor }
    ensures taken { TakesCommandOver E.Editor E.texts E.has_text items.old items.new edit.old edit.new result }
    ensures refused { StopsAtCommandOver E.Editor E.texts E.has_text items.old items.new edit.old edit.new result }
    ensures failures { CountsOn items.old items.new }
    ensures goes_on { OnOk result (is_spent items.new ≡ false) }
    ensures fewer { OnOk result (left items.new < left items.old) }
{
    let Some(item) = items.next()? else {
        return Err(EditFault::BadShape);
    };
    let (command, sum) = Command::parse_over_base(alloc, item)?;
    Ok(edit.step(command, sum)?)
}
