//! An edit from its items.

ghost use Rattle.std.specs.Prelude.{◌≡◌, ◌<◌, IfOk, IfErr, OnOk, OnErr, true, false};
ghost use Rattle.ra_edit.specs.Edit.{StandsAt};
ghost use Rattle.ra_edit.specs.Edits.{Begun};
ghost use Rattle.ra_item.specs.ItemStreams.{is_spent, left};
ghost use Rattle.ra_edit.specs.Received.{LeavesStill};
ghost use Rattle.ra_edit.specs.Drives.{CountsOn, TellsPeer, ReceivesEdit, AbandonsEdit, ReachesEnd, StopsWithin};
ghost use Rattle.ra_edit.specs.Drives.{TakesCommand, StopsAtCommand};

use crate::edit_fault::EditFault;
use crate::receive_command::Command;
use crate::receive_edit::Edit;
use byte_streams::Input;
use delta_editor::Editor;
use ra_item::stream::ItemStream;
use std::alloc::Global;

/// Receives one edit: shows its editor the calls that the next items spell, up to `finish-replay`, and gives what
/// the edit comes to. The new data of each window is handed on as it comes, what one chunk has of it as one piece,
/// and summed.
///
/// Refused: what the stream's `next` refuses; `BadShape` (48) for no command, one out of its place, and the end of
/// the input between items; `BadToken` (46); `BadWindow` (44), `CopyWindow` (45) and `TooLong` (8) in a text;
/// `BadSum` (6) at a `close-file`; `Refused` (60) at an `abort-edit` or a failure before `close-edit`; `Editor`
/// where the editor refuses a call; `OutOfMemory` (70). After a refusal what is open is discarded, the edit is
/// aborted, and the stream answers `Failed` (32) from then on.
pub fn receive<I: Input + Drop, E: Editor>(
    alloc: Global,
    items: &mut ItemStream<I>,
    editor: E,
) -> Result<E::Done, EditFault>
    ensures received { ReceivesEdit E.Editor items.old items.new editor result }
    ensures began { IfOk result (λ done. E.done_began done ≡ E.began editor) }
    ensures refused { AbandonsEdit E.Editor items.old items.new editor result }
    ensures peer { TellsPeer items.old items.new result }
    ensures failures { CountsOn items.old items.new }
    ensures goes_on { OnOk result (is_spent items.new ≡ false) }
    ensures spent { OnErr result (is_spent items.new ≡ true) }
{
    let mut edit = Edit::new(alloc, editor);
    if let Err(fault) = take_commands(alloc, items, &mut edit) {
        edit.abort();
        items.spend();
        return Err(fault);
    }
    match edit.finish() {
        Ok(done) => Ok(done),
        Err(fault) => {
            items.spend();
            Err(fault.into())
        }
    }
}

// Takes commands up to `finish-replay`.
fn take_commands<I: Input + Drop, E: Editor>(
    alloc: Global,
    items: &mut ItemStream<I>,
    edit: &mut Edit<E>,
) -> Result<(), EditFault>
    requires begun { StandsAt E.dir_path E.file_path edit.old Begun }
    ensures began { E.began edit.new.editor ≡ E.began edit.old.editor }
    ensures comes { ReachesEnd E.Editor items.old items.new edit.old edit.new result }
    ensures refused { StopsWithin E.Editor items.old items.new edit.old edit.new result }
    ensures failures { CountsOn items.old items.new }
    ensures goes_on { OnOk result (is_spent items.new ≡ false) }
{
    loop {
        if take_command(alloc, items, edit)? {
            return Ok(());
        }
    }
}

// Takes one command; `finish-replay` answers true.
fn take_command<I: Input + Drop, E: Editor>(
    alloc: Global,
    items: &mut ItemStream<I>,
    edit: &mut Edit<E>,
) -> Result<bool, EditFault>
    ensures began { E.began edit.new.editor ≡ E.began edit.old.editor }
    ensures taken { TakesCommand E.Editor items.old items.new edit.old edit.new result }
    ensures refused { StopsAtCommand E.Editor items.old items.new edit.old result }
    ensures still { IfErr result (LeavesStill E.dir_path E.file_path edit.old edit.new) }
    ensures failures { CountsOn items.old items.new }
    ensures goes_on { OnOk result (is_spent items.new ≡ false) }
    ensures fewer { OnOk result (left items.new < left items.old) }
{
    let Some(item) = items.next()? else {
        return Err(EditFault::BadShape);
    };
    let command = Command::parse(alloc, item)?;
    Ok(edit.step(command)?)
}
