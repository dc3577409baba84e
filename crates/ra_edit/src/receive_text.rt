//! New data of a text that is received, handed on as it comes.

ghost use Rattle.std.specs.Prelude.{◌≡◌, ◌<◌, ◌++◌, ℕ, List, length, IfErr, OnOk, OnErr};
ghost use Rattle.md5.specs.Md5.{Holds};
ghost use Rattle.delta_editor.specs.declared.call.Call.TheVariants as call;
ghost use Rattle.svndiff.specs.Streams.{reading, Reads};
ghost use Rattle.ra_edit.specs.Refusals.{of_stream, RefusedFor};
ghost use Rattle.ra_edit.specs.Editing.{ShowsStretch, HandsOn, MeetsOnWay};
ghost use Rattle.delta_editor.specs.Calls.{MayRefuse};

use crate::command_fault::CommandFault;
use delta_editor::{Editor, EditorFault};
use md5::{Digest, Md5};
use svndiff::reader::WindowReader;

// Hands on new data, if there is some, and sums it.
fn take_stretch<E: Editor>(
    editor: &mut E,
    file: &mut E::File,
    sum: &mut Md5,
    bytes: &[u8],
) -> Result<(), EditorFault>
    ensures pieces { ShowsStretch E.Editor editor.old editor.new (E.file_path file.old) bytes.now result }
    ensures sum { OnOk result ((text : List ℕ) → Holds sum.old text → Holds sum.new (text ++ bytes.now)) }
    ensures file { E.file_path file.new ≡ E.file_path file.old }
    ensures refused { MayRefuse E.shows E.began E.refuses editor.old
        (call.TextPiece (E.file_path file.old) bytes.now) result }
    ensures some { OnErr result (0 < length bytes.now) }
    ensures began { E.began editor.new ≡ E.began editor.old }
{
    if bytes.is_empty() {
        return Ok(());
    }
    editor.text_piece(file, bytes)?;
    sum.update(bytes);
    Ok(())
}

/// Hands on the new data in bytes of a text, and sums it.
pub fn take_chunk<E: Editor>(
    editor: &mut E,
    file: &mut E::File,
    reader: &mut WindowReader,
    sum: &mut Md5,
    bytes: &[u8],
) -> Result<(), CommandFault>
    ensures file { E.file_path file.new ≡ E.file_path file.old }
    ensures taken { HandsOn E.Editor editor.old editor.new reader.old reader.new sum.old sum.new
        (E.file_path file.old) bytes.now result }
    ensures refused { IfErr result (λ f. (text : List ℕ)
        → RefusedFor f (of_stream (reading (Reads text reader.old) bytes.now))) }
    ensures own { MeetsOnWay E.Editor editor.old reader.old (E.file_path file.old) bytes.now result }
    ensures began { E.began editor.new ≡ E.began editor.old }
{
    let mut rest = bytes;
    while !rest.is_empty() {
        let stretch = reader.next(rest)?;
        take_stretch(editor, file, sum, stretch.bytes)?;
        rest = stretch.rest;
    }
    Ok(())
}
