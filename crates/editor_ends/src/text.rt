//! The calls that send a text.
ghost use Rattle.std.specs.Prelude.{◌≡◌, ◌++◌, ◌∷◌, map};
ghost use Rattle.std.specs.Option.{option_map};
ghost use Rattle.md5.specs.Md5.{md5};
ghost use Rattle.delta_editor.specs.declared.call.Call.TheVariants as call;
ghost use Rattle.editor_ends.specs.Driven.{Drives, StopsAmong};
ghost use Rattle.editor_ends.specs.Parts.{pieces, text_calls, text_parts};

use delta_editor::{Editor, EditorFault};
use dump_load::Change;
use node_base::Text;

/// How many bytes of a text are sent at once.
const PIECE_BYTES: usize = 65_536;

// Sends a text in pieces.
fn send_pieces<E: Editor>(
    editor: &mut E,
    file: &mut E::File,
    text: &[u8],
) -> Result<(), EditorFault>
    ensures shown { Drives E.Editor editor.old editor.new (map (call.TextPiece (E.file_path file.old))
        (pieces text.now)) result }
    ensures stops { StopsAmong E.Editor editor.old (map (call.TextPiece (E.file_path file.old)) (pieces text.now))
        result }
    ensures baton { E.file_path file.new ≡ E.file_path file.old }
    ensures began { E.began editor.new ≡ E.began editor.old }
{
    let mut left = text;
    while !left.is_empty() {
        let (piece, rest) = left.split_at(left.len().min(PIECE_BYTES));
        editor.text_piece(file, piece)?;
        left = rest;
    }
    Ok(())
}

// Sends a whole text.
fn send_text<E: Editor>(editor: &mut E, file: &mut E::File, text: &Text) -> Result<(), EditorFault>
    ensures shown { Drives E.Editor editor.old editor.new (text_calls (E.file_path file.old) text.now) result }
    ensures stops { StopsAmong E.Editor editor.old (text_calls (E.file_path file.old) text.now) result }
    ensures baton { E.file_path file.new ≡ E.file_path file.old }
    ensures began { E.began editor.new ≡ E.began editor.old }
{
    editor.text_start(file)?;
    send_pieces(editor, file, text.as_slice())?;
    editor.text_end(file)
}

/// Shows the text that a change gives an open file.
pub fn give_text<E: Editor>(
    editor: &mut E,
    file: &mut E::File,
    change: &Change,
) -> Result<(), EditorFault>
    requires { E.file_path file.old ≡ change.now.path }
    ensures shown { Drives E.Editor editor.old editor.new (text_parts change.now) result }
    ensures stops { StopsAmong E.Editor editor.old (text_parts change.now) result }
    ensures baton { E.file_path file.new ≡ E.file_path file.old }
    ensures began { E.began editor.new ≡ E.began editor.old }
{
    match &change.text {
        None => Ok(()),
        Some(text) => send_text(editor, file, text),
    }
}

/// The MD5 of a text, where there is one.
pub fn sum_of(text: &Option<Text>) -> Option<[u8; 16]>
    ensures { result ≡ option_map md5 text.now }
{
    match text {
        None => None,
        Some(text) => Some(text.sum()),
    }
}
