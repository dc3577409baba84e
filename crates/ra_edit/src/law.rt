//! Laws of edits in items, and of texts in windows. Each is proved as the contract of a function that does nothing.

ghost use Rattle.ra_edit.specs.EditLaws.{WrittenIsEdit, OneEdit, EndsOnce, WrittenIsTaken, WrittenIsReceived};
ghost use Rattle.ra_edit.specs.EditLaws.{WrittenComes, SaysSomeCommand, WrittenIsNotRefused};
ghost use Rattle.ra_edit.specs.Differences.{DeltasAreWhole};
ghost use Rattle.ra_edit.specs.Refusals.{NothingDue};

use delta_editor::{Editor, TextEditor};
pub use svndiff::law::{
    one_text, pieces_join, read_is_text, texts_are_read, written_is_read, written_is_text,
};

/// The items that are written for an edit are one of its forms that are read, with each piece of a text in its parts.
#[tactic(auto, using(crate::proofs::EditSays::written_is_edit))]
pub fn written_is_edit()
    ensures { WrittenIsEdit }
{}

/// Items are the calls of one edit at most.
#[tactic(auto, using(crate::proofs::OneEdit::one_edit))]
pub fn one_edit()
    ensures { OneEdit }
{}

/// No edit begins with another one.
#[tactic(auto, using(crate::proofs::OneEdit::ends_once))]
pub fn ends_once()
    ensures { EndsOnce }
{}

/// An edit whose texts come as differences is the calls of one in which they come whole.
pub fn deltas_are_whole<E: TextEditor>()
    ensures { (texts : E.Texts) → DeltasAreWhole (E.has_text texts) }
{}

/// An item that is an edit's next, where the commands stand, is refused for nothing that it says.
#[tactic(auto, using(crate::proofs::NothingDue::nothing_due))]
pub fn nothing_due()
    ensures { NothingDue }
{}

/// Where an item that was written is to come, the bytes don't end before it, nor is the stream refused but for want
/// of memory or by a read that failed.
pub fn written_comes()
    ensures { WrittenComes }
{
    ra_item::law::written_is_read();
}

/// Items that were written are taken as these items, wherever in a stream they stand, and then the stream stands
/// before what follows them.
pub fn written_is_taken()
    ensures { WrittenIsTaken }
{
    ra_item::law::written_is_read();
}

/// An edit that was written is received as the same calls, each piece of a text in its parts, wherever in a stream
/// it stands, however the bytes are cut and whatever follows them; and then the stream stands before what follows.
pub fn written_is_received()
    ensures { WrittenIsReceived }
{
    ra_item::law::written_is_read();
}

/// An item that is an edit's next, where the commands stand, has the form of a command.
#[tactic(auto, using(crate::proofs::NotRefused::says_some_command))]
pub fn says_some_command()
    ensures { SaysSomeCommand }
{}

/// An edit that was written is refused only for want of memory, by a read that failed, or by the editor at one of
/// its calls, wherever in a stream it stands, however the bytes are cut and whatever follows them.
pub fn written_is_not_refused<E: Editor>()
    ensures { WrittenIsNotRefused E.shows E.began E.refuses }
{
    ra_item::law::written_is_read();
}
