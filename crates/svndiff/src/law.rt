//! Laws of texts in windows, over all bytes. Each is proved as the contract of a function that does nothing.

ghost use Rattle.svndiff.specs.Laws.{PiecesJoin, TextsAreRead, OneText, WrittenIsText, WrittenIsRead, ReadIsText};
ghost use Rattle.svndiff.specs.Refusals.{RefusedForCause, RefusedIsNoFront};

/// It doesn't matter how bytes are cut into pieces.
pub fn pieces_join()
    ensures { PiecesJoin }
{}

/// What the grammar calls a text is read as that text.
#[tactic(auto, using(crate::proofs::Read::texts_are_read))]
pub fn texts_are_read()
    ensures { TextsAreRead }
{}

/// Bytes are one text at most.
pub fn one_text()
    ensures { OneText }
{}

/// What is written is in the grammar.
#[tactic(auto, using(crate::proofs::Spelled::written_is_text))]
pub fn written_is_text()
    ensures { WrittenIsText }
{}

/// What is written is read again.
pub fn written_is_read()
    ensures { WrittenIsRead }
{}

/// What is read, up to an end between windows, is in the grammar.
#[tactic(auto, using(crate::proofs::Standing::read_is_text))]
pub fn read_is_text()
    ensures { ReadIsText }
{}

/// Refused bytes begin no text.
pub fn refused_is_no_front()
    ensures { RefusedIsNoFront }
{}

/// Which number refused bytes get, and at which of them: 8 where a window's numbers are past a limit, 45 where it
/// has a source or an instruction of another kind, 44 where no text goes on so.
#[tactic(auto, using(crate::proofs::Standing::refused_for_cause))]
pub fn refused_for_cause()
    ensures { RefusedForCause }
{}
