//! Laws of deltas, over all bytes and all bases. Each is proved as the contract of a function that does nothing.

ghost use Rattle.svndiff.specs.DeltaLaws.{DeltaPiecesJoin, TextsAreDeltas, DeltasAreTexts, ReadIsDelta, DeltasAreRead, OneMade};
ghost use Rattle.svndiff.specs.DeltaRefusals.{DeltaRefusedForCause, DeltaRefusedIsNoFront};

/// It doesn't matter how bytes are cut into pieces.
pub fn pieces_join()
    ensures { DeltaPiecesJoin }
{}

/// A text in windows of new data alone is a delta that makes it of any base.
#[tactic(auto, using(crate::proofs::DeltaTexts::texts_are_deltas))]
pub fn texts_are_deltas()
    ensures { TextsAreDeltas }
{}

/// A delta that copies nothing is a text in windows of new data alone.
pub fn deltas_are_texts()
    ensures { DeltasAreTexts }
{}

/// What the grammar calls a delta of a base is read as the text that it makes.
#[tactic(auto, using(crate::proofs::DeltaRead::deltas_are_read))]
pub fn deltas_are_read()
    ensures { DeltasAreRead }
{}

/// Bytes make one text at most of a base.
pub fn one_made()
    ensures { OneMade }
{}

/// What is read, up to an end between windows, is in the grammar.
#[tactic(auto, using(crate::proofs::DeltaStanding::read_is_delta))]
pub fn read_is_delta()
    ensures { ReadIsDelta }
{}

/// Refused bytes begin no delta of that base.
pub fn refused_is_no_front()
    ensures { DeltaRefusedIsNoFront }
{}

/// Which number refused bytes get, and at which of them: 8 where a window's numbers are past a limit, 44 where no
/// delta of that base goes on so.
#[tactic(auto, using(crate::proofs::DeltaCauses::refused_for_cause))]
pub fn refused_for_cause()
    ensures { DeltaRefusedForCause }
{}
