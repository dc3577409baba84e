//! Laws of dump text, as contracts of functions that do nothing.

ghost use Rattle.std.specs.Prelude.{Bool};
ghost use Rattle.dump_text.specs.Laws.{PiecesJoin, RefusalsStay, DumpsAreReadBy, DumpsAreRead, ReadsAreDumps};
ghost use Rattle.dump_text.specs.Laws.{RefusalsHaveAByte, RefusedIsNoFront, OneReading, EntriesAreReadAgain};
ghost use Rattle.dump_text.specs.Laws.{RevisionsAreReadAgain, WrittenIsRead, DumpsGoOn, VersionIsRead};
ghost use Rattle.dump_text.specs.Refusals.{RefusedForCause, DueIsRefused};

/// It doesn't matter how a dump is cut into pieces.
pub fn pieces_join()
    ensures { PiecesJoin }
{}

/// A refusal stays, whatever follows.
pub fn refusals_stay()
    ensures { RefusalsStay }
{}

/// A dump of the grammar is read as its records, by a reader that takes texts as deltas where the dump may have them.
pub fn dumps_are_read_by()
    ensures { (deltas : Bool) → DumpsAreReadBy deltas }
{}

/// A dump of the grammar without such a text is read as its records.
pub fn dumps_are_read()
    ensures { DumpsAreRead }
{}

/// A reader behind the version block of format 2 reads as one that was fed it.
pub fn version_is_read()
    ensures { VersionIsRead }
{}

/// What is read to an end between two records is a dump of the grammar.
pub fn reads_are_dumps()
    ensures { ReadsAreDumps }
{}

/// A refusal comes at a byte: what stands before it was read.
pub fn refusals_have_a_byte()
    ensures { RefusalsHaveAByte }
{}

/// Which number refused bytes get, by their lines and records: they are refused for what is due at one of them, and
/// what is due is refused.
pub fn refused_for_cause()
    ensures cause { RefusedForCause }
    ensures due { DueIsRefused }
{}

/// What is refused is no front of a dump.
pub fn refused_is_no_front()
    ensures { RefusedIsNoFront }
{}

/// A list of bytes is a dump of at most one list of records.
pub fn one_reading()
    ensures { OneReading }
{}

/// What is written of a revision's number and properties is read again, whatever follows.
pub fn entries_are_read_again()
    ensures { EntriesAreReadAgain }
{}

/// What is written of a revision is read again, whatever follows: as the same records, but that a deletion's kind isn't
/// written.
pub fn revisions_are_read_again()
    ensures { RevisionsAreReadAgain }
{}

/// A head and revisions that are written are a dump of the grammar, and are read as their records.
pub fn written_is_read()
    ensures { WrittenIsRead }
{}

/// Records behind a dump, as the writers put them there, are a dump.
pub fn dumps_go_on()
    ensures { DumpsGoOn }
{}
