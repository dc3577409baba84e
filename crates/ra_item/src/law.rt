//! Laws of items, over all bytes. Each is proved as the contract of a function that does nothing.

ghost use Rattle.ra_item.specs.Laws.{PiecesJoin, StreamsAreRead, WholeAtWhite, WrittenIsSpelled, WrittenIsRead};
ghost use Rattle.ra_item.specs.Laws.{OneReading, ReadIsSpelled, EndsWhole, RefusedBehindItems, KeptIsFed, ReadGoesOn};
ghost use Rattle.ra_item.specs.Laws.{RefusedIsNoFront};
ghost use Rattle.ra_item.specs.Refusals.{RefusedForCause};

/// It doesn't matter how bytes are cut into pieces.
pub fn pieces_join()
    ensures { PiecesJoin }
{}

/// What the grammar calls a stream of items is read as these items.
pub fn streams_are_read()
    ensures { StreamsAreRead }
{}

/// A top-level item is whole when the white space behind it begins.
pub fn whole_at_white()
    ensures { WholeAtWhite }
{}

/// What is written is in the grammar.
pub fn written_is_spelled()
    ensures { WrittenIsSpelled }
{}

/// What is written is read again, whatever follows.
pub fn written_is_read()
    ensures { WrittenIsRead }
{}

/// Bytes are a stream of one list of items at most.
pub fn one_reading()
    ensures { OneReading }
{}

/// What is read is in the grammar.
pub fn read_is_spelled()
    ensures { ReadIsSpelled }
{}

/// Bytes that end between items are a stream of the grammar.
pub fn ends_whole()
    ensures { EndsWhole }
{}

/// The items before a refused byte are in the grammar.
pub fn refused_behind_items()
    ensures { RefusedBehindItems }
{}

/// No more bytes are kept than were fed.
pub fn kept_is_fed()
    ensures { KeptIsFed }
{}

/// Bytes that aren't refused begin a stream of the grammar, while an item's limit has room for its end.
pub fn read_goes_on()
    ensures { ReadGoesOn }
{}

/// Bytes that are refused begin no stream of the grammar.
pub fn refused_is_no_front()
    ensures { RefusedIsNoFront }
{}

/// Which number refused bytes get, and at which of them: 8 where a word, a string or an item is past its limit, 42
/// where a list opens inside 16 others, 41 where no stream of items goes on so.
pub fn refused_for_cause()
    ensures { RefusedForCause }
{}
