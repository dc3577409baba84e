//! Laws of whole records, over all trees and nodes. Each is proved as the contract of a function that does nothing.
ghost use Rattle.whole_texts.specs.Laws.{OneWhole, NoneWhole, OneCause, OwnAreWhole, WholeAreOwn};

/// Nodes have one list of whole records at most over the same trees.
pub fn one_whole()
    ensures { OneWhole }
{}

/// Nodes that are refused have no list of whole records, and they are refused for one cause.
pub fn one_cause()
    ensures none { NoneWhole }
    ensures one { OneCause }
{}

/// Where no text is given as a delta, the whole records are the nodes' own.
pub fn without_deltas()
    ensures own { OwnAreWhole }
    ensures others { WholeAreOwn }
{}
