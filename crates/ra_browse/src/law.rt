//! Laws of what clients are told, over all repositories and all commands. Each is proved as the contract of a function
//! that does nothing.

ghost use Rattle.ra_browse.specs.Laws.{StatIsTheNode, OnlyReparentMoves, DatedIsNewest};

/// What a session is told of a path is the node that stands there, with the date and the author of the revision that
/// last changed it.
pub fn stat_is_the_node()
    ensures { StatIsTheNode }
{}

/// A session stands where it stood behind each command but `reparent`.
pub fn only_reparent_moves()
    ensures { OnlyReparentMoves }
{}

/// A date names the newest revision that has a date which isn't later, and revision 0 where none has.
pub fn dated_is_newest()
    ensures { DatedIsNewest }
{}
