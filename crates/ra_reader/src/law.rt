//! Laws of sessions, over all that a client may send. Each is proved as the contract of a function that does nothing.

ghost use Rattle.ra_reader.specs.Laws.{SinglesAreAnswered, ReportsAreWhole, OnlyReparentLeads, StandsBelowOneRoot};

/// Where no report is ordered, each item is told what the table of single commands has.
pub fn singles_are_answered()
    ensures { SinglesAreAnswered }
{}

/// The answer to a report is the answer to all that was reported, in its order, and nothing is told before its end.
pub fn reports_are_whole()
    ensures { ReportsAreWhole }
{}

/// A session stands where it stood behind each item but a `reparent`.
pub fn only_reparent_leads()
    ensures { OnlyReparentLeads }
{}

/// A session stands below one root, whatever it is sent.
pub fn stands_below_one_root()
    ensures { StandsBelowOneRoot }
{}
