//! Laws of lines, and of what sets touch, over all sets and trees. Each is proved as the contract of a function that
//! does nothing.
ghost use Rattle.path_history.specs.Lines.{ComesFrom, Untouched, StrictIsFront, StrictIsWithin, OneAtEach};

/// What stands at a path after a set that has no change of it has the text and the properties of what stood at the
/// place that it came from.
#[tactic(auto, using(crate::proofs::LinesOf::comes_from))]
pub fn comes_from()
    ensures { ComesFrom }
{}

/// What stands at a path that a set doesn't touch has the text and the properties of what stood there before: a log
/// leaves no revision out in which these changed.
#[tactic(auto, using(crate::proofs::LinesOf::untouched))]
pub fn untouched()
    ensures { Untouched }
{}

/// Where copies aren't crossed, a line is a front of the line that crosses them.
#[tactic(auto, using(crate::proofs::LinesOf::strict_is_front, crate::proofs::LinesOf::strict_is_within))]
pub fn strict_is_front()
    ensures front { StrictIsFront }
    ensures within { StrictIsWithin }
{}

/// A line has one place in a revision at most.
#[tactic(auto, using(crate::proofs::LinesOf::one_at_each))]
pub fn one_at_each()
    ensures { OneAtEach }
{}
