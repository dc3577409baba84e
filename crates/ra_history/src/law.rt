//! Laws of logs, over all sets. Each is proved as the contract of a function that does nothing.

ghost use Rattle.ra_history.specs.Laws.{TellsEach, TellsNoOther};

/// A log without a limit tells each revision of its range in which the line of one of its places is touched.
#[tactic(auto, using(crate::proofs::Logs::tells_each))]
pub fn tells_each()
    ensures { TellsEach }
{}

/// No log tells another revision.
#[tactic(auto, using(crate::proofs::Logs::tells_no_other))]
pub fn tells_no_other()
    ensures { TellsNoOther }
{}
