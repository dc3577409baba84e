//! What holds of every mirror, whatever happens: any list of commits and property edits of the master, jobs that begin,
//! ask, call, run out of memory and leave, readers, and stops of mirrors with the entry of a call in flight kept or
//! not. Each function does nothing: its contract is the law.
ghost use Rattle.sync_core.specs.Faults.{DigitsAreTold};
ghost use Rattle.sync_core.specs.Going.{DoesWhatItMay, AsksWhatItMay, FollowsOn, StaysEnded, OnlyEndedEnds};
ghost use Rattle.sync_core.specs.Going.{EndsWellDone, CommitsInOrder};
ghost use Rattle.sync_core.specs.Hearing.{AnswersAreHeard, RefusalTellsNothing, JobsGoOn, StopsInFlight};
ghost use Rattle.sync_core.specs.Holding.{LockIsGiven, HolderIsServed, HolderStays, HolderListens, HolderIsAlone};
ghost use Rattle.sync_core.specs.Law.{FreshStarts, EveryRun, EveryFreshRun, MomentsRise, StaysBlank, HolderGoesOn};
ghost use Rattle.sync_core.specs.Law.{BeginsAgain};
ghost use Rattle.sync_core.specs.Measures.{ComesNearer};
ghost use Rattle.sync_core.specs.Moves.{CallsMoveNumbers};
ghost use Rattle.sync_core.specs.Replay.{CallsAreJournalled, CallsJoin};
ghost use Rattle.sync_core.specs.Table.{NeedsAreMet, ShapesTurn};

/// After every list of events, from mirrors as they were opened, each initialised mirror is a mirror of the master: its
/// identity, a front of its trees, and each map as it was when its last copying was fetched. It rests in one of four
/// shapes where it began in one or uninitialised. Nothing that was acknowledged or shown is missing, and its journal
/// commits 1 to its head in order, each once. The moment of a revision's last copying never falls. A mirror that isn't
/// initialised is as it was. A job whose lock was answered is never refused a lawful call for its turn or its lock, and
/// its looks answer what its own accepted calls left.
pub fn every_run()
    ensures mirrors { EveryRun }
    ensures fresh { EveryFreshRun }
    ensures starts { FreshStarts }
    ensures moments { MomentsRise }
    ensures blank { StaysBlank }
    ensures holder { HolderGoesOn }
{}

/// Mirrors that were opened, whatever happened then, are as mirrors that begin once they have stopped and are opened
/// again, and so behind any list of runs: what `every_run` says of them goes on.
pub fn runs_begin_again()
    ensures { BeginsAgain }
{}

/// The law speaks of the code's jobs: what a job does by its table may happen, at a stop within its call too, and
/// leaves it with what it is said to hear where it absorbs the answer, the master's as it is at that moment or the
/// mirror's. A question that is refused tells nothing, and is no event.
pub fn answers_are_heard()
    ensures heard { AnswersAreHeard }
    ensures refused { RefusalTellsNothing }
    ensures jobs { JobsGoOn }
    ensures stops { StopsInFlight }
{}

/// A call misses no need just where the table of the calls says so in words.
pub fn needs_are_met()
    ensures { NeedsAreMet }
{}

/// The shapes follow one another, whoever calls and whether or not the call is lawful: idle, copying, committed,
/// merged, idle. Other calls that a mirror accepts leave its shape.
pub fn shapes_turn()
    ensures { ShapesTurn }
{}

/// The entries that accepted calls write, one for each call but a look, stand for what the calls make of a mirror;
/// lists of calls join.
pub fn calls_are_journalled()
    ensures journal { CallsAreJournalled }
    ensures joined { CallsJoin }
{}

/// How accepted calls move what is merged, what is being copied and the head; and that a commit has the number after
/// the head's.
pub fn calls_move_numbers()
    ensures moved { CallsMoveNumbers }
    ensures commits { CommitsInOrder }
{}

/// A seat that holds the lock, whatever led there, and whose job knows how the mirror stands: it is refused no lawful
/// call for its turn or its lock, each of its lawful calls but the release keeps it so, and nobody else's call but a
/// look is accepted.
pub fn the_holder_goes_on()
    ensures begins { LockIsGiven }
    ensures served { HolderIsServed }
    ensures stays { HolderStays }
    ensures listens { HolderListens }
    ensures alone { HolderIsAlone }
{}

/// What a job does next is lawful, what it asks is allowed, the newest revision under its lock alone, and what it
/// becomes by an answer follows what it has heard.
pub fn jobs_follow()
    ensures lawful { DoesWhatItMay }
    ensures asked { AsksWhatItMay }
    ensures follows { FollowsOn }
{}

/// A job that has ended stays so and does nothing; only such a job does nothing. It ends well only as its last call is
/// done: of a job that takes the lock, its release. Each answer to one that goes on brings it nearer to its end.
pub fn jobs_end()
    ensures ended { StaysEnded }
    ensures only { OnlyEndedEnds }
    ensures well { EndsWellDone }
    ensures nearer { ComesNearer }
{}

/// A number from 2^64 on is told by its digits.
pub fn digits_are_told()
    ensures { DigitsAreTold }
{}
