//! What steps of a shared mirror come to.
ghost use Rattle.mirror_share.specs.Events.{BooksFollow, CallsMayHappen};
ghost use Rattle.mirror_share.specs.Holding.{OthersLeaveIt, HolderIsServed};
ghost use Rattle.mirror_share.specs.Served.{CopyIsServed, SyncIsServed};

use sync_core::law::{every_run, the_holder_goes_on};

/// Does nothing: its contract says how a seat that holds the lock goes on, whichever seats' steps come between its own.
/// While it holds, no other seat's call but a look is done, so no steal is, and none changes how the mirror stands. A
/// lawful call of its job is never refused for its lock (59) or its turn (61); a look tells what its last look and its
/// own calls since left; and unless it gave the lock back it holds on.
pub fn a_holder_goes_on()
    ensures others { OthersLeaveIt }
    ensures served { HolderIsServed }
{
    the_holder_goes_on();
}

/// Does nothing: its contract says that what holds of every mirror, whatever happens, holds of a book. One that was opened
/// as a mirror stands, and keeps the calls that the mirror accepts among any events, has the mirror's revisions behind
/// them. A call that is acceptable, as each kept one was where it came, is such an event where it is lawful of a job.
pub fn a_book_follows_its_mirror()
    ensures replayed { BooksFollow }
    ensures happens { CallsMayHappen }
{
    every_run();
}

/// Does nothing: its contract says how a run of a job fares at a seat, whichever seats call between its calls. Where what
/// is said in it is right, as `run_sync` and `run_copy_revprops` say of theirs, and each of its calls was one at the seat,
/// as [`crate::MirrorShare::step`] says of one, then from the answer to its lock call to its release none is refused for
/// the lock (59) or the turn (61), and a look tells what its last look and its own calls since left.
pub fn a_run_is_served()
    ensures sync { SyncIsServed }
    ensures copy { CopyIsServed }
{}
