//! A shared mirror as the port of a job.
ghost use Rattle.std.specs.Prelude.{◌≡◌, ◌↔◌, ◌++◌, ◌∷◌, [], length, None, Some, IfOk, IfErr, IfSome};
ghost use Rattle.std.specs.Option.{option_map};
ghost use Rattle.store_share.specs.Seats.{known_by, seen_by, KeepsSeen, SeesOn};
ghost use Rattle.sync_core.specs.Calls.{call_of};
ghost use Rattle.sync_job.specs.Asked.{asked_as};
ghost use Rattle.sync_job.specs.Mirrors.{GivesTree, IsFit, LacksTree, Moves, Stays};
ghost use Rattle.sync_job.specs.Telling.{IsTreeFault};

use crate::name::MirrorName;
use crate::seat::JobSeat;
use crate::share::MirrorShare;
use fleet_disk::Disk;
use node_base::{Refusal, RevNo};
use path_tree::Tree;
use std::alloc::{AllocError, Global};
use std::sync::Wait;
use store_share::{ReaderSeat, Rev};
use sync_core::{MirrorCall, Reply, SyncFault};
use sync_job::MirrorPort;

/// A shared mirror as one job sees it, from a job's seat, which carries the mirror's numbers while it holds the lock, and
/// a reader's. Each call is one step of the book under the lock; trees are read without it.
#[derive(Drop)]
pub struct SeatMirror<'a, R: Wait, L: MirrorName, D: Disk> {
    rt: &'a R,
    share: &'a MirrorShare<L, D>,
    seat: JobSeat<L>,
    reader: ReaderSeat<L>,
}

impl<'a, R: Wait, L: MirrorName, D: Disk> SeatMirror<'a, R, L, D> {
    ghost use Rattle.mirror_share.specs.Locked.{IsShownTo};
    ghost use Rattle.mirror_share.specs.Ports.{reader_of, seat_of, share_of};

    /// The port of the job that has this seat. Only want of memory (70) refuses it, and the seat is handed back then.
    pub fn new(
        rt: &'a R,
        alloc: Global,
        share: &'a MirrorShare<L, D>,
        seat: JobSeat<L>,
    ) -> Result<SeatMirror<'a, R, L, D>, JobSeat<L>>
        ensures seat { IfOk result (λ p. seat_of p ≡ seat) }
        ensures share { IfOk result (λ p. share_of p ≡ share.now) }
        ensures reader { IfOk result (λ p. IsShownTo share.now (reader_of p) (seen_by (reader_of p))) }
        ensures back { IfErr result (λ s. s ≡ seat) }
    {
        match share.enter_reader(rt, alloc) {
            Ok(reader) => Ok(SeatMirror {
                rt,
                share,
                seat,
                reader,
            }),
            Err(_) => Err(seat),
        }
    }

    /// The seat of the job.
    pub fn into_seat(self) -> JobSeat<L>
        ensures { result ≡ seat_of self.entry }
    {
        self.seat
    }

    /// The seat of the job, and the reader's, which has seen what was done at it.
    pub fn into_seats(self) -> (JobSeat<L>, ReaderSeat<L>)
        ensures { (result.0 ≡ seat_of self.entry) × (result.1 ≡ reader_of self.entry) }
    {
        (self.seat, self.reader)
    }
}

impl<R: Wait, L: MirrorName, D: Disk> MirrorPort for SeatMirror<'_, R, L, D> {
    ghost use Rattle.mirror_share.specs.Ports.{reader_of, seat_of, IsAsked, IsCallAt, IsUnasked, NowhereStands};
    ghost use Rattle.mirror_share.specs.Ports.{OfNowhere, OfUntold, TellsNothing, WasAsked};
    ghost use Rattle.mirror_share.specs.Seats.{place_of};

    ghost stands = { λ _ m. NowhereStands m };

    ghost seat = { λ p. place_of (seat_of p) };

    ghost honest = { λ _. ⊥ };

    ghost clock = { λ _. 0 };

    ghost left_since = { λ _ _ _. ⊥ };

    // Others write the mirror: nothing is said of its trees, and a tree that comes with a call isn't used.
    ghost begins_with = { λ _ trees. TellsNothing trees };

    ghost asked = { λ now first calls. WasAsked now first calls };

    ghost kept_now = { λ port m image honest stands left. absurd honest };

    ghost begins = { λ _. tt };

    /// One step of the book; where it is taken the reader has seen all that is shown then: a revision that was committed,
    /// with its set, and the head that a look tells. While the seat holds the lock it carries what the mirror's numbers are
    /// through it, so that a lawful call of its job isn't refused for the lock (59) or the turn (61).
    fn step(
        &mut self,
        alloc: Global,
        call: &MirrorCall<'_>,
        _tree: Option<Tree>,
    ) -> Result<Reply, SyncFault>
        ensures called { IsCallAt self.old self.new (call_of call.now) result }
        ensures fits { IfOk result (IsFit (call_of call.now)) }
        ensures seat { place_of (seat_of self.new) ≡ place_of (seat_of self.old) }
        ensures honest { ⊥ ↔ ⊥ }
        ensures moves { OfNowhere (λ m. Moves NowhereStands (λ _. 0) (λ _ _ _. ⊥) ⊥ self.old self.new m
            (place_of (seat_of self.old)) (call_of call.now) result) }
        ensures asked { IsAsked self.old (asked_as (call_of call.now) result) self.new }
        ensures first { OfUntold TellsNothing }
    {
        self.share
            .step_by(self.rt, alloc, &mut self.seat, &mut self.reader, call)
    }

    /// The tree of the revision that the reader's seat knows under that number; the newest is asked for where the seat
    /// hasn't seen it. NoSuchRevision (21) where nothing is shown there, OutOfMemory (70).
    fn tree(&mut self, number: RevNo) -> Result<Tree, SyncFault>
        ensures known { IfOk result (λ t. option_map (λ x. x.tree) (known_by (reader_of self.new) number) ≡ Some t) }
        ensures seen { SeesOn (reader_of self.old) (reader_of self.new) }
        ensures kept { KeepsSeen (reader_of self.old) (reader_of self.new) }
        ensures refused { IfErr result IsTreeFault }
        ensures hand { seat_of self.new ≡ seat_of self.old }
        ensures absent { LacksTree NowhereStands number result }
        ensures seat { place_of (seat_of self.new) ≡ place_of (seat_of self.old) }
        ensures honest { ⊥ ↔ ⊥ }
        ensures tree { GivesTree NowhereStands number result }
        ensures stays { OfNowhere (Stays NowhereStands (λ _. 0) (λ _ _ _. ⊥) ⊥ self.old self.new) }
        ensures asked { IsUnasked self.old self.new }
        ensures first { OfUntold TellsNothing }
        ensures next { OfUntold (λ trees. number ≡ length trees → IfOk result (λ t. TellsNothing (trees ++ t ∷ []))) }
    {
        match found(self.rt, self.share, &mut self.reader, number) {
            Some(rev) => match rev.tree.share() {
                Ok(tree) => Ok(tree),
                Err(_) => Err(SyncFault::OutOfMemory),
            },
            None => Err(SyncFault::Other(Refusal::NoSuchRevision)),
        }
    }
}

// The revision of that number, where the reader has seen it, or has once it has asked for the newest.
fn found<'a, R: Wait, L: MirrorName, D: Disk>(
    rt: &R,
    share: &'a MirrorShare<L, D>,
    reader: &mut ReaderSeat<L>,
    number: RevNo,
) -> Option<&'a Rev>
    ensures known { IfSome result (λ r. known_by reader.new number ≡ Some r.now) }
    ensures later { SeesOn reader.old reader.new }
    ensures kept { KeepsSeen reader.old reader.new }
{
    if reader.seen() < number {
        let _newest = share.latest(rt, reader);
    }
    share.read_at(reader, number)
}
