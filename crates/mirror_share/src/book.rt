//! What lies under the lock of a shared mirror.
ghost use Rattle.std.specs.Prelude.{◌≡◌, ◌<◌, true, false, Some, None, is_some, is_none};
ghost use Rattle.std.specs.Prelude.{IfOk, IfErr, OnOk, OnErr};
ghost use Rattle.repo_store.specs.Words.{identity_of, repository_of, revisions_of, IsKept};
ghost use Rattle.store_share.specs.Row.{cells_in};
ghost use Rattle.store_share.specs.Book.{head_of, repo_of, GivesProps, IsAtLeast, IsOneOf, IsFetchFault, KnowsShown};
ghost use Rattle.store_share.specs.Seats.{seen_by, KeepsFound, KeepsSeen, SeesOn};
ghost use Rattle.sync_core.specs.Calls.{call_of};
ghost use Rattle.sync_core.specs.Mirror.{standing_of};
ghost use Rattle.sync_job.specs.Mirrors.{IsFit};
ghost use Rattle.mirror_share.specs.Book.{holder_of, is_stuck_in, master_of, store_in, BeginsAt, HasNobody};
ghost use Rattle.mirror_share.specs.Book.{KeepsCalls, KeepsHolder, ReleasesBy, StandsStill};
ghost use Rattle.mirror_share.specs.Counts.{count_of, holder_count};
ghost use Rattle.mirror_share.specs.Places.{job_at, IsEntryFault, JobsStay, OthersStay, RunsNowhere};
ghost use Rattle.mirror_share.specs.Refused.{IsRefusalOf};
ghost use Rattle.mirror_share.specs.Seats.{hand_of, place_of, CarriesHand};
ghost use Rattle.mirror_share.specs.Seen.{HasSeenCall, HasSeenHead};

use crate::blanks::Blanks;
use crate::calls::CallBook;
use crate::hand::Hand;
use crate::hands::{leave_of, numbers_in, step_of};
use crate::ledgers::Ledgers;
use crate::name::MirrorName;
use crate::seat::JobSeat;
use fleet_disk::Disk;
use node_base::{Props, RevNo};
use repo_core::Repo;
use repo_store::StoreFault;
use std::alloc::Global;
use store_share::{MasterBook, ReaderSeat, RevRow, RowNotes};
use sync_core::{MirrorCall, Reply, Seat, SyncFault, Token};
use uuid::Uuid;

/// A mirror's book: its store with what the row shows of it, the calls that were taken since it was opened, the running
/// seat whose call took its lock, and the jobs that run. Its ledgers count its numbers and its holder. While nobody holds
/// the lock it has the hand.
#[derive(Drop)]
pub struct MirrorBook<L: MirrorName, D: Disk> {
    book: CallBook<L, D>,
    ledgers: Ledgers<L>,
    spare: Option<Hand<L>>,
    ghost merged: { is_stuck_in book ≡ false → ledgers.merged.total ≡ count_of (standing_of (revisions_of (store_in book))).merged },
    ghost copying: { is_stuck_in book ≡ false → ledgers.copying.total ≡ count_of (standing_of (revisions_of (store_in book))).copying },
    ghost head: { is_stuck_in book ≡ false → ledgers.head.total ≡ (standing_of (revisions_of (store_in book))).head },
    ghost holder: { ledgers.holder.total ≡ holder_count (holder_of book) },
    ghost url: { is_stuck_in book ≡ false → is_some (holder_of book) ≡ true → is_some (standing_of (revisions_of (store_in book))).url ≡ true },
    ghost lock: { is_stuck_in book ≡ false → is_some (holder_of book) ≡ true → is_some (standing_of (revisions_of (store_in book))).lock ≡ true },
    ghost spared: { is_some spare ≡ is_none (holder_of book) },
}

impl<L: MirrorName, D: Disk> MirrorBook<L, D> {
    ghost use Rattle.mirror_share.specs.Names.{AreNamed};
    ghost use Rattle.mirror_share.specs.Stepped.{IsStepFrom, IsWhole, Stepped};
    ghost use Rattle.mirror_share.specs.Words.{jobs_in, master_in, mirror_of, KeepsCounts};

    /// The book of a mirror that is opened, at which nobody runs, with ledgers that are blank.
    pub(crate) fn open(alloc: Global, book: MasterBook<L, D>, blanks: Blanks) -> MirrorBook<L, D>
        requires { AreNamed blanks L.merged L.copying L.head L.holder }
        ensures book { master_of (mirror_of result) ≡ book }
        ensures opening { BeginsAt (repo_of book) (mirror_of result) }
        ensures nobody { HasNobody (mirror_of result) }
    {
        let book = CallBook::open(alloc, book);
        let numbers = numbers_in(book.repo());
        let (ledgers, hand) = Ledgers::open(blanks, numbers);
        MirrorBook {
            book,
            ledgers,
            spare: Some(hand),
        }
    }

    /// The store's book, with all that was taken.
    pub fn into_book(self) -> MasterBook<L, D>
        ensures { result ≡ master_of (mirror_of self) }
    {
        let MirrorBook {
            book,
            ledgers: _,
            spare: _,
        } = self;
        book.into_book()
    }

    /// Does nothing: its contract says what each book keeps. Its repository is the one at the opening after the calls, of
    /// which each was acceptable where it came, whoever held the lock then. A stop keeps it, and the row shows it up to
    /// the head, which is the newest revision unless a cell refused its box. Its ledgers count its numbers and its holder,
    /// and it has the hand just where nobody holds the lock.
    pub fn is_whole(&self)
        ensures whole { IsWhole (mirror_of self.now) }
        ensures kept { KeepsCounts self.now }
    {
        self.book.is_whole();
    }

    /// The repository, as the calls so far have left it.
    pub fn repo(&self) -> &Repo
        ensures { result.now ≡ repository_of (store_in (mirror_of self.now)) }
    {
        self.book.repo()
    }

    /// The repository's identity.
    pub fn identity(&self) -> Uuid
        ensures { result ≡ identity_of (store_in (mirror_of self.now)) }
    {
        self.book.identity()
    }

    /// The running seat whose call took the sync lock.
    pub fn holder(&self) -> Option<Seat>
        ensures { result ≡ holder_of (mirror_of self.now) }
    {
        self.book.holder()
    }

    /// A cell refused its box: each call is refused (32) from then on.
    pub fn is_stuck(&self) -> bool
        ensures { result ≡ is_stuck_in (mirror_of self.now) }
    {
        self.book.is_stuck()
    }

    /// A seat for the job of that token, which holds nothing. HolderRunning (55) where a job of that token runs,
    /// OutOfMemory (70).
    pub fn enter_job(&mut self, alloc: Global, token: &Token) -> Result<JobSeat<L>, SyncFault>
        ensures none { IfOk result (λ s. hand_of s ≡ None) }
        ensures alone { IfOk result (λ _. RunsNowhere (jobs_in self.old) token.now) }
        ensures free { IfOk result (λ s. job_at (jobs_in self.old) (place_of s) ≡ None) }
        ensures there { IfOk result (λ s. job_at (jobs_in self.new) (place_of s) ≡ Some token.now) }
        ensures others { IfOk result (λ s. OthersStay (place_of s) (jobs_in self.old) (jobs_in self.new)) }
        ensures refused { IfErr result (IsEntryFault (jobs_in self.old) token.now) }
        ensures kept { OnErr result (JobsStay (jobs_in self.old) (jobs_in self.new)) }
        ensures same { KeepsHolder (mirror_of self.old) (mirror_of self.new) }
    {
        match self.book.enter_job(alloc, token) {
            Ok(place) => Ok(JobSeat::new(place)),
            Err(fault) => Err(fault),
        }
    }

    /// The job leaves: its place is free. Where the seat has the hand it goes back to the book, and there is no holder from
    /// then on; the lock stays.
    pub fn leave(&mut self, seat: JobSeat<L>)
        ensures left { job_at (jobs_in self.new) (place_of seat) ≡ None }
        ensures holder { ReleasesBy seat (mirror_of self.old) (mirror_of self.new) }
        ensures others { OthersStay (place_of seat) (jobs_in self.old) (jobs_in self.new) }
        ensures same { KeepsCalls (mirror_of self.old) (mirror_of self.new) }
    {
        let MirrorBook {
            book,
            ledgers,
            spare,
        } = self;
        leave_of(book, ledgers, spare, seat);
    }

    /// One call of a job: taken, or refused by the table of the calls or by what keeps the mirror. A revision that is
    /// committed is on the disk and in its cell when the call is answered. 31 only where the device failed in it: the
    /// call may stand on the disk then, and each later one but a look is refused (32). 32 too where the revision's cell
    /// refused its box: the call stands then, unseen, and each later one is refused. 36 only where the journal has no
    /// room for the call's entry. Behind any other refusal, want of memory (70) too, the disk is as it was.
    ///
    /// A seat that holds the lock has the hand, and gives it back with the lock. While it has it, a look tells what is
    /// counted, and a lawful call of its job is never refused for the lock (59) or the turn (61). (A seat without the hand
    /// whose place holds the lock can't be; it would be turned away.)
    pub fn step(
        &mut self,
        alloc: Global,
        row: &RevRow,
        seat: &mut JobSeat<L>,
        call: &MirrorCall<'_>,
    ) -> Result<Reply, SyncFault>
        requires { row.now ≡ L.cells }
        ensures stepped { Stepped (mirror_of self.old) (mirror_of self.new) (place_of seat.old) (call_of call.now) result }
        ensures fits { IfOk result (IsFit (call_of call.now)) }
        ensures refused { IfErr result (IsRefusalOf (call_of call.now)) }
        ensures seat { place_of seat.new ≡ place_of seat.old }
        ensures carried { CarriesHand seat.old seat.new (call_of call.now) result }
    {
        let MirrorBook {
            book,
            ledgers,
            spare,
        } = self;
        step_of(book, ledgers, spare, alloc, row, seat, call)
    }

    /// One call of a job, as [`MirrorBook::step`]; where it is taken the reader has seen all that the book shows then: a
    /// revision that was committed, with its set, and the head that a look tells.
    pub fn step_by(
        &mut self,
        alloc: Global,
        row: &RevRow,
        seat: &mut JobSeat<L>,
        reader: &mut ReaderSeat<L>,
        call: &MirrorCall<'_>,
    ) -> Result<Reply, SyncFault>
        requires { row.now ≡ L.cells }
        ensures stepped { IsStepFrom (mirror_of self.old) (place_of seat.old) (call_of call.now) result }
        ensures fits { IfOk result (IsFit (call_of call.now)) }
        ensures refused { IfErr result (IsRefusalOf (call_of call.now)) }
        ensures seat { place_of seat.new ≡ place_of seat.old }
        ensures carried { CarriesHand seat.old seat.new (call_of call.now) result }
        ensures commit { OnOk result (HasSeenCall reader.new (call_of call.now)) }
        ensures head { IfOk result (λ r. HasSeenHead r (seen_by reader.new)) }
        ensures later { SeesOn reader.old reader.new }
        ensures kept { KeepsSeen reader.old reader.new }
    {
        let _head = self.book.repo().head();
        match self.step(alloc, row, seat, call) {
            Ok(reply) => {
                let _ = self.book.repo();
                let _newest = self.latest(reader);
                Ok(reply)
            }
            Err(fault) => Err(fault),
        }
    }

    /// The newest revision that the reader has seen, or that the book shows; the reader has seen it then.
    pub fn latest(&mut self, reader: &mut ReaderSeat<L>) -> RevNo
        ensures most { IsAtLeast reader.old (master_in self.old) result }
        ensures one { IsOneOf reader.old (master_in self.old) result }
        ensures seen { seen_by reader.new ≡ result }
        ensures known { KnowsShown (master_in self.old) reader.new }
        ensures kept { KeepsSeen reader.old reader.new }
        ensures found { KeepsFound reader.old reader.new }
        ensures same { StandsStill (mirror_of self.old) (mirror_of self.new) }
        ensures safe { IsKept (store_in (mirror_of self.old)) }
    {
        self.book.latest(reader)
    }

    /// The seat of a reader, who has seen what the book shows. The notes are of the book's row.
    pub fn seat_reader(&mut self, notes: RowNotes) -> ReaderSeat<L>
        requires { cells_in notes ≡ L.cells }
        ensures seen { seen_by result ≡ head_of (master_in self.old) }
        ensures known { KnowsShown (master_in self.old) result }
        ensures same { StandsStill (mirror_of self.old) (mirror_of self.new) }
        ensures safe { IsKept (store_in (mirror_of self.old)) }
    {
        self.book.seat_reader(notes)
    }

    /// The properties that a revision has now. NoSuchRevision (21) above the head, OutOfMemory (70).
    pub fn rev_props(&self, number: RevNo) -> Result<Props, StoreFault>
        ensures props { IfOk result (GivesProps (master_in self.now) number) }
        ensures refused { IfErr result (IsFetchFault (master_in self.now) number) }
    {
        self.book.rev_props(number)
    }
}
