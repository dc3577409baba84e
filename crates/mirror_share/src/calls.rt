//! A mirror's store with the calls that were taken of it.
ghost use Rattle.std.specs.Prelude.{◌≡◌, ◌<◌, map, true, false, Some, None, Err};
ghost use Rattle.std.specs.Prelude.{IfOk, IfErr, OnOk, OnErr};
ghost use Rattle.repo_store.specs.Words.{identity_of, repository_of, IsKept};
ghost use Rattle.store_share.specs.Row.{cells_in};
ghost use Rattle.store_share.specs.Book.{head_of, repo_of, store_of, GivesProps, IsAtLeast, IsOneOf, IsFetchFault};
ghost use Rattle.store_share.specs.Book.{KnowsShown, ShowsNewest};
ghost use Rattle.store_share.specs.Seats.{seen_by, KeepsFound, KeepsSeen};
ghost use Rattle.sync_core.specs.Calls.{call_of};
ghost use Rattle.sync_core.specs.Copies.{call_in};
ghost use Rattle.sync_core.specs.Plans.{IsToWrite};
ghost use Rattle.sync_job.specs.Fronts.{replayed};
ghost use Rattle.sync_job.specs.Mirrors.{IsFit, mirror_in};
ghost use Rattle.mirror_share.specs.Acceptable.{may_all_come};
ghost use Rattle.mirror_share.specs.Facts.{replay_prop};
ghost use Rattle.mirror_share.specs.Places.{job_at, IsEntryFault, JobsStay, OthersStay, RunsNowhere};
ghost use Rattle.mirror_share.specs.Refused.{IsRefusalOf};

use crate::entries::take;
use crate::faults::fault_of;
use crate::jobs::RunningJobs;
use fleet_disk::Disk;
use node_base::{Props, Refusal, RevNo};
use repo_core::{Entry, Repo};
use repo_store::StoreFault;
use std::alloc::Global;
use std::snapshot::Snapshot;
use store_share::{MasterBook, ReaderSeat, RevRow, RowName, RowNotes};
use sync_core::{KeptCall, MirrorCall, Planned, Reply, Seat, SyncFault, Token, holder_after, plan};
use uuid::Uuid;

/// A mirror's book: its store with what the row shows of it, the calls that were taken since it was opened, the running
/// seat whose call took its lock, and the jobs that run. Its repository is the one at the opening after those calls, each
/// of which was acceptable where it came.
#[derive(Drop)]
pub(crate) struct CallBook<L: RowName, D: Disk> {
    book: MasterBook<L, D>,
    opening: Snapshot<Repo>,
    calls: Vec<KeptCall>,
    holder: Option<Seat>,
    jobs: RunningJobs,
    ghost replay: { repository_of (store_of book) ≡ replayed opening.value (map call_in calls.items) } by { replay_prop (repository_of (store_of book)) (replayed opening.value (map call_in calls.items)) },
    ghost came: { may_all_come opening.value (map call_in calls.items) ≡ true },
}

impl<L: RowName, D: Disk> CallBook<L, D> {
    ghost use Rattle.mirror_share.specs.Book.{holder_of, is_stuck_in, jobs_of, master_of, now_of, store_in, BeginsAt};
    ghost use Rattle.mirror_share.specs.Book.{HasNobody, KeepsHolder, KeepsJobs, StandsStill};
    ghost use Rattle.mirror_share.specs.Stepped.{IsWhole, Stepped};

    /// The book of a mirror that is opened, at which nobody runs.
    pub(crate) fn open(alloc: Global, book: MasterBook<L, D>) -> CallBook<L, D>
        ensures book { master_of result ≡ book }
        ensures opening { BeginsAt (repo_of book) result }
        ensures nobody { HasNobody result }
    {
        let opening = Snapshot::of(book.repo());
        CallBook {
            book,
            opening,
            calls: Vec::new(alloc),
            holder: None,
            jobs: RunningJobs::new(alloc),
        }
    }

    /// The store's book, with all that was taken.
    pub(crate) fn into_book(self) -> MasterBook<L, D>
        ensures { result ≡ master_of self }
    {
        self.book
    }

    /// Does nothing: its contract says what each book keeps. Its repository is the one at the opening after the calls, of
    /// which each was acceptable where it came, whoever held the lock then. A stop keeps it, and the row shows it up to
    /// the head, which is the newest revision unless a cell refused its box.
    pub(crate) fn is_whole(&self)
        ensures { IsWhole self.now }
    {
        let _ = self.book.repo();
    }

    /// The repository, as the calls so far have left it.
    pub(crate) fn repo(&self) -> &Repo
        ensures value { result.now ≡ repository_of (store_in self.now) }
        ensures newest { is_stuck_in self.now ≡ false → ShowsNewest (master_of self.now) }
    {
        self.book.repo()
    }

    /// The repository's identity.
    pub(crate) fn identity(&self) -> Uuid
        ensures { result ≡ identity_of (store_in self.now) }
    {
        self.book.identity()
    }

    /// The running seat whose call took the sync lock.
    pub(crate) fn holder(&self) -> Option<Seat>
        ensures { result ≡ holder_of self.now }
    {
        self.holder
    }

    /// A cell refused its box: each call is refused (32) from then on.
    pub(crate) fn is_stuck(&self) -> bool
        ensures { result ≡ is_stuck_in self.now }
    {
        self.book.is_stuck()
    }

    /// A place for the job of that token. HolderRunning (55) where a job of that token runs, OutOfMemory (70).
    pub(crate) fn enter_job(&mut self, alloc: Global, token: &Token) -> Result<usize, SyncFault>
        ensures alone { IfOk result (λ _. RunsNowhere (jobs_of self.old) token.now) }
        ensures free { IfOk result (λ i. job_at (jobs_of self.old) i ≡ None) }
        ensures there { IfOk result (λ i. job_at (jobs_of self.new) i ≡ Some token.now) }
        ensures others { IfOk result (λ i. OthersStay i (jobs_of self.old) (jobs_of self.new)) }
        ensures refused { IfErr result (IsEntryFault (jobs_of self.old) token.now) }
        ensures kept { OnErr result (JobsStay (jobs_of self.old) (jobs_of self.new)) }
        ensures same { KeepsHolder self.old self.new }
    {
        self.jobs.enter(alloc, token)
    }

    /// The job at a place leaves: the place is free.
    pub(crate) fn leave(&mut self, place: usize)
        ensures left { job_at (jobs_of self.new) place ≡ None }
        ensures others { OthersStay place (jobs_of self.old) (jobs_of self.new) }
        ensures same { KeepsHolder self.old self.new }
    {
        self.jobs.leave(place);
    }

    /// There is no holder from then on, and the lock stays.
    pub(crate) fn let_go(&mut self)
        ensures holder { holder_of self.new ≡ None }
        ensures same { KeepsJobs self.old self.new }
    {
        self.holder = None;
    }

    /// One call of a job: taken, or refused by the table of the calls or by what keeps the mirror. A revision that is
    /// committed is on the disk and in its cell when the call is answered. 31 only where the device failed in it: the
    /// call may stand on the disk then, and each later one but a look is refused (32). 32 too where the revision's cell
    /// refused its box: the call stands then, unseen, and each later one is refused. 36 only where the journal has no
    /// room for the call's entry. Behind any other refusal, want of memory (70) too, the disk is as it was.
    pub(crate) fn step(
        &mut self,
        alloc: Global,
        row: &RevRow,
        seat: Seat,
        call: &MirrorCall<'_>,
    ) -> Result<Reply, SyncFault>
        requires { row.now ≡ L.cells }
        ensures stepped { Stepped self.old self.new seat (call_of call.now) result }
        ensures fits { IfOk result (IsFit (call_of call.now)) }
        ensures refused { IfErr result (IsRefusalOf (call_of call.now)) }
    {
        let _head = self.book.repo().head();
        if self.book.is_stuck() {
            return Err(SyncFault::Other(Refusal::Failed));
        }
        match plan(alloc, self.book.repo(), self.holder, seat, call) {
            Ok(Planned::Tell(standing)) => Ok(Reply::Seen(standing)),
            Ok(Planned::Write(entry)) => self.write(alloc, row, seat, call, entry),
            Err(fault) => Err(fault),
        }
    }

    /// Refuses a call without a look at it: for want of memory (70), or with 32 where a cell has refused its box.
    pub(crate) fn turn_away(&self, seat: Seat, call: &MirrorCall<'_>) -> SyncFault
        ensures stepped { Stepped self.now self.now seat (call_of call.now) (Err result) }
        ensures refused { IsRefusalOf (call_of call.now) result }
    {
        let _ = seat;
        let _ = call;
        let _ = self.book.repo();
        if self.book.is_stuck() {
            return SyncFault::Other(Refusal::Failed);
        }
        SyncFault::OutOfMemory
    }

    /// The newest revision that the reader has seen, or that the book shows; the reader has seen it then.
    pub(crate) fn latest(&mut self, reader: &mut ReaderSeat<L>) -> RevNo
        ensures most { IsAtLeast reader.old (master_of self.old) result }
        ensures one { IsOneOf reader.old (master_of self.old) result }
        ensures seen { seen_by reader.new ≡ result }
        ensures known { KnowsShown (master_of self.old) reader.new }
        ensures kept { KeepsSeen reader.old reader.new }
        ensures found { KeepsFound reader.old reader.new }
        ensures same { StandsStill self.old self.new }
        ensures safe { IsKept (store_in self.old) }
    {
        let _ = self.book.repo();
        self.book.latest(reader)
    }

    /// The seat of a reader, who has seen what the book shows. The notes are of the book's row.
    pub(crate) fn seat_reader(&mut self, notes: RowNotes) -> ReaderSeat<L>
        requires { cells_in notes ≡ L.cells }
        ensures seen { seen_by result ≡ head_of (master_of self.old) }
        ensures known { KnowsShown (master_of self.old) result }
        ensures same { StandsStill self.old self.new }
        ensures safe { IsKept (store_in self.old) }
    {
        let _ = self.book.repo();
        self.book.seat_reader(notes)
    }

    /// The properties that a revision has now. NoSuchRevision (21) above the head, OutOfMemory (70).
    pub(crate) fn rev_props(&self, number: RevNo) -> Result<Props, StoreFault>
        ensures props { IfOk result (GivesProps (master_of self.now) number) }
        ensures refused { IfErr result (IsFetchFault (master_of self.now) number) }
    {
        self.book.fetch_props(number)
    }

    // The entry of a call is written: each growth first, and then the device's calls.
    fn write(
        &mut self,
        alloc: Global,
        row: &RevRow,
        seat: Seat,
        call: &MirrorCall<'_>,
        entry: Entry,
    ) -> Result<Reply, SyncFault>
        requires row { row.now ≡ L.cells }
        requires planned { IsToWrite (mirror_in (now_of self.old)) seat (call_of call.now) entry }
        requires works { is_stuck_in self.old ≡ false }
        ensures stepped { Stepped self.old self.new seat (call_of call.now) result }
        ensures fits { IfOk result (IsFit (call_of call.now)) }
    {
        let _ = self.book.repo();
        self.calls.reserve(1)?;
        let kept = KeptCall::of(alloc, call)?;
        match take(&mut self.book, alloc, row, entry) {
            Ok(()) => {
                let _ = self.book.repo();
                self.calls.push_reserved(kept);
                self.holder = holder_after(self.holder, seat, call);
                Ok(Reply::Done)
            }
            Err(fault) => {
                let _ = self.book.repo();
                if self.book.is_stuck() {
                    self.calls.push_reserved(kept);
                    return Err(SyncFault::Other(Refusal::Failed));
                }
                Err(fault_of(fault))
            }
        }
    }
}
