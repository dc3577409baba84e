//! A mirror behind its lock, with its row beside it.
ghost use Rattle.std.specs.Prelude.{◌≡◌, ◌≤◌, None, IfOk, IfErr, IfNone, IsErr, IsSome, OnOk};
ghost use Rattle.repo_core.specs.declared.fault.RepoFault.TheVariants as core;
ghost use Rattle.repo_store.specs.declared.fault.StoreFault.TheVariants as fault;
ghost use Rattle.repo_store.specs.Words.{repository_of};
ghost use Rattle.store_share.specs.Opened.{store_in};
ghost use Rattle.store_share.specs.Seats.{known_by, seen_by, KeepsFound, KeepsSeen, ReadsAs, ReadsSeen, SeesOn};
ghost use Rattle.sync_core.specs.Calls.{call_of};
ghost use Rattle.sync_core.specs.Holding.{TakesLock};
ghost use Rattle.sync_job.specs.Mirrors.{IsFit};
ghost use Rattle.mirror_share.specs.Refused.{IsRefusalOf};
ghost use Rattle.mirror_share.specs.Seats.{hand_of, place_of, CarriesHand};
ghost use Rattle.mirror_share.specs.Seen.{HasSeenHead};
ghost use Rattle.store_share.specs.Row.{ReadsKnown};
ghost use Rattle.store_share.specs.Locked.{IsUnfetched};

use crate::book::MirrorBook;
use crate::name::MirrorName;
use crate::opened::OpenedMirror;
use crate::seat::JobSeat;
use fleet_disk::Disk;
use node_base::{Props, RevNo};
use repo_store::StoreFault;
use std::alloc::{AllocError, Global};
use std::sync::{Mutex, Wait};
use store_share::{ReaderSeat, Rev, RevRow};
use sync_core::{MirrorCall, Reply, SyncFault, Token};
use uuid::Uuid;

/// A mirror on a disk that several threads share.
#[derive(Drop)]
pub struct MirrorShare<L: MirrorName, D: Disk> {
    book: Mutex<MirrorBook<L, D>>,
    row: RevRow,
    ghost row_is: { row ≡ L.cells },
}

impl<L: MirrorName, D: Disk> MirrorShare<L, D> {
    ghost use Rattle.mirror_share.specs.Locked.{row_of, HasIdentity, HasProps, IsAbove, IsEntryOf, IsKeptOut, IsLeaveOf, IsNewest};
    ghost use Rattle.mirror_share.specs.Locked.{IsShownTo, IsStepOf};
    ghost use Rattle.mirror_share.specs.Names.{opened_in, IsNamed};
    ghost use Rattle.mirror_share.specs.Seen.{HasSeenAll, HasSeenCall};
    ghost use Rattle.mirror_share.specs.Stepped.{IsWhole};
    ghost use Rattle.mirror_share.specs.Words.{mirror_of, KeepsCounts};

    /// The share of an opened mirror under its name. Nobody runs there, and no seat holds the sync lock, whatever token
    /// that has.
    pub fn of(alloc: Global, opened: OpenedMirror<D>) -> MirrorShare<L, D>
        requires { IsNamed opened L.cells L.merged L.copying L.head L.holder }
        ensures row { row_of result ≡ L.cells }
    {
        let (book, row) = opened.into_book::<L>(alloc);
        MirrorShare::behind_lock(book, row)
    }

    /// The same with the seat of a reader, who has seen all that was opened. Only want of memory (70) refuses that seat.
    pub fn with_reader(
        alloc: Global,
        opened: OpenedMirror<D>,
    ) -> (MirrorShare<L, D>, Result<ReaderSeat<L>, AllocError>)
        requires { IsNamed opened L.cells L.merged L.copying L.head L.holder }
        ensures row { row_of result.0 ≡ L.cells }
        ensures seen { IfOk result.1 (λ seat. HasSeenAll seat (repository_of (store_in (opened_in opened)))) }
    {
        let (mut book, row) = opened.into_book::<L>(alloc);
        match row.notes(alloc) {
            Ok(notes) => {
                book.is_whole();
                let reader = book.seat_reader(notes);
                (MirrorShare::behind_lock(book, row), Ok(reader))
            }
            Err(refused) => (MirrorShare::behind_lock(book, row), Err(refused)),
        }
    }

    // A book behind a lock, and its row.
    fn behind_lock(book: MirrorBook<L, D>, row: RevRow) -> MirrorShare<L, D>
        requires { row ≡ L.cells }
        ensures { row_of result ≡ row }
    {
        MirrorShare {
            book: Mutex::new(book),
            row,
        }
    }

    /// The book, with all that a book keeps.
    pub fn close(self) -> MirrorBook<L, D>
        ensures { IsWhole (mirror_of result) × KeepsCounts result }
    {
        let MirrorShare { book, row: _ } = self;
        let book = book.into_inner();
        book.is_whole();
        book
    }

    /// The repository's identity. What a call finds is of the book as the lock has it, which its caller doesn't know.
    pub fn identity<R: Wait>(&self, rt: &R) -> Uuid
        ensures { HasIdentity self.now result }
    {
        self.book.lock(rt).identity()
    }

    /// A seat for the job of that token, which holds nothing. HolderRunning (55) where a job of that token runs,
    /// OutOfMemory (70).
    pub fn enter_job<R: Wait>(
        &self,
        rt: &R,
        alloc: Global,
        token: &Token,
    ) -> Result<JobSeat<L>, SyncFault>
        ensures none { IfOk result (λ s. hand_of s ≡ None) }
        ensures entered { IfOk result (λ s. IsEntryOf self.now token.now (place_of s)) }
        ensures refused { IfErr result (IsKeptOut self.now token.now) }
    {
        self.book.lock(rt).enter_job(alloc, token)
    }

    /// The job leaves. Where its seat has the hand there is no holder from then on, and the lock stays.
    pub fn leave<R: Wait>(&self, rt: &R, seat: JobSeat<L>)
        ensures { IsLeaveOf self.now (place_of seat) (hand_of seat) }
    {
        self.book.lock(rt).leave(seat);
    }

    /// One call of a job, as the book takes it ([`MirrorBook::step`]). While the seat holds the lock a look tells what is
    /// counted, which is what its own calls left; a lawful call of its job isn't refused for the lock (59) or the turn
    /// (61), and unless it gave the lock back it holds on and knows what is counted then. A seat that takes the lock or
    /// steals it holds it.
    pub fn step<R: Wait>(
        &self,
        rt: &R,
        alloc: Global,
        seat: &mut JobSeat<L>,
        call: &MirrorCall<'_>,
    ) -> Result<Reply, SyncFault>
        ensures fits { IfOk result (IsFit (call_of call.now)) }
        ensures refused { IfErr result (IsRefusalOf (call_of call.now)) }
        ensures stepped { IsStepOf self.now (place_of seat.old) (call_of call.now) result }
        ensures seat { place_of seat.new ≡ place_of seat.old }
        ensures carried { CarriesHand seat.old seat.new (call_of call.now) result }
    {
        self.book.lock(rt).step(alloc, &self.row, seat, call)
    }

    /// One call of a job, as [`MirrorShare::step`]; where it is taken the reader has seen all that is shown then: a
    /// revision that was committed, with its set, and the head that a look tells.
    pub fn step_by<R: Wait>(
        &self,
        rt: &R,
        alloc: Global,
        seat: &mut JobSeat<L>,
        reader: &mut ReaderSeat<L>,
        call: &MirrorCall<'_>,
    ) -> Result<Reply, SyncFault>
        ensures fits { IfOk result (IsFit (call_of call.now)) }
        ensures refused { IfErr result (IsRefusalOf (call_of call.now)) }
        ensures stepped { IsStepOf self.now (place_of seat.old) (call_of call.now) result }
        ensures seat { place_of seat.new ≡ place_of seat.old }
        ensures carried { CarriesHand seat.old seat.new (call_of call.now) result }
        ensures commit { OnOk result (HasSeenCall reader.new (call_of call.now)) }
        ensures head { IfOk result (λ r. HasSeenHead r (seen_by reader.new)) }
        ensures later { SeesOn reader.old reader.new }
        ensures kept { KeepsSeen reader.old reader.new }
    {
        self.book
            .lock(rt)
            .step_by(alloc, &self.row, seat, reader, call)
    }

    /// The same of a seat beside another one: while that one has the hand, no call of this one takes the lock or steals it.
    pub fn step_beside<R: Wait>(
        &self,
        rt: &R,
        alloc: Global,
        holder: &mut JobSeat<L>,
        seat: &mut JobSeat<L>,
        call: &MirrorCall<'_>,
    ) -> Result<Reply, SyncFault>
        ensures fits { IfOk result (IsFit (call_of call.now)) }
        ensures refused { IfErr result (IsRefusalOf (call_of call.now)) }
        ensures stepped { IsStepOf self.now (place_of seat.old) (call_of call.now) result }
        ensures alone { IsSome (hand_of holder.old) → TakesLock (call_of call.now) → IsErr result }
    {
        let answer = self.step(rt, alloc, seat, call);
        holder.is_alone(seat);
        answer
    }

    /// The seat of a reader, who has seen what is shown now. Only want of memory (70) refuses it.
    pub fn enter_reader<R: Wait>(&self, rt: &R, alloc: Global) -> Result<ReaderSeat<L>, AllocError>
        ensures { IfOk result (λ s. IsShownTo self.now s (seen_by s)) }
    {
        let notes = self.row.notes(alloc)?;
        Ok(self.book.lock(rt).seat_reader(notes))
    }

    /// The newest revision, which the reader has seen then. It never falls for a reader.
    pub fn latest<R: Wait>(&self, rt: &R, reader: &mut ReaderSeat<L>) -> RevNo
        ensures most { seen_by reader.old ≤ result }
        ensures seen { seen_by reader.new ≡ result }
        ensures kept { KeepsSeen reader.old reader.new }
        ensures found { KeepsFound reader.old reader.new }
        ensures newest { IsNewest self.now (seen_by reader.old) reader.new result }
    {
        self.book.lock(rt).latest(reader)
    }

    /// The revision of that number, where the reader has seen it or its cell shows it. It waits for nobody, and takes
    /// no memory. What the reader has seen it reads for good, and so what it was given once.
    pub fn read_at<'a>(&'a self, reader: &mut ReaderSeat<L>, number: RevNo) -> Option<&'a Rev>
        ensures there { number ≤ seen_by reader.old → IfNone result ⊥ }
        ensures value { ReadsSeen reader.old number result }
        ensures again { ReadsKnown (known_by reader.old number) number result }
        ensures number { ReadsAs reader.new number result }
        ensures seen { seen_by reader.new ≡ seen_by reader.old }
        ensures kept { KeepsFound reader.old reader.new }
    {
        reader.read_in(&self.row, number)
    }

    /// The properties that a revision has now. NoSuchRevision (21) above the head, OutOfMemory (70).
    pub fn rev_props<R: Wait>(&self, rt: &R, number: RevNo) -> Result<Props, StoreFault>
        ensures props { IfOk result (HasProps self.now number) }
        ensures refused { IfErr result IsUnfetched }
        ensures above { IfErr result (λ e. e ≡ fault.Repo core.NoSuchRevision → IsAbove self.now number) }
    {
        self.book.lock(rt).rev_props(number)
    }
}
