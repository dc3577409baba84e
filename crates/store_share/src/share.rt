//! A store behind its lock, with its row beside it.
ghost use Rattle.std.specs.Prelude.{◌≡◌, ◌≤◌, ◌<◌, None, IfOk, IfErr, IfNone, OnOk};
ghost use Rattle.std.specs.Option.{option_copied};
ghost use Rattle.repo_core.specs.Dates.{dated};
ghost use Rattle.repo_core.specs.declared.entry.Entry.TheVariants.{Mapped};
ghost use Rattle.store_share.specs.Row.{HasChanges, ReadsKnown};
ghost use Rattle.store_share.specs.Seats.{known_by, seen_by, KeepsFound, KeepsSeen, ReadsAs, ReadsSeen, SeesOn};

use crate::book::MasterBook;
use crate::name::RowName;
use crate::rev::Rev;
use crate::row::RevRow;
use crate::seat::ReaderSeat;
use dump_load::ChangeSet;
use fleet_disk::Disk;
use node_base::{PropName, Props, RevNo};
use repo_core::{Expected, Moment};
use repo_store::StoreFault;
use std::alloc::{AllocError, Global};
use std::sync::{Mutex, Wait};
use uuid::Uuid;

/// A repository on a disk that several threads share.
#[derive(Drop)]
pub struct MasterShare<L: RowName, D: Disk> {
    book: Mutex<MasterBook<L, D>>,
    row: RevRow,
    ghost row_is: { row ≡ L.cells },
}

impl<L: RowName, D: Disk> MasterShare<L, D> {
    ghost use Rattle.store_share.specs.Locked.{row_of, HasIdentity, HasProps, IsChangeOf, IsNewest, IsPropOf, IsSetOf};
    ghost use Rattle.store_share.specs.Locked.{IsShownTo, IsUnfetched, TellsAbove};
    ghost use Rattle.store_share.specs.Whole.{IsWhole};

    /// A book behind a lock, and its row.
    pub fn new(book: MasterBook<L, D>, row: RevRow) -> MasterShare<L, D>
        requires { row ≡ L.cells }
        ensures { row_of result ≡ row }
    {
        MasterShare {
            book: Mutex::new(book),
            row,
        }
    }

    /// The book, with all that a book keeps.
    pub fn close(self) -> MasterBook<L, D>
        ensures { IsWhole result }
    {
        let MasterShare { book, row: _ } = self;
        let book = book.into_inner();
        book.is_whole();
        book
    }

    /// The repository's identity. What a call finds is of the book as the lock has it, which its caller doesn't know.
    pub fn identity<R: Wait>(&self, rt: &R) -> Uuid
        ensures { HasIdentity self.now result }
    {
        self.book.lock(rt).identity()
    }

    /// The seat of a reader, who has seen what is shown now. Only want of memory (70) refuses it.
    pub fn enter_reader<R: Wait>(&self, rt: &R, alloc: Global) -> Result<ReaderSeat<L>, AllocError>
        ensures { IfOk result (λ s. IsShownTo self.now s (seen_by s)) }
    {
        let notes = self.row.notes(alloc)?;
        Ok(self.book.lock(rt).seat_reader(notes))
    }

    /// The newest revision, which the reader has seen then. It never falls for a reader.
    pub fn latest<R: Wait>(&self, rt: &R, reader: &mut ReaderSeat<L>) -> RevNo
        ensures most { seen_by reader.old ≤ result }
        ensures seen { seen_by reader.new ≡ result }
        ensures kept { KeepsSeen reader.old reader.new }
        ensures found { KeepsFound reader.old reader.new }
        ensures newest { IsNewest self.now (seen_by reader.old) reader.new result }
    {
        self.book.lock(rt).latest(reader)
    }

    /// The revision of that number, where the reader has seen it or its cell shows it. It waits for nobody, and takes
    /// no memory. What the reader has seen it reads for good, and so what it was given once.
    pub fn read_at<'a>(&'a self, reader: &mut ReaderSeat<L>, number: RevNo) -> Option<&'a Rev>
        ensures there { number ≤ seen_by reader.old → IfNone result ⊥ }
        ensures value { ReadsSeen reader.old number result }
        ensures again { ReadsKnown (known_by reader.old number) number result }
        ensures number { ReadsAs reader.new number result }
        ensures seen { seen_by reader.new ≡ seen_by reader.old }
        ensures kept { KeepsFound reader.old reader.new }
    {
        reader.read_in(&self.row, number)
    }

    /// Commits a set of changes against the head. The revision is on the disk and in its cell when its number is
    /// answered, and the committer has seen it. Refused are what a store refuses of a commit, and each change after a
    /// cell that refused its box (32).
    pub fn commit<R: Wait>(
        &self,
        rt: &R,
        alloc: Global,
        reader: &mut ReaderSeat<L>,
        base: RevNo,
        set: ChangeSet,
        props: Props,
        moment: Option<Moment>,
    ) -> Result<RevNo, StoreFault>
        ensures commits { IsSetOf self.now base set (dated props moment) result }
        ensures seen { IfOk result (λ n. n ≤ seen_by reader.new) }
        ensures later { SeesOn reader.old reader.new }
        ensures set { IfOk result (λ n. HasChanges (known_by reader.new n) set) }
        ensures kept { KeepsSeen reader.old reader.new }
    {
        self.book
            .lock(rt)
            .commit_by(alloc, &self.row, reader, base, set, props, moment)
    }

    /// Puts a value at the name of a property of a revision, or takes it away, where the present value is as expected.
    /// Refused are what a store refuses of it, and each change after a cell that refused its box (32).
    pub fn change_prop<R: Wait>(
        &self,
        rt: &R,
        alloc: Global,
        number: RevNo,
        name: &PropName,
        value: Option<&[u8]>,
        expected: &Expected,
    ) -> Result<(), StoreFault>
        ensures { IsPropOf self.now number name.now (option_copied value.entry) expected.now result }
    {
        self.book
            .lock(rt)
            .change_prop(alloc, number, name, value, expected)
    }

    /// Puts all properties of a revision. Refused are what a store refuses of it, and each change after a cell that
    /// refused its box (32).
    pub fn put_props<R: Wait>(
        &self,
        rt: &R,
        alloc: Global,
        number: RevNo,
        props: Props,
    ) -> Result<(), StoreFault>
        ensures { IsChangeOf self.now (Mapped number props) result }
    {
        self.book.lock(rt).put_props(alloc, number, props)
    }

    /// The properties that a revision has now. NoSuchRevision (21) above the head, OutOfMemory (70).
    pub fn fetch_props<R: Wait>(&self, rt: &R, number: RevNo) -> Result<Props, StoreFault>
        ensures props { IfOk result (HasProps self.now number) }
        ensures refused { IfErr result IsUnfetched }
        ensures above { IfErr result (TellsAbove self.now number) }
    {
        self.book.lock(rt).fetch_props(number)
    }

    /// The changes of a revision, and the properties that it has now; the reader has seen the revision then.
    /// NoSuchRevision (21) above the head, OutOfMemory (70).
    pub fn fetch<R: Wait>(
        &self,
        rt: &R,
        alloc: Global,
        reader: &mut ReaderSeat<L>,
        number: RevNo,
    ) -> Result<(ChangeSet, Props), StoreFault>
        ensures within { IfOk result (λ p. number ≤ seen_by reader.new) }
        ensures set { IfOk result (λ p. HasChanges (known_by reader.new number) p.0) }
        ensures props { IfOk result (λ p. HasProps self.now number p.1) }
        ensures kept { KeepsSeen reader.old reader.new }
        ensures seen { SeesOn reader.old reader.new }
        ensures refused { IfErr result IsUnfetched }
        ensures above { IfErr result (TellsAbove self.now number) }
    {
        self.book.lock(rt).fetch(alloc, reader, number)
    }
}
