//! The row.
ghost use Rattle.std.specs.Prelude.{◌≡◌, ◌≢◌, ◌<◌, ℕ, List, length, slice_index};
ghost use Rattle.std.specs.Prelude.{Some, None, IsSome, IfSome, IfNone, IfOk, IfErr, OnOk};
ghost use Rattle.repo_store.specs.Words.{repository_of};
ghost use Rattle.store_share.specs.Row.{cells_in, known_at, rev_at, CellsStay, ChangeOnly, IsSetAlready, KeepKnown};
ghost use Rattle.store_share.specs.Row.{Knows, KnowsToo, ReadsKnown, Rev as RevOf};
ghost use Rattle.store_share.specs.Shown.{KnowsNoMore, KnowsWhole, ShowsWhole};

use crate::fault::RowFault;
use crate::notes::RowNotes;
use crate::rev::{Rev, rev_of};
use fleet_disk::Disk;
use gate_log::Receipt;
use node_base::RevNo;
use once_cell::race::{Note, OnceBox};
use repo_core::Repo;
use repo_store::RepoStore;
use std::alloc::{AllocError, Global};
use std::marker::Model;

// How many revisions there can be: 0 to 65,535.
const CELLS: u32 = 65_536;

/// A row of cells, one for each revision number, seen by contracts as the cells' names. A cell that was set shows its
/// revision for good, to each thread the same.
#[derive(Drop)]
pub struct RevRow {
    cells: Vec<OnceBox<Rev>>,
}

impl Model for RevRow {
    ghost use Rattle.std.specs.Prelude.{◌≡◌, ℕ, List, map, vec_len};
    ghost use Rattle.once_cell.specs.Once.{cell_name};

    ghost Value = { List ℕ };

    ghost view = { λ r. map cell_name r.cells.items };

    ghost invariant = { λ r. vec_len r.cells ≡ 65536 };
}

impl RevRow {
    /// A row of empty cells.
    pub fn new(alloc: Global) -> Result<RevRow, AllocError>
        ensures { IfOk result (λ r. length r ≡ 65536) }
    {
        let cells = empty_cells(alloc)?;
        Ok(RevRow { cells })
    }

    /// The row of an opened store, whose cells show its revisions, and notes that know these and nothing else. Failed
    /// (32) where a cell refuses its box, OutOfMemory (70).
    pub fn of_store<D: Disk>(
        alloc: Global,
        store: &RepoStore<D>,
    ) -> Result<(RevRow, RowNotes), RowFault>
        ensures size { IfOk result (λ p. length p.0 ≡ 65536) }
        ensures cells { IfOk result (λ p. cells_in p.1 ≡ p.0) }
        ensures shown { IfOk result (λ p. ShowsWhole (repository_of store.now) p.1) }
        ensures there { IfOk result (λ p. KnowsWhole (repository_of store.now) p.1) }
        ensures empty { IfOk result (λ p. KnowsNoMore (repository_of store.now) p.1) }
    {
        let row = RevRow::new(alloc)?;
        let mut notes = row.notes(alloc)?;
        row.put_all(alloc, store.repo(), &mut notes)?;
        Ok((row, notes))
    }

    /// A note of the cell of that number, which knows nothing.
    pub fn note(&self, number: RevNo) -> Note<Rev>
        ensures cell { result.cell ≡ slice_index self.now number }
        ensures nothing { result.known ≡ None }
    {
        self.cells[number.index()].note()
    }

    /// Notes of all cells, which know nothing. They take no bytes, so that memory never refuses them in fact.
    pub fn notes(&self, alloc: Global) -> Result<RowNotes, AllocError>
        ensures cells { IfOk result (λ n. cells_in n ≡ self.now) }
        ensures nothing { IfOk result (λ n. (r : ℕ) → known_at n r ≡ None) }
        ensures size { length self.now ≡ 65536 }
    {
        let mut notes = Vec::with_capacity(alloc, self.cells.len())?;
        for cell in &self.cells {
            notes.push(cell.note())?;
        }
        Ok(RowNotes { notes })
    }

    /// The revision that the cell of that number shows, and None where it shows none of that number. It waits for
    /// nobody. What the note knows is answered, now and for good; what is answered the note knows from then on.
    pub fn read_at(&self, number: RevNo, note: &mut Note<Rev>) -> Option<&Rev>
        requires { note.old.cell ≡ slice_index self.now number }
        ensures cell { note.new.cell ≡ note.old.cell }
        ensures value { IfSome result (λ r. (note.new.known ≡ Some r.now) × (r.now.number ≡ number)) }
        ensures none { IfNone result ((x : RevOf) → note.new.known ≡ Some x → x.number ≢ number) }
        ensures kept { KnowsToo note.old.known note.new.known }
        ensures known { ReadsKnown note.old.known number result }
    {
        let rev = self.cells[number.index()].get_as(note)?;
        if rev.number == number {
            Some(rev)
        } else {
            None
        }
    }

    /// Shows a revision whose entry is on the disk in the cell of its number. Failed (32) where the cell refuses it:
    /// it shows one then, which the note knows.
    pub fn show(
        &self,
        receipt: Receipt,
        rev: Box<Rev>,
        note: &mut Note<Rev>,
    ) -> Result<(), RowFault>
        requires { note.old.cell ≡ slice_index self.now rev.value.number }
        ensures cell { note.new.cell ≡ note.old.cell }
        ensures shown { OnOk result ((note.old.known ≡ None) × (note.new.known ≡ Some rev.value)) }
        ensures kept { KnowsToo note.old.known note.new.known }
        ensures refused { IfErr result (IsSetAlready note.new.known) }
    {
        let _receipt = receipt;
        self.set(rev, note)
    }

    /// The same of notes: the revision that the cell of that number shows.
    pub fn see<'a>(&'a self, number: RevNo, notes: &mut RowNotes) -> Option<&'a Rev>
        requires { cells_in notes.old ≡ self.now }
        ensures cells { CellsStay notes.old notes.new }
        ensures value { IfSome result (λ r. (known_at notes.new number ≡ Some r.now) × (r.now.number ≡ number)) }
        ensures others { ChangeOnly number notes.old notes.new }
        ensures kept { KeepKnown notes.old notes.new }
        ensures known { ReadsKnown (known_at notes.old number) number result }
    {
        self.size();
        let note = &mut notes.notes[number.index()];
        self.read_at(number, note)
    }

    /// The same of notes: shows a revision whose entry is on the disk. Failed (32) where the cell refuses it.
    pub fn show_in(
        &self,
        receipt: Receipt,
        rev: Box<Rev>,
        notes: &mut RowNotes,
    ) -> Result<(), RowFault>
        requires { cells_in notes.old ≡ self.now }
        ensures cells { CellsStay notes.old notes.new }
        ensures shown { OnOk result (Knows notes.new rev.value) }
        ensures others { ChangeOnly rev.value.number notes.old notes.new }
        ensures kept { KeepKnown notes.old notes.new }
        ensures refused { IfErr result (IsSetAlready (known_at notes.new rev.value.number)) }
    {
        let _receipt = receipt;
        self.put(rev, notes)
    }

    // Shows the revisions of a repository.
    fn put_all(&self, alloc: Global, repo: &Repo, notes: &mut RowNotes) -> Result<(), RowFault>
        requires cells { cells_in notes.old ≡ self.now }
        requires nothing { (r : ℕ) → known_at notes.old r ≡ None }
        ensures cells { CellsStay notes.old notes.new }
        ensures shown { OnOk result (ShowsWhole repo.now notes.new) }
        ensures there { OnOk result (KnowsWhole repo.now notes.new) }
        ensures empty { OnOk result (KnowsNoMore repo.now notes.new) }
    {
        for i in 0..repo.head().index() + 1 {
            self.put_one(alloc, repo, RevNo::new(i as u16), notes)?;
        }
        Ok(())
    }

    // Shows a revision of a repository.
    fn put_one(
        &self,
        alloc: Global,
        repo: &Repo,
        number: RevNo,
        notes: &mut RowNotes,
    ) -> Result<(), RowFault>
        requires cells { cells_in notes.old ≡ self.now }
        requires there { number < length repo.now.revisions }
        ensures cells { CellsStay notes.old notes.new }
        ensures shown { OnOk result (known_at notes.new number ≡ rev_at repo.now number) }
        ensures there { OnOk result (IsSome (known_at notes.new number)) }
        ensures others { ChangeOnly number notes.old notes.new }
    {
        let rev = match rev_of(alloc, repo, number) {
            Ok(rev) => rev,
            Err(fault) => return Err(RowFault::from(fault)),
        };
        self.put(rev, notes)
    }

    // Shows a revision in the cell of its number.
    fn put(&self, rev: Box<Rev>, notes: &mut RowNotes) -> Result<(), RowFault>
        requires { cells_in notes.old ≡ self.now }
        ensures cells { CellsStay notes.old notes.new }
        ensures shown { OnOk result (Knows notes.new rev.value) }
        ensures others { ChangeOnly rev.value.number notes.old notes.new }
        ensures kept { KeepKnown notes.old notes.new }
        ensures refused { IfErr result (IsSetAlready (known_at notes.new rev.value.number)) }
    {
        self.size();
        let number = rev.number;
        let note = &mut notes.notes[number.index()];
        self.set(rev, note)
    }

    // Sets the cell of its number.
    fn set(&self, rev: Box<Rev>, note: &mut Note<Rev>) -> Result<(), RowFault>
        requires { note.old.cell ≡ slice_index self.now rev.value.number }
        ensures cell { note.new.cell ≡ note.old.cell }
        ensures shown { OnOk result ((note.old.known ≡ None) × (note.new.known ≡ Some rev.value)) }
        ensures kept { KnowsToo note.old.known note.new.known }
        ensures refused { IfErr result (IsSetAlready note.new.known) }
    {
        let number = rev.number;
        match self.cells[number.index()].set_as(rev, note) {
            Ok(()) => Ok(()),
            Err(_) => Err(RowFault::Failed),
        }
    }

    // How many cells there are.
    fn size(&self) -> usize
        ensures { (result ≡ 65536) × (length self.now ≡ 65536) }
    {
        self.cells.len()
    }
}

fn empty_cells(alloc: Global) -> Result<Vec<OnceBox<Rev>>, AllocError>
    ensures { IfOk result (λ v. length v.items ≡ 65536) }
{
    let mut cells = Vec::with_capacity(alloc, 65_536)?;
    for _i in 0..CELLS {
        cells.push(OnceBox::new(alloc))?;
    }
    Ok(cells)
}
