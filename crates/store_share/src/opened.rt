//! An opened store, whose row has no name yet.
ghost use Rattle.std.specs.Prelude.{◌≡◌, length, IfOk, IfErr};
ghost use Rattle.repo_store.specs.Words.{repository_of, revisions_of};
ghost use Rattle.store_share.specs.Row.{cells_in, known_at, rev_at};
ghost use Rattle.store_share.specs.Facts.{shown_prop};
ghost use Rattle.store_share.specs.Shown.{Shows};

use crate::book::MasterBook;
use crate::fault::RowFault;
use crate::name::RowName;
use crate::notes::RowNotes;
use crate::row::RevRow;
use crate::share::MasterShare;
use fleet_disk::Disk;
use repo_store::RepoStore;
use std::alloc::Global;

/// An opened store and its row, which shows all its revisions. Its share takes the row's name: a function over a
/// [`RowName`] of these cells gives it, and whoever calls that function with a `Brand` picks the name.
#[derive(Drop)]
pub struct OpenedStore<D: Disk> {
    store: RepoStore<D>,
    row: RevRow,
    notes: RowNotes,
    ghost cells: { cells_in notes ≡ row },
    ghost long: { length row ≡ 65536 },
    ghost shown: { Shows (length (revisions_of store)) notes (repository_of store) } by { shown_prop (length (revisions_of store)) (known_at notes) (rev_at (repository_of store)) },
}

impl<D: Disk> OpenedStore<D> {
    ghost use Rattle.store_share.specs.Opened.{cells_of, store_in};
    ghost use Rattle.store_share.specs.Book.{IsBookOf};
    ghost use Rattle.store_share.specs.Locked.{row_of};

    /// The row of a store. Only want of memory (70) refuses it, or a cell (32), which doesn't come; the store is handed
    /// back then.
    pub fn of(
        alloc: Global,
        store: RepoStore<D>,
    ) -> Result<OpenedStore<D>, (RowFault, RepoStore<D>)>
        ensures store { IfOk result (λ o. store_in o ≡ store) }
        ensures back { IfErr result (λ e. e.1 ≡ store) }
    {
        match RevRow::of_store(alloc, &store) {
            Ok((row, notes)) => Ok(OpenedStore { store, row, notes }),
            Err(fault) => Err((fault, store)),
        }
    }

    /// The store.
    pub fn store(&self) -> &RepoStore<D>
        ensures { result.now ≡ store_in self.now }
    {
        &self.store
    }

    /// The book of the store under the row's name, and the row: what a share is made of.
    pub fn into_book<L: RowName>(self) -> (MasterBook<L, D>, RevRow)
        requires { cells_of self ≡ L.cells }
        ensures book { IsBookOf (store_in self) result.0 }
        ensures row { result.1 ≡ L.cells }
    {
        let OpenedStore { store, row, notes } = self;
        (MasterBook::open(store, notes), row)
    }

    /// The share of the store under the row's name.
    pub fn named<L: RowName>(self) -> MasterShare<L, D>
        requires { cells_of self ≡ L.cells }
        ensures { row_of result ≡ cells_of self }
    {
        let (book, row) = self.into_book::<L>();
        MasterShare::new(book, row)
    }
}
