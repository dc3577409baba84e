//! An opened mirror, which has no name yet.
ghost use Rattle.std.specs.Prelude.{◌≡◌, false, IfOk, IfErr};
ghost use Rattle.repo_store.specs.Words.{repository_of};
ghost use Rattle.store_share.specs.Opened.{store_in};
ghost use Rattle.mirror_share.specs.Book.{is_stuck_in, store_in as store_of, BeginsAt, HasNobody};
ghost use Rattle.mirror_share.specs.Words.{mirror_of};

use crate::blanks::Blanks;
use crate::book::MirrorBook;
use crate::name::MirrorName;
use fleet_disk::Disk;
use repo_store::RepoStore;
use std::alloc::Global;
use store_share::{OpenedStore, RevRow, RowFault};

/// An opened store with the ledgers of a mirror. Its share takes the mirror's name: a function over a
/// [`crate::MirrorName`] of these cells and ledgers gives it, and whoever calls that function with a `Brand` picks the name.
#[derive(Drop)]
pub struct OpenedMirror<D: Disk> {
    pub(crate) opened: OpenedStore<D>,
    pub(crate) blanks: Blanks,
}

impl<D: Disk> OpenedMirror<D> {
    ghost use Rattle.mirror_share.specs.Names.{opened_in, IsNamed};

    /// The row of a store, and ledgers for it. Only want of memory (70) refuses it, or a cell (32), which doesn't come;
    /// the store is handed back then.
    pub fn of(
        alloc: Global,
        store: RepoStore<D>,
    ) -> Result<OpenedMirror<D>, (RowFault, RepoStore<D>)>
        ensures store { IfOk result (λ o. store_in (opened_in o) ≡ store) }
        ensures back { IfErr result (λ e. e.1 ≡ store) }
    {
        match OpenedStore::of(alloc, store) {
            Ok(opened) => Ok(OpenedMirror {
                opened,
                blanks: Blanks::new(),
            }),
            Err(back) => Err(back),
        }
    }

    /// The store.
    pub fn store(&self) -> &RepoStore<D>
        ensures { result.now ≡ store_in (opened_in self.now) }
    {
        self.opened.store()
    }

    /// The book of the mirror under its name, at which nobody runs, and the row: what a share is made of.
    pub fn into_book<L: MirrorName>(self, alloc: Global) -> (MirrorBook<L, D>, RevRow)
        requires { IsNamed self L.cells L.merged L.copying L.head L.holder }
        ensures book { (store_of (mirror_of result.0) ≡ store_in (opened_in self))
            × (is_stuck_in (mirror_of result.0) ≡ false) }
        ensures opening { BeginsAt (repository_of (store_in (opened_in self))) (mirror_of result.0) }
        ensures nobody { HasNobody (mirror_of result.0) }
        ensures row { result.1 ≡ L.cells }
    {
        let OpenedMirror { opened, blanks } = self;
        let (book, row) = opened.into_book::<L>();
        (MirrorBook::open(alloc, book, blanks), row)
    }

    /// The opened store, without ledgers.
    pub fn into_opened(self) -> OpenedStore<D>
        ensures { result ≡ opened_in self }
    {
        let OpenedMirror { opened, blanks: _ } = self;
        opened
    }
}
