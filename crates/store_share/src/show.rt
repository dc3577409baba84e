//! Writing a staged revision, and showing it.
ghost use Rattle.std.specs.Prelude.{◌≡◌, Some, IsSome, IfOk};
ghost use Rattle.repo_store.specs.Words.{entry_in, repository_of, IsReadyFor};
ghost use Rattle.store_share.specs.Row.{cells_in, CellsStay};
ghost use Rattle.store_share.specs.Shown.{staged_rev, ShowsWhole};
ghost use Rattle.store_share.specs.Changes.{Carries};

use crate::notes::RowNotes;
use crate::rev::Rev;
use crate::row::RevRow;
use fleet_disk::Disk;
use repo_core::Entry;
use repo_store::{RepoStore, Staged, StoreFault};
use std::alloc::{AllocError, Global};

/// Why a revision isn't written and shown.
#[derive(Drop)]
pub(crate) enum Stuck {
    /// The device failed.
    Device(StoreFault),
    /// The cell refused its box; the entry stands.
    Cell,
}

/// Writes what was staged, and shows the revision that it makes in its cell.
pub(crate) fn carry_out<D: Disk>(
    store: &mut RepoStore<D>,
    row: &RevRow,
    notes: &mut RowNotes,
    staged: Staged,
    rev: Box<Rev>,
) -> Result<(), Stuck>
    requires cells { cells_in notes.old ≡ row.now }
    requires ready { IsReadyFor store.old staged }
    requires rev { staged_rev staged ≡ Some rev.value }
    requires shown { ShowsWhole (repository_of store.old) notes.old }
    ensures cells { CellsStay notes.old notes.new }
    ensures carried { Carries (entry_in staged) store.old store.new notes.new result }
{
    // (as many sets as revisions)
    let _head = store.repo().head();
    let receipt = match store.install(staged) {
        Ok(receipt) => receipt,
        Err(fault) => return Err(Stuck::Device(fault)),
    };
    match row.show_in(receipt, rev, notes) {
        Ok(()) => Ok(()),
        Err(_) => Err(Stuck::Cell),
    }
}

/// The revision that is staged, in a box. Only want of memory (70) refuses it.
pub(crate) fn rev_in(alloc: Global, staged: &Staged) -> Result<Box<Rev>, AllocError>
    requires { IsSome (staged_rev staged.now) }
    ensures { IfOk result (λ b. staged_rev staged.now ≡ Some b.value) }
{
    let Entry::Revised {
        number,
        set,
        props: _,
    } = staged.entry()
    else {
        unreachable!()
    };
    let Some(tree) = staged.tree() else {
        unreachable!()
    };
    let rev = Rev {
        number: *number,
        set: set.share(alloc)?,
        tree: tree.share()?,
    };
    Ok(Box::new(alloc, rev)?)
}
