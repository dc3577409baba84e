//! Taking entries.
ghost use Rattle.std.specs.Prelude.{◌≡◌};
ghost use Rattle.repo_core.specs.Refusals.{by_repository};
ghost use Rattle.repo_store.specs.Words.{revisions_of};
ghost use Rattle.store_share.specs.Book.{store_of};
ghost use Rattle.sync_core.specs.Plain.{IsNumbered};
ghost use Rattle.mirror_share.specs.Entries.{Takes};

use fleet_disk::Disk;
use repo_core::Entry;
use repo_store::StoreFault;
use std::alloc::Global;
use store_share::{MasterBook, RevRow, RowName};

/// Writes an entry, and shows the revision that it makes. Refused as the book's `commit` and `put_props` are.
pub(crate) fn take<L: RowName, D: Disk>(
    book: &mut MasterBook<L, D>,
    alloc: Global,
    row: &RevRow,
    entry: Entry,
) -> Result<(), StoreFault>
    requires row { row.now ≡ L.cells }
    requires numbered { IsNumbered (revisions_of (store_of book.old)) entry }
    ensures { Takes entry (by_repository (revisions_of (store_of book.old)) entry) book.old book.new result }
{
    match entry {
        Entry::Revised {
            number: _,
            set,
            props,
        } => {
            let head = book.repo().head();
            book.commit(alloc, row, head, set, props, None)?;
            Ok(())
        }
        Entry::Mapped { number, props } => book.put_props(alloc, number, props),
    }
}
