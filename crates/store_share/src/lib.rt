//! A repository on a disk that several threads share: one commits at a time, and readers wait for nobody.
//!
//! [`RevRow`] has a cell for each revision number. A cell is set once, with a receipt for an entry that is on the disk,
//! and then shows its revision for good. What a thread has learned of the cells stands in its [`RowNotes`], which take
//! no bytes. Reading a cell takes no lock and no memory, so that its types have neither a bound for waiting nor an
//! error. Two notes of one cell that know a revision know the same one: `RowNotes::learn` compares them.
//!
//! [`MasterBook`] is what lies under the lock: a store, and what its row shows. [`MasterShare`] is the lock with the
//! row beside it. A reader has a [`ReaderSeat`] of its own: the greatest revision that it has seen, and what it knows
//! of the row. What a seat has seen it reads for good, each seat the same, without a lock and without memory.
//!
//! ```text
//! let share = OpenedStore::of(alloc, store)?.named::<L>();
//! let mut reader = share.enter_reader(rt, alloc)?;
//! let number = share.commit(rt, alloc, &mut reader, base, set, props, moment)?;
//! let rev = share.read_at(&mut reader, number);
//! ```
//!
//! A commit makes its growths, among them the box of the revision, before the first call of the device; then it
//! writes its entry, shows the revision in its cell, and answers.
#![tactic(auto)]

pub use book::MasterBook;
pub use fault::RowFault;
pub use name::RowName;
pub use notes::RowNotes;
pub use opened::OpenedStore;
pub use rev::{Rev, rev_of};
pub use row::RevRow;
pub use seat::ReaderSeat;
pub use share::MasterShare;

mod book;
mod fault;
mod name;
mod notes;
mod opened;
mod rev;
mod row;
mod seat;
mod share;
mod show;
