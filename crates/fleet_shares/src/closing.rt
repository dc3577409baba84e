//! What comes of shared stores once nobody shares them any more.
ghost use Rattle.std.specs.Prelude.{◌≡◌, None, IfSome, is_some, true};
ghost use Rattle.repo_core.specs.Repository.{head_of};
ghost use Rattle.repo_store.specs.Words.{repository_of, revisions_of};
ghost use Rattle.store_share.specs.Book.{is_stuck, store_of};
ghost use Rattle.store_share.specs.Book.{head_of as shown_head};
ghost use Rattle.fleet_shares.specs.Closing.{HasStayed, IsBroughtBy, IsSettled};

use crate::compared::adds;
use fleet_disk::Disk;
use mirror_share::{MirrorName, MirrorShare};
use node_base::RevNo;
use repo_store::RepoStore;
use store_share::{MasterBook, ReaderSeat, RowName};

/// The store of a mirror that nobody shares any more, and whether it has been brought up to the master, whose newest
/// revision was that one: it has the revisions that the reader saw when it was opened, no fewer than the master had, and
/// each one behind them is the master's.
pub(crate) fn settled<M: RowName, L: MirrorName, D: Disk>(
    master: &MasterBook<M, D>,
    had: RevNo,
    share: Option<MirrorShare<L, D>>,
    opened: Option<ReaderSeat<L>>,
) -> (Option<RepoStore<D>>, bool)
    ensures some { is_some result.0 ≡ is_some share }
    ensures settled { IsSettled result.1 result.0 opened had (repository_of (store_of master.now)) }
{
    let Some(share) = share else {
        return (None, false);
    };
    let mut book = share.close().into_book();
    let Some(opened) = opened else {
        return (Some(book.into_store()), false);
    };
    let is_brought = is_brought(master, had, &mut book, opened);
    (Some(book.into_store()), is_brought)
}

// The same of its book.
fn is_brought<M: RowName, L: RowName, D: Disk>(
    master: &MasterBook<M, D>,
    had: RevNo,
    book: &mut MasterBook<L, D>,
    opened: ReaderSeat<L>,
) -> bool
    ensures book { store_of book.new ≡ store_of book.old }
    ensures brought { IsBroughtBy result opened had (store_of book.old) (repository_of (store_of master.now)) }
{
    let above = opened.seen();
    if !stays(book, opened) {
        return false;
    }
    let mirror = book.repo();
    if mirror.head() < had {
        return false;
    }
    adds(mirror, master.repo(), above)
}

/// Whether the revisions that a reader saw when a store was opened are there.
pub(crate) fn stays<L: RowName, D: Disk>(book: &mut MasterBook<L, D>, opened: ReaderSeat<L>) -> bool
    ensures book { store_of book.new ≡ store_of book.old }
    ensures stayed { HasStayed result opened (store_of book.old) }
{
    let mut opened = opened;
    let Some(head) = newest(book) else {
        return false;
    };
    let last = head.index();
    let first = opened.seen().index();
    if last < first {
        return false;
    }
    let _newest = book.latest(&mut opened);
    true
}

// The newest revision of a book of which each cell took its box.
fn newest<L: RowName, D: Disk>(book: &MasterBook<L, D>) -> Option<RevNo>
    ensures some { IfSome result (λ n. (n ≡ head_of (revisions_of (store_of book.now))) × (shown_head book.now ≡ n)) }
    ensures none { result ≡ None → is_stuck book.now ≡ true }
{
    if book.is_stuck() {
        return None;
    }
    Some(book.repo().head())
}
