//! Setting what a ledger counts, by who has its whole share.
ghost use Rattle.std.specs.Prelude.{◌≡◌, ◌<◌};
ghost use Rattle.mirror_share.specs.Counts.{count_of, holder_count, CountsAs};

use node_base::RevNo;
use std::sync::ledger::{Book, Ledger, Share};
use sync_core::{Number, Seat};

/// Counts another number.
pub(crate) fn set_number<L: Ledger>(
    book: &mut Book<L>,
    share: &mut Share<L>,
    old: Number,
    new: Number,
)
    requires whole { (share.old.parts ≡ L.parts) × (0 < share.old.parts) }
    requires total { book.old.total ≡ count_of old }
    ensures total { book.new.total ≡ count_of new }
    ensures amount { share.new.amount ≡ count_of new }
    ensures parts { share.new.parts ≡ share.old.parts }
{
    book.audit(share);
    take_number(book, share, old);
    put_number(book, share, new);
}

/// Counts a number, where nothing is counted.
pub(crate) fn put_number<L: Ledger>(book: &mut Book<L>, share: &mut Share<L>, new: Number)
    requires some { 0 < share.old.parts }
    requires total { CountsAs 0 book.old.total share.old.amount }
    ensures total { CountsAs (count_of new) book.new.total share.new.amount }
    ensures parts { share.new.parts ≡ share.old.parts }
{
    match new {
        Number::Absent => {}
        Number::Misspelt => book.add(share, 1),
        Number::Huge => book.add(share, 2),
        Number::Spelt(k) => {
            book.add(share, k);
            book.add(share, 3);
        }
    }
}

fn take_number<L: Ledger>(book: &mut Book<L>, share: &mut Share<L>, old: Number)
    requires total { CountsAs (count_of old) book.old.total share.old.amount }
    ensures total { CountsAs 0 book.new.total share.new.amount }
    ensures parts { share.new.parts ≡ share.old.parts }
{
    match old {
        Number::Absent => {}
        Number::Misspelt => book.sub(share, 1),
        Number::Huge => book.sub(share, 2),
        Number::Spelt(k) => {
            book.sub(share, k);
            book.sub(share, 3);
        }
    }
}

/// Counts another newest revision.
pub(crate) fn set_head<L: Ledger>(book: &mut Book<L>, share: &mut Share<L>, old: RevNo, new: RevNo)
    requires whole { (share.old.parts ≡ L.parts) × (0 < share.old.parts) }
    requires total { book.old.total ≡ old }
    ensures total { book.new.total ≡ new }
    ensures amount { share.new.amount ≡ new }
    ensures parts { share.new.parts ≡ share.old.parts }
{
    book.audit(share);
    book.sub(share, u64::from(old.get()));
    book.add(share, u64::from(new.get()));
}

/// Counts another holder.
pub(crate) fn set_holder<L: Ledger>(
    book: &mut Book<L>,
    share: &mut Share<L>,
    old: Option<Seat>,
    new: Option<Seat>,
)
    requires whole { (share.old.parts ≡ L.parts) × (0 < share.old.parts) }
    requires total { book.old.total ≡ holder_count old }
    ensures total { book.new.total ≡ holder_count new }
    ensures amount { share.new.amount ≡ holder_count new }
    ensures parts { share.new.parts ≡ share.old.parts }
{
    book.audit(share);
    take_holder(book, share, old);
    match new {
        Some(seat) => {
            book.add(share, seat.number());
            book.add(share, 1);
        }
        None => {}
    }
}

fn take_holder<L: Ledger>(book: &mut Book<L>, share: &mut Share<L>, old: Option<Seat>)
    requires total { CountsAs (holder_count old) book.old.total share.old.amount }
    ensures total { CountsAs 0 book.new.total share.new.amount }
    ensures parts { share.new.parts ≡ share.old.parts }
{
    match old {
        Some(seat) => {
            book.sub(share, seat.number());
            book.sub(share, 1);
        }
        None => {}
    }
}
