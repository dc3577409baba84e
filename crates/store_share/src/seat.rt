//! The seat of a reader.
ghost use Rattle.std.specs.Prelude.{◌≡◌, ◌≤◌, ◌⊎◌, ℕ, Some, IfNone, length};
ghost use Rattle.store_share.specs.Row.{cells_in, known_at, ReadsKnown};
ghost use Rattle.store_share.specs.Chains.{IsChain};
ghost use Rattle.store_share.specs.Facts.{number_prop};
ghost use Rattle.store_share.specs.Shown.{number_known};

use crate::name::RowName;
use crate::notes::RowNotes;
use crate::rev::Rev;
use crate::row::RevRow;
use node_base::RevNo;
use std::marker::PhantomData;

/// The seat of a reader: the greatest revision that it has seen, and what it knows of the row. It knows each revision
/// up to that one.
#[derive(Drop)]
pub struct ReaderSeat<L: RowName> {
    pub(crate) seen: RevNo,
    pub(crate) notes: RowNotes,
    pub(crate) of: PhantomData<L>,
    ghost cells: { cells_in notes ≡ L.cells },
    ghost long: { length L.cells ≡ 65536 },
    ghost known: { (r : ℕ) → r ≤ seen → number_known notes r ≡ Some r } by { number_prop seen (number_known notes) },
    ghost chain: { ∥ IsChain (known_at notes) seen ∥₁ },
}

impl<L: RowName> ReaderSeat<L> {
    ghost use Rattle.store_share.specs.Seats.{known_by, seen_by, AgreeUpTo, KeepsFound, KeepsSeen, ReadsAs};
    ghost use Rattle.store_share.specs.Seats.{ReadsSeen, SeesOn};

    /// The greatest revision that it has seen.
    pub fn seen(&self) -> RevNo
        ensures { result ≡ seen_by self.now }
    {
        self.seen
    }

    /// Does nothing: its contract says that each revision that was seen is made by its changes, which have no fault,
    /// from the trees of the revisions before it.
    pub fn revisions_are_made(&self)
        ensures { ∥ IsChain (known_by self.now) (seen_by self.now) ∥₁ }
    {
        let _ = &self.notes;
    }

    /// The revision of that number in the seat's row, where the seat has seen it or its cell shows it. It waits for
    /// nobody, and takes no memory. What the seat has seen it reads for good, and
    /// so what it was given once.
    pub fn read_in<'a>(&mut self, row: &'a RevRow, number: RevNo) -> Option<&'a Rev>
        requires { row.now ≡ L.cells }
        ensures there { number ≤ seen_by self.old → IfNone result ⊥ }
        ensures value { ReadsSeen self.old number result }
        ensures again { ReadsKnown (known_by self.old number) number result }
        ensures number { ReadsAs self.new number result }
        ensures seen { seen_by self.new ≡ seen_by self.old }
        ensures kept { KeepsFound self.old self.new }
    {
        row.see(number, &mut self.notes)
    }

    /// What either has seen both have seen from then on. What they read of these is the same, and what it was.
    pub fn meet(&mut self, other: &mut ReaderSeat<L>)
        ensures most { (SeesOn self.old self.new) × (seen_by other.old ≤ seen_by self.new) }
        ensures one { (seen_by self.new ≡ seen_by self.old) ⊎ (seen_by self.new ≡ seen_by other.old) }
        ensures same { seen_by other.new ≡ seen_by self.new }
        ensures agreed { AgreeUpTo (seen_by self.new) self.new other.new }
        ensures kept { KeepsSeen self.old self.new }
        ensures kept_other { KeepsSeen other.old other.new }
    {
        if self.seen < other.seen {
            self.learn(other);
        } else {
            other.learn(self);
        }
    }

    // Sees what the other, who has seen as much or more, has seen.
    fn learn(&mut self, other: &mut ReaderSeat<L>)
        requires { seen_by self.old ≤ seen_by other.old }
        ensures seen { (seen_by self.new ≡ seen_by other.old) × (seen_by other.new ≡ seen_by other.old) }
        ensures agreed { AgreeUpTo (seen_by other.old) self.new other.new }
        ensures kept { KeepsSeen self.old self.new }
        ensures other { (r : ℕ) → known_by other.new r ≡ known_by other.old r }
    {
        self.notes.learn(&mut other.notes, other.seen);
        self.seen = other.seen;
    }
}
