//! What a thread knows of a row.
ghost use Rattle.std.specs.Prelude.{◌≡◌, ◌<◌, ◌≤◌, ℕ, length, Some, IsSome};
ghost use Rattle.store_share.specs.Row.{cells_in, known_at, CellsStay, ChangeOnly, KnowAlike, KnowsToo, Rev as RevOf};

use crate::rev::Rev;
use node_base::RevNo;
use once_cell::race::Note;

/// What a thread knows of each cell of a row. It takes no bytes.
#[derive(Drop)]
pub struct RowNotes {
    pub(crate) notes: Vec<Note<Rev>>,
}

impl RowNotes {
    /// Learns what the other knows of the cells 0 to `last`, all of which it knows. Where both knew a cell they knew
    /// the same.
    pub fn learn(&mut self, from: &mut RowNotes, last: RevNo)
        requires cells { cells_in self.old ≡ cells_in from.old }
        requires within { last < length (cells_in from.old) }
        requires known { (r : ℕ) → r ≤ last → IsSome (known_at from.old r) }
        ensures other { CellsStay from.old from.new }
        ensures others { KnowAlike from.old from.new }
        ensures cells { CellsStay self.old self.new }
        ensures learned { (r : ℕ) → r ≤ last → known_at self.new r ≡ known_at from.old r }
        ensures agreed { (r : ℕ) (x : RevOf) → r ≤ last → known_at self.old r ≡ Some x
            → known_at from.old r ≡ Some x }
        ensures rest { (r : ℕ) → last < r → known_at self.new r ≡ known_at self.old r }
    {
        for i in 0..last.index() + 1 {
            self.learn_one(from, i);
        }
    }

    // Learns what the other knows of one cell.
    fn learn_one(&mut self, from: &mut RowNotes, i: usize)
        requires cells { cells_in self.old ≡ cells_in from.old }
        requires within { i < length (cells_in from.old) }
        requires known { IsSome (known_at from.old i) }
        ensures other { CellsStay from.old from.new }
        ensures others { KnowAlike from.old from.new }
        ensures cells { CellsStay self.old self.new }
        ensures learned { known_at self.new i ≡ known_at from.old i }
        ensures agreed { KnowsToo (known_at self.old i) (known_at from.old i) }
        ensures rest { ChangeOnly i self.old self.new }
    {
        let theirs = from.notes[i].again();
        meet_note(&mut self.notes[i], theirs);
    }
}

// Two notes of one cell agree; the first then knows what the second knows.
fn meet_note(mine: &mut Note<Rev>, theirs: Note<Rev>)
    requires cell { theirs.cell ≡ mine.old.cell }
    requires known { IsSome theirs.known }
    ensures now { mine.new ≡ theirs }
    ensures agreed { KnowsToo mine.old.known theirs.known }
{
    let mut theirs = theirs;
    mine.compare(theirs.again());
    *mine = theirs;
}
