//! What is asked of a history.
ghost use Rattle.std.specs.Prelude.{◌≡◌, ◌≤◌, ◌<◌, ◌⊎◌, ◌&&◌, true, false, nat_le};
ghost use Rattle.path_history.specs.Places.{touches};

use crate::Place;
use crate::lookup::touches;
use dump_load::ChangeSet;
use node_base::RevNo;

/// What is asked of a history.
#[derive(Clone, Copy)]
pub struct Asked {
    /// The first revision of the range.
    pub lowest: RevNo,
    /// The last revision of the range.
    pub highest: RevNo,
    /// How many revisions are told at most; 0 for all.
    pub limit: usize,
    /// Whether the history goes on from a copy to its source.
    pub crosses_copies: bool,
}

impl Asked {
    /// Whether so many are all that may be told.
    pub(crate) fn is_full(&self, told: usize) -> bool
        ensures full { result ≡ true → (0 < self.now.limit) × (self.now.limit ≤ told) }
        ensures room { result ≡ false → (self.now.limit ≡ 0) ⊎ (told < self.now.limit) }
    {
        self.limit != 0 && self.limit <= told
    }

    /// Whether a place that isn't below the range is in it, and its revision's set touches it.
    pub(crate) fn tells(&self, set: &ChangeSet, place: &Place) -> bool
        ensures { result ≡ (nat_le place.now.revision self.now.highest && touches set.now place.now.path) }
    {
        place.revision.get() <= self.highest.get() && touches(set, &place.path)
    }
}
