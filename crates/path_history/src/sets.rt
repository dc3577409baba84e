//! The sets of a repository's revisions, as a history asks for them.
ghost use Rattle.std.specs.Prelude.{◌≡◌, List, slice_get};
ghost use Rattle.std.specs.Option.{option_copied};

use dump_load::ChangeSet;
use node_base::RevNo;

/// Who lends the sets of a repository's revisions.
pub trait Sets {
    ghost use Rattle.std.specs.Prelude.{List};
    ghost use Rattle.dump_load.specs.declared.change.Change.{Change};

    /// The sets of the revisions from 0 on.
    ghost sets: { Self → List (List Change) };

    /// The set of a revision; None above the head.
    fn set(&self, number: RevNo) -> Option<&ChangeSet>
        ensures { option_copied result ≡ slice_get (sets self.now) number };
}

/// Sets that stand in a row, that of revision 0 first.
#[derive(Clone, Copy)]
pub struct SetRow<'a> {
    pub row: &'a [ChangeSet],
}

impl Sets for SetRow<'_> {
    ghost sets = { λ s. s.row.now };

    fn set(&self, number: RevNo) -> Option<&ChangeSet> {
        self.row.get(number.index())
    }
}
