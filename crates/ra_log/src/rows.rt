//! What a log looks at.

ghost use Rattle.std.specs.Prelude.{◌≡◌, slice_get};
ghost use Rattle.std.specs.Option.{option_copied};
ghost use Rattle.path_history.specs.Lines.{node_at};

use dump_load::ChangeSet;
use node_base::{Node, Props, RevNo};
use path_history::Place;
use path_tree::Tree;

/// What a log looks at, of the revisions from 0 on up to the newest of its range.
#[derive(Drop)]
pub struct LogRows {
    /// What made each.
    pub sets: Vec<ChangeSet>,
    /// The properties of each.
    pub props: Vec<Props>,
    /// The tree of each; a log asks them for changed paths alone.
    pub trees: Vec<Tree>,
}

impl LogRows {
    /// The set of a revision.
    pub(crate) fn set(&self, number: RevNo) -> Option<&ChangeSet>
        ensures { option_copied result ≡ slice_get self.now.sets.items number }
    {
        self.sets.as_slice().get(number.index())
    }

    /// Its properties.
    pub(crate) fn props(&self, number: RevNo) -> Option<&Props>
        ensures { option_copied result ≡ slice_get self.now.props.items number }
    {
        self.props.as_slice().get(number.index())
    }

    /// What stands at a place.
    pub(crate) fn node(&self, place: &Place) -> Option<&Node>
        ensures { option_copied result ≡ node_at self.now.trees.items place.now }
    {
        let tree = self.trees.as_slice().get(place.revision.index())?;
        tree.get(place.path.names())
    }
}
