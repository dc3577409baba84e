//! Entries that a repository is ready to take.
ghost use Rattle.std.specs.Prelude.{◌≡◌, Some, None};
ghost use Rattle.std.specs.Option.{option_copied};
ghost use Rattle.repo_core.specs.Entries.{Revised, Mapped};
ghost use Rattle.repo_core.specs.Staging.{StagedEntry};

use crate::Entry;
use dump_load::Applied;
use node_base::{Props, RevNo};
use path_tree::Tree;
use std::marker::Model;

/// An accepted change with all that it takes to install it, seen by contracts as its entry and the new tree where
/// there is one. Dropped, it changes nothing.
#[derive(Drop)]
pub struct Staged {
    entry: Entry,
    tree: Option<Tree>,
}

impl Model for Staged {
    ghost use Rattle.repo_core.specs.Staging.{StagedEntry, coded_staged};

    ghost Value = { StagedEntry };

    ghost coded = { coded_staged };

    ghost view = { λ a. record { entry = a.entry; tree = a.tree } };
}

impl Staged {
    /// A revision with the tree that its changes make.
    pub(crate) fn revision(number: RevNo, applied: Applied, props: Props) -> Staged
        ensures entry { result.entry ≡ Revised number applied.set props }
        ensures tree { result.tree ≡ Some applied.tree }
    {
        let Applied { set, tree } = applied;
        Staged {
            entry: Entry::Revised { number, set, props },
            tree: Some(tree),
        }
    }

    /// All properties of a revision.
    pub(crate) fn map(number: RevNo, props: Props) -> Staged
        ensures entry { result.entry ≡ Mapped number props }
        ensures tree { result.tree ≡ None }
    {
        Staged {
            entry: Entry::Mapped { number, props },
            tree: None,
        }
    }

    /// The entry that it is.
    pub fn entry(&self) -> &Entry
        ensures { result.now ≡ self.now.entry }
    {
        &self.entry
    }

    /// The tree of the new revision; None where properties alone are changed.
    pub fn tree(&self) -> Option<&Tree>
        ensures { option_copied result ≡ self.now.tree }
    {
        self.tree.as_ref()
    }

    /// Its entry and its tree.
    pub(crate) fn into_parts(self) -> (Entry, Option<Tree>)
        ensures entry { result.0 ≡ self.entry }
        ensures tree { result.1 ≡ self.tree }
    {
        let Staged { entry, tree } = self;
        (entry, tree)
    }
}
