//! Changes that a store is ready to take.
ghost use Rattle.std.specs.Prelude.{◌≡◌};
ghost use Rattle.std.specs.Option.{option_copied};
ghost use Rattle.repo_store.specs.Words.{entry_in, tree_in};

use path_tree::Tree;
use repo_core::Entry;

/// An accepted change with the bytes of its entry, and all that it takes to install it. Dropped, it changes nothing.
#[derive(Drop)]
pub struct Staged {
    pub(crate) change: repo_core::Staged,
    pub(crate) bytes: Vec<u8>,
}

impl Staged {
    /// The entry that it is.
    pub fn entry(&self) -> &Entry
        ensures { result.now ≡ entry_in self.now }
    {
        self.change.entry()
    }

    /// The tree of the new revision; None where properties alone are changed.
    pub fn tree(&self) -> Option<&Tree>
        ensures { option_copied result ≡ tree_in self.now }
    {
        self.change.tree()
    }
}
