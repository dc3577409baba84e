//! Places: a revision and a path.
ghost use Rattle.std.specs.Prelude.{◌≡◌, IfOk};

use node_base::{NodePath, RevNo};
use std::alloc::{AllocError, Global};

/// A path in the tree of a revision.
#[derive(Drop)]
pub struct Place {
    pub path: NodePath,
    pub revision: RevNo,
}

impl Place {
    /// The same place once more.
    pub fn copy(&self, alloc: Global) -> Result<Place, AllocError>
        ensures { IfOk result (λ a. a ≡ self.now) }
    {
        Ok(Place {
            path: self.path.copy(alloc)?,
            revision: self.revision,
        })
    }
}
