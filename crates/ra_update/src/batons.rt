//! What is open in an editor that writes an update.

ghost use Rattle.std.specs.Prelude.{◌≡◌};

use node_base::NodePath;
use ra_edit::wire::{WireDir, WireFile};

/// A directory that is open in an editor that writes an update, with its path, at which what was reported is looked up.
/// It has to be closed or discarded.
pub struct UpdateDir {
    pub wire: WireDir,
    pub path: NodePath,
    ghost same: { path ≡ wire.place.path.value },
}

/// A file that is open in an editor that writes an update, with its path. It has to be closed or discarded.
pub struct UpdateFile {
    pub wire: WireFile,
    pub path: NodePath,
    ghost same: { path ≡ wire.place.path.value },
}
