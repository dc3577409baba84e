//! How far the paths below a node reach.
ghost use Rattle.std.specs.Prelude.{◌≡◌};
ghost use Rattle.path_tree.specs.Reach.{behind_name, either, nowhere, past};

use node_base::NodeName;
use node_base::limits::{PATH_BYTES, PATH_NAMES};

/// The greatest weight of a path: its text has a slash less than names.
pub const WEIGHT: usize = PATH_BYTES + 1;

/// The most names of a path, and the most bytes with one more for each name. A count past the greatest `u16` stands
/// there.
#[derive(Clone, Copy)]
pub struct Reach {
    pub names: u16,
    pub bytes: u16,
}

impl Reach {
    /// That of the empty path.
    pub fn nowhere() -> Reach
        ensures { result ≡ nowhere }
    {
        Reach { names: 0, bytes: 0 }
    }

    /// The greater of both, count by count.
    pub fn either(self, other: Reach) -> Reach
        ensures { result ≡ either self other }
    {
        Reach {
            names: self.names.max(other.names),
            bytes: self.bytes.max(other.bytes),
        }
    }

    /// That of the same paths behind a name.
    pub fn behind(self, name: &NodeName) -> Reach
        ensures { result ≡ behind_name name.now self }
    {
        Reach {
            names: self.names.saturating_add(1),
            bytes: self.bytes.saturating_add(name.len() as u16 + 1),
        }
    }

    /// Whether a path is past the limits behind so many names of such a weight.
    pub fn exceeds(self, names: usize, bytes: usize) -> bool
        ensures { result ≡ past names bytes self }
    {
        names.saturating_add(self.names as usize) > PATH_NAMES
            || bytes.saturating_add(self.bytes as usize) > WEIGHT
    }
}
