//! The changes between two trees.
ghost use Rattle.std.specs.Prelude.{◌≡◌, ◌∷◌, [], None, IfOk};
ghost use Rattle.std.specs.Option.{option_map};
ghost use Rattle.std.specs.FinMap as map;
ghost use Rattle.node_base.specs.Path.{Path};
ghost use Rattle.dump_load.specs.Changes.{IsNormal};
ghost use Rattle.dump_load.specs.Effect.{effect};
ghost use Rattle.dump_load.specs.Faults.{fault};
ghost use Rattle.tree_reports.specs.Applied.{content};
ghost use Rattle.tree_changes.specs.Changes.{AreBetween};

use crate::changes::changes_of;
use dump_load::Change;
use path_tree::Tree;
use std::alloc::{AllocError, Global};
use tree_reports::{Depth, differences};

/// The changes that make the new tree of the old one: one for each path at which they differ, in path order. A node
/// that comes is given with all its properties and its text, and one that stays with the parts that differ. Where it
/// `opens` folders, one that is in both trees has a change though nothing differs in it, and that gives nothing. The
/// nodes' numbers don't count. Texts and properties are shared with the trees. The changes have no fault over the old
/// tree.
pub fn changes_between(
    alloc: Global,
    old: &Tree,
    new: &Tree,
    opens: bool,
) -> Result<Vec<Change>, AllocError>
    ensures between { IfOk result (λ cs. AreBetween opens old.now new.now cs.items) }
    ensures normal { IfOk result (λ cs. IsNormal cs.items) }
    ensures faultless { IfOk result (λ cs. fault (old.now ∷ []) cs.items ≡ None) }
    // what the changes make of the old tree is the new one
    ensures effect { IfOk result (λ cs. (q : Path) → option_map content (effect (old.now ∷ []) cs.items q)
        ≡ option_map content (map.get new.now q)) }
{
    // For the proof: each path of a tree is within the limits, and what is above it is a directory.
    old.is_tree();
    new.is_tree();
    let told = differences(alloc, old, new, Depth::Infinity, opens)?;
    changes_of(alloc, told.as_slice())
}
