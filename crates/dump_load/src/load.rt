//! What a set of changes makes of trees.
ghost use Rattle.std.specs.Prelude.{◌≡◌, ◌≤◌, length, [], None, Some, OnOk, OnErr, IfOk, IfErr};
ghost use Rattle.std.specs.Option.{option_map};
ghost use Rattle.std.specs.FinMap as map;
ghost use Rattle.node_base.specs.Path.{Path};
ghost use Rattle.node_base.specs.declared.limits.TheConstants.{REVISION};
ghost use Rattle.dump_load.specs.Changes.{IsNormal};
ghost use Rattle.dump_load.specs.Effect.{effect};
ghost use Rattle.dump_load.specs.Trees.{Makes};
ghost use Rattle.dump_load.specs.Faults.{fault, refused, IsRefusal};
ghost use Rattle.dump_load.specs.Records.{IsNormalSetOf, IsLoadRefusal};

use crate::judge::fault_of;
use crate::records::gather;
use crate::steps::{begin, step};
use crate::{ChangeFault, ChangeSet};
use dump_text::NodeRecord;
use node_base::RevNo;
use path_tree::Tree;
use std::alloc::Global;

/// A set of changes that was judged over some trees, and the tree that it makes of them: whoever takes both needn't
/// apply the set again.
#[derive(Drop)]
pub struct Applied {
    /// The changes, which have no fault over those trees.
    pub set: ChangeSet,
    /// The tree after them.
    pub tree: Tree,
}

/// The tree that a set of changes makes of the trees before it, or the set's first fault in path order. The result
/// is a share of the newest tree, changed along the set's paths.
pub fn apply(alloc: Global, trees: &[Tree], set: &ChangeSet) -> Result<Tree, ChangeFault>
    requires { length trees.now ≤ REVISION }
    ensures effect { IfOk result (λ t. (q : Path) → map.get t q ≡ effect trees.now set.now q) }
    ensures makes { IfOk result (λ t. Makes trees.now set.now t) }
    ensures no_fault { OnOk result (fault trees.now set.now ≡ None) }
    ensures fault { IfErr result (λ e. IsRefusal e (option_map refused (fault trees.now set.now))) }
{
    let mut tree = begin(alloc, trees)?;
    let changes = set.changes();
    for change in changes {
        if let Some(fault) = fault_of(trees, &tree, change) {
            return Err(ChangeFault::from(fault));
        }
        step(alloc, trees, &mut tree, change)?;
    }
    Ok(tree)
}

/// The set of changes of a revision with the tree that it makes, from the revision's number and records, over the
/// trees before it. Refused are a number that isn't the next one (16), then what makes no set, then the set's first
/// fault.
pub fn load_revision(
    alloc: Global,
    trees: &[Tree],
    number: RevNo,
    records: Vec<NodeRecord>,
) -> Result<Applied, ChangeFault>
    requires { length trees.now ≤ REVISION }
    ensures number { OnOk result (number ≡ length trees.now) }
    ensures set { IfOk result (λ a. IsNormalSetOf trees.now records.items a.set) }
    ensures tree { IfOk result (λ a. (q : Path) → map.get a.tree q ≡ effect trees.now a.set q) }
    ensures makes { IfOk result (λ a. Makes trees.now a.set a.tree) }
    ensures refused { IfErr result (λ e. IsLoadRefusal trees.now number records.items e) }
{
    if number.index() != trees.len() {
        return Err(ChangeFault::WrongNumber);
    }
    let gathered = gather(alloc, trees, records)?;
    if let Some(fault) = gathered.fault {
        return Err(ChangeFault::from(fault));
    }
    Ok(Applied {
        set: gathered.set,
        tree: gathered.tree,
    })
}
