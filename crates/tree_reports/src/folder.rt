//! A folder of a tree as a tree of its own.
ghost use Rattle.std.specs.Prelude.{◌≡◌, ◌++◌, ◌∷◌, [], true, IfOk, OnOk, IsSome, IsNone};
ghost use Rattle.std.specs.FinMap as map;
ghost use Rattle.node_base.specs.Limits.{fits};
ghost use Rattle.node_base.specs.Path.{Path};
ghost use Rattle.node_base.specs.Tree.{IsDirAt, alone};
ghost use Rattle.path_tree.specs.Calls.{copied};
ghost use Rattle.tree_reports.specs.Folders.{IsGrafted, in_folder};
ghost use Rattle.tree_reports.specs.Trees.{HasNoEntries, Makes};

use node_base::{Node, NodeName, NodePath, PathFault, RevNo};
use path_tree::{ChildNode, Tree};
use std::alloc::{AllocError, Global};

/// What stands at a folder of a tree and below it, as a tree of its own, with the same numbers. Only the folder's
/// children are gone through: what is below them is shared.
pub fn subtree(alloc: Global, tree: &Tree, folder: &NodePath) -> Result<Tree, AllocError>
    requires { IsDirAt (map.get tree.now) folder.now }
    ensures { Makes (in_folder tree.now folder.now) result }
{
    let Some(node) = tree.get(folder.names()) else {
        unreachable!()
    };
    let mut top = root_like(alloc, node)?;
    graft_children(alloc, &mut top, tree, folder)?;
    top.mark(alloc, &[], node.changed)?;
    Ok(top)
}

// A folder's node alone.
pub(crate) fn root_like(alloc: Global, node: &Node) -> Result<Tree, AllocError>
    requires { IsNone node.now.text }
    ensures { Makes (alone node.now) result }
{
    let mut root = Tree::empty(alloc)?;
    root.put_parts(alloc, &[], None, Some(node.props.share()?), node.changed)?;
    Ok(root)
}

// Puts what stands right in a folder into a root without entries.
fn graft_children(
    alloc: Global,
    top: &mut Tree,
    tree: &Tree,
    folder: &NodePath,
) -> Result<(), AllocError>
    requires { HasNoEntries top.old }
    ensures { OnOk result (IsGrafted tree.now folder.now (in_folder tree.now folder.now) top.old top.new []) }
{
    tree.is_tree();
    let mut children = tree.children(alloc, folder.names())?;
    while let Some(ChildNode { name, node }) = children.next()? {
        graft_child(alloc, top, tree, folder, name, node.changed)?;
    }
    Ok(())
}

// Puts one of them.
#[tactic(auto, using(crate::proofs::Grafts::child_fits, crate::proofs::Grafts::fits_name, crate::proofs::Grafts::open_root))]
fn graft_child(
    alloc: Global,
    top: &mut Tree,
    tree: &Tree,
    folder: &NodePath,
    name: &NodeName,
    number: RevNo,
) -> Result<(), AllocError>
    requires { IsSome (map.get tree.now (folder.now ++ name.now ∷ [])) }
    ensures { OnOk result ((q : Path) → map.get top.new q
        ≡ copied (map.get top.old) (name.now ∷ []) (in_folder tree.now (folder.now ++ name.now ∷ [])) number q) }
{
    top.is_tree();
    tree.is_tree();
    let _len = name.len();
    let place = child_path(alloc, &NodePath::root(alloc), name)?;
    let source = child_path(alloc, folder, name)?;
    top.graft_copy(alloc, &place, tree, source.names(), number)
}

// The path of a name right below one.
#[tactic(auto, unfolding(node_base::specs::PathText::child_of))]
pub(crate) fn child_path(
    alloc: Global,
    above: &NodePath,
    name: &NodeName,
) -> Result<NodePath, AllocError>
    requires { fits (above.now ++ name.now ∷ []) ≡ true }
    ensures { IfOk result (λ p. p ≡ above.now ++ name.now ∷ []) }
{
    match above.child(alloc, name) {
        Ok(path) => Ok(path),
        Err(PathFault::OutOfMemory) => Err(AllocError),
        Err(PathFault::TooLong) => unreachable!(),
        Err(PathFault::BadPath) => unreachable!(),
    }
}
