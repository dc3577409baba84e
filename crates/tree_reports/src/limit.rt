//! A folder of a tree, looked at to a depth, as a tree of its own.
ghost use Rattle.std.specs.Prelude.{◌≡◌, [], false, OnOk};
ghost use Rattle.std.specs.FinMap as map;
ghost use Rattle.node_base.specs.Tree.{IsDirAt};
ghost use Rattle.tree_reports.specs.Depths.{goes_below, within};
ghost use Rattle.tree_reports.specs.Folders.{IsGrafted, in_folder};
ghost use Rattle.tree_reports.specs.Trees.{HasNodes, HasNoEntries, Makes, with_child};
ghost use Rattle.tree_reports.specs.declared.depth.Depth.TheVariants.{Empty};

use crate::depth::{Depth, takes_child};
use crate::folder::{child_path, root_like, subtree};
use node_base::{Node, NodeName, NodePath};
use path_tree::{ChildNode, Tree};
use std::alloc::{AllocError, Global};

/// What stands at a folder of a tree, looked at so deep, as a tree of its own, with the same numbers. Only the folder's
/// children are gone through, and none where the folder alone is looked at.
pub fn limited(
    alloc: Global,
    tree: &Tree,
    folder: &NodePath,
    depth: Depth,
) -> Result<Tree, AllocError>
    requires { IsDirAt (map.get tree.now) folder.now }
    ensures { Makes (within depth (in_folder tree.now folder.now)) result }
{
    match depth {
        Depth::Infinity => subtree(alloc, tree, folder),
        Depth::Empty => bare(alloc, tree, folder),
        Depth::Files => shallow(alloc, tree, folder, depth),
        Depth::Immediates => shallow(alloc, tree, folder, depth),
    }
}

// The same where the folder alone is looked at.
#[tactic(auto, using(crate::proofs::Taken::alone_within))]
fn bare(alloc: Global, tree: &Tree, folder: &NodePath) -> Result<Tree, AllocError>
    requires { IsDirAt (map.get tree.now) folder.now }
    ensures { Makes (within Empty (in_folder tree.now folder.now)) result }
{
    let Some(node) = tree.get(folder.names()) else {
        unreachable!()
    };
    root_like(alloc, node)
}

// The same where nothing below the folder's children is looked at.
fn shallow(alloc: Global, tree: &Tree, folder: &NodePath, depth: Depth) -> Result<Tree, AllocError>
    requires dir { IsDirAt (map.get tree.now) folder.now }
    requires shallow { goes_below depth ≡ false }
    ensures { Makes (within depth (in_folder tree.now folder.now)) result }
{
    let Some(node) = tree.get(folder.names()) else {
        unreachable!()
    };
    let mut top = root_like(alloc, node)?;
    put_children(alloc, &mut top, tree, folder, depth)?;
    top.mark(alloc, &[], node.changed)?;
    Ok(top)
}

// Puts what is looked at of a folder's children into a root without entries.
fn put_children(
    alloc: Global,
    top: &mut Tree,
    tree: &Tree,
    folder: &NodePath,
    depth: Depth,
) -> Result<(), AllocError>
    requires shallow { goes_below depth ≡ false }
    requires blank { HasNoEntries top.old }
    ensures { OnOk result (IsGrafted tree.now folder.now (within depth (in_folder tree.now folder.now))
        top.old top.new []) }
{
    tree.is_tree();
    let mut children = tree.children(alloc, folder.names())?;
    while let Some(ChildNode { name, node }) = children.next()? {
        put_child(alloc, top, name, node, depth)?;
    }
    Ok(())
}

// Puts one of them alone, where it is looked at.
#[tactic(auto, using(crate::proofs::Grafts::fits_name, crate::proofs::Grafts::open_root))]
fn put_child(
    alloc: Global,
    top: &mut Tree,
    name: &NodeName,
    node: &Node,
    depth: Depth,
) -> Result<(), AllocError>
    ensures { OnOk result (HasNodes top.new (with_child depth (map.get top.old) name.now node.now)) }
{
    if !takes_child(depth, node) {
        return Ok(());
    }
    top.is_tree();
    let _len = name.len();
    let place = child_path(alloc, &NodePath::root(alloc), name)?;
    top.put_node(alloc, &place, node.share()?)
}
