//! What a sparse working copy has of a tree.
ghost use Rattle.std.specs.Prelude.{◌≡◌, [], false, None, OnOk};
ghost use Rattle.std.specs.FinMap as map;
ghost use Rattle.node_base.specs.Path.{Path, same_path};
ghost use Rattle.node_base.specs.Tree.{blocked, grafted};
ghost use Rattle.path_tree.specs.Calls.{is_dir};
ghost use Rattle.tree_reports.specs.Depths.{goes_below, within};
ghost use Rattle.tree_reports.specs.Folders.{in_folder};
ghost use Rattle.tree_reports.specs.Sparse.{part_of, with_limit, with_limits};
ghost use Rattle.tree_reports.specs.Trees.{Makes, Grafts};
ghost use Rattle.tree_reports.specs.declared.sparse.Part.TheVariants.{LeftOut};

use crate::copy::put_copy;
use crate::depth::Depth;
use crate::limit::limited;
use node_base::NodePath;
use path_tree::Tree;
use std::alloc::{AllocError, Global};

/// How much of a path a working copy has.
#[derive(Clone, Copy)]
pub enum Part {
    /// What is looked at so deep.
    Within(Depth),
    /// Nothing: the path is left out. A bare folder stands there as long as anything does.
    LeftOut,
}

/// A path, and how much of it a working copy has.
#[derive(Drop)]
pub struct Limit {
    pub path: NodePath,
    pub part: Part,
}

/// The tree with, at the path of each limit in turn, so much of what the whole has there. A limit below no folder changes
/// nothing. All numbers of the whole stay.
pub fn limit_all(
    alloc: Global,
    tree: Tree,
    whole: &Tree,
    limits: &[Limit],
) -> Result<Tree, AllocError>
    ensures { Makes (with_limits (map.get tree) (map.get whole.now) limits.now) result }
{
    let mut top = tree;
    for limit in limits {
        top = limit_one(alloc, top, whole, limit)?;
    }
    Ok(top)
}

/// The tree with, at the path of a limit, so much of what the whole has there. A limit below no folder changes nothing.
/// All numbers of the whole stay.
pub fn limit_one(alloc: Global, tree: Tree, whole: &Tree, limit: &Limit) -> Result<Tree, AllocError>
    ensures { Makes (with_limit (map.get tree) (map.get whole.now) limit.now) result }
{
    if limit.path.is_root() {
        return part_of(alloc, whole, limit.part);
    }
    if tree.blocked(limit.path.names()).is_some() {
        return Ok(tree);
    }
    let mut top = tree;
    put_part(alloc, &mut top, whole, limit)?;
    Ok(top)
}

// So much of a tree.
fn part_of(alloc: Global, whole: &Tree, part: Part) -> Result<Tree, AllocError>
    ensures { Makes (part_of part (map.get whole.now) []) result }
{
    whole.is_tree();
    match part {
        Part::Within(depth) => tree_within(alloc, whole, depth),
        Part::LeftOut => Tree::empty(alloc),
    }
}

// What is looked at of a tree.
fn tree_within(alloc: Global, tree: &Tree, depth: Depth) -> Result<Tree, AllocError>
    ensures { Makes (within depth (map.get tree.now)) result }
{
    tree.is_tree();
    if goes_below(depth) {
        return tree.share();
    }
    limited(alloc, tree, &NodePath::root(alloc), depth)
}

// Puts so much of what the whole has at the path of a limit.
fn put_part(alloc: Global, top: &mut Tree, whole: &Tree, limit: &Limit) -> Result<(), AllocError>
    requires below_root { same_path limit.now.path [] ≡ false }
    requires not_blocked { blocked (map.get top.old) limit.now.path ≡ None }
    ensures { OnOk result ((q : Path) → map.get top.new q
        ≡ grafted (map.get top.old) limit.now.path (part_of limit.now.part (map.get whole.now) limit.now.path) q) }
{
    match limit.part {
        Part::Within(depth) => put_within(alloc, top, &limit.path, whole, depth),
        Part::LeftOut => put_left_out(alloc, top, &limit.path, whole),
    }
}

// Puts what is looked at of what another tree has at a path.
fn put_within(
    alloc: Global,
    top: &mut Tree,
    path: &NodePath,
    from: &Tree,
    depth: Depth,
) -> Result<(), AllocError>
    requires below_root { same_path path.now [] ≡ false }
    requires not_blocked { blocked (map.get top.old) path.now ≡ None }
    ensures { Grafts top.old top.new path.now (within depth (in_folder from.now path.now)) result }
{
    from.is_tree();
    if goes_below(depth) || !is_dir(from, path) {
        return put_copy(alloc, top, path, from, path);
    }
    let part = limited(alloc, from, path, depth)?;
    put_copy(alloc, top, path, &part, &NodePath::root(alloc))
}

// Puts a bare folder in the place of what stands at a path, as long as another tree has anything there.
fn put_left_out(
    alloc: Global,
    top: &mut Tree,
    path: &NodePath,
    from: &Tree,
) -> Result<(), AllocError>
    requires below_root { same_path path.now [] ≡ false }
    requires not_blocked { blocked (map.get top.old) path.now ≡ None }
    ensures { Grafts top.old top.new path.now (part_of LeftOut (map.get from.now) path.now) result }
{
    from.is_tree();
    if from.get(path.names()).is_none() {
        return put_copy(alloc, top, path, from, path);
    }
    let bare = Tree::empty(alloc)?;
    put_copy(alloc, top, path, &bare, &NodePath::root(alloc))
}

// Whether what is further below is looked at.
fn goes_below(depth: Depth) -> bool
    ensures { result ≡ goes_below depth }
{
    match depth {
        Depth::Empty => false,
        Depth::Files => false,
        Depth::Immediates => false,
        Depth::Infinity => true,
    }
}

// Whether a folder stands at a path.
fn is_dir(tree: &Tree, path: &NodePath) -> bool
    ensures { result ≡ is_dir (map.get tree.now path.now) }
{
    match tree.get(path.names()) {
        Some(node) => node.text.is_none(),
        None => false,
    }
}
