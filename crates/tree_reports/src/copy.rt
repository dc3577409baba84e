//! What stands at a place of one tree, put into another.

ghost use Rattle.std.specs.Prelude.{◌≡◌, [], false, None, OnOk};
ghost use Rattle.std.specs.FinMap as finite;
ghost use Rattle.node_base.specs.Path.{same_path};
ghost use Rattle.node_base.specs.Tree.{blocked};
ghost use Rattle.path_tree.specs.Copies.{copy_too_long};
ghost use Rattle.tree_reports.specs.Copied.{marked_back, number_in};
ghost use Rattle.tree_reports.specs.Folders.{in_folder};
ghost use Rattle.tree_reports.specs.Trees.{HasNodes, Grafts, GraftsMarked};

use node_base::{NodeName, NodePath, RevNo};
use path_tree::Tree;
use std::alloc::{AllocError, Global};

/// Puts what stands at a source of a tree, and below it, in the place of what stands at a path and below it; where nothing
/// stands there, nothing does here. All numbers stay.
pub fn put_copy(
    alloc: Global,
    tree: &mut Tree,
    path: &NodePath,
    from: &Tree,
    source: &NodePath,
) -> Result<(), AllocError>
    requires below_root { same_path path.now [] ≡ false }
    requires not_blocked { blocked (finite.get tree.old) path.now ≡ None }
    requires small { copy_too_long from.now source.now path.now ≡ false }
    ensures { Grafts tree.old tree.new path.now (in_folder from.now source.now) result }
{
    let before = tree.share()?;
    put_marked(alloc, tree, path, from, source)?;
    mark_back(alloc, tree, &before, path.names())
}

// The same, with other numbers above the path.
fn put_marked(
    alloc: Global,
    tree: &mut Tree,
    path: &NodePath,
    from: &Tree,
    source: &NodePath,
) -> Result<(), AllocError>
    requires below_root { same_path path.now [] ≡ false }
    requires not_blocked { blocked (finite.get tree.old) path.now ≡ None }
    requires small { copy_too_long from.now source.now path.now ≡ false }
    ensures { GraftsMarked tree.old tree.new path.now (in_folder from.now source.now) result }
{
    // For the proof: below a path at which nothing stands, nothing does.
    from.is_tree();
    match from.get(source.names()) {
        Some(node) => tree.graft_copy(alloc, path, from, source.names(), node.changed),
        None => tree.prune(alloc, path.names(), RevNo::ZERO),
    }
}

// Gives the proper fronts of a path the numbers that they have in another tree.
fn mark_back(
    alloc: Global,
    tree: &mut Tree,
    before: &Tree,
    path: &[NodeName],
) -> Result<(), AllocError>
    ensures { OnOk result (HasNodes tree.new (marked_back (finite.get before.now) path.now (finite.get tree.old))) }
{
    let Some((_, above)) = path.split_last() else {
        return Ok(());
    };
    tree.mark(alloc, above, number_at(before, above))?;
    mark_back(alloc, tree, before, above)
}

// The number of the revision that last changed what stands at a path.
fn number_at(tree: &Tree, path: &[NodeName]) -> RevNo
    ensures { result ≡ number_in (finite.get tree.now path.now) }
{
    match tree.get(path) {
        Some(node) => node.changed,
        None => RevNo::ZERO,
    }
}
