//! What stands at a place of a revision.

ghost use Rattle.std.specs.Prelude.{◌≡◌, [], true, false};
ghost use Rattle.std.specs.FinMap as finite;
ghost use Rattle.dump_load.specs.Faults.{fault_if};
ghost use Rattle.node_base.specs.Path.{same_path};
ghost use Rattle.path_tree.specs.Copies.{copy_too_long};
ghost use Rattle.tree_reports.specs.Depths.{within};
ghost use Rattle.tree_reports.specs.Folders.{in_folder};
ghost use Rattle.tree_reports.specs.Trees.{Makes};
ghost use Rattle.ra_denial.specs.Denials.{dir_denied};
ghost use Rattle.ra_denial.specs.Stops.{PortStays};
ghost use Rattle.ra_denial.specs.declared.denial.Denial.TheVariants.{Unsupported};
ghost use Rattle.ra_report.specs.Given.{alone_at, GivesTree, BeginsWanted};
ghost use Rattle.ra_report.specs.Orders.{is_short, place_denied};
ghost use Rattle.ra_report.specs.Planning.{LooksUp};

use crate::order::is_short;
use crate::plan::Wanted;
use node_base::{NodePath, RevNo};
use path_tree::Tree;
use ra_denial::{Denial, Stop, stopped};
use ra_serve::{RepoPort, tree_asked};
use std::alloc::{AllocError, Global};
use tree_reports::{Depth, limited, put_copy, subtree};

/// What stands at a place of a revision, the newest where none is named: the folder, or what stands at the target's name.
pub fn look_up<P: RepoPort>(
    alloc: Global,
    port: &mut P,
    revision: Option<u64>,
    place: &NodePath,
    target: &NodePath,
) -> Result<Wanted, Stop>
    ensures found { LooksUp P.RepoPort port.old port.new revision place.now target.now result }
    ensures stays { PortStays P.RepoPort port.old port.new }
{
    match tree_asked(port, revision) {
        Ok((number, tree)) => wanted_in(alloc, number, tree, place, target),
        Err(fault) => Err(stopped(fault)),
    }
}

// The same of its tree.
fn wanted_in(
    alloc: Global,
    number: RevNo,
    whole: Tree,
    place: &NodePath,
    target: &NodePath,
) -> Result<Wanted, Stop>
    ensures { BeginsWanted whole place.now target.now number result }
{
    match part_at(alloc, &whole, place, target) {
        Ok(tree) => Ok(Wanted {
            number,
            tree,
            whole,
        }),
        Err(stop) => Err(stop),
    }
}

// The same as a tree of its own.
fn part_at(alloc: Global, tree: &Tree, place: &NodePath, target: &NodePath) -> Result<Tree, Stop>
    ensures { GivesTree (place_denied tree.now place.now target.now) (alone_at tree.now place.now target.now) result }
{
    if target.is_root() {
        return tree_at(alloc, tree, place);
    }
    if !is_short(target) {
        return Err(Stop::Denied(Denial::Unsupported));
    }
    named(alloc, tree, place, target)
}

// What stands at a place, at a target's name in a folder that has nothing else.
fn named(alloc: Global, tree: &Tree, place: &NodePath, target: &NodePath) -> Result<Tree, Stop>
    requires below_root { same_path target.now [] ≡ false }
    requires short { is_short target.now ≡ true }
    ensures { GivesTree (fault_if (copy_too_long tree.now place.now target.now) Unsupported)
        (alone_at tree.now place.now target.now) result }
{
    if tree.copy_is_too_long(place.names(), target.names()) {
        return Err(Stop::Denied(Denial::Unsupported));
    }
    match alone_in(alloc, tree, place, target) {
        Ok(tree) => Ok(tree),
        Err(_) => Err(Stop::OutOfMemory),
    }
}

// The same where it is within the limits.
fn alone_in(
    alloc: Global,
    tree: &Tree,
    place: &NodePath,
    target: &NodePath,
) -> Result<Tree, AllocError>
    requires below_root { same_path target.now [] ≡ false }
    requires short { is_short target.now ≡ true }
    requires small { copy_too_long tree.now place.now target.now ≡ false }
    ensures { Makes (alone_at tree.now place.now target.now) result }
{
    let mut top = Tree::empty(alloc)?;
    put_copy(alloc, &mut top, target, tree, place)?;
    Ok(top)
}

// A folder of a tree as a tree of its own.
fn tree_at(alloc: Global, tree: &Tree, folder: &NodePath) -> Result<Tree, Stop>
    ensures { GivesTree (dir_denied (finite.get tree.now folder.now)) (in_folder tree.now folder.now) result }
{
    if let Some(why) = dir_denied(tree, folder) {
        return Err(Stop::Denied(why));
    }
    match subtree(alloc, tree, folder) {
        Ok(tree) => Ok(tree),
        Err(_) => Err(Stop::OutOfMemory),
    }
}

/// The same, looked at so deep.
pub fn tree_within(
    alloc: Global,
    tree: &Tree,
    folder: &NodePath,
    depth: Depth,
) -> Result<Tree, Stop>
    ensures { GivesTree (dir_denied (finite.get tree.now folder.now))
        (within depth (in_folder tree.now folder.now)) result }
{
    if let Some(why) = dir_denied(tree, folder) {
        return Err(Stop::Denied(why));
    }
    match limited(alloc, tree, folder, depth) {
        Ok(tree) => Ok(tree),
        Err(_) => Err(Stop::OutOfMemory),
    }
}

// Whether no directory stands at a path.
fn dir_denied(tree: &Tree, path: &NodePath) -> Option<Denial>
    ensures { result ≡ dir_denied (finite.get tree.now path.now) }
{
    match tree.get(path.names()) {
        None => Some(Denial::NoPath),
        Some(node) => {
            if node.text.is_some() {
                return Some(Denial::NotDir);
            }
            None
        }
    }
}
