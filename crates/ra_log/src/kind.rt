//! What the changes of a revision are of.

ghost use Rattle.std.specs.Prelude.{◌≡◌, true, IfOk};
ghost use Rattle.std.specs.Option.{option_map, option_and_then};
ghost use Rattle.std.specs.FinMap as finite;
ghost use Rattle.node_base.specs.Tree.{kind_of};
ghost use Rattle.path_history.specs.Places.{origin, place};
ghost use Rattle.ra_log.specs.Kinds.{below, kind_at, kind_before, kind_found, kind_told};

use dump_load::{Change, ChangeSet, is_delete};
use node_base::{NodeKind, NodeName, NodePath, RevNo};
use path_history::{HistoryFault, Place, joined, origin};
use path_tree::Tree;
use std::alloc::{AllocError, Global};

// What stands at a path of a tree.
fn kind_in(tree: &Tree, path: &[NodeName]) -> Option<NodeKind>
    ensures { result ≡ option_map kind_of (finite.get tree.now path.now) }
{
    match tree.get(path) {
        Some(node) => Some(node.kind()),
        None => None,
    }
}

// What stands at a place.
fn kind_at(trees: &[Tree], revision: RevNo, path: &NodePath) -> Option<NodeKind>
    ensures { result ≡ kind_at trees.now (place revision path.now) }
{
    let names = path.names();
    match trees.get(revision.index()) {
        Some(tree) => kind_in(tree, names),
        None => None,
    }
}

// What stands below a place.
fn kind_below(
    alloc: Global,
    trees: &[Tree],
    from: &Place,
    rest: &[NodeName],
) -> Result<Option<NodeKind>, AllocError>
    ensures { IfOk result (λ k. k ≡ kind_at trees.now (below rest.now from.now)) }
{
    match joined(alloc, &from.path, rest) {
        Ok(path) => Ok(kind_at(trees, from.revision, &path)),
        Err(HistoryFault::TooLong) => Ok(None),
        Err(HistoryFault::OutOfMemory) => Err(AllocError),
    }
}

// What stood below a folder, where the folder came from.
fn kind_from(
    alloc: Global,
    trees: &[Tree],
    set: &ChangeSet,
    folder: Place,
    rest: &[NodeName],
) -> Result<Option<NodeKind>, AllocError>
    ensures { IfOk result (λ k. k ≡ option_and_then (λ a. kind_at trees.now (below rest.now a))
        (origin true set.now folder)) }
{
    match origin(alloc, set, folder, true) {
        Ok(Some(from)) => kind_below(alloc, trees, &from, rest),
        Ok(None) => Ok(None),
        Err(HistoryFault::TooLong) => Ok(None),
        Err(HistoryFault::OutOfMemory) => Err(AllocError),
    }
}

// What a deletion took away.
fn kind_before(
    alloc: Global,
    trees: &[Tree],
    number: RevNo,
    set: &ChangeSet,
    path: &NodePath,
) -> Result<Option<NodeKind>, AllocError>
    ensures { IfOk result (λ k. k ≡ kind_before trees.now number set.now path.now) }
{
    let names = path.names();
    let (front, rest) = names.split_at(names.len().saturating_sub(1));
    match joined(alloc, &NodePath::root(alloc), front) {
        Ok(path) => {
            let revision = number;
            kind_from(alloc, trees, set, Place { path, revision }, rest)
        }
        Err(HistoryFault::TooLong) => Ok(None),
        Err(HistoryFault::OutOfMemory) => Err(AllocError),
    }
}

// What a change of a revision's set is of.
fn kind_found(
    alloc: Global,
    trees: &[Tree],
    number: RevNo,
    set: &ChangeSet,
    change: &Change,
) -> Result<Option<NodeKind>, AllocError>
    ensures { IfOk result (λ k. k ≡ kind_found trees.now number set.now change.now) }
{
    if is_delete(change.action) {
        return kind_before(alloc, trees, number, set, &change.path);
    }
    Ok(kind_at(trees, number, &change.path))
}

/// What a change of a revision's set is of: what a deletion took away, or what stands at its path behind the others; a
/// directory where that is nothing, which no repository has.
pub fn kind_told(
    alloc: Global,
    trees: &[Tree],
    number: RevNo,
    set: &ChangeSet,
    change: &Change,
) -> Result<NodeKind, AllocError>
    ensures { IfOk result (λ k. k ≡ kind_told trees.now number set.now change.now) }
{
    let found = kind_found(alloc, trees, number, set, change)?;
    Ok(found.unwrap_or(NodeKind::Dir))
}
