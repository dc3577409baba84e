//! Whether a mirror's revisions are a front of its master's.

use dump_load::ChangeSet;
use fleet_disk::{Disk, MemDisk};
use node_base::RevNo;
use path_tree::Tree;
use repo_core::Repo;
use repo_store::RepoStore;
use std::alloc::Global;

/// Whether two sets change the same paths in the same way.
pub(crate) fn are_same_sets(one: &ChangeSet, other: &ChangeSet) -> bool {
    if one.changes().len() != other.changes().len() {
        return false;
    }
    for (change, found) in one.changes().iter().zip(other.changes().iter()) {
        if change.path != found.path || change.action != found.action {
            return false;
        }
    }
    true
}

// Whether two trees have as many nodes.
fn are_same_trees(alloc: Global, one: &Tree, other: &Tree) -> bool {
    let (Ok(these), Ok(those)) = (one.list(alloc), other.list(alloc)) else {
        return false;
    };
    these.len() == those.len()
}

// Whether two repositories have the same set at a revision, and as many nodes in its tree.
fn have_same(alloc: Global, one: &Repo, other: &Repo, number: RevNo) -> bool {
    let (Some(set), Some(found)) = (one.set(number), other.set(number)) else {
        return false;
    };
    let (Some(tree), Some(there)) = (one.tree(number), other.tree(number)) else {
        return false;
    };
    are_same_sets(set, found) && are_same_trees(alloc, tree, there)
}

/// The head of a mirror whose revisions are a front of the master's; None where they aren't.
pub(crate) fn front_of<D: Disk>(
    alloc: Global,
    mirror: &RepoStore<D>,
    master: &RepoStore<MemDisk>,
) -> Option<RevNo> {
    let head = mirror.repo().head();
    for i in 0..head.get() {
        if !have_same(alloc, mirror.repo(), master.repo(), RevNo::new(i)) {
            return None;
        }
    }
    if have_same(alloc, mirror.repo(), master.repo(), head) {
        Some(head)
    } else {
        None
    }
}
