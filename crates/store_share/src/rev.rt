//! One revision.
ghost use Rattle.std.specs.Prelude.{◌≡◌, ◌<◌, length, Some, IfOk};
ghost use Rattle.store_share.specs.Row.{rev_at};

use dump_load::ChangeSet;
use node_base::RevNo;
use path_tree::Tree;
use repo_core::Repo;
use std::alloc::{AllocError, AllocFailed, Global};

/// A revision as readers see it: its number, the changes that made it, and its tree. Its properties aren't here, since
/// they change.
#[derive(Drop)]
pub struct Rev {
    pub number: RevNo,
    pub set: ChangeSet,
    pub tree: Tree,
}

/// A revision of a repository, in a box of its own that shares the repository's nodes and texts. Only want of memory
/// (70) refuses it.
pub fn rev_of(alloc: Global, repo: &Repo, number: RevNo) -> Result<Box<Rev>, AllocError>
    requires { number < length repo.now.revisions }
    ensures value { IfOk result (λ b. rev_at repo.now number ≡ Some b.value) }
    ensures number { IfOk result (λ b. b.value.number ≡ number) }
{
    let Some(set) = repo.set(number) else {
        unreachable!()
    };
    let Some(tree) = repo.tree(number) else {
        unreachable!()
    };
    let set = set.share(alloc)?;
    let tree = tree.share()?;
    Ok(Box::new(alloc, Rev { number, set, tree })?)
}
