//! What is shown, and how far it is.
use dump_load::Change;
use path_tree::Tree;
use std::alloc::Global;

/// A set of changes that is shown as the revision after some trees.
#[derive(Drop)]
pub struct Revision<'a> {
    /// Where memory comes from.
    pub alloc: Global,
    /// The trees of the revisions before it.
    pub trees: &'a [Tree],
    /// The changes, in path order.
    pub set: &'a [Change],
}

/// How far a set of changes is shown.
#[derive(Drop)]
pub struct Progress {
    /// The place of the next change.
    pub next: usize,
    /// The tree that the changes before it left.
    pub tree: Tree,
}
