//! Differences of two trees.

use node_base::{Node, NodeName};

/// Which parts of a node are other ones.
#[derive(Clone, Copy, PartialEq, Eq)]
pub struct Parts {
    pub props: bool,
    pub text: bool,
}

/// What is told of a path.
#[derive(Drop)]
pub enum Change<'a> {
    /// Its node goes, with all that is below it.
    Removed,
    /// This node comes where nothing was.
    Added(&'a Node),
    /// This node comes in the place of one of the other kind, and what was below that goes.
    Replaced(&'a Node),
    /// This node is of the same kind as the one before, and has these parts other than that.
    Changed(&'a Node, Parts),
}

/// A path at which two trees differ, name by name, with what is told of it. Names and nodes lie in the trees.
#[derive(Drop)]
pub struct Difference<'a> {
    pub path: Vec<&'a NodeName>,
    pub change: Change<'a>,
}
