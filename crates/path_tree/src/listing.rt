//! Listings: every path with its node.

use node_base::{Node, NodeName};

/// A node and its path, name by name; both lie in the tree.
#[derive(Drop)]
pub struct Entry<'a> {
    pub path: Vec<&'a NodeName>,
    pub node: &'a Node,
}
