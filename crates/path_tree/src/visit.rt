//! Trees gone through node by node, without a list of their nodes.
ghost use Rattle.std.specs.Prelude.{◌≡◌, ◌++◌, ℕ, List, OnOk};
ghost use Rattle.node_base.specs.declared.node.Node.{Node};

use node_base::Node;
use std::alloc::AllocError;

/// Who is shown the nodes of a tree, each with its path.
pub trait Visitor {
    /// What was said so far.
    ghost said: { Self → List ℕ };

    /// What is said of a path's text, each name behind a slash, and its node.
    ghost line: { List ℕ × Node → List ℕ };

    /// Is shown a node and its path's text, each name behind a slash, so that the root's is empty.
    fn visit(&mut self, path: &[u8], node: &Node) -> Result<(), AllocError>
        ensures { OnOk result (said self.new ≡ said self.old ++ line (path.now, node.now)) };
}
