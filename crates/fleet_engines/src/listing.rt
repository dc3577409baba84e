//! The listing of the newest tree.
ghost use Rattle.std.specs.Prelude.{◌≡◌, ◌++◌, ◌∷◌, [], codes, IfOk, OnOk};
ghost use Rattle.std.specs.Fmt.{decimal};
ghost use Rattle.fleet_engines.specs.Listing.{listing, text_line};
ghost use Rattle.fleet_engines.specs.Runs.{newest_listing};

use crate::lines::{push_count, push_node_line};
use node_base::Node;
use path_tree::{Tree, Visitor};
use std::alloc::{AllocError, Global};

// Lines of a listing.
#[derive(Drop)]
struct Lines {
    bytes: Vec<u8>,
}

impl Visitor for Lines {
    ghost said = { λ lines. lines.bytes.items };

    ghost line = { text_line };

    // Adds the node's line.
    fn visit(&mut self, path: &[u8], node: &Node) -> Result<(), AllocError> {
        push_node_line(&mut self.bytes, path, node)
    }
}

// Adds the line with a revision's number.
fn push_number_line(bytes: &mut Vec<u8>, number: usize) -> Result<(), AllocError>
    ensures { OnOk result (bytes.new.items ≡ bytes.old.items ++ (codes "revision " ++ (decimal number ++ 10 ∷ []))) }
{
    bytes.extend_from_slice(b"revision ")?;
    push_count(bytes, number)?;
    bytes.push(b'\n')?;
    Ok(())
}

// The listing of a revision's tree.
fn listed(alloc: Global, number: usize, tree: &Tree) -> Result<Vec<u8>, AllocError>
    ensures { IfOk result (λ v. v.items ≡ listing number tree.now) }
{
    let mut bytes = Vec::new(alloc);
    push_number_line(&mut bytes, number)?;
    let mut lines = Lines { bytes };
    tree.visit_nodes(alloc, &mut lines)?;
    Ok(lines.bytes)
}

/// The listing of the last of some trees: its revision's number, and a line for each node in path order.
pub fn newest_listing(alloc: Global, trees: &[Tree]) -> Result<Vec<u8>, AllocError>
    ensures { IfOk result (λ v. v.items ≡ newest_listing trees.now) }
{
    let number = trees.len().saturating_sub(1);
    if number >= trees.len() {
        return Ok(Vec::new(alloc));
    }
    listed(alloc, number, &trees[number])
}
