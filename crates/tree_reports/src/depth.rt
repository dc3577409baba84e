//! How deep a tree is looked at.
ghost use Rattle.std.specs.Prelude.{◌≡◌, ◌++◌, [], IfOk};
ghost use Rattle.std.specs.List.{flat_map};
ghost use Rattle.std.specs.FinMap as map;
ghost use Rattle.path_tree.specs.Children.{children_of};
ghost use Rattle.path_tree.specs.Listed.{shown};
ghost use Rattle.tree_reports.specs.Depths.{takes_child, root_of, picked, listed};

use node_base::Node;
use path_tree::{ChildNode, Entry, Tree};
use std::alloc::{AllocError, Global};

/// How deep a tree is looked at.
#[derive(Clone, Copy, PartialEq, Eq)]
pub enum Depth {
    /// The root alone.
    Empty,
    /// The root and the files right in it.
    Files,
    /// The root and what stands right in it.
    Immediates,
    /// All of it.
    Infinity,
}

// What is looked at, in path order. Only that is gone through.
pub(crate) fn list_within<'a>(
    alloc: Global,
    tree: &'a Tree,
    depth: Depth,
) -> Result<Vec<Entry<'a>>, AllocError>
    ensures { IfOk result (λ es. shown es.items ≡ listed depth tree.now) }
{
    tree.is_tree();
    match depth {
        Depth::Infinity => tree.list(alloc),
        Depth::Empty => list_root(alloc, tree),
        Depth::Files => list_shallow(alloc, tree, depth),
        Depth::Immediates => list_shallow(alloc, tree, depth),
    }
}

// The root alone.
fn list_root<'a>(alloc: Global, tree: &'a Tree) -> Result<Vec<Entry<'a>>, AllocError>
    ensures { IfOk result (λ es. shown es.items ≡ root_of tree.now) }
{
    let mut found = Vec::new(alloc);
    if let Some(node) = tree.get(&[]) {
        let path = Vec::new(alloc);
        found.push(Entry { path, node })?;
    }
    Ok(found)
}

// Whether a node right below the root is looked at.
pub(crate) fn takes_child(depth: Depth, node: &Node) -> bool
    ensures { result ≡ takes_child depth node.now }
{
    match depth {
        Depth::Empty => false,
        Depth::Files => node.text.is_some(),
        Depth::Immediates => true,
        Depth::Infinity => true,
    }
}

// The root, and what is looked at of what stands right in it.
fn list_shallow<'a>(
    alloc: Global,
    tree: &'a Tree,
    depth: Depth,
) -> Result<Vec<Entry<'a>>, AllocError>
    ensures { IfOk result (λ es. shown es.items ≡ root_of tree.now ++ flat_map (picked depth)
        (children_of [] tree.now)) }
{
    let mut found = list_root(alloc, tree)?;
    let mut children = tree.children(alloc, &[])?;
    while let Some(ChildNode { name, node }) = children.next()? {
        if takes_child(depth, node) {
            let mut path = Vec::new(alloc);
            path.push(name)?;
            found.push(Entry { path, node })?;
        }
    }
    Ok(found)
}
