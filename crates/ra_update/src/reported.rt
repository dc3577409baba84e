//! What a client has already of a node, by the tree that it reported.

ghost use Rattle.std.specs.Prelude.{◌≡◌};
ghost use Rattle.std.specs.Option.{option_copied, option_map};
ghost use Rattle.ra_update.specs.Reported.{dir_in, file_in, has_already};

use node_base::{Node, NodePath, PropName};
use path_tree::Tree;

/// The directory that a tree has at a path.
pub fn dir_in<'a>(tree: &'a Tree, path: &NodePath) -> Option<&'a Node>
    ensures { option_copied result ≡ dir_in tree.now path.now }
{
    let node = tree.get(path.names())?;
    match &node.text {
        Some(_) => None,
        None => Some(node),
    }
}

/// The file that a tree has at a path.
pub fn file_in<'a>(tree: &'a Tree, path: &NodePath) -> Option<&'a Node>
    ensures { option_copied result ≡ file_in tree.now path.now }
{
    let node = tree.get(path.names())?;
    match &node.text {
        Some(_) => Some(node),
        None => None,
    }
}

/// Whether a node has a property's value already. A removal gives none.
pub fn has_already(node: Option<&Node>, name: &PropName, value: Option<&[u8]>) -> bool
    ensures { result ≡ has_already (option_copied node.entry) name.now (option_map (λ v. v.now) value.entry) }
{
    let Some(value) = value else {
        return false;
    };
    let Some(node) = node else {
        return false;
    };
    match node.props.get(name.as_bytes()) {
        Some(known) => known == value,
        None => false,
    }
}
