//! What types keep, for proofs: functions that change nothing and answer nothing.
ghost use Rattle.std.specs.Prelude.{◌≡◌, ◌≤◌, [], true, length, IfSome};
ghost use Rattle.std.specs.List.{AllByRecursion};
ghost use Rattle.node_base.specs.PathText.{is_path};
ghost use Rattle.node_base.specs.Props.{IsProps, is_prop_name};
ghost use Rattle.node_base.specs.Tree.{IsDirAt, base};
ghost use Rattle.node_base.specs.declared.limits.TheConstants.{PROP_NAME_BYTES, PROP_VALUE_BYTES, TEXT_BYTES};
ghost use Rattle.path_tree.specs.Nodes.{IsNode, IsSmallTree};

use crate::Tree;
use node_base::{Node, NodePath, PropName, PropValue, Props, Text};

/// The path is one by the rule, and within the limits.
pub fn path_limits(path: &NodePath)
    ensures { is_path path.now ≡ true }
{
    path.names();
}

/// Properties that are given are within the limits.
pub fn props_limits(props: &Option<Props>)
    ensures { IfSome props.now IsProps }
{
    if let Some(props) = props {
        props.entries();
    }
}

/// A text that is given has 1,048,576 bytes at most.
pub fn text_limits(text: &Option<Text>)
    ensures { IfSome text.now (λ t. length t ≤ TEXT_BYTES) }
{
    if let Some(text) = text {
        text.len();
    }
}

/// The parts of a node are within the limits.
pub fn node_limits(node: &Node)
    ensures { IsNode node.now }
{
    node.props.entries();
    text_limits(&node.text);
}

/// The name of a property is one by the rule, of 255 bytes at most.
pub fn name_limits(name: &PropName)
    ensures rule { is_prop_name name.now ≡ true }
    ensures small { length name.now ≤ PROP_NAME_BYTES }
{
    name.len();
}

/// A value that is given has 65,536 bytes at most.
pub fn value_limits(value: &Option<PropValue>)
    ensures { IfSome value.now (λ v. length v ≤ PROP_VALUE_BYTES) }
{
    if let Some(value) = value {
        value.len();
    }
}

/// The revision after these trees begins with a root, which is a directory.
pub fn has_root(trees: &[Tree])
    ensures { IsDirAt (base trees.now) [] }
{
    match trees.last() {
        Some(tree) => tree.is_tree(),
        None => {}
    }
}

/// Each of some trees is a tree, and its paths and nodes are within the limits.
pub fn trees_limits(trees: &[Tree])
    ensures { AllByRecursion IsSmallTree trees.now }
{
    for tree in trees {
        tree.limits();
    }
}
