//! What is wrong with one change, where it comes.
ghost use Rattle.std.specs.Prelude.{◌≡◌, ◌&&◌, [], Some, None, is_some, is_none, false, MatchOption};
ghost use Rattle.std.specs.Option.{option_map_or, option_copied};
ghost use Rattle.std.specs.FinMap as map;
ghost use Rattle.node_base.specs.Path.{same_path};
ghost use Rattle.node_base.specs.Tree.{blocked, source_at};
ghost use Rattle.node_base.specs.declared.fault.TreeFault.TheVariants.{BadPath, NoSource, KindMismatch, TooLong};
ghost use Rattle.dump_load.specs.Changes.{settles, brings};
ghost use Rattle.dump_load.specs.Faults.{fault_if, fault_of, place_fault, judged, kind_over, brought_kind};
ghost use Rattle.dump_load.specs.Faults.{mismatches, lacks_source, copies_too_long};

use crate::Change;
use crate::change::settles;
use node_base::{Action, Node, NodeKind, NodePath, Source, TreeFault};
use path_tree::Tree;

/// The node at a source, if there is one in an earlier revision.
pub fn source_node<'a>(trees: &'a [Tree], source: &Source) -> Option<&'a Node>
    ensures { option_copied result ≡ source_at trees.now source.now [] }
{
    let revision = source.revision.index();
    if revision < trees.len() {
        trees[revision].get(source.path.names())
    } else {
        None
    }
}

fn root_fault(change: &Change) -> Option<TreeFault>
    ensures { result ≡ fault_if (same_path change.now.path [] && settles change.now.action) BadPath }
{
    if change.path.is_root() && settles(change.action) {
        Some(TreeFault::BadPath)
    } else {
        None
    }
}

fn place_fault(action: Action, there: bool) -> Option<TreeFault>
    ensures { result ≡ place_fault action there }
{
    match action {
        Action::Add => {
            if there {
                Some(TreeFault::PathThere)
            } else {
                None
            }
        }
        Action::Modify | Action::Delete | Action::Replace => {
            if there {
                None
            } else {
                Some(TreeFault::NoSuchPath)
            }
        }
    }
}

fn source_fault(trees: &[Tree], change: &Change) -> Option<TreeFault>
    ensures { result ≡ fault_if (lacks_source trees.now change.now) NoSource }
{
    match &change.source {
        None => None,
        Some(source) => match source_node(trees, source) {
            Some(_) => None,
            None => Some(TreeFault::NoSource),
        },
    }
}

// The kind that counts for an add or a replace.
fn brought_kind(trees: &[Tree], change: &Change) -> Option<NodeKind>
    ensures { result ≡ brought_kind trees.now change.now }
{
    match &change.source {
        None => change.kind,
        Some(source) => match source_node(trees, source) {
            Some(node) => Some(node.kind()),
            None => None,
        },
    }
}

// The kind that counts for a change where this stands at its path.
fn kind_over(trees: &[Tree], found: Option<&Node>, change: &Change) -> Option<NodeKind>
    ensures { result ≡ kind_over trees.now (option_copied found.entry) change.now }
{
    if change.brings() {
        return brought_kind(trees, change);
    }
    match found {
        Some(node) => Some(node.kind()),
        None => None,
    }
}

/// The kind that counts for a change: that of the source of a copy, the one that is given for another add or
/// replace, and else that of the node that is there.
pub fn judged(trees: &[Tree], tree: &Tree, change: &Change) -> Option<NodeKind>
    ensures { result ≡ judged trees.now (map.get tree.now) change.now }
{
    if change.brings() {
        return brought_kind(trees, change);
    }
    match tree.get(change.path.names()) {
        Some(node) => Some(node.kind()),
        None => None,
    }
}

fn kind_fault(
    given: Option<NodeKind>,
    has_text: bool,
    judged: Option<NodeKind>,
) -> Option<TreeFault>
    ensures { result ≡ fault_if (option_map_or (mismatches given has_text) judged false) KindMismatch }
{
    match (given, judged) {
        (_, None) => None,
        (Some(NodeKind::File), Some(NodeKind::Dir)) => Some(TreeFault::KindMismatch),
        (Some(NodeKind::Dir), Some(NodeKind::File)) => Some(TreeFault::KindMismatch),
        (_, Some(NodeKind::File)) => None,
        (_, Some(NodeKind::Dir)) => {
            if has_text {
                Some(TreeFault::KindMismatch)
            } else {
                None
            }
        }
    }
}

fn is_too_long(trees: &[Tree], change: &Change, source: &Source) -> bool
    ensures { result ≡ copies_too_long trees.now change.now.path source.now }
{
    let revision = source.revision.index();
    revision < trees.len()
        && trees[revision].copy_is_too_long(source.path.names(), change.path.names())
}

fn copy_fault(trees: &[Tree], change: &Change) -> Option<TreeFault>
    ensures { result ≡ fault_if (brings change.now
        && option_map_or (copies_too_long trees.now change.now.path) change.now.source false) TooLong }
{
    match &change.source {
        None => None,
        Some(source) => {
            if change.brings() && is_too_long(trees, change, source) {
                Some(TreeFault::TooLong)
            } else {
                None
            }
        }
    }
}

// The fault of the first proper front of a path, from the root down, that is no directory. Where something is at the
// path there is none, and the tree isn't walked again.
fn front_fault(tree: &Tree, path: &NodePath, there: bool) -> Option<TreeFault>
    requires { there ≡ is_some (map.get tree.now path.now) }
    ensures { result ≡ blocked (map.get tree.now) path.now }
{
    if there {
        tree.is_tree();
        return None;
    }
    tree.blocked(path.names())
}

/// The first of a change's faults, in their order, where `tree` is what the changes before it left: the root is
/// added, deleted or replaced (10), a front of the path is absent (11) or a file (13), an add finds something (12)
/// or another change nothing (11), the source isn't there (14), a kind differs or a directory is given a text (17),
/// and a path of the copy is past the limits (8).
pub fn fault_of(trees: &[Tree], tree: &Tree, change: &Change) -> Option<TreeFault>
    ensures { result ≡ fault_of trees.now (map.get tree.now) change.now }
{
    let found = tree.get(change.path.names());
    let there = found.is_some();
    let kind = kind_over(trees, found, change);
    let copy = copy_fault(trees, change).or(None);
    let last = kind_fault(change.kind, change.text.is_some(), kind).or(copy);
    let source = source_fault(trees, change).or(last);
    let place = place_fault(change.action, there).or(source);
    root_fault(change).or(front_fault(tree, &change.path, there).or(place))
}
