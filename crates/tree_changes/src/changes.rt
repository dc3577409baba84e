//! Differences of two trees as changes.
ghost use Rattle.std.specs.Prelude.{◌≡◌, ◌++◌, ◌∷◌, [], true, Some, None, map, IfOk, OnOk, if◌then◌else◌};
ghost use Rattle.std.specs.List.{AllByRecursion};
ghost use Rattle.node_base.specs.Limits.{fits};
ghost use Rattle.path_tree.specs.Listed.{shown_names};
ghost use Rattle.tree_reports.specs.Differences.{shown, told_of};
ghost use Rattle.tree_changes.specs.Changes.{bare, brought, changed, change_of, Fits};

use dump_load::{Change, share_text};
use node_base::{Action, Node, NodeName, NodePath, PathFault, Props, Text};
use std::alloc::{AllocError, Global};
use std::cmp::Ordering;
use tree_reports::{Change as Told, Difference, Parts};

/// The changes that differences are. Properties and texts are shared with the trees.
#[tactic(auto, using(crate::proofs::Paths::fit_at))]
pub fn changes_of(alloc: Global, differences: &[Difference<'_>]) -> Result<Vec<Change>, AllocError>
    requires { AllByRecursion Fits (shown differences.now) }
    ensures { IfOk result (λ cs. cs.items ≡ map change_of (shown differences.now)) }
{
    let mut changes = Vec::with_capacity(alloc, differences.len())?;
    let mut folder = NodePath::root(alloc);
    for difference in differences {
        changes.push(change_of(alloc, &mut folder, difference)?)?;
    }
    Ok(changes)
}

// The change that a difference is. The folder is that of the difference before, and then its own.
fn change_of(
    alloc: Global,
    folder: &mut NodePath,
    difference: &Difference<'_>,
) -> Result<Change, AllocError>
    requires { fits (shown_names difference.now.path.items) ≡ true }
    ensures { IfOk result (λ c. c ≡ change_of (shown_names difference.now.path.items, told_of difference.now.change)) }
{
    let path = path_of(alloc, folder, difference.path.as_slice())?;
    match &difference.change {
        Told::Removed => Ok(bare(path, Action::Delete)),
        Told::Added(node) => brought(path, Action::Add, node),
        Told::Replaced(node) => brought(path, Action::Replace, node),
        Told::Changed(node, parts) => changed(path, node, *parts),
    }
}

// A change that does nothing at a path but what it is named for.
fn bare(path: NodePath, action: Action) -> Change
    ensures { result ≡ bare path action }
{
    Change {
        path,
        action,
        kind: None,
        source: None,
        props: None,
        text: None,
    }
}

// A node that comes, with what it has.
fn brought(path: NodePath, action: Action, node: &Node) -> Result<Change, AllocError>
    ensures { IfOk result (λ c. c ≡ brought path action node.now) }
{
    let props = node.props.share()?;
    let text = share_text(&node.text)?;
    Ok(Change {
        path,
        action,
        kind: Some(node.kind()),
        source: None,
        props: Some(props),
        text,
    })
}

// A node that has other parts.
fn changed(path: NodePath, node: &Node, parts: Parts) -> Result<Change, AllocError>
    ensures { IfOk result (λ c. c ≡ changed path node.now parts) }
{
    let props = props_given(node, parts.props)?;
    let text = text_given(node, parts.text)?;
    Ok(Change {
        path,
        action: Action::Modify,
        kind: None,
        source: None,
        props,
        text,
    })
}

fn props_given(node: &Node, differ: bool) -> Result<Option<Props>, AllocError>
    ensures { IfOk result (λ p. p ≡ (if differ then Some node.now.props else None)) }
{
    if differ {
        return Ok(Some(node.props.share()?));
    }
    Ok(None)
}

fn text_given(node: &Node, differ: bool) -> Result<Option<Text>, AllocError>
    ensures { IfOk result (λ t. t ≡ (if differ then node.now.text else None)) }
{
    if differ {
        return share_text(&node.text);
    }
    Ok(None)
}

// The path of names, in a folder that most often is the one before.
#[tactic(auto, using(crate::proofs::Paths::above_fits, crate::proofs::Paths::last_shown))]
fn path_of(
    alloc: Global,
    folder: &mut NodePath,
    names: &[&NodeName],
) -> Result<NodePath, AllocError>
    requires { fits (shown_names names.now) ≡ true }
    ensures { IfOk result (λ p. p ≡ shown_names names.now) }
{
    let Some((last, above)) = names.split_last() else {
        return Ok(NodePath::root(alloc));
    };
    enter(alloc, folder, above)?;
    child(alloc, folder, last)
}

// Makes a folder the path of names, where it isn't.
fn enter(alloc: Global, folder: &mut NodePath, names: &[&NodeName]) -> Result<(), AllocError>
    requires { fits (shown_names names.now) ≡ true }
    ensures { OnOk result (folder.new ≡ shown_names names.now) }
{
    if has_names(folder.names(), names) {
        return Ok(());
    }
    *folder = joined(alloc, NodePath::root(alloc), names)?;
    Ok(())
}

// Whether a path has these names and no others.
#[tactic(auto, using(crate::proofs::Paths::names_match))]
fn has_names(path: &[NodeName], names: &[&NodeName]) -> bool
    ensures { result ≡ true → path.now ≡ shown_names names.now }
{
    let Some((first, path)) = path.split_first() else {
        return names.is_empty();
    };
    let Some((name, names)) = names.split_first() else {
        return false;
    };
    if first.compare(name) == Ordering::Equal {
        return has_names(path, names);
    }
    false
}

// A path with names behind it.
#[tactic(auto, using(crate::proofs::Paths::child_fits, crate::proofs::Paths::rest_fits))]
fn joined(alloc: Global, above: NodePath, names: &[&NodeName]) -> Result<NodePath, AllocError>
    requires { fits (above ++ shown_names names.now) ≡ true }
    ensures { IfOk result (λ p. p ≡ above ++ shown_names names.now) }
{
    let Some((first, others)) = names.split_first() else {
        return Ok(above);
    };
    let path = child(alloc, &above, first)?;
    joined(alloc, path, others)
}

// The path of a name right below one.
#[tactic(auto, unfolding(node_base::specs::PathText::child_of))]
fn child(alloc: Global, above: &NodePath, name: &NodeName) -> Result<NodePath, AllocError>
    requires { fits (above.now ++ name.now ∷ []) ≡ true }
    ensures { IfOk result (λ p. p ≡ above.now ++ name.now ∷ []) }
{
    match above.child(alloc, name) {
        Ok(path) => Ok(path),
        Err(PathFault::OutOfMemory) => Err(AllocError),
        Err(PathFault::TooLong) => unreachable!(),
        Err(PathFault::BadPath) => unreachable!(),
    }
}
