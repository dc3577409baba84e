//! One change of a tree.
ghost use Rattle.std.specs.Prelude.{◌≡◌, ◌≤◌, length, [], false, true, None, Some, IsSome, OnOk, OnErr};
ghost use Rattle.std.specs.Prelude.{IfOk};
ghost use Rattle.std.specs.FinMap as map;
ghost use Rattle.node_base.specs.Path.{Path, same_path};
ghost use Rattle.node_base.specs.Tree.{blank, base, marked, changed_at, with_number, IsDirAt};
ghost use Rattle.node_base.specs.declared.limits.TheConstants.{REVISION};
ghost use Rattle.dump_load.specs.Changes.{brings, settles, is_delete, IsDescribed};
ghost use Rattle.dump_load.specs.Effect.{effect, stepped, with_parts};
ghost use Rattle.dump_load.specs.Faults.{fault_of};

use crate::Change;
use crate::change::{share_props, share_text};
use node_base::{Action, Node, NodeKind, Props, RevNo, Source, Text};
use path_tree::Tree;
use std::alloc::{AllocError, Global};

/// The number of the revision that comes after these.
pub fn next_number(trees: &[Tree]) -> RevNo
    requires { length trees.now ≤ REVISION }
    ensures { result ≡ length trees.now }
{
    RevNo::new(trees.len() as u16)
}

/// A file or a directory with nothing in it.
pub fn blank(alloc: Global, kind: Option<NodeKind>) -> Result<Node, AllocError>
    ensures { IfOk result (λ x. x ≡ blank kind) }
{
    let text = match kind {
        None | Some(NodeKind::Dir) => None,
        Some(NodeKind::File) => Some(Text::empty(alloc)?),
    };
    Ok(Node {
        text,
        props: Props::empty(),
        changed: RevNo::ZERO,
    })
}

// Gives the node at the change's path what the change gives, and numbers it and what is above it.
fn put(alloc: Global, number: RevNo, tree: &mut Tree, change: &Change) -> Result<(), AllocError>
    requires text { IsSome change.now.text → ¬ IsDirAt (map.get tree.old) change.now.path }
    requires there { IsSome (map.get tree.old change.now.path) }
    ensures { OnOk result ((q : Path) → map.get tree.new q
        ≡ changed_at (marked (map.get tree.old) change.now.path number) change.now.path (with_parts change.now) q) }
{
    let text = share_text(&change.text)?;
    let props = share_props(&change.props)?;
    tree.put_parts_there(alloc, change.path.names(), text, props, number)
}

// A new node as the change begins it, with what the change gives and the number.
fn begun(alloc: Global, number: RevNo, change: &Change) -> Result<Node, AllocError>
    ensures { IfOk result (λ x. x ≡ with_number number (with_parts change.now (blank change.now.kind))) }
{
    let text = share_text(&change.text)?;
    let props = share_props(&change.props)?;
    let mut node = blank(alloc, change.kind)?;
    node.put_parts(text, props);
    node.changed = number;
    Ok(node)
}

// Puts a copy of the source's nodes in the place of what is at the change's path and below it, and what the change
// gives to its top.
fn arrive_copied(
    alloc: Global,
    trees: &[Tree],
    tree: &mut Tree,
    change: &Change,
    source: &Source,
) -> Result<(), AllocError>
    requires few { length trees.now ≤ REVISION }
    requires brings { brings change.now ≡ true }
    requires whole { IsDescribed change.now }
    requires faultless { fault_of trees.now (map.get tree.old) change.now ≡ None }
    requires copied { change.now.source ≡ Some source.now }
    ensures { OnOk result ((q : Path) → map.get tree.new q ≡ stepped trees.now (map.get tree.old) change.now q) }
{
    let number = next_number(trees);
    let from = &trees[source.revision.index()];
    tree.graft_copy(alloc, &change.path, from, source.path.names(), number)?;
    put(alloc, number, tree, change)
}

// Adds or replaces.
fn arrive(alloc: Global, trees: &[Tree], tree: &mut Tree, change: &Change) -> Result<(), AllocError>
    requires few { length trees.now ≤ REVISION }
    requires brings { brings change.now ≡ true }
    requires whole { IsDescribed change.now }
    requires faultless { fault_of trees.now (map.get tree.old) change.now ≡ None }
    ensures { OnOk result ((q : Path) → map.get tree.new q ≡ stepped trees.now (map.get tree.old) change.now q) }
{
    match &change.source {
        None => {
            let node = begun(alloc, next_number(trees), change)?;
            tree.put_node(alloc, &change.path, node)
        }
        Some(source) => arrive_copied(alloc, trees, tree, change, source),
    }
}

// Changes what is there.
fn modify(alloc: Global, trees: &[Tree], tree: &mut Tree, change: &Change) -> Result<(), AllocError>
    requires few { length trees.now ≤ REVISION }
    requires stays { settles change.now.action ≡ false }
    requires faultless { fault_of trees.now (map.get tree.old) change.now ≡ None }
    ensures { OnOk result ((q : Path) → map.get tree.new q ≡ stepped trees.now (map.get tree.old) change.now q) }
{
    put(alloc, next_number(trees), tree, change)
}

// Takes away what is there and below it.
fn delete(alloc: Global, trees: &[Tree], tree: &mut Tree, change: &Change) -> Result<(), AllocError>
    requires few { length trees.now ≤ REVISION }
    requires deletes { is_delete change.now.action ≡ true }
    requires faultless { fault_of trees.now (map.get tree.old) change.now ≡ None }
    ensures { OnOk result ((q : Path) → map.get tree.new q ≡ stepped trees.now (map.get tree.old) change.now q) }
{
    tree.prune(alloc, change.path.names(), next_number(trees))
}

/// Makes a change of the tree that the changes before it left, where it has no fault there.
pub fn step(
    alloc: Global,
    trees: &[Tree],
    tree: &mut Tree,
    change: &Change,
) -> Result<(), AllocError>
    requires few { length trees.now ≤ REVISION }
    requires whole { IsDescribed change.now }
    requires faultless { fault_of trees.now (map.get tree.old) change.now ≡ None }
    ensures { OnOk result ((q : Path) → map.get tree.new q ≡ stepped trees.now (map.get tree.old) change.now q) }
{
    match change.action {
        Action::Modify => modify(alloc, trees, tree, change),
        Action::Delete => delete(alloc, trees, tree, change),
        Action::Add | Action::Replace => arrive(alloc, trees, tree, change),
    }
}

/// The tree that the changes of the next revision begin with: that of the newest, its root numbered.
pub fn begin(alloc: Global, trees: &[Tree]) -> Result<Tree, AllocError>
    requires { length trees.now ≤ REVISION }
    ensures { IfOk result (λ t. (q : Path) → map.get t q ≡ effect trees.now [] q) }
{
    let mut tree = newest(alloc, trees)?;
    tree.mark(alloc, &[], next_number(trees))?;
    Ok(tree)
}

// The newest tree, or the root alone.
fn newest(alloc: Global, trees: &[Tree]) -> Result<Tree, AllocError>
    ensures { IfOk result (λ t. (q : Path) → map.get t q ≡ base trees.now q) }
{
    match trees.last() {
        Some(tree) => tree.share(),
        None => Tree::empty(alloc),
    }
}
