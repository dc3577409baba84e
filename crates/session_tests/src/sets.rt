//! Sets and trees of small revisions, for the tests.

use dump_load::{Change, ChangeSet, apply};
use node_base::{Action, Node, NodeKind, NodePath, Props, RevNo, Source, Text};
use path_tree::{Entry, Tree};
use std::alloc::Global;
use std::cmp::Ordering;
use std::process::Abort;

fn path(rt: &impl Abort, alloc: Global, text: &str) -> NodePath {
    NodePath::parse(alloc, text.as_bytes()).expect(rt, "a path")
}

fn bare(rt: &impl Abort, alloc: Global, at: &str, action: Action) -> Change {
    Change {
        path: path(rt, alloc, at),
        action,
        kind: None,
        source: None,
        props: None,
        text: None,
    }
}

/// A directory that is added.
pub(crate) fn dir(rt: &impl Abort, alloc: Global, at: &str) -> Change {
    let mut change = bare(rt, alloc, at, Action::Add);
    change.kind = Some(NodeKind::Dir);
    change.props = Some(Props::empty());
    change
}

/// A file that is added.
pub(crate) fn file(rt: &impl Abort, alloc: Global, at: &str, bytes: &[u8]) -> Change {
    let bytes = Vec::from_slice(alloc, bytes).expect(rt, "memory");
    let mut change = bare(rt, alloc, at, Action::Add);
    change.kind = Some(NodeKind::File);
    change.props = Some(Props::empty());
    change.text = Some(Text::new(alloc, bytes).expect(rt, "a text"));
    change
}

/// A copy from revision 1.
pub(crate) fn copied(rt: &impl Abort, alloc: Global, at: &str, from: &str) -> Change {
    let mut change = bare(rt, alloc, at, Action::Add);
    change.source = Some(Source {
        path: path(rt, alloc, from),
        revision: RevNo::new(1),
    });
    change
}

/// One change more.
pub(crate) fn add(rt: &impl Abort, changes: &mut Vec<Change>, change: Change) {
    changes.push(change).expect(rt, "memory");
}

/// The set of these changes.
pub(crate) fn set_of(rt: &impl Abort, changes: Vec<Change>) -> ChangeSet {
    ChangeSet::from_changes(changes).expect(rt, "a normal set")
}

/// Adds a directory with two files.
pub(crate) fn first(rt: &impl Abort, alloc: Global) -> ChangeSet {
    let mut changes = Vec::new(alloc);
    add(rt, &mut changes, dir(rt, alloc, "t"));
    add(rt, &mut changes, file(rt, alloc, "t/x", b"hello\n"));
    add(rt, &mut changes, file(rt, alloc, "t/y", b""));
    set_of(rt, changes)
}

/// Copies it without one of them.
pub(crate) fn second(rt: &impl Abort, alloc: Global) -> ChangeSet {
    let mut changes = Vec::new(alloc);
    add(rt, &mut changes, copied(rt, alloc, "b", "t"));
    add(rt, &mut changes, bare(rt, alloc, "b/x", Action::Delete));
    set_of(rt, changes)
}

// Adds the tree of the revision that a set makes.
fn commit(rt: &impl Abort, alloc: Global, trees: &mut Vec<Tree>, set: &ChangeSet) {
    assert!(rt; trees.len() <= 65_535);
    let tree = apply(alloc, trees.as_slice(), set).expect(rt, "a tree");
    trees.push(tree).expect(rt, "memory");
}

/// The trees of revisions 0 to 2.
pub(crate) fn history(rt: &impl Abort, alloc: Global) -> Vec<Tree> {
    let mut trees = Vec::new(alloc);
    commit(rt, alloc, &mut trees, &ChangeSet::empty(alloc));
    commit(rt, alloc, &mut trees, &first(rt, alloc));
    commit(rt, alloc, &mut trees, &second(rt, alloc));
    trees
}

fn bytes_of(node: &Node) -> Option<&[u8]> {
    match &node.text {
        Some(text) => Some(text.as_slice()),
        None => None,
    }
}

fn same_entry(one: &Entry<'_>, other: &Entry<'_>) -> bool {
    if one.path.len() != other.path.len() {
        return false;
    }
    for (name, found) in one.path.iter().zip(other.path.iter()) {
        if name.compare(found) != Ordering::Equal {
            return false;
        }
    }
    one.node.changed == other.node.changed
        && bytes_of(one.node) == bytes_of(other.node)
        && one.node.props.equals(&other.node.props)
}

/// Whether two trees have the same paths with the same nodes.
pub(crate) fn same_tree(alloc: Global, one: &Tree, other: &Tree) -> bool {
    let Ok(these) = one.list(alloc) else {
        return false;
    };
    let Ok(those) = other.list(alloc) else {
        return false;
    };
    if these.len() != those.len() {
        return false;
    }
    for (entry, found) in these.iter().zip(those.iter()) {
        if !same_entry(entry, found) {
            return false;
        }
    }
    true
}

/// Whether a tree is the next one of these behind the first so many.
pub(crate) fn is_next(alloc: Global, trees: &[Tree], count: usize, tree: &Tree) -> bool {
    match trees.get(count) {
        Some(next) => same_tree(alloc, tree, next),
        None => false,
    }
}

/// Whether a set makes the next one of these trees from those before it, of which there are so many.
pub(crate) fn makes_next(alloc: Global, trees: &[Tree], count: usize, set: &ChangeSet) -> bool {
    let (Some(before), Some(next)) = (trees.get(..count), trees.get(count)) else {
        return false;
    };
    if before.len() > 65_535 {
        return false;
    }
    match apply(alloc, before, set) {
        Ok(made) => same_tree(alloc, &made, next),
        Err(_) => false,
    }
}
