//! The parts of a set, one by one: faults, steps, texts, and sets of changes that came from no records.

use crate::spelled::{all_hold, is_as_told, none_is_wrong, path, records, two_trees};
use dump_load::{
    Change, ChangeSet, apply, begin, blank, count_paths, fault_of, in_path_order, is_add,
    is_delete, judged, laws, next_number, settles, share_props, share_text, source_node, step,
};
use node_base::{Action, NodeKind, Props, RevNo, Source, Text, TreeFault};
use path_tree::Tree;
use std::alloc::Global;
use std::process::Abort;

const FILE: Option<NodeKind> = Some(NodeKind::File);

const DIR: Option<NodeKind> = Some(NodeKind::Dir);

// The changes that lines spell, as they come.
fn changes(rt: &impl Abort, alloc: Global, lines: &str) -> Vec<Change> {
    let mut all = Vec::new(alloc);
    for one in records(rt, alloc, lines) {
        all.push(Change::from_record(one)).expect(rt, "memory");
    }
    all
}

// The same in path order.
fn ordered(rt: &impl Abort, alloc: Global, lines: &str) -> Vec<Change> {
    in_path_order(changes(rt, alloc, lines)).expect(rt, "memory")
}

// Whether changes are a set as they come, and whether they are one once they are in path order.
fn is_set(rt: &impl Abort, alloc: Global, lines: &str, as_they_come: bool, in_order: bool) -> bool {
    ChangeSet::from_changes(changes(rt, alloc, lines)).is_ok() == as_they_come
        && ChangeSet::from_changes(ordered(rt, alloc, lines)).is_ok() == in_order
}

// The number of the refusal of changes as they come, or 0.
fn refusal(rt: &impl Abort, alloc: Global, lines: &str) -> u8 {
    match ChangeSet::from_changes(changes(rt, alloc, lines)) {
        Ok(_) => 0,
        Err(fault) => fault.number(),
    }
}

// A source where nothing is made; what is out of order comes first.
const NO_SETS: [(&str, u8); 5] = [
    ("delete b/x\nchange b/x/y", 15),
    ("add q dir", 2),
    ("change b - t 1", 2),
    ("delete b - t 1", 2),
    ("change b - t 1\nadd a - t 1", 15),
];

// The first changes that are refused with another number.
fn other_refusal(rt: &impl Abort, alloc: Global) -> Option<&'static str> {
    for (lines, number) in &NO_SETS {
        if refusal(rt, alloc, *lines) != *number {
            return Some(*lines);
        }
    }
    None
}

#[test]
fn why_changes_are_no_set(rt: HostRuntime) {
    none_is_wrong(&rt, other_refusal(&rt, rt.alloc()));
}

const SETS: [(&str, bool, bool); 5] = [
    ("add b - t 1\ndelete b/x", true, true),
    ("delete b/x\nadd b - t 1", false, true),
    ("delete b/x\nchange b/x/y", false, false),
    ("delete b/x\ndelete b/x", false, false),
    ("add q dir", false, false),
];

// The first changes of which another thing is so.
fn other_set(rt: &impl Abort, alloc: Global) -> Option<&'static str> {
    for (lines, as_they_come, in_order) in &SETS {
        if !is_set(rt, alloc, *lines, *as_they_come, *in_order) {
            return Some(*lines);
        }
    }
    None
}

#[test]
fn changes_that_are_a_set(rt: HostRuntime) {
    none_is_wrong(&rt, other_set(&rt, rt.alloc()));
}

// How many paths changes have.
fn paths_of(rt: &impl Abort, alloc: Global, lines: &str) -> usize {
    match in_path_order(changes(rt, alloc, lines)) {
        Ok(all) => count_paths(&all),
        Err(_) => 0,
    }
}

// The set of changes once they are in path order.
fn ordered_set(rt: &impl Abort, alloc: Global, lines: &str) -> ChangeSet {
    ChangeSet::from_changes(ordered(rt, alloc, lines)).expect(rt, "a set")
}

// Whether a share of a set has so many changes.
fn shares(alloc: Global, set: &ChangeSet, count: usize) -> bool {
    match set.share(alloc) {
        Ok(shared) => shared.into_changes().len() == count,
        Err(_) => false,
    }
}

#[test]
fn a_set_and_its_changes(rt: HostRuntime) {
    let lines = "add b - t 1\ndelete c";
    let set = ordered_set(&rt, rt.alloc(), lines);
    let empty = ChangeSet::empty(rt.alloc());
    all_hold(
        &rt,
        &[
            (paths_of(&rt, rt.alloc(), lines) == 2, "its paths"),
            (shares(rt.alloc(), &set, 2), "its share"),
            (empty.changes().is_empty(), "an empty set"),
        ],
    );
}

// What there is to say of a change of revision 2 where it comes: its fault, the kind that counts, and whether the tree
// has it once it is made.
type Judged = (Option<TreeFault>, Option<NodeKind>, bool);

fn judge(rt: &impl Abort, alloc: Global, trees: &[Tree], change: &Change) -> Judged {
    assert!(rt; trees.len() <= 65_535);
    let mut tree = begin(alloc, trees).expect(rt, "memory");
    let fault = fault_of(trees, &tree, change);
    let kind = judged(trees, &tree, change);
    if fault.is_none() && change.is_whole() {
        step(alloc, trees, &mut tree, change).expect(rt, "memory");
        return (fault, kind, tree.get(change.path.names()).is_some());
    }
    (fault, kind, false)
}

// Whether that is so of the one change that a line spells.
fn is_judged(rt: &impl Abort, alloc: Global, line: &str, wanted: Judged) -> bool {
    let trees = two_trees(rt, alloc);
    let all = changes(rt, alloc, line);
    match all.get(0) {
        Some(change) => judge(rt, alloc, trees.as_slice(), change) == wanted,
        None => false,
    }
}

#[test]
fn a_change_where_it_comes(rt: HostRuntime) {
    let alloc = rt.alloc();
    let absent = (Some(TreeFault::NoSuchPath), None, false);
    all_hold(
        &rt,
        &[
            (
                is_judged(&rt, alloc, "add b - t 1", (None, DIR, true)),
                "a copy",
            ),
            (
                is_judged(&rt, alloc, "delete t/x", (None, FILE, false)),
                "a deletion",
            ),
            (is_judged(&rt, alloc, "change n", absent), "an absent path"),
        ],
    );
}

// The number of the next revision, and whether its first tree is as lines tell.
fn beginning(rt: &impl Abort, alloc: Global, trees: &[Tree], lines: &str) -> (u16, bool) {
    assert!(rt; trees.len() <= 65_535);
    let tree = begin(alloc, trees).expect(rt, "memory");
    (
        next_number(trees).get(),
        is_as_told(rt, alloc, &tree, lines),
    )
}

#[test]
fn what_a_revision_begins_with(rt: HostRuntime) {
    let trees = two_trees(&rt, rt.alloc());
    let lines = "dir2 /\ndir1 t";
    let (number, is_told) = beginning(&rt, rt.alloc(), trees.as_slice(), lines);
    all_hold(&rt, &[(number == 2, "the number"), (is_told, lines)]);
}

// Whether t/x of this revision is a source.
fn is_source(rt: &impl Abort, alloc: Global, trees: &[Tree], number: u16) -> bool {
    let source = Source {
        path: path(rt, alloc, "t/x"),
        revision: RevNo::new(number),
    };
    source_node(trees, &source).is_some()
}

#[test]
fn sources(rt: HostRuntime) {
    let trees = two_trees(&rt, rt.alloc());
    let over = trees.as_slice();
    all_hold(
        &rt,
        &[
            (is_source(&rt, rt.alloc(), over, 1), "revision 1"),
            (!is_source(&rt, rt.alloc(), over, 0), "revision 0"),
            (!is_source(&rt, rt.alloc(), over, 2), "revision 2"),
        ],
    );
}

// The kind of a node of this kind that has nothing.
fn blank_kind(rt: &impl Abort, alloc: Global, kind: Option<NodeKind>) -> NodeKind {
    blank(alloc, kind).expect(rt, "memory").kind()
}

// Whether nothing is shared of nothing.
fn shares_nothing() -> bool {
    matches!(share_props(&None), Ok(None)) && matches!(share_text(&None), Ok(None))
}

#[test]
fn kinds_and_parts(rt: HostRuntime) {
    let acts = settles(Action::Replace) && is_delete(Action::Delete) && is_add(Action::Add);
    let file = blank_kind(&rt, rt.alloc(), FILE) == NodeKind::File;
    let dir = blank_kind(&rt, rt.alloc(), None) == NodeKind::Dir;
    all_hold(
        &rt,
        &[
            (file, "a file"),
            (dir, "a directory"),
            (acts, "actions"),
            (shares_nothing(), "no parts"),
        ],
    );
}

// A text.
fn text(rt: &impl Abort, alloc: Global, bytes: &[u8]) -> Text {
    let bytes = Vec::from_slice(alloc, bytes).expect(rt, "memory");
    Text::new(alloc, bytes).expect(rt, "a text")
}

// The one change that gives a file's text or properties.
fn giving(rt: &impl Abort, alloc: Global, props: Option<Props>, text: Option<Text>) -> ChangeSet {
    let mut all = changes(rt, alloc, "change t/x file");
    if let Some(change) = all.get_mut(0) {
        change.props = props;
        change.text = text;
    }
    ChangeSet::from_changes(all).expect(rt, "a set")
}

// The tree of revision 2 that a set makes.
fn applied(rt: &impl Abort, alloc: Global, set: &ChangeSet) -> Tree {
    let trees = two_trees(rt, alloc);
    assert!(rt; trees.len() <= 65_535);
    apply(alloc, trees.as_slice(), set).expect(rt, "a tree")
}

// Whether the file has this text in the tree that a set makes.
fn leaves_text(rt: &impl Abort, alloc: Global, set: &ChangeSet, bytes: &[u8]) -> bool {
    let path = path(rt, alloc, "t/x");
    let tree = applied(rt, alloc, set);
    match tree.get(path.names()) {
        Some(node) => match &node.text {
            Some(text) => text.as_slice() == bytes,
            None => false,
        },
        None => false,
    }
}

#[test]
fn an_old_text_stays(rt: HostRuntime) {
    let alloc = rt.alloc();
    let with_text = giving(&rt, alloc, None, Some(text(&rt, alloc, b"new")));
    let with_props = giving(&rt, alloc, Some(Props::empty()), None);
    all_hold(
        &rt,
        &[
            (leaves_text(&rt, alloc, &with_text, b"new"), "a new text"),
            (leaves_text(&rt, alloc, &with_props, b""), "an old text"),
        ],
    );
}

#[test]
fn laws_can_be_called() {
    laws::trees_are_effects();
    laws::no_changes();
    laws::one_more();
    laws::one_more_fault();
    laws::replaced();
    laws::reparted();
    laws::bare();
    laws::permuted();
    laws::one_set();
}
