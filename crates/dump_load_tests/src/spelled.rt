//! Records and trees as tests spell them.

use dump_load::{ChangeFault, load_revision};
use dump_text::NodeRecord;
use node_base::{Action, NodeKind, NodePath, RevNo, Source};
use path_tree::Tree;
use std::alloc::Global;
use std::process::Abort;

// The first word, and what follows it.
fn word(text: &str) -> (&str, &str) {
    match text.split_once(' ') {
        Some((first, rest)) => (first, rest),
        None => (text, ""),
    }
}

// The path of a text, in which `/` is the root.
pub(crate) fn path(rt: &impl Abort, alloc: Global, text: &str) -> NodePath {
    if text == "/" {
        return NodePath::root(alloc);
    }
    NodePath::parse(alloc, text.as_bytes()).expect(rt, "a path")
}

fn action(rt: &impl Abort, word: &str) -> Action {
    if word == "add" {
        return Action::Add;
    }
    if word == "change" {
        return Action::Modify;
    }
    if word == "delete" {
        return Action::Delete;
    }
    assert!(rt; word == "replace");
    Action::Replace
}

pub(crate) fn kind(word: &str) -> Option<NodeKind> {
    if word == "dir" {
        return Some(NodeKind::Dir);
    }
    if word == "file" {
        return Some(NodeKind::File);
    }
    None
}

// The source that a path and a revision name; no words, no source.
fn source(rt: &impl Abort, alloc: Global, words: &str) -> Option<Source> {
    if words.is_empty() {
        return None;
    }
    let (from, number) = word(words);
    let revision = RevNo::parse(number.as_bytes()).expect(rt, "a revision");
    Some(Source {
        path: path(rt, alloc, from),
        revision,
    })
}

// The record without parts that a line spells: an action, a path, and maybe a kind or `-`, a source's path and its
// revision.
fn record(rt: &impl Abort, alloc: Global, line: &str) -> NodeRecord {
    let (first, rest) = word(line);
    let (second, rest) = word(rest);
    let (third, from) = word(rest);
    NodeRecord {
        path: path(rt, alloc, second),
        kind: kind(third),
        action: action(rt, first),
        source: source(rt, alloc, from),
        props: None,
        text: None,
    }
}

// The records that lines spell.
pub(crate) fn records(rt: &impl Abort, alloc: Global, lines: &str) -> Vec<NodeRecord> {
    let mut all = Vec::new(alloc);
    for line in lines.lines() {
        all.push(record(rt, alloc, line)).expect(rt, "memory");
    }
    all
}

/// The tree of the next revision that records make.
pub(crate) fn next(
    rt: &impl Abort,
    alloc: Global,
    trees: &[Tree],
    stated: Vec<NodeRecord>,
) -> Result<Tree, ChangeFault> {
    let number = trees.len();
    assert!(rt; number <= 65_535);
    match load_revision(alloc, trees, RevNo::new(number as u16), stated) {
        Ok(applied) => Ok(applied.tree),
        Err(fault) => Err(fault),
    }
}

/// Adds the tree that records make of those before.
pub(crate) fn add(rt: &impl Abort, alloc: Global, trees: &mut Vec<Tree>, stated: Vec<NodeRecord>) {
    let tree = next(rt, alloc, trees.as_slice(), stated).expect(rt, "a revision");
    trees.push(tree).expect(rt, "memory");
}

/// Revision 0, and revision 1 with a directory t and the files t/x and t/y.
pub(crate) fn two_trees(rt: &impl Abort, alloc: Global) -> Vec<Tree> {
    let mut trees = Vec::new(alloc);
    add(rt, alloc, &mut trees, Vec::new(alloc));
    let first = records(rt, alloc, "add t/y file\nadd t dir\nadd t/x file");
    add(rt, alloc, &mut trees, first);
    trees
}

/// The tree that revision 2 makes of these records.
pub(crate) fn second(
    rt: &impl Abort,
    alloc: Global,
    stated: Vec<NodeRecord>,
) -> Result<Tree, ChangeFault> {
    let trees = two_trees(rt, alloc);
    next(rt, alloc, trees.as_slice(), stated)
}

/// The number of a refusal, or 0 where there is a tree.
pub(crate) fn number_of(made: Result<Tree, ChangeFault>) -> u8 {
    match made {
        Ok(_) => 0,
        Err(fault) => fault.number(),
    }
}

/// The number of the refusal of revision 2 with these records, or 0.
pub(crate) fn answer(rt: &impl Abort, alloc: Global, stated: Vec<NodeRecord>) -> u8 {
    number_of(second(rt, alloc, stated))
}

/// Ends the test with the case that is wrong, if one is.
pub(crate) fn none_is_wrong(rt: &impl Abort, wrong: Option<&str>) {
    if let Some(case) = wrong {
        rt.panic(case);
    }
}

/// Ends the test with the first case that doesn't hold, if one doesn't.
pub(crate) fn all_hold(rt: &impl Abort, cases: &[(bool, &str)]) {
    for (holds, case) in cases {
        if !*holds {
            rt.panic(*case);
        }
    }
}

// The kind and the number that a word tells of a node: `dir1`, `file2`, or `none` of one that isn't there.
fn mark(word: &str) -> Option<(NodeKind, u16)> {
    if word == "dir1" {
        return Some((NodeKind::Dir, 1));
    }
    if word == "dir2" {
        return Some((NodeKind::Dir, 2));
    }
    if word == "file1" {
        return Some((NodeKind::File, 1));
    }
    if word == "file2" {
        return Some((NodeKind::File, 2));
    }
    None
}

// Whether a tree has at a path what a line tells, a mark and the path.
fn has(rt: &impl Abort, alloc: Global, tree: &Tree, line: &str) -> bool {
    let (told, text) = word(line);
    let path = path(rt, alloc, text);
    match tree.get(path.names()) {
        Some(node) => mark(told) == Some((node.kind(), node.changed.get())),
        None => told == "none",
    }
}

// Whether that is so of each line.
pub(crate) fn is_as_told(rt: &impl Abort, alloc: Global, tree: &Tree, lines: &str) -> bool {
    for line in lines.lines() {
        if !has(rt, alloc, tree, line) {
            return false;
        }
    }
    true
}
