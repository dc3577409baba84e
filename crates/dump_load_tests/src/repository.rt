//! A repository's sets as tests spell them.

use crate::spelled::{kind, path};
use dump_load::{ChangeSet, load_revision};
use dump_text::{NodeRecord, PropPart};
use node_base::{Action, PropName, PropValue, Props, RevNo, Source, Text};
use path_tree::Tree;
use std::alloc::Global;
use std::process::Abort;

/// What stands before the first bar, and behind it.
pub(crate) fn field(text: &str) -> (&str, &str) {
    match text.split_once('|') {
        Some((first, rest)) => (first, rest),
        None => (text, ""),
    }
}

/// The revision that digits spell.
pub(crate) fn revision(rt: &impl Abort, text: &str) -> RevNo {
    RevNo::parse(text.as_bytes()).expect(rt, "a revision")
}

fn action(word: &str) -> Action {
    if word == "add" {
        return Action::Add;
    }
    if word == "delete" {
        return Action::Delete;
    }
    if word == "replace" {
        return Action::Replace;
    }
    Action::Modify
}

// One property.
fn some_props(rt: &impl Abort, alloc: Global) -> Props {
    let name = PropName::parse(alloc, b"p").expect(rt, "a name");
    let value = PropValue::new(Vec::new(alloc)).expect(rt, "a value");
    let mut props = Props::empty();
    props.set(alloc, name, value).expect(rt, "memory");
    props
}

// The list of properties that a letter tells: `p` for one property, `e` for none.
fn props(rt: &impl Abort, alloc: Global, parts: &str) -> Option<PropPart> {
    if parts.contains('p') {
        return Some(PropPart::Whole(some_props(rt, alloc)));
    }
    if parts.contains('e') {
        return Some(PropPart::Whole(Props::empty()));
    }
    None
}

fn text(rt: &impl Abort, alloc: Global, parts: &str) -> Option<Text> {
    if parts.contains('t') {
        return Some(Text::empty(alloc).expect(rt, "memory"));
    }
    None
}

// The source that a path and a revision name; no words, no source.
fn source(rt: &impl Abort, alloc: Global, words: &str) -> Option<Source> {
    if words.is_empty() {
        return None;
    }
    let (from, number) = field(words);
    Some(Source {
        path: path(rt, alloc, from),
        revision: revision(rt, number),
    })
}

// The record that a line spells: an action, a path, a kind, parts, and maybe a source.
fn record(rt: &impl Abort, alloc: Global, line: &str) -> NodeRecord {
    let (first, rest) = field(line);
    let (second, rest) = field(rest);
    let (third, rest) = field(rest);
    let (parts, from) = field(rest);
    NodeRecord {
        path: path(rt, alloc, second),
        kind: kind(third),
        action: action(first),
        source: source(rt, alloc, from),
        props: props(rt, alloc, parts),
        text: text(rt, alloc, parts),
    }
}

fn records(rt: &impl Abort, alloc: Global, lines: &str) -> Vec<NodeRecord> {
    let mut all = Vec::new(alloc);
    for line in lines.lines() {
        all.push(record(rt, alloc, line)).expect(rt, "memory");
    }
    all
}

// The set and the tree of the next revision.
fn load(
    rt: &impl Abort,
    alloc: Global,
    trees: &mut Vec<Tree>,
    stated: Vec<NodeRecord>,
) -> ChangeSet {
    let number = trees.len();
    assert!(rt; number <= 65_535);
    let number = RevNo::new(number as u16);
    let applied = load_revision(alloc, trees.as_slice(), number, stated).expect(rt, "a revision");
    trees.push(applied.tree).expect(rt, "memory");
    applied.set
}

/// The sets of revisions that lines spell.
pub(crate) fn sets(rt: &impl Abort, alloc: Global, revisions: &[&str]) -> Vec<ChangeSet> {
    let mut trees = Vec::new(alloc);
    let mut sets = Vec::new(alloc);
    for lines in revisions {
        let stated = records(rt, alloc, *lines);
        let set = load(rt, alloc, &mut trees, stated);
        sets.push(set).expect(rt, "memory");
    }
    sets
}
