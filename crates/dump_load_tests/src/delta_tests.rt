//! Property lists that records give as changes of what is there.

use crate::spelled::{add, next, none_is_wrong, path, records, two_trees};
use dump_load::{ChangeFault, ChangeSet};
use dump_text::{NodeRecord, PropPart};
use node_base::{PropDelta, PropName, PropValue, Props, RemovedNames};
use path_tree::Tree;
use std::alloc::Global;
use std::process::Abort;

// Gives a list a property.
fn put(rt: &impl Abort, alloc: Global, list: &mut Props, name: &str, value: &str) {
    let name = PropName::parse(alloc, name.as_bytes()).expect(rt, "a name");
    let bytes = Vec::from_slice(alloc, value.as_bytes()).expect(rt, "memory");
    let value = PropValue::new(bytes).expect(rt, "a value");
    list.set(alloc, name, value).expect(rt, "memory");
}

// The list that words spell: a name, `=` and a value each, with commas between.
fn list(rt: &impl Abort, alloc: Global, words: &str) -> Props {
    let mut list = Props::empty();
    for word in words.split(',') {
        if let Some((name, value)) = word.split_once('=') {
            put(rt, alloc, &mut list, name, value);
        }
    }
    list
}

// The names that words spell, with commas between.
fn names(rt: &impl Abort, alloc: Global, words: &str) -> RemovedNames {
    let mut all = RemovedNames::empty();
    for name in words.split(',') {
        if !name.is_empty() {
            let name = PropName::parse(alloc, name.as_bytes()).expect(rt, "a name");
            all.insert(alloc, name).expect(rt, "memory");
        }
    }
    all
}

// The delta that words spell: the names that are set, and behind `-` those that are removed.
fn delta(rt: &impl Abort, alloc: Global, words: &str) -> PropDelta {
    let (sets, removes) = match words.split_once('-') {
        Some(both) => both,
        None => (words, ""),
    };
    PropDelta {
        sets: list(rt, alloc, sets),
        removed: names(rt, alloc, removes),
    }
}

// What a record gives of properties, as words spell it: `=` and a list, `~` and a delta, or nothing.
fn part(rt: &impl Abort, alloc: Global, words: &str) -> Option<PropPart> {
    if let Some(whole) = words.strip_prefix("=") {
        return Some(PropPart::Whole(list(rt, alloc, whole)));
    }
    match words.strip_prefix("~") {
        Some(words) => Some(PropPart::Delta(delta(rt, alloc, words))),
        None => None,
    }
}

// The records that lines spell: a record without parts, a tabulator and what it gives of properties.
fn stated(rt: &impl Abort, alloc: Global, lines: &str) -> Vec<NodeRecord> {
    let mut all = Vec::new(alloc);
    for line in lines.lines() {
        let (bare, words) = match line.split_once('\t') {
            Some((bare, words)) => (bare, words),
            None => (line, ""),
        };
        for mut one in records(rt, alloc, bare) {
            one.props = part(rt, alloc, words);
            all.push(one).expect(rt, "memory");
        }
    }
    all
}

// Three trees: a directory t with the files t/x and t/y, and then t/x with p=1 and t/y with s=5.
fn three_trees(rt: &impl Abort, alloc: Global) -> Vec<Tree> {
    let mut trees = two_trees(rt, alloc);
    let third = stated(rt, alloc, "change t/x\t=p=1\nchange t/y\t=s=5");
    add(rt, alloc, &mut trees, third);
    trees
}

// What revision 3 makes of these records.
fn third(rt: &impl Abort, alloc: Global, lines: &str) -> Result<Tree, ChangeFault> {
    let trees = three_trees(rt, alloc);
    next(rt, alloc, trees.as_slice(), stated(rt, alloc, lines))
}

// Whether a tree has this list at a path.
fn has(rt: &impl Abort, alloc: Global, tree: &Tree, at: &str, words: &str) -> bool {
    match tree.get(path(rt, alloc, at).names()) {
        Some(node) => node.props.equals(&list(rt, alloc, words)),
        None => false,
    }
}

// Whether revision 3 with these records leaves this list at a path.
fn leaves(rt: &impl Abort, alloc: Global, lines: &str, at: &str, words: &str) -> bool {
    match third(rt, alloc, lines) {
        Ok(tree) => has(rt, alloc, &tree, at, words),
        Err(_) => false,
    }
}

// The first records of a table that leave another list at the path beside them.
fn first_other<'a>(
    rt: &impl Abort,
    alloc: Global,
    table: &'a [(&'a str, &'a str, &'a str)],
) -> Option<&'a str> {
    for (lines, at, words) in table {
        if !leaves(rt, alloc, *lines, *at, *words) {
            return Some(*lines);
        }
    }
    None
}

const THERE: [(&str, &str, &str); 5] = [
    ("change t/x\t~q=2-p", "t/x", "q=2"),
    ("change t/x\t~q=2-absent", "t/x", "p=1,q=2"),
    ("change t/x\t~p=3", "t/x", "p=3"),
    ("change t/x\t~-p", "t/x", ""),
    (
        "change t/y\t~z=9\nchange t\t~a=0\nchange t/x\t~-p",
        "t/y",
        "s=5,z=9",
    ),
];

#[test]
fn a_delta_counts_from_what_is_there(rt: HostRuntime) {
    none_is_wrong(&rt, first_other(&rt, rt.alloc(), &THERE));
}

const ADDED: [(&str, &str, &str); 6] = [
    ("add a file\t~q=2-p", "a", "q=2"),
    ("replace t/x file\t~q=2", "t/x", "q=2"),
    ("delete t/x\nadd t/x file\t~q=2", "t/x", "q=2"),
    ("add a file t/x 2\t~q=2", "a", "p=1,q=2"),
    ("add a file t/x 1\t~q=2", "a", "q=2"),
    ("replace t/x file t/y 2\t~q=2", "t/x", "q=2,s=5"),
];

#[test]
fn a_delta_at_an_add_or_a_replace(rt: HostRuntime) {
    none_is_wrong(&rt, first_other(&rt, rt.alloc(), &ADDED));
}

// A replacement or an add of what is above comes first: the node is that of the copy.
const BEHIND: [(&str, &str, &str); 3] = [
    ("replace t dir t 1\nchange t/x\t~q=2", "t/x", "q=2"),
    ("add b dir t 2\nchange b/x\t~q=2", "b/x", "p=1,q=2"),
    ("change b/x\t~q=2-p\nadd b dir t 2", "b/x", "q=2"),
];

#[test]
fn a_delta_behind_earlier_changes(rt: HostRuntime) {
    none_is_wrong(&rt, first_other(&rt, rt.alloc(), &BEHIND));
}

// The number of what `from_records` refuses, or 0.
fn refusal(rt: &impl Abort, alloc: Global, stated: Vec<NodeRecord>) -> u8 {
    let trees = three_trees(rt, alloc);
    assert!(rt; trees.len() <= 65_535);
    match ChangeSet::from_records(alloc, trees.as_slice(), stated) {
        Ok(_) => 0,
        Err(fault) => fault.number(),
    }
}

// The first records of a table that are answered with another number.
fn first_wrong<'a>(rt: &impl Abort, alloc: Global, table: &'a [(&'a str, u8)]) -> Option<&'a str> {
    for (lines, number) in table {
        if refusal(rt, alloc, stated(rt, alloc, *lines)) != *number {
            return Some(*lines);
        }
    }
    None
}

// The first fault of the set up to the delta decides; a fault without a delta isn't told yet.
const NOTHING_THERE: [(&str, u8); 7] = [
    ("change n\t~q=2", 11),
    ("change t/x/y\t~q=2", 13),
    ("add n file t/z 2\t~q=2", 14),
    ("add t/x file t/z 2\t~q=2", 12),
    ("change m/n\nchange t/x/y\t~q=2", 11),
    ("add t/x file\nchange t/z\t~q=2", 12),
    ("change n", 0),
];

#[test]
fn a_delta_that_finds_nothing(rt: HostRuntime) {
    none_is_wrong(&rt, first_wrong(&rt, rt.alloc(), &NOTHING_THERE));
}

const BEFORE: [(&str, u8); 3] = [
    ("change n\t~q=2\nchange t\nchange t", 15),
    ("change n\t~q=2\nadd z", 2),
    ("delete t/x\t~q=2", 2),
];

#[test]
fn what_comes_before_a_delta(rt: HostRuntime) {
    none_is_wrong(&rt, first_wrong(&rt, rt.alloc(), &BEFORE));
}

// A delta that sets 256 names.
fn full(rt: &impl Abort, alloc: Global) -> PropPart {
    let mut sets = Props::empty();
    for i in 0..256 {
        let name = format!(in alloc; "k{i:05}").expect(rt, "memory");
        put(rt, alloc, &mut sets, name.as_str(), "");
    }
    PropPart::Delta(PropDelta {
        sets,
        removed: RemovedNames::empty(),
    })
}

// The records that lines spell, and one whose delta makes 257 names of t/x.
fn overfull(rt: &impl Abort, alloc: Global, lines: &str) -> Vec<NodeRecord> {
    let mut all = stated(rt, alloc, lines);
    for mut one in records(rt, alloc, "change t/x") {
        one.props = Some(full(rt, alloc));
        all.push(one).expect(rt, "memory");
    }
    all
}

// It comes before a fault of an earlier change, and in path order with other deltas.
const PAST: [(&str, u8); 5] = [
    ("", 8),
    ("add t file", 8),
    ("change a\t~q=2", 11),
    ("change z\t~q=2", 8),
    ("add z", 2),
];

// The first records of these that are answered with another number.
fn first_past(rt: &impl Abort, alloc: Global) -> Option<&'static str> {
    for (lines, number) in &PAST {
        if refusal(rt, alloc, overfull(rt, alloc, *lines)) != *number {
            return Some(*lines);
        }
    }
    None
}

#[test]
fn a_list_past_the_limits(rt: HostRuntime) {
    none_is_wrong(&rt, first_past(&rt, rt.alloc()));
}
