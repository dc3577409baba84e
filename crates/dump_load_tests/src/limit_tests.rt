//! The limits of sets and of copies.

use crate::spelled::{add, all_hold, next, number_of};
use dump_load::{Change, ChangeSet};
use dump_text::NodeRecord;
use node_base::{Action, NodeKind, NodePath, RevNo, Source};
use path_tree::Tree;
use std::alloc::Global;
use std::process::Abort;

const FILE: Option<NodeKind> = Some(NodeKind::File);

const DIR: Option<NodeKind> = Some(NodeKind::Dir);

fn record(
    path: NodePath,
    action: Action,
    kind: Option<NodeKind>,
    source: Option<Source>,
) -> NodeRecord {
    NodeRecord {
        path,
        kind,
        action,
        source,
        props: None,
        text: None,
    }
}

// A path of one name, a letter and four digits.
fn numbered_path(rt: &impl Abort, alloc: Global, number: u16) -> NodePath {
    let text = format!(in alloc; "f{number:04}").expect(rt, "memory");
    NodePath::parse(alloc, text.as_bytes()).expect(rt, "a path")
}

// Adds records of so many files.
fn add_many(
    rt: &impl Abort,
    alloc: Global,
    all: &mut Vec<NodeRecord>,
    count: u16,
    action: Action,
    kind: Option<NodeKind>,
) {
    for number in 0..count {
        let one = record(numbered_path(rt, alloc, number), action, kind, None);
        all.push(one).expect(rt, "memory");
    }
}

// Records of so many files.
fn many(
    rt: &impl Abort,
    alloc: Global,
    count: u16,
    action: Action,
    kind: Option<NodeKind>,
) -> Vec<NodeRecord> {
    let mut all = Vec::new(alloc);
    add_many(rt, alloc, &mut all, count, action, kind);
    all
}

// How many changes records make, or the number of their refusal.
fn changes_of(alloc: Global, records: Vec<NodeRecord>) -> Result<usize, u8> {
    match ChangeSet::from_records(alloc, &[], records) {
        Ok(set) => Ok(set.changes().len()),
        Err(fault) => Err(fault.number()),
    }
}

// How many changes so many added files make, or the number of their refusal.
fn changes_of_adds(
    rt: &impl Abort,
    alloc: Global,
    count: u16,
    kind: Option<NodeKind>,
) -> Result<usize, u8> {
    changes_of(alloc, many(rt, alloc, count, Action::Add, kind))
}

#[test]
fn so_many_paths(rt: HostRuntime) {
    assert!(rt; changes_of_adds(&rt, rt.alloc(), 4_096, FILE) == Ok(4_096));
    assert!(rt; changes_of_adds(&rt, rt.alloc(), 4_097, FILE) == Err(8));
}

// So many modifications.
fn modifications(rt: &impl Abort, alloc: Global, count: u16) -> Vec<Change> {
    let mut all = Vec::new(alloc);
    for one in many(rt, alloc, count, Action::Modify, None) {
        all.push(Change::from_record(one)).expect(rt, "memory");
    }
    all
}

// How many changes so many modifications are a set of as they come, or the number of the refusal.
fn modified(rt: &impl Abort, alloc: Global, count: u16) -> Result<usize, u8> {
    match ChangeSet::from_changes(modifications(rt, alloc, count)) {
        Ok(set) => Ok(set.changes().len()),
        Err(fault) => Err(fault.number()),
    }
}

#[test]
fn so_many_changes(rt: HostRuntime) {
    assert!(rt; modified(&rt, rt.alloc(), 4_096) == Ok(4_096));
    assert!(rt; modified(&rt, rt.alloc(), 4_097) == Err(8));
}

// The same of so many modifications, of which one path is changed twice.
fn changes_of_one_twice(rt: &impl Abort, alloc: Global, count: u16) -> Result<usize, u8> {
    let mut twice = many(rt, alloc, count, Action::Modify, None);
    let again = record(numbered_path(rt, alloc, 7), Action::Modify, None, None);
    twice.push(again).expect(rt, "memory");
    changes_of(alloc, twice)
}

#[test]
fn many_paths_before_what_is_wrong_with_them(rt: HostRuntime) {
    let alloc = rt.alloc();
    all_hold(
        &rt,
        &[
            (
                changes_of_adds(&rt, alloc, 4_097, None) == Err(8),
                "adds without a kind",
            ),
            (
                changes_of_one_twice(&rt, alloc, 4_097) == Err(8),
                "4,097 paths and one twice",
            ),
            (
                changes_of_one_twice(&rt, alloc, 4_096) == Err(15),
                "4,096 paths and one twice",
            ),
        ],
    );
}

// The same of so many paths, each deleted and added.
fn changes_of_pairs(rt: &impl Abort, alloc: Global, count: u16) -> Result<usize, u8> {
    let mut pairs = many(rt, alloc, count, Action::Delete, None);
    add_many(rt, alloc, &mut pairs, count, Action::Add, FILE);
    changes_of(alloc, pairs)
}

#[test]
fn more_records_than_paths(rt: HostRuntime) {
    assert!(rt; changes_of_pairs(&rt, rt.alloc(), 4_096) == Ok(4_096));
}

// A path of names of one letter each, repeated so many times.
fn long_path(rt: &impl Abort, alloc: Global, letters: &[u8], times: usize) -> NodePath {
    let mut text = Vec::new(alloc);
    for (place, letter) in letters.iter().enumerate() {
        if place > 0 {
            text.push(b'/').expect(rt, "memory");
        }
        for _ in 0..times {
            text.push(*letter).expect(rt, "memory");
        }
    }
    NodePath::parse(alloc, text.as_slice()).expect(rt, "a path")
}

// Records of directories one in another.
fn directories(rt: &impl Abort, alloc: Global, letters: &[u8], times: usize) -> Vec<NodeRecord> {
    let mut stated = Vec::new(alloc);
    for depth in 1..=letters.len() {
        let path = long_path(rt, alloc, &letters[..depth], times);
        stated
            .push(record(path, Action::Add, DIR, None))
            .expect(rt, "memory");
    }
    stated
}

// Revision 0, and revision 1 with directories one in another.
fn nested(rt: &impl Abort, alloc: Global, letters: &[u8], times: usize) -> Vec<Tree> {
    let mut trees = Vec::new(alloc);
    trees
        .push(Tree::empty(alloc).expect(rt, "memory"))
        .expect(rt, "memory");
    let stated = directories(rt, alloc, letters, times);
    add(rt, alloc, &mut trees, stated);
    trees
}

// The number of the refusal of a copy of the outermost of these directories, or 0.
fn copy(
    rt: &impl Abort,
    alloc: Global,
    trees: &[Tree],
    from: NodePath,
    to: NodePath,
    kind: Option<NodeKind>,
) -> u8 {
    let source = Source {
        path: from,
        revision: RevNo::new(1),
    };
    let mut stated = Vec::new(alloc);
    stated
        .push(record(to, Action::Add, kind, Some(source)))
        .expect(rt, "memory");
    number_of(next(rt, alloc, trees, stated))
}

// The same of a copy of the directory a to a path of these letters, each 255 times.
fn long_copy(
    rt: &impl Abort,
    alloc: Global,
    trees: &[Tree],
    to: &[u8],
    kind: Option<NodeKind>,
) -> u8 {
    let from = long_path(rt, alloc, b"a", 255);
    copy(rt, alloc, trees, from, long_path(rt, alloc, to, 255), kind)
}

#[test]
fn copies_past_1024_bytes(rt: HostRuntime) {
    let trees = nested(&rt, rt.alloc(), b"abc", 255);
    let over = trees.as_slice();
    all_hold(
        &rt,
        &[
            (long_copy(&rt, rt.alloc(), over, b"ad", DIR) == 0, "ad"),
            (long_copy(&rt, rt.alloc(), over, b"abd", None) == 8, "abd"),
            (
                long_copy(&rt, rt.alloc(), over, b"abd", FILE) == 17,
                "abd, of another kind",
            ),
        ],
    );
}

const LETTERS: &[u8] = b"ddddddddddddddddddddddddddddddddd";

const OTHER: &[u8] = b"ddddddddddddddddddddddddddddddddc";

// The number of the refusal of a copy of so many directories to a path of 33 names.
fn deep_copy(rt: &impl Abort, alloc: Global, levels: usize) -> u8 {
    assert!(rt; levels <= LETTERS.len());
    let trees = nested(rt, alloc, &LETTERS[..levels], 1);
    let from = long_path(rt, alloc, b"d", 1);
    copy(
        rt,
        alloc,
        trees.as_slice(),
        from,
        long_path(rt, alloc, OTHER, 1),
        DIR,
    )
}

#[test]
fn copies_past_64_names(rt: HostRuntime) {
    assert!(rt; LETTERS.len() == 33 && OTHER.len() == 33);
    assert!(rt; deep_copy(&rt, rt.alloc(), 32) == 0);
    assert!(rt; deep_copy(&rt, rt.alloc(), 33) == 8);
}
