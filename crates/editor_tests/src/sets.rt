//! Sets of small revisions, as lines spell them, for the tests.
use dump_load::{Change, ChangeSet, apply};
use node_base::{Action, NodeKind, NodePath, PropName, PropValue, Props, RevNo, Source, Text};
use path_tree::Tree;
use std::alloc::Global;
use std::process::Abort;

/// Ends the test with the case that is wrong, if one is.
pub(crate) fn none_is_wrong(rt: &impl Abort, wrong: Option<&str>) {
    if let Some(case) = wrong {
        rt.panic(case);
    }
}

/// What stands before the first blank, and what behind it.
pub(crate) fn cut(words: &str) -> (&str, &str) {
    match words.split_once(' ') {
        Some(both) => both,
        None => (words, ""),
    }
}

/// The path of a text, in which `/` is the root.
pub(crate) fn path(rt: &impl Abort, alloc: Global, text: &str) -> NodePath {
    let text = text.strip_prefix("/").unwrap_or(text);
    NodePath::parse(alloc, text.as_bytes()).expect(rt, "a path")
}

// Gives a map a property.
fn put(rt: &impl Abort, alloc: Global, props: &mut Props, name: &str, value: &str) {
    let name = PropName::parse(alloc, name.as_bytes()).expect(rt, "a property's name");
    let bytes = Vec::from_slice(alloc, value.as_bytes()).expect(rt, "memory");
    let value = PropValue::new(bytes).expect(rt, "a property's value");
    props.set(alloc, name, value).expect(rt, "a property");
}

/// The properties that words spell: a name, `=` and a value each, with commas between.
pub(crate) fn props(rt: &impl Abort, alloc: Global, words: &str) -> Props {
    let mut props = Props::empty();
    for word in words.split(',') {
        if let Some((name, value)) = word.split_once('=') {
            put(rt, alloc, &mut props, name, value);
        }
    }
    props
}

// The text of these bytes.
fn text(rt: &impl Abort, alloc: Global, bytes: &str) -> Text {
    let bytes = Vec::from_slice(alloc, bytes.as_bytes()).expect(rt, "memory");
    Text::new(alloc, bytes).expect(rt, "a text")
}

fn action(word: &str) -> Action {
    match word {
        "add" => Action::Add,
        "change" => Action::Modify,
        "delete" => Action::Delete,
        _ => Action::Replace,
    }
}

fn kind(word: &str) -> Option<NodeKind> {
    match word {
        "dir" => Some(NodeKind::Dir),
        "file" => Some(NodeKind::File),
        _ => None,
    }
}

/// The source that a path and a revision spell; no revision, no source.
pub(crate) fn source(rt: &impl Abort, alloc: Global, words: &str) -> Option<Source> {
    let (from, number) = cut(words);
    match RevNo::parse(number.as_bytes()) {
        Some(revision) => Some(Source {
            path: path(rt, alloc, from),
            revision,
        }),
        None => None,
    }
}

// What stands before the first tabulator, and what behind it.
fn field(line: &str) -> (&str, Option<&str>) {
    match line.split_once('\t') {
        Some((first, rest)) => (first, Some(rest)),
        None => (line, None),
    }
}

// The properties that a field spells, and none where it is `-` or isn't there.
fn props_of(rt: &impl Abort, alloc: Global, field: Option<&str>) -> Option<Props> {
    match field {
        Some("-") | None => None,
        Some(words) => Some(props(rt, alloc, words)),
    }
}

fn text_of(rt: &impl Abort, alloc: Global, field: Option<&str>) -> Option<Text> {
    match field {
        Some(bytes) => Some(text(rt, alloc, bytes)),
        None => None,
    }
}

/// The change that a line spells: an action, a path, and maybe a kind or `-`, a source's path and its revision; then
/// behind a tabulator the properties that it gives or `-`, and behind another one the text that it gives.
pub(crate) fn change(rt: &impl Abort, alloc: Global, line: &str) -> Change {
    let (head, rest) = field(line);
    let (given, bytes) = match rest {
        Some(rest) => {
            let (given, bytes) = field(rest);
            (Some(given), bytes)
        }
        None => (None, None),
    };
    let (word, rest) = cut(head);
    let (at, rest) = cut(rest);
    let (of_kind, from) = cut(rest);
    Change {
        path: path(rt, alloc, at),
        action: action(word),
        kind: kind(of_kind),
        source: source(rt, alloc, from),
        props: props_of(rt, alloc, given),
        text: text_of(rt, alloc, bytes),
    }
}

/// The changes that lines spell, with semicolons between them.
pub(crate) fn changes(rt: &impl Abort, alloc: Global, lines: &str) -> Vec<Change> {
    let mut changes = Vec::new(alloc);
    for line in lines.split(';') {
        if !line.is_empty() {
            changes.push(change(rt, alloc, line)).expect(rt, "memory");
        }
    }
    changes
}

/// A line that ends with so many bytes `x`.
pub(crate) fn long_line(rt: &impl Abort, alloc: Global, front: &str, count: usize) -> String {
    let mut line = String::from_str(alloc, front).expect(rt, "memory");
    for _ in 0..count {
        line.push_str("x").expect(rt, "memory");
    }
    line
}

pub(crate) fn set_of(rt: &impl Abort, changes: Vec<Change>) -> ChangeSet {
    ChangeSet::from_changes(changes).expect(rt, "a normal set")
}

/// The set that lines spell.
pub(crate) fn set(rt: &impl Abort, alloc: Global, lines: &str) -> ChangeSet {
    set_of(rt, changes(rt, alloc, lines))
}

/// The tree that a set makes.
pub(crate) fn tree_of(rt: &impl Abort, alloc: Global, trees: &[Tree], set: &ChangeSet) -> Tree {
    assert!(rt; trees.len() <= 65_535);
    apply(alloc, trees, set).expect(rt, "a tree")
}

/// Adds the revision that a set makes behind the others.
pub(crate) fn commit(rt: &impl Abort, alloc: Global, trees: &mut Vec<Tree>, set: &ChangeSet) {
    let tree = tree_of(rt, alloc, trees.as_slice(), set);
    trees.push(tree).expect(rt, "memory");
}

/// A copy of t without x.
pub(crate) const COPY_LESS_ONE: &str = "add b - t 1;delete b/x";

/// A directory t and the files t/x and t/y.
pub(crate) const TWO: &str = "add t dir\t;add t/x file\t\t;add t/y file\t\t";

/// Revision 0, and revision 1 that lines spell, if there are some.
pub(crate) fn over(rt: &impl Abort, alloc: Global, lines: &str) -> Vec<Tree> {
    let mut trees = Vec::new(alloc);
    commit(rt, alloc, &mut trees, &ChangeSet::empty(alloc));
    if !lines.is_empty() {
        commit(rt, alloc, &mut trees, &set(rt, alloc, lines));
    }
    trees
}
