//! Trees of lines, and lines of differences.

use node_base::{NodeName, NodePath, PropName, PropValue, Props, RevNo, Text};
use path_tree::Tree;
use std::alloc::Global;
use std::process::Abort;
use tree_reports::{Change, Depth, Parts, differences};

/// The path of that text.
pub(crate) fn path_of(rt: &impl Abort, alloc: Global, text: &str) -> NodePath {
    NodePath::parse(alloc, text.as_bytes()).expect(rt, "a path")
}

// No properties for a dash, and else one with the letter as its value.
fn props_of(rt: &impl Abort, alloc: Global, letter: u8) -> Props {
    let mut props = Props::empty();
    if letter != b'-' {
        let name = PropName::parse(alloc, b"p").expect(rt, "a name");
        let bytes = Vec::from_slice(alloc, &[letter]).expect(rt, "memory");
        let value = PropValue::new(bytes).expect(rt, "a value");
        props.set(alloc, name, value).expect(rt, "a property");
    }
    props
}

// Puts a node of a text's letter, or a folder for a dash.
fn put(rt: &impl Abort, alloc: Global, tree: &mut Tree, text: u8, props: Props, path: &NodePath) {
    let number = RevNo::ZERO;
    if path.is_root() {
        return tree
            .set_props(alloc, path, props, number)
            .expect(rt, "the root");
    }
    if text == b'-' {
        return tree
            .put_dir(alloc, path, props, number)
            .expect(rt, "a folder");
    }
    let bytes = Vec::from_slice(alloc, &[text]).expect(rt, "memory");
    let text = Text::new(alloc, bytes).expect(rt, "a text");
    tree.put_file(alloc, path, text, props, number)
        .expect(rt, "a file")
}

// Puts the node of a line, if its path has so many names.
fn put_line(rt: &impl Abort, alloc: Global, tree: &mut Tree, line: &str, names: usize) {
    let Some((letters, at)) = line.split_once(' ') else {
        rt.panic("no line of a node")
    };
    let [text, props] = letters.as_bytes() else {
        rt.panic("not two letters")
    };
    if at.split('/').count() == names {
        let props = props_of(rt, alloc, *props);
        put(rt, alloc, tree, *text, props, &path_of(rt, alloc, at));
    }
}

/// The tree of such lines, in which each folder is put before what is in it, whatever their order.
pub(crate) fn tree_of(rt: &impl Abort, alloc: Global, lines: &str) -> Tree {
    let mut tree = Tree::empty(alloc).expect(rt, "memory");
    for names in 1..7 {
        for line in lines.lines() {
            put_line(rt, alloc, &mut tree, line, names);
        }
    }
    tree
}

// The letter of a change.
fn letter_of(change: &Change) -> &'static str {
    match change {
        Change::Removed => "D ",
        Change::Added(_) => "A ",
        Change::Replaced(_) => "R ",
        Change::Changed(_, parts) => parts_letter(*parts),
    }
}

fn parts_letter(parts: Parts) -> &'static str {
    match (parts.props, parts.text) {
        (true, true) => "B ",
        (true, false) => "P ",
        (false, true) => "T ",
        (false, false) => "O ",
    }
}

fn put_path(rt: &impl Abort, out: &mut String, path: &[&NodeName]) {
    let mut slash = "";
    for name in path {
        out.push_str(slash).expect(rt, "memory");
        out.push_str(name.as_str()).expect(rt, "memory");
        slash = "/";
    }
}

/// A line for each difference of two trees.
pub(crate) fn told(rt: &impl Abort, alloc: Global, old: &Tree, new: &Tree, depth: Depth) -> String {
    told_opening(rt, alloc, old, new, depth, false)
}

/// The same, where folders may be told though nothing differs in them.
pub(crate) fn told_opening(
    rt: &impl Abort,
    alloc: Global,
    old: &Tree,
    new: &Tree,
    depth: Depth,
    opens: bool,
) -> String {
    let mut out = String::new(alloc);
    for difference in &differences(alloc, old, new, depth, opens).expect(rt, "memory") {
        out.push_str(letter_of(&difference.change))
            .expect(rt, "memory");
        put_path(rt, &mut out, difference.path.as_slice());
        out.push_str("\n").expect(rt, "memory");
    }
    out
}
