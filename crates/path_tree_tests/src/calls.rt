//! The calls of both bodies by the texts of paths, for tests.

use node_base::{Node, NodePath, Props, RevNo, Text, read_decimal};
use path_tree::{ChildNode, Children, Entry, Tree, TreeError};
use std::alloc::{AllocError, Global};
use std::process::Abort;

/// The calls that both bodies have.
pub(crate) trait Calls: Sized + Drop {
    fn fresh(alloc: Global) -> Result<Self, AllocError>;

    fn again(&self) -> Result<Self, AllocError>;

    fn file(&mut self, alloc: Global, at: &NodePath, text: Text, number: RevNo) -> u8;

    fn dir(&mut self, alloc: Global, at: &NodePath, number: RevNo) -> u8;

    fn props(&mut self, alloc: Global, at: &NodePath, number: RevNo) -> u8;

    fn text(&mut self, alloc: Global, at: &NodePath, text: Text, number: RevNo) -> u8;

    fn gone(&mut self, alloc: Global, at: &NodePath, number: RevNo) -> u8;

    fn copy(
        &mut self,
        alloc: Global,
        at: &NodePath,
        from: &Self,
        source: &NodePath,
        number: RevNo,
    ) -> u8;

    fn entries(&self, alloc: Global) -> Result<Vec<Entry<'_>>, AllocError>;

    fn below(&self, alloc: Global, at: &NodePath) -> Result<Vec<ChildNode<'_>>, AllocError>;
}

// Children, one after the other.
fn all_of<'a>(alloc: Global, children: Children<'a>) -> Result<Vec<ChildNode<'a>>, AllocError> {
    let mut children = children;
    let mut found = Vec::new(alloc);
    for _ in 0u64..u64::MAX {
        match children.next()? {
            Some(child) => found.push(child)?,
            None => break,
        }
    }
    Ok(found)
}

impl Calls for Tree {
    fn fresh(alloc: Global) -> Result<Tree, AllocError> {
        Tree::empty(alloc)
    }

    fn again(&self) -> Result<Tree, AllocError> {
        self.share()
    }

    fn file(&mut self, alloc: Global, at: &NodePath, text: Text, number: RevNo) -> u8 {
        done(self.put_file(alloc, at, text, Props::empty(), number))
    }

    fn dir(&mut self, alloc: Global, at: &NodePath, number: RevNo) -> u8 {
        done(self.put_dir(alloc, at, Props::empty(), number))
    }

    fn props(&mut self, alloc: Global, at: &NodePath, number: RevNo) -> u8 {
        done(self.set_props(alloc, at, Props::empty(), number))
    }

    fn text(&mut self, alloc: Global, at: &NodePath, text: Text, number: RevNo) -> u8 {
        done(self.set_text(alloc, at, text, number))
    }

    fn gone(&mut self, alloc: Global, at: &NodePath, number: RevNo) -> u8 {
        done(self.remove(alloc, at, number))
    }

    fn copy(
        &mut self,
        alloc: Global,
        at: &NodePath,
        from: &Tree,
        source: &NodePath,
        number: RevNo,
    ) -> u8 {
        done(self.copy_in(alloc, at, from, source, number))
    }

    fn entries(&self, alloc: Global) -> Result<Vec<Entry<'_>>, AllocError> {
        self.list(alloc)
    }

    fn below(&self, alloc: Global, at: &NodePath) -> Result<Vec<ChildNode<'_>>, AllocError> {
        all_of(alloc, self.children(alloc, at.names())?)
    }
}

impl Calls for plain_tree::Tree {
    fn fresh(alloc: Global) -> Result<plain_tree::Tree, AllocError> {
        plain_tree::Tree::empty(alloc)
    }

    fn again(&self) -> Result<plain_tree::Tree, AllocError> {
        self.share()
    }

    fn file(&mut self, alloc: Global, at: &NodePath, text: Text, number: RevNo) -> u8 {
        done(self.put_file(alloc, at, text, Props::empty(), number))
    }

    fn dir(&mut self, alloc: Global, at: &NodePath, number: RevNo) -> u8 {
        done(self.put_dir(alloc, at, Props::empty(), number))
    }

    fn props(&mut self, alloc: Global, at: &NodePath, number: RevNo) -> u8 {
        done(self.set_props(alloc, at, Props::empty(), number))
    }

    fn text(&mut self, alloc: Global, at: &NodePath, text: Text, number: RevNo) -> u8 {
        done(self.set_text(alloc, at, text, number))
    }

    fn gone(&mut self, alloc: Global, at: &NodePath, number: RevNo) -> u8 {
        done(self.remove(alloc, at, number))
    }

    fn copy(
        &mut self,
        alloc: Global,
        at: &NodePath,
        from: &plain_tree::Tree,
        source: &NodePath,
        number: RevNo,
    ) -> u8 {
        done(self.copy_in(alloc, at, from, source, number))
    }

    fn entries(&self, alloc: Global) -> Result<Vec<Entry<'_>>, AllocError> {
        self.list(alloc)
    }

    fn below(&self, alloc: Global, at: &NodePath) -> Result<Vec<ChildNode<'_>>, AllocError> {
        self.children(alloc, at.names())
    }
}

/// The path that a text spells.
pub(crate) fn path(rt: &impl Abort, alloc: Global, text: &str) -> NodePath {
    NodePath::parse(alloc, text.as_bytes()).expect(rt, "a path")
}

/// The text `one`.
pub(crate) fn one(rt: &impl Abort, alloc: Global) -> Text {
    let bytes = Vec::from_slice(alloc, b"one").expect(rt, "memory");
    Text::new(alloc, bytes).expect(rt, "a text")
}

/// The number of a call's refusal, and 0 where it is done.
pub(crate) fn done(answer: Result<(), TreeError>) -> u8 {
    match answer {
        Ok(()) => 0,
        Err(error) => error.number(),
    }
}

/// Adds this to a text.
pub(crate) fn add(rt: &impl Abort, text: &mut String, more: &str) {
    text.push_str(more).expect(rt, "memory");
}

/// A tree of the root alone.
pub(crate) fn fresh<T: Calls>(rt: &impl Abort, alloc: Global) -> T {
    T::fresh(alloc).expect(rt, "memory")
}

/// A share of a tree.
pub(crate) fn again<T: Calls>(rt: &impl Abort, tree: &T) -> T {
    tree.again().expect(rt, "memory")
}

/// What a tree answers where a path of another tree is copied to this one.
pub(crate) fn copied<T: Calls>(
    rt: &impl Abort,
    alloc: Global,
    tree: &mut T,
    at: &str,
    from: &T,
    source: &str,
    number: u16,
) -> u8 {
    let source = path(rt, alloc, source);
    tree.copy(
        alloc,
        &path(rt, alloc, at),
        from,
        &source,
        RevNo::new(number),
    )
}

/// What it answers where its own root is copied.
pub(crate) fn copy_root<T: Calls>(
    rt: &impl Abort,
    alloc: Global,
    tree: &mut T,
    at: &str,
    number: u16,
) -> u8 {
    let before = again(rt, tree);
    copied(rt, alloc, tree, at, &before, "", number)
}

/// What it answers where a file is made.
pub(crate) fn filed<T: Calls>(
    rt: &impl Abort,
    alloc: Global,
    tree: &mut T,
    at: &str,
    number: u16,
) -> u8 {
    let text = one(rt, alloc);
    tree.file(alloc, &path(rt, alloc, at), text, RevNo::new(number))
}

// What it answers where a text is put.
fn texted<T: Calls>(rt: &impl Abort, alloc: Global, tree: &mut T, at: &str, number: u16) -> u8 {
    let text = one(rt, alloc);
    tree.text(alloc, &path(rt, alloc, at), text, RevNo::new(number))
}

/// What it answers where a directory is made.
pub(crate) fn made<T: Calls>(
    rt: &impl Abort,
    alloc: Global,
    tree: &mut T,
    at: &str,
    number: u16,
) -> u8 {
    tree.dir(alloc, &path(rt, alloc, at), RevNo::new(number))
}

/// What it answers where what is at a path is taken away.
pub(crate) fn gone<T: Calls>(
    rt: &impl Abort,
    alloc: Global,
    tree: &mut T,
    at: &str,
    number: u16,
) -> u8 {
    tree.gone(alloc, &path(rt, alloc, at), RevNo::new(number))
}

/// A path of so many names, all but the last of which are directories that are made.
pub(crate) fn deep<T: Calls>(rt: &impl Abort, alloc: Global, tree: &mut T, names: u8) -> String {
    let mut path = String::new(alloc);
    for _ in 1u8..names {
        add(rt, &mut path, "a");
        assert!(rt; made(rt, alloc, tree, path.as_str(), 3) == 0);
        add(rt, &mut path, "/");
    }
    add(rt, &mut path, "b");
    path
}

// Adds the kind, and the revision that changed it.
fn add_node(rt: &impl Abort, alloc: Global, node: &Node, lines: &mut String) {
    let number = node.changed.get();
    let kind = if node.text.is_some() { "F" } else { "D" };
    let front = format!(in alloc; "{kind} {number}").expect(rt, "memory");
    add(rt, lines, front.as_str());
}

// The same, and the names.
fn add_line(rt: &impl Abort, alloc: Global, entry: &Entry, lines: &mut String) {
    add_node(rt, alloc, entry.node, lines);
    for name in &entry.path {
        add(rt, lines, " ");
        add(rt, lines, name.as_str());
    }
    add(rt, lines, "\n");
}

/// A line for each node of a tree.
pub(crate) fn lines<T: Calls>(rt: &impl Abort, alloc: Global, tree: &T) -> String {
    let entries = tree.entries(alloc).expect(rt, "memory");
    let mut lines = String::new(alloc);
    for entry in &entries {
        add_line(rt, alloc, entry, &mut lines);
    }
    lines
}

/// A line for each child of what stands at a path.
pub(crate) fn child_lines<T: Calls>(rt: &impl Abort, alloc: Global, tree: &T, at: &str) -> String {
    let path = path(rt, alloc, bare(at));
    let children = tree.below(alloc, &path).expect(rt, "memory");
    let mut lines = String::new(alloc);
    for child in &children {
        add_node(rt, alloc, child.node, &mut lines);
        add(rt, &mut lines, " ");
        add(rt, &mut lines, child.name.as_str());
        add(rt, &mut lines, "\n");
    }
    lines
}

// What stands before a blank, and what behind it.
fn cut(words: &str) -> (&str, &str) {
    match words.split_once(' ') {
        Some(both) => both,
        None => (words, ""),
    }
}

// What a tree answers to the call that a word names: a copy, where it is none of these.
fn answer<T: Calls>(
    rt: &impl Abort,
    alloc: Global,
    tree: &mut T,
    before: &T,
    (word, at, source): (&str, &str, &str),
    number: u16,
) -> u8 {
    match word {
        "file" => filed(rt, alloc, tree, at, number),
        "dir" => made(rt, alloc, tree, at, number),
        "props" => tree.props(alloc, &path(rt, alloc, at), RevNo::new(number)),
        "text" => texted(rt, alloc, tree, at, number),
        "gone" => gone(rt, alloc, tree, at, number),
        _ => copied(rt, alloc, tree, at, before, source, number),
    }
}

// A path without the slash before it.
fn bare(path: &str) -> &str {
    path.strip_prefix("/").unwrap_or(path)
}

// Whether a tree answers to a call as its line tells.
fn is_answered<T: Calls>(
    rt: &impl Abort,
    alloc: Global,
    tree: &mut T,
    before: &T,
    line: &str,
    number: u16,
) -> bool {
    let (word, rest) = cut(line);
    let (at, rest) = cut(rest);
    let (wanted, source) = cut(rest);
    let call = (word, bare(at), bare(source));
    let found = answer(rt, alloc, tree, before, call, number);
    read_decimal(wanted.as_bytes()) == Some(u64::from(found))
}

/// Whether a tree answers so to calls one after another, of that number. Each is a line: a word, the path behind a
/// slash and the answer, and for a copy its source, which is of the tree before the first of the calls.
pub(crate) fn answers<T: Calls>(
    rt: &impl Abort,
    alloc: Global,
    tree: &mut T,
    calls: &str,
    number: u16,
) -> bool {
    let before = again(rt, tree);
    for line in calls.lines() {
        if !is_answered(rt, alloc, tree, &before, line, number) {
            return false;
        }
    }
    true
}
