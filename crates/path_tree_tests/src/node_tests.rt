//! A node that is built bit by bit, and why that is refused.

use crate::calls::{again, done, fresh, one, path};
use crate::checked::all_hold;
use node_base::{NodePath, PropName, PropValue, Props, Refusal, RevNo, TreeFault};
use path_tree::{Tree, TreeError};
use std::alloc::Global;
use std::process::Abort;

// Puts a file with the text `one`, and a directory.
fn fill(rt: &impl Abort, alloc: Global, tree: &mut Tree) -> bool {
    let file = path(rt, alloc, "f");
    let dir = path(rt, alloc, "d");
    tree.put_file(alloc, &file, one(rt, alloc), Props::empty(), RevNo::new(1))
        .is_ok()
        && tree
            .put_dir(alloc, &dir, Props::empty(), RevNo::new(1))
            .is_ok()
}

// A file with the text `one`, and a directory.
fn small(rt: &impl Abort, alloc: Global) -> Tree {
    let mut tree = fresh::<Tree>(rt, alloc);
    assert!(rt; fill(rt, alloc, &mut tree));
    tree
}

// Whether a file has that text.
fn reads(tree: &Tree, file: &NodePath, text: &[u8]) -> bool {
    match tree.get(file.names()) {
        Some(node) => match &node.text {
            Some(found) => found.as_slice() == text,
            None => false,
        },
        None => false,
    }
}

// Whether a text grows by a piece, and another one is begun and built of two.
fn is_built(alloc: Global, tree: &mut Tree, file: &NodePath) -> bool {
    tree.append_text(alloc, file, b" more").is_ok()
        && reads(tree, file, b"one more")
        && tree.start_text(alloc, file).is_ok()
        && tree.append_text(alloc, file, b"t").is_ok()
        && tree.append_text(alloc, file, b"wo").is_ok()
        && reads(tree, file, b"two")
}

#[test]
fn a_text_is_built_in_pieces(rt: HostRuntime) {
    let mut tree = small(&rt, rt.alloc());
    let before = again(&rt, &tree);
    let file = path(&rt, rt.alloc(), "f");
    all_hold(
        &rt,
        &[
            (is_built(rt.alloc(), &mut tree, &file), "the text"),
            (reads(&before, &file, b"one"), "its share"),
        ],
    );
}

// The name of a property.
fn name(rt: &impl Abort, alloc: Global, text: &[u8]) -> PropName {
    PropName::parse(alloc, text).expect(rt, "a name")
}

// Puts a value at a name.
fn put(rt: &impl Abort, alloc: Global, tree: &mut Tree, at: &str, text: &[u8]) -> u8 {
    let bytes = Vec::from_slice(alloc, b"v").expect(rt, "memory");
    let value = PropValue::new(bytes).expect(rt, "a value");
    done(tree.put_prop(
        alloc,
        &path(rt, alloc, at),
        name(rt, alloc, text),
        Some(value),
    ))
}

// Takes the value at a name away.
fn clear(rt: &impl Abort, alloc: Global, tree: &mut Tree, at: &str, text: &[u8]) -> u8 {
    done(tree.put_prop(alloc, &path(rt, alloc, at), name(rt, alloc, text), None))
}

// Whether a node has so many properties.
fn has(rt: &impl Abort, alloc: Global, tree: &Tree, at: &str, count: usize) -> bool {
    match tree.get(path(rt, alloc, at).names()) {
        Some(node) => node.props.len() == count,
        None => false,
    }
}

// Whether two properties of a directory are put, and then one of them goes.
fn builds_properties(rt: &impl Abort, alloc: Global, tree: &mut Tree) -> bool {
    put(rt, alloc, tree, "d", b"a") == 0
        && put(rt, alloc, tree, "d", b"b") == 0
        && clear(rt, alloc, tree, "d", b"a") == 0
        && has(rt, alloc, tree, "d", 1)
}

#[test]
fn properties_are_built_one_by_one(rt: HostRuntime) {
    let mut tree = small(&rt, rt.alloc());
    let before = again(&rt, &tree);
    all_hold(
        &rt,
        &[
            (
                builds_properties(&rt, rt.alloc(), &mut tree),
                "the properties",
            ),
            (has(&rt, rt.alloc(), &before, "d", 0), "their share"),
        ],
    );
}

// A file with 256 properties.
fn full(rt: &impl Abort, alloc: Global) -> Tree {
    let mut tree = small(rt, alloc);
    for number in 0u16..256 {
        let name = format!(in alloc; "p{number}").expect(rt, "memory");
        assert!(rt; put(rt, alloc, &mut tree, "f", name.as_str().as_bytes()) == 0);
    }
    tree
}

// Whether a file with 256 properties answers so where one is put, and then has so many.
fn answers_when_full(rt: &impl Abort, alloc: Global, name: &[u8], want: u8, count: usize) -> bool {
    let mut tree = full(rt, alloc);
    put(rt, alloc, &mut tree, "f", name) == want && has(rt, alloc, &tree, "f", count)
}

#[test]
fn one_property_more_is_refused(rt: HostRuntime) {
    all_hold(
        &rt,
        &[
            (answers_when_full(&rt, rt.alloc(), b"q", 8, 256), "another"),
            (
                answers_when_full(&rt, rt.alloc(), b"p7", 0, 256),
                "one that is there",
            ),
            (
                answers_when_full(&rt, rt.alloc(), b"svn:sync-x", 0, 257),
                "a mirror's own",
            ),
        ],
    );
}

#[test]
fn a_property_that_is_absent_is_taken_away(rt: HostRuntime) {
    let mut tree = full(&rt, rt.alloc());
    let cleared = clear(&rt, rt.alloc(), &mut tree, "f", b"q") == 0;
    let kept = has(&rt, rt.alloc(), &tree, "f", 256);
    all_hold(&rt, &[(cleared, "the answer"), (kept, "what is left")]);
}

// A property of what is absent, and of what is below a file.
fn refuses_props(rt: &impl Abort, alloc: Global) -> bool {
    let mut tree = small(rt, alloc);
    put(rt, alloc, &mut tree, "x", b"a") == 11 && clear(rt, alloc, &mut tree, "f/x", b"a") == 13
}

// A text of what is absent, and of a directory twice.
fn refuses_texts(rt: &impl Abort, alloc: Global) -> bool {
    let mut tree = small(rt, alloc);
    let absent = path(rt, alloc, "x/y");
    let dir = path(rt, alloc, "d");
    done(tree.start_text(alloc, &absent)) == 11
        && done(tree.start_text(alloc, &dir)) == 17
        && done(tree.append_text(alloc, &dir, b"a")) == 17
}

#[test]
fn places_are_refused_first(rt: HostRuntime) {
    assert!(rt; refuses_props(&rt, rt.alloc()));
    assert!(rt; refuses_texts(&rt, rt.alloc()));
}

// Pieces that make the text `one` a mebibyte, one byte more, and nothing more.
fn refuses_a_byte_more(rt: &impl Abort, alloc: Global) -> bool {
    let mut tree = small(rt, alloc);
    let file = path(rt, alloc, "f");
    let piece = Vec::from_elem(alloc, b'x', 1_048_573).expect(rt, "memory");
    done(tree.append_text(alloc, &file, piece.as_slice())) == 0
        && done(tree.append_text(alloc, &file, b"x")) == 8
        && done(tree.append_text(alloc, &file, b"")) == 0
}

#[test]
fn a_text_past_the_limit_is_refused(rt: HostRuntime) {
    assert!(rt; refuses_a_byte_more(&rt, rt.alloc()));
}

// Whether an error prints so.
fn prints(alloc: Global, error: TreeError, text: &str) -> bool {
    match format!(in alloc; "{error}") {
        Ok(told) => told.as_str() == text,
        Err(_) => false,
    }
}

// Whether an error's refusal has this number.
fn is_numbered(error: TreeError, number: u8) -> bool {
    Refusal::from(error).number() == number
}

#[test]
fn errors_tell_the_refusal(rt: HostRuntime) {
    let error = TreeError::Fault(TreeFault::NotDir);
    all_hold(
        &rt,
        &[
            (prints(rt.alloc(), error, "not a directory"), "its text"),
            (is_numbered(error, 13), "its number"),
            (is_numbered(TreeError::OutOfMemory, 70), "memory"),
        ],
    );
}
