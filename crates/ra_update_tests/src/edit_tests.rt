//! Edits of an update, beside those of Subversion's `svnserve` of version 1.14.2.

use crate::edits::{BACK, FILES, FORWARD, FRESH, ONE_FORWARD, ONE_PROPERTY, SAME, SWITCH};
use node_base::{NodePath, PropName, PropValue, Props, RevNo, Text};
use path_tree::Tree;
use ra_update::{Facts, send_update};
use std::alloc::Global;
use std::process::Abort;
use std::rt::HostRuntime;
use tree_reports::subtree;

// What revisions did, path by path: the revision, a letter for what it did, the path, a text, and a property's name and
// value. A directory comes by `d`, a file by `f`, properties by `p`, a text by `t`; what `r` names goes.
const DONE: [(u16, u8, &[u8], &[u8], &[u8], &[u8]); 13] = [
    (1, b'd', b"tags", b"", b"", b""),
    (1, b'd', b"trunk", b"", b"", b""),
    (1, b'f', b"trunk/README", b"hello\n", b"", b""),
    (1, b'd', b"trunk/lib", b"", b"", b""),
    (
        1,
        b'f',
        b"trunk/lib/a.c",
        b"int a;\n",
        b"svn:eol-style",
        b"native",
    ),
    (2, b'p', b"trunk", b"", b"custom:dir", b"deep"),
    (2, b't', b"trunk/README", b"hello again\n", b"", b""),
    (2, b'r', b"trunk/lib/a.c", b"", b"", b""),
    (3, b'p', b"trunk", b"", b"", b""),
    (3, b'r', b"trunk/lib", b"", b"", b""),
    (3, b'f', b"trunk/lib", b"now a file\n", b"", b""),
    (3, b'd', b"trunk/new", b"", b"custom:new", b"yes"),
    (3, b'f', b"trunk/new/f", b"", b"", b""),
];

// Who made the revisions, and when.
const MADE: [(&[u8], &[u8]); 4] = [
    (b"", b"2020-01-01T00:00:00.000000Z"),
    (b"alice", b"2020-01-01T00:16:40.007919Z"),
    (b"bob", b"2020-01-01T00:33:20.015838Z"),
    (b"carol", b"2020-01-01T00:50:00.023757Z"),
];

// Gives a property, where it has a name.
fn set_prop(rt: &impl Abort, alloc: Global, props: &mut Props, name: &[u8], value: &[u8]) {
    if name.is_empty() {
        return;
    }
    let name = PropName::parse(alloc, name).expect(rt, "a name");
    let value = Vec::from_slice(alloc, value).expect(rt, "memory");
    let value = PropValue::new(value).expect(rt, "a value");
    props.set(alloc, name, value).expect(rt, "a property");
}

fn text_of(rt: &impl Abort, alloc: Global, bytes: &[u8]) -> Text {
    let bytes = Vec::from_slice(alloc, bytes).expect(rt, "memory");
    Text::new(alloc, bytes).expect(rt, "a text")
}

// Does to a tree what a revision did.
fn done(
    rt: &impl Abort,
    alloc: Global,
    tree: &mut Tree,
    row: &(u16, u8, &[u8], &[u8], &[u8], &[u8]),
) {
    let number = RevNo::new(row.0);
    let path = NodePath::parse(alloc, row.2).expect(rt, "a path");
    let text = text_of(rt, alloc, row.3);
    let mut props = Props::empty();
    set_prop(rt, alloc, &mut props, row.4, row.5);
    let answer = match row.1 {
        b'd' => tree.put_dir(alloc, &path, props, number),
        b'f' => tree.put_file(alloc, &path, text, props, number),
        b'p' => tree.set_props(alloc, &path, props, number),
        b't' => tree.set_text(alloc, &path, text, number),
        _ => tree.remove(alloc, &path, number),
    };
    answer.expect(rt, "a change")
}

// The tree of a revision.
fn tree_at(rt: &impl Abort, alloc: Global, number: u16) -> Tree {
    let mut tree = Tree::empty(alloc).expect(rt, "memory");
    for row in &DONE {
        if row.0 <= number {
            done(rt, alloc, &mut tree, row);
        }
    }
    tree
}

// The properties of the revisions.
fn revisions(rt: &impl Abort, alloc: Global) -> Vec<Props> {
    let mut all = Vec::new(alloc);
    for made in &MADE {
        let mut props = Props::empty();
        if made.0.len() > 0 {
            set_prop(rt, alloc, &mut props, b"svn:author", made.0);
        }
        set_prop(rt, alloc, &mut props, b"svn:date", made.1);
        all.push(props).expect(rt, "memory");
    }
    all
}

// Whether an update of what a revision has, or of an empty folder at 0, is this edit.
fn is_edit(rt: &impl Abort, alloc: Global, from: u16, base: u16, to: u16, expected: &[u8]) -> bool {
    let reported = tree_at(rt, alloc, from);
    let target = tree_at(rt, alloc, to);
    let revisions = revisions(rt, alloc);
    let facts = Facts {
        target: &target,
        number: RevNo::new(to),
        base: Some(RevNo::new(base)),
        identity: b"6a1f0c3e-0000-4000-8000-0000000000a1",
        revisions: revisions.as_slice(),
        tells_root: true,
        opens: false,
    };
    let out = send_update(alloc, &reported, &facts, Vec::new(alloc)).expect(rt, "memory");
    out.as_slice() == expected
}

// A folder of a revision's tree as a tree of its own.
fn folder_at(rt: &impl Abort, alloc: Global, number: u16, folder: &[u8]) -> Tree {
    let tree = tree_at(rt, alloc, number);
    let folder = NodePath::parse(alloc, folder).expect(rt, "a path");
    match tree.get(folder.names()) {
        Some(node) => {
            if node.text.is_some() {
                rt.abort();
            }
        }
        None => rt.abort(),
    }
    subtree(alloc, &tree, &folder).expect(rt, "memory")
}

// Whether what makes a tree of another, of which one path isn't wanted, is this edit to revision 3.
fn is_edit_to(
    rt: &impl Abort,
    alloc: Global,
    reported: &Tree,
    base: u16,
    target: &Tree,
    unwanted: &[u8],
    expected: &[u8],
) -> bool {
    let mut wanted = target.share().expect(rt, "memory");
    if unwanted.len() > 0 {
        let path = NodePath::parse(alloc, unwanted).expect(rt, "a path");
        wanted
            .remove(alloc, &path, RevNo::new(3))
            .expect(rt, "a path");
    }
    let revisions = revisions(rt, alloc);
    let facts = Facts {
        target: &wanted,
        number: RevNo::new(3),
        base: Some(RevNo::new(base)),
        identity: b"6a1f0c3e-0000-4000-8000-0000000000a1",
        revisions: revisions.as_slice(),
        tells_root: true,
        opens: false,
    };
    let out = send_update(alloc, reported, &facts, Vec::new(alloc)).expect(rt, "memory");
    out.as_slice() == expected
}

#[test]
fn a_fresh_checkout_adds_all(rt: HostRuntime) {
    assert!(rt; is_edit(&rt, rt.alloc(), 0, 3, 3, FRESH));
    assert!(rt; is_edit(&rt, rt.alloc(), 3, 3, 3, SAME));
}

#[test]
fn an_update_goes_forward_and_back(rt: HostRuntime) {
    assert!(rt; is_edit(&rt, rt.alloc(), 1, 1, 3, FORWARD));
    assert!(rt; is_edit(&rt, rt.alloc(), 3, 3, 1, BACK));
    assert!(rt; is_edit(&rt, rt.alloc(), 1, 1, 2, ONE_FORWARD));
}

#[test]
fn a_switch_and_a_checkout_of_files(rt: HostRuntime) {
    let alloc = rt.alloc();
    let trunk = folder_at(&rt, alloc, 3, b"trunk");
    let tags = folder_at(&rt, alloc, 1, b"tags");
    assert!(rt; is_edit_to(&rt, alloc, &tags, 1, &trunk, b"", SWITCH));
    let empty = Tree::empty(alloc).expect(&rt, "memory");
    assert!(rt; is_edit_to(&rt, alloc, &empty, 3, &trunk, b"new", FILES));
}

// What svnserve sends of a target that is as it was reported.
const UNTOLD: &[u8] =
    b"( target-rev ( 3 ) ) ( open-root ( ( 3 ) 2:t0 ) ) ( close-dir ( 2:t0 ) ) ( close-edit ( ) ) ";

#[test]
fn nothing_is_told_of_the_root_of_a_target(rt: HostRuntime) {
    let alloc = rt.alloc();
    let tree = tree_at(&rt, alloc, 3);
    let revisions = revisions(&rt, alloc);
    let facts = Facts {
        target: &tree,
        number: RevNo::new(3),
        base: Some(RevNo::new(3)),
        identity: b"6a1f0c3e-0000-4000-8000-0000000000a1",
        revisions: revisions.as_slice(),
        tells_root: false,
        opens: false,
    };
    let out = send_update(alloc, &tree, &facts, Vec::new(alloc)).expect(&rt, "memory");
    assert!(rt; out.as_slice() == UNTOLD);
}

// Two properties, the second of which differs in the two trees, and one more in the older tree.
fn props_of(rt: &impl Abort, alloc: Global, is_newer: bool) -> Props {
    let mut props = Props::empty();
    set_prop(rt, alloc, &mut props, b"first", b"same");
    if is_newer {
        set_prop(rt, alloc, &mut props, b"second", b"new");
    } else {
        set_prop(rt, alloc, &mut props, b"second", b"old");
        set_prop(rt, alloc, &mut props, b"gone", b"once");
    }
    props
}

// A folder, a file, and what is a folder in the older tree and a file in the newer one, all with the same properties.
fn propertied(rt: &impl Abort, alloc: Global, is_newer: bool) -> Tree {
    let mut tree = Tree::empty(alloc).expect(rt, "memory");
    let number = RevNo::new(if is_newer { 2 } else { 1 });
    let dir = NodePath::parse(alloc, b"dir").expect(rt, "a path");
    let file = NodePath::parse(alloc, b"file").expect(rt, "a path");
    let other = NodePath::parse(alloc, b"other").expect(rt, "a path");
    let text = text_of(rt, alloc, b"as before\n");
    tree.put_dir(alloc, &dir, props_of(rt, alloc, is_newer), number)
        .expect(rt, "a change");
    tree.put_file(alloc, &file, text, props_of(rt, alloc, is_newer), number)
        .expect(rt, "a change");
    let props = props_of(rt, alloc, is_newer);
    let answer = if is_newer {
        tree.put_file(alloc, &other, text_of(rt, alloc, b""), props, number)
    } else {
        tree.put_dir(alloc, &other, props, number)
    };
    answer.expect(rt, "a change");
    tree
}

// What stays is told what differs alone, and what comes in the place of another is told all.
#[test]
fn a_property_that_does_not_differ_is_not_told(rt: HostRuntime) {
    let alloc = rt.alloc();
    let reported = propertied(&rt, alloc, false);
    let target = propertied(&rt, alloc, true);
    let revisions = revisions(&rt, alloc);
    let facts = Facts {
        target: &target,
        number: RevNo::new(2),
        base: Some(RevNo::new(1)),
        identity: b"6a1f0c3e-0000-4000-8000-0000000000a1",
        revisions: revisions.as_slice(),
        tells_root: false,
        opens: false,
    };
    let out = send_update(alloc, &reported, &facts, Vec::new(alloc)).expect(&rt, "memory");
    assert!(rt; out.as_slice() == ONE_PROPERTY);
}
