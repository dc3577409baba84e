//! What stands right below a path, of both bodies.

use crate::calls::{Calls, again, answers, child_lines, copy_root, filed, fresh, made};
use path_tree::Tree;
use std::alloc::Global;
use std::process::Abort;

// Folders with no child, with one, with children that have their own, and with names of which one is the front of
// another or comes before a slash.
const PUT: &str = "dir /none 0\ndir /one 0\nfile /one/f 0\ndir /a 0\nfile /a-b 0\nfile /a/x 0\n\
    dir /a.b 0\nfile /a.b/y 0\nfile /a0 0\nfile /ab 0\ndir /a/b 0\nfile /a/b/x 0\ndir /a/b/c 0\n\
    file /a/b/c/x 0\nfile /a/b-c 0\nfile /a/bb 0\nfile /a/a 0\nfile /é 0\nfile /Z 0";

// A path, and behind it a line for each child in the order of the bytes of their names.
const ROWS: [(&str, &str); 16] = [
    (
        "/",
        "F 1 Z\nD 1 a\nF 1 a-b\nD 1 a.b\nF 1 a0\nF 1 ab\nD 1 none\nD 1 one\nF 1 é\n",
    ),
    ("/none", ""),
    ("/one", "F 1 f\n"),
    ("/one/f", ""),
    ("/a", "F 1 a\nD 1 b\nF 1 b-c\nF 1 bb\nF 1 x\n"),
    ("/a/b", "D 1 c\nF 1 x\n"),
    ("/a/b/c", "F 1 x\n"),
    ("/a/b/c/x", ""),
    ("/a/b-c", ""),
    ("/a-b", ""),
    ("/a.b", "F 1 y\n"),
    ("/a0", ""),
    ("/b", ""),
    ("/one/f/g", ""),
    ("/none/f", ""),
    ("/a/b/x/c", ""),
];

// Whether the children of each of these paths are those behind it.
fn rows_hold<T: Calls>(rt: &impl Abort, alloc: Global) -> bool {
    let mut tree = fresh::<T>(rt, alloc);
    assert!(rt; answers(rt, alloc, &mut tree, PUT, 1));
    for (at, wanted) in &ROWS {
        if child_lines(rt, alloc, &tree, *at).as_str() != *wanted {
            return false;
        }
    }
    true
}

#[test]
fn the_children_of_each_path_are_these(rt: HostRuntime) {
    assert!(rt; rows_hold::<Tree>(&rt, rt.alloc()));
    assert!(rt; rows_hold::<plain_tree::Tree>(&rt, rt.alloc()));
}

// The lines of so many files from 1000 on.
fn numbered(rt: &impl Abort, alloc: Global, count: u16) -> String {
    let mut lines = String::new(alloc);
    for number in 1000..count % 1000 + 1000 {
        let line = format!(in alloc; "F 1 n{number}\n").expect(rt, "memory");
        lines.push_str(line.as_str()).expect(rt, "memory");
    }
    lines
}

// Whether a folder of so many files tells them all in order. They come each so many places behind the one before,
// around the end.
fn tells_all(rt: &impl Abort, alloc: Global, count: u16, step: u16) -> bool {
    let mut tree = fresh::<Tree>(rt, alloc);
    assert!(rt; made(rt, alloc, &mut tree, "d", 1) == 0);
    let count = count % 1000;
    for turn in 0..count {
        let number = turn % 1000 * (step % 50) % count + 1000;
        let at = format!(in alloc; "d/n{number}").expect(rt, "memory");
        assert!(rt; filed(rt, alloc, &mut tree, at.as_str(), 1) == 0);
    }
    let told = child_lines(rt, alloc, &tree, "d");
    told.as_str() == numbered(rt, alloc, count).as_str()
}

#[test]
fn many_children_come_in_order(rt: HostRuntime) {
    assert!(rt; tells_all(&rt, rt.alloc(), 200, 1));
    assert!(rt; tells_all(&rt, rt.alloc(), 255, 7));
    assert!(rt; tells_all(&rt, rt.alloc(), 256, 49));
}

// A file, and the root copied into itself so often: the nodes double each time.
fn doubled(rt: &impl Abort, alloc: Global, count: u8) -> Tree {
    let mut tree = fresh::<Tree>(rt, alloc);
    assert!(rt; filed(rt, alloc, &mut tree, "f", 1) == 0);
    for number in 0u8..count {
        let name = format!(in alloc; "c{number}").expect(rt, "memory");
        assert!(rt; copy_root(rt, alloc, &mut tree, name.as_str(), 2) == 0);
    }
    tree
}

// Of more nodes than could be gone through, the children alone are.
fn tells_few(rt: &impl Abort, alloc: Global) -> bool {
    let tree = again(rt, &doubled(rt, alloc, 40));
    child_lines(rt, alloc, &tree, "").as_str().lines().count() == 41
        && child_lines(rt, alloc, &tree, "c39")
            .as_str()
            .lines()
            .count()
            == 40
        && child_lines(rt, alloc, &tree, "c39/c1").as_str() == "D 2 c0\nF 1 f\n"
        && child_lines(rt, alloc, &tree, "c39/c40").is_empty()
}

#[test]
fn what_stands_below_the_children_is_not_gone_through(rt: HostRuntime) {
    assert!(rt; tells_few(&rt, rt.alloc()));
}
