//! Copies of the root into itself, which double a tree each time: no answer walks what is shared.

use crate::calls::{add, again, copied, copy_root, deep, filed, fresh, gone};
use crate::checked::all_hold;
use path_tree::Tree;
use std::alloc::Global;
use std::process::Abort;

// A tree of a file of that name.
fn with_file(rt: &impl Abort, alloc: Global, file: &str) -> Tree {
    let mut tree = fresh::<Tree>(rt, alloc);
    assert!(rt; filed(rt, alloc, &mut tree, file, 1) == 0);
    tree
}

// A file `f`, and then the root copied into itself under the names c0, c1 and so on.
fn doubled(rt: &impl Abort, alloc: Global, count: u8) -> Tree {
    let mut tree = with_file(rt, alloc, "f");
    for number in 0u8..count {
        let name = format!(in alloc; "c{number}").expect(rt, "memory");
        assert!(rt; copy_root(rt, alloc, &mut tree, name.as_str(), 2) == 0);
    }
    tree
}

// After 40 copies a path has 41 names at most, so that a copy at 23 names has 64, and one at 24 has 65.
fn answer_at(rt: &impl Abort, alloc: Global, names: u8) -> u8 {
    let mut tree = doubled(rt, alloc, 40);
    let before = again(rt, &tree);
    let path = deep(rt, alloc, &mut tree, names);
    copied(rt, alloc, &mut tree, path.as_str(), &before, "", 3)
}

#[test]
fn forty_copies_are_copied_where_they_fit(rt: HostRuntime) {
    all_hold(
        &rt,
        &[
            (answer_at(&rt, rt.alloc(), 1) == 0, "at one name"),
            (answer_at(&rt, rt.alloc(), 23) == 0, "at 23 names"),
            (answer_at(&rt, rt.alloc(), 24) == 8, "at 24 names"),
        ],
    );
}

// After 63 copies a path has 64 names, and one more copy would make it 65. Without the last copy, or with a tree that
// was shared before it, there is room for one.
fn answer_after(rt: &impl Abort, alloc: Global, without: &str) -> u8 {
    let mut tree = doubled(rt, alloc, 63);
    let _absent = gone(rt, alloc, &mut tree, without, 3);
    copy_root(rt, alloc, &mut tree, "d", 3)
}

#[test]
fn a_removal_makes_room_where_nothing_else_is_as_deep(rt: HostRuntime) {
    all_hold(
        &rt,
        &[
            (answer_after(&rt, rt.alloc(), "none") == 8, "with all"),
            (answer_after(&rt, rt.alloc(), "c61") == 8, "without c61"),
            (answer_after(&rt, rt.alloc(), "c62") == 0, "without c62"),
        ],
    );
}

// Two copies of a tree in it.
fn twice(rt: &impl Abort, alloc: Global, tree: &mut Tree) -> bool {
    let before = again(rt, tree);
    copied(rt, alloc, tree, "x", &before, "", 3) == 0
        && copied(rt, alloc, tree, "y", &before, "", 3) == 0
}

// Of two that are as deep the other one stays.
fn other_stays(rt: &impl Abort, alloc: Global) -> bool {
    let mut tree = doubled(rt, alloc, 62);
    twice(rt, alloc, &mut tree)
        && gone(rt, alloc, &mut tree, "x", 3) == 0
        && copy_root(rt, alloc, &mut tree, "d", 3) == 8
}

#[test]
fn a_removal_makes_no_room_where_another_is_as_deep(rt: HostRuntime) {
    assert!(rt; other_stays(&rt, rt.alloc()));
}

// Whether the root is copied into itself under a name of so many bytes.
fn is_copied(rt: &impl Abort, alloc: Global, tree: &mut Tree, letter: &str, count: u8) -> bool {
    let mut name = String::new(alloc);
    for _ in 0u8..count {
        add(rt, &mut name, letter);
    }
    copy_root(rt, alloc, tree, name.as_str(), 2) == 0
}

// A file and copies under names of 253, 255, 255 and 255 bytes: with a file of two bytes the longest path has 1,024
// bytes, and with one of three it would have 1,025.
fn fits_long_names(rt: &impl Abort, alloc: Global, file: &str) -> bool {
    let mut tree = with_file(rt, alloc, file);
    let first = is_copied(rt, alloc, &mut tree, "a", 253);
    let second = is_copied(rt, alloc, &mut tree, "b", 255);
    let third = is_copied(rt, alloc, &mut tree, "c", 255);
    let fourth = is_copied(rt, alloc, &mut tree, "d", 255);
    first && second && third && fourth
}

#[test]
fn copies_count_bytes(rt: HostRuntime) {
    assert!(rt; fits_long_names(&rt, rt.alloc(), "ff"));
    assert!(rt; !fits_long_names(&rt, rt.alloc(), "fff"));
}
