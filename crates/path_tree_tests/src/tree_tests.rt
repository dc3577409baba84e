//! Both bodies on the same calls, and the refusals in their order.

use crate::calls::{Calls, again, answers, copied, copy_root, deep, fresh, lines};
use crate::checked::all_hold;
use path_tree::Tree;
use std::alloc::Global;
use std::process::Abort;

// Copies the root into itself ten times, each of the next number.
fn double<T: Calls>(rt: &impl Abort, alloc: Global, tree: &mut T) -> bool {
    for number in 2u16..12 {
        let at = format!(in alloc; "c{number}").expect(rt, "memory");
        if copy_root(rt, alloc, tree, at.as_str(), number) != 0 {
            return false;
        }
    }
    true
}

// Revision 1 adds a file, and each later one a copy of the root before it.
fn doubled<T: Calls>(rt: &impl Abort, alloc: Global) -> String {
    let mut tree = fresh::<T>(rt, alloc);
    let made = answers(rt, alloc, &mut tree, "file /f 0", 1) && double(rt, alloc, &mut tree);
    assert!(rt; made);
    lines(rt, alloc, &tree)
}

fn is_same(one: &String, other: &String) -> bool {
    one.as_str() == other.as_str()
}

// Whether so many lines begin so.
fn has(lines: &String, front: &str, count: usize) -> bool {
    lines
        .as_str()
        .lines()
        .filter(|line| line.starts_with(front))
        .count()
        == count
}

#[test]
fn both_bodies_list_the_same(rt: HostRuntime) {
    let listed = doubled::<Tree>(&rt, rt.alloc());
    assert!(rt; is_same(&listed, &doubled::<plain_tree::Tree>(&rt, rt.alloc())));
}

#[test]
fn a_copy_keeps_the_numbers_below_its_top(rt: HostRuntime) {
    let listed = doubled::<Tree>(&rt, rt.alloc());
    all_hold(
        &rt,
        &[
            (has(&listed, "", 2048), "all nodes"),
            (has(&listed, "F 1 ", 1024), "files of revision 1"),
            (has(&listed, "F", 1024), "files"),
        ],
    );
}

// A file, and a directory in a directory.
fn small<T: Calls>(rt: &impl Abort, alloc: Global) -> T {
    let mut tree = fresh::<T>(rt, alloc);
    let made = answers(rt, alloc, &mut tree, "file /f 0\ndir /d 0\ndir /d/e 0", 1);
    assert!(rt; made);
    tree
}

// Whether the small tree refuses these calls by these numbers and lists what it listed before.
fn refuses<T: Calls>(rt: &impl Abort, alloc: Global, calls: &str) -> bool {
    let mut tree = small::<T>(rt, alloc);
    let before = lines(rt, alloc, &tree);
    answers(rt, alloc, &mut tree, calls, 2) && is_same(&lines(rt, alloc, &tree), &before)
}

// The root, a front that is absent, a front that is a file, the first of both, and a path that is there.
const ADDS: &str = "dir / 10\nfile /x/y 11\ndir /f/y/z 13\ndir /x/f/z 11\nfile /d/e 12";

// Properties and a text of what is absent, a text of a directory, the root removed, and what is absent removed.
const CHANGES: &str = "props /x 11\ntext /f/x 13\ntext /d 17\ngone / 10\ngone /d/x 11";

// A path that is there comes before a source that is absent.
const COPIES: &str = "copy /d/e 12 /x\ncopy /y 14 /x";

#[test]
fn refusals_come_in_their_order(rt: HostRuntime) {
    all_hold(
        &rt,
        &[
            (refuses::<Tree>(&rt, rt.alloc(), ADDS), ADDS),
            (refuses::<Tree>(&rt, rt.alloc(), CHANGES), CHANGES),
            (refuses::<Tree>(&rt, rt.alloc(), COPIES), COPIES),
        ],
    );
}

#[test]
fn plain_refusals_come_in_their_order(rt: HostRuntime) {
    all_hold(
        &rt,
        &[
            (refuses::<plain_tree::Tree>(&rt, rt.alloc(), ADDS), ADDS),
            (
                refuses::<plain_tree::Tree>(&rt, rt.alloc(), CHANGES),
                CHANGES,
            ),
            (refuses::<plain_tree::Tree>(&rt, rt.alloc(), COPIES), COPIES),
        ],
    );
}

// Whether of copies to a path of 64 names that of what has something below it is refused, and that of what has nothing
// isn't.
fn refuses_deep_copies<T: Calls>(rt: &impl Abort, alloc: Global) -> bool {
    let mut tree = small::<T>(rt, alloc);
    let from = again(rt, &tree);
    let deep = deep(rt, alloc, &mut tree, 64);
    copied(rt, alloc, &mut tree, deep.as_str(), &from, "d", 3) == 8
        && copied(rt, alloc, &mut tree, deep.as_str(), &from, "f", 3) == 0
}

#[test]
fn copy_past_the_limits_is_refused(rt: HostRuntime) {
    assert!(rt; refuses_deep_copies::<Tree>(&rt, rt.alloc()));
    assert!(rt; refuses_deep_copies::<plain_tree::Tree>(&rt, rt.alloc()));
}

// A directory with a file.
fn source<T: Calls>(rt: &impl Abort, alloc: Global) -> T {
    let mut tree = fresh::<T>(rt, alloc);
    let made = answers(rt, alloc, &mut tree, "dir /a 0", 1)
        && answers(rt, alloc, &mut tree, "file /a/f 0", 2);
    assert!(rt; made);
    tree
}

// A copy of the directory into itself, a change in the copy, and a removal from the source.
fn is_changed<T: Calls>(rt: &impl Abort, alloc: Global, tree: &mut T) -> bool {
    answers(rt, alloc, tree, "copy /a/b 0 /a", 3)
        && answers(rt, alloc, tree, "text /a/b/f 0", 4)
        && answers(rt, alloc, tree, "gone /a/f 0", 5)
}

const BEFORE: &str = "D 2\nD 2 a\nF 2 a f\n";

const AFTER: &str = "D 5\nD 5 a\nD 4 a b\nF 4 a b f\n";

// Whether a tree lists these lines.
fn lists<T: Calls>(rt: &impl Abort, alloc: Global, tree: &T, wanted: &str) -> bool {
    lines(rt, alloc, tree).as_str() == wanted
}

// Whether a tree lists what it is to list before these, and after them.
fn is_listed<T: Calls>(rt: &impl Abort, alloc: Global) -> bool {
    let mut tree = source::<T>(rt, alloc);
    let shared = again(rt, &tree);
    is_changed(rt, alloc, &mut tree)
        && lists(rt, alloc, &shared, BEFORE)
        && lists(rt, alloc, &tree, AFTER)
}

#[test]
fn copy_into_itself_keeps_the_source(rt: HostRuntime) {
    assert!(rt; is_listed::<Tree>(&rt, rt.alloc()));
    assert!(rt; is_listed::<plain_tree::Tree>(&rt, rt.alloc()));
}

// What one owner of a tree does to it, what another does to its share, and what the first does then.
const OURS: &str = "file /d/b 0\ntext /d/e/f 0\nfile /d/e/g 0\ngone /f 0";

const THEIRS: &str = "text /d/e/f 0\ndir /d/a 0\nfile /d/a/f 0\ntext /f 0";

const OURS_AGAIN: &str = "text /d/e/f 0\ndir /d/a 0\ntext /d/b 0";

// Whether both owners do that.
fn part<T: Calls>(rt: &impl Abort, alloc: Global, ours: &mut T, theirs: &mut T) -> bool {
    answers(rt, alloc, ours, OURS, 3)
        && answers(rt, alloc, theirs, THEIRS, 4)
        && answers(rt, alloc, ours, OURS_AGAIN, 5)
}

// What is listed of both trees behind these calls.
fn parted<T: Calls>(rt: &impl Abort, alloc: Global) -> (String, String) {
    let mut ours = small::<T>(rt, alloc);
    assert!(rt; answers(rt, alloc, &mut ours, "file /d/e/f 0", 2));
    let mut theirs = again(rt, &ours);
    assert!(rt; part(rt, alloc, &mut ours, &mut theirs));
    (lines(rt, alloc, &ours), lines(rt, alloc, &theirs))
}

#[test]
fn a_change_of_one_owners_tree_leaves_the_others(rt: HostRuntime) {
    let (ours, theirs) = parted::<Tree>(&rt, rt.alloc());
    let (plain_ours, plain_theirs) = parted::<plain_tree::Tree>(&rt, rt.alloc());
    let has_both = has(&ours, "F 5 d e f", 1) && has(&theirs, "F 4 d e f", 1);
    all_hold(
        &rt,
        &[
            (is_same(&ours, &plain_ours), "ours"),
            (is_same(&theirs, &plain_theirs), "theirs"),
            (has_both, "the file of each"),
        ],
    );
}
