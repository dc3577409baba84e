//! Differences of trees, whole and to a depth, against what `svn` said.

use crate::lines::{path_of, told, told_opening, tree_of};
use crate::trees::{
    AT_4, AT_5, AT_9, CHECKED_OUT, FILES_OF_5, FROM_4_TO_5, FROM_5_TO_4, FROM_5_TO_9, FROM_9_TO_4,
    IMMEDIATES_OF_5,
};
use node_base::Node;
use std::alloc::Global;
use std::process::Abort;
use tree_reports::{Depth, limited};

// The lines of a tree, those of another, and those of what makes it of the first.
const PAIRS: [(&str, &str, &str); 12] = [
    (AT_4, AT_5, FROM_4_TO_5),
    (AT_5, AT_4, FROM_5_TO_4),
    (AT_5, AT_9, FROM_5_TO_9),
    (AT_9, AT_4, FROM_9_TO_4),
    (AT_9, AT_9, ""),
    ("", "", ""),
    // a folder that goes takes all with it, and the next path isn't below it
    ("-- a\n-- a/b\nA- a/b/c\nA- a-b\n", "A- a-b\n", "D a\n"),
    // a file in the place of a folder, and a folder in the place of a file
    (
        "-- a\nA- a/b\nA- c\n",
        "A- a\n-- c\nA- c/d\n",
        "R a\nR c\nA c/d\n",
    ),
    // within a folder that stays
    (
        "-- a\nA- a/b\nA- a/c\n",
        "-A a\nB- a/b\nAA a/d\n",
        "P a\nT a/b\nD a/c\nA a/d\n",
    ),
    // both parts, and neither
    ("AA a\nAA b\n", "BB a\nAA b\n", "B a\n"),
    // what is below a path comes before a path that goes on with a smaller byte than the slash
    ("", "-- a\nA- a/x\nA- a-b\n", "A a\nA a/x\nA a-b\n"),
    ("-A \n", "", "P \n"),
];

// The same where folders are told though nothing differs in them.
const OPENED: [(&str, &str, &str); 4] = [
    ("", "", "O \n"),
    (
        "-- a\nA- a/b\n-- c\nA- e\n",
        "-- a\nA- a/b\n-- c\n-- d\nA- e\n",
        "O \nO a\nO c\nA d\n",
    ),
    // a folder in which something differs is told once
    ("-- a\n-- a/b\n", "-A a\n-- a/b\n", "O \nP a\nO a/b\n"),
    // what is new or gone in a folder
    (
        "-- a\n-- a/b\nA- c\n",
        "-- a\n-- a/d\n-- c\n",
        "O \nO a\nD a/b\nA a/d\nR c\n",
    ),
];

fn pair_holds(
    rt: &impl Abort,
    alloc: Global,
    old: &str,
    new: &str,
    opens: bool,
    wanted: &str,
) -> bool {
    let old = tree_of(rt, alloc, old);
    let new = tree_of(rt, alloc, new);
    told_opening(rt, alloc, &old, &new, Depth::Infinity, opens).as_str() == wanted
}

#[test]
fn each_pair_has_these_differences(rt: HostRuntime) {
    for (old, new, wanted) in &PAIRS {
        assert!(rt; pair_holds(&rt, rt.alloc(), *old, *new, false, *wanted));
    }
    for (old, new, wanted) in &OPENED {
        assert!(rt; pair_holds(&rt, rt.alloc(), *old, *new, true, *wanted));
    }
}

// What is told of an empty folder and a tree, to a depth.
fn checked_out(rt: &impl Abort, alloc: Global, lines: &str, depth: Depth) -> String {
    let empty = tree_of(rt, alloc, "");
    told(rt, alloc, &empty, &tree_of(rt, alloc, lines), depth)
}

#[test]
fn a_checkout_goes_so_deep(rt: HostRuntime) {
    let alloc = rt.alloc();
    assert!(rt; checked_out(&rt, alloc, AT_5, Depth::Empty).as_str() == "P \n");
    assert!(rt; checked_out(&rt, alloc, AT_5, Depth::Files).as_str() == FILES_OF_5);
    assert!(rt; checked_out(&rt, alloc, AT_5, Depth::Immediates).as_str() == IMMEDIATES_OF_5);
}

// Whether each line of what was told has the path of the line of the tree.
fn follows(told: &str, lines: &str) -> bool {
    let mut wanted = lines.lines();
    for line in told.lines() {
        let Some((_, at)) = line.split_once(' ') else {
            return false;
        };
        match wanted.next() {
            Some(line) => {
                if !line.ends_with(at) {
                    return false;
                }
            }
            None => return false,
        }
    }
    wanted.next().is_none()
}

#[test]
fn a_checkout_tells_all_in_the_recorded_order(rt: HostRuntime) {
    let told = checked_out(&rt, rt.alloc(), CHECKED_OUT, Depth::Infinity);
    assert!(rt; follows(told.as_str(), CHECKED_OUT));
}

// What is told of an empty folder and a folder of the recorded repository, looked at so deep, as a tree of its own.
fn folder_told(rt: &impl Abort, alloc: Global, folder: &str, depth: Depth) -> String {
    let empty = tree_of(rt, alloc, "");
    let all = tree_of(rt, alloc, CHECKED_OUT);
    let path = path_of(rt, alloc, folder);
    all.is_tree();
    match all.get(path.names()) {
        Some(Node { text: None, .. }) => {
            let own = limited(alloc, &all, &path, depth).expect(rt, "memory");
            told(rt, alloc, &empty, &own, Depth::Infinity)
        }
        _ => rt.panic("no folder"),
    }
}

#[test]
fn a_folder_is_a_tree_of_its_own(rt: HostRuntime) {
    let alloc = rt.alloc();
    assert!(rt;
        folder_told(&rt, alloc, "branches/b1/lib", Depth::Infinity).as_str()
            == "A a.c\nA b.c\nA c.c\nA sub\nA sub/deep.txt\n"
    );
    let whole = folder_told(&rt, alloc, "", Depth::Infinity);
    assert!(rt; follows(whole.as_str(), CHECKED_OUT));
}

// What is looked at of a folder of the recorded repository.
const LOOKED_AT: [(Depth, &str); 3] = [
    (Depth::Empty, ""),
    (Depth::Files, "A a.c\nA b.c\nA c.c\n"),
    (Depth::Immediates, "A a.c\nA b.c\nA c.c\nA sub\n"),
];

#[test]
fn a_folder_is_looked_at_so_deep(rt: HostRuntime) {
    for (depth, wanted) in &LOOKED_AT {
        let told = folder_told(&rt, rt.alloc(), "branches/b1/lib", *depth);
        assert!(rt; told.as_str() == *wanted);
    }
}
