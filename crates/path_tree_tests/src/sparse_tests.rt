//! What a sparse working copy has of a tree.

use crate::lines::{path_of, told, tree_of};
use path_tree::Tree;
use std::alloc::Global;
use std::process::Abort;
use tree_reports::{Depth, Limit, Part, limit_all, limit_one};

// A folder with a folder in it, and a file beside it.
const WHOLE: &str = "-A \n-B lib\nAC lib/a\n-- lib/sub\nB- lib/sub/x\nC- file\n";

// A line for a limit, and what the whole then is: a letter for the part, `-` where the path is left out, and the path.
const CUT: [(&str, &str); 14] = [
    ("e ", "-A \n"),
    ("f ", "-A \nC- file\n"),
    ("i ", "-A \n-B lib\nC- file\n"),
    ("a ", WHOLE),
    ("- ", ""),
    ("e lib", "-A \n-B lib\nC- file\n"),
    ("f lib", "-A \n-B lib\nAC lib/a\nC- file\n"),
    ("i lib", "-A \n-B lib\nAC lib/a\n-- lib/sub\nC- file\n"),
    ("a lib", WHOLE),
    ("- lib", "-A \n-- lib\nC- file\n"),
    // a file is as it is at each depth, and a bare folder stands where it is left out
    ("e file", WHOLE),
    (
        "- file",
        "-A \n-B lib\nAC lib/a\n-- lib/sub\nB- lib/sub/x\n-- file\n",
    ),
    // nothing is where nothing was, nor below a file
    ("- none", WHOLE),
    ("e file/x", WHOLE),
];

// A tree, the lines of limits, and what they make of the tree.
const LIMITED: [(&str, &str, &str); 7] = [
    (WHOLE, "", WHOLE),
    // a deeper part within a shallow one
    (
        WHOLE,
        "f \ne lib\na lib/sub\n",
        "-A \n-B lib\n-- lib/sub\nB- lib/sub/x\nC- file\n",
    ),
    // a part of what an earlier one takes away
    (WHOLE, "f \na lib/sub\n", "-A \nC- file\n"),
    // a later one counts
    (WHOLE, "a lib\ne \n", "-A \n"),
    (
        WHOLE,
        "- lib\nf lib\n- file\n",
        "-A \n-B lib\nAC lib/a\n-- file\n",
    ),
    // a path below none
    (
        WHOLE,
        "a none/x\n- lib/sub\n",
        "-A \n-B lib\nAC lib/a\n-- lib/sub\nC- file\n",
    ),
    // another tree gets what the whole has there, and loses what that doesn't have
    (
        "-- lib\nA- lib/old\nA- gone\nA- stays\n",
        "f lib\ne gone\n- none\n",
        "-B lib\nAC lib/a\nA- stays\n",
    ),
];

fn part_of(rt: &impl Abort, letter: u8) -> Part {
    match letter {
        b'e' => Part::Within(Depth::Empty),
        b'f' => Part::Within(Depth::Files),
        b'i' => Part::Within(Depth::Immediates),
        b'a' => Part::Within(Depth::Infinity),
        b'-' => Part::LeftOut,
        _ => rt.panic("no part"),
    }
}

// The limit of a line.
fn limit_of(rt: &impl Abort, alloc: Global, line: &str) -> Limit {
    let Some((letter, at)) = line.split_once(' ') else {
        rt.panic("no line of a limit")
    };
    let [letter] = letter.as_bytes() else {
        rt.panic("not one letter")
    };
    let part = part_of(rt, *letter);
    let path = path_of(rt, alloc, at);
    Limit { path, part }
}

fn is_tree_of(rt: &impl Abort, alloc: Global, tree: &Tree, lines: &str) -> bool {
    let wanted = tree_of(rt, alloc, lines);
    told(rt, alloc, tree, &wanted, Depth::Infinity).is_empty()
}

// Whether the whole with one limit is as it is wanted.
fn cut_holds(rt: &impl Abort, alloc: Global, limit: &str, wanted: &str) -> bool {
    let whole = tree_of(rt, alloc, WHOLE);
    let tree = whole.share().expect(rt, "memory");
    let limit = limit_of(rt, alloc, limit);
    let cut = limit_one(alloc, tree, &whole, &limit).expect(rt, "memory");
    is_tree_of(rt, alloc, &cut, wanted)
}

#[test]
fn a_limit_leaves_so_much(rt: HostRuntime) {
    for (limit, wanted) in &CUT {
        assert!(rt; cut_holds(&rt, rt.alloc(), *limit, *wanted));
    }
}

// Whether a tree with limits is as it is wanted.
fn limited_holds(rt: &impl Abort, alloc: Global, tree: &str, lines: &str, wanted: &str) -> bool {
    let whole = tree_of(rt, alloc, WHOLE);
    let tree = tree_of(rt, alloc, tree);
    let mut limits = Vec::new(alloc);
    for line in lines.lines() {
        limits.push(limit_of(rt, alloc, line)).expect(rt, "memory");
    }
    let limited = limit_all(alloc, tree, &whole, limits.as_slice()).expect(rt, "memory");
    is_tree_of(rt, alloc, &limited, wanted)
}

#[test]
fn limits_are_put_one_after_another(rt: HostRuntime) {
    for (tree, limits, wanted) in &LIMITED {
        assert!(rt; limited_holds(&rt, rt.alloc(), *tree, *limits, *wanted));
    }
}
