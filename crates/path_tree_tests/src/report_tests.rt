//! What a working copy reports.

use crate::lines::{path_of, told, tree_of};
use crate::trees::{AT_4, AT_9, MIXED_TO_9};
use path_tree::Tree;
use std::alloc::Global;
use std::process::Abort;
use tree_reports::{Depth, Report, ReportError};

// Reports that a path is as it is in a tree.
fn set(
    rt: &impl Abort,
    alloc: Global,
    report: &mut Report,
    path: &str,
    from: &Tree,
    source: &str,
    empty: bool,
) -> Result<(), ReportError> {
    let source = path_of(rt, alloc, source);
    report.set_path(alloc, &path_of(rt, alloc, path), from, &source, empty)
}

// A working copy whose parts are at two revisions.
fn mixed(rt: &impl Abort, alloc: Global, four: &Tree, nine: &Tree) -> Report {
    let mut report = Report::begin(nine.share().expect(rt, "memory"));
    set(rt, alloc, &mut report, "lib", four, "lib", false).expect(rt, "lib");
    report
        .delete_path(alloc, &path_of(rt, alloc, "README"))
        .expect(rt, "README");
    set(rt, alloc, &mut report, "a", four, "a", false).expect(rt, "a");
    report
}

fn mixed_holds(rt: &impl Abort, alloc: Global) -> bool {
    let four = tree_of(rt, alloc, AT_4);
    let nine = tree_of(rt, alloc, AT_9);
    let report = mixed(rt, alloc, &four, &nine);
    told(rt, alloc, report.tree(), &nine, Depth::Infinity).as_str() == MIXED_TO_9
}

// A file that begins empty is there, a folder has neither entries nor properties, and a link is another path's.
fn empty_holds(rt: &impl Abort, alloc: Global) -> bool {
    let nine = tree_of(rt, alloc, AT_9);
    let only = tree_of(
        rt,
        alloc,
        "-C lib\nHF lib/a.c\nA- README\n-- sub\nHF sub/a.c\n",
    );
    let mut report = Report::begin_empty(alloc).expect(rt, "memory");
    set(rt, alloc, &mut report, "README", &nine, "README", true).expect(rt, "README");
    set(rt, alloc, &mut report, "sub", &nine, "lib", false).expect(rt, "sub");
    set(rt, alloc, &mut report, "lib", &nine, "lib", true).expect(rt, "lib");
    told(rt, alloc, report.tree(), &only, Depth::Infinity).as_str()
        == "P lib\nA lib/a.c\nP sub\nD sub/b.c\n"
}

#[test]
fn a_report_is_what_the_working_copy_has(rt: HostRuntime) {
    assert!(rt; mixed_holds(&rt, rt.alloc()));
    assert!(rt; empty_holds(&rt, rt.alloc()));
}

// A folder with a folder in it, and a file beside it.
const SOURCE: &str = "-C lib\nHF lib/a.c\n-- lib/sub\nA- lib/sub/x\nB- file\n";

// A source, how deep it is looked at, and what the working copy then has.
const WITHIN: [(&str, Depth, &str); 6] = [
    ("lib", Depth::Empty, "-C d\n"),
    ("lib", Depth::Files, "-C d\nHF d/a.c\n"),
    ("lib", Depth::Immediates, "-C d\nHF d/a.c\n-- d/sub\n"),
    (
        "lib",
        Depth::Infinity,
        "-C d\nHF d/a.c\n-- d/sub\nA- d/sub/x\n",
    ),
    ("file", Depth::Empty, "B- d\n"),
    ("file", Depth::Infinity, "B- d\n"),
];

// Whether a path that is looked at so deep, where another folder was, is as it is wanted.
fn within_holds(rt: &impl Abort, alloc: Global, source: &str, depth: Depth, wanted: &str) -> bool {
    let from = tree_of(rt, alloc, SOURCE);
    let path = path_of(rt, alloc, "d");
    let mut report = Report::begin(tree_of(rt, alloc, "-- d\nA- d/old\n"));
    let source = path_of(rt, alloc, source);
    report
        .set_path_within(alloc, &path, &from, &source, depth)
        .expect(rt, "d");
    let wanted = tree_of(rt, alloc, wanted);
    told(rt, alloc, report.tree(), &wanted, Depth::Infinity).is_empty()
}

#[test]
fn a_path_is_reported_so_deep(rt: HostRuntime) {
    for (source, depth, wanted) in &WITHIN {
        assert!(rt; within_holds(&rt, rt.alloc(), *source, *depth, *wanted));
    }
}

// A folder that is left out is bare, and so is a file that is.
fn left_out_holds(rt: &impl Abort, alloc: Global) -> bool {
    let mut report = Report::begin(tree_of(rt, alloc, SOURCE));
    let wanted = tree_of(rt, alloc, "-- lib\n-- file\n");
    for path in &["lib", "file"] {
        let left = report.leave_out(alloc, &path_of(rt, alloc, *path));
        left.expect(rt, "a path");
    }
    told(rt, alloc, report.tree(), &wanted, Depth::Infinity).is_empty()
}

// The number of the answer to a path that is to be left out of a file and a folder.
fn leave(rt: &impl Abort, alloc: Global, path: &str) -> u8 {
    let mut report = Report::begin(tree_of(rt, alloc, SOURCE));
    number_of(report.leave_out(alloc, &path_of(rt, alloc, path)))
}

#[test]
fn a_path_is_left_out(rt: HostRuntime) {
    let alloc = rt.alloc();
    assert!(rt; left_out_holds(&rt, alloc));
    assert!(rt; leave(&rt, alloc, "") == 1);
    assert!(rt; leave(&rt, alloc, "file/x") == 2 && leave(&rt, alloc, "lib/none") == 0);
}

// Path, source, whether it begins empty, and the number of the answer, 0 where it is taken.
const REPORTS: [(&str, &str, bool, u8); 9] = [
    ("", "lib", false, 1),
    ("README/x", "lib", false, 2),
    ("none/x", "lib", false, 2),
    ("README", "none", false, 3),
    ("none", "lib/a.c", false, 0),
    ("none/x", "lib", false, 2),
    ("README", "lib", false, 0),
    ("README/x", "lib/a.c", true, 0),
    ("lib/a.c/x", "none", true, 2),
];

fn number_of(answer: Result<(), ReportError>) -> u8 {
    match answer {
        Ok(()) => 0,
        Err(ReportError::Root) => 1,
        Err(ReportError::NoFolder) => 2,
        Err(ReportError::NotThere) => 3,
        Err(ReportError::TooLong) => 4,
        Err(ReportError::OutOfMemory) => 5,
    }
}

fn all_answered(rt: &impl Abort, alloc: Global) -> bool {
    let nine = tree_of(rt, alloc, AT_9);
    let mut report = Report::begin(nine.share().expect(rt, "memory"));
    for (path, source, empty, wanted) in &REPORTS {
        let answer = set(rt, alloc, &mut report, *path, &nine, *source, *empty);
        if number_of(answer) != *wanted {
            return false;
        }
    }
    true
}

#[test]
fn each_report_is_taken_or_refused(rt: HostRuntime) {
    assert!(rt; all_answered(&rt, rt.alloc()));
}

// So many folders, one in the other, and the answer to a folder of one file in the last.
fn answer_below(rt: &impl Abort, alloc: Global, count: u8, empty: bool) -> u8 {
    let nine = tree_of(rt, alloc, AT_9);
    let mut report = Report::begin_empty(alloc).expect(rt, "memory");
    let mut path = String::from_str(alloc, "d").expect(rt, "memory");
    for _ in 0..count {
        let made = set(rt, alloc, &mut report, path.as_str(), &nine, "lib", true);
        made.expect(rt, "a folder");
        path.push_str("/d").expect(rt, "memory");
    }
    number_of(set(rt, alloc, &mut report, path.as_str(), &nine, "lib", empty))
}

#[test]
fn a_path_past_the_limits_is_refused(rt: HostRuntime) {
    assert!(rt; answer_below(&rt, rt.alloc(), 62, false) == 0);
    assert!(rt; answer_below(&rt, rt.alloc(), 63, false) == 4);
    assert!(rt; answer_below(&rt, rt.alloc(), 63, true) == 0);
}
