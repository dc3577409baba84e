//! The corners of sets, faults and effects, over revision 1 with a directory t and the files t/x and t/y.

use crate::spelled::{answer, is_as_told, none_is_wrong, records, second};
use std::alloc::Global;
use std::process::Abort;

// The first records of a table that are answered with another number.
fn first_wrong<'a>(rt: &impl Abort, alloc: Global, table: &'a [(&'a str, u8)]) -> Option<&'a str> {
    for (lines, number) in table {
        if answer(rt, alloc, records(rt, alloc, *lines)) != *number {
            return Some(*lines);
        }
    }
    None
}

const COMBINED: [(&str, u8); 13] = [
    ("delete t\nadd t dir", 0),
    ("delete t file\nadd t dir", 0),
    ("delete t\nadd t dir\nadd t dir", 15),
    ("add t dir\ndelete t", 15),
    ("delete t\nreplace t dir", 15),
    ("delete t\ndelete t", 15),
    ("replace t dir\nadd t dir", 15),
    ("change t\nchange t", 15),
    ("change t/x\ndelete t", 15),
    ("delete t\nadd t/n/m file", 15),
    ("delete t\nadd t/x file\nadd t dir", 0),
    ("add t/x file\nreplace t dir", 0),
    ("delete /\nchange t/x", 15),
];

#[test]
fn what_combines(rt: HostRuntime) {
    none_is_wrong(&rt, first_wrong(&rt, rt.alloc(), &COMBINED));
}

const FAULTS: [(&str, u8); 13] = [
    ("add q\nchange t\nchange t", 15),
    ("change a-b\nchange t\nchange t", 15),
    ("change a-b\nadd q", 2),
    ("replace t", 2),
    ("add /", 2),
    ("add / dir", 10),
    ("change a-b\nadd a file\nadd a/x file", 13),
    ("change a-b\nadd b dir no 1", 11),
    ("add a dir t 2\nchange a-b", 14),
    ("add t dir no 1", 12),
    ("replace n dir no 1", 11),
    ("add t/x/y dir no 1", 13),
    ("add b file no 1", 14),
];

#[test]
fn which_fault_is_first(rt: HostRuntime) {
    none_is_wrong(&rt, first_wrong(&rt, rt.alloc(), &FAULTS));
}

const PLACES: [(&str, u8); 13] = [
    ("change / dir", 0),
    ("change / file", 17),
    ("delete /", 10),
    ("replace / dir t 1", 10),
    ("change n", 11),
    ("delete n", 11),
    ("add n/m/o dir", 11),
    ("add t/x/y/z dir", 13),
    ("delete t file", 17),
    ("change t file", 17),
    ("add t dir", 12),
    ("add n dir\nadd n/m file", 0),
    ("replace t file\nchange t/x", 13),
];

#[test]
fn what_is_there(rt: HostRuntime) {
    none_is_wrong(&rt, first_wrong(&rt, rt.alloc(), &PLACES));
}

const SOURCES: [(&str, u8); 12] = [
    ("add b - t 1", 0),
    ("add b - t 1\nchange b/x file", 0),
    ("add b - t 1\nchange b/n", 11),
    ("add b - t 1\nadd b/x file", 12),
    ("add b - t 1\nchange b/x dir", 17),
    ("add b - t 0", 14),
    ("add b - t 2", 14),
    ("add b - t 65535", 14),
    ("add b - t/x/y 1", 14),
    ("add b file t 1", 17),
    ("add b dir t/x 1", 17),
    ("replace t/x - t 1", 0),
];

#[test]
fn what_a_source_is(rt: HostRuntime) {
    none_is_wrong(&rt, first_wrong(&rt, rt.alloc(), &SOURCES));
}

// Whether the tree that records make is as the lines tell.
fn makes(rt: &impl Abort, alloc: Global, lines: &str, expected: &str) -> bool {
    match second(rt, alloc, records(rt, alloc, lines)) {
        Ok(tree) => is_as_told(rt, alloc, &tree, expected),
        Err(_) => false,
    }
}

// The first records of a table that make another tree.
fn first_other<'a>(
    rt: &impl Abort,
    alloc: Global,
    table: &'a [(&'a str, &'a str)],
) -> Option<&'a str> {
    for (lines, expected) in table {
        if !makes(rt, alloc, *lines, *expected) {
            return Some(*lines);
        }
    }
    None
}

const COPIES: [(&str, &str); 3] = [
    (
        "add b - t 1\ndelete b/x",
        "dir2 b\nfile1 b/y\nnone b/x\ndir1 t\ndir2 /",
    ),
    (
        "add b/x/deep file\nreplace b/x dir\nadd b - t 1",
        "dir2 b/x\nfile2 b/x/deep\nfile1 b/y\nfile1 t/x",
    ),
    (
        "add t/in dir t 1",
        "dir2 t\ndir2 t/in\nfile1 t/in/x\nnone t/in/in",
    ),
];

#[test]
fn what_copies_make(rt: HostRuntime) {
    none_is_wrong(&rt, first_other(&rt, rt.alloc(), &COPIES));
}

const COPIES_OF_COPIES: [(&str, &str); 3] = [
    (
        "add b - / 1",
        "dir2 b\ndir1 b/t\nfile1 b/t/x\nnone b/b\ndir1 t",
    ),
    (
        "replace t - t 1\nchange t/x",
        "dir2 t\nfile2 t/x\nfile1 t/y",
    ),
    (
        "delete t\nadd t dir\nadd t/old - t 1\ndelete t/old/x\nadd t/old/x dir",
        "none t/x\ndir2 t/old\ndir2 t/old/x\nfile1 t/old/y",
    ),
];

#[test]
fn what_copies_of_copies_make(rt: HostRuntime) {
    none_is_wrong(&rt, first_other(&rt, rt.alloc(), &COPIES_OF_COPIES));
}

const NUMBERED: [(&str, &str); 4] = [
    ("", "dir2 /\ndir1 t\nfile1 t/x\nfile1 t/y"),
    ("change /", "dir2 /\ndir1 t\nfile1 t/x\nfile1 t/y"),
    ("change t", "dir2 /\ndir2 t\nfile1 t/x"),
    ("delete t/x", "dir2 /\ndir2 t\nnone t/x\nfile1 t/y"),
];

#[test]
fn what_is_numbered(rt: HostRuntime) {
    none_is_wrong(&rt, first_other(&rt, rt.alloc(), &NUMBERED));
}
