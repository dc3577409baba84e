//! The lines of dumps and the refusals that they show: vectors from outside.

use crate::checked::{all_hold, joined, none_is_wrong};
use crate::piece_tests::{answer, gives};
use dump_text::{DumpFault, DumpReader};
use std::alloc::Global;
use std::process::Abort;

const OF_2: &[u8] = b"SVN-fs-dump-format-version: 2\n\n";

// Whether lines behind the version block are refused with this number, whole and byte by byte.
fn is_judged(rt: &impl Abort, alloc: Global, lines: &str, number: u32) -> bool {
    let bytes = joined(rt, alloc, OF_2, lines.as_bytes());
    let (count, found) = answer(alloc, bytes.as_slice(), 4096);
    found == number && gives(alloc, bytes.as_slice(), 1, count, number)
}

// The first lines that aren't refused with the number beside them.
fn first_other<'a>(rt: &impl Abort, alloc: Global, table: &'a [(&'a str, u32)]) -> Option<&'a str> {
    for (lines, number) in table {
        if !is_judged(rt, alloc, lines, *number) {
            return Some(*lines);
        }
    }
    None
}

const HEADER_LINES: [(&str, u32); 17] = [
    ("Revision-number: 1\nRevision-number: x\n", 2),
    ("Node-path: a\nNode-path: b\n", 2),
    ("Revision-number:1\n", 2),
    ("Node-kind: link\n", 2),
    ("Node-action: modify\n", 2),
    ("Text-content-md5: 00\n", 2),
    ("Text-delta: false\nText-delta: true\n", 2),
    ("UUID: 6a1f0c3e000040008000000000000001\n", 2),
    ("Revision-number: 18446744073709551617\n", 3),
    ("Revision-number: 65536\n", 3),
    ("Prop-content-length: 18446744073709551616\n", 3),
    ("Revision-number: 1\nNode-copyfrom-rev: 65536\n", 3),
    ("Node-path: a/../b\n", 10),
    ("Node-path: //a\n", 10),
    ("Node-copyfrom-path: a//b\n", 10),
    ("Text-delta: true\n", 9),
    ("X-y: 1\nX-y: 1\n", 7),
];

#[test]
fn header_lines_are_judged(rt: HostRuntime) {
    none_is_wrong(&rt, first_other(&rt, rt.alloc(), &HEADER_LINES));
}

const EMPTY_LINES: [(&str, u32); 10] = [
    ("Node-path: a\nNode-action: add\n\n", 2),
    ("Revision-number: 1\nProp-delta: true\n\n", 2),
    (
        "Revision-number: 1\n\nNode-path: a\nNode-action: change\nNode-copyfrom-rev: 1\nNode-copyfrom-path: b\n\n",
        2,
    ),
    (
        "Revision-number: 1\n\nUUID: 6a1f0c3e-0000-4000-8000-000000000001\n\n",
        2,
    ),
    (
        "Revision-number: 1\nProp-content-length: 33554433\nContent-length: 9\n\n",
        4,
    ),
    (
        "Revision-number: 1\nProp-content-length: 33554433\nContent-length: 33554433\n\n",
        8,
    ),
    ("Revision-number: 1\nProp-content-length: 0\n\n", 5),
    (
        "Revision-number: 1\nProp-content-length: 30\n\nPROPS-END\n",
        5,
    ),
    (
        "Revision-number: 1\nProp-content-length: 34\n\nK 1\np\nV 1\n1\nK 1\np\nV 1\n1\nPROPS-END\n",
        5,
    ),
    (
        "Revision-number: 1\n\nNode-path: a\nNode-action: change\nText-content-length: 1048577\n\n",
        8,
    ),
];

#[test]
fn empty_lines_judge(rt: HostRuntime) {
    none_is_wrong(&rt, first_other(&rt, rt.alloc(), &EMPTY_LINES));
}

// Whether a header line of so many bytes, its LF not counted, is refused with this number, whole and byte by byte.
fn is_long(rt: &impl Abort, alloc: Global, count: usize, last: &[u8], number: u32) -> bool {
    let rest = Vec::from_elem(alloc, b'x', count.saturating_sub(3)).expect(rt, "memory");
    let line = joined(rt, alloc, b"SVN-fs-dump-format-version: 2\n\nX: ", &rest);
    let bytes = joined(rt, alloc, &line, last);
    gives(alloc, bytes.as_slice(), 10_000, 0, number)
        && gives(alloc, bytes.as_slice(), 1, 0, number)
}

// A line ends behind 4,096 bytes at most; the next one that isn't its LF is one too many.
#[test]
fn long_lines_are_refused(rt: HostRuntime) {
    all_hold(
        &rt,
        &[
            (is_long(&rt, rt.alloc(), 4_096, b"\n", 7), "4,096 and LF"),
            (is_long(&rt, rt.alloc(), 4_096, b"", 7), "4,096"),
            (is_long(&rt, rt.alloc(), 4_097, b"", 8), "4,097"),
            (is_long(&rt, rt.alloc(), 4_097, b"\n", 8), "4,097 and LF"),
        ],
    );
}

const FIRST_LINES: [(&str, u32); 8] = [
    ("SVN-fs-dump-format-version: 02\n\n", 1),
    ("SVN-fs-dump-format-version: 4\n\n", 1),
    ("SVN-fs-dump-format-version: 03\n\n", 1),
    ("SVN-fs-dump-format-version: 3\n\n", 0),
    ("SVN-fs-dump-format-version: 3\nX: 1\n", 2),
    ("SVN-fs-dump-format-version: 2\nX: 1\n", 2),
    ("SVN", 7),
    ("", 7),
];

// The first of these that aren't refused with their number before any record.
fn other_first_line(alloc: Global) -> Option<&'static str> {
    for (lines, number) in &FIRST_LINES {
        if !gives(alloc, lines.as_bytes(), 7, 0, *number) {
            return Some(*lines);
        }
    }
    None
}

#[test]
fn first_lines_are_judged(rt: HostRuntime) {
    none_is_wrong(&rt, other_first_line(rt.alloc()));
}

// Whether a piece is refused with this fault.
fn refuses(alloc: Global, reader: &mut DumpReader, piece: &[u8], fault: DumpFault) -> bool {
    let mut out = Vec::new(alloc);
    reader.feed(piece, &mut out) == Err(fault) && out.is_empty()
}

#[test]
fn a_refusal_stays(rt: HostRuntime) {
    let mut reader = DumpReader::new(rt.alloc());
    let first = refuses(rt.alloc(), &mut reader, b"x\n", DumpFault::BadVersion);
    let second = refuses(rt.alloc(), &mut reader, b"", DumpFault::Failed);
    let ended = reader.finish() == Err(DumpFault::Failed);
    all_hold(
        &rt,
        &[(first, "a line"), (second, "nothing"), (ended, "the end")],
    );
}
