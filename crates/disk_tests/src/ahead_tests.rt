//! What a folder's disk reads ahead: reads are served from 64 KiB that its host was asked for at once. A fuse tells how
//! often the host is asked.

use crate::steps::{GATE, JOURNAL, SLOTS, Step, first_wrong, none_wrong, reads};
use fleet_disk::{Disk, Fuse, FuseDisk, HostDisk, MemDisk, OverDisk};
use std::alloc::Global;
use std::process::Abort;

type Host = HostDisk<OverDisk<FuseDisk<MemDisk>>>;

// More calls than a test makes.
const MANY: u64 = 1_000;

// A disk over a host with these bytes in its journal, of whose calls so many pass.
fn over(rt: &impl Abort, alloc: Global, journal: &[u8], calls: u64, fuse: Fuse) -> Host {
    let disk = MemDisk::with_bytes(alloc, journal, b"ghijkl", b"mnopqr").expect(rt, "memory");
    HostDisk::new(alloc, OverDisk::new(FuseDisk::new(disk, calls, fuse)))
}

// The first step that doesn't come to what it says, where so many calls of the host pass.
fn wrong(
    rt: &impl Abort,
    alloc: Global,
    calls: u64,
    fuse: Fuse,
    steps: &[Step<'_>],
) -> Option<u64> {
    first_wrong(&mut over(rt, alloc, b"abcdef", calls, fuse), steps)
}

// 131,104 bytes: twice 64 KiB and a little more.
fn long_text(rt: &impl Abort, alloc: Global) -> Vec<u8> {
    let mut text = Vec::new(alloc);
    for at in 0u64..131_104 {
        text.push((at % 251) as u8).expect(rt, "memory");
    }
    text
}

// Where the first of short reads in a row fails or gives another text, where so many calls of the host pass.
fn ends_at(disk: &mut Host, text: &[u8]) -> Option<u64> {
    let mut at: u64 = 0;
    for wanted in text.chunks(16) {
        if !reads(disk, JOURNAL, at, &mut [0u8; 16], wanted) {
            return Some(at);
        }
        at = at.saturating_add(16);
    }
    None
}

// Whether short reads of a long file fail there where so many calls of the host pass.
fn asks_so_often(
    rt: &impl Abort,
    alloc: Global,
    text: &[u8],
    calls: u64,
    end: Option<u64>,
) -> bool {
    ends_at(&mut over(rt, alloc, text, calls, Fuse::ForGood), text) == end
}

#[test]
fn short_reads_in_a_row_ask_once_for_64_kibibytes(rt: HostRuntime) {
    let text = long_text(&rt, rt.alloc());
    assert!(rt; asks_so_often(&rt, rt.alloc(), text.as_slice(), 1, Some(65_536)));
    assert!(rt; asks_so_often(&rt, rt.alloc(), text.as_slice(), 2, Some(131_072)));
    assert!(rt; asks_so_often(&rt, rt.alloc(), text.as_slice(), 3, None));
}

// Whether reads that are shorter than a buffer of 64 KiB by one byte, and as long, ask the host, of whose calls one passes;
// and what was read ahead stays.
fn asks_for_long_reads(disk: &mut Host, buf: &mut [u8]) -> bool {
    let front = buf.len().saturating_sub(1);
    reads(disk, JOURNAL, 0, &mut buf[..front], b"abcdef")
        && disk.read(JOURNAL, 0, buf).is_err()
        && reads(disk, JOURNAL, 2, &mut [0u8; 4], b"cdef")
}

#[test]
fn a_long_read_asks_the_host(rt: HostRuntime) {
    let mut disk = over(&rt, rt.alloc(), b"abcdef", 1, Fuse::ForGood);
    let mut buf = Vec::from_elem(rt.alloc(), 0u8, 65_536).expect(&rt, "memory");
    assert!(rt; asks_for_long_reads(&mut disk, buf.as_mut_slice()));
}

// Changes of the file that was read.
const CHANGED: [Step<'static>; 7] = [
    Step::Read(JOURNAL, 0, b"abcd"),
    Step::Write(JOURNAL, b"xy"),
    Step::Read(JOURNAL, 0, b"xycd"),
    Step::Cut(JOURNAL),
    Step::Read(JOURNAL, 0, b""),
    Step::Write(JOURNAL, b"new"),
    Step::Read(JOURNAL, 0, b"new"),
];

// Changes of another one.
const CHANGED_BESIDE: [Step<'static>; 8] = [
    Step::Read(GATE, 0, b"ghij"),
    Step::Read(JOURNAL, 0, b"abcd"),
    Step::Write(GATE, b"xy"),
    Step::Read(JOURNAL, 1, b"bcde"),
    Step::Read(GATE, 0, b"xyij"),
    Step::Cut(GATE),
    Step::Read(JOURNAL, 2, b"cdef"),
    Step::Read(GATE, 0, b""),
];

const ENDS: [Step<'static>; 7] = [
    Step::Read(JOURNAL, 6, b""),
    Step::Read(JOURNAL, 4, b"ef"),
    Step::Read(JOURNAL, 0, b"abcd"),
    Step::Read(JOURNAL, 6, b""),
    Step::Read(JOURNAL, 7, b""),
    Step::Read(JOURNAL, 1_000, b""),
    Step::Read(JOURNAL, 5, b"f"),
];

// Each file is asked for once.
const BY_TURNS: [Step<'static>; 6] = [
    Step::Read(JOURNAL, 1, b"bcde"),
    Step::Read(GATE, 1, b"hijk"),
    Step::Read(SLOTS, 1, b"nopq"),
    Step::Read(JOURNAL, 2, b"cdef"),
    Step::Read(GATE, 2, b"ijkl"),
    Step::Read(SLOTS, 2, b"opqr"),
];

// The first read fails.
const AT_FIRST: [Step<'static>; 2] = [Step::Unread(JOURNAL), Step::Read(JOURNAL, 0, b"abcd")];

// A read of the gate fails behind one of the journal.
const BEHIND_ANOTHER: [Step<'static>; 5] = [
    Step::Read(JOURNAL, 0, b"abcd"),
    Step::Unread(GATE),
    Step::Read(JOURNAL, 2, b"cdef"),
    Step::Read(GATE, 0, b"ghij"),
    Step::Read(JOURNAL, 0, b"abcd"),
];

// A write fails.
const AT_A_WRITE: [Step<'static>; 3] = [
    Step::Read(JOURNAL, 0, b"abcd"),
    Step::Unwritten(JOURNAL),
    Step::Read(JOURNAL, 0, b"abcd"),
];

// What is tried, of how many calls of the host and how often it fails behind them, and the steps.
const RUNS: [(&str, u64, Fuse, &[Step<'static>]); 7] = [
    ("changed", MANY, Fuse::ForGood, &CHANGED),
    ("changed beside", MANY, Fuse::ForGood, &CHANGED_BESIDE),
    ("ends", MANY, Fuse::ForGood, &ENDS),
    ("by turns", 3, Fuse::ForGood, &BY_TURNS),
    ("at first", 0, Fuse::Once, &AT_FIRST),
    ("behind another", 1, Fuse::Once, &BEHIND_ANOTHER),
    ("at a write", 1, Fuse::Once, &AT_A_WRITE),
];

#[test]
fn what_short_reads_see(rt: HostRuntime) {
    for (what, calls, fuse, steps) in &RUNS {
        none_wrong(&rt, *what, wrong(&rt, rt.alloc(), *calls, *fuse, *steps));
    }
}
