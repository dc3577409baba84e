//! Deltas of a base spelled out by hand, one that Subversion made, and each cut anyhow.

use crate::checked::none_is_wrong;
use std::alloc::Global;
use std::process::Abort;
use std::rt::HostRuntime;
use svndiff::delta_fault::DeltaFault;
use svndiff::delta_law;
use svndiff::delta_reader::DeltaReader;

// The base of most rows.
const BASE: &[u8] = b"abcdefghij";

// Takes a piece, window by window, and gives the number of the refusal or 0.
fn take(
    rt: &impl Abort,
    reader: &mut DeltaReader,
    base: &[u8],
    piece: &[u8],
    text: &mut Vec<u8>,
) -> u32 {
    let mut rest = piece;
    while rest.len() > 0 {
        match reader.next(base, rest) {
            Ok(behind) => rest = behind,
            Err(fault) => return fault.number(),
        }
        text.extend_from_slice(reader.made()).expect(rt, "memory");
    }
    0
}

// The text that bytes in pieces of a size make of a base, behind what is there, and the number of the refusal or 0.
fn outcome(
    rt: &impl Abort,
    alloc: Global,
    base: &[u8],
    bytes: &[u8],
    size: usize,
    text: &mut Vec<u8>,
) -> u32 {
    let mut reader = DeltaReader::new(alloc);
    for piece in bytes.chunks(size.max(1)) {
        let number = take(rt, &mut reader, base, piece, text);
        if number != 0 {
            return number;
        }
    }
    match reader.finish() {
        Ok(()) => 0,
        Err(fault) => fault.number(),
    }
}

// Bytes, what they make of a base, and the number of the refusal behind it or 0.
type Row = (&'static [u8], &'static [u8], u32);

// Whether bytes in pieces of a size make a text of a base, or a refusal behind it.
fn makes_by(rt: &impl Abort, alloc: Global, base: &[u8], row: &Row, size: usize) -> bool {
    let (bytes, text, number) = row;
    let mut found = Vec::new(alloc);
    outcome(rt, alloc, base, bytes, size, &mut found) == *number && found.as_slice() == *text
}

// Whether they do in pieces of each size.
fn makes(rt: &impl Abort, alloc: Global, base: &[u8], row: &Row) -> bool {
    for size in 1..row.0.len() + 1 {
        if !makes_by(rt, alloc, base, row, size) {
            return false;
        }
    }
    true
}

// The first row that isn't so.
fn first_other(rt: &impl Abort, alloc: Global, rows: &[Row]) -> Option<usize> {
    for (case, row) in rows.iter().enumerate() {
        if !makes(rt, alloc, BASE, row) {
            return Some(case);
        }
    }
    None
}

// Copies from the view: some of its bytes, its last ones, by a length behind the first byte, and from a place with a
// leading zero group.
const SOURCES: [Row; 5] = [
    (b"SVN\x00\x02\x06\x03\x02\x00\x03\x01", b"def", 0),
    (b"SVN\x00\x02\x06\x04\x02\x00\x04\x02", b"efgh", 0),
    (b"SVN\x00\x02\x06\x03\x04\x00\x00\x80\x03\x01", b"def", 0),
    (b"SVN\x00\x02\x06\x03\x03\x00\x03\x80\x01", b"def", 0),
    (b"SVN\x00\x00\x0a\x0a\x02\x00\x0a\x00", BASE, 0),
];

// Copies of what is made: of a part of it, of what they make themselves, of the last byte over and over, and by a
// length behind the first byte.
const TARGETS: [Row; 4] = [
    (b"SVN\x00\x00\x00\x06\x03\x04\x84\x42\x01wxyz", b"wxyzxy", 0),
    (b"SVN\x00\x00\x00\x07\x03\x02\x82\x45\x00ab", b"abababa", 0),
    (b"SVN\x00\x00\x00\x06\x03\x02\x82\x44\x01ab", b"abbbbb", 0),
    (
        b"SVN\x00\x00\x00\x07\x04\x02\x82\x40\x05\x00ab",
        b"abababa",
        0,
    ),
];

// Every kind in one window; new data before and behind a copy; and a window of no bytes.
const MIXED: [Row; 5] = [
    (
        b"SVN\x00\x00\x0a\x07\x05\x02\x02\x08\x82\x43\x01XY",
        b"ijXYjXY",
        0,
    ),
    (
        b"SVN\x00\x03\x02\x06\x05\x04\x81\x02\x00\x80\x03Xyz!",
        b"Xdeyz!",
        0,
    ),
    (b"SVN\x00\x00\x00\x06\x01\x06\x86hello\n", b"hello\n", 0),
    (b"SVN\x00\x00\x00\x00\x00\x00", b"", 0),
    (b"SVN\x00", b"", 0),
];

// Views that slide on: the end alone, both, the same view again; and views without a byte, which stand anywhere.
const SLIDING: [Row; 4] = [
    (
        b"SVN\x00\x00\x04\x04\x02\x00\x04\x00\x00\x06\x02\x02\x00\x02\x04",
        b"abcdef",
        0,
    ),
    (
        b"SVN\x00\x00\x04\x01\x02\x00\x01\x00\x06\x04\x04\x02\x00\x04\x00",
        b"aghij",
        0,
    ),
    (
        b"SVN\x00\x04\x04\x01\x02\x00\x01\x00\x04\x04\x01\x02\x00\x01\x00",
        b"ee",
        0,
    ),
    (
        b"SVN\x00\x82\x2c\x00\x01\x01\x01\x81x\x04\x04\x01\x02\x00\x01\x00\x00\x00\x01\x01\x01\x81y",
        b"xey",
        0,
    ),
];

// Views past the base: by their end, from behind its end, and from as far as a number reaches.
const PAST: [Row; 3] = [
    (b"SVN\x00\x05\x06\x03\x02\x00\x03\x00", b"", 44),
    (b"SVN\x00\x0a\x01\x01\x02\x00\x01\x00", b"", 44),
    (
        b"SVN\x00\x81\xff\xff\xff\xff\xff\xff\xff\xff\x7f\x01\x01\x02\x00\x01\x00",
        b"",
        44,
    ),
];

// Views that slide back: their begin alone, their end alone, and behind one without a byte.
const BACK: [Row; 3] = [
    (
        b"SVN\x00\x04\x04\x01\x02\x00\x01\x00\x03\x06\x01\x02\x00\x01\x00",
        b"e",
        44,
    ),
    (
        b"SVN\x00\x04\x04\x01\x02\x00\x01\x00\x04\x03\x01\x02\x00\x01\x00",
        b"e",
        44,
    ),
    (
        b"SVN\x00\x04\x04\x01\x02\x00\x01\x00\x00\x00\x01\x01\x01\x81y\x03\x06\x01\x02\x00\x01\x00",
        b"ey",
        44,
    ),
];

// Copies past the view, of what isn't made yet, and from as far as a number reaches.
const WRONG_COPIES: [Row; 7] = [
    (b"SVN\x00\x00\x04\x03\x02\x00\x03\x02", b"", 44),
    (b"SVN\x00\x00\x04\x01\x02\x00\x01\x04", b"", 44),
    (b"SVN\x00\x00\x00\x01\x02\x00\x01\x00", b"", 44),
    (b"SVN\x00\x00\x00\x03\x02\x00\x43\x00", b"", 44),
    (b"SVN\x00\x00\x00\x04\x03\x02\x82\x42\x02ab", b"", 44),
    (
        b"SVN\x00\x00\x04\x01\x0b\x00\x01\x81\xff\xff\xff\xff\xff\xff\xff\xff\x7f",
        b"",
        44,
    ),
    (
        b"SVN\x00\x00\x00\x04\x0c\x02\x82\x42\x81\xff\xff\xff\xff\xff\xff\xff\xff\x7fab",
        b"",
        44,
    ),
];

// Instructions of no kind, without length, and past their section.
const WRONG_INSTRUCTIONS: [Row; 6] = [
    (b"SVN\x00\x00\x04\x03\x02\x00\xc3\x00", b"", 44),
    (b"SVN\x00\x00\x04\x03\x05\x00\x00\x00\x01\x03\x00", b"", 44),
    (
        b"SVN\x00\x00\x00\x02\x05\x02\x82\x40\x00\x00\x00ab",
        b"",
        44,
    ),
    (b"SVN\x00\x00\x04\x03\x01\x00\x03\x00", b"", 44),
    (b"SVN\x00\x00\x04\x03\x02\x00\x03\x80\x00", b"", 44),
    (b"SVN\x00\x00\x04\x03\x02\x00\x00\x80\x03\x00", b"", 44),
];

// Lengths that don't agree: less than the window makes, more than it makes, less new data than it has, more, and no
// instruction for what it makes.
const WRONG_SUMS: [Row; 5] = [
    (b"SVN\x00\x00\x04\x04\x02\x00\x03\x00", b"", 44),
    (b"SVN\x00\x00\x04\x02\x02\x00\x03\x00", b"", 44),
    (b"SVN\x00\x00\x04\x05\x03\x03\x03\x00\x82xyz", b"", 44),
    (b"SVN\x00\x00\x04\x05\x03\x01\x03\x00\x82xy", b"", 44),
    (b"SVN\x00\x00\x04\x01\x00\x00", b"", 44),
];

// Past a limit: what a window makes, what it brings and its view; before its view is judged.
const LONG: [Row; 4] = [
    (b"SVN\x00\x00\x00\x86\xa0\x01\x00\x00", b"", 8),
    (b"SVN\x00\x00\x00\x01\x01\x86\xa0\x01", b"", 8),
    (b"SVN\x00\x00\x86\xa0\x01\x01\x01\x00", b"", 8),
    (b"SVN\x00\x0a\x01\x86\xa0\x01\x01\x00", b"", 8),
];

// Ends before the version is whole and inside a window, another version, and a number of eleven bytes.
const CUT: [Row; 5] = [
    (b"SV", b"", 44),
    (b"SVN\x00\x02\x06\x03\x02\x00\x03", b"", 44),
    (b"SVN\x00\x00\x00\x02\x01\x02\x82a", b"", 44),
    (b"SVN\x01", b"", 44),
    (
        b"SVN\x00\x80\x80\x80\x80\x80\x80\x80\x80\x80\x80\x00\x00\x00\x00\x00",
        b"",
        44,
    ),
];

#[test]
fn deltas_are_read(rt: HostRuntime) {
    let alloc = rt.alloc();
    none_is_wrong(&rt, first_other(&rt, alloc, &SOURCES));
    none_is_wrong(&rt, first_other(&rt, alloc, &TARGETS));
    none_is_wrong(&rt, first_other(&rt, alloc, &MIXED));
    none_is_wrong(&rt, first_other(&rt, alloc, &SLIDING));
}

#[test]
fn wrong_views_are_refused(rt: HostRuntime) {
    let alloc = rt.alloc();
    none_is_wrong(&rt, first_other(&rt, alloc, &PAST));
    none_is_wrong(&rt, first_other(&rt, alloc, &BACK));
    none_is_wrong(&rt, first_other(&rt, alloc, &LONG));
    none_is_wrong(&rt, first_other(&rt, alloc, &CUT));
}

#[test]
fn wrong_instructions_are_refused(rt: HostRuntime) {
    let alloc = rt.alloc();
    none_is_wrong(&rt, first_other(&rt, alloc, &WRONG_COPIES));
    none_is_wrong(&rt, first_other(&rt, alloc, &WRONG_INSTRUCTIONS));
    none_is_wrong(&rt, first_other(&rt, alloc, &WRONG_SUMS));
}

// A file's text, and what `svnadmin dump --deltas` (1.14.2) has of the revision that changed it.
const OLD: &[u8] =
    b"The quick brown fox jumps over the lazy dog, and the dog sleeps on.\nPack my box with five dozen liquor jugs before the night comes.\n";

const CHANGE: &[u8] =
    b"SVN\x00\x00\x81\x04\x81U\tN\x00D\x00\x80L\x00C\x00\x82A new line.\nPack my box with five dozen liquor jugs before the night comes.\n!\n";

const NEW: &[u8] =
    b"The quick brown fox jumps over the lazy dog, and the dog sleeps on.\nA new line.\nPack my box with five dozen liquor jugs before the night comes.\nThe quick brown fox jumps over the lazy dog, and the dog sleeps on.!\n";

#[test]
fn a_change_of_subversion(rt: HostRuntime) {
    assert!(rt; makes(&rt, rt.alloc(), OLD, &(CHANGE, NEW, 0)));
}

// A window of 102,400 bytes, by one of new data that is repeated; and of 24,576, and one byte more.
const GREATEST: &[u8] = b"\x00\x00\x86\xa0\x00\x06\x01\x81\x40\x86\x9f\x7f\x00x";

const LAST: &[u8] = b"\x00\x00\x81\xc0\x00\x06\x01\x81\x40\x81\xbf\x7f\x00x";

const PAST_LAST: &[u8] = b"\x00\x00\x81\xc0\x01\x06\x01\x81\x40\x81\xc0\x00\x00x";

// How many bytes ten windows and another make, where all of them are the same byte, and the number of the refusal or 0.
fn greatest(rt: &impl Abort, alloc: Global, last: &[u8]) -> (usize, u32) {
    let mut bytes = Vec::from_slice(alloc, b"SVN\x00").expect(rt, "memory");
    for _ in 0..10 {
        bytes.extend_from_slice(GREATEST).expect(rt, "memory");
    }
    bytes.extend_from_slice(last).expect(rt, "memory");
    let mut text = Vec::new(alloc);
    let number = outcome(rt, alloc, b"", bytes.as_slice(), 5, &mut text);
    let all = text.as_slice().iter().all(|b| *b == b'x');
    (if all { text.len() } else { 0 }, number)
}

#[test]
fn the_greatest_text(rt: HostRuntime) {
    assert!(rt; greatest(&rt, rt.alloc(), LAST) == (1_048_576, 0));
    assert!(rt; greatest(&rt, rt.alloc(), PAST_LAST) == (1_024_000, 8));
}

// Whether bytes make the same whole and one byte at a time.
fn agrees(rt: &impl Abort, alloc: Global, bytes: &[u8]) -> bool {
    let mut whole = Vec::new(alloc);
    let mut single = Vec::new(alloc);
    let number = outcome(rt, alloc, BASE, bytes, bytes.len(), &mut whole);
    let also = outcome(rt, alloc, BASE, bytes, 1, &mut single);
    number == also && whole.as_slice() == single.as_slice()
}

// Whether that is so of each front of a delta, and with any byte of it changed to any value.
fn changes_agree(rt: &impl Abort, alloc: Global, bytes: &[u8]) -> bool {
    for at in 0..bytes.len() {
        if !agrees(rt, alloc, &bytes[..at]) || !values_agree(rt, alloc, bytes, at) {
            return false;
        }
    }
    true
}

fn values_agree(rt: &impl Abort, alloc: Global, bytes: &[u8], at: usize) -> bool {
    for value in 0..=u8::MAX {
        let mut changed = Vec::from_slice(alloc, bytes).expect(rt, "memory");
        if let Some(place) = changed.get_mut(at) {
            *place = value;
        }
        if !agrees(rt, alloc, changed.as_slice()) {
            return false;
        }
    }
    true
}

#[test]
fn changed_deltas_agree(rt: HostRuntime) {
    for (bytes, _, _) in MIXED {
        assert!(rt; changes_agree(&rt, rt.alloc(), bytes));
    }
    for (bytes, _, _) in SLIDING {
        assert!(rt; changes_agree(&rt, rt.alloc(), bytes));
    }
}

#[test]
fn a_refused_delta_stays_refused(rt: HostRuntime) {
    let mut reader = DeltaReader::new(rt.alloc());
    let first = reader
        .next(BASE, b"SVN\x00\x00\x00\x01\x01\x01\x81x")
        .is_ok();
    let made = reader.made() == b"x".as_slice();
    let second = reader.next(BASE, b"\x00\x04\x01\x02\x00\x01\x04").err();
    let later = reader.next(BASE, b"\x00").err();
    assert!(rt; first && made && reader.made().is_empty());
    assert!(rt; second == Some(DeltaFault::BadWindow) && later == Some(DeltaFault::Failed));
    assert!(rt; reader.finish() == Err(DeltaFault::Failed));
}

#[test]
fn laws_of_deltas_are_called(rt: HostRuntime) {
    delta_law::pieces_join();
    delta_law::texts_are_deltas();
    delta_law::deltas_are_texts();
    delta_law::deltas_are_read();
    delta_law::one_made();
    delta_law::read_is_delta();
    delta_law::refused_is_no_front();
    delta_law::refused_for_cause();
    assert!(rt; DeltaFault::TooLong.number() == 8 && DeltaFault::OutOfMemory.number() == 70);
}
