//! Windows spelled out by hand, whole and one byte at a time.

use crate::checked::none_is_wrong;
use std::alloc::Global;
use std::process::Abort;
use std::rt::HostRuntime;
use svndiff::fault::WindowFault;
use svndiff::law;
use svndiff::reader::WindowReader;
use svndiff::writer::{write_head, write_text, write_windows};

// `hello` and an LF.
const HELLO: [u8; 16] = *b"SVN\x00\x00\x00\x06\x01\x06\x86hello\n";

// Two windows: `ab` by two instructions behind a source offset of 300, and `c` with leading zero groups.
const TWO: [u8; 26] =
    *b"SVN\x00\x82\x2c\x00\x02\x02\x02\x81\x81ab\x80\x00\x00\x80\x80\x01\x02\x01\x80\x01cZ";

// Takes a piece, stretch by stretch, and gives the number of the refusal or 0.
fn take(rt: &impl Abort, reader: &mut WindowReader, piece: &[u8], text: &mut Vec<u8>) -> u32 {
    let mut rest = piece;
    while rest.len() > 0 {
        match reader.next(rest) {
            Ok(stretch) => {
                text.extend_from_slice(stretch.bytes).expect(rt, "memory");
                rest = stretch.rest;
            }
            Err(fault) => return fault.number(),
        }
    }
    0
}

// The text that bytes in pieces of a size give, behind what is there, and the number of the refusal or 0.
fn outcome(rt: &impl Abort, bytes: &[u8], size: usize, text: &mut Vec<u8>) -> u32 {
    let mut reader = WindowReader::new();
    for piece in bytes.chunks(size.max(1)) {
        let number = take(rt, &mut reader, piece, text);
        if number != 0 {
            return number;
        }
    }
    match reader.finish() {
        Ok(()) => 0,
        Err(fault) => fault.number(),
    }
}

// Whether bytes in pieces of a size give a text, or a refusal behind it.
fn gives_by(
    rt: &impl Abort,
    alloc: Global,
    bytes: &[u8],
    size: usize,
    text: &[u8],
    number: u32,
) -> bool {
    let mut found = Vec::new(alloc);
    outcome(rt, bytes, size, &mut found) == number && found.as_slice() == text
}

// Whether bytes give a text, or a refusal behind it, whole and one byte at a time.
fn gives(rt: &impl Abort, alloc: Global, bytes: &[u8], text: &[u8], number: u32) -> bool {
    gives_by(rt, alloc, bytes, bytes.len(), text, number)
        && gives_by(rt, alloc, bytes, 1, text, number)
}

// Whether the bytes of a window are refused so behind the head.
fn refuses(rt: &impl Abort, alloc: Global, window: &[u8], number: u32) -> bool {
    let mut bytes = Vec::from_slice(alloc, b"SVN\x00").expect(rt, "memory");
    bytes.extend_from_slice(window).expect(rt, "memory");
    gives(rt, alloc, bytes.as_slice(), b"", number)
}

// Whether a text is written with these bytes in front of it, and is read again.
fn is_written(rt: &impl Abort, alloc: Global, size: usize, front: &[u8]) -> bool {
    let text = Vec::from_elem(alloc, b'x', size).expect(rt, "memory");
    let mut written = Vec::new(alloc);
    write_text(&mut written, text.as_slice()).expect(rt, "memory");
    written.as_slice().strip_prefix(front) == Some(text.as_slice())
        && gives(rt, alloc, written.as_slice(), text.as_slice(), 0)
}

#[test]
fn texts_are_written_and_read(rt: HostRuntime) {
    let alloc = rt.alloc();
    assert!(rt; gives(&rt, alloc, &HELLO, b"hello\n", 0));
    assert!(rt; is_written(&rt, alloc, 0, b"SVN\x00"));
    assert!(rt; is_written(&rt, alloc, 64, b"SVN\x00\x00\x00\x40\x02\x40\x80\x40"));
}

#[test]
fn a_window_of_65_536_bytes(rt: HostRuntime) {
    let front = b"SVN\x00\x00\x00\x84\x80\x00\x04\x84\x80\x00\x80\x84\x80\x00";
    assert!(rt; is_written(&rt, rt.alloc(), 65_536, front));
}

#[test]
fn a_mebibyte_has_sixteen_windows(rt: HostRuntime) {
    let alloc = rt.alloc();
    let text = Vec::from_elem(alloc, b'x', 1_048_576).expect(&rt, "memory");
    let mut written = Vec::new(alloc);
    write_head(&mut written).expect(&rt, "memory");
    write_windows(&mut written, text.as_slice()).expect(&rt, "memory");
    assert!(rt; written.len() == 4 + 16 * (13 + 65_536));
    assert!(rt; gives(&rt, alloc, written.as_slice(), text.as_slice(), 0));
    written
        .extend_from_slice(b"\x00\x00\x01\x01\x01\x81x")
        .expect(&rt, "memory");
    assert!(rt; gives(&rt, alloc, written.as_slice(), text.as_slice(), 8));
}

#[test]
fn windows_in_other_spellings(rt: HostRuntime) {
    let alloc = rt.alloc();
    assert!(rt; gives(&rt, alloc, &TWO[..25], b"abc", 0));
    assert!(rt; gives(&rt, alloc, b"SVN\x00\x00\x00\x00\x00\x00", b"", 0));
    let long = b"SVN\x00\x81\x80\x80\x80\x80\x80\x80\x80\x80\x00\x00\x00\x00\x00";
    assert!(rt; gives(&rt, alloc, long, b"", 0));
}

// Windows that are refused behind the head, with the number of each.
const COPIES: [(&[u8], u32); 3] = [
    (b"\x00\x00\x06\x01\x06\x06hello\n", 45),
    (b"\x00\x00\x06\x01\x06\x46hello\n", 45),
    (b"\x00\x01\x06\x01\x06\x86hello\n", 45),
];

const BAD_INSTRUCTIONS: [(&[u8], u32); 4] = [
    (b"\x00\x00\x06\x01\x06\xc6hello\n", 44),
    (b"\x00\x00\x06\x02\x06\x80\x00hello\n", 44),
    (b"\x00\x00\x06\x01\x06\x80\x06hello\n", 44),
    (b"\x00\x00\x05\x01\x06\x86hello\n", 44),
];

const BAD_NUMBERS: [(&[u8], u32); 3] = [
    (
        b"\x80\x80\x80\x80\x80\x80\x80\x80\x80\x80\x00\x00\x00\x00\x00",
        44,
    ),
    (b"\x82\x80\x80\x80\x80\x80\x80\x80\x80\x00", 44),
    (b"\x00\x01\x86\xa0\x01\x00\x00", 8),
];

// The place of the first window that isn't refused so.
fn first_taken(rt: &impl Abort, alloc: Global, cases: &[(&[u8], u32)]) -> Option<usize> {
    for (case, (window, number)) in cases.iter().enumerate() {
        if !refuses(rt, alloc, window, *number) {
            return Some(case);
        }
    }
    None
}

#[test]
fn copies_are_refused(rt: HostRuntime) {
    none_is_wrong(&rt, first_taken(&rt, rt.alloc(), &COPIES));
}

#[test]
fn bad_instructions_are_refused(rt: HostRuntime) {
    none_is_wrong(&rt, first_taken(&rt, rt.alloc(), &BAD_INSTRUCTIONS));
}

#[test]
fn bad_numbers_are_refused(rt: HostRuntime) {
    none_is_wrong(&rt, first_taken(&rt, rt.alloc(), &BAD_NUMBERS));
    assert!(rt; gives(&rt, rt.alloc(), b"SVN\x01", b"", 44));
}

// Whether bytes give the same whole and one byte at a time.
fn agrees(rt: &impl Abort, alloc: Global, bytes: &[u8]) -> bool {
    let mut whole = Vec::new(alloc);
    let number = outcome(rt, bytes, bytes.len(), &mut whole);
    gives_by(rt, alloc, bytes, 1, whole.as_slice(), number)
}

// A text of 64 bytes: the length no longer fits its instruction, and stands behind it.
const LONG: [u8; 75] =
    *b"SVN\x00\x00\x00\x40\x02\x40\x80\x40xxxxxxxxxxxxxxxxxxxxxxxxxxxxxxxxxxxxxxxxxxxxxxxxxxxxxxxxxxxxxxxx";

// Whether bytes that are cut anywhere give the same whole and one byte at a time.
fn fronts_agree(rt: &impl Abort, alloc: Global, bytes: &[u8]) -> bool {
    for n in 0..bytes.len() {
        if !agrees(rt, alloc, &bytes[..n]) {
            return false;
        }
    }
    true
}

#[test]
fn truncations_agree(rt: HostRuntime) {
    assert!(rt; fronts_agree(&rt, rt.alloc(), &HELLO));
    assert!(rt; fronts_agree(&rt, rt.alloc(), &TWO));
    assert!(rt; fronts_agree(&rt, rt.alloc(), &LONG));
}

// Whether bytes with one of them changed give the same whole and one byte at a time.
fn agrees_with(rt: &impl Abort, alloc: Global, bytes: &[u8], at: usize, value: u8) -> bool {
    let mut changed = Vec::from_slice(alloc, bytes).expect(rt, "memory");
    if let Some(place) = changed.get_mut(at) {
        *place = value;
    }
    agrees(rt, alloc, changed.as_slice())
}

// Whether that is so with any one of them changed to any value.
fn changes_agree(rt: &impl Abort, alloc: Global, bytes: &[u8]) -> bool {
    for at in 0..bytes.len() {
        for value in 0..=u8::MAX {
            if !agrees_with(rt, alloc, bytes, at, value) {
                return false;
            }
        }
    }
    true
}

#[test]
fn changed_bytes_agree(rt: HostRuntime) {
    assert!(rt; changes_agree(&rt, rt.alloc(), &HELLO));
    assert!(rt; changes_agree(&rt, rt.alloc(), &TWO));
    assert!(rt; changes_agree(&rt, rt.alloc(), &LONG));
}

// What stands in front of a text of 65,536 bytes.
const GREATEST: &[u8] = b"SVN\x00\x00\x00\x84\x80\x00\x04\x84\x80\x00\x80\x84\x80\x00";

// The text that bytes give whose first so many come one at a time and the rest at once, and the number of the refusal
// or 0.
fn outcome_behind(rt: &impl Abort, front: &[u8], rest: &[u8], text: &mut Vec<u8>) -> u32 {
    let mut reader = WindowReader::new();
    for piece in front.chunks(1) {
        let number = take(rt, &mut reader, piece, text);
        if number != 0 {
            return number;
        }
    }
    let number = take(rt, &mut reader, rest, text);
    if number != 0 {
        return number;
    }
    match reader.finish() {
        Ok(()) => 0,
        Err(fault) => fault.number(),
    }
}

// Whether a front before a text gives the same whole and one byte at a time.
fn agrees_in_front(rt: &impl Abort, alloc: Global, front: &[u8], text: &[u8]) -> bool {
    let mut bytes = Vec::from_slice(alloc, front).expect(rt, "memory");
    bytes.extend_from_slice(text).expect(rt, "memory");
    let mut whole = Vec::new(alloc);
    let mut single = Vec::new(alloc);
    let number = outcome(rt, bytes.as_slice(), bytes.len(), &mut whole);
    let also = outcome_behind(rt, front, text, &mut single);
    number == also && whole.as_slice() == single.as_slice()
}

// Whether a window's front that is changed at a byte, to any value, does.
fn agrees_before(rt: &impl Abort, alloc: Global, text: &[u8], at: usize) -> bool {
    for value in 0..=u8::MAX {
        let mut front = Vec::from_slice(alloc, GREATEST).expect(rt, "memory");
        if let Some(place) = front.get_mut(at) {
            *place = value;
        }
        if !agrees_in_front(rt, alloc, front.as_slice(), text) {
            return false;
        }
    }
    true
}

#[test]
fn changed_bytes_before_the_greatest_text_agree(rt: HostRuntime) {
    let text = Vec::from_elem(rt.alloc(), b'x', 65_536).expect(&rt, "memory");
    for at in 0..GREATEST.len() {
        assert!(rt;
            agrees_before(&rt, rt.alloc(), text.as_slice(), at),
            "at {at}"
        );
    }
}

#[test]
fn a_refusal_stays(rt: HostRuntime) {
    let mut reader = WindowReader::new();
    let first = reader.next(b"SVX").err();
    let later = reader.next(b"SVN").err();
    assert!(rt; first == Some(WindowFault::BadWindow));
    assert!(rt; later == Some(WindowFault::Failed));
    assert!(rt; reader.finish() == Err(WindowFault::Failed));
}

#[test]
fn laws_are_called(rt: HostRuntime) {
    law::pieces_join();
    law::texts_are_read();
    law::one_text();
    law::written_is_text();
    law::written_is_read();
    law::read_is_text();
    law::refused_is_no_front();
    law::refused_for_cause();
    assert!(rt; WindowFault::CopyWindow.number() == 45);
}
