//! Drives that are passed on, readers and writers that fail, and a text of the greatest length.

use crate::checked::none_is_wrong;
use crate::streams_for_tests::{Failing, items_from};
use crate::wire_tests::{FRONT, in_chunks, mebibyte};
use delta_editor::{Call, Recorder};
use ra_edit::edit_fault::EditFault;
use ra_edit::receive::receive;
use ra_edit::wire::WireEditor;
use std::alloc::Global;
use std::process::Abort;
use std::rt::HostRuntime;

/// Every command, as it is written.
pub(crate) const FULL: &[u8] =
    b"( target-rev ( 7 ) ) ( open-root ( ( 6 ) 2:t0 ) ) ( change-dir-prop ( 2:t0 1:p ( 3:one ) ) ) ( open-dir ( 1:d 2:t0 2:t1 ( 6 ) ) ) ( change-dir-prop ( 2:t1 1:q ( ) ) ) ( add-file ( 3:d/f 2:t1 2:t2 ( 2:/g 3 ) ) ) ( change-file-prop ( 2:t2 1:r ( 2:\x00\n ) ) ) ( apply-textdelta ( 2:t2 ( ) ) ) ( textdelta-chunk ( 2:t2 4:SVN\x00 ) ) ( textdelta-chunk ( 2:t2 12:\x00\x00\x06\x01\x06\x86hello\n ) ) ( textdelta-end ( 2:t2 ) ) ( close-file ( 2:t2 ( 32:b1946ac92492d2347c6235b4d2611184 ) ) ) ( delete-entry ( 3:d/x ( 6 ) 2:t1 ) ) ( add-dir ( 3:d/y 2:t1 2:t3 ( ) ) ) ( close-dir ( 2:t3 ) ) ( close-dir ( 2:t1 ) ) ( open-file ( 1:e 2:t0 2:t4 ( 6 ) ) ) ( change-file-prop ( 2:t4 1:s ( ) ) ) ( close-file ( 2:t4 ( ) ) ) ( close-dir ( 2:t0 ) ) ( finish-replay ( ) ) ";

// The same calls in other forms: other tokens and white space, zeros in front, more behind the parameters, a source
// without its slash, a sum in capitals, windows cut elsewhere, an end that is announced.
const OTHER: &[u8] =
    b"( target-rev ( 007 ) x )\n( open-root ( ( 6 9 ) 0: ) ) ( change-dir-prop ( 0: 1:p ( 3:one ) ) ) ( open-dir ( 1:d 0: 1:x ( 6 ) y ) ) ( change-dir-prop ( 1:x 1:q ( ) ) ) ( add-file ( 3:d/f 1:x 3:\xff\x00  ( 1:g 03 ) ) ) ( change-file-prop ( 3:\xff\x00  1:r ( 2:\x00\n 1:z ) ) ) ( apply-textdelta ( 3:\xff\x00  ( 4:base ) ) ) ( textdelta-chunk ( 3:\xff\x00  9:SVN\x00\x80\x00\x00\x06\x01 ) ) ( textdelta-chunk ( 3:\xff\x00  0: ) ) ( textdelta-chunk ( 3:\xff\x00  8:\x06\x86hello\n ) ) ( textdelta-end ( 3:\xff\x00  ) ) ( close-file ( 3:\xff\x00  ( 32:B1946AC92492D2347C6235B4D2611184 ) ) ) ( delete-entry ( 3:d/x ( 6 ) 1:x ) ) ( add-dir ( 3:d/y 1:x 3:\xff\x00  ( ) ) ) ( close-dir ( 3:\xff\x00  ) ) ( close-dir ( 1:x ) ) ( open-file ( 1:e 0: 1:x ( 6 ) ) ) ( change-file-prop ( 1:x 1:s ( ) ) ) ( close-file ( 1:x ( ) ) ) ( close-dir ( 0: ) ) ( close-edit ( ) ) ( finish-replay ( ) ) ";

// What a drive is written as again, or nothing where it is refused.
fn passed_on(rt: &impl Abort, alloc: Global, bytes: &[u8], size: usize) -> Vec<u8> {
    let editor = WireEditor::new(alloc, Vec::new(alloc)).expect(rt, "room");
    match receive(alloc, &mut items_from(alloc, bytes, size, false), editor) {
        Ok(written) => written.into_inner(),
        Err(_) => Vec::new(alloc),
    }
}

// A text in two chunks: a window that is cut between them, an empty one, and two more.
const CUT: &[u8] =
    b"( open-root ( ( ) 1:r ) ) ( add-file ( 1:a 1:r 1:a ( ) ) ) ( apply-textdelta ( 1:a ( ) ) ) ( textdelta-chunk ( 1:a 12:SVN\x00\x00\x00\x04\x01\x04\x84ab ) ) ( textdelta-chunk ( 1:a 21:cd\x00\x00\x00\x00\x00\x00\x00\x01\x01\x01\x81e\x00\x00\x01\x01\x01\x81f ) ) ( textdelta-end ( 1:a ) ) ( close-file ( 1:a ( 32:e80b5017098950fc58aad83c8c14978e ) ) ) ( close-dir ( 1:r ) ) ( finish-replay ( ) ) ";

// The same with each piece in a chunk of its own: what a chunk has of a window's new data is one piece.
const IN_PIECES: &[u8] =
    b"( open-root ( ( ) 2:t0 ) ) ( add-file ( 1:a 2:t0 2:t1 ( ) ) ) ( apply-textdelta ( 2:t1 ( ) ) ) ( textdelta-chunk ( 2:t1 4:SVN\x00 ) ) ( textdelta-chunk ( 2:t1 8:\x00\x00\x02\x01\x02\x82ab ) ) ( textdelta-chunk ( 2:t1 8:\x00\x00\x02\x01\x02\x82cd ) ) ( textdelta-chunk ( 2:t1 7:\x00\x00\x01\x01\x01\x81e ) ) ( textdelta-chunk ( 2:t1 7:\x00\x00\x01\x01\x01\x81f ) ) ( textdelta-end ( 2:t1 ) ) ( close-file ( 2:t1 ( 32:e80b5017098950fc58aad83c8c14978e ) ) ) ( close-dir ( 2:t0 ) ) ( finish-replay ( ) ) ";

// Drives, in pieces of which size each comes, and what it is passed on as.
const PASSED_ON: [(&[u8], usize, &[u8]); 5] = [
    (FULL, FULL.len(), FULL),
    (OTHER, OTHER.len(), FULL),
    (OTHER, 1, FULL),
    (CUT, CUT.len(), IN_PIECES),
    (CUT, 1, IN_PIECES),
];

// The place of the first of these that is passed on otherwise.
fn first_changed(rt: &impl Abort, alloc: Global) -> Option<usize> {
    for (case, (bytes, size, wanted)) in PASSED_ON.iter().enumerate() {
        if passed_on(rt, alloc, bytes, *size).as_slice() != *wanted {
            return Some(case);
        }
    }
    None
}

#[test]
fn contents_are_as_they_were_written(rt: HostRuntime) {
    none_is_wrong(&rt, first_changed(&rt, rt.alloc()));
}

// The number of a fault, where there is one.
fn number_of(fault: Option<EditFault>) -> Option<u8> {
    match fault {
        Some(fault) => Some(fault.number()),
        None => None,
    }
}

// What a drive is refused for where its reader fails behind it, and where it is read from again.
fn broken(alloc: Global, bytes: &[u8]) -> (Option<u8>, Option<u8>) {
    let mut items = items_from(alloc, bytes, 7, true);
    let first = number_of(receive(alloc, &mut items, Recorder::new(alloc)).err());
    let second = number_of(receive(alloc, &mut items, Recorder::new(alloc)).err());
    (first, second)
}

// Whether a reader that fails behind any beginning of a drive is said to have failed.
fn all_break(alloc: Global, bytes: &[u8]) -> bool {
    for end in 0..bytes.len() {
        if broken(alloc, bytes.get(..end).unwrap_or(b"")) != (Some(49), Some(32)) {
            return false;
        }
    }
    true
}

#[test]
fn a_reader_that_fails_is_told(rt: HostRuntime) {
    let alloc = rt.alloc();
    assert!(rt; all_break(alloc, FULL));
    assert!(rt; broken(alloc, FULL) == (None, Some(49)));
}

// What a drive is refused for where the writer behind its editor fails behind so many calls, and where its stream is
// read from again. The writer has a beginning of the drive.
fn unwritten(rt: &impl Abort, alloc: Global, left: usize) -> (Option<u8>, Option<u8>) {
    let mut bytes = Vec::new(alloc);
    let out = Failing {
        bytes: &mut bytes,
        left,
        size: usize::MAX,
    };
    let editor = WireEditor::new(alloc, out).expect(rt, "room");
    let mut items = items_from(alloc, FULL, 7, false);
    let first = number_of(receive(alloc, &mut items, editor).err());
    let second = number_of(receive(alloc, &mut items, Recorder::new(alloc)).err());
    if FULL.starts_with(bytes.as_slice()) {
        (first, second)
    } else {
        (None, None)
    }
}

// Whether a writer that fails behind fewer than 20 calls is told.
fn all_unwritten(rt: &impl Abort, alloc: Global) -> bool {
    for left in 0..20 {
        if unwritten(rt, alloc, left) != (Some(49), Some(32)) {
            return false;
        }
    }
    true
}

#[test]
fn a_writer_that_fails_is_told(rt: HostRuntime) {
    assert!(rt; all_unwritten(&rt, rt.alloc()));
    assert!(rt; unwritten(&rt, rt.alloc(), 20) == (None, Some(48)));
}

// How many pieces of 65,536 bytes `x` there are among calls, and how many other calls.
fn pieces(calls: &[Call]) -> (usize, usize) {
    let mut whole = 0usize;
    for call in calls {
        if let Call::TextPiece(_, piece) = call {
            let bytes = piece.as_slice();
            if bytes.len() == 65_536 && bytes.iter().all(|b| *b == b'x') {
                whole = whole.saturating_add(1);
            }
        }
    }
    (whole, calls.len().saturating_sub(whole))
}

// The same of a drive in pieces of a size, or nothing where it is refused.
fn pieces_of(alloc: Global, bytes: &[u8], size: usize) -> (usize, usize) {
    let mut items = items_from(alloc, bytes, size, false);
    match receive(alloc, &mut items, Recorder::new(alloc)) {
        Ok(calls) => pieces(&calls),
        Err(_) => (0, 0),
    }
}

// The first size of pieces in which a text of 1,048,576 bytes `x` in 17 chunks isn't sixteen pieces and eight calls.
fn first_torn(rt: &impl Abort, alloc: Global) -> Option<usize> {
    let text = mebibyte(rt, alloc);
    let bytes = in_chunks(rt, alloc, FRONT, &text);
    for size in [bytes.len(), 4_099, 1] {
        if pieces_of(alloc, &bytes, size) != (16, 8) {
            return Some(size);
        }
    }
    None
}

#[test]
fn a_mebibyte_is_sixteen_pieces(rt: HostRuntime) {
    none_is_wrong(&rt, first_torn(&rt, rt.alloc()));
}
