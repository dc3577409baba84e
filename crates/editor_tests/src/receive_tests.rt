//! Drives spelled out by hand, whole and cut anyhow.

use crate::checked::none_is_wrong;
use crate::streams_for_tests::{Failing, items_from};
use crate::wire_tests::COPY;
use delta_editor::{Call, Recorder};
use ra_edit::edit_fault::EditFault;
use ra_edit::receive::receive;
use ra_edit::wire::WireEditor;
use std::alloc::Global;
use std::process::Abort;
use std::rt::HostRuntime;

// A file that is added, with its text.
const ADDED: &[u8] =
    b"( target-rev ( 1 ) ) ( open-root ( ( 0 ) 2:t0 ) ) ( add-file ( 1:a 2:t0 2:t1 ( ) ) ) ( apply-textdelta ( 2:t1 ( ) ) ) ( textdelta-chunk ( 2:t1 4:SVN\x00 ) ) ( textdelta-chunk ( 2:t1 12:\x00\x00\x06\x01\x06\x86hello\n ) ) ( textdelta-end ( 2:t1 ) ) ( close-file ( 2:t1 ( 32:b1946ac92492d2347c6235b4d2611184 ) ) ) ( close-dir ( 2:t0 ) ) ( finish-replay ( ) ) ";

// How many bytes of it stand in front of its end, which has 22.
const UNENDED: usize = ADDED.len() - 22;

// The same with an empty text.
const EMPTY: &[u8] =
    b"( target-rev ( 1 ) ) ( open-root ( ( 0 ) 2:t0 ) ) ( add-file ( 1:a 2:t0 2:t1 ( ) ) ) ( apply-textdelta ( 2:t1 ( ) ) ) ( textdelta-chunk ( 2:t1 4:SVN\x00 ) ) ( textdelta-end ( 2:t1 ) ) ( close-file ( 2:t1 ( 32:d41d8cd98f00b204e9800998ecf8427e ) ) ) ( close-dir ( 2:t0 ) ) ( finish-replay ( ) ) ";

// Revision 2 without changes, and the same with its root opened and closed.
const NOTHING: &[u8] = b"( target-rev ( 2 ) ) ( finish-replay ( ) ) ";

const UNCHANGED: &[u8] =
    b"( target-rev ( 2 ) ) ( open-root ( ( ) 2:t0 ) ) ( close-dir ( 2:t0 ) ) ( finish-replay ( ) ) ";

// What a drive in pieces of a size comes to, 0 or the number of its refusal. The commands that it was passed on as up to
// there are written.
fn received(alloc: Global, bytes: &[u8], size: usize, written: &mut Vec<u8>) -> u8 {
    match WireEditor::new(alloc, Failing::never(written)) {
        Ok(editor) => match receive(alloc, &mut items_from(alloc, bytes, size, false), editor) {
            Ok(_) => 0,
            Err(fault) => fault.number(),
        },
        Err(fault) => fault.number(),
    }
}

// The same, where it is the same whole and one byte at a time.
fn either_way(alloc: Global, bytes: &[u8], written: &mut Vec<u8>) -> Option<u8> {
    let number = received(alloc, bytes, bytes.len(), written);
    let mut single = Vec::new(alloc);
    let same = received(alloc, bytes, 1, &mut single) == number
        && single.as_slice() == written.as_slice();
    same.then_some(number)
}

// Whether bytes give this, whole and one byte at a time.
fn gives(alloc: Global, bytes: &[u8], number: u8) -> bool {
    let mut written = Vec::new(alloc);
    either_way(alloc, bytes, &mut written) == Some(number)
}

// Whether a drive is passed on as these commands, whole and one byte at a time.
fn passes_on(alloc: Global, bytes: &[u8], wanted: &[u8]) -> bool {
    let mut written = Vec::new(alloc);
    either_way(alloc, bytes, &mut written) == Some(0) && written.as_slice() == wanted
}

// The place of the first of these that doesn't give this.
fn first_other(alloc: Global, cases: &[&[u8]], number: u8) -> Option<usize> {
    for (case, bytes) in cases.iter().enumerate() {
        if !gives(alloc, bytes, number) {
            return Some(case);
        }
    }
    None
}

// Drives, and what each is passed on as.
const PASSED_ON: [(&[u8], &[u8]); 6] = [
    (ADDED, ADDED),
    (EMPTY, EMPTY),
    (COPY, COPY),
    (NOTHING, UNCHANGED),
    (
        b"( close-edit ( ) ) ( finish-replay ( ) ) ",
        b"( open-root ( ( ) 2:t0 ) ) ( close-dir ( 2:t0 ) ) ( finish-replay ( ) ) ",
    ),
    (
        b"( open-root ( ( ) 1:r ) ) ( open-file ( 1:f 1:r 1:f ( ) x ) ) ( change-dir-prop ( 1:r 1:p ( 1:v ) ) ) ( close-file ( 1:f ( ) ) ) ( close-dir ( 1:r ) ) ( close-edit ( ) ) ( finish-replay ( ) y ) z) ",
        b"( open-root ( ( ) 2:t0 ) ) ( open-file ( 1:f 2:t0 2:t1 ( ) ) ) ( change-dir-prop ( 2:t0 1:p ( 1:v ) ) ) ( close-file ( 2:t1 ( ) ) ) ( close-dir ( 2:t0 ) ) ( finish-replay ( ) ) ",
    ),
];

#[test]
fn drives_are_received(rt: HostRuntime) {
    for (bytes, wanted) in &PASSED_ON {
        assert!(rt; passes_on(rt.alloc(), bytes, wanted));
    }
}

// The name of a call.
fn name_of(call: &Call) -> &'static str {
    match call {
        Call::Target(_) => "target",
        Call::OpenRoot(_) => "open_root",
        Call::AddDir(..) => "add_dir",
        Call::OpenDir(..) => "open_dir",
        Call::DeleteEntry(..) => "delete_entry",
        Call::AddFile(..) => "add_file",
        Call::OpenFile(..) => "open_file",
        Call::DirProp(..) => "dir_prop",
        Call::FileProp(..) => "file_prop",
        Call::TextStart(_) => "text_start",
        Call::TextPiece(..) => "text_piece",
        Call::TextEnd(_) => "text_end",
        Call::CloseFile(..) => "close_file",
        Call::CloseDir(_) => "close_dir",
        Call::CloseEdit => "close_edit",
    }
}

// Whether calls have these names, with blanks between them.
fn are_named(calls: &[Call], names: &str) -> bool {
    for (call, name) in calls.iter().zip(names.split(' ')) {
        if name_of(call) != name {
            return false;
        }
    }
    calls.len() == names.split(' ').count()
}

// Whether a drive in pieces of a size is received as calls of these names.
fn calls_are(alloc: Global, bytes: &[u8], size: usize, names: &str) -> bool {
    let mut items = items_from(alloc, bytes, size, false);
    match receive(alloc, &mut items, Recorder::new(alloc)) {
        Ok(calls) => are_named(&calls, names),
        Err(_) => false,
    }
}

// Drives, and the names of their calls.
const CALLS: [(&[u8], &str); 3] = [
    (
        ADDED,
        "target open_root add_file text_start text_piece text_end close_file close_dir close_edit",
    ),
    (
        COPY,
        "target open_root add_dir delete_entry close_dir close_dir close_edit",
    ),
    (NOTHING, "target open_root close_dir close_edit"),
];

// The place of the first of these that is received as others, whole or one byte at a time.
fn first_misnamed(alloc: Global) -> Option<usize> {
    for (case, (bytes, names)) in CALLS.iter().enumerate() {
        if !calls_are(alloc, bytes, bytes.len(), *names) || !calls_are(alloc, bytes, 1, *names) {
            return Some(case);
        }
    }
    None
}

#[test]
fn calls_come_in_their_order(rt: HostRuntime) {
    none_is_wrong(&rt, first_misnamed(rt.alloc()));
}

// Drives that name what they may not by a token.
const TOKENS: [&[u8]; 8] = [
    b"( open-root ( ( ) 1:r ) ) ( add-dir ( 1:a 1:r 1:r ( ) ) ) ",
    b"( open-root ( ( ) 1:r ) ) ( add-dir ( 1:a 1:r 1:a ( ) ) ) ( close-dir ( 1:r ) ) ",
    b"( open-root ( ( ) 1:r ) ) ( finish-replay ( ) ) ",
    b"( open-root ( ( ) 1:r ) ) ( close-edit ( ) ) ",
    b"( close-dir ( 1:r ) ) ",
    b"( open-root ( ( ) 1:r ) ) ( change-dir-prop ( 1:s 1:p ( ) ) ) ",
    b"( open-root ( ( ) 1:r ) ) ( textdelta-chunk ( 1:r 0: ) ) ",
    b"( open-root ( ( ) 1:r ) ) ( open-file ( 1:f 1:r 1:f ( ) ) ) ( close-dir ( 1:r ) ) ",
];

#[test]
fn tokens_are_refused(rt: HostRuntime) {
    none_is_wrong(&rt, first_other(rt.alloc(), &TOKENS, 46));
}

// Drives that have no command where one has to be, or one out of its place.
const SHAPES: [&[u8]; 15] = [
    b"",
    b"( target-rev ( 1 ) ) ",
    b"( target-rev ( 1 ) ) ( target-rev ( 1 ) ) ",
    b"( target-rev ( 65536 ) ) ",
    b"( open-root ( ( ) 1:r ) ) ( open-root ( ( ) 1:s ) ) ",
    b"( frob ( ) ) ",
    b"( finish-replay ) ",
    b"word ",
    b"( open-root ( ( ) 1:r ) ) ( delete-entry ( 2:/a ( ) 1:r ) ) ",
    b"( open-root ( ( ) 1:r ) ) ( open-file ( 1:f 1:r 1:f ( ) ) ) ( textdelta-chunk ( 1:f 0: ) ) ",
    b"( open-root ( ( ) 1:r ) ) ( open-file ( 1:f 1:r 1:f ( ) ) ) ( close-file ( 1:f ( 2:00 ) ) ) ",
    b"( close-edit ( ) ) ( close-edit ( ) ) ",
    b"( close-edit ( ) ) ( abort-edit ( ) ) ",
    b"( open-root ( ( ) 1:r ) ) ( target-rev ( 1 ) ) ",
    b"( open-root ( ( ) 1:r ) ) ( open-file ( 1:f 1:r 1:f ( ) ) ) ( textdelta-end ( 1:f ) ) ",
];

// Drives that are cut or hold what is no item, and drives that are given up.
const OTHERS: [(&[u8], u8); 4] = [
    (b"( target-rev ( 1 ) ) ( open-root ", 7),
    (b"( target-rev ( 1 ) ) ) ", 41),
    (b"( abort-edit ( ) ) ", 60),
    (b"( failure ( ( 21 1:x 0: 0 ) ) ) ", 60),
];

// The place of the first of these that doesn't give its number.
fn first_wrong(alloc: Global, cases: &[(&[u8], u8)]) -> Option<usize> {
    for (case, (bytes, number)) in cases.iter().enumerate() {
        if !gives(alloc, bytes, *number) {
            return Some(case);
        }
    }
    None
}

// Whether the first so many bytes of a drive give this.
fn front_gives(alloc: Global, count: usize, number: u8) -> bool {
    gives(alloc, ADDED.get(..count).unwrap_or(b""), number)
}

#[test]
fn shapes_are_refused(rt: HostRuntime) {
    none_is_wrong(&rt, first_other(rt.alloc(), &SHAPES, 48));
    none_is_wrong(&rt, first_wrong(rt.alloc(), &OTHERS));
    assert!(rt; front_gives(rt.alloc(), UNENDED, 48));
    assert!(rt; front_gives(rt.alloc(), ADDED.len().saturating_sub(1), 7));
}

// What stands in front of a file's text.
const OPENED: &[u8] =
    b"( open-root ( ( ) 1:r ) ) ( open-file ( 1:f 1:r 1:f ( ) ) ) ( apply-textdelta ( 1:f ( ) ) ) ";

// Whether a text behind its opening gives this.
fn text_gives(rt: &impl Abort, alloc: Global, text: &[u8], number: u8) -> bool {
    let mut bytes = Vec::from_slice(alloc, OPENED).expect(rt, "memory");
    bytes.extend_from_slice(text).expect(rt, "memory");
    gives(alloc, bytes.as_slice(), number)
}

const TEXTS: [(&[u8], u8); 9] = [
    (b"( textdelta-chunk ( 1:f 4:SVN\x01 ) ) ", 44),
    (b"( textdelta-end ( 1:f ) ) ", 44),
    (
        b"( textdelta-chunk ( 1:f 6:SVN\x00\x00\x01 ) ) ( textdelta-chunk ( 1:f 3:\x01\x01\x01 ) ) ",
        45,
    ),
    (
        b"( textdelta-chunk ( 1:f 9:SVN\x00\x00\x00\x86\xa0\x01 ) ) ( textdelta-chunk ( 1:f 2:\x01\x01 ) ) ",
        8,
    ),
    (b"( close-file ( 1:f ( ) ) ) ", 48),
    (b"( apply-textdelta ( 1:f ( ) ) ) ", 48),
    (
        b"( textdelta-chunk ( 1:f 4:SVN\x00 ) ) ( textdelta-end ( 1:f ) ) ( apply-textdelta ( 1:f ( ) ) ) ",
        48,
    ),
    (
        b"( textdelta-chunk ( 1:f 4:SVN\x00 ) ) ( textdelta-end ( 1:f ) ) ( textdelta-chunk ( 1:f 0: ) ) ",
        48,
    ),
    (
        b"( textdelta-chunk ( 1:f 4:SVN\x00 ) ) ( textdelta-end ( 1:f ) ) ( close-file ( 1:f ( 32:b1946ac92492d2347c6235b4d2611184 ) ) ) ",
        6,
    ),
];

#[test]
fn texts_are_refused(rt: HostRuntime) {
    for (text, number) in &TEXTS {
        assert!(rt; text_gives(&rt, rt.alloc(), text, *number));
    }
}

// Whether a beginning of a drive ends between two items. No string of the drives that are cut has a bracket in it.
fn is_between(front: &[u8]) -> bool {
    let mut open = 0usize;
    for b in front {
        match b {
            b'(' => open = open.saturating_add(1),
            b')' => open = open.saturating_sub(1),
            _ => {}
        }
    }
    open == 0 && (front.is_empty() || front.ends_with(b" "))
}

// Whether a beginning of a drive is refused for its end, behind a beginning of what the drive is passed on as.
fn front_agrees(alloc: Global, bytes: &[u8], front: &[u8]) -> bool {
    let mut written = Vec::new(alloc);
    let number = if is_between(front) { 48 } else { 7 };
    either_way(alloc, front, &mut written) == Some(number) && bytes.starts_with(written.as_slice())
}

// Whether that is so of each.
fn fronts_agree(alloc: Global, bytes: &[u8]) -> bool {
    for end in 0..bytes.len() {
        if !front_agrees(alloc, bytes, bytes.get(..end).unwrap_or(b"")) {
            return false;
        }
    }
    true
}

#[test]
fn a_drive_that_is_cut_is_refused(rt: HostRuntime) {
    assert!(rt; fronts_agree(rt.alloc(), ADDED) && fronts_agree(rt.alloc(), COPY));
}

// Whether a change of one byte gives the same and is passed on the same, whole and one byte at a time.
fn agrees_with(rt: &impl Abort, alloc: Global, bytes: &[u8], at: usize, value: u8) -> bool {
    let mut changed = Vec::from_slice(alloc, bytes).expect(rt, "memory");
    if let Some(place) = changed.get_mut(at) {
        *place = value;
    }
    let mut written = Vec::new(alloc);
    either_way(alloc, &changed, &mut written).is_some()
}

// Whether that is so of each, to any value.
fn changes_agree(rt: &impl Abort, alloc: Global, bytes: &[u8]) -> bool {
    for at in 0..bytes.len() {
        for value in 0..=u8::MAX {
            if !agrees_with(rt, alloc, bytes, at, value) {
                return false;
            }
        }
    }
    true
}

#[test]
fn the_cutting_of_a_text_does_not_matter(rt: HostRuntime) {
    assert!(rt; changes_agree(&rt, rt.alloc(), ADDED));
}

#[test]
fn the_cutting_of_a_copy_does_not_matter(rt: HostRuntime) {
    assert!(rt; changes_agree(&rt, rt.alloc(), COPY));
}

#[test]
fn a_refused_stream_stays_so(rt: HostRuntime) {
    let alloc = rt.alloc();
    let bytes = b"( close-dir ( 1:r ) ) ( finish-replay ( ) ) ";
    let mut items = items_from(alloc, bytes.as_slice(), 5, false);
    let first = receive(alloc, &mut items, Recorder::new(alloc)).err();
    assert!(rt; first == Some(EditFault::BadToken));
    let second = receive(alloc, &mut items, Recorder::new(alloc)).err();
    assert!(rt; second == Some(EditFault::Failed));
}
