//! Readers and writers that fail within an answer.

use crate::client_sessions::{BROKEN, Line, OPENED, number_of, open, told};
use crate::sets::history;
use node_base::RevNo;
use path_tree::Tree;
use std::alloc::Global;
use std::process::Abort;
use std::rt::HostRuntime;

// Revision 2, which copies a directory without one of its files.
const COPIED: &[u8] =
    b"( success ( ( ) 0: ) ) ( revprops ( ) ) ( target-rev ( 2 ) ) ( open-root ( ( 1 ) 2:t0 ) ) ( add-dir ( 1:b 2:t0 2:t1 ( 2:/t 1 ) ) ) ( delete-entry ( 3:b/x ( 1 ) 2:t1 ) ) ( close-dir ( 2:t1 ) ) ( close-dir ( 2:t0 ) ) ( finish-replay ( ) ) ( success ( ) ) ";

// What a fetch of revision 2 is refused for over these bytes.
fn fetched(alloc: Global, trees: &[Tree], bytes: &[u8], line: &Line) -> Option<u8> {
    let before = trees.get(..2)?;
    let mut port = open(alloc, bytes, line).ok()?;
    Some(number_of(port.fetch(RevNo::new(2), before)))
}

// Whether a reader that fails behind any byte of the answer is told.
fn all_break(alloc: Global, trees: &[Tree], bytes: &[u8]) -> bool {
    for end in OPENED.len()..bytes.len() {
        let front = bytes.get(..end).unwrap_or(b"");
        if fetched(alloc, trees, front, &BROKEN) != Some(49) {
            return false;
        }
    }
    fetched(alloc, trees, bytes, &BROKEN) == Some(0)
}

// What a fetch is refused for where so many writes pass; none where the opening is.
fn passing(alloc: Global, trees: &[Tree], bytes: &[u8], passing: u64) -> Option<u8> {
    let line = Line {
        size: 4_096,
        breaks: false,
        passing,
    };
    fetched(alloc, trees, bytes, &line)
}

// Whether a writer that fails in the command is told, wherever in it, and one that doesn't isn't.
fn all_fail(alloc: Global, trees: &[Tree], bytes: &[u8]) -> bool {
    let mut told = false;
    for writes in 0..200u64 {
        match passing(alloc, trees, bytes, writes) {
            None => {}
            Some(49) => told = true,
            Some(number) => return number == 0 && told,
        }
    }
    false
}

// What a stream is that fails.
#[derive(Clone, Copy)]
enum Failing {
    Reader,
    Writer,
}

// Whether that is so of the answer that copies.
fn is_told(rt: &impl Abort, alloc: Global, failing: Failing) -> bool {
    let trees = history(rt, alloc);
    let bytes = told(rt, alloc, COPIED);
    match failing {
        Failing::Reader => all_break(alloc, &trees, bytes.as_slice()),
        Failing::Writer => all_fail(alloc, &trees, bytes.as_slice()),
    }
}

#[test]
fn a_reader_that_fails_is_told(rt: HostRuntime) {
    assert!(rt; is_told(&rt, rt.alloc(), Failing::Reader));
}

#[test]
fn a_writer_that_fails_is_told(rt: HostRuntime) {
    assert!(rt; is_told(&rt, rt.alloc(), Failing::Writer));
}
