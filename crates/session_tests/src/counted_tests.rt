//! Sessions over outputs whose failures are counted.

use crate::client_sessions::URL;
use crate::serve_failure_tests::{ASKED, TOLD, begin};
use crate::serve_sessions::{Ended, are, asking, run};
use crate::serve_streams::{Passing, items_from};
use crate::served_repos::{copy_port, file_port};
use byte_streams::{CountedWriter, MemOutput, Output};
use ra_item::fault::NextFault;
use ra_item::item::Item;
use ra_serve::{End, RepoPort, ServeFault, serve};
use std::alloc::Global;
use std::process::Abort;
use std::rt::HostRuntime;

// How a session ended, and whether the output that came back had failed; none where it didn't come back.
type Came = (Result<End, ServeFault>, Option<bool>);

// Serves what a client sends where so many reads pass, to a place of whose calls, writes and flushes, so many do.
fn served_to<P: RepoPort>(
    alloc: Global,
    port: &mut P,
    sent: &[u8],
    reads: u64,
    calls: u64,
    bytes: &mut Vec<u8>,
) -> Came {
    let mut items = items_from(alloc, sent, 1, reads);
    let out = CountedWriter::new(Passing { bytes, left: calls });
    match serve(alloc, port, URL, &mut items, out) {
        Ok((out, end)) => (Ok(end), Some(out.count_failures() > 0)),
        Err(unserved) => (Err(unserved.fault), has_failed(&unserved.out)),
    }
}

fn has_failed<O: Output>(out: &Option<O>) -> Option<bool> {
    match out {
        Some(out) => Some(out.count_failures() > 0),
        None => None,
    }
}

// Whether a session told all; false where it came to this, with a beginning of the answers, and none where it did
// neither.
fn has_told_all(came: Came, refused: Came, bytes: &[u8]) -> Option<bool> {
    if came == (Ok(End::Input), Some(false)) {
        return are(bytes, &TOLD).then_some(true);
    }
    (came == refused && begin(bytes, &TOLD)).then_some(false)
}

// The same of one where so many reads pass, or so many calls of the output, and a later one leads to this fault. An output
// that failed has counted it, and no other has.
fn tells_all<P: RepoPort>(
    alloc: Global,
    port: &mut P,
    sent: &[u8],
    passing: u64,
    fault: ServeFault,
) -> Option<bool> {
    let has_failed = fault == ServeFault::WriteFailed;
    let (reads, calls) = if has_failed {
        (u64::MAX, passing)
    } else {
        (passing, u64::MAX)
    };
    let mut bytes = Vec::new(alloc);
    let came = served_to(alloc, port, sent, reads, calls, &mut bytes);
    has_told_all(came, (Err(fault), Some(has_failed)), bytes.as_slice())
}

// How many reads, or calls of the output, have to pass for all to be told.
fn passes_wanted<P: RepoPort>(
    alloc: Global,
    port: &mut P,
    sent: &[u8],
    fault: ServeFault,
) -> Option<u64> {
    for passing in 0..1_000 {
        if tells_all(alloc, port, sent, passing, fault)? {
            return Some(passing);
        }
    }
    None
}

// The same of the copy's repository, and how many bytes its client sends.
fn copy_wants(rt: &impl Abort, alloc: Global, fault: ServeFault) -> (Option<u64>, u64) {
    let mut port = copy_port(rt, alloc);
    let sent = asking(rt, alloc, ASKED);
    let wanted = passes_wanted(alloc, &mut port, &sent, fault);
    drop(port);
    (wanted, sent.len() as u64)
}

#[test]
fn an_output_that_fails_comes_back(rt: HostRuntime) {
    let (wanted, _bytes) = copy_wants(&rt, rt.alloc(), ServeFault::WriteFailed);
    // each of the 14 items that are told takes a write or more, and four times all is handed on
    assert!(rt; wanted > Some(17));
}

#[test]
fn a_reader_that_fails_is_told(rt: HostRuntime) {
    let (wanted, bytes) = copy_wants(&rt, rt.alloc(), ServeFault::ReadFailed);
    // one read for each byte, and the last one, which finds the end
    assert!(rt; wanted == bytes.checked_add(1));
}

// Commands of several kinds, one that isn't there among them, and bytes that end within an item.
const SEVERAL: &[u8] = b"( get-latest-rev ( ) ) ( get-dir ( 0: ( ) true true ) ) \
    ( get-file ( 1:a ( 1 ) true true ) ) ( frob ( ) ) ( replay-range ( 0 1 0 true ) ) \
    ( change-rev-prop ( 1 7:svn:log 2:ho ) ) ( rev-proplist ( 1 ) ) ( rev-prop ( 1";

// Whether an output in memory has these bytes, all handed on.
fn has(whole: &Ended, bytes: &[u8]) -> bool {
    match &whole.out {
        Some(out) => out.bytes() == bytes && out.handed_on() == bytes.len(),
        None => false,
    }
}

// Whether a session over a writer ends as one over an output in memory did, with the same bytes.
fn ends_as<P: RepoPort>(alloc: Global, port: &mut P, sent: &[u8], whole: &Ended) -> bool {
    let mut bytes = Vec::new(alloc);
    let (end, _failed) = served_to(alloc, port, sent, u64::MAX, u64::MAX, &mut bytes);
    whole.end == end && has(whole, bytes.as_slice())
}

// Whether a session over a writer ends as one over an output in memory does, with the same bytes, all handed on.
fn is_same(rt: &impl Abort, alloc: Global) -> bool {
    let sent = asking(rt, alloc, SEVERAL);
    let mut port = file_port(rt, alloc);
    let whole = run(alloc, &mut port, &sent, sent.len(), u64::MAX, u64::MAX);
    let mut other = file_port(rt, alloc);
    let answer = ends_as(alloc, &mut other, &sent, &whole);
    drop((port, other));
    answer
}

#[test]
fn an_output_gets_what_a_writer_gets(rt: HostRuntime) {
    assert!(rt; is_same(&rt, rt.alloc()));
}

// Whether both items of a client come that has all that it was told, and then the end.
fn both_come(alloc: Global) -> bool {
    let out = MemOutput::new(alloc, 0);
    let mut items = items_from(alloc, b"( a ) ( b ) ", 5, u64::MAX);
    has_come(items.next(&out)) && has_come(items.next(&out)) && has_ended(items.next(&out))
}

fn has_come(answer: Result<Option<Item>, NextFault>) -> bool {
    matches!(answer, Ok(Some(_)))
}

fn has_ended(answer: Result<Option<Item>, NextFault>) -> bool {
    matches!(answer, Ok(None))
}

#[test]
fn items_come_behind_what_is_handed_on(rt: HostRuntime) {
    assert!(rt; both_come(rt.alloc()));
}
