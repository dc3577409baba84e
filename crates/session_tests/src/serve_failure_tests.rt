//! Readers and writers that fail, and answers that go out before more is awaited.

use crate::client_sessions::{SAID, URL, none_is_wrong};
use crate::edits::{BARE, COPIED};
use crate::serve_sessions::{
    AUTHORISED, DONE, Ended, GREETING, MECHANISMS, WELCOME, asking, has_told, run,
};
use crate::serve_streams::{Held, items_from};
use crate::served_repos::{copy_port, file_port};
use byte_streams::CountedWriter;
use ra_item::fault::{ItemFault, NextFault};
use ra_serve::{RepoPort, ServeFault, serve};
use std::alloc::Global;
use std::process::Abort;
use std::rt::HostRuntime;

/// A client that asks for a copy's replay, and all that it is told.
pub(crate) const ASKED: &[u8] = b"( replay-range ( 2 2 0 true ) ) ";

pub(crate) const TOLD: [&[u8]; 7] = [
    GREETING, MECHANISMS, WELCOME, AUTHORISED, BARE, COPIED, DONE,
];

/// Whether bytes are a beginning of these parts.
pub(crate) fn begin(bytes: &[u8], parts: &[&[u8]]) -> bool {
    let mut rest = bytes;
    for part in parts {
        match rest.strip_prefix(*part) {
            Some(behind) => rest = behind,
            None => return part.starts_with(rest),
        }
    }
    rest.is_empty()
}

// Whether a session was refused so, with a beginning of the answers.
fn has_begun(ended: &Ended, fault: ServeFault) -> bool {
    match &ended.out {
        Some(out) => ended.end == Err(fault) && begin(out.bytes(), &TOLD),
        None => false,
    }
}

// Whether a session told all; false where it ended by this, behind a beginning of the answers, and none where it did
// neither.
fn has_told_all(ended: &Ended, fault: ServeFault) -> Option<bool> {
    if ended.end.is_ok() {
        return has_told(ended, ended.end, &TOLD).then_some(true);
    }
    has_begun(ended, fault).then_some(false)
}

// The same of one whose client sends its bytes so many at a time, of whose reads or writes so many pass.
fn tells_all<P: RepoPort>(
    alloc: Global,
    port: &mut P,
    sent: &[u8],
    passing: u64,
    fault: ServeFault,
) -> Option<bool> {
    let (size, reads, writes) = if fault == ServeFault::ReadFailed {
        (1, passing, u64::MAX)
    } else {
        (sent.len(), u64::MAX, passing)
    };
    let ended = run(alloc, port, sent, size, reads, writes);
    has_told_all(&ended, fault)
}

// How many reads, one byte each, or writes have to pass for all to be told; none where fewer don't lead to this and a
// beginning.
fn passes_wanted<P: RepoPort>(
    alloc: Global,
    port: &mut P,
    sent: &[u8],
    fault: ServeFault,
) -> Option<u64> {
    for passing in 0..1_000 {
        if tells_all(alloc, port, sent, passing, fault)? {
            return Some(passing);
        }
    }
    None
}

// The same of the copy's repository, and how many bytes its client sends.
fn copy_wants(rt: &impl Abort, alloc: Global, fault: ServeFault) -> (Option<u64>, u64) {
    let mut port = copy_port(rt, alloc);
    let sent = asking(rt, alloc, ASKED);
    let wanted = passes_wanted(alloc, &mut port, &sent, fault);
    (wanted, sent.len() as u64)
}

#[test]
fn a_reader_that_fails_is_told(rt: HostRuntime) {
    let (wanted, bytes) = copy_wants(&rt, rt.alloc(), ServeFault::ReadFailed);
    // the last read finds the end
    assert!(rt; wanted == bytes.checked_add(1));
}

#[test]
fn a_writer_that_fails_is_told(rt: HostRuntime) {
    let (wanted, _bytes) = copy_wants(&rt, rt.alloc(), ServeFault::WriteFailed);
    // each of the 14 items that are told takes a write or more
    assert!(rt; wanted > Some(13));
}

// How a session ends whose bytes come so many at a time, where so many reads pass and the writer hands on or is closed;
// what it wrote to, and what its stream says behind it.
fn held(
    rt: &impl Abort,
    alloc: Global,
    size: usize,
    reads: u64,
    closed: bool,
    bytes: &mut Vec<u8>,
) -> (Option<ServeFault>, Option<NextFault>) {
    let mut port = file_port(rt, alloc);
    let mut items = items_from(alloc, SAID, size, reads);
    let out = CountedWriter::new(Held { bytes, closed });
    let fault = match serve(alloc, &mut port, URL, &mut items, out) {
        Ok(_) => None,
        Err(unserved) => Some(unserved.fault),
    };
    (fault, items.into_items().next().err())
}

// Whether one whose writer doesn't hand on ends by that, behind the greeting.
fn is_closed(rt: &impl Abort, alloc: Global) -> bool {
    let mut bytes = Vec::new(alloc);
    let (fault, _next) = held(rt, alloc, SAID.len(), u64::MAX, true, &mut bytes);
    fault == Some(ServeFault::WriteFailed) && bytes.as_slice() == GREETING
}

#[test]
fn a_writer_that_does_not_hand_on_is_told(rt: HostRuntime) {
    assert!(rt; is_closed(&rt, rt.alloc()));
}

// What a client sends item by item, and what it is to have been told when the next one is awaited.
const ITEMS: [&[u8]; 5] = [
    b"( 2 ( ) 0: ) ",
    b"( ANONYMOUS ( ) ) ",
    b"( get-latest-rev ( ) ) ",
    b"( frob ( ) ) ",
    b"( rev-prop ( 1 1:p ) ) ",
];

const STEPS: [&[u8]; 6] = [
    GREETING,
    MECHANISMS,
    WELCOME,
    b"( success ( ( ) 0: ) ) ( success ( 1 ) ) ",
    b"( failure ( ( 47 15:unknown command 0: 0 ) ) ) ",
    b"( success ( ( ) 0: ) ) ( success ( ( ) ) ) ",
];

// The first so many items, joined.
fn items(rt: &impl Abort, alloc: Global, count: usize) -> Vec<u8> {
    let mut sent = Vec::new(alloc);
    for item in ITEMS.iter().take(count) {
        sent.extend_from_slice(item).expect(rt, "memory");
    }
    sent
}

// Whether a session whose reader fails behind so many items had told what it is to tell by then, and handed it on.
fn was_told<P: RepoPort>(rt: &impl Abort, alloc: Global, port: &mut P, count: usize) -> bool {
    let sent = items(rt, alloc, count);
    // one read has all of them, and the next one fails
    let ended = run(alloc, port, &sent, sent.len(), 1, u64::MAX);
    match STEPS.get(..count.saturating_add(1)) {
        Some(parts) => has_told(&ended, Err(ServeFault::ReadFailed), parts),
        None => false,
    }
}

// The first number of items behind which the answers weren't handed on when the next item was awaited.
fn first_held_back(rt: &impl Abort, alloc: Global) -> Option<usize> {
    let mut port = file_port(rt, alloc);
    for count in 1..6 {
        if !was_told(rt, alloc, &mut port, count) {
            return Some(count);
        }
    }
    None
}

#[test]
fn answers_go_out_before_more_is_awaited(rt: HostRuntime) {
    none_is_wrong(&rt, first_held_back(&rt, rt.alloc()));
}

// Whether a stream is over behind a session whose reader failed.
fn is_over(rt: &impl Abort, alloc: Global) -> bool {
    let mut bytes = Vec::new(alloc);
    let came = held(rt, alloc, 7, 3, false, &mut bytes);
    came == (
        Some(ServeFault::ReadFailed),
        Some(NextFault::Items(ItemFault::Failed)),
    )
}

#[test]
fn a_stream_is_over_behind_its_failure(rt: HostRuntime) {
    assert!(rt; is_over(&rt, rt.alloc()));
}
