//! Sessions from their opening to their end.

use crate::client_sessions::{SAID, URL};
use crate::serve_streams::items_from;
use byte_streams::MemOutput;
use ra_serve::{End, RepoPort, ServeFault, Unserved, serve};
use std::alloc::Global;
use std::process::Abort;

/// What it is answered, piece by piece.
pub(crate) const GREETING: &[u8] = b"( success ( 2 2 ( ) ( edit-pipeline atomic-revprops ) ) ) ";

pub(crate) const MECHANISMS: &[u8] =
    b"( success ( ( ANONYMOUS ) 36:6a1f0c3e-0000-4000-8000-000000000001 ) ) ";

pub(crate) const WELCOME: &[u8] = b"( success ( ) ) \
    ( success ( 36:6a1f0c3e-0000-4000-8000-000000000001 21:svn://127.0.0.1:3690/ ( ) ) ) ";

/// What stands before the answer to a command.
pub(crate) const AUTHORISED: &[u8] = b"( success ( ( ) 0: ) ) ";

/// That all is done.
pub(crate) const DONE: &[u8] = b"( success ( ) ) ";

/// That memory ran out.
pub(crate) const NO_MEMORY: &[u8] = b"( failure ( ( 70 13:out of memory 0: 0 ) ) ) ";

/// A session that has ended: how, and what it wrote to.
#[derive(Drop)]
pub(crate) struct Ended {
    pub(crate) end: Result<End, ServeFault>,
    pub(crate) out: Option<MemOutput>,
}

/// Serves what a client sends, so many bytes at a time, where so many reads and so many writes pass.
pub(crate) fn run<P: RepoPort>(
    alloc: Global,
    port: &mut P,
    sent: &[u8],
    size: usize,
    reads: u64,
    writes: u64,
) -> Ended {
    let mut items = items_from(alloc, sent, size, reads);
    let out = MemOutput::new(alloc, writes);
    match serve(alloc, port, URL, &mut items, out) {
        Ok((out, end)) => Ended {
            end: Ok(end),
            out: Some(out),
        },
        Err(Unserved { fault, out }) => Ended {
            end: Err(fault),
            out,
        },
    }
}

/// Whether bytes are these parts, one behind another.
pub(crate) fn are(bytes: &[u8], parts: &[&[u8]]) -> bool {
    match rest_behind(bytes, parts) {
        Some(rest) => rest.is_empty(),
        None => false,
    }
}

/// What stands behind these parts.
pub(crate) fn rest_behind<'a>(bytes: &'a [u8], parts: &[&[u8]]) -> Option<&'a [u8]> {
    let mut rest = bytes;
    for part in parts {
        rest = rest.strip_prefix(*part)?;
    }
    Some(rest)
}

/// Whether a session ended so, and wrote these parts and handed them on.
pub(crate) fn has_told(ended: &Ended, end: Result<End, ServeFault>, parts: &[&[u8]]) -> bool {
    match &ended.out {
        Some(out) => {
            ended.end == end && are(out.bytes(), parts) && out.handed_on() == out.bytes().len()
        }
        None => false,
    }
}

/// What a client sends that asks this.
pub(crate) fn asking(rt: &impl Abort, alloc: Global, asked: &[u8]) -> Vec<u8> {
    let mut sent = Vec::from_slice(alloc, SAID).expect(rt, "memory");
    sent.extend_from_slice(asked).expect(rt, "memory");
    sent
}

// Whether a client that sends its bytes so many at a time is answered so in the end.
fn is_told<P: RepoPort>(
    alloc: Global,
    port: &mut P,
    sent: &[u8],
    size: usize,
    answer: &[&[u8]],
) -> bool {
    let ended = run(alloc, port, sent, size, u64::MAX, u64::MAX);
    has_opened(&ended, answer)
}

// Whether a session ended with its input, and behind its opening told this.
fn has_opened(ended: &Ended, answer: &[&[u8]]) -> bool {
    match &ended.out {
        Some(out) => {
            ended.end == Ok(End::Input)
                && match rest_behind(out.bytes(), &[GREETING, MECHANISMS, WELCOME]) {
                    Some(rest) => are(rest, answer),
                    None => false,
                }
        }
        None => false,
    }
}

/// Whether commands are answered so, whole and one byte at a time.
pub(crate) fn is_answered<P: RepoPort>(
    rt: &impl Abort,
    alloc: Global,
    port: &mut P,
    asked: &[u8],
    answer: &[&[u8]],
) -> bool {
    let sent = asking(rt, alloc, asked);
    is_told(alloc, port, &sent, sent.len(), answer) && is_told(alloc, port, &sent, 1, answer)
}

/// Ends the test where a port doesn't answer this by these parts.
pub(crate) fn answers<P: RepoPort + Drop>(
    rt: &impl Abort,
    alloc: Global,
    port: P,
    asked: &[u8],
    parts: &[&[u8]],
) {
    let mut port = port;
    assert!(rt; is_answered(rt, alloc, &mut port, asked, parts));
}
