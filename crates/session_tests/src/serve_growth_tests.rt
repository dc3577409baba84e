// Every growth of this test may be refused: it then answers for what is left, and stays green. `rt try --test
// --fail-alloc N` refuses the growth number N.

use crate::client_sessions::URL;
use crate::serve_failure_tests::begin;
use crate::serve_sessions::{
    AUTHORISED, DONE, GREETING, MECHANISMS, NO_MEMORY, WELCOME, rest_behind,
};
use crate::serve_streams::{Held, items_from};
use byte_streams::{CountedWriter, MemOutput, Output};
use dump_load::{Change, ChangeSet};
use node_base::{Action, NodeKind, NodePath, Props, RevNo, Text};
use ra_serve::{End, HeldRepo, ServeFault, serve};
use repo_core::Repo;
use std::alloc::Global;
use std::rt::HostRuntime;
use uuid::Uuid;

// The file that revision 1 adds, unless a growth is refused.
fn added(alloc: Global) -> Option<Change> {
    let bytes = Vec::from_slice(alloc, b"hello\n").ok()?;
    let text = Text::new(alloc, bytes).ok()?;
    let path = NodePath::parse(alloc, b"a").ok()?;
    Some(Change {
        path,
        action: Action::Add,
        kind: Some(NodeKind::File),
        source: None,
        props: Some(Props::empty()),
        text: Some(text),
    })
}

// The set that adds it.
fn set(alloc: Global) -> Option<ChangeSet> {
    let mut changes = Vec::new(alloc);
    changes.push(added(alloc)?).ok()?;
    ChangeSet::from_changes(changes).ok()
}

// A repository with that revision.
fn repo(alloc: Global, set: ChangeSet) -> Option<Repo> {
    let identity = Uuid::parse_str("6a1f0c3e-0000-4000-8000-000000000001").ok()?;
    let mut repo = Repo::new(alloc, identity).ok()?;
    let committed = repo.commit(alloc, RevNo::ZERO, set, Props::empty(), None);
    if committed.is_ok() { Some(repo) } else { None }
}

// What a client sends.
const SENT: &[u8] = b"( 2 ( edit-pipeline ) 21:svn://127.0.0.1:3690/ ) ( ANONYMOUS ( 0: ) ) \
    ( get-dir ( 0: ( ) true true ) ) ( get-file ( 1:a ( ) true true ) ) \
    ( replay-range ( 0 1 0 true ) ) ( rev-proplist ( 1 ) ) \
    ( change-rev-prop2 ( 1 1:p ( 1:v ) ( true ) ) ) ";

// What each command is answered behind its authorisation, in parts: in the place of one the port may refuse for want of
// memory, and that ends the answer.
const ANSWERS: [&[&[u8]]; 5] = [
    &[b"( success ( 1 ( ) ( ( 1:a file 6 false 1 ( ) ( ) ) ) ) ) "],
    &[FILE],
    &[FIRST, SECOND],
    &[b"( success ( ( ) ) ) "],
    &[DONE],
];

const FILE: &[u8] =
    b"( success ( ( 32:b1946ac92492d2347c6235b4d2611184 ) 1 ( ) ) ) 6:hello\n 0: ( success ( ) ) ";

// Revision 0 of the range, and revision 1 with its end.
const FIRST: &[u8] = b"( revprops ( ) ) ( target-rev ( 0 ) ) ( open-root ( ( ) 2:t0 ) ) \
    ( close-dir ( 2:t0 ) ) ( finish-replay ( ) ) ";

const SECOND: &[u8] = b"( revprops ( ) ) ( target-rev ( 1 ) ) ( open-root ( ( 0 ) 2:t0 ) ) \
    ( add-file ( 1:a 2:t0 2:t1 ( ) ) ) ( apply-textdelta ( 2:t1 ( ) ) ) \
    ( textdelta-chunk ( 2:t1 4:SVN\x00 ) ) \
    ( textdelta-chunk ( 2:t1 12:\x00\x00\x06\x01\x06\x86hello\n ) ) \
    ( textdelta-end ( 2:t1 ) ) ( close-file ( 2:t1 ( 32:b1946ac92492d2347c6235b4d2611184 ) ) ) \
    ( close-dir ( 2:t0 ) ) ( finish-replay ( ) ) ( success ( ) ) ";

// What stands behind an answer, whole or refused for want of memory.
fn behind_answer<'a>(bytes: &'a [u8], parts: &[&[u8]]) -> Option<&'a [u8]> {
    let mut rest = bytes.strip_prefix(AUTHORISED)?;
    for part in parts {
        match rest.strip_prefix(*part) {
            Some(behind) => rest = behind,
            None => return rest.strip_prefix(NO_MEMORY),
        }
    }
    Some(rest)
}

// Whether bytes are a beginning of an answer.
fn begin_answer(bytes: &[u8], parts: &[&[u8]]) -> bool {
    match bytes.strip_prefix(AUTHORISED) {
        Some(rest) => begin(rest, parts),
        None => AUTHORISED.starts_with(bytes),
    }
}

// Whether bytes are the answers to all commands, or only a beginning where that is enough.
fn are_answers(bytes: &[u8], whole: bool) -> bool {
    let mut rest = bytes;
    for parts in &ANSWERS {
        match behind_answer(rest, parts) {
            Some(behind) => rest = behind,
            None => return !whole && begin_answer(rest, parts),
        }
    }
    rest.is_empty()
}

// The same of a whole session.
fn is_session(bytes: &[u8], whole: bool) -> bool {
    let opening: [&[u8]; 3] = [GREETING, MECHANISMS, WELCOME];
    match rest_behind(bytes, &opening) {
        Some(rest) => are_answers(rest, whole),
        None => !whole && begin(bytes, &opening),
    }
}

// How a session ends that is served to a writer into this place.
fn ended_into(
    alloc: Global,
    port: &mut HeldRepo,
    size: usize,
    bytes: &mut Vec<u8>,
) -> Result<End, ServeFault> {
    let mut items = items_from(alloc, SENT, size, u64::MAX);
    let out = CountedWriter::new(Held {
        bytes,
        closed: false,
    });
    match serve(alloc, port, URL, &mut items, out) {
        Ok((_out, end)) => Ok(end),
        Err(unserved) => Err(unserved.fault),
    }
}

// Whether a session is served into a place that doesn't grow, with refusals of the port's or without, or given up at a
// growth that is refused.
fn is_served(alloc: Global, port: &mut HeldRepo, size: usize) -> bool {
    let Ok(mut bytes) = Vec::with_capacity(alloc, 2_048) else {
        return true;
    };
    let ended = ended_into(alloc, port, size, &mut bytes);
    match ended {
        Ok(end) => end == End::Input && is_session(bytes.as_slice(), true),
        Err(fault) => fault == ServeFault::OutOfMemory && is_session(bytes.as_slice(), false),
    }
}

// A port over a repository of one file, where that could be made.
fn port(alloc: Global) -> Option<HeldRepo> {
    let set = set(alloc)?;
    match repo(alloc, set) {
        Some(repo) => Some(HeldRepo::new(alloc, repo, false)),
        None => None,
    }
}

// The same over such a repository.
fn is_served_whole(alloc: Global) -> bool {
    match port(alloc) {
        Some(mut port) => is_served(alloc, &mut port, SENT.len()),
        None => true,
    }
}

#[test]
fn a_repository_is_served(rt: HostRuntime) {
    assert!(rt; is_served_whole(rt.alloc()));
}

// Whether a session is served to an output that grows, or given up at a growth that is refused: the output comes back,
// has a beginning of the answers, and is said to have failed exactly where the growth was its own.
fn is_served_to(alloc: Global, port: &mut HeldRepo) -> bool {
    let mut items = items_from(alloc, SENT, SENT.len(), u64::MAX);
    let out = MemOutput::new(alloc, u64::MAX);
    match serve(alloc, port, URL, &mut items, out) {
        Ok((out, end)) => end == End::Input && is_session(out.bytes(), true),
        Err(unserved) => is_given_up(unserved.fault, &unserved.out),
    }
}

fn is_given_up(fault: ServeFault, out: &Option<MemOutput>) -> bool {
    match out {
        Some(out) => is_told(fault, out.count_failures()) && is_session(out.bytes(), false),
        None => false,
    }
}

// Whether an output that has failed so often is told so.
fn is_told(fault: ServeFault, failures: u64) -> bool {
    if failures > 0 {
        fault == ServeFault::WriteFailed
    } else {
        fault == ServeFault::OutOfMemory
    }
}

// The same over a repository of one file, where that could be made.
fn is_served_to_whole(alloc: Global) -> bool {
    match port(alloc) {
        Some(mut port) => is_served_to(alloc, &mut port),
        None => true,
    }
}

#[test]
fn a_repository_is_served_to_an_output(rt: HostRuntime) {
    assert!(rt; is_served_to_whole(rt.alloc()));
}
