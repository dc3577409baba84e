//! What a server writes, taken by a client.

use crate::client_sessions::{Line, Port, SINGLE, URL, WHOLE, is_said, number_of, open};
use crate::serve_sessions::asking;
use crate::sets::{first, is_next, makes_next, second};
use crate::stores::log;
use byte_streams::{CountedReader, MemOutput};
use dump_load::{Applied, ChangeSet};
use node_base::{Props, RevNo};
use path_tree::Tree;
use ra_client::ClientFault;
use ra_serve::{ClientItems, HeldRepo, serve};
use repo_core::Repo;
use std::alloc::Global;
use std::process::Abort;
use std::rt::HostRuntime;
use uuid::Uuid;

const IDENTITY: &str = "6a1f0c3e-0000-4000-8000-000000000001";

// All that the client asks: the newest revision, each of them, one that isn't there, and properties.
const ASKED: &[u8] =
    b"( get-latest-rev ( ) ) ( replay-range ( 0 0 0 true ) ) ( replay-range ( 1 1 0 true ) ) ( replay-range ( 2 2 0 true ) ) ( rev-proplist ( 9 ) ) ( rev-proplist ( 2 ) ) ";

/// Commits a set with a log.
pub(crate) fn commit(rt: &impl Abort, alloc: Global, repo: &mut Repo, set: ChangeSet) {
    let head = repo.head();
    let _number = repo
        .commit(alloc, head, set, log(rt, alloc, b"hi"), None)
        .expect(rt, "a commit");
}

/// A repository of two revisions.
pub(crate) fn repo(rt: &impl Abort, alloc: Global) -> Repo {
    let identity = Uuid::parse_str(IDENTITY).expect(rt, "an identity");
    let mut repo = Repo::new(alloc, identity).expect(rt, "memory");
    commit(rt, alloc, &mut repo, first(rt, alloc));
    commit(rt, alloc, &mut repo, second(rt, alloc));
    repo
}

/// What a server of it writes in a session in which this is asked.
pub(crate) fn served(rt: &impl Abort, alloc: Global, asked: &[u8]) -> Vec<u8> {
    let mut port = HeldRepo::new(alloc, repo(rt, alloc), false);
    let all = asking(rt, alloc, asked);
    let mut items = ClientItems::new(alloc, CountedReader::new(all.as_slice()));
    let out = MemOutput::new(alloc, u64::MAX);
    match serve(alloc, &mut port, URL, &mut items, out) {
        Ok((out, _)) => Vec::from_slice(alloc, out.bytes()).expect(rt, "memory"),
        Err(_) => rt.abort(),
    }
}

// The changes of a revision, with their tree, and its properties, over as many of these trees as stand before it.
fn fetched(port: &mut Port<'_>, trees: &[Tree], number: u16) -> Option<(Applied, Props)> {
    let before = trees.get(..usize::from(number))?;
    port.fetch(RevNo::new(number), before).ok()
}

// Whether a revision makes its tree, and comes with it.
fn makes(alloc: Global, port: &mut Port<'_>, trees: &[Tree], number: u16, props: usize) -> bool {
    match fetched(port, trees, number) {
        Some((applied, found)) => {
            found.len() == props
                && makes_next(alloc, trees, usize::from(number), &applied.set)
                && is_next(alloc, trees, usize::from(number), &applied.tree)
        }
        None => false,
    }
}

// Whether a client that is told so asks for all of it and is answered.
fn is_told(alloc: Global, trees: &[Tree], bytes: &[u8], line: &Line) -> bool {
    let Ok(mut port) = open(alloc, bytes, line) else {
        return false;
    };
    newest(&mut port) == Some(2)
        && makes(alloc, &mut port, trees, 0, 0)
        && makes(alloc, &mut port, trees, 1, 1)
        && makes(alloc, &mut port, trees, 2, 1)
        && port.fetch_props(RevNo::new(9)).err() == Some(ClientFault::Refused)
        && number_of(port.fetch_props(RevNo::new(2))) == 0
        && is_said(port.into_output().bytes(), ASKED)
}

fn newest(port: &mut Port<'_>) -> Option<u16> {
    match port.latest() {
        Ok(number) => Some(number.get()),
        Err(_) => None,
    }
}

// Whether that is so of what a server writes, which comes so.
fn is_taken(rt: &impl Abort, alloc: Global, line: &Line) -> bool {
    let held = repo(rt, alloc);
    let bytes = served(rt, alloc, ASKED);
    let answer = is_told(alloc, held.trees(), bytes.as_slice(), line);
    drop(held);
    answer
}

#[test]
fn a_client_takes_what_is_served(rt: HostRuntime) {
    let alloc = rt.alloc();
    assert!(rt; is_taken(&rt, alloc, &WHOLE));
    assert!(rt; is_taken(&rt, alloc, &SINGLE));
}
