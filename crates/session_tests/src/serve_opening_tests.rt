//! An opening that is cut or changed.

use crate::client_sessions::none_is_wrong;
use crate::serve_sessions::{Ended, asking, run};
use crate::served_repos::file_port;
use byte_streams::Output;
use ra_serve::RepoPort;
use std::alloc::Global;
use std::process::Abort;
use std::rt::HostRuntime;

// Whether two sessions ended so with the same answers.
fn are_alike(one: &Ended, other: &Ended) -> bool {
    match (&one.out, &other.out) {
        (Some(out), Some(same)) => one.end == other.end && out.bytes() == same.bytes(),
        _ => false,
    }
}

// Whether bytes lead to the same end and the same answers whole and one at a time.
fn agree<P: RepoPort>(alloc: Global, port: &mut P, sent: &[u8]) -> bool {
    let whole = run(alloc, port, sent, sent.len(), u64::MAX, u64::MAX);
    let single = run(alloc, port, sent, 1, u64::MAX, u64::MAX);
    are_alike(&whole, &single)
}

// Whether they do with the byte at a place changed to this value.
fn agree_changed<P: RepoPort>(
    rt: &impl Abort,
    alloc: Global,
    port: &mut P,
    sent: &[u8],
    at: usize,
    value: u8,
) -> bool {
    let mut changed = Vec::from_slice(alloc, sent).expect(rt, "memory");
    if let Some(place) = changed.get_mut(at) {
        *place = value;
    }
    agree(alloc, port, &changed)
}

// Whether they do with it changed to any, and where they end before it.
fn agree_at<P: RepoPort>(
    rt: &impl Abort,
    alloc: Global,
    port: &mut P,
    sent: &[u8],
    at: usize,
) -> bool {
    for value in 0..=u8::MAX {
        if !agree_changed(rt, alloc, port, sent, at, value) {
            return false;
        }
    }
    agree(alloc, port, sent.get(..at).unwrap_or(b""))
}

// The first place at which they don't.
fn first_apart(rt: &impl Abort, alloc: Global) -> Option<usize> {
    let mut port = file_port(rt, alloc);
    let sent = asking(rt, alloc, b"( get-latest-rev ( ) ) ");
    for at in 0..sent.len() {
        if !agree_at(rt, alloc, &mut port, &sent, at) {
            return Some(at);
        }
    }
    None
}

#[test]
fn a_changed_opening_is_answered_alike(rt: HostRuntime) {
    none_is_wrong(&rt, first_apart(&rt, rt.alloc()));
}
