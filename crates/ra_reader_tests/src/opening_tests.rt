//! Openings, and those that a session ends with.

use crate::sessions::{
    GREETING, MECHANISMS, ROOT, WELCOME, none_is_wrong, opening, rest_behind, run,
};
use crate::site::site;
use ra_serve::{End, RepoPort, ServeFault};
use std::alloc::Global;
use std::process::Abort;
use std::rt::HostRuntime;

// Whether a session ended so, and told these parts and no more.
fn has_told<P: RepoPort>(
    alloc: Global,
    port: &mut P,
    sent: &[u8],
    end: End,
    parts: &[&[u8]],
) -> bool {
    let ended = run(alloc, port, sent, sent.len(), u64::MAX);
    let rest = rest_behind(ended.told.as_slice(), parts);
    ended.end == Ok(end) && rest.is_some_and(|rest| rest.is_empty())
}

// What a client says first, and how it is refused: a URL of another scheme, without a host, or whose path is none, an item
// of another shape, another version, and a word.
const REFUSED: [(&[u8], &[u8]); 6] = [
    (
        b"( 2 ( edit-pipeline ) 17:http://host/trunk ) ",
        b"( failure ( ( 10 8:bad path 0: 0 ) ) ) ",
    ),
    (
        b"( 2 ( edit-pipeline ) 9:svn:///a/ ) ",
        b"( failure ( ( 10 8:bad path 0: 0 ) ) ) ",
    ),
    (
        b"( 2 ( edit-pipeline ) 15:svn://host/a//b ) ",
        b"( failure ( ( 10 8:bad path 0: 0 ) ) ) ",
    ),
    (
        b"( 2 ( edit-pipeline ) ) ",
        b"( failure ( ( 48 17:bad command shape 0: 0 ) ) ) ",
    ),
    (
        b"( 1 ( edit-pipeline ) 10:svn://host ) ",
        b"( failure ( ( 48 17:bad command shape 0: 0 ) ) ) ",
    ),
    (
        b"hello ",
        b"( failure ( ( 48 17:bad command shape 0: 0 ) ) ) ",
    ),
];

// The first of these that is told another thing.
fn first_taken(rt: &impl Abort, alloc: Global) -> Option<&'static [u8]> {
    let mut port = site(rt, alloc);
    for row in &REFUSED {
        let parts: [&[u8]; 2] = [GREETING, row.1];
        if !has_told(alloc, &mut port, row.0, End::Opening, &parts) {
            return Some(row.0);
        }
    }
    None
}

#[test]
fn urls_that_are_refused(rt: HostRuntime) {
    none_is_wrong(&rt, first_taken(&rt, rt.alloc()));
}

// A URL whose last name has one byte more than a name may have.
fn long_url(rt: &impl Abort, alloc: Global) -> Vec<u8> {
    let mut url = Vec::from_slice(alloc, b"svn://host/").expect(rt, "memory");
    for _ in 0..256 {
        url.push(b'n').expect(rt, "memory");
    }
    url
}

#[test]
fn a_path_past_a_limit(rt: HostRuntime) {
    let alloc = rt.alloc();
    let mut port = site(&rt, alloc);
    let sent = opening(&rt, alloc, long_url(&rt, alloc).as_slice());
    let told = b"( failure ( ( 8 14:limit exceeded 0: 0 ) ) ) ";
    assert!(rt; has_told(alloc, &mut port, &sent, End::Opening, &[GREETING, told]));
}

// What a client says of itself behind its greeting, how the session ends by it, and what it is told.
const LOGINS: [(&[u8], End, &[u8]); 4] = [
    (
        b"( CRAM-MD5 ( ) ) ",
        End::Opening,
        b"( failure ( 14:only ANONYMOUS ) ) ",
    ),
    (
        b"( 5:alice ) ",
        End::Opening,
        b"( failure ( ( 48 17:bad command shape 0: 0 ) ) ) ",
    ),
    (b"", End::Input, b""),
    (b"( ANONYMOUS ( ) ) ", End::Input, WELCOME),
];

// The first of these that leads elsewhere.
fn first_other(rt: &impl Abort, alloc: Global) -> Option<&'static [u8]> {
    let mut port = site(rt, alloc);
    for (said, end, told) in &LOGINS {
        let hello = b"( 2 ( edit-pipeline ) 20:svn://127.0.0.1:3690 ) ";
        let mut sent = Vec::from_slice(alloc, hello).expect(rt, "memory");
        sent.extend_from_slice(*said).expect(rt, "memory");
        let parts: [&[u8]; 3] = [GREETING, MECHANISMS, *told];
        if !has_told(alloc, &mut port, &sent, *end, &parts) {
            return Some(*said);
        }
    }
    None
}

#[test]
fn who_a_client_is(rt: HostRuntime) {
    none_is_wrong(&rt, first_other(&rt, rt.alloc()));
}

#[test]
fn nothing_is_said(rt: HostRuntime) {
    let alloc = rt.alloc();
    let mut port = site(&rt, alloc);
    assert!(rt; has_told(alloc, &mut port, b"", End::Input, &[GREETING]));
    let sent = opening(&rt, alloc, ROOT);
    let cut = run(alloc, &mut port, &sent, 1, 5);
    assert!(rt; cut.end == Err(ServeFault::ReadFailed));
}
