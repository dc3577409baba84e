//! Edits that answer reports.

use crate::reports::{AUTHORISED, Case, answered};
use crate::site::site;
use ra_serve::RepoPort;
use ra_update_tests::edits::{BACK, FORWARD, FRESH, ONE_FORWARD, SAME, SWITCH};
use std::alloc::Global;
use std::process::Abort;
use std::rt::HostRuntime;

const ROOT: &[u8] = b"svn://127.0.0.1:3690";

// What a session at the root asks and reports, and a letter for the edit.
const ROWS: [(&[u8], &[u8], u8); 13] = [
    // a checkout
    (
        b"( update ( ( 3 ) 0: true unknown false false ) )",
        b"( set-path ( 0: 3 true ( ) infinity ) ) ",
        b'n',
    ),
    // a checkout of the newest revision
    (
        b"( update ( ( ) 0: true infinity false false ) )",
        b"( set-path ( 0: 3 true ) ) ",
        b'n',
    ),
    // all entries are missing
    (
        b"( update ( ( 3 ) 0: true ) )",
        b"( set-path ( 0: 3 false ) ) ( delete-path ( 4:tags ) ) ( delete-path ( 5:trunk ) ) ",
        b'n',
    ),
    (
        b"( update ( ( 3 ) 0: true unknown false false ) )",
        b"( set-path ( 0: 3 false ( ) infinity ) ) ",
        b's',
    ),
    // entries that were there are set, and one is linked
    (
        b"( update ( ( 3 ) 0: true ) )",
        b"( set-path ( 0: 3 true ) ) ( set-path ( 4:tags 3 false ) ) ( link-path ( 5:trunk 26:svn://127.0.0.1:3690/trunk 3 false ) ) ",
        b's',
    ),
    (
        b"( update ( ( 3 ) 0: true ) )",
        b"( set-path ( 0: 1 false ) ) ",
        b'f',
    ),
    // a folder that is of an earlier revision than what is in it, and then not
    (
        b"( update ( ( 3 ) 0: true ) )",
        b"( set-path ( 0: 1 false ) ) ( set-path ( 5:trunk 3 false ) ) ( set-path ( 5:trunk 1 false ) ) ",
        b'f',
    ),
    // what is below a path that is set again counts no more
    (
        b"( update ( ( 3 ) 0: true ) )",
        b"( set-path ( 0: 1 false ) ) ( delete-path ( 9:trunk/lib ) ) ( set-path ( 5:trunk 1 false ) ) ",
        b'f',
    ),
    (
        b"( diff ( ( 3 ) 0: true false 20:svn://127.0.0.1:3690 true infinity ) )",
        b"( set-path ( 0: 1 false ) ) ",
        b'f',
    ),
    (
        b"( status ( 0: true ( 3 ) infinity ) )",
        b"( set-path ( 0: 1 false ) ) ",
        b'f',
    ),
    (
        b"( update ( ( 1 ) 0: true ) )",
        b"( set-path ( 0: 3 false ) ) ",
        b'b',
    ),
    (
        b"( switch ( ( 1 ) 0: true 20:svn://127.0.0.1:3690 infinity ) )",
        b"( set-path ( 0: 3 false ) ) ",
        b'b',
    ),
    (
        b"( update ( ( 2 ) 0: true ) )",
        b"( set-path ( 0: 1 false ) ) ",
        b'o',
    ),
];

// The edit of a letter.
fn edit_of(letter: u8) -> &'static [u8] {
    match letter {
        b'n' => FRESH,
        b's' => SAME,
        b'f' => FORWARD,
        b'o' => ONE_FORWARD,
        _ => BACK,
    }
}

// Whether a case is answered by an edit.
fn is_edit<P: RepoPort>(alloc: Global, port: &mut P, case: &Case<'_>, edit: &[u8]) -> bool {
    match answered(alloc, port, case, Vec::new(alloc)) {
        Ok((told, sent)) => sent && told.as_slice().strip_prefix(AUTHORISED) == Some(edit),
        Err(_) => false,
    }
}

// The first row that isn't answered by its edit.
fn first_wrong<P: RepoPort>(alloc: Global, port: &mut P) -> Option<&'static [u8]> {
    for row in &ROWS {
        let case = Case {
            url: ROOT,
            asked: row.0,
            reported: row.1,
        };
        if !is_edit(alloc, port, &case, edit_of(row.2)) {
            return Some(row.1);
        }
    }
    None
}

#[test]
fn updates_and_what_is_like_them(rt: HostRuntime) {
    let alloc = rt.alloc();
    let mut port = site(alloc).expect(&rt, "memory");
    if let Some(bytes) = first_wrong(alloc, &mut port) {
        rt.panic(str::from_utf8(bytes).unwrap_or("bytes that are no text"));
    }
}

#[test]
fn a_switch_to_another_place(rt: HostRuntime) {
    let alloc = rt.alloc();
    let mut port = site(alloc).expect(&rt, "memory");
    let case = Case {
        url: b"svn://127.0.0.1:3690/tags",
        asked: b"( switch ( ( 3 ) 0: true 26:svn://127.0.0.1:3690/trunk ) )",
        reported: b"( set-path ( 0: 1 false ) ) ",
    };
    assert!(rt; is_edit(alloc, &mut port, &case, SWITCH));
}
