//! Edits that answer reports of sparse working copies, beside those of Subversion's `svnserve` of version 1.14.2.

use crate::reports::{AUTHORISED, Case, answered};
use crate::site::site;
use ra_serve::RepoPort;
use std::alloc::Global;
use std::process::Abort;
use std::rt::HostRuntime;

const ROOT: &[u8] = b"svn://127.0.0.1:3690";

// The root alone.
const EMPTY: &[u8] =
    b"( target-rev ( 3 ) ) ( open-root ( ( 1 ) 2:t0 ) ) ( change-dir-prop ( 2:t0 23:svn:entry:committed-rev ( \
    1:3 ) ) ) ( change-dir-prop ( 2:t0 24:svn:entry:committed-date ( 27:2020-01-01T00:50:00.023757Z ) ) ) ( \
    change-dir-prop ( 2:t0 21:svn:entry:last-author ( 5:carol ) ) ) ( change-dir-prop ( 2:t0 \
    14:svn:entry:uuid ( 36:6a1f0c3e-0000-4000-8000-0000000000a1 ) ) ) ( close-dir ( 2:t0 ) ) ( close-edit ( \
    ) ) ";

// What is in the root is added.
const DEEPER: &[u8] =
    b"( target-rev ( 3 ) ) ( open-root ( ( 3 ) 2:t0 ) ) ( change-dir-prop ( 2:t0 23:svn:entry:committed-rev ( \
    1:3 ) ) ) ( change-dir-prop ( 2:t0 24:svn:entry:committed-date ( 27:2020-01-01T00:50:00.023757Z ) ) ) ( \
    change-dir-prop ( 2:t0 21:svn:entry:last-author ( 5:carol ) ) ) ( change-dir-prop ( 2:t0 \
    14:svn:entry:uuid ( 36:6a1f0c3e-0000-4000-8000-0000000000a1 ) ) ) ( add-dir ( 4:tags 2:t0 2:t1 ( ) ) ) \
    ( change-dir-prop ( 2:t1 23:svn:entry:committed-rev ( 1:1 ) ) ) ( change-dir-prop ( 2:t1 \
    24:svn:entry:committed-date ( 27:2020-01-01T00:16:40.007919Z ) ) ) ( change-dir-prop ( 2:t1 \
    21:svn:entry:last-author ( 5:alice ) ) ) ( change-dir-prop ( 2:t1 14:svn:entry:uuid ( \
    36:6a1f0c3e-0000-4000-8000-0000000000a1 ) ) ) ( close-dir ( 2:t1 ) ) ( add-dir ( 5:trunk 2:t0 2:t2 ( ) \
    ) ) ( change-dir-prop ( 2:t2 23:svn:entry:committed-rev ( 1:3 ) ) ) ( change-dir-prop ( 2:t2 \
    24:svn:entry:committed-date ( 27:2020-01-01T00:50:00.023757Z ) ) ) ( change-dir-prop ( 2:t2 \
    21:svn:entry:last-author ( 5:carol ) ) ) ( change-dir-prop ( 2:t2 14:svn:entry:uuid ( \
    36:6a1f0c3e-0000-4000-8000-0000000000a1 ) ) ) ( close-dir ( 2:t2 ) ) ( close-dir ( 2:t0 ) ) ( \
    close-edit ( ) ) ";

// What a session at the root asks and reports, and the edit.
const ROWS: [(&[u8], &[u8], &[u8]); 7] = [
    // the folder alone, reported so or wanted so
    (
        b"( update ( ( 3 ) 0: true unknown false false ) )",
        b"( set-path ( 0: 1 false ( ) empty ) ) ",
        EMPTY,
    ),
    (
        b"( update ( ( 3 ) 0: true unknown false false ) )",
        b"( set-path ( 0: 1 false ( ) files ) ) ",
        EMPTY,
    ),
    (
        b"( update ( ( 3 ) 0: true empty false false ) )",
        b"( set-path ( 0: 1 false ( ) infinity ) ) ",
        EMPTY,
    ),
    (
        b"( update ( ( 3 ) 0: false ) )",
        b"( set-path ( 0: 1 false ( ) infinity ) ) ",
        EMPTY,
    ),
    (
        b"( status ( 0: true ( 3 ) files ) )",
        b"( set-path ( 0: 1 false ( ) infinity ) ) ",
        EMPTY,
    ),
    // a folder that is left out
    (
        b"( update ( ( 3 ) 0: true unknown false false ) )",
        b"( set-path ( 0: 1 false ( ) infinity ) ) ( set-path ( 5:trunk 1 false ( ) exclude ) ) ",
        EMPTY,
    ),
    // a folder that is made deeper
    (
        b"( update ( ( 3 ) 0: true immediates false false ) )",
        b"( set-path ( 0: 3 false ( ) empty ) ) ",
        DEEPER,
    ),
];

// Whether a row is answered by its edit.
fn is_edit<P: RepoPort>(alloc: Global, port: &mut P, row: &(&[u8], &[u8], &[u8])) -> bool {
    let case = Case {
        url: ROOT,
        asked: row.0,
        reported: row.1,
    };
    match answered(alloc, port, &case, Vec::new(alloc)) {
        Ok((told, sent)) => sent && told.as_slice().strip_prefix(AUTHORISED) == Some(row.2),
        Err(_) => false,
    }
}

// The first row that isn't answered by its edit.
fn first_wrong<P: RepoPort>(alloc: Global, port: &mut P) -> Option<&'static [u8]> {
    for row in &ROWS {
        if !is_edit(alloc, port, row) {
            return Some(row.1);
        }
    }
    None
}

#[test]
fn updates_of_sparse_copies(rt: HostRuntime) {
    let alloc = rt.alloc();
    let mut port = site(alloc).expect(&rt, "memory");
    if let Some(bytes) = first_wrong(alloc, &mut port) {
        rt.panic(str::from_utf8(bytes).unwrap_or("bytes that are no text"));
    }
}
