//! Edits that answer reports in which something is switched, beside those of Subversion's `svnserve` of version 1.14.2: its
//! calls with texts written whole.

use crate::reports::{AUTHORISED, Case, answered};
use crate::site::site;
use ra_serve::RepoPort;
use std::alloc::Global;
use std::process::Abort;
use std::rt::HostRuntime;

// A switched folder goes on at its own place.
const FOLLOWED: &[u8] =
    b"( target-rev ( 3 ) ) ( open-root ( ( 3 ) 2:t0 ) ) ( change-dir-prop ( 2:t0 23:svn:entry:committed-rev ( \
    1:1 ) ) ) ( change-dir-prop ( 2:t0 24:svn:entry:committed-date ( 27:2020-01-01T00:16:40.007919Z ) ) \
    ) ( change-dir-prop ( 2:t0 21:svn:entry:last-author ( 5:alice ) ) ) ( change-dir-prop ( 2:t0 \
    14:svn:entry:uuid ( 36:6a1f0c3e-0000-4000-8000-0000000000a1 ) ) ) ( open-dir ( 1:x 2:t0 2:t1 ( 3 ) ) \
    ) ( change-dir-prop ( 2:t1 23:svn:entry:committed-rev ( 1:3 ) ) ) ( change-dir-prop ( 2:t1 \
    24:svn:entry:committed-date ( 27:2020-01-01T00:50:00.023757Z ) ) ) ( change-dir-prop ( 2:t1 \
    21:svn:entry:last-author ( 5:carol ) ) ) ( change-dir-prop ( 2:t1 14:svn:entry:uuid ( \
    36:6a1f0c3e-0000-4000-8000-0000000000a1 ) ) ) ( change-dir-prop ( 2:t1 10:custom:dir ( ) ) ) ( \
    delete-entry ( 5:x/lib ( 3 ) 2:t1 ) ) ( add-file ( 5:x/lib 2:t1 2:t2 ( ) ) ) ( change-file-prop ( \
    2:t2 23:svn:entry:committed-rev ( 1:3 ) ) ) ( change-file-prop ( 2:t2 24:svn:entry:committed-date ( \
    27:2020-01-01T00:50:00.023757Z ) ) ) ( change-file-prop ( 2:t2 21:svn:entry:last-author ( 5:carol ) \
    ) ) ( change-file-prop ( 2:t2 14:svn:entry:uuid ( 36:6a1f0c3e-0000-4000-8000-0000000000a1 ) ) ) ( \
    apply-textdelta ( 2:t2 ( ) ) ) ( textdelta-chunk ( 2:t2 4:SVN\0 ) ) ( textdelta-chunk ( 2:t2 \
    17:\0\0\x0b\x01\x0b\x8bnow a file\n ) ) ( textdelta-end ( 2:t2 ) ) ( close-file ( 2:t2 ( \
    32:b3eb1a8045bed57b2d54b64a1c10e265 ) ) ) ( add-dir ( 5:x/new 2:t1 2:t3 ( ) ) ) ( change-dir-prop ( \
    2:t3 23:svn:entry:committed-rev ( 1:3 ) ) ) ( change-dir-prop ( 2:t3 24:svn:entry:committed-date ( \
    27:2020-01-01T00:50:00.023757Z ) ) ) ( change-dir-prop ( 2:t3 21:svn:entry:last-author ( 5:carol ) ) \
    ) ( change-dir-prop ( 2:t3 14:svn:entry:uuid ( 36:6a1f0c3e-0000-4000-8000-0000000000a1 ) ) ) ( \
    change-dir-prop ( 2:t3 10:custom:new ( 3:yes ) ) ) ( add-file ( 7:x/new/f 2:t3 2:t4 ( ) ) ) ( \
    change-file-prop ( 2:t4 23:svn:entry:committed-rev ( 1:3 ) ) ) ( change-file-prop ( 2:t4 \
    24:svn:entry:committed-date ( 27:2020-01-01T00:50:00.023757Z ) ) ) ( change-file-prop ( 2:t4 \
    21:svn:entry:last-author ( 5:carol ) ) ) ( change-file-prop ( 2:t4 14:svn:entry:uuid ( \
    36:6a1f0c3e-0000-4000-8000-0000000000a1 ) ) ) ( apply-textdelta ( 2:t4 ( ) ) ) ( textdelta-chunk ( \
    2:t4 4:SVN\0 ) ) ( textdelta-end ( 2:t4 ) ) ( close-file ( 2:t4 ( \
    32:d41d8cd98f00b204e9800998ecf8427e ) ) ) ( close-dir ( 2:t3 ) ) ( close-dir ( 2:t1 ) ) ( close-dir \
    ( 2:t0 ) ) ( close-edit ( ) ) ";

// What is in one lies there too.
const BELOW: &[u8] =
    b"( target-rev ( 3 ) ) ( open-root ( ( 3 ) 2:t0 ) ) ( change-dir-prop ( 2:t0 23:svn:entry:committed-rev ( \
    1:1 ) ) ) ( change-dir-prop ( 2:t0 24:svn:entry:committed-date ( 27:2020-01-01T00:16:40.007919Z ) ) \
    ) ( change-dir-prop ( 2:t0 21:svn:entry:last-author ( 5:alice ) ) ) ( change-dir-prop ( 2:t0 \
    14:svn:entry:uuid ( 36:6a1f0c3e-0000-4000-8000-0000000000a1 ) ) ) ( open-dir ( 1:x 2:t0 2:t1 ( 3 ) ) \
    ) ( change-dir-prop ( 2:t1 23:svn:entry:committed-rev ( 1:3 ) ) ) ( change-dir-prop ( 2:t1 \
    24:svn:entry:committed-date ( 27:2020-01-01T00:50:00.023757Z ) ) ) ( change-dir-prop ( 2:t1 \
    21:svn:entry:last-author ( 5:carol ) ) ) ( change-dir-prop ( 2:t1 14:svn:entry:uuid ( \
    36:6a1f0c3e-0000-4000-8000-0000000000a1 ) ) ) ( delete-entry ( 5:x/lib ( 3 ) 2:t1 ) ) ( add-file ( \
    5:x/lib 2:t1 2:t2 ( ) ) ) ( change-file-prop ( 2:t2 23:svn:entry:committed-rev ( 1:3 ) ) ) ( \
    change-file-prop ( 2:t2 24:svn:entry:committed-date ( 27:2020-01-01T00:50:00.023757Z ) ) ) ( \
    change-file-prop ( 2:t2 21:svn:entry:last-author ( 5:carol ) ) ) ( change-file-prop ( 2:t2 \
    14:svn:entry:uuid ( 36:6a1f0c3e-0000-4000-8000-0000000000a1 ) ) ) ( apply-textdelta ( 2:t2 ( ) ) ) ( \
    textdelta-chunk ( 2:t2 4:SVN\0 ) ) ( textdelta-chunk ( 2:t2 17:\0\0\x0b\x01\x0b\x8bnow a file\n ) ) \
    ( textdelta-end ( 2:t2 ) ) ( close-file ( 2:t2 ( 32:b3eb1a8045bed57b2d54b64a1c10e265 ) ) ) ( \
    close-dir ( 2:t1 ) ) ( close-dir ( 2:t0 ) ) ( close-edit ( ) ) ";

// Nothing is at its place any more.
const GONE: &[u8] =
    b"( target-rev ( 1 ) ) ( open-root ( ( 3 ) 2:t0 ) ) ( change-dir-prop ( 2:t0 23:svn:entry:committed-rev ( \
    1:1 ) ) ) ( change-dir-prop ( 2:t0 24:svn:entry:committed-date ( 27:2020-01-01T00:16:40.007919Z ) ) \
    ) ( change-dir-prop ( 2:t0 21:svn:entry:last-author ( 5:alice ) ) ) ( change-dir-prop ( 2:t0 \
    14:svn:entry:uuid ( 36:6a1f0c3e-0000-4000-8000-0000000000a1 ) ) ) ( delete-entry ( 1:x ( 3 ) 2:t0 ) \
    ) ( close-dir ( 2:t0 ) ) ( close-edit ( ) ) ";

// A command with a URL wants what is below that.
const LEFT: &[u8] =
    b"( target-rev ( 3 ) ) ( open-root ( ( 3 ) 2:t0 ) ) ( change-dir-prop ( 2:t0 23:svn:entry:committed-rev ( \
    1:1 ) ) ) ( change-dir-prop ( 2:t0 24:svn:entry:committed-date ( 27:2020-01-01T00:16:40.007919Z ) ) \
    ) ( change-dir-prop ( 2:t0 21:svn:entry:last-author ( 5:alice ) ) ) ( change-dir-prop ( 2:t0 \
    14:svn:entry:uuid ( 36:6a1f0c3e-0000-4000-8000-0000000000a1 ) ) ) ( delete-entry ( 1:x ( 3 ) 2:t0 ) \
    ) ( close-dir ( 2:t0 ) ) ( close-edit ( ) ) ";

// A switched target.
const SAME: &[u8] =
    b"( target-rev ( 3 ) ) ( open-root ( ( 3 ) 2:t0 ) ) ( close-dir ( 2:t0 ) ) ( close-edit ( ) ) ";

// Where a session stands, what it asks and reports, and the edit.
const ROWS: [(&[u8], &[u8], &[u8], &[u8]); 5] = [
    (
        b"svn://h/tags",
        b"( update ( ( 3 ) 0: true unknown false false ) )",
        b"( set-path ( 0: 3 false ( ) infinity ) ) ( link-path ( 1:x 13:svn://h/trunk 2 false ( ) infinity ) ) ",
        FOLLOWED,
    ),
    (
        b"svn://h/tags",
        b"( status ( 0: true ( 3 ) unknown ) )",
        b"( set-path ( 0: 3 false ( ) infinity ) ) ( link-path ( 1:x 13:svn://h/trunk 3 false ( ) infinity ) ) ( set-path ( 5:x/lib 2 false ( ) infinity ) ) ",
        BELOW,
    ),
    (
        b"svn://h/tags",
        b"( update ( ( 1 ) 0: true unknown false false ) )",
        b"( set-path ( 0: 3 false ( ) infinity ) ) ( link-path ( 1:x 17:svn://h/trunk/new 3 false ( ) infinity ) ) ",
        GONE,
    ),
    (
        b"svn://h/tags",
        b"( switch ( ( 3 ) 0: true 12:svn://h/tags unknown false true ) )",
        b"( set-path ( 0: 3 false ( ) infinity ) ) ( link-path ( 1:x 17:svn://h/trunk/new 3 false ( ) infinity ) ) ",
        LEFT,
    ),
    (
        b"svn://h",
        b"( update ( ( 3 ) 4:tags true unknown false false ) )",
        b"( set-path ( 0: 3 false ( ) infinity ) ) ( link-path ( 0: 17:svn://h/trunk/new 3 false ( ) infinity ) ) ",
        SAME,
    ),
];

// Whether a case is answered by an edit.
fn is_edit<P: RepoPort>(alloc: Global, port: &mut P, case: &Case<'_>, edit: &[u8]) -> bool {
    match answered(alloc, port, case, Vec::new(alloc)) {
        Ok((told, sent)) => sent && told.as_slice().strip_prefix(AUTHORISED) == Some(edit),
        Err(_) => false,
    }
}

// The first row that isn't answered by its edit.
fn first_wrong<P: RepoPort>(alloc: Global, port: &mut P) -> Option<&'static [u8]> {
    for row in &ROWS {
        let case = Case {
            url: row.0,
            asked: row.1,
            reported: row.2,
        };
        if !is_edit(alloc, port, &case, row.3) {
            return Some(row.1);
        }
    }
    None
}

#[test]
fn what_is_told_of_what_is_switched(rt: HostRuntime) {
    let alloc = rt.alloc();
    let mut port = site(alloc).expect(&rt, "memory");
    if let Some(bytes) = first_wrong(alloc, &mut port) {
        rt.panic(str::from_utf8(bytes).unwrap_or("bytes that are no text"));
    }
}
