//! Edits that answer reports of one name, beside those of Subversion's `svnserve` of version 1.14.2: its calls with texts
//! written whole.

use crate::reports::{AUTHORISED, Case, answered};
use crate::site::site;
use ra_serve::RepoPort;
use std::alloc::Global;
use std::process::Abort;
use std::rt::HostRuntime;

// A folder that becomes a file.
const REPLACED: &[u8] =
    b"( target-rev ( 3 ) ) ( open-root ( ( 1 ) 2:t0 ) ) ( delete-entry ( 3:lib ( 1 ) 2:t0 ) ) ( add-file ( \
    3:lib 2:t0 2:t1 ( ) ) ) ( change-file-prop ( 2:t1 23:svn:entry:committed-rev ( 1:3 ) ) ) ( \
    change-file-prop ( 2:t1 24:svn:entry:committed-date ( 27:2020-01-01T00:50:00.023757Z ) ) ) ( \
    change-file-prop ( 2:t1 21:svn:entry:last-author ( 5:carol ) ) ) ( change-file-prop ( 2:t1 \
    14:svn:entry:uuid ( 36:6a1f0c3e-0000-4000-8000-0000000000a1 ) ) ) ( apply-textdelta ( 2:t1 ( ) ) ) ( \
    textdelta-chunk ( 2:t1 4:SVN\0 ) ) ( textdelta-chunk ( 2:t1 17:\0\0\x0b\x01\x0b\x8bnow a file\n ) ) ( \
    textdelta-end ( 2:t1 ) ) ( close-file ( 2:t1 ( 32:b3eb1a8045bed57b2d54b64a1c10e265 ) ) ) ( close-dir ( \
    2:t0 ) ) ( close-edit ( ) ) ";

// A folder that isn't there any more.
const GONE: &[u8] =
    b"( target-rev ( 1 ) ) ( open-root ( ( 3 ) 2:t0 ) ) ( delete-entry ( 3:new ( 3 ) 2:t0 ) ) ( close-dir ( \
    2:t0 ) ) ( close-edit ( ) ) ";

const SAME: &[u8] =
    b"( target-rev ( 3 ) ) ( open-root ( ( 3 ) 2:t0 ) ) ( close-dir ( 2:t0 ) ) ( close-edit ( ) ) ";

// A folder with an entry of an earlier revision, and one that is missing.
const MIXED: &[u8] =
    b"( target-rev ( 3 ) ) ( open-root ( ( 3 ) 2:t0 ) ) ( open-dir ( 5:trunk 2:t0 2:t1 ( 3 ) ) ) ( \
    change-dir-prop ( 2:t1 23:svn:entry:committed-rev ( 1:3 ) ) ) ( change-dir-prop ( 2:t1 \
    24:svn:entry:committed-date ( 27:2020-01-01T00:50:00.023757Z ) ) ) ( change-dir-prop ( 2:t1 \
    21:svn:entry:last-author ( 5:carol ) ) ) ( change-dir-prop ( 2:t1 14:svn:entry:uuid ( \
    36:6a1f0c3e-0000-4000-8000-0000000000a1 ) ) ) ( delete-entry ( 9:trunk/lib ( 3 ) 2:t1 ) ) ( add-file ( \
    9:trunk/lib 2:t1 2:t2 ( ) ) ) ( change-file-prop ( 2:t2 23:svn:entry:committed-rev ( 1:3 ) ) ) ( \
    change-file-prop ( 2:t2 24:svn:entry:committed-date ( 27:2020-01-01T00:50:00.023757Z ) ) ) ( \
    change-file-prop ( 2:t2 21:svn:entry:last-author ( 5:carol ) ) ) ( change-file-prop ( 2:t2 \
    14:svn:entry:uuid ( 36:6a1f0c3e-0000-4000-8000-0000000000a1 ) ) ) ( apply-textdelta ( 2:t2 ( ) ) ) ( \
    textdelta-chunk ( 2:t2 4:SVN\0 ) ) ( textdelta-chunk ( 2:t2 17:\0\0\x0b\x01\x0b\x8bnow a file\n ) ) ( \
    textdelta-end ( 2:t2 ) ) ( close-file ( 2:t2 ( 32:b3eb1a8045bed57b2d54b64a1c10e265 ) ) ) ( open-dir ( \
    9:trunk/new 2:t1 2:t3 ( 3 ) ) ) ( change-dir-prop ( 2:t3 23:svn:entry:committed-rev ( 1:3 ) ) ) ( \
    change-dir-prop ( 2:t3 24:svn:entry:committed-date ( 27:2020-01-01T00:50:00.023757Z ) ) ) ( \
    change-dir-prop ( 2:t3 21:svn:entry:last-author ( 5:carol ) ) ) ( change-dir-prop ( 2:t3 \
    14:svn:entry:uuid ( 36:6a1f0c3e-0000-4000-8000-0000000000a1 ) ) ) ( add-file ( 11:trunk/new/f 2:t3 2:t4 \
    ( ) ) ) ( change-file-prop ( 2:t4 23:svn:entry:committed-rev ( 1:3 ) ) ) ( change-file-prop ( 2:t4 \
    24:svn:entry:committed-date ( 27:2020-01-01T00:50:00.023757Z ) ) ) ( change-file-prop ( 2:t4 \
    21:svn:entry:last-author ( 5:carol ) ) ) ( change-file-prop ( 2:t4 14:svn:entry:uuid ( \
    36:6a1f0c3e-0000-4000-8000-0000000000a1 ) ) ) ( apply-textdelta ( 2:t4 ( ) ) ) ( textdelta-chunk ( 2:t4 \
    4:SVN\0 ) ) ( textdelta-end ( 2:t4 ) ) ( close-file ( 2:t4 ( 32:d41d8cd98f00b204e9800998ecf8427e ) ) ) ( \
    close-dir ( 2:t3 ) ) ( close-dir ( 2:t1 ) ) ( close-dir ( 2:t0 ) ) ( close-edit ( ) ) ";

// A file that isn't there yet.
const ADDED: &[u8] =
    b"( target-rev ( 1 ) ) ( open-root ( ( 0 ) 2:t0 ) ) ( add-file ( 1:b 2:t0 2:t1 ( ) ) ) ( change-file-prop ( \
    2:t1 23:svn:entry:committed-rev ( 1:1 ) ) ) ( change-file-prop ( 2:t1 24:svn:entry:committed-date ( \
    27:2020-01-01T00:16:40.007919Z ) ) ) ( change-file-prop ( 2:t1 21:svn:entry:last-author ( 5:alice ) ) ) ( \
    change-file-prop ( 2:t1 14:svn:entry:uuid ( 36:6a1f0c3e-0000-4000-8000-0000000000a1 ) ) ) ( \
    apply-textdelta ( 2:t1 ( ) ) ) ( textdelta-chunk ( 2:t1 4:SVN\0 ) ) ( textdelta-chunk ( 2:t1 \
    12:\0\0\x06\x01\x06\x86hello\n ) ) ( textdelta-end ( 2:t1 ) ) ( close-file ( 2:t1 ( \
    32:b1946ac92492d2347c6235b4d2611184 ) ) ) ( close-dir ( 2:t0 ) ) ( close-edit ( ) ) ";

// The same where the folder is there.
const ADDED_BEHIND: &[u8] =
    b"( target-rev ( 1 ) ) ( open-root ( ( 2 ) 2:t0 ) ) ( add-file ( 1:b 2:t0 2:t1 ( ) ) ) ( change-file-prop ( \
    2:t1 23:svn:entry:committed-rev ( 1:1 ) ) ) ( change-file-prop ( 2:t1 24:svn:entry:committed-date ( \
    27:2020-01-01T00:16:40.007919Z ) ) ) ( change-file-prop ( 2:t1 21:svn:entry:last-author ( 5:alice ) ) ) ( \
    change-file-prop ( 2:t1 14:svn:entry:uuid ( 36:6a1f0c3e-0000-4000-8000-0000000000a1 ) ) ) ( \
    apply-textdelta ( 2:t1 ( ) ) ) ( textdelta-chunk ( 2:t1 4:SVN\0 ) ) ( textdelta-chunk ( 2:t1 \
    12:\0\0\x06\x01\x06\x86hello\n ) ) ( textdelta-end ( 2:t1 ) ) ( close-file ( 2:t1 ( \
    32:b1946ac92492d2347c6235b4d2611184 ) ) ) ( close-dir ( 2:t0 ) ) ( close-edit ( ) ) ";

// A folder that isn't there yet.
const MADE: &[u8] =
    b"( target-rev ( 1 ) ) ( open-root ( ( 0 ) 2:t0 ) ) ( add-dir ( 1:d 2:t0 2:t1 ( ) ) ) ( change-dir-prop ( \
    2:t1 23:svn:entry:committed-rev ( 1:1 ) ) ) ( change-dir-prop ( 2:t1 24:svn:entry:committed-date ( \
    27:2020-01-01T00:16:40.007919Z ) ) ) ( change-dir-prop ( 2:t1 21:svn:entry:last-author ( 5:alice ) ) ) ( \
    change-dir-prop ( 2:t1 14:svn:entry:uuid ( 36:6a1f0c3e-0000-4000-8000-0000000000a1 ) ) ) ( close-dir ( \
    2:t1 ) ) ( close-dir ( 2:t0 ) ) ( close-edit ( ) ) ";

// Where a session stands, what it asks and reports, and the edit. Below a target that isn't there nothing counts that is
// set or linked: a client's `diff` of a path that was copied in its working copy alone links the target's own name.
const ROWS: [(&[u8], &[u8], &[u8], &[u8]); 10] = [
    (
        b"svn://h/trunk",
        b"( update ( ( 3 ) 3:lib true unknown false false ) )",
        b"( set-path ( 0: 1 false ( ) infinity ) ) ",
        REPLACED,
    ),
    (
        b"svn://h/trunk",
        b"( update ( ( 1 ) 3:new true unknown false false ) )",
        b"( set-path ( 0: 3 false ( ) infinity ) ) ",
        GONE,
    ),
    (
        b"svn://h/trunk",
        b"( status ( 6:README true ( 3 ) unknown ) )",
        b"( set-path ( 0: 3 false ( ) infinity ) ) ",
        SAME,
    ),
    (
        b"svn://h",
        b"( update ( ( 3 ) 5:trunk true unknown false false ) )",
        b"( set-path ( 0: 3 false ( ) infinity ) ) ( set-path ( 3:lib 2 false ( ) infinity ) ) ( delete-path ( 5:new/f ) ) ",
        MIXED,
    ),
    (
        b"svn://h",
        b"( diff ( ( 3 ) 5:trunk true true 13:svn://h/trunk true infinity ) )",
        b"( set-path ( 0: 3 false ( ) infinity ) ) ( set-path ( 3:lib 2 false ( ) infinity ) ) ( delete-path ( 5:new/f ) ) ",
        MIXED,
    ),
    (
        b"svn://h",
        b"( switch ( ( 3 ) 5:trunk true 13:svn://h/trunk unknown false true ) )",
        b"( set-path ( 0: 3 false ) ) ( link-path ( 3:lib 17:svn://h/trunk/lib 2 false ) ) ( delete-path ( 5:new/f ) ) ",
        MIXED,
    ),
    (
        b"svn://h/trunk",
        b"( diff ( ( 1 ) 1:b true true 20:svn://h/trunk/README true unknown ) )",
        b"( set-path ( 0: 0 false ( ) infinity ) ) ( link-path ( 1:b 20:svn://h/trunk/README 0 false ( ) infinity ) ) ",
        ADDED,
    ),
    (
        b"svn://h/trunk",
        b"( diff ( ( 1 ) 1:b true true 20:svn://h/trunk/README true unknown ) )",
        b"( set-path ( 0: 2 false ( ) infinity ) ) ( set-path ( 5:f/g/h 9 false ( ) infinity ) ) ",
        ADDED_BEHIND,
    ),
    (
        b"svn://h",
        b"( diff ( ( 1 ) 1:d true true 12:svn://h/tags true unknown ) )",
        b"( set-path ( 0: 0 false ( ) infinity ) ) ( set-path ( 1:x 1 false ( ) infinity ) ) ( delete-path ( 1:y ) ) ",
        MADE,
    ),
    (
        b"svn://h",
        b"( switch ( ( 1 ) 1:d true 12:svn://h/tags infinity false true ) )",
        b"( set-path ( 0: 0 false ) ) ( link-path ( 1:x 13:svn://h/trunk 0 false ) ) ( set-path ( 3:x/y 1 false ) ) ",
        MADE,
    ),
];

// Whether a case is answered by an edit.
fn is_edit<P: RepoPort>(alloc: Global, port: &mut P, case: &Case<'_>, edit: &[u8]) -> bool {
    match answered(alloc, port, case, Vec::new(alloc)) {
        Ok((told, sent)) => sent && told.as_slice().strip_prefix(AUTHORISED) == Some(edit),
        Err(_) => false,
    }
}

// The first row that isn't answered by its edit.
fn first_wrong<P: RepoPort>(alloc: Global, port: &mut P) -> Option<&'static [u8]> {
    for row in &ROWS {
        let case = Case {
            url: row.0,
            asked: row.1,
            reported: row.2,
        };
        if !is_edit(alloc, port, &case, row.3) {
            return Some(row.1);
        }
    }
    None
}

#[test]
fn what_is_told_of_one_name(rt: HostRuntime) {
    let alloc = rt.alloc();
    let mut port = site(alloc).expect(&rt, "memory");
    if let Some(bytes) = first_wrong(alloc, &mut port) {
        rt.panic(str::from_utf8(bytes).unwrap_or("bytes that are no text"));
    }
}
