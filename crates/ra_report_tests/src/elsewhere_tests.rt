//! Edits that answer reports of one name which isn't there, or which stands at another URL, beside those of Subversion's
//! `svnserve` of version 1.14.2: its calls with texts written whole.

use crate::reports::{AUTHORISED, Case, answered};
use crate::site::site;
use ra_serve::RepoPort;
use std::alloc::Global;
use std::process::Abort;
use std::rt::HostRuntime;

// A folder that a working copy hasn't.
const ADDED: &[u8] =
    b"( target-rev ( 3 ) ) ( open-root ( ( 0 ) 2:t0 ) ) ( add-dir ( 3:new 2:t0 2:t1 ( ) ) ) ( change-dir-prop \
    ( 2:t1 23:svn:entry:committed-rev ( 1:3 ) ) ) ( change-dir-prop ( 2:t1 24:svn:entry:committed-date ( \
    27:2020-01-01T00:50:00.023757Z ) ) ) ( change-dir-prop ( 2:t1 21:svn:entry:last-author ( 5:carol ) ) \
    ) ( change-dir-prop ( 2:t1 14:svn:entry:uuid ( 36:6a1f0c3e-0000-4000-8000-0000000000a1 ) ) ) ( \
    change-dir-prop ( 2:t1 10:custom:new ( 3:yes ) ) ) ( add-file ( 5:new/f 2:t1 2:t2 ( ) ) ) ( \
    change-file-prop ( 2:t2 23:svn:entry:committed-rev ( 1:3 ) ) ) ( change-file-prop ( 2:t2 \
    24:svn:entry:committed-date ( 27:2020-01-01T00:50:00.023757Z ) ) ) ( change-file-prop ( 2:t2 \
    21:svn:entry:last-author ( 5:carol ) ) ) ( change-file-prop ( 2:t2 14:svn:entry:uuid ( \
    36:6a1f0c3e-0000-4000-8000-0000000000a1 ) ) ) ( apply-textdelta ( 2:t2 ( ) ) ) ( textdelta-chunk ( \
    2:t2 4:SVN\0 ) ) ( textdelta-end ( 2:t2 ) ) ( close-file ( 2:t2 ( \
    32:d41d8cd98f00b204e9800998ecf8427e ) ) ) ( close-dir ( 2:t1 ) ) ( close-dir ( 2:t0 ) ) ( close-edit \
    ( ) ) ";

// One that wasn't there in the revision that is reported.
const ADDED_LATER: &[u8] =
    b"( target-rev ( 3 ) ) ( open-root ( ( 1 ) 2:t0 ) ) ( add-dir ( 3:new 2:t0 2:t1 ( ) ) ) ( change-dir-prop \
    ( 2:t1 23:svn:entry:committed-rev ( 1:3 ) ) ) ( change-dir-prop ( 2:t1 24:svn:entry:committed-date ( \
    27:2020-01-01T00:50:00.023757Z ) ) ) ( change-dir-prop ( 2:t1 21:svn:entry:last-author ( 5:carol ) ) \
    ) ( change-dir-prop ( 2:t1 14:svn:entry:uuid ( 36:6a1f0c3e-0000-4000-8000-0000000000a1 ) ) ) ( \
    change-dir-prop ( 2:t1 10:custom:new ( 3:yes ) ) ) ( add-file ( 5:new/f 2:t1 2:t2 ( ) ) ) ( \
    change-file-prop ( 2:t2 23:svn:entry:committed-rev ( 1:3 ) ) ) ( change-file-prop ( 2:t2 \
    24:svn:entry:committed-date ( 27:2020-01-01T00:50:00.023757Z ) ) ) ( change-file-prop ( 2:t2 \
    21:svn:entry:last-author ( 5:carol ) ) ) ( change-file-prop ( 2:t2 14:svn:entry:uuid ( \
    36:6a1f0c3e-0000-4000-8000-0000000000a1 ) ) ) ( apply-textdelta ( 2:t2 ( ) ) ) ( textdelta-chunk ( \
    2:t2 4:SVN\0 ) ) ( textdelta-end ( 2:t2 ) ) ( close-file ( 2:t2 ( \
    32:d41d8cd98f00b204e9800998ecf8427e ) ) ) ( close-dir ( 2:t1 ) ) ( close-dir ( 2:t0 ) ) ( close-edit \
    ( ) ) ";

// A file of a folder that isn't there any more.
const FILE_GONE: &[u8] =
    b"( target-rev ( 1 ) ) ( open-root ( ( 3 ) 2:t0 ) ) ( delete-entry ( 1:f ( 3 ) 2:t0 ) ) ( close-dir ( 2:t0 \
    ) ) ( close-edit ( ) ) ";

// A folder that becomes another.
const ELSEWHERE: &[u8] =
    b"( target-rev ( 3 ) ) ( open-root ( ( 1 ) 2:t0 ) ) ( open-dir ( 4:tags 2:t0 2:t1 ( 1 ) ) ) ( \
    change-dir-prop ( 2:t1 23:svn:entry:committed-rev ( 1:3 ) ) ) ( change-dir-prop ( 2:t1 \
    24:svn:entry:committed-date ( 27:2020-01-01T00:50:00.023757Z ) ) ) ( change-dir-prop ( 2:t1 \
    21:svn:entry:last-author ( 5:carol ) ) ) ( change-dir-prop ( 2:t1 14:svn:entry:uuid ( \
    36:6a1f0c3e-0000-4000-8000-0000000000a1 ) ) ) ( add-file ( 11:tags/README 2:t1 2:t2 ( ) ) ) ( \
    change-file-prop ( 2:t2 23:svn:entry:committed-rev ( 1:2 ) ) ) ( change-file-prop ( 2:t2 \
    24:svn:entry:committed-date ( 27:2020-01-01T00:33:20.015838Z ) ) ) ( change-file-prop ( 2:t2 \
    21:svn:entry:last-author ( 3:bob ) ) ) ( change-file-prop ( 2:t2 14:svn:entry:uuid ( \
    36:6a1f0c3e-0000-4000-8000-0000000000a1 ) ) ) ( apply-textdelta ( 2:t2 ( ) ) ) ( textdelta-chunk ( \
    2:t2 4:SVN\0 ) ) ( textdelta-chunk ( 2:t2 18:\0\0\x0c\x01\x0c\x8chello again\n ) ) ( textdelta-end ( \
    2:t2 ) ) ( close-file ( 2:t2 ( 32:90f4dd73d11e55a3d19b4bd8e4ad1bdb ) ) ) ( add-file ( 8:tags/lib \
    2:t1 2:t3 ( ) ) ) ( change-file-prop ( 2:t3 23:svn:entry:committed-rev ( 1:3 ) ) ) ( \
    change-file-prop ( 2:t3 24:svn:entry:committed-date ( 27:2020-01-01T00:50:00.023757Z ) ) ) ( \
    change-file-prop ( 2:t3 21:svn:entry:last-author ( 5:carol ) ) ) ( change-file-prop ( 2:t3 \
    14:svn:entry:uuid ( 36:6a1f0c3e-0000-4000-8000-0000000000a1 ) ) ) ( apply-textdelta ( 2:t3 ( ) ) ) ( \
    textdelta-chunk ( 2:t3 4:SVN\0 ) ) ( textdelta-chunk ( 2:t3 17:\0\0\x0b\x01\x0b\x8bnow a file\n ) ) \
    ( textdelta-end ( 2:t3 ) ) ( close-file ( 2:t3 ( 32:b3eb1a8045bed57b2d54b64a1c10e265 ) ) ) ( add-dir \
    ( 8:tags/new 2:t1 2:t4 ( ) ) ) ( change-dir-prop ( 2:t4 23:svn:entry:committed-rev ( 1:3 ) ) ) ( \
    change-dir-prop ( 2:t4 24:svn:entry:committed-date ( 27:2020-01-01T00:50:00.023757Z ) ) ) ( \
    change-dir-prop ( 2:t4 21:svn:entry:last-author ( 5:carol ) ) ) ( change-dir-prop ( 2:t4 \
    14:svn:entry:uuid ( 36:6a1f0c3e-0000-4000-8000-0000000000a1 ) ) ) ( change-dir-prop ( 2:t4 \
    10:custom:new ( 3:yes ) ) ) ( add-file ( 10:tags/new/f 2:t4 2:t5 ( ) ) ) ( change-file-prop ( 2:t5 \
    23:svn:entry:committed-rev ( 1:3 ) ) ) ( change-file-prop ( 2:t5 24:svn:entry:committed-date ( \
    27:2020-01-01T00:50:00.023757Z ) ) ) ( change-file-prop ( 2:t5 21:svn:entry:last-author ( 5:carol ) \
    ) ) ( change-file-prop ( 2:t5 14:svn:entry:uuid ( 36:6a1f0c3e-0000-4000-8000-0000000000a1 ) ) ) ( \
    apply-textdelta ( 2:t5 ( ) ) ) ( textdelta-chunk ( 2:t5 4:SVN\0 ) ) ( textdelta-end ( 2:t5 ) ) ( \
    close-file ( 2:t5 ( 32:d41d8cd98f00b204e9800998ecf8427e ) ) ) ( close-dir ( 2:t4 ) ) ( close-dir ( \
    2:t1 ) ) ( close-dir ( 2:t0 ) ) ( close-edit ( ) ) ";

// A file that becomes another.
const OTHER_FILE: &[u8] =
    b"( target-rev ( 3 ) ) ( open-root ( ( 3 ) 2:t0 ) ) ( open-file ( 6:README 2:t0 2:t1 ( 3 ) ) ) ( \
    change-file-prop ( 2:t1 23:svn:entry:committed-rev ( 1:3 ) ) ) ( change-file-prop ( 2:t1 \
    24:svn:entry:committed-date ( 27:2020-01-01T00:50:00.023757Z ) ) ) ( change-file-prop ( 2:t1 \
    21:svn:entry:last-author ( 5:carol ) ) ) ( change-file-prop ( 2:t1 14:svn:entry:uuid ( \
    36:6a1f0c3e-0000-4000-8000-0000000000a1 ) ) ) ( apply-textdelta ( 2:t1 ( ) ) ) ( textdelta-chunk ( \
    2:t1 4:SVN\0 ) ) ( textdelta-chunk ( 2:t1 17:\0\0\x0b\x01\x0b\x8bnow a file\n ) ) ( textdelta-end ( \
    2:t1 ) ) ( close-file ( 2:t1 ( 32:b3eb1a8045bed57b2d54b64a1c10e265 ) ) ) ( close-dir ( 2:t0 ) ) ( \
    close-edit ( ) ) ";

// Where a session stands, what it asks and reports, and the edit.
const ROWS: [(&[u8], &[u8], &[u8], &[u8]); 5] = [
    (
        b"svn://h/trunk",
        b"( update ( ( 3 ) 3:new true unknown false false ) )",
        b"( set-path ( 0: 0 false ( ) infinity ) ) ( delete-path ( 0: ) ) ",
        ADDED,
    ),
    (
        b"svn://h/trunk",
        b"( update ( ( 3 ) 3:new true unknown false false ) )",
        b"( set-path ( 0: 1 false ( ) infinity ) ) ",
        ADDED_LATER,
    ),
    (
        b"svn://h/trunk/new",
        b"( update ( ( 1 ) 1:f true unknown false false ) )",
        b"( set-path ( 0: 3 false ( ) infinity ) ) ",
        FILE_GONE,
    ),
    (
        b"svn://h",
        b"( diff ( ( 3 ) 4:tags true true 13:svn://h/trunk true unknown ) )",
        b"( set-path ( 0: 1 false ( ) infinity ) ) ",
        ELSEWHERE,
    ),
    (
        b"svn://h/trunk",
        b"( switch ( ( 3 ) 6:README true 17:svn://h/trunk/lib unknown false true ) )",
        b"( set-path ( 0: 3 false ( ) infinity ) ) ",
        OTHER_FILE,
    ),
];

// Whether a case is answered by an edit.
fn is_edit<P: RepoPort>(alloc: Global, port: &mut P, case: &Case<'_>, edit: &[u8]) -> bool {
    match answered(alloc, port, case, Vec::new(alloc)) {
        Ok((told, sent)) => sent && told.as_slice().strip_prefix(AUTHORISED) == Some(edit),
        Err(_) => false,
    }
}

// The first row that isn't answered by its edit.
fn first_wrong<P: RepoPort>(alloc: Global, port: &mut P) -> Option<&'static [u8]> {
    for row in &ROWS {
        let case = Case {
            url: row.0,
            asked: row.1,
            reported: row.2,
        };
        if !is_edit(alloc, port, &case, row.3) {
            return Some(row.1);
        }
    }
    None
}

#[test]
fn what_is_told_of_one_name_elsewhere(rt: HostRuntime) {
    let alloc = rt.alloc();
    let mut port = site(alloc).expect(&rt, "memory");
    if let Some(bytes) = first_wrong(alloc, &mut port) {
        rt.panic(str::from_utf8(bytes).unwrap_or("bytes that are no text"));
    }
}
