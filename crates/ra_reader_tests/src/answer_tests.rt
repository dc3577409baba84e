//! What readers ask, and what they are told.

use crate::sessions::{ROOT, are_answered, first_told_else, none_is_wrong};
use ra_browse::law;
use ra_denial::Denial;
use ra_reader::law as session_law;
use std::rt::HostRuntime;

// What stands at a path.
const NODES: [(&[u8], &[u8]); 12] = [
    (b"( get-latest-rev ( ) )", b"( success ( 3 ) ) "),
    (
        b"( stat ( 0: ( 3 ) ) )",
        b"( success ( ( ( dir 18446744073709551615 false 3 ( 27:1970-01-01T00:00:00.000000Z ) ( 3:bob ) ) ) ) ) ",
    ),
    (
        b"( stat ( 12:trunk/README ( 2 ) ) )",
        b"( success ( ( ( file 12 false 2 ( 27:2020-01-01T00:33:20.015838Z ) ( ) ) ) ) ) ",
    ),
    (
        b"( stat ( 12:trunk/README ( 1 ) ) )",
        b"( success ( ( ( file 6 false 1 ( 27:2020-01-01T00:16:40.007919Z ) ( 5:alice ) ) ) ) ) ",
    ),
    (
        b"( stat ( 8:tags/1.0 ( ) ) )",
        b"( success ( ( ( dir 18446744073709551615 true 3 ( 27:1970-01-01T00:00:00.000000Z ) ( 3:bob ) ) ) ) ) ",
    ),
    (
        b"( stat ( 14:tags/1.0/notes ( ) ) )",
        b"( success ( ( ( file 0 false 3 ( 27:1970-01-01T00:00:00.000000Z ) ( 3:bob ) ) ) ) ) ",
    ),
    (
        b"( stat ( 16:tags/1.0/lib/a.c ( ) ) )",
        b"( success ( ( ( file 7 true 1 ( 27:2020-01-01T00:16:40.007919Z ) ( 5:alice ) ) ) ) ) ",
    ),
    (b"( stat ( 4:nope ( 3 ) ) )", b"( success ( ( ) ) ) "),
    (b"( stat ( 8:tags/1.0 ( 2 ) ) )", b"( success ( ( ) ) ) "),
    (
        b"( check-path ( 9:trunk/lib ( 1 ) ) )",
        b"( success ( dir ) ) ",
    ),
    (
        b"( check-path ( 12:trunk/README ( ) ) )",
        b"( success ( file ) ) ",
    ),
    (b"( check-path ( 4:nope ( 2 ) ) )", b"( success ( none ) ) "),
];

#[test]
fn nodes(rt: HostRuntime) {
    are_answered(&rt, rt.alloc(), ROOT, &NODES);
}

// Files, with and without properties and text.
const FILES: [(&[u8], &[u8]); 4] = [
    (
        b"( get-file ( 12:trunk/README ( ) true true ) )",
        b"( success ( ( 32:90f4dd73d11e55a3d19b4bd8e4ad1bdb ) 3 ( ( 23:svn:entry:committed-rev 1:2 ) ( 24:svn:entry:committed-date 27:2020-01-01T00:33:20.015838Z ) ( 14:svn:entry:uuid 36:6a1f0c3e-0000-4000-8000-0000000000b7 ) ) ) ) 12:hello again\n 0: ( success ( ) ) ",
    ),
    (
        b"( get-file ( 12:trunk/README ( 1 ) false true ) )",
        b"( success ( ( 32:b1946ac92492d2347c6235b4d2611184 ) 1 ( ) ) ) 6:hello\n 0: ( success ( ) ) ",
    ),
    (
        b"( get-file ( 16:tags/1.0/lib/a.c ( 3 ) true false ) )",
        b"( success ( ( 32:1ccb9ebc08e51c65b99fa5f74657100a ) 3 ( ( 13:svn:eol-style 6:native ) ( 23:svn:entry:committed-rev 1:1 ) ( 24:svn:entry:committed-date 27:2020-01-01T00:16:40.007919Z ) ( 21:svn:entry:last-author 5:alice ) ( 14:svn:entry:uuid 36:6a1f0c3e-0000-4000-8000-0000000000b7 ) ) ) ) ",
    ),
    (
        b"( get-file ( 14:tags/1.0/notes ( 3 ) true true ) )",
        b"( success ( ( 32:d41d8cd98f00b204e9800998ecf8427e ) 3 ( ( 23:svn:entry:committed-rev 1:3 ) ( 21:svn:entry:last-author 3:bob ) ( 14:svn:entry:uuid 36:6a1f0c3e-0000-4000-8000-0000000000b7 ) ) ) ) 0: ( success ( ) ) ",
    ),
];

#[test]
fn files(rt: HostRuntime) {
    are_answered(&rt, rt.alloc(), ROOT, &FILES);
}

// Directories, with and without properties and entries.
const DIRS: [(&[u8], &[u8]); 5] = [
    (
        b"( get-dir ( 5:trunk ( ) true true ) )",
        b"( success ( 3 ( ( 10:custom:dir 4:deep ) ( 23:svn:entry:committed-rev 1:2 ) ( 24:svn:entry:committed-date 27:2020-01-01T00:33:20.015838Z ) ( 14:svn:entry:uuid 36:6a1f0c3e-0000-4000-8000-0000000000b7 ) ) ( ( 6:README file 12 false 2 ( 27:2020-01-01T00:33:20.015838Z ) ( ) ) ( 3:lib dir 0 false 1 ( 27:2020-01-01T00:16:40.007919Z ) ( 5:alice ) ) ) ) ) ",
    ),
    (
        b"( get-dir ( 8:tags/1.0 ( 3 ) true true ) )",
        b"( success ( 3 ( ( 10:custom:dir 4:deep ) ( 23:svn:entry:committed-rev 1:3 ) ( 21:svn:entry:last-author 3:bob ) ( 14:svn:entry:uuid 36:6a1f0c3e-0000-4000-8000-0000000000b7 ) ) ( ( 6:README file 12 false 2 ( 27:2020-01-01T00:33:20.015838Z ) ( ) ) ( 3:lib dir 0 false 1 ( 27:2020-01-01T00:16:40.007919Z ) ( 5:alice ) ) ( 5:notes file 0 false 3 ( 27:1970-01-01T00:00:00.000000Z ) ( 3:bob ) ) ) ) ) ",
    ),
    (
        b"( get-dir ( 0: ( 0 ) true true ) )",
        b"( success ( 0 ( ( 23:svn:entry:committed-rev 1:0 ) ( 14:svn:entry:uuid 36:6a1f0c3e-0000-4000-8000-0000000000b7 ) ) ( ) ) ) ",
    ),
    (
        b"( get-dir ( 0: ( 2 ) false true ) )",
        b"( success ( 2 ( ) ( ( 4:tags dir 0 false 1 ( 27:2020-01-01T00:16:40.007919Z ) ( 5:alice ) ) ( 5:trunk dir 0 true 2 ( 27:2020-01-01T00:33:20.015838Z ) ( ) ) ) ) ) ",
    ),
    (
        b"( get-dir ( 5:trunk ( 2 ) true false ) )",
        b"( success ( 2 ( ( 10:custom:dir 4:deep ) ( 23:svn:entry:committed-rev 1:2 ) ( 24:svn:entry:committed-date 27:2020-01-01T00:33:20.015838Z ) ( 14:svn:entry:uuid 36:6a1f0c3e-0000-4000-8000-0000000000b7 ) ) ( ) ) ) ",
    ),
];

#[test]
fn directories(rt: HostRuntime) {
    are_answered(&rt, rt.alloc(), ROOT, &DIRS);
}

// Properties of revisions, and locks.
const OTHERS: [(&[u8], &[u8]); 6] = [
    (
        b"( rev-proplist ( 1 ) )",
        b"( success ( ( ( 10:svn:author 5:alice ) ( 8:svn:date 27:2020-01-01T00:16:40.007919Z ) ( 7:svn:log 5:first ) ) ) ) ",
    ),
    (b"( rev-proplist ( 0 ) )", b"( success ( ( ) ) ) "),
    (
        b"( rev-prop ( 1 7:svn:log ) )",
        b"( success ( ( 5:first ) ) ) ",
    ),
    (b"( rev-prop ( 2 10:svn:author ) )", b"( success ( ( ) ) ) "),
    (b"( get-lock ( 5:trunk ) )", b"( success ( ( ) ) ) "),
    (
        b"( get-locks ( 0: ( infinity ) ) )",
        b"( success ( ( ) ) ) ",
    ),
];

#[test]
fn properties_of_revisions_and_locks(rt: HostRuntime) {
    are_answered(&rt, rt.alloc(), ROOT, &OTHERS);
}

// What is denied, by Subversion's own numbers.
const DENIED: [(&[u8], &[u8]); 10] = [
    (
        b"( stat ( 0: ( 9 ) ) )",
        b"( failure ( ( 160006 16:no such revision 0: 0 ) ) ) ",
    ),
    (
        b"( check-path ( 0: ( 9 ) ) )",
        b"( failure ( ( 160006 16:no such revision 0: 0 ) ) ) ",
    ),
    (
        b"( get-file ( 12:trunk/README ( 9 ) true true ) )",
        b"( failure ( ( 160006 16:no such revision 0: 0 ) ) ) ",
    ),
    (
        b"( get-file ( 4:nope ( 3 ) true true ) )",
        b"( failure ( ( 160013 14:path not found 0: 0 ) ) ) ",
    ),
    (
        b"( get-file ( 5:trunk ( 3 ) true true ) )",
        b"( failure ( ( 160017 10:not a file 0: 0 ) ) ) ",
    ),
    (
        b"( get-dir ( 0: ( 9 ) true true ) )",
        b"( failure ( ( 160006 16:no such revision 0: 0 ) ) ) ",
    ),
    (
        b"( get-dir ( 4:nope ( 2 ) true true ) )",
        b"( failure ( ( 160013 14:path not found 0: 0 ) ) ) ",
    ),
    (
        b"( get-dir ( 12:trunk/README ( 2 ) true true ) )",
        b"( failure ( ( 160016 15:not a directory 0: 0 ) ) ) ",
    ),
    (
        b"( rev-proplist ( 9 ) )",
        b"( failure ( ( 160006 16:no such revision 0: 0 ) ) ) ",
    ),
    (
        b"( rev-prop ( 9 7:svn:log ) )",
        b"( failure ( ( 160006 16:no such revision 0: 0 ) ) ) ",
    ),
];

#[test]
fn what_is_denied(rt: HostRuntime) {
    are_answered(&rt, rt.alloc(), ROOT, &DENIED);
}

// What these sessions don't answer, and what is told of it: svnserve has the first number too, since its clients fall back
// by it, to `log` from the command that these sessions don't know.
const UNANSWERED: [(&[u8], &[u8]); 5] = [
    (
        b"( nonsense ( ) ) ",
        b"( failure ( ( 210001 32:this server only answers readers 0: 0 ) ) ) ",
    ),
    (
        b"( get-location-segments ( 5:trunk ( 3 ) ( 3 ) ( 0 ) ) ) ",
        b"( failure ( ( 210001 32:this server only answers readers 0: 0 ) ) ) ",
    ),
    (
        b"( set-path ( 0: 3 false ( ) infinity ) ) ",
        b"( failure ( ( 210001 32:this server only answers readers 0: 0 ) ) ) ",
    ),
    (
        b"( change-rev-prop ( 1 7:svn:log 3:new ) ) ",
        b"( failure ( ( 200007 13:not supported 0: 0 ) ) ) ",
    ),
    (
        b"( stat ( 4:a//b ( ) ) ) ",
        b"( failure ( ( 210004 17:bad command shape 0: 0 ) ) ) ",
    ),
];

#[test]
fn what_is_not_answered(rt: HostRuntime) {
    none_is_wrong(&rt, first_told_else(&rt, rt.alloc(), ROOT, &UNANSWERED));
}

#[test]
fn numbers_and_texts(rt: HostRuntime) {
    assert!(rt; Denial::NoPath.number() == 160013);
    assert!(rt; Denial::OtherRoot.text() == b"not the same repository".as_slice());
}

#[test]
fn laws(_rt: HostRuntime) {
    law::stat_is_the_node();
    law::only_reparent_moves();
    session_law::singles_are_answered();
    session_law::reports_are_whole();
    session_law::only_reparent_leads();
    session_law::stands_below_one_root();
}
