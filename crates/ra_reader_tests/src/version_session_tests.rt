//! Versions of files: what a session tells of `get-file-revs`.

use crate::sessions::{ROOT, are_answered};
use std::rt::HostRuntime;

// What `get-file-revs` is told: versions oldest first, and the newest of those in front of the range. A text is told in
// windows of new data, where it isn't the one before.
const TOLD: [(&[u8], &[u8]); 12] = [
    (
        b"( get-file-revs ( 12:trunk/README ( 0 ) ( 3 ) false ) )",
        b"( 13:/trunk/README 1 ( ( 10:svn:author 5:alice ) ( 8:svn:date 27:2020-01-01T00:16:40.007919Z ) ( 7:svn:log 5:first ) ) ( ) false ) 4:SVN\x00 12:\x00\x00\x06\x01\x06\x86hello\n 0: ( 13:/trunk/README 2 ( ( 8:svn:date 27:2020-01-01T00:33:20.015838Z ) ( 7:svn:log 5:again ) ) ( ) false ) 4:SVN\x00 18:\x00\x00\x0c\x01\x0c\x8chello again\n 0: done ( success ( ) ) ",
    ),
    (
        b"( get-file-revs ( 12:trunk/README ( 2 ) ( 3 ) ) )",
        b"( 13:/trunk/README 2 ( ( 8:svn:date 27:2020-01-01T00:33:20.015838Z ) ( 7:svn:log 5:again ) ) ( ) false ) 4:SVN\x00 18:\x00\x00\x0c\x01\x0c\x8chello again\n 0: done ( success ( ) ) ",
    ),
    (
        b"( get-file-revs ( 12:trunk/README ( 1 ) ( 1 ) true ) )",
        b"( 13:/trunk/README 1 ( ( 10:svn:author 5:alice ) ( 8:svn:date 27:2020-01-01T00:16:40.007919Z ) ( 7:svn:log 5:first ) ) ( ) false ) 4:SVN\x00 12:\x00\x00\x06\x01\x06\x86hello\n 0: done ( success ( ) ) ",
    ),
    (
        b"( get-file-revs ( 15:tags/1.0/README ( 2 ) ( ) false ) )",
        b"( 13:/trunk/README 2 ( ( 8:svn:date 27:2020-01-01T00:33:20.015838Z ) ( 7:svn:log 5:again ) ) ( ) false ) 4:SVN\x00 18:\x00\x00\x0c\x01\x0c\x8chello again\n 0: ( 16:/tags/1.0/README 3 ( ( 10:svn:author 3:bob ) ) ( ) false ) 0: done ( success ( ) ) ",
    ),
    (
        b"( get-file-revs ( 13:trunk/lib/a.c ( 0 ) ( 1 ) false ) )",
        b"( 14:/trunk/lib/a.c 1 ( ( 10:svn:author 5:alice ) ( 8:svn:date 27:2020-01-01T00:16:40.007919Z ) ( 7:svn:log 5:first ) ) ( ( 13:svn:eol-style ( 6:native ) ) ) false ) 4:SVN\x00 13:\x00\x00\x07\x01\x07\x87int a;\n 0: done ( success ( ) ) ",
    ),
    (
        b"( get-file-revs ( 14:tags/1.0/notes ( ) ( ) false ) )",
        b"( 15:/tags/1.0/notes 3 ( ( 10:svn:author 3:bob ) ) ( ) false ) 4:SVN\x00 0: done ( success ( ) ) ",
    ),
    (
        b"( get-file-revs ( 12:trunk/README ( ) ( 2 ) false ) )",
        b"done ( failure ( ( 200007 13:not supported 0: 0 ) ) ) ",
    ),
    (
        b"( get-file-revs ( 5:trunk ( 0 ) ( 3 ) false ) )",
        b"done ( failure ( ( 160017 10:not a file 0: 0 ) ) ) ",
    ),
    (
        b"( get-file-revs ( 4:nope ( 0 ) ( 3 ) false ) )",
        b"done ( failure ( ( 160013 14:path not found 0: 0 ) ) ) ",
    ),
    (
        b"( get-file-revs ( 14:tags/1.0/notes ( 0 ) ( 2 ) false ) )",
        b"done ( failure ( ( 160013 14:path not found 0: 0 ) ) ) ",
    ),
    (
        b"( get-file-revs ( 12:trunk/README ( 0 ) ( 9 ) false ) )",
        b"done ( failure ( ( 160006 16:no such revision 0: 0 ) ) ) ",
    ),
    (
        b"( get-file-revs ( 12:trunk/README ( 9 ) ( 3 ) false ) )",
        b"done ( failure ( ( 160006 16:no such revision 0: 0 ) ) ) ",
    ),
];

#[test]
fn versions(rt: HostRuntime) {
    are_answered(&rt, rt.alloc(), ROOT, &TOLD);
}
