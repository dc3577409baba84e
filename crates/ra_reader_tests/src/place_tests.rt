//! Where a session stands: below the URL that its client names, until it names another one.

use crate::sessions::are_answered;
use std::rt::HostRuntime;

// What a session at `trunk/lib` is told.
const BELOW: [(&[u8], &[u8]); 5] = [
    (
        b"( stat ( 0: ( ) ) )",
        b"( success ( ( ( dir 18446744073709551615 false 1 ( 27:2020-01-01T00:16:40.007919Z ) ( 5:alice ) ) ) ) ) ",
    ),
    (
        b"( stat ( 3:a.c ( 3 ) ) )",
        b"( success ( ( ( file 7 true 1 ( 27:2020-01-01T00:16:40.007919Z ) ( 5:alice ) ) ) ) ) ",
    ),
    (
        b"( check-path ( 9:trunk/lib ( ) ) )",
        b"( success ( none ) ) ",
    ),
    (
        b"( get-dir ( 0: ( 1 ) true true ) )",
        b"( success ( 1 ( ( 23:svn:entry:committed-rev 1:1 ) ( 24:svn:entry:committed-date 27:2020-01-01T00:16:40.007919Z ) ( 21:svn:entry:last-author 5:alice ) ( 14:svn:entry:uuid 36:6a1f0c3e-0000-4000-8000-0000000000b7 ) ) ( ( 3:a.c file 7 true 1 ( 27:2020-01-01T00:16:40.007919Z ) ( 5:alice ) ) ) ) ) ",
    ),
    (
        b"( get-file ( 3:a.c ( ) false true ) )",
        b"( success ( ( 32:1ccb9ebc08e51c65b99fa5f74657100a ) 3 ( ) ) ) 7:int a;\n 0: ( success ( ) ) ",
    ),
];

#[test]
fn below_the_root(rt: HostRuntime) {
    are_answered(&rt, rt.alloc(), b"svn://127.0.0.1:3690/trunk/lib", &BELOW);
}

// What it is told while it goes to other URLs, of which one has another root.
const MOVES: [(&[u8], &[u8]); 6] = [
    (
        b"( reparent ( 20:svn://127.0.0.1:3690 ) )",
        b"( success ( ) ) ",
    ),
    (
        b"( stat ( 5:trunk ( 2 ) ) )",
        b"( success ( ( ( dir 18446744073709551615 true 2 ( 27:2020-01-01T00:33:20.015838Z ) ( ) ) ) ) ) ",
    ),
    (
        b"( reparent ( 26:svn://127.0.0.1:3690/trunk ) )",
        b"( success ( ) ) ",
    ),
    (
        b"( stat ( 6:README ( 2 ) ) )",
        b"( success ( ( ( file 12 false 2 ( 27:2020-01-01T00:33:20.015838Z ) ( ) ) ) ) ) ",
    ),
    (
        b"( reparent ( 22:svn://other:3690/trunk ) )",
        b"( failure ( ( 170000 23:not the same repository 0: 0 ) ) ) ",
    ),
    (
        b"( stat ( 6:README ( 1 ) ) )",
        b"( success ( ( ( file 6 false 1 ( 27:2020-01-01T00:16:40.007919Z ) ( 5:alice ) ) ) ) ) ",
    ),
];

#[test]
fn other_urls(rt: HostRuntime) {
    are_answered(&rt, rt.alloc(), b"svn://127.0.0.1:3690/trunk/lib", &MOVES);
}
