//! Histories: what a session tells of logs.

use crate::sessions::{ROOT, are_answered};
use std::rt::HostRuntime;

// What `log` is told.
const LOGGED: [(&[u8], &[u8]); 11] = [
    (
        b"( log ( ( 0: ) ( 3 ) ( 0 ) true false 0 false revprops ( 10:svn:author 8:svn:date 7:svn:log ) ) )",
        b"( ( ( 9:/tags/1.0 A ( 6:/trunk 2 ) ( 3:dir false false ) ) ( 15:/tags/1.0/notes A ( ) ( 4:file true false ) ) ) 3 ( 3:bob ) ( ) ( ) false false 0 ( ) false ) ( ( ( 6:/trunk M ( ) ( 3:dir false true ) ) ( 13:/trunk/README M ( ) ( 4:file true false ) ) ) 2 ( ) ( 27:2020-01-01T00:33:20.015838Z ) ( 5:again ) false false 0 ( ) false ) ( ( ( 5:/tags A ( ) ( 3:dir false false ) ) ( 6:/trunk A ( ) ( 3:dir false false ) ) ( 13:/trunk/README A ( ) ( 4:file true false ) ) ( 10:/trunk/lib A ( ) ( 3:dir false false ) ) ( 14:/trunk/lib/a.c A ( ) ( 4:file true true ) ) ) 1 ( 5:alice ) ( 27:2020-01-01T00:16:40.007919Z ) ( 5:first ) false false 0 ( ) false ) ( ( ) 0 ( ) ( ) ( ) false false 0 ( ) false ) done ( success ( ) ) ",
    ),
    (
        b"( log ( ( 8:tags/1.0 ) ( 0 ) ( 3 ) true false 2 false all-revprops ( ) ) )",
        b"( ( ( 5:/tags A ( ) ( 3:dir false false ) ) ( 6:/trunk A ( ) ( 3:dir false false ) ) ( 13:/trunk/README A ( ) ( 4:file true false ) ) ( 10:/trunk/lib A ( ) ( 3:dir false false ) ) ( 14:/trunk/lib/a.c A ( ) ( 4:file true true ) ) ) 1 ( 5:alice ) ( 27:2020-01-01T00:16:40.007919Z ) ( 5:first ) false false 0 ( ) false ) ( ( ( 6:/trunk M ( ) ( 3:dir false true ) ) ( 13:/trunk/README M ( ) ( 4:file true false ) ) ) 2 ( ) ( 27:2020-01-01T00:33:20.015838Z ) ( 5:again ) false false 0 ( ) false ) done ( success ( ) ) ",
    ),
    (
        b"( log ( ( 12:trunk/README ) ( ) ( ) false true 0 false revprops ( 7:svn:log ) ) )",
        b"done ( success ( ) ) ",
    ),
    (
        b"( log ( ( 9:trunk/lib 12:trunk/README ) ( 3 ) ( 1 ) false true 0 false revprops ( 10:svn:author ) ) )",
        b"( ( ) 2 ( ) ( ) ( ) false false 0 ( ) false ) ( ( ) 1 ( 5:alice ) ( ) ( ) false false 0 ( ) false ) done ( success ( ) ) ",
    ),
    (
        b"( log ( ( 8:tags/1.0 ) ( 3 ) ( 0 ) false true 0 false revprops ( ) ) )",
        b"( ( ) 3 ( ) ( ) ( ) false false 0 ( ) false ) done ( success ( ) ) ",
    ),
    (
        b"( log ( ( 4:nope ) ( 3 ) ( 0 ) false true 0 false revprops ( 7:svn:log ) ) )",
        b"done ( failure ( ( 160013 14:path not found 0: 0 ) ) ) ",
    ),
    (
        b"( log ( ( 5:trunk ) ( 9 ) ( 0 ) false true 0 false revprops ( 7:svn:log ) ) )",
        b"done ( failure ( ( 160006 16:no such revision 0: 0 ) ) ) ",
    ),
    (
        b"( log ( ( 8:tags/1.0 ) ( 1 ) ( 2 ) false true 0 false revprops ( 7:svn:log ) ) )",
        b"done ( failure ( ( 160013 14:path not found 0: 0 ) ) ) ",
    ),
    (
        b"( log ( ( 12:tags/1.0/lib ) ( 3 ) ( 0 ) false false 0 false revprops ( ) ) )",
        b"( ( ) 3 ( ) ( ) ( ) false false 0 ( ) false ) ( ( ) 1 ( ) ( ) ( ) false false 0 ( ) false ) done ( success ( ) ) ",
    ),
    (
        b"( log ( ( 5:trunk 5:trunk ) ( 2 ) ( 0 ) false false 1 false revprops ( ) ) )",
        b"( ( ) 2 ( ) ( ) ( ) false false 0 ( ) false ) done ( success ( ) ) ",
    ),
    (
        b"( log ( ( ) ( 2 ) ( 1 ) false true 18446744073709551615 false revprops ( ) ) )",
        b"( ( ) 2 ( ) ( ) ( ) false false 0 ( ) false ) ( ( ) 1 ( ) ( ) ( ) false false 0 ( ) false ) done ( success ( ) ) ",
    ),
];

#[test]
fn logged(rt: HostRuntime) {
    are_answered(&rt, rt.alloc(), ROOT, &LOGGED);
}
