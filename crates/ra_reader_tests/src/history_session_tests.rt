//! Histories: what a session tells of where a node stood.

use crate::sessions::{ROOT, are_answered};
use std::rt::HostRuntime;

// What `get-locations` is told.
const LOCATED: [(&[u8], &[u8]); 7] = [
    (
        b"( get-locations ( 15:tags/1.0/README 3 ( 1 2 3 0 ) ) )",
        b"( 1 13:/trunk/README ) ( 2 13:/trunk/README ) ( 3 16:/tags/1.0/README ) done ( success ( ) ) ",
    ),
    (
        b"( get-locations ( 12:trunk/README 1 ( 0 1 2 3 ) ) )",
        b"( 1 13:/trunk/README ) ( 2 13:/trunk/README ) ( 3 13:/trunk/README ) done ( success ( ) ) ",
    ),
    (
        b"( get-locations ( 14:tags/1.0/notes 3 ( 2 3 ) ) )",
        b"( 3 15:/tags/1.0/notes ) done ( success ( ) ) ",
    ),
    (
        b"( get-locations ( 5:trunk 3 ( ) ) )",
        b"done ( success ( ) ) ",
    ),
    (
        b"( get-locations ( 4:nope 3 ( 1 ) ) )",
        b"done ( failure ( ( 160013 14:path not found 0: 0 ) ) ) ",
    ),
    (
        b"( get-locations ( 12:trunk/README 3 ( 9 ) ) )",
        b"done ( failure ( ( 160006 16:no such revision 0: 0 ) ) ) ",
    ),
    (
        b"( get-locations ( 12:trunk/README 3 ( 1 65536 ) ) )",
        b"done ( failure ( ( 160006 16:no such revision 0: 0 ) ) ) ",
    ),
];

#[test]
fn located(rt: HostRuntime) {
    are_answered(&rt, rt.alloc(), ROOT, &LOCATED);
}
