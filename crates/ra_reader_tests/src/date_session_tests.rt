//! Dates: what a session tells of `get-dated-rev`.

use crate::sessions::{ROOT, are_answered};
use std::rt::HostRuntime;

// The revision that each date names, where revisions 1 and 2 have dates and 3 has none; and texts that are no dates.
const TOLD: [(&[u8], &[u8]); 15] = [
    (
        b"( get-dated-rev ( 27:2020-01-01T00:16:40.007919Z ) )",
        b"( success ( 1 ) ) ",
    ),
    (
        b"( get-dated-rev ( 27:2020-01-01T00:16:40.007918Z ) )",
        b"( success ( 0 ) ) ",
    ),
    (
        b"( get-dated-rev ( 27:2020-01-01T00:16:40.007920Z ) )",
        b"( success ( 1 ) ) ",
    ),
    (
        b"( get-dated-rev ( 27:2020-01-01T00:33:20.015837Z ) )",
        b"( success ( 1 ) ) ",
    ),
    (
        b"( get-dated-rev ( 27:2020-01-01T00:33:20.015838Z ) )",
        b"( success ( 2 ) ) ",
    ),
    (
        b"( get-dated-rev ( 27:2038-01-19T03:14:08.000000Z ) )",
        b"( success ( 2 ) ) ",
    ),
    (
        b"( get-dated-rev ( 27:1970-01-01T00:00:00.000000Z ) )",
        b"( success ( 0 ) ) ",
    ),
    (
        b"( get-dated-rev ( 27:2020-01-01T00:16:40.007919Z 7 ) )",
        b"( success ( 1 ) ) ",
    ),
    (
        b"( get-dated-rev ( 0: ) )",
        b"( failure ( ( 125003 10:not a date 0: 0 ) ) ) ",
    ),
    (
        b"( get-dated-rev ( 10:2020-01-01 ) )",
        b"( failure ( ( 125003 10:not a date 0: 0 ) ) ) ",
    ),
    (
        b"( get-dated-rev ( 20:2020-01-01T00:16:40Z ) )",
        b"( failure ( ( 125003 10:not a date 0: 0 ) ) ) ",
    ),
    (
        b"( get-dated-rev ( 26:2020-01-01T00:16:40.007919 ) )",
        b"( failure ( ( 125003 10:not a date 0: 0 ) ) ) ",
    ),
    (
        b"( get-dated-rev ( 28:2020-01-01T00:16:40.007919ZZ ) )",
        b"( failure ( ( 125003 10:not a date 0: 0 ) ) ) ",
    ),
    (
        b"( get-dated-rev ( 27:2020-01-01 00:16:40.007919Z ) )",
        b"( failure ( ( 125003 10:not a date 0: 0 ) ) ) ",
    ),
    (
        b"( get-dated-rev ( 27:2020-01-01T00:16:40.00791:Z ) )",
        b"( failure ( ( 125003 10:not a date 0: 0 ) ) ) ",
    ),
];

#[test]
fn dates(rt: HostRuntime) {
    are_answered(&rt, rt.alloc(), ROOT, &TOLD);
}
