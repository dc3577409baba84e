//! What is denied of a command, and of a report.

use crate::reports::{Case, answered, order};
use crate::site::site;
use ra_denial::{Denial, Stop};
use ra_serve::RepoPort;
use std::alloc::Global;
use std::process::Abort;
use std::rt::HostRuntime;

const NO_REVISION: &[u8] = b"( failure ( ( 160006 16:no such revision 0: 0 ) ) ) ";

const NO_PATH: &[u8] = b"( failure ( ( 160013 14:path not found 0: 0 ) ) ) ";

const NOT_DIR: &[u8] = b"( failure ( ( 160016 15:not a directory 0: 0 ) ) ) ";

const BAD_REPORT: &[u8] = b"( failure ( ( 165004 19:bad revision report 0: 0 ) ) ) ";

const UNSUPPORTED: &[u8] = b"( failure ( ( 200007 13:not supported 0: 0 ) ) ) ";

const OTHER_ROOT: &[u8] = b"( failure ( ( 170000 23:not the same repository 0: 0 ) ) ) ";

const NEWEST: &[u8] = b"( update ( ( ) 0: true ) )";

// Where a session stands, what it asks and reports, and what it is told.
const ROWS: [(&[u8], &[u8], &[u8], &[u8]); 30] = [
    (
        b"svn://h",
        b"( update ( ( 4 ) 0: true ) )",
        b"( set-path ( 0: 3 true ) ) ",
        NO_REVISION,
    ),
    (
        b"svn://h",
        b"( update ( ( 65536 ) 0: true ) )",
        b"( set-path ( 0: 3 true ) ) ",
        NO_REVISION,
    ),
    (
        b"svn://h",
        NEWEST,
        b"( set-path ( 0: 4 false ) ) ",
        NO_REVISION,
    ),
    (
        b"svn://h",
        NEWEST,
        b"( set-path ( 0: 3 false ) ) ( set-path ( 5:trunk 4 false ) ) ",
        NO_REVISION,
    ),
    (
        b"svn://h/none",
        NEWEST,
        b"( set-path ( 0: 3 true ) ) ",
        NO_PATH,
    ),
    (
        b"svn://h/trunk/README",
        NEWEST,
        b"( set-path ( 0: 3 true ) ) ",
        NOT_DIR,
    ),
    // nothing is at the folder in the revision that is reported, or a file is
    (
        b"svn://h/trunk/new",
        NEWEST,
        b"( set-path ( 0: 2 false ) ) ",
        NO_PATH,
    ),
    (
        b"svn://h/trunk/lib",
        b"( update ( ( 1 ) 0: true ) )",
        b"( set-path ( 0: 3 false ) ) ",
        NOT_DIR,
    ),
    (b"svn://h", NEWEST, b"", BAD_REPORT),
    (
        b"svn://h",
        NEWEST,
        b"( set-path ( 5:trunk 3 false ) ) ",
        BAD_REPORT,
    ),
    (
        b"svn://h",
        NEWEST,
        b"( delete-path ( 5:trunk ) ) ",
        BAD_REPORT,
    ),
    (
        b"svn://h",
        NEWEST,
        b"( set-path ( 0: 3 false ) ) ( set-path ( 0: 3 false ) ) ",
        BAD_REPORT,
    ),
    (
        b"svn://h",
        NEWEST,
        b"( set-path ( 0: 3 false ) ) ( delete-path ( 0: ) ) ",
        BAD_REPORT,
    ),
    (
        b"svn://h",
        NEWEST,
        b"( set-path ( 0: 3 true ) ) ( set-path ( 12:trunk/README 3 false ) ) ",
        BAD_REPORT,
    ),
    (
        b"svn://h",
        NEWEST,
        b"( set-path ( 0: 3 false ) ) ( set-path ( 3:new 3 false ) ) ",
        NO_PATH,
    ),
    // what is reported with a depth is there, and what is left out is below a folder
    (
        b"svn://h",
        NEWEST,
        b"( set-path ( 0: 3 false ( ) files ) ) ( set-path ( 3:new 3 false ( ) empty ) ) ",
        NO_PATH,
    ),
    (
        b"svn://h",
        NEWEST,
        b"( set-path ( 0: 3 false ) ) ( set-path ( 16:trunk/README/new 3 false ( ) exclude ) ) ",
        BAD_REPORT,
    ),
    // a target that is there has no such folder, or is a file
    (
        b"svn://h",
        b"( update ( ( ) 5:trunk true ) )",
        b"( set-path ( 0: 3 false ) ) ( set-path ( 7:none/at 3 false ) ) ",
        BAD_REPORT,
    ),
    (
        b"svn://h/trunk",
        b"( update ( ( ) 6:README true ) )",
        b"( set-path ( 0: 3 false ) ) ( set-path ( 2:at 3 false ) ) ",
        BAD_REPORT,
    ),
    (
        b"svn://h",
        b"( update ( ( ) 9:trunk/lib true ) )",
        b"( set-path ( 0: 3 true ) ) ",
        UNSUPPORTED,
    ),
    // of another URL: nothing is there, it is the folder that is switched, it is of another root, or something below isn't there
    (
        b"svn://h",
        NEWEST,
        b"( set-path ( 0: 3 false ) ) ( link-path ( 4:tags 9:svn://h/x 3 false ) ) ",
        NO_PATH,
    ),
    (
        b"svn://h",
        NEWEST,
        b"( set-path ( 0: 3 false ) ) ( link-path ( 0: 12:svn://h/tags 3 false ) ) ",
        BAD_REPORT,
    ),
    (
        b"svn://h",
        NEWEST,
        b"( set-path ( 0: 3 false ) ) ( link-path ( 4:tags 13:svn://i/trunk 3 false ) ) ",
        OTHER_ROOT,
    ),
    (
        b"svn://h/tags",
        NEWEST,
        b"( set-path ( 0: 3 false ) ) ( link-path ( 1:x 13:svn://h/trunk 3 false ) ) ( set-path ( 5:x/new 1 false ) ) ",
        NO_PATH,
    ),
    (
        b"svn://h/trunk",
        b"( update ( ( 4 ) 3:new true ) )",
        b"( set-path ( 0: 0 false ) ) ( delete-path ( 0: ) ) ",
        NO_REVISION,
    ),
    (
        b"svn://h/trunk",
        b"( update ( ( ) 3:new true ) )",
        b"( set-path ( 0: 4 false ) ) ( delete-path ( 0: ) ) ",
        NO_REVISION,
    ),
    // a target that is there is set to a revision in which nothing is there
    (
        b"svn://h/trunk",
        b"( update ( ( ) 3:new true ) )",
        b"( set-path ( 0: 3 false ) ) ( set-path ( 0: 1 false ) ) ",
        NO_PATH,
    ),
    (
        b"svn://h",
        b"( update ( ( ) 5:trunk true ) )",
        b"",
        BAD_REPORT,
    ),
    (
        b"svn://h",
        b"( update ( ( ) 5:trunk true ) )",
        b"( set-path ( 3:lib 3 true ) ) ",
        BAD_REPORT,
    ),
    (
        b"svn://h/trunk",
        b"( update ( ( ) 3:lib true ) )",
        b"( set-path ( 0: 3 false ) ) ( set-path ( 3:a.c 1 false ) ) ",
        BAD_REPORT,
    ),
];

// Whether a case is told so, and no edit is.
fn is_told<P: RepoPort>(alloc: Global, port: &mut P, case: &Case<'_>, why: &[u8]) -> bool {
    match answered(alloc, port, case, Vec::new(alloc)) {
        Ok((told, sent)) => !sent && told.as_slice() == why,
        Err(_) => false,
    }
}

// The first row that isn't told so.
fn first_wrong<P: RepoPort>(alloc: Global, port: &mut P) -> Option<&'static [u8]> {
    for row in &ROWS {
        let case = Case {
            url: row.0,
            asked: row.1,
            reported: row.2,
        };
        if !is_told(alloc, port, &case, row.3) {
            return Some(row.2);
        }
    }
    None
}

#[test]
fn reports(rt: HostRuntime) {
    let alloc = rt.alloc();
    let mut port = site(alloc).expect(&rt, "memory");
    if let Some(bytes) = first_wrong(alloc, &mut port) {
        rt.panic(str::from_utf8(bytes).unwrap_or("bytes that are no text"));
    }
}

// Commands, and whether a report follows them; 0 where they are ordered, or a failure's number.
const ORDERS: [(&[u8], bool, u64); 17] = [
    (b"( update ( ( ) 0: true ) )", true, 0),
    (b"( update ( ( 9 ) 0: true unknown false false ) )", true, 0),
    (b"( update ( ( ) 0: false ) )", true, 0),
    (b"( update ( ( ) 1:a true ) )", true, 0),
    (b"( update ( ( ) 1:a false empty ) )", true, 0),
    (b"( update ( ( ) 3:a/b true ) )", true, 200_007),
    (b"( update ( ( ) 3:a/b true files ) )", true, 200_007),
    (b"( switch ( ( ) 1:a true 15:svn://h/trunk/a ) )", true, 0),
    (b"( switch ( ( ) 1:a true 9:svn://h/a ) )", true, 0),
    (b"( switch ( ( ) 1:a true 9:svn://i/a ) )", true, 170_000),
    (
        b"( diff ( ( ) 1:a true false 17:svn://h/trunk/a/b ) )",
        true,
        0,
    ),
    (b"( status ( 0: true ) )", true, 0),
    (b"( status ( 0: false ) )", true, 0),
    (b"( switch ( ( ) 0: true 14:svn://h/a/b%20 ) )", true, 0),
    (b"( switch ( ( ) 0: true 9:svn://i/a ) )", true, 170_000),
    (
        b"( diff ( ( ) 0: true false 10:http://h/a ) )",
        true,
        170_000,
    ),
    (b"( get-latest-rev ( ) )", false, 200_007),
];

fn number_of(order: Result<(), Stop>) -> u64 {
    match order {
        Ok(()) => 0,
        Err(Stop::Denied(why)) => why.number(),
        Err(_) => 1,
    }
}

// The first command that is ordered otherwise.
fn first_other(alloc: Global) -> Option<&'static [u8]> {
    for row in &ORDERS {
        let case = Case {
            url: b"svn://h/trunk",
            asked: row.0,
            reported: b"",
        };
        match order(alloc, &case) {
            Some((awaits, order)) => {
                if awaits != row.1 || number_of(order) != row.2 {
                    return Some(row.0);
                }
            }
            None => return Some(row.0),
        }
    }
    None
}

#[test]
fn orders(rt: HostRuntime) {
    if let Some(bytes) = first_other(rt.alloc()) {
        rt.panic(str::from_utf8(bytes).unwrap_or("bytes that are no text"));
    }
    assert!(rt; Denial::BadReport.number() == 165_004);
}
