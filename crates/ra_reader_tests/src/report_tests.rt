//! Reports of working copies, from the command that asks for one to what the client says of the edit. The frames are those
//! of `svnserve` 1.14.2, but for a failure's texts and causes behind the first, and for a report that is denied: it is told
//! so at its end alone, and not behind a second list of mechanisms.

use crate::sessions::{ROOT, first_told_else, none_is_wrong, told_at};
use std::alloc::Global;
use std::process::Abort;
use std::rt::HostRuntime;

// What is told of reports that no edit answers: one that is given up, of a revision that isn't there, with an item that
// reports nothing, with a path of another root's URL, one for such a URL, and one whose own depth leaves a path out; and a
// session goes on behind each.
const DENIED: [(&[u8], &[u8]); 8] = [
    (
        b"( update ( ( 3 ) 0: true unknown false false ) ) ( set-path ( 0: 3 true ( ) infinity ) ) ( abort-report ( ) ) ( get-latest-rev ( ) ) ",
        b"( success ( ( ) 0: ) ) ( success ( ) ) ( success ( ( ) 0: ) ) ( success ( 3 ) ) ",
    ),
    (
        b"( update ( ( 9 ) 0: true unknown false false ) ) ( set-path ( 0: 3 true ( ) infinity ) ) ( finish-report ( ) ) ( get-latest-rev ( ) ) ",
        b"( success ( ( ) 0: ) ) ( failure ( ( 160006 16:no such revision 0: 0 ) ) ) ( success ( ( ) 0: ) ) ( success ( 3 ) ) ",
    ),
    (
        b"( update ( ( 3 ) 0: true unknown false false ) ) ( nonsense ( ) ) ( set-path ( 0: ) ) ( finish-report ( ) ) ( get-latest-rev ( ) ) ",
        b"( success ( ( ) 0: ) ) ( failure ( ( 210001 32:this server only answers readers 0: 0 ) ) ) ( success ( ( ) 0: ) ) ( success ( 3 ) ) ",
    ),
    (
        b"( update ( ( 3 ) 0: true unknown false false ) ) ( get-latest-rev ( ) ) ( abort-report ( ) ) ( get-latest-rev ( ) ) ",
        b"( success ( ( ) 0: ) ) ( success ( ) ) ( success ( ( ) 0: ) ) ( success ( 3 ) ) ",
    ),
    (
        b"( update ( ( 3 ) 0: true unknown false false ) ) ( set-path ( 0: ) ) ( finish-report ( ) ) ",
        b"( success ( ( ) 0: ) ) ( failure ( ( 210004 17:bad command shape 0: 0 ) ) ) ",
    ),
    (
        b"( update ( ( 3 ) 0: true unknown false false ) ) ( set-path ( 0: 3 false ( ) infinity ) ) ( link-path ( 5:trunk 25:svn://other:3690/tags/1.0 3 false ( ) infinity ) ) ( finish-report ( ) ) ",
        b"( success ( ( ) 0: ) ) ( failure ( ( 170000 23:not the same repository 0: 0 ) ) ) ",
    ),
    (
        b"( switch ( ( 3 ) 0: true 22:svn://other:3690/trunk unknown false false ) ) ( get-latest-rev ( ) ) ",
        b"( failure ( ( 170000 23:not the same repository 0: 0 ) ) ) ( success ( ( ) 0: ) ) ( success ( 3 ) ) ",
    ),
    (
        b"( update ( ( 3 ) 0: true exclude ) ) ( get-latest-rev ( ) ) ",
        b"( failure ( ( 200007 13:not supported 0: 0 ) ) ) ( success ( ( ) 0: ) ) ( success ( 3 ) ) ",
    ),
];

#[test]
fn reports_without_an_edit(rt: HostRuntime) {
    none_is_wrong(&rt, first_told_else(&rt, rt.alloc(), ROOT, &DENIED));
}

// A command with a report, and what stands in front of the edit that answers it, up to the root's token.
const ORDERS: [(&[u8], &[u8]); 7] = [
    (
        b"( update ( ( 3 ) 0: true unknown false false ) ) ( set-path ( 0: 3 true ( ) infinity ) ) ( finish-report ( ) ) ",
        b"( success ( ( ) 0: ) ) ( success ( ( ) 0: ) ) ( target-rev ( 3 ) ) ( open-root ( ( 3 ) ",
    ),
    (
        b"( update ( ( ) 0: true unknown false false ) ) ( set-path ( 0: 1 false ( ) infinity ) ) ( finish-report ( ) ) ",
        b"( success ( ( ) 0: ) ) ( success ( ( ) 0: ) ) ( target-rev ( 3 ) ) ( open-root ( ( 1 ) ",
    ),
    (
        b"( switch ( ( 3 ) 0: true 29:svn://127.0.0.1:3690/tags/1.0 unknown false false ) ) ( set-path ( 0: 2 false ( ) infinity ) ) ( finish-report ( ) ) ",
        b"( success ( ( ) 0: ) ) ( success ( ( ) 0: ) ) ( target-rev ( 3 ) ) ( open-root ( ( 2 ) ",
    ),
    (
        b"( diff ( ( 2 ) 0: true true 26:svn://127.0.0.1:3690/trunk true unknown ) ) ( set-path ( 0: 1 false ( ) infinity ) ) ( finish-report ( ) ) ",
        b"( success ( ( ) 0: ) ) ( success ( ( ) 0: ) ) ( target-rev ( 2 ) ) ( open-root ( ( 1 ) ",
    ),
    (
        b"( status ( 0: true ( ) unknown ) ) ( set-path ( 0: 1 false ( ) infinity ) ) ( finish-report ( ) ) ",
        b"( success ( ( ) 0: ) ) ( success ( ( ) 0: ) ) ( target-rev ( 3 ) ) ( open-root ( ( 1 ) ",
    ),
    (
        b"( update ( ( 3 ) 0: true unknown false false ) ) ( set-path ( 0: 2 false ( ) infinity ) ) ( set-path ( 5:trunk 2 false ( ) exclude ) ) ( finish-report ( ) ) ",
        b"( success ( ( ) 0: ) ) ( success ( ( ) 0: ) ) ( target-rev ( 3 ) ) ( open-root ( ( 2 ) ",
    ),
    (
        b"( update ( ( 3 ) 0: true unknown false false ) ) ( set-path ( 0: 3 false ( ) infinity ) ) ( link-path ( 3:lib 26:svn://127.0.0.1:3690/trunk 2 false ( 1:t ) infinity ) ) ( finish-report ( ) ) ",
        b"( success ( ( ) 0: ) ) ( success ( ( ) 0: ) ) ( target-rev ( 3 ) ) ( open-root ( ( 3 ) ",
    ),
];

// What a client says of an edit, with a command behind it, and what is told behind the edit: it was applied; it wasn't, and
// that is told back; and what is no reply.
const REPLIES: [(&[u8], &[u8]); 5] = [
    (
        b"( success ( ) ) ( get-latest-rev ( ) ) ",
        b"( close-edit ( ) ) ( success ( ) ) ( success ( ( ) 0: ) ) ( success ( 3 ) ) ",
    ),
    (
        b"( failure ( ( 155000 3:abc 2:fi 7 ) ( 2 1:x 0: 0 ) ) ) ( get-latest-rev ( ) ) ",
        b"( close-edit ( ) ) ( abort-edit ( ) ) ( failure ( ( 155000 3:abc 0: 0 ) ) ) ( success ( ( ) 0: ) ) ( success ( 3 ) ) ",
    ),
    (
        b"( failure ( ) ) ( get-latest-rev ( ) ) ",
        b"( close-edit ( ) ) ( abort-edit ( ) ) ( failure ( ( 210004 17:bad command shape 0: 0 ) ) ) ( success ( ( ) 0: ) ) ( success ( 3 ) ) ",
    ),
    (
        b"( nonsense ( ) ) ( get-latest-rev ( ) ) ",
        b"( close-edit ( ) ) ( abort-edit ( ) ) ( failure ( ( 210004 17:bad command shape 0: 0 ) ) ) ( success ( ( ) 0: ) ) ( success ( 3 ) ) ",
    ),
    (
        b"7 ( get-latest-rev ( ) ) ",
        b"( close-edit ( ) ) ( abort-edit ( ) ) ( failure ( ( 210004 17:bad command shape 0: 0 ) ) ) ( success ( ( ) 0: ) ) ( success ( 3 ) ) ",
    ),
];

// Whether a session at `trunk` that is asked this, and then told what the client says, tells an edit in such a frame.
fn is_framed(
    rt: &impl Abort,
    alloc: Global,
    order: &(&[u8], &[u8]),
    reply: &(&[u8], &[u8]),
) -> bool {
    let mut asked = Vec::from_slice(alloc, order.0).expect(rt, "memory");
    asked.extend_from_slice(reply.0).expect(rt, "memory");
    let told = told_at(rt, alloc, b"svn://127.0.0.1:3690/trunk", &asked);
    told.starts_with(order.1) && told.ends_with(reply.1)
}

// The first of the commands whose edit stands in another frame.
fn first_unframed(rt: &impl Abort, alloc: Global) -> Option<&'static [u8]> {
    for order in &ORDERS {
        for reply in &REPLIES {
            if !is_framed(rt, alloc, order, reply) {
                return Some(order.0);
            }
        }
    }
    None
}

#[test]
fn edits_and_what_clients_say_of_them(rt: HostRuntime) {
    none_is_wrong(&rt, first_unframed(&rt, rt.alloc()));
}

// A report of so many commands, none of which is of the folder.
fn long_report(rt: &impl Abort, alloc: Global, commands: usize) -> Vec<u8> {
    let order = b"( update ( ( 3 ) 0: true unknown false false ) ) ";
    let mut asked = Vec::from_slice(alloc, order).expect(rt, "memory");
    for _ in 0..commands {
        asked
            .extend_from_slice(b"( delete-path ( 1:x ) ) ")
            .expect(rt, "memory");
    }
    asked
        .extend_from_slice(b"( finish-report ( ) ) ")
        .expect(rt, "memory");
    asked
}

#[test]
fn a_report_has_a_limit(rt: HostRuntime) {
    let alloc = rt.alloc();
    let told = told_at(&rt, alloc, ROOT, &long_report(&rt, alloc, 65_536));
    let taken = b"( success ( ( ) 0: ) ) ( failure ( ( 165004 19:bad revision report 0: 0 ) ) ) ";
    assert!(rt; told.as_slice() == taken.as_slice());
    let told = told_at(&rt, alloc, ROOT, &long_report(&rt, alloc, 65_537));
    let denied = b"( success ( ( ) 0: ) ) ( failure ( ( 200007 13:not supported 0: 0 ) ) ) ";
    assert!(rt; told.as_slice() == denied.as_slice());
}

// A report of so many paths of another URL.
fn linked_report(rt: &impl Abort, alloc: Global, links: usize) -> Vec<u8> {
    let order = b"( update ( ( 3 ) 0: true unknown false false ) ) ( set-path ( 0: 3 false ) ) ";
    let mut asked = Vec::from_slice(alloc, order).expect(rt, "memory");
    for _ in 0..links {
        asked
            .extend_from_slice(b"( link-path ( 5:trunk 26:svn://127.0.0.1:3690/trunk 3 false ) ) ")
            .expect(rt, "memory");
    }
    asked
        .extend_from_slice(b"( finish-report ( ) ) ")
        .expect(rt, "memory");
    asked
}

#[test]
fn switched_paths_have_a_limit(rt: HostRuntime) {
    let alloc = rt.alloc();
    let told = told_at(&rt, alloc, ROOT, &linked_report(&rt, alloc, 1_024));
    let sent = b"( success ( ( ) 0: ) ) ( success ( ( ) 0: ) ) ( target-rev ( 3 ) ) ";
    assert!(rt; told.starts_with(sent));
    let told = told_at(&rt, alloc, ROOT, &linked_report(&rt, alloc, 1_025));
    let denied = b"( success ( ( ) 0: ) ) ( failure ( ( 200007 13:not supported 0: 0 ) ) ) ";
    assert!(rt; told.as_slice() == denied.as_slice());
}
