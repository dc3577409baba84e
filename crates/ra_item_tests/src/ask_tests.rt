//! What Subversion's clients of version 1.14.2 ask and report, as they were recorded, and what older ones leave out.

use crate::asked::{asked, none_is_wrong, reported};
use std::alloc::Global;

// An item, and what it asks.
const ASKS: &str = "( get-latest-rev ( ) ) = ( get-latest-rev ( ) ) plain
( get-dir ( 8:branches ( 10 ) true true ( kind ) false ) ) = ( get-dir ( 8:branches ( 10 ) true true ) ) plain
( stat ( 0: ( 10 ) ) ) = stat / Some(10)
( stat ( 5:trunk ( ) ) ) = stat /trunk None
( log ( ( 0: ) ( 10 ) ( 0 ) true false 0 false revprops ( 10:svn:author 8:svn:date 7:svn:log ) ) ) = log / Some(10) Some(0) true false 0 false svn:author svn:date svn:log
( log ( ( 1:a 1:b ) ( ) ( ) false true 5 true all-revprops ( ) ) ) = log /a /b None None false true 5 true every
( log ( ( 0: ) ( 1 ) ( 0 ) false true ) ) = log / Some(1) Some(0) false true 0 false usual
( log ( ( 0: ) ( 1 ) ( 0 ) false true 7 ) ) = log / Some(1) Some(0) false true 7 false usual
( get-locations ( 0: 10 ( 5 3 ) ) ) = locations / 10: 5 3
( get-location-segments ( 1:a ( 9 ) ( ) ( 2 ) ) ) = segments /a Some(9) None Some(2)
( get-file-revs ( 0: ( 0 ) ( 10 ) false ) ) = file-revs / Some(0) Some(10) false
( get-file-revs ( 0: ( 0 ) ( 10 ) ) ) = file-revs / Some(0) Some(10) false
( reparent ( 21:svn://127.0.0.1:42118 ) ) = reparent svn://127.0.0.1:42118
( get-dated-rev ( 27:2020-01-01T00:16:40.007919Z ) ) = dated-rev 2020-01-01T00:16:40.007919Z
( get-lock ( 0: ) ) = lock /
( get-locks ( 0: ( immediates ) ) ) = locks / Some(Immediates)
( get-locks ( 0: ) ) = locks / Some(Infinity)
( update ( ( 10 ) 0: true unknown false false ) ) = update Some(10) / None false false
( update ( ( 8 ) 0: false files false false ) ) = update Some(8) / Some(Files) false false
( update ( ( 8 ) 1:x false ) ) = update Some(8) /x Some(Files) false false
( switch ( ( 7 ) 2:b1 true 27:svn://127.0.0.1:42118/trunk unknown false true ) ) = switch Some(7) /b1 None false true svn://127.0.0.1:42118/trunk
( status ( 0: true ( ) unknown ) ) = status None / None
( status ( 0: false ) ) = status None / Some(Empty)
( diff ( ( 5 ) 5:trunk true true 27:svn://127.0.0.1:42118/trunk true unknown ) ) = diff Some(5) /trunk None true true svn://127.0.0.1:42118/trunk
( diff ( ( 5 ) 0: true false 11:svn://h/a/b ) ) = diff Some(5) / Some(Infinity) false true svn://h/a/b
( list ( 0: ( 10 ) immediates ( kind ) ) ) = unknown command
( replay ( 1 1 true ) ) = replay form not supported
( update ( ( 10 ) 0: true exclude false false ) ) = depth 'exclude' not supported
( update ( ( 10 ) 0: true deep false false ) ) = bad command shape
( stat ( 4:a//b ( ) ) ) = bad command shape
( get-dated-rev ( ) ) = bad command shape
( get-dated-rev ( 5 ) ) = bad command shape
( log ( ( 0: ) ( 1 ) ( 0 ) false true 0 false some ( ) ) ) = bad command shape
stat = bad command shape";

// An item, and what it reports.
const REPORTS: &str = "( set-path ( 0: 10 true ( ) infinity ) ) = set / 10 true To(Infinity)
( set-path ( 0: 8 true ( ) files ) ) = set / 8 true To(Files)
( set-path ( 1:a 8 false ( 3:tok ) ) ) = set /a 8 false To(Infinity) tok
( set-path ( 1:a 8 false ) ) = set /a 8 false To(Infinity)
( set-path ( 1:a 8 false ( ) exclude ) ) = set /a 8 false Excluded
( delete-path ( 3:a/b ) ) = delete /a/b
( link-path ( 2:b1 27:svn://127.0.0.1:42118/trunk 7 false ( ) infinity ) ) = link /b1 7 false To(Infinity) svn://127.0.0.1:42118/trunk
( link-path ( 2:b1 11:svn://h/a/b 7 false ( ) exclude ) ) = link /b1 7 false Excluded svn://h/a/b
( finish-report ( ) ) = finish
( abort-report ( ) ) = abort
( set-path ( 1:a 8 false ( ) unknown ) ) = bad command shape
( link-path ( 2:b1 11:svn://h/a/b 7 false ( ) unknown ) ) = bad command shape
( success ( ) ) = unknown command";

// The first line whose item doesn't come to what stands beside it, as what is asked or as what is reported.
fn first_other(alloc: Global, table: &str, reports: bool) -> Option<&[u8]> {
    for line in table.lines() {
        let mut out = Vec::new(alloc);
        let Some((item, want)) = line.split_once("= ") else {
            return Some(line.as_bytes());
        };
        let told = if reports {
            reported(alloc, item.as_bytes(), &mut out)
        } else {
            asked(alloc, item.as_bytes(), &mut out)
        };
        if told.is_err() || out.as_slice() != want.as_bytes() {
            return Some(line.as_bytes());
        }
    }
    None
}

#[test]
fn what_clients_ask(rt: HostRuntime) {
    none_is_wrong(&rt, first_other(rt.alloc(), ASKS, false));
}

#[test]
fn what_working_copies_report(rt: HostRuntime) {
    none_is_wrong(&rt, first_other(rt.alloc(), REPORTS, true));
}
