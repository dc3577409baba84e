//! Which items are which command.

use crate::helpers_for_tests::{first_changed, first_wrong, item_of, none_is_told};
use crate::sessions::{CHANGES, COPY, DUMP, INIT, LOOKS, MIRROR, SYNC};
use ra_wire::command::Command;
use ra_wire::law;
use std::alloc::Global;

// Each command in the spelling that is written.
const PLAIN: [&[u8]; 16] = [
    b"( get-latest-rev ( ) ) ",
    b"( check-path ( 1:a ( 3 ) ) ) ",
    b"( check-path ( 1:a ( ) ) ) ",
    b"( check-path ( 0: ( ) ) ) ",
    b"( get-file ( 5:b/x y ( 1 ) false true ) ) ",
    b"( get-file ( 1:a ( 1 ) false true ) ) ",
    b"( get-dir ( 0: ( ) true false ) ) ",
    b"( rev-proplist ( 0 ) ) ",
    b"( rev-prop ( 1 7:svn:log ) ) ",
    b"( change-rev-prop2 ( 1 7:svn:log ( 2:ho ) ( true ) ) ) ",
    b"( change-rev-prop2 ( 1 7:svn:log ( 2:ho ) ( false ) ) ) ",
    b"( change-rev-prop2 ( 1 7:svn:log ( 2:ho ) ( false 2:hi ) ) ) ",
    b"( change-rev-prop2 ( 1 7:svn:log ( ) ( false 0: ) ) ) ",
    b"( replay ( 18446744073709551615 0 true ) ) ",
    b"( replay-range ( 0 0 0 true ) ) ",
    b"( replay-range ( 3 1 0 true ) ) ",
];

#[test]
fn each_command_is_itself(rt: HostRuntime) {
    none_is_told(&rt, first_changed(rt.alloc(), PLAIN.as_slice()));
}

// Other spellings of them: a slash in front, a missing last part, elements that the prototype doesn't have, leading
// zeros.
const OTHERS: [(&[u8], &[u8]); 9] = [
    (b"( get-latest-rev ( 1 ) 2 ) ", b"( get-latest-rev ( ) ) "),
    (
        b"( check-path ( 2:/a ( 03 9 ) x ) ( ) ) ",
        b"( check-path ( 1:a ( 3 ) ) ) ",
    ),
    (
        b"( check-path ( 1:/ ( ) ) ) ",
        b"( check-path ( 0: ( ) ) ) ",
    ),
    (
        b"( get-dir ( 0: ( ) true false ( kind size ) ) ) ",
        b"( get-dir ( 0: ( ) true false ) ) ",
    ),
    (
        b"( get-file ( 2:/a ( ) true false false ) ) ",
        b"( get-file ( 1:a ( ) true false ) ) ",
    ),
    (
        b"( change-rev-prop ( 1 7:svn:log 2:no ) ) ",
        b"( change-rev-prop2 ( 1 7:svn:log ( 2:no ) ( true ) ) ) ",
    ),
    (
        b"( change-rev-prop ( 1 7:svn:log ) ) ",
        b"( change-rev-prop2 ( 1 7:svn:log ( ) ( true ) ) ) ",
    ),
    (
        b"( change-rev-prop2 ( 1 1:p ( 0: 1:x ) ( false 1:v 1:w ) 1 ) ) ",
        b"( change-rev-prop2 ( 1 1:p ( 0: ) ( false 1:v ) ) ) ",
    ),
    (b"( replay ( 1 0 true 7 ) ) ", b"( replay ( 1 0 true ) ) "),
];

#[test]
fn other_spellings(rt: HostRuntime) {
    none_is_told(&rt, first_wrong(rt.alloc(), OTHERS.as_slice()));
}

// No commands: another form is 48, an unknown name 47 whatever its parameters are, another form of a replay 43.
const REFUSED: [(&[u8], &[u8]); 17] = [
    (b"( frob ) ", b"48 "),
    (b"get-latest-rev ", b"48 "),
    (b"( 1:a ( ) ) ", b"48 "),
    (b"( check-path ( 1:a ) ) ", b"48 "),
    (b"( check-path ( 3://a ( ) ) ) ", b"48 "),
    (b"( check-path ( 2:a/ ( ) ) ) ", b"48 "),
    (b"( check-path ( 1:a ( 1:3 ) ) ) ", b"48 "),
    (b"( get-file ( 1:a ( ) yes true ) ) ", b"48 "),
    (b"( get-dir ( 0: ( ) true false 1 ) ) ", b"48 "),
    (b"( rev-prop ( 1 0: ) ) ", b"48 "),
    (b"( change-rev-prop2 ( 1 1:p ( ) ( true 1:v ) ) ) ", b"48 "),
    (b"( change-rev-prop2 ( 1 1:p ( ) ) ) ", b"48 "),
    (b"( replay ( 1 0 ) ) ", b"48 "),
    (b"( frob ( ) ) ( get-latest-revs ( 1 2 ) ) ", b"47 47 "),
    (b"( replay ( 9 1 true ) ) ", b"43 "),
    (b"( replay ( 9 0 false ) ) ", b"43 "),
    (b"( replay-range ( 9 9 1 true ) ) ", b"43 "),
];

#[test]
fn refused(rt: HostRuntime) {
    none_is_told(&rt, first_wrong(rt.alloc(), REFUSED.as_slice()));
}

// Each is in the one spelling already.
#[test]
fn commands_of_clients(rt: HostRuntime) {
    let own: [&[u8]; 6] = [DUMP, INIT, SYNC, COPY, CHANGES, MIRROR];
    none_is_told(&rt, first_changed(rt.alloc(), own.as_slice()));
}

// What `svn` asks has elements that the prototypes don't have, and commands of other names.
#[test]
fn looks_of_clients(rt: HostRuntime) {
    none_is_told(&rt, first_wrong(rt.alloc(), LOOKS.as_slice()));
}

// Whether bytes are a command, which the law of its reading takes.
fn is_command(alloc: Global, bytes: &[u8]) -> bool {
    let Some(item) = item_of(alloc, bytes) else {
        return false;
    };
    match Command::parse(alloc, item) {
        Ok(command) => {
            law::command_is_read_again(&command);
            true
        }
        Err(_) => false,
    }
}

// Laws take nothing, or a value, and do nothing.
#[test]
fn laws_can_be_named(rt: HostRuntime) {
    law::forms_are_read();
    law::one_command();
    law::unknown_is_told();
    law::other_replay_is_told();
    law::prototypes_are_read();
    law::openings_are_read_again();
    law::answers_are_read_again();
    assert!(rt; is_command(rt.alloc(), b"( check-path ( 1:a ( 3 ) ) ) "));
}
