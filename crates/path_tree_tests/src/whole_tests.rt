//! Two dumps as they are written, one of a file and one of a copy, cut and changed at each byte; and what is announced.

use crate::checked::all_hold;
use crate::piece_tests::{each_change_agrees, each_front_agrees, gives, keeps};
use std::alloc::Global;
use std::process::Abort;

// A file that is added, with its text and a log: a beginning, revision 0 and revision 1.
const ADDED: &[u8] = b"SVN-fs-dump-format-version: 2

Revision-number: 0
Prop-content-length: 10
Content-length: 10

PROPS-END

Revision-number: 1
Prop-content-length: 29
Content-length: 29

K 7
svn:log
V 2
hi
PROPS-END

Node-path: a
Node-kind: file
Node-action: add
Prop-content-length: 10
Text-content-length: 6
Text-content-md5: b1946ac92492d2347c6235b4d2611184
Content-length: 16

PROPS-END
hello


";

// A copy of a directory in which a file is deleted.
const COPIED: &[u8] = b"SVN-fs-dump-format-version: 2

Revision-number: 2
Prop-content-length: 10
Content-length: 10

PROPS-END

Node-path: b
Node-kind: dir
Node-action: add
Node-copyfrom-rev: 1
Node-copyfrom-path: t



Node-path: b/x
Node-action: delete



";

#[test]
fn they_are_read_and_each_front_agrees(rt: HostRuntime) {
    let added = ADDED.len() == 380 && gives(rt.alloc(), ADDED, 4096, 3, 0);
    let copied = COPIED.len() == 31 + 203 && gives(rt.alloc(), COPIED, 4096, 3, 0);
    all_hold(&rt, &[(added, "the file"), (copied, "the copy")]);
    each_front_agrees(&rt, rt.alloc(), ADDED);
    each_front_agrees(&rt, rt.alloc(), COPIED);
}

// Ends the test with the first change of a byte that is answered otherwise byte by byte.
fn all_changes_agree(rt: &impl Abort, alloc: Global, dump: &[u8]) {
    for first in 0..8u8 {
        each_change_agrees(rt, alloc, dump, first.saturating_mul(32));
    }
}

#[test]
fn each_change_of_an_added_file_agrees(rt: HostRuntime) {
    all_changes_agree(&rt, rt.alloc(), ADDED);
}

#[test]
fn each_change_of_a_copy_agrees(rt: HostRuntime) {
    all_changes_agree(&rt, rt.alloc(), COPIED);
}

// What announces the greatest lengths, and how many bytes are kept of what has come, a name or a path: nothing is kept of
// what is to come.
const ANNOUNCED: [(&[u8], u8); 4] = [
    (
        b"SVN-fs-dump-format-version: 2\n\nRevision-number: 1\nProp-content-length: 33554432\n\n",
        0,
    ),
    (
        b"SVN-fs-dump-format-version: 2\n\nRevision-number: 1\nProp-content-length: 33554432\n\nK 255\n",
        0,
    ),
    (
        b"SVN-fs-dump-format-version: 2\n\nRevision-number: 1\nProp-content-length: 33554432\n\nK 1\np\nV 65536\n",
        1,
    ),
    (
        b"SVN-fs-dump-format-version: 2\n\nRevision-number: 1\n\nNode-path: a\nNode-action: change\nText-content-length: 1048576\n\n",
        1,
    ),
];

#[test]
fn what_is_announced_is_not_kept(rt: HostRuntime) {
    for (bytes, held) in &ANNOUNCED {
        assert!(rt; keeps(rt.alloc(), bytes, u128::from(*held), 2));
    }
}
