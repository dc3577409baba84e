//! Sets whose bytes are spelled out by hand.

use crate::roads::{comes_next, sent};
use crate::sets::{COPY_LESS_ONE, commit, over, set};
use crate::streams_for_tests::items_from;
use dump_load::ChangeSet;
use path_tree::Tree;
use std::alloc::Global;
use std::process::Abort;
use std::rt::HostRuntime;

/// A file that is added, with its text.
pub(crate) const ADDED: &[u8] =
    b"( target-rev ( 1 ) ) ( open-root ( ( 0 ) 2:t0 ) ) ( add-file ( 1:a 2:t0 2:t1 ( ) ) ) ( apply-textdelta ( 2:t1 ( ) ) ) ( textdelta-chunk ( 2:t1 4:SVN\x00 ) ) ( textdelta-chunk ( 2:t1 12:\x00\x00\x06\x01\x06\x86hello\n ) ) ( textdelta-end ( 2:t1 ) ) ( close-file ( 2:t1 ( 32:b1946ac92492d2347c6235b4d2611184 ) ) ) ( close-dir ( 2:t0 ) ) ( finish-replay ( ) ) ";

// A copy of a directory in which a file goes.
const COPIED: &[u8] =
    b"( target-rev ( 2 ) ) ( open-root ( ( 1 ) 2:t0 ) ) ( add-dir ( 1:b 2:t0 2:t1 ( 2:/t 1 ) ) ) ( delete-entry ( 3:b/x ( 1 ) 2:t1 ) ) ( close-dir ( 2:t1 ) ) ( close-dir ( 2:t0 ) ) ( finish-replay ( ) ) ";

/// A set with every command.
pub(crate) const FULL: &[u8] =
    b"( target-rev ( 7 ) ) ( open-root ( ( 6 ) 2:t0 ) ) ( change-dir-prop ( 2:t0 1:p ( 3:one ) ) ) ( open-dir ( 1:d 2:t0 2:t1 ( 6 ) ) ) ( change-dir-prop ( 2:t1 1:q ( ) ) ) ( add-file ( 3:d/f 2:t1 2:t2 ( 2:/g 3 ) ) ) ( change-file-prop ( 2:t2 1:r ( 2:\x00\n ) ) ) ( apply-textdelta ( 2:t2 ( ) ) ) ( textdelta-chunk ( 2:t2 4:SVN\x00 ) ) ( textdelta-chunk ( 2:t2 12:\x00\x00\x06\x01\x06\x86hello\n ) ) ( textdelta-end ( 2:t2 ) ) ( close-file ( 2:t2 ( 32:b1946ac92492d2347c6235b4d2611184 ) ) ) ( delete-entry ( 3:d/x ( 6 ) 2:t1 ) ) ( add-dir ( 3:d/y 2:t1 2:t3 ( ) ) ) ( close-dir ( 2:t3 ) ) ( close-dir ( 2:t1 ) ) ( open-file ( 1:e 2:t0 2:t4 ( 6 ) ) ) ( change-file-prop ( 2:t4 1:s ( ) ) ) ( close-file ( 2:t4 ( ) ) ) ( close-dir ( 2:t0 ) ) ( finish-replay ( ) ) ";

// The same in other forms: other tokens and white space, zeros in front, more behind the parameters, a source without
// its slash, a sum in capitals, windows cut elsewhere, an end that is announced.
const OTHER: &[u8] =
    b"( target-rev ( 007 ) x )\n( open-root ( ( 6 9 ) 0: ) ) ( change-dir-prop ( 0: 1:p ( 3:one ) ) ) ( open-dir ( 1:d 0: 1:x ( 6 ) y ) ) ( change-dir-prop ( 1:x 1:q ( ) ) ) ( add-file ( 3:d/f 1:x 3:\xff\x00  ( 1:g 03 ) ) ) ( change-file-prop ( 3:\xff\x00  1:r ( 2:\x00\n 1:z ) ) ) ( apply-textdelta ( 3:\xff\x00  ( 4:base ) ) ) ( textdelta-chunk ( 3:\xff\x00  9:SVN\x00\x80\x00\x00\x06\x01 ) ) ( textdelta-chunk ( 3:\xff\x00  0: ) ) ( textdelta-chunk ( 3:\xff\x00  8:\x06\x86hello\n ) ) ( textdelta-end ( 3:\xff\x00  ) ) ( close-file ( 3:\xff\x00  ( 32:B1946AC92492D2347C6235B4D2611184 ) ) ) ( delete-entry ( 3:d/x ( 6 ) 1:x ) ) ( add-dir ( 3:d/y 1:x 3:\xff\x00  ( ) ) ) ( close-dir ( 3:\xff\x00  ) ) ( close-dir ( 1:x ) ) ( open-file ( 1:e 0: 1:x ( 6 ) ) ) ( change-file-prop ( 1:x 1:s ( ) ) ) ( close-file ( 1:x ( ) ) ) ( close-dir ( 0: ) ) ( close-edit ( ) ) ( finish-replay ( ) ) ";

// A directory with two files.
const TWO_FILES: &str = "add t dir\t;add t/x file\t\tx;add t/y file\t\ty";

// What revision 1 of the longer history adds.
const BEGUN: &str = "add d dir\tq=2;add d/x file\t\t;add e file\ts=4\t;add g file\t\t";

// What revision 7 of it changes, in which a file is copied with another text and a property.
const CHANGED: &str =
    "change /\tp=one;change d\t;add d/f file g 3\tr=\x00\n\thello\n;delete d/x;add d/y dir\t;change e\t";

/// Seven revisions, and the set behind them with every command.
pub(crate) fn every_command(rt: &impl Abort, alloc: Global) -> (Vec<Tree>, ChangeSet) {
    let mut trees = over(rt, alloc, BEGUN);
    for _ in 2..7 {
        commit(rt, alloc, &mut trees, &ChangeSet::empty(alloc));
    }
    (trees, set(rt, alloc, CHANGED))
}

// Whether a set is sent as these bytes.
fn is_sent_as(alloc: Global, trees: &[Tree], set: &ChangeSet, bytes: &[u8]) -> bool {
    match sent(alloc, trees, set, Vec::new(alloc)) {
        Ok(found) => found.as_slice() == bytes,
        Err(_) => false,
    }
}

// Whether a set that makes the same tree is received from these bytes, whole and one at a time.
fn is_received_from(
    rt: &impl Abort,
    alloc: Global,
    trees: &[Tree],
    set: &ChangeSet,
    bytes: &[u8],
) -> bool {
    let mut whole = items_from(alloc, bytes, bytes.len(), false);
    let mut single = items_from(alloc, bytes, 1, false);
    comes_next(rt, alloc, trees, set, &mut whole) && comes_next(rt, alloc, trees, set, &mut single)
}

// Whether the set that lines spell, over the revision that others spell, is sent as these bytes and received from them.
fn is_spelled(
    rt: &impl Abort,
    alloc: Global,
    first: &str,
    lines: &str,
    bytes: &[u8],
) -> (bool, bool) {
    let trees = over(rt, alloc, first);
    let set = set(rt, alloc, lines);
    (
        is_sent_as(alloc, trees.as_slice(), &set, bytes),
        is_received_from(rt, alloc, trees.as_slice(), &set, bytes),
    )
}

#[test]
fn an_added_file(rt: HostRuntime) {
    let (is_sent, is_received) = is_spelled(&rt, rt.alloc(), "", "add a file\t\thello\n", ADDED);
    assert!(rt; is_sent);
    assert!(rt; is_received);
}

#[test]
fn a_copied_directory(rt: HostRuntime) {
    let (is_sent, is_received) = is_spelled(&rt, rt.alloc(), TWO_FILES, COPY_LESS_ONE, COPIED);
    assert!(rt; is_sent);
    assert!(rt; is_received);
}

#[test]
fn a_set_with_every_command(rt: HostRuntime) {
    let (trees, set) = every_command(&rt, rt.alloc());
    assert!(rt; is_sent_as(rt.alloc(), trees.as_slice(), &set, FULL));
    assert!(rt; is_received_from(&rt, rt.alloc(), trees.as_slice(), &set, FULL));
    assert!(rt; is_received_from(&rt, rt.alloc(), trees.as_slice(), &set, OTHER));
}
