//! Edits as Subversion's svnserve 1.14.2 sends them, whose texts come as differences.

use crate::checked::none_is_wrong;
use crate::sets::path;
use crate::streams_for_tests::items_from;
use dump_load::Applied;
use edit_road::receive::receive_set;
use edit_road::receive_deltas::receive_set_of_deltas;
use path_tree::Tree;
use ra_edit::edit_fault::EditFault;
use std::alloc::Global;
use std::process::Abort;
use std::rt::HostRuntime;

// What it sent of three revisions: a file is added, it is changed, and a copy of it is changed.
const SENT: [&[u8]; 3] = [
    b"( target-rev ( 1 ) ) ( open-root ( ( ) 2:d0 ) ) ( add-file ( 1:f 2:d0 2:c1 ( ) ) ) ( apply-textdelta ( 2:c1 ( ) ) ) ( textdelta-chunk ( 2:c1 14:SVN\x00\x00\x00\x810\x03\x810\x80\x810 ) ) ( textdelta-chunk ( 2:c1 176:line 00 of the file f\nline 01 of the file f\nline 02 of the file f\nline 03 of the file f\nline 04 of the file f\nline 05 of the file f\nline 06 of the file f\nline 07 of the file f\n ) ) ( textdelta-end ( 2:c1 ) ) ( close-file ( 2:c1 ( 32:e61654e3504f52179cf49712b6ec0237 ) ) ) ( close-dir ( 2:d0 ) ) ( finish-replay ( ) ) ",
    b"( target-rev ( 2 ) ) ( open-root ( ( ) 2:d0 ) ) ( open-file ( 1:f 2:d0 2:c1 ( ) ) ) ( apply-textdelta ( 2:c1 ( 32:e61654e3504f52179cf49712b6ec0237 ) ) ) ( textdelta-chunk ( 2:c1 4:SVN\x00 ) ) ( textdelta-chunk ( 2:c1 7:\x00\x810\x81/\x07\x05 ) ) ( textdelta-chunk ( 2:c1 7:\x00B\x00\x85\x00hH ) ) ( textdelta-chunk ( 2:c1 5:LINE  ) ) ( textdelta-end ( 2:c1 ) ) ( close-file ( 2:c1 ( 32:647e07044c6bd4beb4f1a34de843b190 ) ) ) ( close-dir ( 2:d0 ) ) ( finish-replay ( ) ) ",
    b"( target-rev ( 3 ) ) ( open-root ( ( ) 2:d0 ) ) ( add-file ( 1:g 2:d0 2:c1 ( 2:/f 2 ) ) ) ( apply-textdelta ( 2:c1 ( 32:647e07044c6bd4beb4f1a34de843b190 ) ) ) ( textdelta-chunk ( 2:c1 4:SVN\x00 ) ) ( textdelta-chunk ( 2:c1 7:\x00\x81/\x81\x05\x05\x04 ) ) ( textdelta-chunk ( 2:c1 5:\x00\x81\x01.\x84 ) ) ( textdelta-chunk ( 2:c1 4:end\n ) ) ( textdelta-end ( 2:c1 ) ) ( close-file ( 2:c1 ( 32:ef4b004ca26ab78b7f6c8d0908f5ac56 ) ) ) ( close-dir ( 2:d0 ) ) ( finish-replay ( ) ) ",
];

// The file of each, and its text as `svn cat` prints it.
const MADE: [(&str, &[u8]); 3] = [
    (
        "f",
        b"line 00 of the file f\nline 01 of the file f\nline 02 of the file f\nline 03 of the file f\nline 04 of the file f\nline 05 of the file f\nline 06 of the file f\nline 07 of the file f\n",
    ),
    (
        "f",
        b"line 00 of the file f\nline 01 of the file f\nline 02 of the file f\nLINE 3 of the file f\nline 04 of the file f\nline 05 of the file f\nline 06 of the file f\nline 07 of the file f\n",
    ),
    (
        "g",
        b"ne 02 of the file f\nLINE 3 of the file f\nline 04 of the file f\nline 05 of the file f\nline 06 of the file f\nline 07 of the file f\nend\n",
    ),
];

// The same of the second revision, as nobody sends it, and the number of its refusal over the first.
const AMISS: [(&[u8], u8); 12] = [
    // The sum of another base, and what is no sum.
    (
        b"( open-root ( ( ) 1:r ) ) ( open-file ( 1:f 1:r 1:f ( ) ) ) ( apply-textdelta ( 1:f ( 32:e61654e3504f52179cf49712b6ec0238 ) ) ) ",
        6,
    ),
    (
        b"( open-root ( ( ) 1:r ) ) ( open-file ( 1:f 1:r 1:f ( ) ) ) ( apply-textdelta ( 1:f ( 4:base ) ) ) ",
        48,
    ),
    (
        b"( open-root ( ( ) 1:r ) ) ( open-file ( 1:f 1:r 1:f ( ) ) ) ( apply-textdelta ( 1:f ( 9 ) ) ) ",
        48,
    ),
    // A view that ends past the base's 176 bytes; all of it.
    (
        b"( open-root ( ( ) 1:r ) ) ( open-file ( 1:f 1:r 1:f ( ) ) ) ( apply-textdelta ( 1:f ( ) ) ) ( textdelta-chunk ( 1:f 12:SVN\x00\x01\x810\x01\x02\x00\x01\x00 ) ) ",
        44,
    ),
    (
        b"( open-root ( ( ) 1:r ) ) ( open-file ( 1:f 1:r 1:f ( ) ) ) ( apply-textdelta ( 1:f ( ) ) ) ( textdelta-chunk ( 1:f 12:SVN\x00\x00\x810\x01\x02\x00\x01\x00 ) ) ( textdelta-end ( 1:f ) ) ( close-file ( 1:f ( 32:2db95e8e1a9267b7a1188556b2013b33 ) ) ) ( close-dir ( 1:r ) ) ( finish-replay ( ) ) ",
        0,
    ),
    // The same text with the sum of another.
    (
        b"( open-root ( ( ) 1:r ) ) ( open-file ( 1:f 1:r 1:f ( ) ) ) ( apply-textdelta ( 1:f ( ) ) ) ( textdelta-chunk ( 1:f 12:SVN\x00\x00\x810\x01\x02\x00\x01\x00 ) ) ( textdelta-end ( 1:f ) ) ( close-file ( 1:f ( 32:2db95e8e1a9267b7a1188556b2013b30 ) ) ) ",
        6,
    ),
    // Another token, behind windows that are none.
    (
        b"( open-root ( ( ) 1:r ) ) ( open-file ( 1:f 1:r 1:f ( ) ) ) ( apply-textdelta ( 1:f ( ) ) ) ( textdelta-chunk ( 1:r 4:SVN\x09 ) ) ",
        46,
    ),
    (
        b"( open-root ( ( ) 1:r ) ) ( open-file ( 1:f 1:r 1:f ( ) ) ) ( apply-textdelta ( 1:f ( ) ) ) ( textdelta-chunk ( 1:f 4:SVN\x01 ) ) ",
        44,
    ),
    // No text has begun, and one begins again.
    (
        b"( open-root ( ( ) 1:r ) ) ( open-file ( 1:f 1:r 1:f ( ) ) ) ( textdelta-chunk ( 1:f 4:SVN\x00 ) ) ",
        48,
    ),
    (
        b"( open-root ( ( ) 1:r ) ) ( open-file ( 1:f 1:r 1:f ( ) ) ) ( apply-textdelta ( 1:f ( ) ) ) ( apply-textdelta ( 1:f ( ) ) ) ",
        48,
    ),
    // An end inside a window.
    (
        b"( open-root ( ( ) 1:r ) ) ( open-file ( 1:f 1:r 1:f ( ) ) ) ( apply-textdelta ( 1:f ( ) ) ) ( textdelta-chunk ( 1:f 6:SVN\x00\x00\x01 ) ) ( textdelta-end ( 1:f ) ) ",
        44,
    ),
    // A window whose text is too long.
    (
        b"( open-root ( ( ) 1:r ) ) ( open-file ( 1:f 1:r 1:f ( ) ) ) ( apply-textdelta ( 1:f ( ) ) ) ( textdelta-chunk ( 1:f 11:SVN\x00\x00\x00\x86\xa0\x01\x01\x00 ) ) ",
        8,
    ),
];

// What is received over so few trees that it may be.
fn received(
    alloc: Global,
    trees: &[Tree],
    bytes: &[u8],
    size: usize,
) -> Result<Applied, EditFault> {
    if trees.len() > 65_535 {
        return Err(EditFault::TooLong);
    }
    receive_set_of_deltas(alloc, trees, &mut items_from(alloc, bytes, size, false))
}

// Whether a file of a tree has a text.
fn has_text(rt: &impl Abort, alloc: Global, tree: &Tree, name: &str, text: &[u8]) -> bool {
    let path = path(rt, alloc, name);
    match tree.get(path.names()) {
        Some(node) => match &node.text {
            Some(found) => found.as_slice() == text,
            None => false,
        },
        None => false,
    }
}

// The first of the revisions that isn't taken, in pieces of a size, as it was made.
fn first_wrong(rt: &impl Abort, alloc: Global, size: usize) -> Option<usize> {
    let mut trees = Vec::new(alloc);
    trees
        .push(Tree::empty(alloc).expect(rt, "memory"))
        .expect(rt, "memory");
    for (case, (bytes, (name, text))) in SENT.iter().zip(MADE.iter()).enumerate() {
        let Ok(found) = received(alloc, &trees, bytes, size) else {
            return Some(case);
        };
        let Applied { set: _, tree } = found;
        if !has_text(rt, alloc, &tree, name, text) {
            return Some(case);
        }
        trees.push(tree).expect(rt, "memory");
    }
    None
}

#[test]
fn differences_are_taken_as_they_are_sent(rt: HostRuntime) {
    none_is_wrong(&rt, first_wrong(&rt, rt.alloc(), 1_000));
    none_is_wrong(&rt, first_wrong(&rt, rt.alloc(), 1));
}

// The trees of the first so many revisions.
fn trees_before(rt: &impl Abort, alloc: Global, count: usize) -> Vec<Tree> {
    let mut trees = Vec::new(alloc);
    trees
        .push(Tree::empty(alloc).expect(rt, "memory"))
        .expect(rt, "memory");
    for bytes in SENT.iter().take(count) {
        let Applied { set: _, tree } = received(alloc, &trees, bytes, 1_000).expect(rt, "a set");
        trees.push(tree).expect(rt, "memory");
    }
    trees
}

// The number of a refusal, 0 for none.
fn number_of(found: Result<Applied, EditFault>) -> u8 {
    match found {
        Ok(_) => 0,
        Err(fault) => fault.number(),
    }
}

// The first of the others that isn't refused as it is to be.
fn first_taken(rt: &impl Abort, alloc: Global) -> Option<usize> {
    let trees = trees_before(rt, alloc, 1);
    for (case, (bytes, number)) in AMISS.iter().enumerate() {
        if number_of(received(alloc, &trees, bytes, 1_000)) != *number {
            return Some(case);
        }
    }
    None
}

#[test]
fn what_is_amiss_is_refused(rt: HostRuntime) {
    none_is_wrong(&rt, first_taken(&rt, rt.alloc()));
}

#[test]
fn without_differences_a_copy_is_refused(rt: HostRuntime) {
    let alloc = rt.alloc();
    let trees = trees_before(&rt, alloc, 1);
    let mut items = items_from(alloc, SENT[1], 1_000, false);
    assert!(rt; trees.len() <= 65_535);
    assert!(rt; number_of(receive_set(alloc, &trees, &mut items)) == 45);
}
