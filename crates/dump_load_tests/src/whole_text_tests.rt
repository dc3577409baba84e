//! Texts that are given as deltas, made whole over trees.

use crate::spelled::{add, none_is_wrong, records, two_trees};
use dump_text::{DeltaBytes, DeltaText, NodeRecord};
use node_base::Text;
use path_tree::Tree;
use std::alloc::Global;
use std::process::Abort;
use whole_texts::laws::{one_cause, one_whole, without_deltas};
use whole_texts::{ReadNode, TextRefusal, make_whole, text_refusal};

// A text, and what becomes of it.
const ONE: &[u8] = b"one\ntwo\nthree\nfour\nfive\nsix\n";

const TWO: &[u8] = b"one\ntwo\nthree\n4\nfive\nsix\n";

// Their sums.
const SUM_1: [u8; 16] = [
    0xB2, 0x56, 0xE7, 0xFA, 0x23, 0xF1, 0x05, 0x53, 0x90, 0x85, 0xC7, 0xC8, 0x95, 0x55, 0x7C, 0x41,
];

const SUM_2: [u8; 16] = [
    0xFD, 0x31, 0xF8, 0x74, 0x32, 0x1C, 0x04, 0x89, 0x0B, 0x16, 0xF7, 0x2C, 0xC9, 0x03, 0xE9, 0xF9,
];

// The first as `svnadmin dump --deltas` gives it, and the second as a delta over it.
const FIRST: &[u8] = b"SVN\0\0\0\x1C\x01\x1C\x9Cone\ntwo\nthree\nfour\nfive\nsix\n";

const SECOND: &[u8] = b"SVN\0\0\x1C\x19\x05\x01\x0E\0\x81\n\x124";

// Revision 0; 1 with t/x and t/y, without a byte; and 2, in which t/x has the first text.
fn trees(rt: &impl Abort, alloc: Global) -> Vec<Tree> {
    let mut trees = two_trees(rt, alloc);
    let mut stated = records(rt, alloc, "change t/x");
    let bytes = Vec::from_slice(alloc, ONE).expect(rt, "memory");
    if let Some(last) = stated.last_mut() {
        last.text = Some(Text::new(alloc, bytes).expect(rt, "a text"));
    }
    add(rt, alloc, &mut trees, stated);
    trees
}

// A delta of these bytes, with these sums beside it.
fn delta(
    rt: &impl Abort,
    alloc: Global,
    bytes: &[u8],
    base_sum: Option<[u8; 16]>,
    sum: Option<[u8; 16]>,
) -> DeltaText {
    let bytes = Vec::from_slice(alloc, bytes).expect(rt, "memory");
    DeltaText {
        bytes: DeltaBytes::new(bytes),
        base_sum,
        sum,
    }
}

// The nodes that lines spell, the last with a delta.
fn nodes(rt: &impl Abort, alloc: Global, lines: &str, delta: Option<DeltaText>) -> Vec<ReadNode> {
    let mut read = Vec::new(alloc);
    for node in records(rt, alloc, lines) {
        read.push(ReadNode { node, delta: None })
            .expect(rt, "memory");
    }
    if let Some(last) = read.last_mut() {
        last.delta = delta;
    }
    read
}

// Whether the last of records has this text.
fn ends_with(whole: &[NodeRecord], wanted: &[u8]) -> bool {
    match whole.last() {
        Some(last) => match &last.text {
            Some(text) => text.as_slice() == wanted,
            None => false,
        },
        None => false,
    }
}

// What becomes of nodes: the number of the refusal, or 0 where the last gets this text.
fn answer(rt: &impl Abort, alloc: Global, read: Vec<ReadNode>, wanted: &[u8]) -> u8 {
    let trees = trees(rt, alloc);
    match make_whole(alloc, trees.as_slice(), read) {
        Ok(whole) => {
            if ends_with(whole.as_slice(), wanted) {
                0
            } else {
                u8::MAX
            }
        }
        Err(fault) => fault.number(),
    }
}

// Where the delta is, and what becomes of it.
const PLACES: [(&str, u8); 15] = [
    ("change t/x", 0),
    ("add t/n file t/x 2", 0),
    ("replace t/x file t/x 2", 0),
    ("add b dir t 2\nchange b/x", 0),
    ("replace t dir t 2\nchange t/x", 0),
    ("change t/n", 11),
    ("delete t\nchange t/x", 11),
    ("replace t dir\nchange t/x", 11),
    ("change t", 17),
    ("add t/n file t/x 3", 14),
    ("add t/n file t/q 2", 14),
    ("add t/n file t 2", 17),
    ("add t/n file", 44),
    ("change t/y", 44),
    ("add t/n file t/x 1", 44),
];

// The first lines whose last node isn't answered so.
fn first_other<'a>(rt: &impl Abort, alloc: Global, table: &'a [(&'a str, u8)]) -> Option<&'a str> {
    for (lines, wanted) in table {
        let read = nodes(
            rt,
            alloc,
            *lines,
            Some(delta(rt, alloc, SECOND, None, None)),
        );
        if answer(rt, alloc, read, TWO) != *wanted {
            return Some(*lines);
        }
    }
    None
}

#[test]
fn where_a_base_is_found(rt: HostRuntime) {
    none_is_wrong(&rt, first_other(&rt, rt.alloc(), &PLACES));
}

// What becomes of a change of t/x by these bytes with these sums.
fn answer_to(
    rt: &impl Abort,
    alloc: Global,
    bytes: &[u8],
    base_sum: Option<[u8; 16]>,
    sum: Option<[u8; 16]>,
    wanted: &[u8],
) -> u8 {
    let given = delta(rt, alloc, bytes, base_sum, sum);
    answer(
        rt,
        alloc,
        nodes(rt, alloc, "change t/x", Some(given)),
        wanted,
    )
}

#[test]
fn sums_are_compared(rt: HostRuntime) {
    let alloc = rt.alloc();
    let both = answer_to(&rt, alloc, SECOND, Some(SUM_1), Some(SUM_2), TWO);
    assert!(rt; both == 0);
    let base = answer_to(&rt, alloc, SECOND, Some(SUM_2), None, TWO);
    assert!(rt; base == 6);
    let made = answer_to(&rt, alloc, SECOND, Some(SUM_1), Some(SUM_1), TWO);
    assert!(rt; made == 6);
    let alone = answer_to(&rt, alloc, FIRST, None, Some(SUM_1), ONE);
    assert!(rt; alone == 0);
}

// A window that makes 102,401 bytes.
const OVERFULL: &[u8] = b"SVN\0\0\0\x86\xA0\x01\x01\x01";

#[test]
fn bytes_that_are_no_delta(rt: HostRuntime) {
    let alloc = rt.alloc();
    assert!(rt; answer_to(&rt, alloc, b"SVN\0", None, None, &[]) == 0);
    assert!(rt; answer_to(&rt, alloc, b"SVN", None, None, &[]) == 44);
    assert!(rt; answer_to(&rt, alloc, b"SVN\x01", None, None, &[]) == 44);
    assert!(rt; answer_to(&rt, alloc, OVERFULL, None, None, &[]) == 8);
}

// How many records become of lines without a delta, and whether the last has no text.
fn own(rt: &impl Abort, alloc: Global, lines: &str) -> Option<(usize, bool)> {
    let trees = trees(rt, alloc);
    match make_whole(alloc, trees.as_slice(), nodes(rt, alloc, lines, None)) {
        Ok(whole) => match whole.last() {
            Some(last) => Some((whole.len(), last.text.is_none())),
            None => None,
        },
        Err(_) => None,
    }
}

#[test]
fn nodes_without_a_delta_stay(rt: HostRuntime) {
    let found = own(&rt, rt.alloc(), "add b dir q 9\nchange t/none");
    assert!(rt; found == Some((2, true)));
}

#[test]
fn refusals_are_those_of_the_table(rt: HostRuntime) {
    assert!(rt; text_refusal(TextRefusal::NoSource).number() == 14);
}

#[test]
fn laws_are_called() {
    one_whole();
    one_cause();
    without_deltas();
}
