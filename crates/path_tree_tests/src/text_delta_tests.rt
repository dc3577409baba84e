//! Dumps of format 3, whose records may give texts as deltas.

ghost use Rattle.std.specs.Prelude.{◌<◌};

use crate::checked::{all_hold, joined, none_is_wrong};
use crate::piece_tests::{answer_of, gives};
use dump_text::{DeltaText, DumpReader, DumpRecord, NodeRecord};
use std::alloc::Global;
use std::process::Abort;

// What `svnadmin dump --deltas` writes of a file that is added, changed, and copied with a change, without what a revision
// has as properties.
const GIVEN: &[u8] = b"SVN-fs-dump-format-version: 3

Revision-number: 1

Node-path: a
Node-kind: file
Node-action: add
Text-delta: true
Text-content-md5: b256e7fa23f105539085c7c895557c41
Text-content-sha1: 4689424215b78281ddfb80cfd19cebd65434b896
Prop-content-length: 10
Text-content-length: 38
Content-length: 48

PROPS-END
SVN\0\0\0\x1C\x01\x1C\x9Cone
two
three
four
five
six


Revision-number: 2

Node-path: a
Node-kind: file
Node-action: change
Text-delta: true
Text-delta-base-md5: b256e7fa23f105539085c7c895557c41
Text-delta-base-sha1: 4689424215b78281ddfb80cfd19cebd65434b896
Text-content-md5: fd31f874321c04890b16f72cc903e9f9
Text-content-sha1: e1cf2d556274235d1639579bac5246faa5d3255f
Text-content-length: 15
Content-length: 15

SVN\0\0\x1C\x19\x05\x01\x0E\0\x81
\x124

Revision-number: 3

Node-path: d
Node-kind: dir
Node-action: add
Prop-content-length: 10
Content-length: 10

PROPS-END


Node-path: d/b
Node-kind: file
Node-action: add
Node-copyfrom-rev: 2
Node-copyfrom-path: a
Text-copy-source-md5: fd31f874321c04890b16f72cc903e9f9
Text-copy-source-sha1: e1cf2d556274235d1639579bac5246faa5d3255f
Text-delta: true
Text-delta-base-md5: fd31f874321c04890b16f72cc903e9f9
Text-delta-base-sha1: e1cf2d556274235d1639579bac5246faa5d3255f
Text-content-md5: 9a71f966b0ad853594e2f96057c1ac18
Text-content-sha1: 59e6332130dc10e60aa448309c7afca8b024cff2
Text-content-length: 18
Content-length: 18

SVN\0\0\x19\x1F\x03\x06\x19\0\x86seven


";

// The text of the first revision, as its delta.
const FIRST: &[u8] = b"SVN\0\0\0\x1C\x01\x1C\x9Cone
two
three
four
five
six
";

// The change of a line.
const SECOND: &[u8] = b"SVN\0\0\x1C\x19\x05\x01\x0E\0\x81
\x124";

// A line more than the source has.
const THIRD: &[u8] = b"SVN\0\0\x19\x1F\x03\x06\x19\0\x86seven
";

// The sums of the three texts.
const SUM_1: [u8; 16] = [
    0xB2, 0x56, 0xE7, 0xFA, 0x23, 0xF1, 0x05, 0x53, 0x90, 0x85, 0xC7, 0xC8, 0x95, 0x55, 0x7C, 0x41,
];

const SUM_2: [u8; 16] = [
    0xFD, 0x31, 0xF8, 0x74, 0x32, 0x1C, 0x04, 0x89, 0x0B, 0x16, 0xF7, 0x2C, 0xC9, 0x03, 0xE9, 0xF9,
];

const SUM_3: [u8; 16] = [
    0x9A, 0x71, 0xF9, 0x66, 0xB0, 0xAD, 0x85, 0x35, 0x94, 0xE2, 0xF9, 0x60, 0x57, 0xC1, 0xAC, 0x18,
];

// What a reader that takes deltas says of bytes in pieces of a size: the records that came, and the number of the refusal
// or 0.
fn answer_taking(alloc: Global, bytes: &[u8], size: usize) -> (usize, u32)
    requires { 0 < size }
{
    answer_of(alloc, DumpReader::taking_deltas(alloc), bytes, size)
}

#[test]
fn texts_as_deltas_are_read(rt: HostRuntime) {
    assert!(rt; answer_taking(rt.alloc(), GIVEN, 4096) == (7, 0));
    assert!(rt; answer_taking(rt.alloc(), GIVEN, 1) == (7, 0));
}

#[test]
fn the_first_is_refused_by_another_reader(rt: HostRuntime) {
    assert!(rt; gives(rt.alloc(), GIVEN, 4096, 1, 9));
    assert!(rt; gives(rt.alloc(), GIVEN, 1, 1, 9));
}

// Whether reading answers fine or want of memory.
#[test]
fn refused_memory_is_answered(rt: HostRuntime) {
    let (_, number) = answer_taking(rt.alloc(), GIVEN, 4096);
    assert!(rt; number == 0 || number == 70);
}

// Whether a delta has these bytes, with these sums beside it.
fn has(delta: &DeltaText, bytes: &[u8], base_sum: Option<[u8; 16]>, sum: [u8; 16]) -> bool {
    delta.bytes.as_slice() == bytes && delta.base_sum == base_sum && delta.sum == Some(sum)
}

// Whether a node's path has so many names, and it has no text itself.
fn is_bare(node: &NodeRecord, names: usize) -> bool {
    node.text.is_none() && node.path.names().len() == names
}

// Whether a record is a node at a path of so many names with this delta.
fn is_given(
    record: Option<&DumpRecord>,
    names: usize,
    bytes: &[u8],
    base_sum: Option<[u8; 16]>,
    sum: [u8; 16],
) -> bool {
    match record {
        Some(DumpRecord::DeltaNode(node, delta)) => {
            is_bare(node, names) && has(delta, bytes, base_sum, sum)
        }
        _ => false,
    }
}

// The records of the dump.
fn records(rt: &impl Abort, alloc: Global) -> Vec<DumpRecord> {
    let mut reader = DumpReader::taking_deltas(alloc);
    let mut records = Vec::new(alloc);
    reader.feed(GIVEN, &mut records).expect(rt, "a dump");
    reader.finish().expect(rt, "a whole dump");
    records
}

#[test]
fn what_deltas_are_handed_out(rt: HostRuntime) {
    let records = records(&rt, rt.alloc());
    all_hold(
        &rt,
        &[
            (is_given(records.get(1), 1, FIRST, None, SUM_1), "an add"),
            (
                is_given(records.get(3), 1, SECOND, Some(SUM_1), SUM_2),
                "a change",
            ),
            (
                is_given(records.get(6), 2, THIRD, Some(SUM_2), SUM_3),
                "a copy",
            ),
        ],
    );
}

// The length of the first front of the dump that isn't answered alike whole and byte by byte.
fn wrong_front(alloc: Global) -> Option<usize> {
    for end in 0..=GIVEN.len() {
        let (front, _) = GIVEN.split_at(end);
        if answer_taking(alloc, front, 4096) != answer_taking(alloc, front, 1) {
            return Some(end);
        }
    }
    None
}

#[test]
fn each_truncation_answers_the_same_byte_by_byte(rt: HostRuntime) {
    if let Some(end) = wrong_front(rt.alloc()) {
        panic!(rt; "cut at {end}");
    }
}

const OF_2: &[u8] = b"SVN-fs-dump-format-version: 2\n\nRevision-number: 1\n\nNode-path: a\n";

const OF_3: &[u8] = b"SVN-fs-dump-format-version: 3\n\nRevision-number: 1\n\nNode-path: a\n";

// The refusal of a node's lines behind these of a format, where deltas are taken, or 0.
fn refusal(rt: &impl Abort, alloc: Global, front: &[u8], lines: &str) -> u32 {
    let bytes = joined(rt, alloc, front, lines.as_bytes());
    let (_, number) = answer_taking(alloc, bytes.as_slice(), 4096);
    number
}

// The first lines of a node that aren't answered so in format 2, and so in format 3.
fn first_other<'a>(
    rt: &impl Abort,
    alloc: Global,
    table: &'a [(&'a str, u32, u32)],
) -> Option<&'a str> {
    for (lines, two, three) in table {
        if refusal(rt, alloc, OF_2, lines) != *two || refusal(rt, alloc, OF_3, lines) != *three {
            return Some(*lines);
        }
    }
    None
}

const PLACES: [(&str, u32, u32); 9] = [
    (
        "Node-action: change\nText-delta: true\nText-content-length: 3\n\nSVN",
        2,
        0,
    ),
    (
        "Node-action: change\nText-delta: false\nText-content-length: 3\n\nSVN",
        0,
        0,
    ),
    (
        "Node-action: change\n\nRevision-number: 2\nText-delta: true\n\n",
        2,
        2,
    ),
    ("Text-delta: true\nText-delta: true\n\n", 2, 2),
    ("Text-delta-base-md5: 0\n\n", 2, 2),
    (
        "Node-action: change\nText-delta: true\nText-content-length: 4\n\nSVN",
        2,
        7,
    ),
    (
        "Node-action: change\nText-delta: true\nText-content-length: 2097152\n\n",
        2,
        7,
    ),
    (
        "Node-action: change\nText-delta: true\nText-content-length: 2097153\n\n",
        2,
        8,
    ),
    (
        "Node-action: change\nText-content-length: 2097152\n\n",
        8,
        8,
    ),
];

#[test]
fn where_a_text_may_be_a_delta(rt: HostRuntime) {
    none_is_wrong(&rt, first_other(&rt, rt.alloc(), &PLACES));
}
