//! Dumps of format 3, whose records may give property lists as deltas.

use crate::checked::{joined, none_is_wrong};
use crate::piece_tests::{answer, each_change_agrees, each_front_agrees, gives, takes};
use byte_streams::VecWriter;
use dump_text::{
    DumpReader, DumpRecord, NodeRecord, PropPart, RevRecord, WriteFault, write_revision,
};
use node_base::{PropDelta, PropName, Props, RevNo};
use std::alloc::Global;
use std::process::Abort;

// A revision that adds a file, and one that sets a property of it and removes another.
const LATER: &[u8] = b"SVN-fs-dump-format-version: 3

Revision-number: 1

Node-path: a
Node-kind: file
Node-action: add
Prop-content-length: 22

K 1
p
V 1
1
PROPS-END
Revision-number: 2

Node-path: a
Node-action: change
Prop-delta: true
Prop-content-length: 28

K 1
q
V 1
2
D 1
p
PROPS-END
";

#[test]
fn a_delta_is_read(rt: HostRuntime) {
    assert!(rt; gives(rt.alloc(), LATER, 4096, 4, 0));
    assert!(rt; gives(rt.alloc(), LATER, 1, 4, 0));
}

// Whether a delta removes one name, of these bytes.
fn removes_one(alloc: Global, delta: &PropDelta, name: &[u8]) -> bool {
    match PropName::parse(alloc, name) {
        Ok(name) => delta.removed.len() == 1 && delta.removed.contains(&name),
        Err(_) => false,
    }
}

// Whether a delta sets one name to a value, and removes one other.
fn changes(alloc: Global, delta: &PropDelta, set: &[u8], value: &[u8], removed: &[u8]) -> bool {
    delta.sets.len() == 1
        && delta.sets.get(set) == Some(value)
        && removes_one(alloc, delta, removed)
}

// Whether a record is a node with the delta that sets q to 2 and removes p.
fn is_later(alloc: Global, record: &DumpRecord) -> bool {
    match record {
        DumpRecord::Node(node) => gives_delta(alloc, node),
        _ => false,
    }
}

fn gives_delta(alloc: Global, node: &NodeRecord) -> bool {
    match &node.props {
        Some(PropPart::Delta(delta)) => {
            changes(alloc, delta, b"q", b"2", b"p") && !node.is_whole()
        }
        _ => false,
    }
}

// Whether a reader takes the dump as one of format 3 whose last record is that node.
fn takes_later(alloc: Global, reader: &mut DumpReader, out: &mut Vec<DumpRecord>) -> bool {
    if !takes(reader, out, LATER, 3) {
        return false;
    }
    match out.last() {
        Some(record) => is_later(alloc, record),
        None => false,
    }
}

// The same of a new reader.
fn ends_with_delta(alloc: Global) -> bool {
    let mut reader = DumpReader::new(alloc);
    let mut out = Vec::new(alloc);
    takes_later(alloc, &mut reader, &mut out)
}

#[test]
fn what_a_delta_says(rt: HostRuntime) {
    assert!(rt; ends_with_delta(rt.alloc()));
}

// The last record of the dump.
fn last(rt: &impl Abort, alloc: Global) -> Option<DumpRecord> {
    let mut reader = DumpReader::new(alloc);
    let mut out = Vec::new(alloc);
    reader.feed(LATER, &mut out).expect(rt, "a dump");
    out.pop()
}

// A revision of one node.
fn revision_of(rt: &impl Abort, alloc: Global, node: NodeRecord) -> RevRecord {
    let mut nodes = Vec::new(alloc);
    nodes.push(node).expect(rt, "memory");
    RevRecord {
        number: RevNo::new(2),
        props: Props::empty(),
        nodes,
    }
}

// Whether a revision is refused by the writer, with nothing written.
fn is_unwritten(alloc: Global, revision: &RevRecord) -> bool {
    let mut written = VecWriter::new(alloc);
    !revision.is_whole()
        && write_revision(&mut written, revision) == Err(WriteFault::PropDelta)
        && written.as_slice() == Ok(b"".as_slice())
}

// Whether that of the dump's last record is.
fn last_is_unwritten(rt: &impl Abort, alloc: Global) -> bool {
    match last(rt, alloc) {
        Some(DumpRecord::Node(node)) => is_unwritten(alloc, &revision_of(rt, alloc, node)),
        _ => false,
    }
}

#[test]
fn a_delta_is_not_written(rt: HostRuntime) {
    assert!(rt; last_is_unwritten(&rt, rt.alloc()));
}

// The refusal of a node's lines behind these of a format, or 0.
fn refusal(rt: &impl Abort, alloc: Global, front: &[u8], lines: &str) -> u32 {
    let bytes = joined(rt, alloc, front, lines.as_bytes());
    let (_, number) = answer(alloc, bytes.as_slice(), 4096);
    number
}

const OF_2: &[u8] = b"SVN-fs-dump-format-version: 2\n\nRevision-number: 1\n\nNode-path: a\n";

const OF_3: &[u8] = b"SVN-fs-dump-format-version: 3\n\nRevision-number: 1\n\nNode-path: a\n";

// The first lines of a node that aren't answered so in format 2, and so in format 3.
fn first_other<'a>(
    rt: &impl Abort,
    alloc: Global,
    table: &'a [(&'a str, u32, u32)],
) -> Option<&'a str> {
    for (lines, two, three) in table {
        if refusal(rt, alloc, OF_2, lines) != *two || refusal(rt, alloc, OF_3, lines) != *three {
            return Some(*lines);
        }
    }
    None
}

const PLACES: [(&str, u32, u32); 7] = [
    (
        "Node-action: change\nProp-delta: true\nProp-content-length: 16\n\nD 1\np\nPROPS-END\n",
        2,
        0,
    ),
    (
        "Node-action: change\nProp-content-length: 16\n\nD 1\np\nPROPS-END\n",
        5,
        5,
    ),
    ("Node-action: change\nProp-delta: true\n\n", 2, 0),
    (
        "Node-action: change\n\nRevision-number: 2\nProp-delta: true\n\n",
        2,
        2,
    ),
    ("Node-action: change\nText-delta: true\n", 9, 9),
    ("Node-action: change\nProp-delta: false\n\n", 0, 0),
    ("Prop-delta: true\nProp-delta: true\n\n", 2, 2),
];

#[test]
fn where_a_delta_may_stand(rt: HostRuntime) {
    none_is_wrong(&rt, first_other(&rt, rt.alloc(), &PLACES));
}

#[test]
fn each_truncation_answers_the_same_byte_by_byte(rt: HostRuntime) {
    each_front_agrees(&rt, rt.alloc(), LATER);
}

#[test]
fn each_change_of_a_byte_agrees_from_0(rt: HostRuntime) {
    each_change_agrees(&rt, rt.alloc(), LATER, 0);
}

#[test]
fn each_change_of_a_byte_agrees_from_32(rt: HostRuntime) {
    each_change_agrees(&rt, rt.alloc(), LATER, 32);
}

#[test]
fn each_change_of_a_byte_agrees_from_64(rt: HostRuntime) {
    each_change_agrees(&rt, rt.alloc(), LATER, 64);
}

#[test]
fn each_change_of_a_byte_agrees_from_96(rt: HostRuntime) {
    each_change_agrees(&rt, rt.alloc(), LATER, 96);
}

#[test]
fn each_change_of_a_byte_agrees_from_128(rt: HostRuntime) {
    each_change_agrees(&rt, rt.alloc(), LATER, 128);
}

#[test]
fn each_change_of_a_byte_agrees_from_160(rt: HostRuntime) {
    each_change_agrees(&rt, rt.alloc(), LATER, 160);
}

#[test]
fn each_change_of_a_byte_agrees_from_192(rt: HostRuntime) {
    each_change_agrees(&rt, rt.alloc(), LATER, 192);
}

#[test]
fn each_change_of_a_byte_agrees_from_224(rt: HostRuntime) {
    each_change_agrees(&rt, rt.alloc(), LATER, 224);
}
