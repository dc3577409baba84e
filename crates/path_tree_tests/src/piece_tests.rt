//! Dumps from outside, read whole and in pieces, and written again.

ghost use Rattle.std.specs.Prelude.{◌<◌};

use crate::checked::all_hold;
use byte_streams::VecWriter;
use dump_text::{DumpReader, DumpRecord, NodeRecord, RevRecord, write_head, write_revision};
use node_base::{Props, RevNo};
use std::alloc::Global;
use std::process::Abort;

// The number of the first refusal of bytes in pieces of a size, or 0; another one where the reader holds more than came.
fn first_refusal(
    reader: &mut DumpReader,
    out: &mut Vec<DumpRecord>,
    bytes: &[u8],
    size: usize,
) -> u32
    requires { 0 < size }
{
    let held = reader.held();
    let mut fed = 0usize;
    for piece in bytes.chunks(size) {
        if let Err(fault) = reader.feed(piece, out) {
            return fault.number();
        }
        fed = fed.saturating_add(piece.len());
        if reader.held() > held.saturating_add(fed as u128) {
            return 1_000;
        }
    }
    0
}

// The number of the refusal at the end, or 0.
fn end_of(reader: DumpReader) -> u32 {
    match reader.finish() {
        Ok(()) => 0,
        Err(fault) => fault.number(),
    }
}

/// What this reader says of bytes in pieces of a size: the records that came, and the number of the refusal or 0.
pub(crate) fn answer_of(
    alloc: Global,
    reader: DumpReader,
    bytes: &[u8],
    size: usize,
) -> (usize, u32)
    requires { 0 < size }
{
    let mut reader = reader;
    let mut out = Vec::new(alloc);
    let fed = first_refusal(&mut reader, &mut out, bytes, size);
    let ended = end_of(reader);
    (out.len(), if fed == 0 { ended } else { fed })
}

/// The same of a new reader, which takes no text as a delta.
pub(crate) fn answer(alloc: Global, bytes: &[u8], size: usize) -> (usize, u32)
    requires { 0 < size }
{
    answer_of(alloc, DumpReader::new(alloc), bytes, size)
}

// Two revisions, the second with a copy.
fn two_revisions() -> &'static [u8] {
    b"SVN-fs-dump-format-version: 2

Revision-number: 1
Prop-content-length: 22

K 1
p
V 1
1
PROPS-END
Node-path: a
Node-kind: file
Node-action: add
Text-content-length: 6
Text-content-md5: b1946ac92492d2347c6235b4d2611184

hello
Revision-number: 2

Node-path: b
Node-action: add
Node-copyfrom-rev: 1
Node-copyfrom-path: a

"
        .as_slice()
}

// Whether bytes in pieces of this size give so many records, and then this refusal or 0.
pub(crate) fn gives(alloc: Global, bytes: &[u8], size: usize, records: usize, number: u32) -> bool
    requires { 0 < size }
{
    answer(alloc, bytes, size) == (records, number)
}

#[test]
fn two_revisions_are_read(rt: HostRuntime) {
    assert!(rt; gives(rt.alloc(), two_revisions(), 4096, 4, 0));
}

// Whether reading in pieces of this size answers fine or want of memory.
fn ends_well(alloc: Global, size: usize) -> bool
    requires { 0 < size }
{
    let (_, number) = answer(alloc, two_revisions(), size);
    number == 0 || number == 70
}

// In one piece and in small ones.
#[test]
fn refused_memory_is_answered(rt: HostRuntime) {
    assert!(rt; ends_well(rt.alloc(), 4096) && ends_well(rt.alloc(), 7));
}

/// Whether a reader takes a piece, and has read this number of the format.
pub(crate) fn takes(
    reader: &mut DumpReader,
    out: &mut Vec<DumpRecord>,
    piece: &[u8],
    version: u8,
) -> bool {
    reader.feed(piece, out).is_ok() && reader.version() == version
}

// Whether a reader behind the version block reads this as one record, of format 2, and may end there.
fn is_one_record(alloc: Global, bytes: &[u8]) -> bool {
    let mut reader = DumpReader::behind_version(alloc);
    let mut out = Vec::new(alloc);
    let taken = takes(&mut reader, &mut out, bytes, 2);
    let ended = end_of(reader) == 0;
    taken && ended && out.len() == 1
}

#[test]
fn a_record_behind_the_version_block(rt: HostRuntime) {
    assert!(rt;
        is_one_record(
            rt.alloc(),
            b"Revision-number: 7\nProp-content-length: 10\n\nPROPS-END\n"
        )
    );
    assert!(rt; !is_one_record(rt.alloc(), b"SVN-fs-dump-format-version: 2\n\n"));
}

/// Whether a reader keeps so many bytes of a dump's first bytes, and has read this number of the format.
pub(crate) fn keeps(alloc: Global, bytes: &[u8], held: u128, version: u8) -> bool {
    let mut reader = DumpReader::new(alloc);
    let mut out = Vec::new(alloc);
    let taken = takes(&mut reader, &mut out, bytes, version);
    taken && reader.held() == held
}

// The first bytes of a dump, up to the name of the first property, and up to its value.
const IN_A_NAME: &[u8] =
    b"SVN-fs-dump-format-version: 2\n\nRevision-number: 1\nProp-content-length: 24\n\nK 3\nab";

const IN_A_VALUE: &[u8] =
    b"SVN-fs-dump-format-version: 2\n\nRevision-number: 1\nProp-content-length: 999999\n\nK 1\np\nV 65536\nxyz";

const IN_A_DELTA: &[u8] =
    b"SVN-fs-dump-format-version: 3\n\nRevision-number: 1\n\nNode-path: a/b\nNode-action: change\nProp-delta: true\nProp-content-length: 99\n\nK 1\np\nV 3\nxyz\nD 6\nabsent\nD 2\nq";

const IN_A_TEXT: &[u8] =
    b"SVN-fs-dump-format-version: 2\n\nRevision-number: 1\n\nNode-path: a/b\nNode-kind: file\nNode-action: add\nProp-content-length: 22\nText-content-length: 9\n\nK 1\np\nV 1\n1\nPROPS-END\ntext";

const BETWEEN: &[u8] =
    b"SVN-fs-dump-format-version: 2\n\nRevision-number: 1\n\nNode-path: a/b\nNode-kind: file\nNode-action: add\nProp-content-length: 22\nText-content-length: 4\n\nK 1\np\nV 1\n1\nPROPS-END\ntext";

#[test]
fn unfinished_bytes_are_kept(rt: HostRuntime) {
    all_hold(
        &rt,
        &[
            (keeps(rt.alloc(), b"SVN-fs-du", 9, 0), "in the first line"),
            (keeps(rt.alloc(), IN_A_NAME, 2, 2), "in a name"),
            (
                keeps(rt.alloc(), IN_A_VALUE, 4, 2),
                "in a value, whose name has one byte",
            ),
            (
                keeps(rt.alloc(), IN_A_DELTA, 14, 3),
                "in a name, behind a path of 3 bytes, a property of 4, and a name of 6 that is removed",
            ),
            (
                keeps(rt.alloc(), IN_A_TEXT, 9, 2),
                "in a text behind a block",
            ),
            (keeps(rt.alloc(), BETWEEN, 0, 2), "behind a record"),
        ],
    );
}

// Whether the first so many bytes of a dump are answered alike whole and byte by byte.
fn front_agrees(alloc: Global, dump: &[u8], end: usize) -> bool {
    match dump.get(..end) {
        Some(front) => answer(alloc, front, 4096) == answer(alloc, front, 1),
        None => false,
    }
}

/// Ends the test with the length of the first front of a dump that isn't answered alike whole and byte by byte.
pub(crate) fn each_front_agrees(rt: &impl Abort, alloc: Global, dump: &[u8]) {
    for end in 0..=dump.len() {
        assert!(rt; front_agrees(alloc, dump, end), "cut at {end}");
    }
}

#[test]
fn each_truncation_answers_the_same_byte_by_byte(rt: HostRuntime) {
    each_front_agrees(&rt, rt.alloc(), two_revisions());
}

// The number of the first refusal of a front in one piece and the rest byte by byte, or 0.
fn refusal_behind(
    reader: &mut DumpReader,
    out: &mut Vec<DumpRecord>,
    front: &[u8],
    rest: &[u8],
) -> u32 {
    match reader.feed(front, out) {
        Ok(()) => first_refusal(reader, out, rest, 1),
        Err(fault) => fault.number(),
    }
}

// What a reader says of these: the records that came, and the number of the refusal or 0.
fn answer_from(alloc: Global, front: &[u8], rest: &[u8]) -> (usize, u32) {
    let mut reader = DumpReader::new(alloc);
    let mut out = Vec::new(alloc);
    let fed = refusal_behind(&mut reader, &mut out, front, rest);
    let ended = end_of(reader);
    (out.len(), if fed == 0 { ended } else { fed })
}

// Whether a change of one byte of a dump is answered the same in one piece and byte by byte from there on.
fn agrees_with(rt: &impl Abort, alloc: Global, dump: &[u8], at: usize, value: u8) -> bool {
    let mut dump = Vec::from_slice(alloc, dump).expect(rt, "memory");
    if let Some(place) = dump.get_mut(at) {
        *place = value;
    }
    let (front, rest) = dump.as_slice().split_at(at.min(dump.len()));
    answer(alloc, dump.as_slice(), 4096) == answer_from(alloc, front, rest)
}

// The place and the value of the first change of a byte of a dump, to one of 32 values, that isn't.
fn wrong_change(rt: &impl Abort, alloc: Global, dump: &[u8], first: u8) -> Option<(usize, u8)> {
    for at in 0..dump.len() {
        for value in first..=first.saturating_add(31) {
            if !agrees_with(rt, alloc, dump, at, value) {
                return Some((at, value));
            }
        }
    }
    None
}

/// Ends the test with that place and that value, if there is one.
pub(crate) fn each_change_agrees(rt: &impl Abort, alloc: Global, dump: &[u8], first: u8) {
    if let Some((at, value)) = wrong_change(rt, alloc, dump, first) {
        panic!(rt; "{value} at {at}");
    }
}

#[test]
fn each_change_of_a_byte_agrees_from_0(rt: HostRuntime) {
    each_change_agrees(&rt, rt.alloc(), two_revisions(), 0);
}

#[test]
fn each_change_of_a_byte_agrees_from_32(rt: HostRuntime) {
    each_change_agrees(&rt, rt.alloc(), two_revisions(), 32);
}

#[test]
fn each_change_of_a_byte_agrees_from_64(rt: HostRuntime) {
    each_change_agrees(&rt, rt.alloc(), two_revisions(), 64);
}

#[test]
fn each_change_of_a_byte_agrees_from_96(rt: HostRuntime) {
    each_change_agrees(&rt, rt.alloc(), two_revisions(), 96);
}

#[test]
fn each_change_of_a_byte_agrees_from_128(rt: HostRuntime) {
    each_change_agrees(&rt, rt.alloc(), two_revisions(), 128);
}

#[test]
fn each_change_of_a_byte_agrees_from_160(rt: HostRuntime) {
    each_change_agrees(&rt, rt.alloc(), two_revisions(), 160);
}

#[test]
fn each_change_of_a_byte_agrees_from_192(rt: HostRuntime) {
    each_change_agrees(&rt, rt.alloc(), two_revisions(), 192);
}

#[test]
fn each_change_of_a_byte_agrees_from_224(rt: HostRuntime) {
    each_change_agrees(&rt, rt.alloc(), two_revisions(), 224);
}

// A canonical dump with an identity, a copy and a deletion.
fn canonical() -> &'static [u8] {
    b"SVN-fs-dump-format-version: 2

UUID: 6a1f0c3e-0000-4000-8000-000000000001

Revision-number: 0
Prop-content-length: 10
Content-length: 10

PROPS-END

Revision-number: 1
Prop-content-length: 10
Content-length: 10

PROPS-END

Node-path: t
Node-kind: dir
Node-action: add
Prop-content-length: 10
Content-length: 10

PROPS-END


Node-path: t/x
Node-kind: file
Node-action: add
Prop-content-length: 10
Text-content-length: 1
Text-content-md5: 9dd4e461268c8034f5c8564e155c67a6
Content-length: 11

PROPS-END
x

Revision-number: 2
Prop-content-length: 10
Content-length: 10

PROPS-END

Node-path: b
Node-kind: dir
Node-action: add
Node-copyfrom-rev: 1
Node-copyfrom-path: t



Node-path: b/x
Node-action: delete



"
        .as_slice()
}

// Puts a revision without nodes.
fn begin(
    rt: &impl Abort,
    alloc: Global,
    revisions: &mut Vec<RevRecord>,
    number: RevNo,
    props: Props,
) {
    let revision = RevRecord {
        number,
        props,
        nodes: Vec::new(alloc),
    };
    revisions.push(revision).expect(rt, "memory");
}

// Puts a node to the last revision.
fn add_node(rt: &impl Abort, revisions: &mut Vec<RevRecord>, node: NodeRecord) {
    if let Some(last) = revisions.last_mut() {
        last.nodes.push(node).expect(rt, "memory");
    }
}

// Writes the identity, and puts each revision with its nodes.
fn take(
    rt: &impl Abort,
    alloc: Global,
    record: DumpRecord,
    written: &mut VecWriter,
    revisions: &mut Vec<RevRecord>,
) {
    match record {
        DumpRecord::Identity(uuid) => write_head(written, Some(&uuid)),
        DumpRecord::Revision(number, props) => begin(rt, alloc, revisions, number, props),
        DumpRecord::Node(node) => add_node(rt, revisions, node),
        DumpRecord::DeltaNode(_, _) => rt.panic("a text as a delta"),
    }
}

// The records of the canonical dump.
fn records(rt: &impl Abort, alloc: Global) -> Vec<DumpRecord> {
    let mut reader = DumpReader::new(alloc);
    let mut records = Vec::new(alloc);
    reader.feed(canonical(), &mut records).expect(rt, "a dump");
    reader.finish().expect(rt, "a whole dump");
    records
}

// The canonical dump, read and written again.
fn written(rt: &impl Abort, alloc: Global) -> Vec<u8> {
    let mut written = VecWriter::new(alloc);
    let mut revisions = Vec::new(alloc);
    for record in records(rt, alloc) {
        take(rt, alloc, record, &mut written, &mut revisions);
    }
    for revision in &revisions {
        write_revision(&mut written, revision).expect(rt, "whole lists of properties");
    }
    written.into_bytes().expect(rt, "memory")
}

#[test]
fn canonical_bytes_are_written_again(rt: HostRuntime) {
    let again = written(&rt, rt.alloc());
    assert!(rt; again.as_slice() == canonical());
}
