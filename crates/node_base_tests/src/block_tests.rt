//! Property blocks against spellings from outside.

use crate::checked::{add_end, add_lines, all_hold, none_is_wrong, put, with_byte};
use byte_streams::VecWriter;
use node_base::block_law::{
    block_pieces_join, blocks_are_read, blocks_are_written, reads_are_blocks,
};
use node_base::{BlockReader, PropFault, Props};
use std::alloc::Global;
use std::process::Abort;

/// What a reader answers to a block: how many bytes there were of it, or that it goes on, or the fault.
pub(crate) type Told = Result<Option<usize>, PropFault>;

/// What a reader answers to bytes that come so many at a time, of which it keeps no more than came.
pub(crate) fn fed(reader: &mut BlockReader, bytes: &[u8], by: usize) -> Told {
    let by = by.max(1);
    for at in 0..bytes.len() {
        if at % by != 0 {
            continue;
        }
        let end = at.saturating_add(by).min(bytes.len());
        match reader.feed(&bytes[at..end]) {
            Err(fault) => return Err(fault),
            Ok(Some(count)) => return Ok(Some(at.saturating_add(count))),
            Ok(None) => {}
        }
        if reader.held() > end as u128 {
            return Ok(None);
        }
    }
    Ok(None)
}

// The map that was read, where the block is whole.
fn taken(reader: &mut BlockReader, told: Told) -> Props {
    match told {
        Ok(Some(_)) => reader.take(),
        _ => Props::empty(),
    }
}

// What is told of a block that comes so many bytes at a time, and its map.
fn read(alloc: Global, announced: u64, bytes: &[u8], by: usize) -> (Told, Props) {
    let mut reader = BlockReader::new(alloc, announced);
    let told = fed(&mut reader, bytes, by);
    (told, taken(&mut reader, told))
}

// Whether this is told where the bytes come so many at a time, and this is the map.
fn is_read(
    alloc: Global,
    announced: u64,
    bytes: &[u8],
    by: usize,
    told: Told,
    props: &Props,
) -> bool {
    let (found, others) = read(alloc, announced, bytes, by);
    found == told && props.equals(&others)
}

// Whether this is told of bytes, whole and byte by byte, and the map has so many properties.
fn is_told(alloc: Global, announced: u64, bytes: &[u8], told: Told, count: usize) -> bool {
    let (found, props) = read(alloc, announced, bytes, 1_000_000);
    found == told && props.len() == count && is_read(alloc, announced, bytes, 1, told, &props)
}

/// Whether bytes that are announced so are refused with this fault, whole and byte by byte.
pub(crate) fn is_fault(alloc: Global, want: PropFault, announced: u64, bytes: &[u8]) -> bool {
    is_told(alloc, announced, bytes, Err(want), 0)
}

// Whether bytes are read whole as so many properties, and byte by byte as the same.
fn is_count(alloc: Global, want: usize, announced: u64, bytes: &[u8]) -> bool {
    is_told(alloc, announced, bytes, Ok(Some(announced as usize)), want)
}

// A block of names made of a front and a number, each with the value `x`.
fn block_of(rt: &impl Abort, alloc: Global, sync: usize, others: usize) -> Vec<u8> {
    let mut block = Vec::new(alloc);
    add_lines(rt, alloc, &mut block, "K 14\nsvn:sync-", sync, "\nV 1\nx\n");
    add_lines(rt, alloc, &mut block, "K 6\np", others, "\nV 1\nx\n");
    add_end(rt, &mut block);
    block
}

// The announced length of a case, its bytes, and what they show.
type Case<'a> = (u64, &'a [u8], &'a str);

// The first of the cases whose fault is another.
fn other_fault<'a>(alloc: Global, want: PropFault, cases: &'a [Case<'a>]) -> Option<&'a str> {
    for (announced, bytes, shows) in cases {
        if !is_fault(alloc, want, *announced, *bytes) {
            return Some(*shows);
        }
    }
    None
}

const LINES: [Case<'static>; 8] = [
    (9, b"PROPS-END\n", "the end behind the announced end"),
    (11, b"PROPS-END\n", "the end before the announced end"),
    (21, b"K \n", "no digits"),
    (16, b"X", "another line"),
    (22, b"K 2\np\nV", "a name that is longer than its line"),
    (24, b"K 1\np\nV 500\n", "a value past the block"),
    (6, b"K 1\np\n", "an end inside a property"),
    (40, b"K 1\np\nV 1\nx\nK 1\np", "a name that comes again"),
];

#[test]
fn refuses_lines_at_the_byte_that_shows_it(rt: HostRuntime) {
    none_is_wrong(&rt, other_fault(rt.alloc(), PropFault::BadProps, &LINES));
}

const NAMES: [Case<'static>; 7] = [
    (21, b"K 0\n", "an empty name"),
    (23, b"K 2\na\x01", "a control byte"),
    (23, b"K 2\na\x1f", "the last control byte"),
    (23, b"K 2\na\x7f", "the byte of DEL"),
    (23, b"K 2\na\x80", "no UTF-8"),
    (23, b"K 2\n\xc0\x80", "an overlong zero"),
    (24, b"K 3\n\xed\xa0\x80", "a surrogate"),
];

#[test]
fn refuses_names_outside_the_rule(rt: HostRuntime) {
    none_is_wrong(&rt, other_fault(rt.alloc(), PropFault::BadProps, &NAMES));
}

const NUMBERS: [Case<'static>; 5] = [
    (9_999, b"K 256\n", "a name of 256 bytes"),
    (10, b"K 256\n", "the limit before the room"),
    (10, b"K 00256\n", "zeros before a number"),
    (9_999, b"K 99999999999999999999\n", "a number past 2^64"),
    (99_999, b"K 1\np\nV 65537\n", "a value of 65,537 bytes"),
];

#[test]
fn refuses_numbers_past_the_limits(rt: HostRuntime) {
    none_is_wrong(&rt, other_fault(rt.alloc(), PropFault::TooLong, &NUMBERS));
}

// The length of a block, its bytes and more, how many properties it has, and what it shows.
type Whole<'a> = (u64, &'a [u8], usize, &'a str);

const ORDERS: [Whole<'static>; 3] = [
    (10, b"PROPS-END\n", 0, "an empty block"),
    (
        34,
        b"K 1\nz\nV 1\n1\nK 1\na\nV 1\n2\nPROPS-END\nmore",
        2,
        "names out of order",
    ),
    (
        25,
        b"K 002\n..\nV 00\n\nPROPS-END\n",
        1,
        "zeros before the numbers",
    ),
];

// The first of these that is read as another number.
fn other_count(alloc: Global) -> Option<&'static str> {
    for (announced, bytes, count, shows) in &ORDERS {
        if !is_count(alloc, *count, *announced, *bytes) {
            return Some(*shows);
        }
    }
    None
}

#[test]
fn reads_blocks_of_any_order(rt: HostRuntime) {
    none_is_wrong(&rt, other_count(rt.alloc()));
}

// Whether a block of as many properties as may stand is read.
fn is_full(rt: &impl Abort, alloc: Global) -> bool {
    let full = block_of(rt, alloc, 16, 256);
    is_count(alloc, 272, full.len() as u64, full.as_slice())
}

#[test]
fn reads_as_many_properties_as_may_stand(rt: HostRuntime) {
    assert!(rt; is_full(&rt, rt.alloc()));
}

// Whether a block of so many properties is past the limits.
fn is_too_long(rt: &impl Abort, alloc: Global, sync: usize, others: usize) -> bool {
    let block = block_of(rt, alloc, sync, others);
    let announced = block.len() as u64;
    is_fault(alloc, PropFault::TooLong, announced, block.as_slice())
}

#[test]
fn refuses_one_property_more(rt: HostRuntime) {
    all_hold(
        &rt,
        &[
            (is_too_long(&rt, rt.alloc(), 17, 0), "17 of a mirror"),
            (is_too_long(&rt, rt.alloc(), 0, 257), "257 others"),
        ],
    );
}

const SMALL: &[u8] = b"K 1\na\nV 2\nxy\nK 02\n\xc3\xa9\nV 0\n\nPROPS-END\n";

// Whether the block that is cut here goes on, and the whole one is refused where this end is announced.
fn is_cut(alloc: Global, end: usize) -> bool {
    let end = end.min(SMALL.len());
    is_told(alloc, SMALL.len() as u64, &SMALL[..end], Ok(None), 0)
        && is_fault(alloc, PropFault::BadProps, end as u64, SMALL)
}

#[test]
fn cuts_and_short_announcements(rt: HostRuntime) {
    for end in 0..SMALL.len() {
        assert!(rt; is_cut(rt.alloc(), end), "cut at {end}");
    }
}

// Whether a block with another byte has the same answer however it is cut.
fn is_steady_with(rt: &impl Abort, alloc: Global, at: usize, byte: u8) -> bool {
    let block = with_byte(rt, alloc, SMALL, at, byte);
    let announced = SMALL.len() as u64;
    let (told, props) = read(alloc, announced, block.as_slice(), 1_000);
    is_read(alloc, announced, block.as_slice(), 1, told, &props)
        && is_read(alloc, announced, block.as_slice(), 3, told, &props)
}

const BYTES: [u8; 16] = [
    0, 10, 31, 32, 45, 48, 49, 51, 57, 58, 75, 80, 86, 127, 195, 255,
];

#[test]
fn cuts_change_no_answer(rt: HostRuntime) {
    for at in 0..SMALL.len() {
        for byte in &BYTES {
            assert!(rt;
                is_steady_with(&rt, rt.alloc(), at, *byte),
                "{byte} at {at}"
            );
        }
    }
}

// The map in the order of its names, `z` twice given.
fn three(rt: &impl Abort, alloc: Global) -> Props {
    let mut props = Props::empty();
    put(rt, alloc, &mut props, b"z", b"1");
    put(rt, alloc, &mut props, b"svn:sync-x", b"0123456789");
    put(rt, alloc, &mut props, b"a", b"\n");
    put(rt, alloc, &mut props, b"z", b"");
    props
}

const WRITTEN: &[u8] =
    b"K 1\na\nV 1\n\n\nK 10\nsvn:sync-x\nV 10\n0123456789\nK 1\nz\nV 0\n\nPROPS-END\n";

// Whether a map is written so.
fn is_written(alloc: Global, props: &Props, bytes: &[u8]) -> bool {
    let mut block = VecWriter::new(alloc);
    props.write_block(&mut block);
    block.as_slice() == Ok(bytes) && props.block_len() == bytes.len() as u64
}

#[test]
fn writes_in_the_order_of_the_names(rt: HostRuntime) {
    let props = three(&rt, rt.alloc());
    assert!(rt; is_written(rt.alloc(), &props, WRITTEN));
}

#[test]
fn reads_what_is_written(rt: HostRuntime) {
    let props = three(&rt, rt.alloc());
    let told = Ok(Some(WRITTEN.len()));
    assert!(rt; is_read(rt.alloc(), WRITTEN.len() as u64, WRITTEN, 7, told, &props));
}

#[test]
fn laws_are_called() {
    blocks_are_read();
    block_pieces_join();
    blocks_are_written();
    reads_are_blocks();
}
