//! Property blocks that change a list, against spellings from outside.

use crate::block_tests::{fed, is_fault};
use crate::checked::{add_end, add_lines, all_hold, none_is_wrong, put, with_byte};
use node_base::{BlockReader, PropDelta, PropFault, PropName, Props, RemovedNames};
use std::alloc::Global;
use std::process::Abort;

// What a reader answers to a block: how many bytes there were of it, how many names it sets and how many it removes.
type Told = Result<Option<(usize, usize, usize)>, PropFault>;

// How many names a block sets and how many it removes, where it is whole.
fn counted(fed: Result<Option<usize>, PropFault>, sets: usize, removes: usize) -> Told {
    match fed {
        Ok(Some(count)) => Ok(Some((count, sets, removes))),
        Ok(None) => Ok(None),
        Err(fault) => Err(fault),
    }
}

// What a reader answers to a block that comes so many bytes at a time.
fn told(alloc: Global, announced: u64, bytes: &[u8], by: usize) -> Told {
    let mut reader = BlockReader::new(alloc, 0);
    reader.restart(true, announced);
    let answer = fed(&mut reader, bytes, by);
    let delta = reader.take_delta();
    counted(answer, delta.sets.len(), delta.removed.len())
}

// Whether a block is answered so, whole and byte by byte.
fn is_told(alloc: Global, announced: u64, bytes: &[u8], answer: Told) -> bool {
    told(alloc, announced, bytes, 1_000_000) == answer && told(alloc, announced, bytes, 1) == answer
}

// The announced length of a block, its bytes, the answer, and what it shows.
type Case<'a> = (u64, &'a [u8], Told, &'a str);

// The first of the blocks that isn't answered so.
fn other<'a>(alloc: Global, cases: &'a [Case<'a>]) -> Option<&'a str> {
    for (announced, bytes, answer, shows) in cases {
        if !is_told(alloc, *announced, *bytes, *answer) {
            return Some(*shows);
        }
    }
    None
}

const REMOVALS: [Case<'static>; 4] = [
    (
        28,
        b"K 1\nq\nV 1\n2\nD 1\np\nPROPS-END\n",
        Ok(Some((28, 1, 1))),
        "a removal behind a value",
    ),
    (
        28,
        b"D 1\np\nK 1\nq\nV 1\n2\nPROPS-END\n",
        Ok(Some((28, 1, 1))),
        "a removal before a value",
    ),
    (
        23,
        b"D 1\np\nD 01\nr\nPROPS-END\n",
        Ok(Some((23, 0, 2))),
        "two removals",
    ),
    (10, b"PROPS-END\n", Ok(Some((10, 0, 0))), "an empty block"),
];

#[test]
fn removals_in_any_place(rt: HostRuntime) {
    none_is_wrong(&rt, other(rt.alloc(), &REMOVALS));
}

const BAD_PROPS: Told = Err(PropFault::BadProps);

const BAD: [Case<'static>; 10] = [
    (
        9_999,
        b"D 1\np\nD 1\np",
        BAD_PROPS,
        "a name that is removed twice",
    ),
    (
        9_999,
        b"K 1\np\nV 0\n\nD 1\np",
        BAD_PROPS,
        "a name that was set",
    ),
    (
        9_999,
        b"D 1\np\nK 1\np",
        BAD_PROPS,
        "a name that was removed",
    ),
    (9_999, b"D 0\n", BAD_PROPS, "an empty name"),
    (9_999, b"D \n", BAD_PROPS, "no digits"),
    (
        9_999,
        b"D 1\npx",
        BAD_PROPS,
        "a name that is shorter than its line",
    ),
    (9_999, b"D 1\n\x7f", BAD_PROPS, "a name outside the rule"),
    (
        9_999,
        b"D 1\np\nV",
        BAD_PROPS,
        "a value of a name that is removed",
    ),
    (
        9_999,
        b"D 256\n",
        Err(PropFault::TooLong),
        "a name of 256 bytes",
    ),
    (6, b"D 1\np\n", BAD_PROPS, "no room for the end"),
];

#[test]
fn removals_that_are_none(rt: HostRuntime) {
    none_is_wrong(&rt, other(rt.alloc(), &BAD));
}

const REMOVING: &[u8] = b"K 1\nq\nV 1\n2\nD 1\np\nPROPS-END\n";

#[test]
fn a_whole_block_removes_nothing(rt: HostRuntime) {
    assert!(rt; is_fault(rt.alloc(), PropFault::BadProps, 28, REMOVING));
}

// A block that removes so many names.
fn removing(rt: &impl Abort, alloc: Global, count: usize) -> Vec<u8> {
    let mut block = Vec::new(alloc);
    add_lines(rt, alloc, &mut block, "D 6\np", count, "\n");
    block
}

// Whether a block that removes so many names, `p00000` and so on, is read as these.
fn is_removing(rt: &impl Abort, alloc: Global, count: usize) -> bool {
    let mut block = removing(rt, alloc, count);
    add_end(rt, &mut block);
    let len = block.len();
    is_told(
        alloc,
        len as u64,
        block.as_slice(),
        Ok(Some((len, 0, count))),
    )
}

#[test]
fn as_many_removals_as_there_are(rt: HostRuntime) {
    assert!(rt; is_removing(&rt, rt.alloc(), 256));
    assert!(rt; is_removing(&rt, rt.alloc(), 257));
    assert!(rt; is_removing(&rt, rt.alloc(), 1_000));
}

// What is answered to a block that removes so many names, and then has more bytes.
fn told_behind(rt: &impl Abort, alloc: Global, count: usize, more: &[u8]) -> Told {
    let mut block = removing(rt, alloc, count);
    block.extend_from_slice(more).expect(rt, "memory");
    told(alloc, 33_554_432, block.as_slice(), 1_000_000)
}

#[test]
fn a_name_again_behind_many(rt: HostRuntime) {
    assert!(rt; told_behind(&rt, rt.alloc(), 999, b"D 6\np00000") == BAD_PROPS);
    assert!(rt; told_behind(&rt, rt.alloc(), 999, b"K 6\np00777") == BAD_PROPS);
    assert!(rt; told_behind(&rt, rt.alloc(), 999, b"D 6\np00998") == BAD_PROPS);
    assert!(rt; told_behind(&rt, rt.alloc(), 999, b"D 6\np00999") == Ok(None));
}

const SMALL: &[u8] = b"D 1\na\nK 02\n\xc3\xa9\nV 2\nxy\nD 2\nbc\nPROPS-END\n";

// Whether a block with another byte has the same answer however it is cut.
fn is_steady_with(rt: &impl Abort, alloc: Global, at: usize, byte: u8) -> bool {
    let block = with_byte(rt, alloc, SMALL, at, byte);
    let announced = SMALL.len() as u64;
    told(alloc, announced, block.as_slice(), 1_000) == told(alloc, announced, block.as_slice(), 1)
}

const BYTES: [u8; 12] = [0, 10, 32, 48, 49, 51, 68, 75, 80, 86, 195, 255];

#[test]
fn cuts_change_no_answer(rt: HostRuntime) {
    for at in 0..SMALL.len() {
        for byte in &BYTES {
            assert!(rt;
                is_steady_with(&rt, rt.alloc(), at, *byte),
                "{byte} at {at}"
            );
        }
    }
}

// The list of one name.
fn one(rt: &impl Abort, alloc: Global, name: &[u8], value: &[u8]) -> Props {
    let mut list = Props::empty();
    put(rt, alloc, &mut list, name, value);
    list
}

// The delta that sets `q` and removes another name.
fn delta(rt: &impl Abort, alloc: Global, name: &[u8]) -> PropDelta {
    let mut removed = RemovedNames::empty();
    let name = PropName::parse(alloc, name).expect(rt, "a name");
    removed.insert(alloc, name).expect(rt, "memory");
    PropDelta {
        sets: one(rt, alloc, b"q", b"2"),
        removed,
    }
}

// Whether a list has one name of these with that value, and not the other.
fn has_one(list: &Props, name: &[u8], value: &[u8], other: &[u8]) -> bool {
    list.len() == 1 && list.get(name) == Some(value) && !list.contains(other)
}

// Whether a delta makes of a list the one that has `q` alone, and not this name.
fn makes_q(alloc: Global, delta: &PropDelta, list: &Props, removed: &[u8]) -> bool {
    match delta.applied(alloc, list) {
        Ok(made) => has_one(&made, b"q", b"2", removed),
        Err(_) => false,
    }
}

// Whether a delta that removes a name makes it of the list of one name, which keeps that one and hasn't the other.
fn is_applied(rt: &impl Abort, alloc: Global, name: &[u8], removed: &[u8], other: &[u8]) -> bool {
    let old = one(rt, alloc, name, b"1");
    let delta = delta(rt, alloc, removed);
    makes_q(alloc, &delta, &old, removed) && has_one(&old, name, b"1", other)
}

#[test]
fn a_delta_changes_a_list(rt: HostRuntime) {
    all_hold(
        &rt,
        &[
            (
                is_applied(&rt, rt.alloc(), b"p", b"p", b"q"),
                "a name for another",
            ),
            (
                is_applied(&rt, rt.alloc(), b"q", b"absent", b"absent"),
                "a new value, and the removal of an absent name",
            ),
        ],
    );
}

// A list of so many names.
fn list_of(rt: &impl Abort, alloc: Global, count: usize) -> Props {
    let mut list = Props::empty();
    for i in 0..count {
        let name = format!(in alloc; "p{i:05}").expect(rt, "memory");
        put(rt, alloc, &mut list, name.as_bytes(), b"");
    }
    list
}

// The fault that a delta meets over a list.
fn fault_over(alloc: Global, delta: &PropDelta, list: &Props) -> Option<PropFault> {
    delta.applied(alloc, list).err()
}

// The fault of a delta over a full list, where it sets a new name and removes this one.
fn fault_over_full(rt: &impl Abort, alloc: Global, removed: &[u8]) -> Option<PropFault> {
    let full = list_of(rt, alloc, 256);
    fault_over(alloc, &delta(rt, alloc, removed), &full)
}

#[test]
fn a_list_past_the_limits(rt: HostRuntime) {
    assert!(rt; fault_over_full(&rt, rt.alloc(), b"absent") == Some(PropFault::TooLong));
    assert!(rt; fault_over_full(&rt, rt.alloc(), b"p00000").is_none());
}

// The names `p00000` and so on, so many, which another owner has too, and another name.
fn shared_and_more(rt: &impl Abort, alloc: Global, count: usize) -> (RemovedNames, RemovedNames) {
    let mut names = RemovedNames::empty();
    for i in 0..count {
        let text = format!(in alloc; "p{i:05}").expect(rt, "memory");
        let name = PropName::parse(alloc, text.as_bytes()).expect(rt, "a name");
        names.insert(alloc, name).expect(rt, "memory");
    }
    let shared = names.share().expect(rt, "memory");
    let other = PropName::parse(alloc, b"other").expect(rt, "a name");
    names.insert(alloc, other).expect(rt, "memory");
    (shared, names)
}

// Whether a name is added to the names of one owner alone.
fn is_added_to_one(rt: &impl Abort, alloc: Global, count: usize) -> bool {
    let (shared, names) = shared_and_more(rt, alloc, count);
    let other = PropName::parse(alloc, b"other").expect(rt, "a name");
    shared.len() == count
        && names.len() == count.saturating_add(1)
        && names.contains(&other)
        && !shared.contains(&other)
}

#[test]
fn owners_share_names(rt: HostRuntime) {
    assert!(rt; is_added_to_one(&rt, rt.alloc(), 0));
    assert!(rt; is_added_to_one(&rt, rt.alloc(), 300));
}
