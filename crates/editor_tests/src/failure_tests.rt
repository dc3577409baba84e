//! Readers and writers that fail, sets that can't be, and edits that are refused.

use crate::roads::{refusal, sent, sent_to};
use crate::sets::set;
use crate::spelled_tests::{FULL, every_command};
use crate::streams_for_tests::{Failing, items_from};
use byte_streams::{MemOutput, Output};
use dump_load::ChangeSet;
use path_tree::Tree;
use std::alloc::Global;
use std::rt::HostRuntime;

// What a receive is refused for where its reader fails behind these bytes, and then the next one.
fn broken(alloc: Global, trees: &[Tree], bytes: &[u8]) -> (u8, u8) {
    let mut items = items_from(alloc, bytes, 7, true);
    let first = refusal(alloc, trees, &mut items);
    (first, refusal(alloc, trees, &mut items))
}

// Whether a reader that fails behind any beginning of an edit is said to have failed, and the stream is over.
fn all_break(alloc: Global, trees: &[Tree]) -> bool {
    for end in 0..FULL.len() {
        if broken(alloc, trees, FULL.get(..end).unwrap_or(b"")) != (49, 32) {
            return false;
        }
    }
    true
}

#[test]
fn a_reader_that_fails_is_told(rt: HostRuntime) {
    let alloc = rt.alloc();
    let (trees, _set) = every_command(&rt, alloc);
    assert!(rt; all_break(alloc, &trees));
    assert!(rt; broken(alloc, &trees, FULL) == (0, 49));
}

// The number of what a set isn't sent for where the writer fails behind so many calls, 0 where it is sent; none where
// the writer doesn't have a beginning of the edit.
fn unsent(alloc: Global, trees: &[Tree], set: &ChangeSet, left: usize) -> Option<u8> {
    let mut bytes = Vec::new(alloc);
    let out = Failing {
        bytes: &mut bytes,
        left,
        size: usize::MAX,
    };
    let number = match sent(alloc, trees, set, out) {
        Ok(_) => 0,
        Err(fault) => fault.number(),
    };
    FULL.starts_with(bytes.as_slice()).then_some(number)
}

// Whether a writer that fails behind fewer calls than so many is said to have failed.
fn all_unsent(alloc: Global, trees: &[Tree], set: &ChangeSet, calls: usize) -> bool {
    for left in 0..calls {
        if unsent(alloc, trees, set, left) != Some(49) {
            return false;
        }
    }
    true
}

#[test]
fn a_writer_that_fails_is_told(rt: HostRuntime) {
    let alloc = rt.alloc();
    let (trees, set) = every_command(&rt, alloc);
    assert!(rt; all_unsent(alloc, &trees, &set, 20));
    assert!(rt; unsent(alloc, &trees, &set, 20) == Some(0));
}

// The number of what a set isn't sent for to a counted output that fails behind so many writes, 0 where it is sent;
// none where the output isn't back, doesn't have a beginning of the edit, or has failed where it isn't said to.
fn unsent_to(alloc: Global, trees: &[Tree], set: &ChangeSet, passing: u64) -> Option<u8> {
    let (number, out) = match sent_to(alloc, trees, set, MemOutput::new(alloc, passing)) {
        Ok(out) => (0, Some(out)),
        Err(unsent) => (unsent.fault.number(), unsent.out),
    };
    match out {
        Some(out) => is_counted(&out, number).then_some(number),
        None => None,
    }
}

// Whether an output has a beginning of the edit, whole where it is sent, and failed exactly where it is said to.
fn is_counted(out: &MemOutput, number: u8) -> bool {
    FULL.starts_with(out.bytes())
        && (out.count_failures() > 0) == (number == 49)
        && (number != 0 || out.bytes() == FULL)
}

// Whether an output that fails behind fewer writes than so many is back and is said to have failed.
fn all_come_back(alloc: Global, trees: &[Tree], set: &ChangeSet, writes: u64) -> bool {
    for passing in 0..writes {
        if unsent_to(alloc, trees, set, passing) != Some(49) {
            return false;
        }
    }
    true
}

#[test]
fn an_output_that_fails_comes_back(rt: HostRuntime) {
    let alloc = rt.alloc();
    let (trees, set) = every_command(&rt, alloc);
    assert!(rt; all_come_back(alloc, &trees, &set, 20));
    assert!(rt; unsent_to(alloc, &trees, &set, 20) == Some(0));
}

#[test]
fn a_set_with_a_fault_is_not_sent(rt: HostRuntime) {
    let alloc = rt.alloc();
    let (trees, _set) = every_command(&rt, alloc);
    let set = set(&rt, alloc, "delete a");
    assert!(rt; unsent(alloc, &trees, &set, usize::MAX) == Some(11));
    assert!(rt; unsent_to(alloc, &trees, &set, u64::MAX) == Some(11));
}

// What an edit is refused for.
fn refused(alloc: Global, trees: &[Tree], bytes: &[u8]) -> u8 {
    refusal(alloc, trees, &mut items_from(alloc, bytes, 9, false))
}

#[test]
fn an_edit_over_other_trees_is_refused(rt: HostRuntime) {
    let trees: [Tree; 0] = [];
    assert!(rt; refused(rt.alloc(), &trees, FULL) == 16);
}
