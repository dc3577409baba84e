//! Sets that are sent one behind the other, and received one by one.

use crate::roads::{comes_next, refusal, sent};
use crate::sets::{long_line, over, set};
use crate::streams_for_tests::items_from;
use dump_load::ChangeSet;
use path_tree::Tree;
use std::alloc::Global;
use std::process::Abort;
use std::rt::HostRuntime;

// A directory with a property, a short text, and (once 70,000 bytes are behind it) one of more than a window.
const FIRST: &str = "add t dir\tp=1;add t/x file\t\thello\n;add t/y file\t\t";

// A copy in which a file goes and another comes, other properties, and a text given anew.
const SECOND: &str =
    "add b - t 1;delete b/x;add b/z file\t\t;change t\tq=2,r=;change t/x\t-\thello, world\n";

// A set, and the trees before it.
type Step<'a> = (&'a [Tree], &'a ChangeSet);

// Both sets, one behind the other.
fn both(rt: &impl Abort, alloc: Global, first: Step<'_>, second: Step<'_>) -> Vec<u8> {
    let bytes = sent(alloc, first.0, first.1, Vec::new(alloc)).expect(rt, "sent");
    sent(alloc, second.0, second.1, bytes).expect(rt, "sent")
}

// Whether both sets come back in pieces of a size, and then no other: the input ends, and the stream is over.
fn come_back(
    rt: &impl Abort,
    alloc: Global,
    first: Step<'_>,
    second: Step<'_>,
    bytes: &[u8],
    size: usize,
) -> bool {
    let mut items = items_from(alloc, bytes, size, false);
    comes_next(rt, alloc, first.0, first.1, &mut items)
        && comes_next(rt, alloc, second.0, second.1, &mut items)
        && refusal(alloc, second.0, &mut items) == 48
        && refusal(alloc, second.0, &mut items) == 32
}

// The first size of pieces in which they don't.
fn first_lost(rt: &impl Abort, alloc: Global, first: Step<'_>, second: Step<'_>) -> Option<usize> {
    let bytes = both(rt, alloc, first, second);
    for size in [bytes.len(), 4_099, 7, 1] {
        if !come_back(rt, alloc, first, second, bytes.as_slice(), size) {
            return Some(size);
        }
    }
    None
}

// The same of the two sets.
fn first_lost_of_two(rt: &impl Abort, alloc: Global) -> Option<usize> {
    let lines = long_line(rt, alloc, FIRST, 70_000);
    let begun = over(rt, alloc, "");
    let first = set(rt, alloc, lines.as_str());
    let grown = over(rt, alloc, lines.as_str());
    let second = set(rt, alloc, SECOND);
    first_lost(
        rt,
        alloc,
        (begun.as_slice(), &first),
        (grown.as_slice(), &second),
    )
}

#[test]
fn sets_come_back_one_by_one(rt: HostRuntime) {
    assert_eq!(rt; first_lost_of_two(&rt, rt.alloc()), None);
}

// Whether no change at all comes back as a set that makes the same tree.
fn nothing_comes_back(rt: &impl Abort, alloc: Global) -> bool {
    let trees: [Tree; 0] = [];
    let set = ChangeSet::empty(alloc);
    let bytes = sent(alloc, &trees, &set, Vec::new(alloc)).expect(rt, "sent");
    let mut items = items_from(alloc, bytes.as_slice(), 5, false);
    comes_next(rt, alloc, &trees, &set, &mut items)
}

#[test]
fn a_set_without_a_change_comes_back(rt: HostRuntime) {
    assert!(rt; nothing_comes_back(&rt, rt.alloc()));
}

#[test]
fn laws(rt: HostRuntime) {
    edit_road::law::same_calls_have_one_effect();
    edit_road::law::same_calls_nest_alike();
    edit_road::law::same_calls_are_refused_alike();
    edit_road::law::cut_has_bytes();
    edit_road::law::drive_has_bytes();
    edit_road::law::takes_join();
    edit_road::law::drive_is_written();
    edit_road::law::drive_is_received();
    edit_road::law::drive_is_not_refused();
    edit_road::law::drive_is_spelled();
}
