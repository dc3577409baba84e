//! Sets that a generator makes, driven to an editor that builds them again.
use crate::build_tests::comes_back;
use crate::sets::{change, commit, over, props};
use dump_load::{Change, ChangeSet, apply, in_path_order};
use node_base::{Action, Props};
use path_tree::Tree;
use std::alloc::{AllocError, Global};
use std::process::Abort;

// A sequence of numbers that look random, the same at each run (Knuth's multiplier modulo 2^64).
#[derive(Drop)]
struct Numbers {
    state: u64,
}

impl Numbers {
    fn below(&mut self, bound: u64) -> u64 {
        self.state = self
            .state
            .wrapping_mul(6_364_136_223_846_793_005)
            .wrapping_add(1_442_695_040_888_963_407);
        if bound == 0 {
            return 0;
        }
        (self.state >> 33) % bound
    }

    fn one_of<'a>(&mut self, all: &[&'a str; 8]) -> &'a str {
        match all.get(self.below(8) as usize) {
            Some(one) => one,
            None => "a",
        }
    }
}

const PATHS: [&str; 8] = ["a", "a/b", "a/b/c", "a/x", "a-b", "d", "d/e", "f"];

// The line of what is done at a path.
fn some_line(rt: &impl Abort, alloc: Global, numbers: &mut Numbers, at: &str, head: u16) -> String {
    let line = match numbers.below(6) {
        0 => format!(in alloc; "delete {at}"),
        1 => format!(in alloc; "change {at}"),
        2 | 3 => format!(in alloc; "add {at} dir\t"),
        4 => format!(in alloc; "add {at} file\t\t{}", numbers.one_of(&PATHS)),
        _ => copied(alloc, numbers, at, head),
    };
    line.expect(rt, "memory")
}

// The line of a copy of some path at some revision.
fn copied(alloc: Global, numbers: &mut Numbers, at: &str, head: u16) -> Result<String, AllocError> {
    let from = numbers.one_of(&PATHS);
    let number = numbers.below(u64::from(head) + 1);
    format!(in alloc; "add {at} - {from} {number}")
}

// Two properties, one of some value.
fn some_props(rt: &impl Abort, alloc: Global, numbers: &mut Numbers) -> Props {
    let value = numbers.one_of(&PATHS);
    let words = format!(in alloc; "p={value},q=2").expect(rt, "memory");
    props(rt, alloc, words.as_str())
}

fn some_change(rt: &impl Abort, alloc: Global, numbers: &mut Numbers, head: u16) -> Change {
    let at = numbers.one_of(&PATHS);
    let line = some_line(rt, alloc, numbers, at, head);
    let mut change = change(rt, alloc, line.as_str());
    if numbers.below(4) == 0 && change.action == Action::Add {
        change.action = Action::Replace;
    }
    if numbers.below(3) == 0 && change.action != Action::Delete {
        change.props = Some(some_props(rt, alloc, numbers));
    }
    change
}

// Some changes in path order.
fn some_changes(rt: &impl Abort, alloc: Global, numbers: &mut Numbers, head: u16) -> Vec<Change> {
    let mut changes = Vec::new(alloc);
    for _ in 0..numbers.below(5) {
        changes
            .push(some_change(rt, alloc, numbers, head))
            .expect(rt, "memory");
    }
    in_path_order(changes).expect(rt, "memory")
}

// Whether a set makes a tree.
fn makes_a_tree(alloc: Global, trees: &[Tree], set: &ChangeSet) -> bool {
    trees.len() <= 65_535 && apply(alloc, trees, set).is_ok()
}

// A normal set without a fault, if these changes are one.
fn some_set(
    rt: &impl Abort,
    alloc: Global,
    numbers: &mut Numbers,
    trees: &[Tree],
) -> Option<ChangeSet> {
    let changes = some_changes(rt, alloc, numbers, (trees.len() % 65_535) as u16);
    match ChangeSet::from_changes(changes) {
        Ok(set) => {
            if makes_a_tree(alloc, trees, &set) {
                Some(set)
            } else {
                None
            }
        }
        Err(_) => None,
    }
}

// One try: how many sets more came, and none where one didn't come back with its effect.
fn one_try(
    rt: &impl Abort,
    alloc: Global,
    numbers: &mut Numbers,
    trees: &mut Vec<Tree>,
) -> Option<u32> {
    match some_set(rt, alloc, numbers, trees.as_slice()) {
        Some(set) => {
            let back = comes_back(rt, alloc, trees.as_slice(), &set);
            commit(rt, alloc, trees, &set);
            back.then_some(1)
        }
        None => Some(0),
    }
}

// How many sets came of so many tries; none where one didn't come back with its effect.
fn all_come_back(rt: &impl Abort, alloc: Global, seed: u64, tries: u32) -> Option<u32> {
    let mut numbers = Numbers { state: seed };
    let mut trees = over(rt, alloc, "");
    let mut count = 0u32;
    for _ in 0..tries {
        match one_try(rt, alloc, &mut numbers, &mut trees) {
            Some(more) => count = count.saturating_add(more),
            None => return None,
        }
    }
    Some(count)
}

#[test]
fn generated_sets_come_back(rt: HostRuntime) {
    assert!(rt; all_come_back(&rt, rt.alloc(), 1, 2_000).is_some_and(|count| count > 300));
}
