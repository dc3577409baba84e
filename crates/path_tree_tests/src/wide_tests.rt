//! Folders of many children, which come, change and go in several orders.

use crate::calls::{Calls, again, answers, filed, fresh, gone, lines, made};
use path_tree::Tree;
use std::alloc::Global;
use std::process::Abort;

// The number of the child that is the so manieth, where each stands so many places behind the one before.
fn place(count: u16, step: u16) -> u16 {
    count % 300 * (step % 100) % 300
}

// The path of the child of that number. Numbers and names come in one order.
fn child(rt: &impl Abort, alloc: Global, number: u16) -> String {
    let number = number % 300 + 1000;
    format!(in alloc; "d/n{number}").expect(rt, "memory")
}

// A folder of 300 children, each so many places behind the one that came before it, around the end.
fn filled<T: Calls>(rt: &impl Abort, alloc: Global, step: u16) -> T {
    let mut tree = fresh::<T>(rt, alloc);
    assert!(rt; made(rt, alloc, &mut tree, "d", 1) == 0);
    for count in 0u16..300 {
        let at = child(rt, alloc, place(count, step));
        assert!(rt; filed(rt, alloc, &mut tree, at.as_str(), 2) == 0);
    }
    tree
}

// Takes away all but each third, in that order.
fn thinned<T: Calls>(rt: &impl Abort, alloc: Global, tree: &mut T, step: u16) {
    for count in 0u16..300 {
        let number = place(count, step);
        if number % 3 != 0 {
            let at = child(rt, alloc, number);
            assert!(rt; gone(rt, alloc, tree, at.as_str(), 3) == 0);
        }
    }
}

// What is listed of a folder that is filled, of a share of it, once all but a third are gone, and of the third.
fn listed<T: Calls>(rt: &impl Abort, alloc: Global, step: u16) -> (String, String) {
    let mut tree = filled::<T>(rt, alloc, step);
    let shared = again(rt, &tree);
    thinned(rt, alloc, &mut tree, step);
    (lines(rt, alloc, &shared), lines(rt, alloc, &tree))
}

// Whether both bodies list the same.
fn is_same(rt: &impl Abort, alloc: Global, step: u16) -> bool {
    let (before, after) = listed::<Tree>(rt, alloc, step);
    let (plain_before, plain_after) = listed::<plain_tree::Tree>(rt, alloc, step);
    before.as_str() == plain_before.as_str() && after.as_str() == plain_after.as_str()
}

#[test]
fn children_come_and_go_in_order(rt: HostRuntime) {
    assert!(rt; is_same(&rt, rt.alloc(), 1));
}

#[test]
fn children_come_and_go_from_both_ends(rt: HostRuntime) {
    assert!(rt; is_same(&rt, rt.alloc(), 7));
    assert!(rt; is_same(&rt, rt.alloc(), 89));
}

// Files whose names begin with the same eight bytes, are shorter or are others, made in two orders.
const PUT: &str =
    "file /aaaaaaaab 0\nfile /a 0\nfile /é 0\nfile /aaaaaaaa 0\nfile /aaaaaaaé 0\nfile /ab 0\n\
    file /aaaaaaaaa 0\nfile /aaaaaaab 0\nfile /aaaaaaaaé 0\nfile /aaaaaaa 0\nfile /aaaaaaaab 12";

const PUT_BACK: &str =
    "file /aaaaaaa 0\nfile /aaaaaaaaé 0\nfile /aaaaaaab 0\nfile /aaaaaaaaa 0\nfile /ab 0\n\
    file /aaaaaaaé 0\nfile /aaaaaaaa 0\nfile /é 0\nfile /a 0\nfile /aaaaaaaab 0\nfile /aaaaaaaa 12";

const IN_ORDER: &str =
    "D 2\nF 2 a\nF 2 aaaaaaa\nF 2 aaaaaaaa\nF 2 aaaaaaaaa\nF 2 aaaaaaaab\nF 2 aaaaaaaaé\n\
    F 2 aaaaaaab\nF 2 aaaaaaaé\nF 2 ab\nF 2 é\n";

// What is changed of them then, and what is left.
const THEN: &str =
    "gone /aaaaaaaaa 0\ngone /aaaaaaaac 11\ntext /aaaaaaaab 0\ngone /aaaaaaaa 0\ntext /aaaaaa 11";

const LEFT: &str =
    "D 3\nF 2 a\nF 2 aaaaaaa\nF 3 aaaaaaaab\nF 2 aaaaaaaaé\nF 2 aaaaaaab\nF 2 aaaaaaaé\nF 2 ab\nF 2 é\n";

// Whether a tree lists them in the order of their bytes.
fn is_in_order<T: Calls>(rt: &impl Abort, alloc: Global, put: &str) -> bool {
    let mut tree = fresh::<T>(rt, alloc);
    answers(rt, alloc, &mut tree, put, 2)
        && lines(rt, alloc, &tree).as_str() == IN_ORDER
        && answers(rt, alloc, &mut tree, THEN, 3)
        && lines(rt, alloc, &tree).as_str() == LEFT
}

#[test]
fn names_that_begin_alike_are_in_order(rt: HostRuntime) {
    assert!(rt; is_in_order::<Tree>(&rt, rt.alloc(), PUT));
    assert!(rt; is_in_order::<Tree>(&rt, rt.alloc(), PUT_BACK));
    assert!(rt; is_in_order::<plain_tree::Tree>(&rt, rt.alloc(), PUT_BACK));
}
