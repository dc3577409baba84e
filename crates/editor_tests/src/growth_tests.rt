// Every growth of this test may be refused: it then answers for what is left, and stays green. `rt try --test
// --fail-alloc N` refuses the growth number N.

use crate::roads::{received, sent};
use crate::spelled_tests::ADDED;
use crate::streams_for_tests::{Failing, items_from};
use delta_editor::EditorFault;
use dump_load::ChangeSet;
use path_tree::Tree;
use ra_edit::edit_fault::EditFault;
use std::alloc::Global;
use std::rt::HostRuntime;

// Whether a set is sent whole, into a place that doesn't grow, or up to a growth that is refused.
fn is_sent(alloc: Global, trees: &[Tree], set: &ChangeSet) -> bool {
    let Ok(mut bytes) = Vec::with_capacity(alloc, ADDED.len()) else {
        return true;
    };
    match sent(alloc, trees, set, Failing::never(&mut bytes)).err() {
        None => bytes.as_slice() == ADDED,
        Some(fault) => fault == EditorFault::OutOfMemory && ADDED.starts_with(bytes.as_slice()),
    }
}

// Whether a set is received and sent again, or given up at a growth that is refused; the stream is over then.
fn is_passed_on(alloc: Global, trees: &[Tree], size: usize) -> bool {
    let mut items = items_from(alloc, ADDED, size, false);
    match received(alloc, trees, &mut items) {
        Ok(found) => is_sent(alloc, trees, &found.set),
        Err(fault) => {
            fault.number() == 70
                && received(alloc, trees, &mut items).err() == Some(EditFault::Failed)
        }
    }
}

// The same over the tree of a root alone, whole and one byte at a time.
fn is_passed_on_either_way(alloc: Global) -> bool {
    match Tree::empty(alloc) {
        Ok(tree) => {
            let trees = [tree];
            is_passed_on(alloc, trees.as_slice(), ADDED.len())
                && is_passed_on(alloc, trees.as_slice(), 1)
        }
        Err(_) => true,
    }
}

#[test]
fn a_set_is_passed_on(rt: HostRuntime) {
    assert!(rt; is_passed_on_either_way(rt.alloc()));
}
