// Every growth of these tests may be refused: each then answers for what is left, and stays green. `rt try --test
// --fail-alloc N` refuses the growth number N.

use crate::counting_tests::{counted, is_given_up};
use crate::received_tests::FULL;
use crate::streams_for_tests::{Failing, items_from};
use crate::wire_tests::{COPY, CopyPaths, show_copy};
use delta_editor::EditorFault;
use ra_edit::edit_fault::EditFault;
use ra_edit::receive::receive;
use ra_edit::wire::WireEditor;
use ra_item::fault::{ItemFault, NextFault};
use std::alloc::Global;
use std::rt::HostRuntime;

// Whether an editor writes all that it is shown once it has its room, into a place that doesn't grow.
fn is_written(alloc: Global) -> bool {
    let Ok(paths) = CopyPaths::new(alloc) else {
        return true;
    };
    let Ok(mut bytes) = Vec::with_capacity(alloc, COPY.len()) else {
        return true;
    };
    let editor = match WireEditor::new(alloc, Failing::never(&mut bytes)) {
        Ok(editor) => editor,
        Err(fault) => return fault == EditorFault::OutOfMemory,
    };
    let refused = show_copy(editor, &paths).err();
    refused.is_none() && bytes.as_slice() == COPY
}

#[test]
fn writing(rt: HostRuntime) {
    assert!(rt; is_written(rt.alloc()));
}

// Whether a drive is passed on whole, into a place that doesn't grow, or up to a growth that is refused. That growth is
// no call's of the editor, and the stream is over.
fn is_passed_on(alloc: Global, size: usize) -> bool {
    let Ok(mut bytes) = Vec::with_capacity(alloc, FULL.len()) else {
        return true;
    };
    let Ok(editor) = WireEditor::new(alloc, Failing::never(&mut bytes)) else {
        return true;
    };
    let mut items = items_from(alloc, FULL, size, false);
    match receive(alloc, &mut items, editor).err() {
        None => bytes.as_slice() == FULL,
        Some(fault) => {
            fault == EditFault::OutOfMemory
                && FULL.starts_with(bytes.as_slice())
                && items.next().err() == Some(NextFault::Items(ItemFault::Failed))
        }
    }
}

// Whether a drive is shown whole, or given up at a growth that is refused.
fn is_shown(alloc: Global) -> bool {
    let (number, counts) = counted(alloc, FULL, false, usize::MAX);
    match number {
        0 => counts.ended == 1,
        _ => number == 70 && is_given_up(&counts),
    }
}

#[test]
fn receiving(rt: HostRuntime) {
    assert!(rt; is_passed_on(rt.alloc(), FULL.len()));
    assert!(rt; is_passed_on(rt.alloc(), 1));
    assert!(rt; is_shown(rt.alloc()));
}
