//! Sets that are sent and received, for the tests.

use crate::build_tests::same_tree;
use crate::sets::tree_of;
use byte_streams::{Input, Output};
use delta_editor::EditorFault;
use dump_load::{Applied, ChangeSet};
use edit_road::law::set_may_be_sent;
use edit_road::receive::receive_set;
use edit_road::send::{Unsent, send_set, send_set_to};
use editor_ends::law::{set_is_refused_for_memory_alone, set_is_taken};
use path_tree::Tree;
use ra_edit::edit_fault::EditFault;
use ra_edit::stream::ItemStream;
use std::alloc::Global;
use std::io::Write;
use std::process::Abort;

/// Sends a set over so few trees that it may be sent.
pub(crate) fn sent<W: Write + Drop>(
    alloc: Global,
    trees: &[Tree],
    set: &ChangeSet,
    out: W,
) -> Result<W, EditorFault> {
    if trees.len() > 65_535 {
        return Err(EditorFault::TooLong);
    }
    set_is_taken(trees, set);
    set_is_refused_for_memory_alone(trees, set);
    set_may_be_sent(trees, set);
    send_set(alloc, trees, set, out)
}

/// Sends a set in the same way to an output whose failures are counted.
pub(crate) fn sent_to<O: Output + Drop>(
    alloc: Global,
    trees: &[Tree],
    set: &ChangeSet,
    out: O,
) -> Result<O, Unsent<O>> {
    if trees.len() > 65_535 {
        return Err(Unsent {
            fault: EditorFault::TooLong,
            out: Some(out),
        });
    }
    send_set_to(alloc, trees, set, out)
}

/// Receives a set, with its tree, over so few trees that one may be received.
pub(crate) fn received<I: Input + Drop>(
    alloc: Global,
    trees: &[Tree],
    items: &mut ItemStream<I>,
) -> Result<Applied, EditFault> {
    if trees.len() > 65_535 {
        return Err(EditFault::TooLong);
    }
    receive_set(alloc, trees, items)
}

// Whether what is received makes the same tree as a set, and comes with it.
fn is_same(
    rt: &impl Abort,
    alloc: Global,
    trees: &[Tree],
    set: &ChangeSet,
    found: &Applied,
) -> bool {
    let wanted = tree_of(rt, alloc, trees, set);
    let made = tree_of(rt, alloc, trees, &found.set);
    same_tree(rt, alloc, &wanted, &made) && same_tree(rt, alloc, &wanted, &found.tree)
}

/// Whether the next set that is received makes the same tree as this one, and comes with it.
pub(crate) fn comes_next<I: Input + Drop>(
    rt: &impl Abort,
    alloc: Global,
    trees: &[Tree],
    set: &ChangeSet,
    items: &mut ItemStream<I>,
) -> bool {
    match received(alloc, trees, items) {
        Ok(found) => is_same(rt, alloc, trees, set, &found),
        Err(_) => false,
    }
}

/// The number of what the next receive is refused for; 0 where it isn't.
pub(crate) fn refusal<I: Input + Drop>(
    alloc: Global,
    trees: &[Tree],
    items: &mut ItemStream<I>,
) -> u8 {
    match received(alloc, trees, items) {
        Ok(_) => 0,
        Err(fault) => fault.number(),
    }
}
