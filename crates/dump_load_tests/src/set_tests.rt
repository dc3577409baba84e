//! Sets of small revisions, and what they make of trees.

use crate::spelled::{all_hold, answer, records, two_trees};
use byte_streams::VecWriter;
use dump_load::{ChangeSet, load_revision};
use dump_text::{NodeRecord, RevRecord, write_revision};
use node_base::{Action, NodeKind, Props, RevNo, Text};
use std::alloc::Global;
use std::process::Abort;

// The set of revision 2 that records make.
fn set_of(rt: &impl Abort, alloc: Global, lines: &str) -> ChangeSet {
    let trees = two_trees(rt, alloc);
    assert!(rt; trees.len() <= 65_535);
    let stated = records(rt, alloc, lines);
    ChangeSet::from_records(alloc, trees.as_slice(), stated).expect(rt, "a set")
}

// Whether a set is one change of this action and of a directory.
fn is_one(set: &ChangeSet, action: Action) -> bool {
    match set.changes() {
        [change] => change.action == action && change.kind == Some(NodeKind::Dir),
        _ => false,
    }
}

// The records of a set.
fn records_of(rt: &impl Abort, alloc: Global, set: &ChangeSet) -> Vec<NodeRecord> {
    set.to_records(alloc).expect(rt, "memory")
}

#[test]
fn a_deletion_and_an_add_are_one_replace(rt: HostRuntime) {
    let set = set_of(&rt, rt.alloc(), "delete t file\nadd t - t 1");
    let records = records_of(&rt, rt.alloc(), &set);
    all_hold(
        &rt,
        &[
            (is_one(&set, Action::Replace), "the change"),
            (records.len() == 1, "the record"),
        ],
    );
}

// The number of the refusal of the record that a line spells with a text.
fn answer_with_text(rt: &impl Abort, alloc: Global, line: &str) -> u8 {
    let mut stated = records(rt, alloc, line);
    let text = Text::empty(alloc).expect(rt, "memory");
    if let Some(first) = stated.get_mut(0) {
        first.text = Some(text);
    }
    answer(rt, alloc, stated)
}

#[test]
fn what_dump_text_cant_say(rt: HostRuntime) {
    assert!(rt; answer_with_text(&rt, rt.alloc(), "delete t/x") == 2);
    let stated = records(&rt, rt.alloc(), "change t - t 1");
    assert!(rt; answer(&rt, rt.alloc(), stated) == 2);
}

#[test]
fn a_text_for_a_directory(rt: HostRuntime) {
    assert!(rt; answer_with_text(&rt, rt.alloc(), "change t") == 17);
}

// The number of the refusal of revision 1 where none is before it, or 0.
fn answer_out_of_turn(alloc: Global) -> u8 {
    match load_revision(alloc, &[], RevNo::new(1), Vec::new(alloc)) {
        Ok(_) => 0,
        Err(fault) => fault.number(),
    }
}

#[test]
fn a_number_out_of_turn(rt: HostRuntime) {
    assert!(rt; answer_out_of_turn(rt.alloc()) == 16);
}

// The second revision of a copied directory without one of its files, as it is written.
fn copied_directory() -> &'static [u8] {
    b"Revision-number: 2
Prop-content-length: 10
Content-length: 10

PROPS-END

Node-path: b
Node-kind: dir
Node-action: add
Node-copyfrom-rev: 1
Node-copyfrom-path: t



Node-path: b/x
Node-action: delete



"
        .as_slice()
}

// Revision 2 of a set, as it is written.
fn written(rt: &impl Abort, alloc: Global, set: &ChangeSet) -> Vec<u8> {
    let mut written = VecWriter::new(alloc);
    let revision = RevRecord {
        number: RevNo::new(2),
        props: Props::empty(),
        nodes: records_of(rt, alloc, set),
    };
    write_revision(&mut written, &revision).expect(rt, "whole lists of properties");
    written.into_bytes().expect(rt, "memory")
}

#[test]
fn a_copied_directory_is_written(rt: HostRuntime) {
    let set = set_of(&rt, rt.alloc(), "delete b/x\nadd b - t 1");
    let bytes = written(&rt, rt.alloc(), &set);
    assert!(rt; bytes.len() == 203 && bytes.as_slice() == copied_directory());
}
