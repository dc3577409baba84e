//! A folder of the host that has files already as its disk is made.

use crate::folders::{Deed, first_undone};
use crate::steps::{GATE, JOURNAL, SLOTS, Step, none_wrong};

// Beside a file with bytes nothing is made, whichever of the three it is.
const FOREIGN_JOURNAL: [Deed<'static>; 5] = [
    Deed::Empty,
    Deed::Put("fleet_disk_foreign_journal/journal", b"foreign"),
    Deed::Made(&[Step::Len(JOURNAL, 7)]),
    Deed::Missing("fleet_disk_foreign_journal/gate"),
    Deed::Gone,
];

const FOREIGN_GATE: [Deed<'static>; 5] = [
    Deed::Empty,
    Deed::Put("fleet_disk_foreign_gate/gate", b"foreign"),
    Deed::Made(&[Step::Len(GATE, 7)]),
    Deed::Missing("fleet_disk_foreign_gate/journal"),
    Deed::Gone,
];

const FOREIGN_SLOTS: [Deed<'static>; 5] = [
    Deed::Empty,
    Deed::Put("fleet_disk_foreign_slots/slots", b"foreign"),
    Deed::Made(&[Step::Len(SLOTS, 7)]),
    Deed::Missing("fleet_disk_foreign_slots/journal"),
    Deed::Gone,
];

// What a stopped begin leaves, an empty journal, is completed.
const EMPTY_JOURNAL: [Deed<'static>; 7] = [
    Deed::Empty,
    Deed::Put("fleet_disk_empty_journal/journal", b""),
    Deed::Made(&[
        Step::Write(GATE, b"x"),
        Step::Write(JOURNAL, b"xy"),
        Step::Write(SLOTS, b"xyz"),
    ]),
    Deed::Has("fleet_disk_empty_journal/gate", 1),
    Deed::Has("fleet_disk_empty_journal/journal", 2),
    Deed::Has("fleet_disk_empty_journal/slots", 3),
    Deed::Gone,
];

// Beside a journal and a gate the slots are made, and those that are there stay.
const COMPLETED: [Deed<'static>; 10] = [
    Deed::Empty,
    Deed::Put("fleet_disk_completed/journal", b"entry"),
    Deed::Put("fleet_disk_completed/gate", b"gates"),
    Deed::Completed(&[Step::Len(SLOTS, 0)]),
    Deed::Has("fleet_disk_completed/slots", 0),
    Deed::Completed(&[Step::Write(SLOTS, b"xyz"), Step::Sync]),
    Deed::Completed(&[Step::Len(SLOTS, 3)]),
    Deed::Has("fleet_disk_completed/journal", 5),
    Deed::Has("fleet_disk_completed/gate", 5),
    Deed::Gone,
];

// Beside a journal alone, or a gate alone, nothing is made.
const UNCOMPLETED: [Deed<'static>; 11] = [
    Deed::Empty,
    Deed::Completed(&[Step::Len(SLOTS, 0)]),
    Deed::Missing("fleet_disk_uncompleted/journal"),
    Deed::Put("fleet_disk_uncompleted/journal", b"entry"),
    Deed::Completed(&[Step::Len(SLOTS, 0)]),
    Deed::Missing("fleet_disk_uncompleted/slots"),
    Deed::Take("fleet_disk_uncompleted/journal"),
    Deed::Put("fleet_disk_uncompleted/gate", b"gates"),
    Deed::Completed(&[Step::Len(SLOTS, 0)]),
    Deed::Missing("fleet_disk_uncompleted/slots"),
    Deed::Gone,
];

// What is tried, in which folder, and what is done there.
const FOLDERS: [(&str, &str, &[Deed<'static>]); 6] = [
    (
        "foreign journal",
        "fleet_disk_foreign_journal",
        &FOREIGN_JOURNAL,
    ),
    ("foreign gate", "fleet_disk_foreign_gate", &FOREIGN_GATE),
    ("foreign slots", "fleet_disk_foreign_slots", &FOREIGN_SLOTS),
    ("empty journal", "fleet_disk_empty_journal", &EMPTY_JOURNAL),
    ("completed", "fleet_disk_completed", &COMPLETED),
    ("uncompleted", "fleet_disk_uncompleted", &UNCOMPLETED),
];

#[test]
fn folders_that_have_files(rt: HostRuntime) {
    for (what, folder, deeds) in &FOLDERS {
        none_wrong(&rt, *what, first_undone(&rt, *folder, *deeds));
    }
}
