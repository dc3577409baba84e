//! The refusals' numbers and texts: vectors from outside.

use crate::checked::{all_hold, is_text, none_is_wrong};
use node_base::{PathFault, PropFault, Refusal, RevNo, TextFault, ToldNumber, TreeFault};
use std::alloc::Global;
use std::process::Abort;

// Whether a refusal is told in this line.
fn is_told(alloc: Global, refusal: &Refusal, line: &str) -> bool {
    is_text(refusal.line(alloc), line)
}

// The same of one that is let go of.
fn tells(alloc: Global, refusal: Refusal, line: &str) -> bool {
    is_told(alloc, &refusal, line)
}

#[test]
fn refusals_with_a_number(rt: HostRuntime) {
    let alloc = rt.alloc();
    let behind = Refusal::Behind(RevNo::new(3));
    assert!(rt; tells(alloc, behind, "svnfleet: 25 the base is not the head 3\n"));
    let damaged = Refusal::Damaged(12);
    assert!(rt; tells(alloc, damaged, "svnfleet: 33 entry 12 is damaged\n"));
    let later = Refusal::NotYetCopied(RevNo::new(5));
    assert!(rt; tells(alloc, later, "svnfleet: 58 revision 5 is not copied yet\n"));
}

// These bytes.
fn holder(rt: &impl Abort, alloc: Global, bytes: &[u8]) -> Vec<u8> {
    Vec::from_slice(alloc, bytes).expect(rt, "memory")
}

#[test]
fn refusals_with_a_holder(rt: HostRuntime) {
    let alloc = rt.alloc();
    let held = Refusal::LockHeld(holder(&rt, alloc, b"job"));
    assert!(rt; tells(alloc, held, "svnfleet: 54 the sync lock is held by job\n"));
    let running = Refusal::HolderRunning(holder(&rt, alloc, b"a\x1F\x7F~ \xC3"));
    assert!(rt;
        tells(
            alloc,
            running,
            "svnfleet: 55 the holder a??~ ? is running\n"
        )
    );
}

// Whether a refusal, which is let go of, has this number and text.
fn is_of(alloc: Global, refusal: Refusal, number: u8, text: &str) -> bool {
    refusal.number() == number && is_text(format!(in alloc; "{refusal}"), text)
}

// What a master's refusal is told as.
fn of_master(rt: &impl Abort, alloc: Global, inner: Refusal) -> Refusal {
    Refusal::master_failed(alloc, &inner).expect(rt, "memory")
}

#[test]
fn refusals_of_a_master(rt: HostRuntime) {
    let alloc = rt.alloc();
    let inconsistent = Refusal::Inconsistent {
        merged: ToldNumber::Spelt(4),
        copying: ToldNumber::Missing,
        head: RevNo::new(6),
    };
    let told = of_master(&rt, alloc, inconsistent);
    let text = "master: inconsistent: merged 4, copying -, head 6";
    assert!(rt; is_of(alloc, told, 60, text));
    let refused = Refusal::master_refused(alloc).expect(&rt, "memory");
    assert!(rt; tells(alloc, refused, "svnfleet: 60 master: refused\n"));
}

const PLAIN: [(Refusal, &str); 5] = [
    (
        Refusal::BadVersion,
        "svnfleet: 1 unsupported dump format version\n",
    ),
    (Refusal::ReadOnly, "svnfleet: 24 the mirror is read-only\n"),
    (Refusal::LogFull, "svnfleet: 36 journal is full\n"),
    (Refusal::NotInitialised, "svnfleet: 51 not initialized\n"),
    (Refusal::OutOfMemory, "svnfleet: 70 out of memory\n"),
];

// The first of these that is told in another line.
fn other_line(alloc: Global) -> Option<&'static str> {
    for (refusal, line) in &PLAIN {
        if !is_told(alloc, refusal, *line) {
            return Some(*line);
        }
    }
    None
}

#[test]
fn refusals_without_a_payload(rt: HostRuntime) {
    none_is_wrong(&rt, other_line(rt.alloc()));
}

const PLACES: [(TreeFault, u8, &str); 7] = [
    (TreeFault::TooLong, 8, "limit exceeded"),
    (TreeFault::BadPath, 10, "bad path"),
    (TreeFault::NoSuchPath, 11, "no such path"),
    (TreeFault::PathThere, 12, "path already exists"),
    (TreeFault::NotDir, 13, "not a directory"),
    (TreeFault::NoSource, 14, "no such copy source"),
    (TreeFault::KindMismatch, 17, "node kind mismatch"),
];

// Whether a fault has this number and text, and its refusal this number.
fn is_fault(alloc: Global, fault: TreeFault, number: u8, text: &str) -> bool {
    is_numbered(Refusal::from(fault), fault.number(), number)
        && is_text(format!(in alloc; "{fault}"), text)
}

// The text of the first of these that is another refusal.
fn other_fault(alloc: Global) -> Option<&'static str> {
    for (fault, number, text) in &PLACES {
        if !is_fault(alloc, *fault, *number, *text) {
            return Some(*text);
        }
    }
    None
}

#[test]
fn faults_of_places_are_refusals(rt: HostRuntime) {
    none_is_wrong(&rt, other_fault(rt.alloc()));
}

// Whether a refusal, which is let go of, has this number, and the fault that it is of too.
fn is_numbered(refusal: Refusal, of_fault: u8, number: u8) -> bool {
    refusal.number() == number && of_fault == number
}

// Whether a fault and its refusal have this number.
fn is_of_path(fault: PathFault, number: u8) -> bool {
    is_numbered(Refusal::from(fault), fault.number(), number)
}

// The same.
fn is_of_props(fault: PropFault, number: u8) -> bool {
    is_numbered(Refusal::from(fault), fault.number(), number)
}

// The same.
fn is_of_text(fault: TextFault, number: u8) -> bool {
    is_numbered(Refusal::from(fault), fault.number(), number)
}

#[test]
fn faults_of_texts_are_refusals(rt: HostRuntime) {
    all_hold(
        &rt,
        &[
            (is_of_path(PathFault::TooLong, 8), "a path, too long"),
            (is_of_path(PathFault::BadPath, 10), "a bad path"),
            (is_of_path(PathFault::OutOfMemory, 70), "a path, memory"),
            (is_of_props(PropFault::BadProps, 5), "bad properties"),
            (is_of_props(PropFault::TooLong, 8), "properties, too long"),
            (
                is_of_props(PropFault::OutOfMemory, 70),
                "properties, memory",
            ),
            (is_of_text(TextFault::TooLong, 8), "a text, too long"),
            (is_of_text(TextFault::OutOfMemory, 70), "a text, memory"),
        ],
    );
}
