//! What svnserve of version 1.14.2 tells, as it was recorded.

use browse_wire::told::{
    Action, ChangedPath, LogEntry, NodeInfo, Refusal, write_last, write_location, write_log_entry,
    write_no_locks, write_refusal, write_segment, write_stat,
};
use node_base::{NodeKind, NodePath, Props};
use std::alloc::Global;

fn text(alloc: Global, bytes: &[u8]) -> Option<Vec<u8>> {
    Vec::from_slice(alloc, bytes).ok()
}

fn path(alloc: Global, bytes: &[u8]) -> NodePath {
    NodePath::parse(alloc, bytes).unwrap_or(NodePath::root(alloc))
}

const STATS: &[u8] =
    b"( success ( ( ( dir 18446744073709551615 true 10 ( 27:2020-01-01T02:46:40.079190Z ) ( 5:alice ) ) ) ) ) ( success ( ( ) ) ) ";

#[test]
fn stats(rt: HostRuntime) {
    let alloc = rt.alloc();
    let root = NodeInfo {
        kind: NodeKind::Dir,
        size: 18446744073709551615,
        has_props: true,
        created: 10,
        date: text(alloc, b"2020-01-01T02:46:40.079190Z"),
        author: text(alloc, b"alice"),
    };
    let mut out = Vec::new(alloc);
    let told = write_stat(&mut out, &Some(root)).is_ok() && write_stat(&mut out, &None).is_ok();
    assert!(rt; told && out.as_slice() == STATS);
}

// The changes of the recorded repository's revision 6, but for two.
fn replaced(alloc: Global) -> Option<Vec<ChangedPath>> {
    let mut changes = Vec::new(alloc);
    let branch = ChangedPath {
        path: path(alloc, b"branches/b1"),
        action: Action::Replaced,
        source: Some((path(alloc, b"trunk"), 5)),
        kind: NodeKind::Dir,
        text: false,
        props: false,
    };
    let file = ChangedPath {
        path: path(alloc, b"branches/b1/lib/c.c"),
        action: Action::Added,
        source: None,
        kind: NodeKind::File,
        text: true,
        props: false,
    };
    changes.push(branch).ok()?;
    changes.push(file).ok()?;
    Some(changes)
}

const ENTRY: &[u8] =
    b"( ( ( 12:/branches/b1 R ( 6:/trunk 5 ) ( 3:dir false false ) ) ( 20:/branches/b1/lib/c.c A ( ) ( 4:file true false ) ) ) 6 ( 5:alice ) ( 27:2020-01-01T01:40:00.047514Z ) ( 20:replace with history ) false false 0 ( ) false ) done ";

#[test]
fn entry_of_a_log(rt: HostRuntime) {
    let alloc = rt.alloc();
    let entry = LogEntry {
        changes: replaced(alloc).unwrap_or(Vec::new(alloc)),
        revision: 6,
        author: text(alloc, b"alice"),
        date: text(alloc, b"2020-01-01T01:40:00.047514Z"),
        message: text(alloc, b"replace with history"),
        others: Props::empty(),
    };
    let mut out = Vec::new(alloc);
    let told = write_log_entry(&mut out, &entry).is_ok() && write_last(&mut out).is_ok();
    assert!(rt; told && out.as_slice() == ENTRY);
}

const PLACES: &[u8] = b"( 3 17:/trunk/readme.txt ) ( 2 3 ( 16:trunk/readme.txt ) ) ( 0 1 ( ) ) ";

#[test]
fn places_of_a_node(rt: HostRuntime) {
    let mut out = Vec::new(rt.alloc());
    let at = path(rt.alloc(), b"trunk/readme.txt");
    let told = write_location(&mut out, 3, &at).is_ok()
        && write_segment(&mut out, 2, 3, Some(&at)).is_ok()
        && write_segment(&mut out, 0, 1, None).is_ok();
    assert!(rt; told && out.as_slice() == PLACES);
}

const REFUSED: &[u8] = b"( success ( ( ) ) ) ( failure ( ( 160013 14:path not found 0: 0 ) ) ) ";

#[test]
fn locks_and_refusals(rt: HostRuntime) {
    let mut out = Vec::new(rt.alloc());
    let told = write_no_locks(&mut out).is_ok()
        && write_refusal(&mut out, Refusal::NoSuchPath).is_ok();
    assert!(rt; told && out.as_slice() == REFUSED);
    assert!(rt; Refusal::UnknownCommand.number() == 210001);
}
