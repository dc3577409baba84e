//! What answers are refused for, and what follows a refusal.

use crate::client_sessions::{Line, Port, SINGLE, WHOLE, is_said, none_is_wrong, open, told};
use crate::sets::history;
use delta_editor::EditorFault;
use node_base::RevNo;
use path_tree::Tree;
use ra_client::ClientFault;
use ra_edit::edit_fault::EditFault;
use std::alloc::Global;
use std::process::Abort;
use std::rt::HostRuntime;

const ASKED: &[u8] = b"( replay-range ( 2 2 0 true ) ) ";

// What a fetch of revision 2 is refused for, and two other calls behind it.
fn faults(port: &mut Port<'_>, trees: &[Tree]) -> Option<(ClientFault, ClientFault, ClientFault)> {
    let before = trees.get(..2)?;
    let first = port.fetch(RevNo::new(2), before).err()?;
    let later = port.fetch_props(RevNo::new(2)).err()?;
    let last = port.latest().err()?;
    Some((first, later, last))
}

// The first of these, where the others are the same: behind a refusal that is no answer nothing is asked.
fn first_of(faults: (ClientFault, ClientFault, ClientFault), said: &[u8]) -> Option<ClientFault> {
    let (first, later, last) = faults;
    (later == first && last == first && is_said(said, ASKED)).then_some(first)
}

// What a fetch of revision 2 is refused for over a port.
fn refused_over(port: Port<'_>, trees: &[Tree]) -> Option<ClientFault> {
    let mut port = port;
    match faults(&mut port, trees) {
        Some(all) => first_of(all, port.into_output().bytes()),
        None => None,
    }
}

// The same over bytes.
fn refused(alloc: Global, trees: &[Tree], bytes: &[u8], line: &Line) -> Option<ClientFault> {
    match open(alloc, bytes, line) {
        Ok(port) => refused_over(port, trees),
        Err(_) => None,
    }
}

// The same, where it comes to one whether the bytes come at once or one at a time.
fn refusal(rt: &impl Abort, alloc: Global, trees: &[Tree], answers: &[u8]) -> Option<ClientFault> {
    let bytes = told(rt, alloc, answers);
    let whole = refused(alloc, trees, bytes.as_slice(), &WHOLE);
    let single = refused(alloc, trees, bytes.as_slice(), &SINGLE);
    if whole == single { whole } else { None }
}

// Answers, and what a fetch of revision 2 is refused for over them.
type Refused<'a> = (&'a [u8], ClientFault);

// The first of these that are refused otherwise.
fn first_other(rt: &impl Abort, alloc: Global, table: &[Refused<'_>]) -> Option<usize> {
    let trees = history(rt, alloc);
    for (place, (answers, fault)) in table.iter().enumerate() {
        if refusal(rt, alloc, &trees, answers) != Some(*fault) {
            return Some(place);
        }
    }
    None
}

// An edit of another revision, and an answer with something else behind its edit.
const OTHER_NUMBER: &[u8] =
    b"( success ( ( ) 0: ) ) ( revprops ( ) ) ( target-rev ( 3 ) ) ( open-root ( ( 2 ) 2:t0 ) ) ( close-dir ( 2:t0 ) ) ( finish-replay ( ) ) ( success ( ) ) ";

const JUNK: &[u8] =
    b"( success ( ( ) 0: ) ) ( revprops ( ) ) ( target-rev ( 2 ) ) ( open-root ( ( 1 ) 2:t0 ) ) ( close-dir ( 2:t0 ) ) ( finish-replay ( ) ) ( revprops ( ) ) ";

const LAST: [Refused<'static>; 2] = [
    (
        OTHER_NUMBER,
        ClientFault::Edit(EditFault::Editor(EditorFault::WrongNumber)),
    ),
    (JUNK, ClientFault::BadAnswer),
];

#[test]
fn nothing_is_asked_behind_a_refusal(rt: HostRuntime) {
    none_is_wrong(&rt, first_other(&rt, rt.alloc(), &LAST));
}

// ---- what is no end of a session

const NO_REVISION: &[u8] =
    b"( success ( ( ) 0: ) ) ( failure ( ( 21 16:no such revision 0: 0 ) ) ) ( failure ( ( 48 17:bad command shape 0: 0 ) ) ) ( success ( ( ) 0: ) ) ( success ( 2 ) ) ";

// Whether two calls are answered by a failure, and then the newest revision is 2.
fn goes_on(port: &mut Port<'_>, trees: &[Tree]) -> bool {
    let Some(before) = trees.get(..2) else {
        return false;
    };
    port.fetch(RevNo::new(2), before).err() == Some(ClientFault::Refused)
        && port.fetch_props(RevNo::new(2)).err() == Some(ClientFault::Refused)
        && port.latest().is_ok_and(|newest| newest.get() == 2)
}

// Whether that is so over bytes that come so.
fn goes_on_over(rt: &impl Abort, alloc: Global, line: &Line) -> bool {
    let trees = history(rt, alloc);
    let bytes = told(rt, alloc, NO_REVISION);
    match open(alloc, bytes.as_slice(), line) {
        Ok(mut port) => goes_on(&mut port, &trees),
        Err(_) => false,
    }
}

#[test]
fn a_session_goes_on_behind_a_failure(rt: HostRuntime) {
    let alloc = rt.alloc();
    assert!(rt; goes_on_over(&rt, alloc, &WHOLE));
    assert!(rt; goes_on_over(&rt, alloc, &SINGLE));
}
