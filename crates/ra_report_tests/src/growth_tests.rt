// Every growth of these tests may be refused: each then answers for what is left, and stays green. `rt try --test
// --fail-alloc N` refuses the growth number N.

use crate::reports::{AUTHORISED, Case, answered};
use crate::site::site;
use ra_serve::{RepoPort, ServeFault};
use ra_update_tests::edits::FORWARD;
use std::alloc::Global;
use std::rt::HostRuntime;

// How a port tells that a growth of its own was refused.
const NO_MEMORY: &[u8] = b"( failure ( ( 70 13:out of memory 0: 0 ) ) ) ";

const CASE: Case<'static> = Case {
    url: b"svn://127.0.0.1:3690",
    asked: b"( update ( ( 3 ) 0: true ) )",
    reported: b"( set-path ( 0: 1 true ) ) ( set-path ( 4:tags 3 false ) ) ( link-path ( 5:trunk 26:svn://127.0.0.1:3690/trunk 1 false ) ) ",
};

// Whether a case is answered by an edit, or memory is wanting.
fn is_edit<P: RepoPort>(alloc: Global, port: &mut P, case: &Case<'_>, edit: &[u8]) -> bool {
    // room for all that is told
    let Ok(out) = Vec::with_capacity(alloc, 16_384) else {
        return true;
    };
    match answered(alloc, port, case, out) {
        Ok((told, true)) => told.as_slice().strip_prefix(AUTHORISED) == Some(edit),
        Ok((told, false)) => told.as_slice() == NO_MEMORY,
        Err(fault) => fault == ServeFault::OutOfMemory,
    }
}

#[test]
fn an_edit(rt: HostRuntime) {
    let alloc = rt.alloc();
    match site(alloc) {
        Some(port) => {
            let mut port = port;
            assert!(rt; is_edit(alloc, &mut port, &CASE, FORWARD));
        }
        None => {}
    }
}
