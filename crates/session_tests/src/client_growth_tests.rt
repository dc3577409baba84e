//! Every growth of this test may be refused: it then answers for what is left, and stays green. `rt try --test
//! --fail-alloc N` refuses the growth number N.

use crate::client_sessions::{Port, SINGLE, number_of, open, session};
use node_base::RevNo;
use path_tree::Tree;
use std::alloc::Global;
use std::rt::HostRuntime;

const EMPTY: &[u8] =
    b"( success ( ( ) 0: ) ) ( revprops ( ( 1:a 1:b ) ) ) ( target-rev ( 0 ) ) ( open-root ( ( ) 2:t0 ) ) ( close-dir ( 2:t0 ) ) ( finish-replay ( ) ) ( success ( ) ) ";

// Whether a revision comes, or the port is over at a growth that is refused. A writer in memory counts one as its own.
fn comes(port: &mut Port<'_>) -> bool {
    let trees: [Tree; 0] = [];
    let first = number_of(port.fetch(RevNo::ZERO, &trees));
    if first == 0 {
        return true;
    }
    let later = number_of(port.latest());
    (first == 70 || first == 49) && later == first
}

// The same from the opening on.
fn opens(alloc: Global) -> bool {
    let Ok(bytes) = session(alloc, EMPTY) else {
        return true;
    };
    match open(alloc, bytes.as_slice(), &SINGLE) {
        Ok(mut port) => comes(&mut port),
        Err(fault) => fault.number() == 70 || fault.number() == 49,
    }
}

#[test]
fn a_revision_comes(rt: HostRuntime) {
    assert!(rt; opens(rt.alloc()));
}
