//! Ports that refuse by themselves: the client is told, and the session goes on.

use crate::client_sessions::none_is_wrong;
use crate::edits::{BARE, EMPTY};
use crate::serve_sessions::{AUTHORISED, NO_MEMORY, answers, is_answered};
use crate::served_repos::copy_port;
use node_base::{PropName, Props, RevNo};
use path_tree::Tree;
use ra_serve::{HeldRepo, PortFault, Replay, RepoPort};
use repo_core::Expected;
use std::alloc::Global;
use std::process::Abort;
use std::rt::HostRuntime;
use uuid::Uuid;

// A port that refuses what is asked of one revision, and else answers as another one does. What it serves isn't known.
#[derive(Drop)]
struct Refusing {
    held: HeldRepo,
    at: RevNo,
    fault: PortFault,
}

impl Refusing {
    fn admit(&self, number: RevNo) -> Result<(), PortFault> {
        if number == self.at {
            Err(self.fault)
        } else {
            Ok(())
        }
    }
}

impl RepoPort for Refusing {
    ghost use Rattle.std.specs.Prelude.{None, false};
    ghost use Rattle.repo_core.specs.Repository.{trees_of};

    ghost repository = { λ _. None };

    ghost refusals = { λ _. 0 };

    ghost is_mirror = { λ _. false };

    ghost lent = { λ p. trees_of p.held.repo.revisions };

    fn is_repository(&self) {}

    fn identity(&self) -> Uuid {
        self.held.identity()
    }

    fn read_only(&self) -> bool {
        false
    }

    fn latest(&mut self) -> Result<RevNo, PortFault> {
        self.held.latest()
    }

    fn tree(&mut self, number: RevNo) -> Result<Tree, PortFault> {
        self.admit(number)?;
        self.held.tree(number)
    }

    fn props(&mut self, number: RevNo) -> Result<Props, PortFault> {
        self.admit(number)?;
        self.held.props(number)
    }

    fn change_prop(
        &mut self,
        number: RevNo,
        name: &PropName,
        value: Option<&[u8]>,
        expected: &Expected,
    ) -> Result<(), PortFault> {
        self.admit(number)?;
        self.held.change_prop(number, name, value, expected)
    }

    fn replay_of(&mut self, number: RevNo) -> Result<Replay, PortFault> {
        self.admit(number)?;
        self.held.replay_of(number)
    }

    fn trees(&self) -> &[Tree] {
        self.held.trees()
    }
}

// The edit of a revision that adds a directory with two files.
const TWO_FILES: &[u8] = b"( target-rev ( 1 ) ) ( open-root ( ( 0 ) 2:t0 ) ) \
    ( add-dir ( 1:t 2:t0 2:t1 ( ) ) ) \
    ( add-file ( 3:t/x 2:t1 2:t2 ( ) ) ) ( apply-textdelta ( 2:t2 ( ) ) ) \
    ( textdelta-chunk ( 2:t2 4:SVN\x00 ) ) ( textdelta-chunk ( 2:t2 7:\x00\x00\x01\x01\x01\x81x ) ) \
    ( textdelta-end ( 2:t2 ) ) ( close-file ( 2:t2 ( 32:9dd4e461268c8034f5c8564e155c67a6 ) ) ) \
    ( add-file ( 3:t/y 2:t1 2:t3 ( ) ) ) ( apply-textdelta ( 2:t3 ( ) ) ) \
    ( textdelta-chunk ( 2:t3 4:SVN\x00 ) ) ( textdelta-chunk ( 2:t3 7:\x00\x00\x01\x01\x01\x81y ) ) \
    ( textdelta-end ( 2:t3 ) ) ( close-file ( 2:t3 ( 32:415290769594460e2e485922904f345d ) ) ) \
    ( close-dir ( 2:t1 ) ) ( close-dir ( 2:t0 ) ) ( finish-replay ( ) ) ";

const LATEST: &[u8] = b"( success ( 2 ) ) ";

// A port over the copied directory that refuses one revision.
fn port_refusing(rt: &impl Abort, alloc: Global, at: u16, fault: PortFault) -> Refusing {
    Refusing {
        held: copy_port(rt, alloc),
        at: RevNo::new(at),
        fault,
    }
}

const AT_ITS_END: [&[u8]; 8] = [
    AUTHORISED, BARE, EMPTY, BARE, TWO_FILES, NO_MEMORY, AUTHORISED, LATEST,
];

// A range, and the newest revision behind it.
const RANGE: &[u8] = b"( replay-range ( 0 2 0 true ) ) ( get-latest-rev ( ) ) ";

#[test]
fn a_range_is_refused_at_its_end(rt: HostRuntime) {
    let alloc = rt.alloc();
    let port = port_refusing(&rt, alloc, 2, PortFault::OutOfMemory);
    answers(&rt, alloc, port, RANGE, &AT_ITS_END);
}

// The refusals of a port's own, and how each is told.
const OWN: [(PortFault, &[u8]); 4] = [
    (
        PortFault::DeviceFailed,
        b"( failure ( ( 31 13:device failed 0: 0 ) ) ) ",
    ),
    (
        PortFault::Failed,
        b"( failure ( ( 32 13:failed before 0: 0 ) ) ) ",
    ),
    (
        PortFault::LogFull,
        b"( failure ( ( 36 15:journal is full 0: 0 ) ) ) ",
    ),
    (PortFault::OutOfMemory, NO_MEMORY),
];

// All that is asked of a revision, and then the newest one.
const ALL: &[u8] = b"( replay ( 1 0 true ) ) ( check-path ( 1:t ( 1 ) ) ) ( rev-proplist ( 1 ) ) \
    ( change-rev-prop ( 1 1:p 1:v ) ) ( get-latest-rev ( ) ) ";

// Whether a refusal of revision 1 is told behind revision 0 of a range, and to all that is asked of revision 1, and the
// session goes on.
fn is_refused(rt: &impl Abort, alloc: Global, fault: PortFault, told: &[u8]) -> bool {
    let mut port = port_refusing(rt, alloc, 1, fault);
    let within = [AUTHORISED, BARE, EMPTY, told, AUTHORISED, LATEST];
    let whole = [
        AUTHORISED, told, AUTHORISED, told, AUTHORISED, told, AUTHORISED, told, AUTHORISED, LATEST,
    ];
    is_answered(rt, alloc, &mut port, RANGE, &within)
        && is_answered(rt, alloc, &mut port, ALL, &whole)
}

// The first of these refusals for which that isn't so.
fn first_other(rt: &impl Abort, alloc: Global) -> Option<usize> {
    for (place, (fault, told)) in OWN.iter().enumerate() {
        if !is_refused(rt, alloc, *fault, told) {
            return Some(place);
        }
    }
    None
}

#[test]
fn what_a_port_refuses_is_told(rt: HostRuntime) {
    none_is_wrong(&rt, first_other(&rt, rt.alloc()));
}
