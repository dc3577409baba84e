//! What `ra_history` tells of the same repository, as `svnserve` told it in `log` and `get-locations`.

use crate::sessions::none_is_wrong;
use crate::site::site;
use dump_load::ChangeSet;
use node_base::{NodePath, RevNo};
use path_history::{Place, SetRow};
use ra_history::{LogRange, SetsStop, location_of, locations_of, revisions_told, sets_up_to};
use ra_serve::PortFault;
use std::alloc::Global;
use std::process::Abort;
use std::rt::HostRuntime;

fn place(rt: &impl Abort, alloc: Global, at: &[u8], revision: u16) -> Place {
    let path = if at.is_empty() {
        NodePath::root(alloc)
    } else {
        NodePath::parse(alloc, at).expect(rt, "a path")
    };
    Place {
        path,
        revision: RevNo::new(revision),
    }
}

// The sets of all revisions.
fn all_sets(rt: &impl Abort, alloc: Global) -> Vec<ChangeSet> {
    let mut port = site(rt, alloc);
    sets_up_to(alloc, &mut port, RevNo::new(3)).expect(rt, "the sets")
}

// A path, the first and the last revision, a limit, and the revisions that are told.
type Logged<'a> = (&'a [u8], u16, u16, u64, &'a [u16]);

// Across copies, and without.
const LOGS: [Logged<'static>; 4] = [
    (b"", 3, 0, 0, &[3, 2, 1, 0]),
    (b"tags/1.0", 0, 3, 2, &[1, 2]),
    (b"tags/1.0", 3, 0, 0, &[3, 2, 1]),
    (b"trunk/lib", 3, 1, 0, &[1]),
];

const STRICT: [Logged<'static>; 2] = [
    (b"tags/1.0", 3, 0, 0, &[3]),
    (b"trunk/README", 3, 3, 0, &[]),
];

// Whether a log of a path tells these.
fn is_logged(
    rt: &impl Abort,
    alloc: Global,
    sets: &[ChangeSet],
    row: &Logged<'_>,
    crosses_copies: bool,
) -> bool {
    let places = [place(rt, alloc, row.0, row.1.max(row.2))];
    let range = LogRange {
        first: RevNo::new(row.1),
        last: RevNo::new(row.2),
        limit: row.3,
        crosses_copies,
    };
    let told = revisions_told(alloc, &SetRow { row: sets }, &places, &range);
    told.expect(rt, "revisions").as_slice() == row.4
}

// The first path whose log tells other revisions.
fn first_logged<'a>(
    rt: &impl Abort,
    alloc: Global,
    rows: &'a [Logged<'a>],
    crosses_copies: bool,
) -> Option<&'a [u8]> {
    let sets = all_sets(rt, alloc);
    for row in rows {
        if !is_logged(rt, alloc, &sets, row, crosses_copies) {
            return Some(row.0);
        }
    }
    None
}

#[test]
fn logs(rt: HostRuntime) {
    none_is_wrong(&rt, first_logged(&rt, rt.alloc(), &LOGS, true));
    none_is_wrong(&rt, first_logged(&rt, rt.alloc(), &STRICT, false));
}

// A path, the revision that it is of, another one, and the path there; `-` for none.
type Located<'a> = (&'a [u8], u16, u16, &'a [u8]);

const LOCATIONS: [Located<'static>; 9] = [
    (b"tags/1.0/README", 3, 0, b"-"),
    (b"tags/1.0/README", 3, 1, b"trunk/README"),
    (b"tags/1.0/README", 3, 2, b"trunk/README"),
    (b"tags/1.0/README", 3, 3, b"tags/1.0/README"),
    (b"trunk/README", 1, 0, b"-"),
    (b"trunk/README", 1, 1, b"trunk/README"),
    (b"trunk/README", 1, 2, b"trunk/README"),
    (b"trunk/README", 1, 3, b"trunk/README"),
    (b"tags/1.0/notes", 3, 2, b"-"),
];

// Whether a place is of this revision and path.
fn is(rt: &impl Abort, alloc: Global, found: &Option<Place>, number: u16, want: &[u8]) -> bool {
    let Some(found) = found else {
        return want == b"-".as_slice();
    };
    let wanted = place(rt, alloc, want, number);
    found.revision == wanted.revision && found.path.compare(&wanted.path).is_eq()
}

// Whether it is found there.
fn is_there(rt: &impl Abort, alloc: Global, sets: &[ChangeSet], row: &Located<'_>) -> bool {
    let from = place(rt, alloc, row.0, row.1);
    let found = location_of(alloc, &SetRow { row: sets }, &from, RevNo::new(row.2));
    is(rt, alloc, &found.expect(rt, "memory"), row.2, row.3)
}

// The first of these that is another one.
fn first_elsewhere<'a>(
    rt: &impl Abort,
    alloc: Global,
    rows: &'a [Located<'a>],
) -> Option<&'a [u8]> {
    let sets = all_sets(rt, alloc);
    for row in rows {
        if !is_there(rt, alloc, &sets, row) {
            return Some(row.0);
        }
    }
    None
}

#[test]
fn places_of_nodes(rt: HostRuntime) {
    none_is_wrong(&rt, first_elsewhere(&rt, rt.alloc(), &LOCATIONS));
}

#[test]
fn places_in_order(rt: HostRuntime) {
    let alloc = rt.alloc();
    let sets = all_sets(&rt, alloc);
    let from = place(&rt, alloc, b"tags/1.0/README", 3);
    let numbers = [RevNo::new(3), RevNo::ZERO, RevNo::new(1)];
    let row = SetRow { row: &sets };
    let told = locations_of(alloc, &row, &from, &numbers).expect(&rt, "memory");
    assert!(rt; told.len() == 2 && told[0].revision.get() == 3 && told[1].revision.get() == 1);
}

#[test]
fn sets_above_the_head(rt: HostRuntime) {
    let alloc = rt.alloc();
    assert!(rt; all_sets(&rt, alloc).len() == 4);
    let mut port = site(&rt, alloc);
    let stop = sets_up_to(alloc, &mut port, RevNo::new(4)).err();
    assert!(rt; stop == Some(SetsStop::Port(PortFault::NoSuchRevision)));
}
