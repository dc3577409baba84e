//! Stretches of lines, as Subversion tells them.

use crate::repository::{field, revision, sets};
use crate::small::{REVISIONS, STRETCHES};
use crate::spelled::path;
use dump_load::ChangeSet;
use path_history::{Place, SetRow, stretch_of};
use std::alloc::Global;
use std::process::Abort;

// The stretches of a line, the newest first: the first and the last revision and the path of each.
fn stretches(rt: &impl Abort, alloc: Global, row: &[ChangeSet], asked: &str) -> String {
    let (at, peg) = field(asked);
    let mut text = String::new(alloc);
    let mut next = Some(Place {
        path: path(rt, alloc, at),
        revision: revision(rt, peg),
    });
    for _ in 0..11 {
        let Some(place) = next else {
            return text;
        };
        let last = place.revision;
        let shown = format!(in alloc; "{}", place.path).expect(rt, "memory");
        let stretch = stretch_of(alloc, &SetRow { row }, place).expect(rt, "a stretch");
        let word = format!(in alloc; "{}-{last} {shown}|", stretch.first).expect(rt, "memory");
        text.push_str(word.as_str()).expect(rt, "memory");
        next = stretch.before;
    }
    text
}

fn first_wrong<'a>(
    rt: &impl Abort,
    alloc: Global,
    row: &[ChangeSet],
    table: &'a [(&'a str, &'a str)],
) -> Option<&'a str> {
    for (asked, wanted) in table {
        if stretches(rt, alloc, row, *asked).as_str() != *wanted {
            return Some(*asked);
        }
    }
    None
}

#[test]
fn stretches_of_lines(rt: HostRuntime) {
    let alloc = rt.alloc();
    let row = sets(&rt, alloc, &REVISIONS);
    if let Some(case) = first_wrong(&rt, alloc, row.as_slice(), &STRETCHES) {
        rt.panic(case);
    }
}
