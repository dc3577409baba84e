//! Histories, logs, places and changed paths of a repository, as Subversion tells them.

use crate::repository::{field, revision, sets};
use crate::small::{CHANGED, HISTORIES, LOGS, PLACES, REVISIONS};
use crate::spelled::{none_is_wrong, path};
use dump_load::{Change, ChangeSet};
use node_base::{NodeKind, RevNo};
use path_history::{
    Asked, Place, SetRow, changed_path, governing, history_of, laws, log_of, origin, place_at,
    touches,
};
use std::alloc::Global;
use std::process::Abort;

// Puts a number behind a text, with a space between.
fn put(rt: &impl Abort, alloc: Global, text: &mut String, number: u16) {
    let word = format!(in alloc; "{number}").expect(rt, "memory");
    if !text.is_empty() {
        text.push_str(" ").expect(rt, "memory");
    }
    text.push_str(word.as_str()).expect(rt, "memory");
}

// The numbers of places, with a space between each two.
fn told(rt: &impl Abort, alloc: Global, places: &[Place]) -> String {
    let mut text = String::new(alloc);
    for place in places {
        put(rt, alloc, &mut text, place.revision.get());
    }
    text
}

fn numbers(rt: &impl Abort, alloc: Global, all: &[u16]) -> String {
    let mut text = String::new(alloc);
    for number in all {
        put(rt, alloc, &mut text, *number);
    }
    text
}

// What a row of histories asks, and what is told of it.
fn history(rt: &impl Abort, alloc: Global, row: &[ChangeSet], asked: &str) -> String {
    let (at, rest) = field(asked);
    let (peg, rest) = field(rest);
    let (across, rest) = field(rest);
    let (lowest, rest) = field(rest);
    let (highest, limit) = field(rest);
    let from = Place {
        path: path(rt, alloc, at),
        revision: revision(rt, peg),
    };
    let asked = Asked {
        lowest: revision(rt, lowest),
        highest: revision(rt, highest),
        limit: revision(rt, limit).index(),
        crosses_copies: across == "x",
    };
    let places = history_of(alloc, &SetRow { row }, from, &asked).expect(rt, "a history");
    told(rt, alloc, places.as_slice())
}

fn first_wrong_history<'a>(
    rt: &impl Abort,
    alloc: Global,
    row: &[ChangeSet],
    table: &'a [(&'a str, &'a str)],
) -> Option<&'a str> {
    for (asked, wanted) in table {
        if history(rt, alloc, row, *asked).as_str() != *wanted {
            return Some(*asked);
        }
    }
    None
}

#[test]
fn histories(rt: HostRuntime) {
    let alloc = rt.alloc();
    let row = sets(&rt, alloc, &REVISIONS);
    none_is_wrong(
        &rt,
        first_wrong_history(&rt, alloc, row.as_slice(), &HISTORIES),
    );
}

// The places of these paths in revision 10.
fn places(rt: &impl Abort, alloc: Global, words: &str) -> Vec<Place> {
    let mut all = Vec::new(alloc);
    for word in words.split('|') {
        let place = Place {
            path: path(rt, alloc, word),
            revision: RevNo::new(10),
        };
        all.push(place).expect(rt, "memory");
    }
    all
}

fn first_wrong_log<'a>(
    rt: &impl Abort,
    alloc: Global,
    row: &[ChangeSet],
    table: &'a [(&'a str, &'a str)],
) -> Option<&'a str> {
    for (asked, wanted) in table {
        let (across, words) = field(*asked);
        let all = Asked {
            lowest: RevNo::ZERO,
            highest: RevNo::new(10),
            limit: 0,
            crosses_copies: across == "x",
        };
        let from = places(rt, alloc, words);
        let log = log_of(alloc, &SetRow { row }, from.as_slice(), &all).expect(rt, "a log");
        if numbers(rt, alloc, log.as_slice()).as_str() != *wanted {
            return Some(*asked);
        }
    }
    None
}

#[test]
fn logs_of_several_places(rt: HostRuntime) {
    let alloc = rt.alloc();
    let row = sets(&rt, alloc, &REVISIONS);
    none_is_wrong(&rt, first_wrong_log(&rt, alloc, row.as_slice(), &LOGS));
}

// Whether a path of a revision was there in an earlier one, `-` for nowhere.
fn was_there(
    rt: &impl Abort,
    alloc: Global,
    row: &[ChangeSet],
    asked: &str,
    number: u16,
    wanted: &str,
) -> bool {
    let (at, peg) = field(asked);
    let from = Place {
        path: path(rt, alloc, at),
        revision: revision(rt, peg),
    };
    match place_at(alloc, &SetRow { row }, from, RevNo::new(number)).expect(rt, "a place") {
        Some(place) => format!(in alloc; "{}", place.path)
            .expect(rt, "memory")
            .as_str()
            == wanted,
        None => wanted == "-",
    }
}

fn first_wrong_place<'a>(
    rt: &impl Abort,
    alloc: Global,
    row: &[ChangeSet],
    table: &'a [(&'a str, &'a str)],
) -> Option<&'a str> {
    for (asked, wanted) in table {
        let mut number = 0;
        for word in wanted.split('|') {
            if !was_there(rt, alloc, row, *asked, number, word) {
                return Some(*asked);
            }
            number = number.saturating_add(1);
        }
    }
    None
}

#[test]
fn earlier_places(rt: HostRuntime) {
    let alloc = rt.alloc();
    let row = sets(&rt, alloc, &REVISIONS);
    none_is_wrong(&rt, first_wrong_place(&rt, alloc, row.as_slice(), &PLACES));
}

// Whether a line tells what is told of a change.
fn is_told(change: &Change, line: &str) -> bool {
    let told = changed_path(change);
    let Some((letter, rest)) = line.split_once(' ') else {
        return false;
    };
    let Some((kind, parts)) = rest.split_once(' ') else {
        return false;
    };
    letter.as_bytes() == [told.letter].as_slice()
        && (kind == "dir") == (told.kind == Some(NodeKind::Dir))
        && (kind == "file") == (told.kind == Some(NodeKind::File))
        && parts.contains('t') == told.text
        && parts.contains('p') == told.props
}

// Whether the lines tell each change of a set.
fn tell(set: &ChangeSet, lines: &str) -> bool {
    let mut told = lines.lines();
    for change in set.changes() {
        match told.next() {
            Some(line) => {
                if !is_told(change, line) {
                    return false;
                }
            }
            None => return false,
        }
    }
    told.next().is_none()
}

#[test]
fn changed_paths(rt: HostRuntime) {
    let row = sets(&rt, rt.alloc(), &REVISIONS);
    assert_eq!(rt; row.len(), CHANGED.len());
    for (set, lines) in row.iter().zip(CHANGED.iter()) {
        assert!(rt; tell(set, *lines));
    }
}

#[test]
fn one_step(rt: HostRuntime) {
    let alloc = rt.alloc();
    let row = sets(&rt, alloc, &REVISIONS);
    let Some(set) = row.get(9) else {
        rt.panic("a set");
    };
    let at = path(&rt, alloc, "tags/1.0/lib");
    assert!(rt; touches(set, &at));
    assert!(rt; governing(set, &at).is_some());
    let place = Place {
        path: at,
        revision: RevNo::new(9),
    };
    let from = origin(alloc, set, place, true).expect(&rt, "memory");
    let came = match from {
        Some(from) => from.revision == RevNo::new(8)
            && from.path == path(&rt, alloc, "branches/b1/lib"),
        None => false,
    };
    assert!(rt; came);
    laws::comes_from();
    laws::untouched();
    laws::strict_is_front();
    laws::one_at_each();
}
