//! Openings, and those that are refused.

use crate::client_sessions::{
    BROKEN, Line, OPENED, SAID, SINGLE, URL, WHOLE, none_is_wrong, number_of, open,
};
use byte_streams::Output;
use ra_client::ClientFault;
use ra_edit::edit_fault::EditFault;
use std::alloc::Global;
use std::process::Abort;
use std::rt::HostRuntime;

const IDENTITY: &str = "6a1f0c3e-0000-4000-8000-000000000001";

// Whether an opening ends well: the identity and the URL are those of the server, and the client says this.
fn opens(alloc: Global, bytes: &[u8], line: &Line, said: &[u8]) -> bool {
    let Ok(port) = open(alloc, bytes, line) else {
        return false;
    };
    let mut buffer = [0u8; 36];
    let is_known = port.identity().hyphenated().encode_lower(&mut buffer) == IDENTITY
        && port.root_url() == URL;
    let output = port.into_output();
    is_known && output.bytes() == said && output.handed_on() == said.len()
}

// No way to say who one is, an old version beside the one that is spoken, an identity in capitals, and more behind
// each prototype: nothing is said where nothing is asked.
const OTHER: &[u8] =
    b"( success ( 1 3 ( EXTERNAL ) ( ) 9 ) x )\n( success ( ( ) 0: ) ) ( success ( 36:6A1F0C3E-0000-4000-8000-000000000001 21:svn://127.0.0.1:3690/ ( mergeinfo ) ( ) ) ) ";

const HELLO: &[u8] = b"( 2 ( edit-pipeline ) 21:svn://127.0.0.1:3690/ ) ";

#[test]
fn it_is_done_however_it_comes(rt: HostRuntime) {
    for (bytes, said) in &[(OPENED, SAID), (OTHER, HELLO)] {
        assert!(rt; opens(rt.alloc(), bytes, &WHOLE, said));
        assert!(rt; opens(rt.alloc(), bytes, &SINGLE, said));
    }
}

// What an opening is refused for.
fn refusal(alloc: Global, bytes: &[u8]) -> Option<ClientFault> {
    let whole = open(alloc, bytes, &WHOLE).err();
    let single = open(alloc, bytes, &SINGLE).err();
    if whole == single { whole } else { None }
}

// Openings of other versions, of other forms, that end between items, that are failures, and that are no items; and what
// each is refused for.
const REFUSED: [(&[u8], ClientFault); 16] = [
    (b"( success ( 1 1 ( ) ( ) ) ) ", ClientFault::BadAnswer),
    (b"( success ( 3 4 ( ) ( ) ) ) ", ClientFault::BadAnswer),
    (b"( success ( 2 2 ( ) ) ) ", ClientFault::BadAnswer),
    (b"( welcome ( 2 2 ( ) ( ) ) ) ", ClientFault::BadAnswer),
    (b"( success 2 2 ( ) ( ) ) ", ClientFault::BadAnswer),
    (b"220 ", ClientFault::BadAnswer),
    (
        b"( success ( 2 2 ( ) ( ) ) ) ( success ( ( CRAM-MD5 EXTERNAL ) 1:r ) ) ( success ( ) ) ",
        ClientFault::BadAnswer,
    ),
    (
        b"( success ( 2 2 ( ) ( ) ) ) ( success ( ( ) 0: ) ) ( success ( 32:6a1f0c3e000040008000000000000001 1:u ( ) ) ) ",
        ClientFault::BadAnswer,
    ),
    (
        b"( success ( 2 2 ( ) ( ) ) ) ( success ( ( ) 0: ) ) ( success ( 36:6a1f0c3e-0000-4000-8000-000000000001 1:u ) ) ",
        ClientFault::BadAnswer,
    ),
    (b"", ClientFault::BadAnswer),
    (b"( success ( 2 2 ( ) ( ) ) ) ", ClientFault::BadAnswer),
    (b"( failure ( ( 48 3:bad 0: 0 ) ) ) ", ClientFault::Refused),
    (b"( failure ( 14:only ANONYMOUS ) ) ", ClientFault::Refused),
    (
        b"( success ( 2 2 ( ) ( ) ) ) ( success ( ( CRAM-MD5 ANONYMOUS ) 1:r ) ) ( failure ( ) ) ",
        ClientFault::Refused,
    ),
    (b"( success ( 2 ", ClientFault::Edit(EditFault::Truncated)),
    (
        b"HTTP/1.1 200 OK\r\n",
        ClientFault::Edit(EditFault::BadItem),
    ),
];

// The first of these that isn't refused so.
fn first_other(alloc: Global) -> Option<usize> {
    for (place, (bytes, fault)) in REFUSED.iter().enumerate() {
        if refusal(alloc, bytes) != Some(*fault) {
            return Some(place);
        }
    }
    None
}

#[test]
fn no_other_opening_is_taken(rt: HostRuntime) {
    none_is_wrong(&rt, first_other(rt.alloc()));
}

// The number of what an opening is refused for behind so many of its bytes, where the reader fails then or ends.
fn cut(alloc: Global, end: usize, line: &Line) -> u8 {
    number_of(open(alloc, OPENED.get(..end).unwrap_or(b""), line))
}

// Whether a reader that fails is told at each byte, and one that ends is no opening.
fn all_cut(alloc: Global) -> bool {
    for end in 0..OPENED.len() {
        let ended = cut(alloc, end, &WHOLE);
        if cut(alloc, end, &BROKEN) != 49 || (ended != 7 && ended != 60) {
            return false;
        }
    }
    cut(alloc, OPENED.len(), &BROKEN) == 0
}

#[test]
fn a_reader_that_fails_is_told(rt: HostRuntime) {
    assert!(rt; all_cut(rt.alloc()));
}

// What an opening is refused for whose writer fails behind so many writes.
fn unwritten(alloc: Global, passing: u64) -> u8 {
    let line = Line {
        size: 4_096,
        breaks: false,
        passing,
    };
    number_of(open(alloc, OPENED, &line))
}

// The first number of writes, of the four that an opening makes, behind which a failing one isn't told.
fn first_unwritten(alloc: Global) -> Option<usize> {
    for passing in 0..4 {
        if unwritten(alloc, passing as u64) != 49 {
            return Some(passing);
        }
    }
    None
}

#[test]
fn a_writer_that_fails_is_told(rt: HostRuntime) {
    let alloc = rt.alloc();
    none_is_wrong(&rt, first_unwritten(alloc));
    assert!(rt; unwritten(alloc, 100) == 0);
}

// Whether bytes come to the same at once and one at a time: a refusal, or an identity, a URL, and what the client said.
fn agree(alloc: Global, bytes: &[u8]) -> bool {
    match (open(alloc, bytes, &WHOLE), open(alloc, bytes, &SINGLE)) {
        (Ok(one), Ok(other)) => {
            let same = one.identity() == other.identity() && one.root_url() == other.root_url();
            same && one.into_output().bytes() == other.into_output().bytes()
        }
        (Err(one), Err(other)) => one == other,
        _ => false,
    }
}

// Whether it does with the byte at a place changed to this value.
fn agrees_changed(rt: &impl Abort, alloc: Global, at: usize, value: u8) -> bool {
    let mut changed = Vec::from_slice(alloc, OPENED).expect(rt, "memory");
    if let Some(place) = changed.get_mut(at) {
        *place = value;
    }
    agree(alloc, &changed)
}

// The place and the value of the first change with which it doesn't.
fn wrong_change(rt: &impl Abort, alloc: Global) -> Option<(usize, u8)> {
    for at in 0..OPENED.len() {
        for value in 0..=u8::MAX {
            if !agrees_changed(rt, alloc, at, value) {
                return Some((at, value));
            }
        }
    }
    None
}

#[test]
fn a_changed_opening_is_told_alike(rt: HostRuntime) {
    if let Some((at, value)) = wrong_change(&rt, rt.alloc()) {
        panic!(rt; "at {at}, {value}");
    }
}
