//! A range of revisions as a server writes it, taken revision by revision.

use crate::client_sessions::Lent;
use crate::served_tests::{repo, served};
use crate::sets::makes_next;
use byte_streams::CountedReader;
use node_base::{Props, RevNo};
use ra_item::stream::ItemStream;
use repo_core::Repo;
use session_road::range::{Heard, take_range};
use std::alloc::Global;
use std::process::Abort;
use std::rt::HostRuntime;

// The items of bytes that come so many at a time.
type Cut<'a> = ItemStream<CountedReader<Lent<'a>>>;

// Whether so many items come.
fn passes(items: &mut Cut<'_>, count: usize) -> bool {
    for _ in 0..count {
        let Ok(Some(_)) = items.next() else {
            return false;
        };
    }
    true
}

// Whether these are a log alone; revision 0 has none.
fn has_props(props: &Props, number: usize) -> bool {
    let log = if number == 0 {
        None
    } else {
        Some(b"hi".as_slice())
    };
    props.get(b"svn:log") == log && props.len() == number.min(1)
}

// Whether these are the revisions from one on, each a set that makes its tree, and its properties.
fn are_revisions(alloc: Global, source: &Repo, first: u16, heard: &[Heard]) -> bool {
    let mut number = usize::from(first);
    for (set, props) in heard {
        if !has_props(props, number) || !makes_next(alloc, source.trees(), number, set) {
            return false;
        }
        number = number.saturating_add(1);
    }
    number == 3
}

// What is taken of a range up to revision 2; none where the repository has no such range.
fn taken(alloc: Global, source: &Repo, first: u16, items: &mut Cut<'_>) -> Option<Vec<Heard>> {
    let newest = source.head().get();
    if newest < 2 || newest < first {
        return None;
    }
    take_range(alloc, source, RevNo::new(first), RevNo::new(2), items).ok()
}

// Whether bytes that come so many at a time are an opening, these revisions of a repository, and the end of it all.
fn is_range(alloc: Global, bytes: &[u8], size: usize, source: &Repo, first: u16) -> bool {
    let mut items = ItemStream::new(alloc, CountedReader::new(Lent::new(bytes, size)));
    // the opening's items
    if !passes(&mut items, 4) {
        return false;
    }
    match taken(alloc, source, first, &mut items) {
        Some(all) => are_revisions(alloc, source, first, all.as_slice()) && !passes(&mut items, 1),
        None => false,
    }
}

// The same in pieces of four sizes.
fn is_range_anyhow(alloc: Global, bytes: &[u8], source: &Repo, first: u16) -> bool {
    is_range(alloc, bytes, 4_096, source, first)
        && is_range(alloc, bytes, 100, source, first)
        && is_range(alloc, bytes, 7, source, first)
        && is_range(alloc, bytes, 1, source, first)
}

// Whether that is so of what a server writes that is asked this.
fn is_served(rt: &impl Abort, alloc: Global, asked: &[u8], first: u16) -> bool {
    let source = repo(rt, alloc);
    let bytes = served(rt, alloc, asked);
    let answer = is_range_anyhow(alloc, bytes.as_slice(), &source, first);
    drop(source);
    answer
}

#[test]
fn each_revision_of_a_range_is_taken(rt: HostRuntime) {
    let alloc = rt.alloc();
    assert!(rt; is_served(&rt, alloc, b"( replay-range ( 0 2 0 true ) ) ", 0));
    assert!(rt; is_served(&rt, alloc, b"( replay-range ( 1 2 0 true ) ) ", 1));
}
