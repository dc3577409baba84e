//! Sessions from their opening to their end.

use crate::site::site;
use byte_streams::{CountedReader, FuseInput};
use ra_item::stream::ItemStream;
use ra_reader::browse;
use ra_serve::{End, RepoPort, ServeFault};
use std::alloc::Global;
use std::io;
use std::io::{Read, Write};
use std::process::Abort;

/// The root of the URLs at which the sessions stand.
pub(crate) const ROOT: &[u8] = b"svn://127.0.0.1:3690";

/// What a session is told, piece by piece.
pub(crate) const GREETING: &[u8] = b"( success ( 2 2 ( ) ( edit-pipeline depth ) ) ) ";

pub(crate) const MECHANISMS: &[u8] =
    b"( success ( ( ANONYMOUS ) 36:6a1f0c3e-0000-4000-8000-0000000000b7 ) ) ";

pub(crate) const WELCOME: &[u8] = b"( success ( ) ) \
    ( success ( 36:6a1f0c3e-0000-4000-8000-0000000000b7 20:svn://127.0.0.1:3690 ( ) ) ) ";

/// What stands before the answer to a command.
pub(crate) const AUTHORISED: &[u8] = b"( success ( ( ) 0: ) ) ";

/// A reader that gives so many bytes at a time.
#[derive(Drop)]
pub(crate) struct Cut<'a> {
    bytes: &'a [u8],
    size: usize,
}

impl Read for Cut<'_> {
    fn read(&mut self, buf: &mut [u8]) -> io::Result<usize> {
        let n = self.size.min(self.bytes.len()).min(buf.len());
        buf[..n].copy_from_slice(&self.bytes[..n]);
        self.bytes = &self.bytes[n..];
        Ok(n)
    }
}

// The items of such a reader, of whose reads so many pass.
fn items_from(
    alloc: Global,
    bytes: &[u8],
    size: usize,
    reads: u64,
) -> ItemStream<FuseInput<CountedReader<Cut<'_>>>> {
    let size = size.max(1);
    let reader = CountedReader::new(Cut { bytes, size });
    ItemStream::new(alloc, FuseInput::new(reader, reads))
}

/// A session that has ended: how, and what it told.
#[derive(Drop)]
pub(crate) struct Ended {
    pub(crate) end: Result<End, ServeFault>,
    pub(crate) told: Vec<u8>,
}

/// Serves what a client sends, so many bytes at a time, of whose reads so many pass. What is told is lost where it ends
/// by a fault.
pub(crate) fn run<P: RepoPort>(
    alloc: Global,
    port: &mut P,
    sent: &[u8],
    size: usize,
    reads: u64,
) -> Ended {
    let mut items = items_from(alloc, sent, size, reads);
    match browse(alloc, port, &mut items, Vec::new(alloc)) {
        Ok((told, end)) => Ended { end: Ok(end), told },
        Err(fault) => Ended {
            end: Err(fault),
            told: Vec::new(alloc),
        },
    }
}

/// What stands behind these parts.
pub(crate) fn rest_behind<'a>(bytes: &'a [u8], parts: &[&[u8]]) -> Option<&'a [u8]> {
    let mut rest = bytes;
    for part in parts {
        rest = rest.strip_prefix(*part)?;
    }
    Some(rest)
}

/// What a client sends that names a URL.
pub(crate) fn opening(rt: &impl Abort, alloc: Global, url: &[u8]) -> Vec<u8> {
    let mut sent = Vec::new(alloc);
    let len = url.len();
    write!(sent, "( 2 ( edit-pipeline ) {len}:").expect(rt, "memory");
    sent.extend_from_slice(url).expect(rt, "memory");
    sent.extend_from_slice(b" ) ( ANONYMOUS ( 0: ) ) ")
        .expect(rt, "memory");
    sent
}

// The first of these commands that isn't answered so, in an answer to all of them.
fn first_other<'a>(told: &[u8], rows: &'a [(&'a [u8], &'a [u8])]) -> Option<&'a [u8]> {
    let Some(mut rest) = rest_behind(told, &[GREETING, MECHANISMS, WELCOME]) else {
        return Some(b"the opening");
    };
    for row in rows {
        match rest_behind(rest, &[AUTHORISED, row.1]) {
            Some(behind) => rest = behind,
            None => return Some(row.0),
        }
    }
    if rest.is_empty() {
        None
    } else {
        Some(b"the end")
    }
}

// A client that stands at a URL and asks this.
fn asking(rt: &impl Abort, alloc: Global, url: &[u8], rows: &[(&[u8], &[u8])]) -> Vec<u8> {
    let mut sent = opening(rt, alloc, url);
    for row in rows {
        sent.extend_from_slice(row.0).expect(rt, "memory");
        sent.push(b' ').expect(rt, "memory");
    }
    sent
}

// The first of these commands that isn't answered so, where the client sends its bytes so many at a time.
fn first_wrong<'a>(
    rt: &impl Abort,
    alloc: Global,
    sent: &[u8],
    size: usize,
    rows: &'a [(&'a [u8], &'a [u8])],
) -> Option<&'a [u8]> {
    let mut port = site(rt, alloc);
    let ended = run(alloc, &mut port, sent, size, u64::MAX);
    if ended.end != Ok(End::Input) {
        return Some(b"no end of input");
    }
    first_other(ended.told.as_slice(), rows)
}

/// Ends the test with the first of these commands that a session at a URL doesn't answer so, whole or byte by byte.
pub(crate) fn are_answered<'a>(
    rt: &impl Abort,
    alloc: Global,
    url: &[u8],
    rows: &'a [(&'a [u8], &'a [u8])],
) {
    let sent = asking(rt, alloc, url, rows);
    none_is_wrong(rt, first_wrong(rt, alloc, &sent, sent.len(), rows));
    none_is_wrong(rt, first_wrong(rt, alloc, &sent, 1, rows));
}

/// What a session at a URL tells behind its opening where this is asked.
pub(crate) fn told_at(rt: &impl Abort, alloc: Global, url: &[u8], asked: &[u8]) -> Vec<u8> {
    let mut port = site(rt, alloc);
    let mut sent = opening(rt, alloc, url);
    sent.extend_from_slice(asked).expect(rt, "memory");
    let ended = run(alloc, &mut port, &sent, sent.len(), u64::MAX);
    match rest_behind(ended.told.as_slice(), &[GREETING, MECHANISMS, WELCOME]) {
        Some(rest) => Vec::from_slice(alloc, rest).expect(rt, "memory"),
        None => Vec::new(alloc),
    }
}

/// The first of these that a session at a URL tells another thing.
pub(crate) fn first_told_else<'a>(
    rt: &impl Abort,
    alloc: Global,
    url: &[u8],
    rows: &'a [(&'a [u8], &'a [u8])],
) -> Option<&'a [u8]> {
    for row in rows {
        if told_at(rt, alloc, url, row.0).as_slice() != row.1 {
            return Some(row.0);
        }
    }
    None
}

/// Ends the test with what is wrong, if anything is.
pub(crate) fn none_is_wrong(rt: &impl Abort, wrong: Option<&[u8]>) {
    if let Some(bytes) = wrong {
        rt.panic(str::from_utf8(bytes).unwrap_or("bytes that are no text"));
    }
}
