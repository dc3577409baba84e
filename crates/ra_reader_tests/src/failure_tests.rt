//! Readers and writers that fail, and bytes that are no items.

use crate::sessions::{ROOT, opening, run};
use crate::site::site;
use byte_streams::{CountedReader, MemOutput};
use ra_item::fault::ItemFault;
use ra_item::stream::ItemStream;
use ra_reader::{browse, browse_to};
use ra_serve::{End, RepoPort, ServeFault};
use std::alloc::Global;
use std::io;
use std::io::{ErrorKind, Write};
use std::process::Abort;
use std::rt::HostRuntime;

// A client that stands at the root and asks this.
fn asking(rt: &impl Abort, alloc: Global, asked: &[u8]) -> Vec<u8> {
    let mut sent = opening(rt, alloc, ROOT);
    sent.extend_from_slice(asked).expect(rt, "memory");
    sent
}

// How many reads of one byte each have to pass for a session to end with its input; none where fewer end it otherwise
// than by the reader.
fn reads_wanted<P: RepoPort>(alloc: Global, port: &mut P, sent: &[u8]) -> Option<u64> {
    for reads in 0..1_000 {
        let ended = run(alloc, port, sent, 1, reads);
        if ended.end == Ok(End::Input) {
            return Some(reads);
        }
        if ended.end != Err(ServeFault::ReadFailed) {
            return None;
        }
    }
    None
}

#[test]
fn a_reader_that_fails_is_told(rt: HostRuntime) {
    let alloc = rt.alloc();
    let mut port = site(&rt, alloc);
    let sent = asking(&rt, alloc, b"( get-latest-rev ( ) ) ");
    // the last read finds the end
    let wanted = (sent.len() as u64).checked_add(1);
    assert!(rt; reads_wanted(alloc, &mut port, &sent) == wanted);
}

/// A writer of whose calls so many pass, writes and flushes.
#[derive(Drop)]
struct Passing {
    left: u64,
}

impl Passing {
    // Lets one more call pass.
    fn pass(&mut self) -> io::Result<()> {
        if self.left == 0 {
            return Err(io::Error::from(ErrorKind::BrokenPipe));
        }
        self.left -= 1;
        Ok(())
    }
}

impl Write for Passing {
    fn write(&mut self, buf: &[u8]) -> io::Result<usize> {
        self.pass()?;
        Ok(buf.len())
    }

    fn flush(&mut self) -> io::Result<()> {
        self.pass()
    }
}

// How a session ends of whose calls to its writer so many pass.
fn ended<P: RepoPort>(
    alloc: Global,
    port: &mut P,
    sent: &[u8],
    left: u64,
) -> Result<End, ServeFault> {
    let mut items = ItemStream::new(alloc, CountedReader::new(sent));
    match browse(alloc, port, &mut items, Passing { left }) {
        Ok((_out, end)) => Ok(end),
        Err(fault) => Err(fault),
    }
}

// How many calls have to pass for it to end with its input; none where fewer end it otherwise than by the writer.
fn writes_wanted<P: RepoPort>(alloc: Global, port: &mut P, sent: &[u8]) -> Option<u64> {
    for left in 0..1_000 {
        match ended(alloc, port, sent, left) {
            Ok(End::Input) => return Some(left),
            Err(ServeFault::WriteFailed) => {}
            _ => return None,
        }
    }
    None
}

#[test]
fn a_writer_that_fails_is_told(rt: HostRuntime) {
    let alloc = rt.alloc();
    let mut port = site(&rt, alloc);
    let sent = asking(&rt, alloc, b"( stat ( 5:trunk ( ) ) ) ");
    // each of the four answers takes a write and a flush at least
    assert!(rt; writes_wanted(alloc, &mut port, &sent) > Some(7));
}

#[test]
fn bytes_that_are_no_items(rt: HostRuntime) {
    let alloc = rt.alloc();
    let mut port = site(&rt, alloc);
    let sent = asking(&rt, alloc, b") ");
    let ended = run(alloc, &mut port, &sent, 1, u64::MAX);
    assert!(rt; ended.end == Ok(End::Items(ItemFault::BadItem)));
    assert!(rt; port.latest().is_ok_and(|head| head.get() == 3));
}

// Why a session is given up of whose writes so many pass, and how many bytes its output has.
fn given_up<P: RepoPort>(
    alloc: Global,
    port: &mut P,
    sent: &[u8],
    writes: u64,
) -> (Option<ServeFault>, usize) {
    let mut items = ItemStream::new(alloc, CountedReader::new(sent));
    match browse_to(alloc, port, &mut items, MemOutput::new(alloc, writes)) {
        Ok((out, _end)) => (None, out.bytes().len()),
        Err(unserved) => match &unserved.out {
            Some(out) => (Some(unserved.fault), out.bytes().len()),
            None => (Some(unserved.fault), 0),
        },
    }
}

#[test]
fn an_output_that_counts_comes_back(rt: HostRuntime) {
    let alloc = rt.alloc();
    let mut port = site(&rt, alloc);
    let sent = asking(&rt, alloc, b"( get-latest-rev ( ) ) ");
    let (fault, all) = given_up(alloc, &mut port, &sent, u64::MAX);
    assert!(rt; fault.is_none() && all > 0);
    let (fault, some) = given_up(alloc, &mut port, &sent, 8);
    assert!(rt; fault == Some(ServeFault::WriteFailed) && some < all);
}
